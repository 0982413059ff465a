//! Whether the answers of a card's book agree with the separate program's.
use crate::best::Answer;
use crate::book_of::book_of;
use crate::card::Card;
use crate::columns::are_family;
use crate::lent::Lent;
use crate::tolls::support;
use crate::trouble::Trouble;
use crate::{greedily, written};
use book::Book;
use book::refusal::Refusal;
use std::alloc::AllocError;
use tariff::Tariff;
use tariff::pe::Pe;

/// No column has this number.
const UNTOUCHED: u8 = 0xFF;

const LONGEST_SHEET: usize = 32_844;

/// Whether a book greedily finds the columns that are found separately, a family of as many as the best, at no less charge.
pub fn greedy_agrees<T: Tariff>(
    card: &Card<T>,
    book: &Book<Lent<'_, T>>,
    best: Option<Answer>,
) -> Result<bool, AllocError> {
    let mut bytes = [UNTOUCHED; 64 * 64];
    let answered = book.greedy(&mut bytes);
    let found = greedily::find(card, &card.rows)?;
    let is_good = match (found.answer, best) {
        (None, None) => true,
        (Some(greedy), Some(best)) => {
            greedy.columns == best.columns
                && greedy.charge >= best.charge
                && are_family(card, &found.columns, greedy)
        }
        _ => false,
    };
    Ok(is_good && answered == told(found.answer) && are_written(&found.columns, &bytes))
}

/// Whether a buffer holds the PEs of columns by their physical columns, and is untouched behind them.
fn are_written(columns: &[Vec<Pe>], buffer: &[u8]) -> bool {
    let mut bytes = buffer.iter();
    for pes in columns {
        for pe in pes {
            if bytes.next() != Some(&pe.column) {
                return false;
            }
        }
    }
    bytes.all(|byte| *byte == UNTOUCHED)
}

/// Whether a book answers what is found separately where a row is left out.
pub fn trial_agrees<T: Tariff>(
    card: &Card<T>,
    book: &mut Book<Lent<'_, T>>,
    row: u8,
) -> Result<bool, AllocError> {
    let mut others = Vec::new(card.alloc);
    for standing in &card.rows {
        if *standing != row {
            others.push(*standing)?;
        }
    }
    Ok(book.trial(row) == told(greedily::find(card, &others)?.answer))
}

/// Whether a book makes a plan of as many columns as the best, at its charge.
pub fn route_agrees<T: Tariff>(book: &mut Book<T>, best: Option<Answer>) -> bool {
    book.route() == told(best)
}

/// Whether the sheet of a book's plan tells a best family, with tolls that support it, and another book takes that plan over.
pub fn sheet_agrees<T: Tariff>(
    card: &Card<T>,
    book: &Book<Lent<'_, T>>,
    best: Option<Answer>,
) -> Result<bool, Trouble> {
    let mut buffer = [0; LONGEST_SHEET];
    match (book.plan_out(&mut buffer), best) {
        (Err(Refusal::NoPlan), None) => Ok(true),
        (Ok(length), Some(best)) => match buffer.get(..length) {
            None => Ok(false),
            Some(sheet) => Ok(tells_plan(card, sheet, best)? && is_taken_over(card, sheet, best)?),
        },
        _ => Ok(false),
    }
}

/// Whether a sheet tells a family as told, with tolls that support it.
pub fn tells_plan<T: Tariff>(
    card: &Card<T>,
    sheet: &[u8],
    told: Answer,
) -> Result<bool, AllocError> {
    match written::read(card, sheet)? {
        None => Ok(false),
        Some(plan) => Ok(
            are_family(card, &plan.columns, told) && support(card, &plan.tolls, told)?,
        ),
    }
}

/// Whether another book of the card accepts a sheet, as told, and writes out the same again.
fn is_taken_over<T: Tariff>(card: &Card<T>, sheet: &[u8], best: Answer) -> Result<bool, Trouble> {
    let mut book = book_of(card)?;
    let judged = book.judge(sheet);
    let mut again = [0; LONGEST_SHEET];
    let length = book.plan_out(&mut again);
    Ok(judged == told(Some(best)) && length == Ok(sheet.len()) && again.starts_with(sheet))
}

/// How a book answers: by 6 where no row stands.
fn told(answer: Option<Answer>) -> Result<(u32, u32), Refusal> {
    match answer {
        None => Err(Refusal::NoRow),
        Some(Answer { columns, charge }) => Ok((columns, charge)),
    }
}
