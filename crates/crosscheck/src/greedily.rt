//! Greedy column rerouting: columns from left to right, each going left where it can.
use crate::best::Answer;
use crate::card::{Card, is_near};
use crate::columns::charges;
use crate::map::{Table, holds, set};
use std::alloc::AllocError;
use tariff::Tariff;
use tariff::pe::Pe;

/// The columns that are found over some rows, each by its PEs going down.
#[derive(Drop)]
pub struct Found {
    pub columns: Vec<Vec<Pe>>,
    /// their number and charge; none where there is no row
    pub answer: Option<Answer>,
}

pub fn find<T: Tariff>(card: &Card<T>, rows: &[u8]) -> Result<Found, AllocError> {
    let mut columns = Vec::new(card.alloc);
    let Some(first) = rows.first() else {
        return Ok(Found {
            columns,
            answer: None,
        });
    };
    let mut tried = [[false; 64]; 64];
    for start in &card.usable_pes(*first)? {
        let pes = column_from(card, rows, *start, &mut tried)?;
        if pes.len() == rows.len() {
            columns.push(pes)?;
        }
    }
    let answer = Some(Answer {
        columns: u32::try_from(columns.len()).unwrap_or(u32::MAX),
        charge: charges(card, &columns),
    });
    Ok(Found { columns, answer })
}

/// Goes down from a start as far left as can be, and back up where nothing untried is left; nothing stays where no way leads down.
fn column_from<T: Tariff>(
    card: &Card<T>,
    rows: &[u8],
    start: Pe,
    tried: &mut Table,
) -> Result<Vec<Pe>, AllocError> {
    let mut pes = Vec::new(card.alloc);
    pes.push(start)?;
    // Each PE is gone to once at most, and given up once at most.
    for _ in 0..2 * 64 * 64 {
        let Some(last) = pes.last().copied() else {
            break;
        };
        let Some(row) = rows.get(pes.len()) else {
            break;
        };
        match leftmost_untried(card, last, *row, tried)? {
            Some(pe) => {
                set(tried, pe.row, pe.column);
                pes.push(pe)?;
            }
            None => {
                pes.pop();
            }
        }
    }
    Ok(pes)
}

fn leftmost_untried<T: Tariff>(
    card: &Card<T>,
    upper: Pe,
    row: u8,
    tried: &Table,
) -> Result<Option<Pe>, AllocError> {
    for pe in &card.usable_pes(row)? {
        if is_near(upper, *pe) && !holds(tried, pe.row, pe.column) {
            return Ok(Some(*pe));
        }
    }
    Ok(None)
}
