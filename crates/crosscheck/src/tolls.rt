//! The tolls of a plan: whether they support its family.
use crate::best::Answer;
use crate::card::{Card, is_near};
use crate::written::Toll;
use std::alloc::AllocError;
use tariff::Tariff;
use tariff::pe::Pe;

/// What a column is worth.
pub const WORTH: u64 = 5_000_000;

/// Whether tolls lie where they may, no column is priced below the worth, and they add up for a family as told.
pub fn support<T: Tariff>(
    card: &Card<T>,
    tolls: &[Toll],
    told: Answer,
) -> Result<bool, AllocError> {
    let least = least_price(card, tolls)?;
    Ok(
        are_placed(card, tolls)
            && least.is_none_or(|price| price >= WORTH)
            && sum(tolls).saturating_add(u64::from(told.charge))
                == WORTH.saturating_mul(u64::from(told.columns)),
    )
}

/// Whether tolls are 1 to the worth, on usable PEs of standing rows, by row, then by column.
fn are_placed<T: Tariff>(card: &Card<T>, tolls: &[Toll]) -> bool {
    tolls.iter().all(|toll| {
        (1..=WORTH).contains(&toll.amount)
            && card.map.is_standing(toll.pe.row)
            && card.map.is_usable(toll.pe.row, toll.pe.column)
    }) && tolls
        .iter()
        .zip(tolls.iter().skip(1))
        .all(|(one, next)| is_before(one.pe, next.pe))
}

fn is_before(one: Pe, next: Pe) -> bool {
    one.row < next.row || one.row == next.row && one.column < next.column
}

fn sum(tolls: &[Toll]) -> u64 {
    let mut sum = 0u64;
    for toll in tolls {
        sum = sum.saturating_add(toll.amount);
    }
    sum
}

/// A PE, and the least price of going from there down to the last row.
#[derive(Clone, Copy)]
struct Priced {
    pe: Pe,
    price: u64,
}

/// The least price of a logical column, if there is one; the rows are priced from the last one up.
fn least_price<T: Tariff>(card: &Card<T>, tolls: &[Toll]) -> Result<Option<u64>, AllocError> {
    let mut below = None;
    for row in card.rows.iter().rev() {
        below = Some(priced_row(card, tolls, *row, below)?);
    }
    let mut least = None;
    if let Some(first) = below {
        for start in &first {
            let entry = card.tariff.entry(start.pe);
            least = lesser(least, start.price.saturating_add(u64::from(entry)));
        }
    }
    Ok(least)
}

/// Prices the PEs of a row from which the last row can be come to.
fn priced_row<T: Tariff>(
    card: &Card<T>,
    tolls: &[Toll],
    row: u8,
    below: Option<Vec<Priced>>,
) -> Result<Vec<Priced>, AllocError> {
    let mut priced = Vec::new(card.alloc);
    for pe in &card.usable_pes(row)? {
        let onward = match &below {
            None => Some(0),
            Some(below) => cheapest_link(card, *pe, below),
        };
        if let Some(onward) = onward {
            let price = onward.saturating_add(toll_at(tolls, *pe));
            priced.push(Priced { pe: *pe, price })?;
        }
    }
    Ok(priced)
}

fn toll_at(tolls: &[Toll], pe: Pe) -> u64 {
    match tolls.iter().find(|toll| toll.pe == pe) {
        None => 0,
        Some(toll) => toll.amount,
    }
}

/// The least price of going on from a PE.
fn cheapest_link<T: Tariff>(card: &Card<T>, upper: Pe, below: &[Priced]) -> Option<u64> {
    let mut least = None;
    for lower in below {
        if is_near(upper, lower.pe) {
            let link = card.tariff.link(upper, lower.pe);
            least = lesser(least, lower.price.saturating_add(u64::from(link)));
        }
    }
    least
}

fn lesser(least: Option<u64>, price: u64) -> Option<u64> {
    Some(least.map_or(price, |old| old.min(price)))
}
