//! Columns: whether they are a family without crossings, and what they cost.
use crate::best::Answer;
use crate::card::{Card, is_near};
use tariff::Tariff;
use tariff::pe::Pe;

/// Whether these are as many columns as told, logical columns from left to right, so that no two share a PE or cross, at the charge
/// that is told; each is told by its PEs going down.
pub fn are_family<T: Tariff>(card: &Card<T>, columns: &[Vec<Pe>], told: Answer) -> bool {
    columns.len() == told.columns as usize
        && columns.iter().all(|pes| is_column(card, pes))
        && columns
            .iter()
            .zip(columns.iter().skip(1))
            .all(|(left, right)| lies_left(left, right))
        && charges(card, columns) == told.charge
}

/// Whether there is a usable PE in each standing row, near the next one.
fn is_column<T: Tariff>(card: &Card<T>, pes: &[Pe]) -> bool {
    pes.len() == card.rows.len()
        && pes.iter().zip(&card.rows).all(|(pe, row)| pe.row == *row)
        && pes.iter().all(|pe| card.map.is_usable(pe.row, pe.column))
        && pes
            .iter()
            .zip(pes.iter().skip(1))
            .all(|(upper, lower)| is_near(*upper, *lower))
}

/// Whether one column lies left of another in every row.
fn lies_left(left: &[Pe], right: &[Pe]) -> bool {
    left.iter().zip(right).all(|(a, b)| a.column < b.column)
}

/// What columns cost together.
pub fn charges<T: Tariff>(card: &Card<T>, columns: &[Vec<Pe>]) -> u32 {
    let mut sum = 0u32;
    for pes in columns {
        if let Some(first) = pes.first() {
            sum = sum.saturating_add(card.tariff.entry(*first));
        }
        for (upper, lower) in pes.iter().zip(pes.iter().skip(1)) {
            sum = sum.saturating_add(card.tariff.link(*upper, *lower));
        }
    }
    sum
}
