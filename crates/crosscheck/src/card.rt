//! A card as the separate program is asked about it: where columns can go, and what they cost.
use crate::map::Map;
use std::alloc::{AllocError, Global};
use tariff::Tariff;
use tariff::pe::Pe;

#[derive(Drop)]
pub struct Card<T> {
    pub alloc: Global,
    pub map: Map,
    pub tariff: T,
    /// the standing rows, going down
    pub rows: Vec<u8>,
}

impl<T: Tariff + Drop> Card<T> {
    pub fn new(alloc: Global, map: Map, tariff: T) -> Result<Card<T>, AllocError> {
        let mut rows = Vec::new(alloc);
        for row in 0..map.size.rows() {
            if map.is_standing(row) {
                rows.push(row)?;
            }
        }
        Ok(Card {
            alloc,
            map,
            tariff,
            rows,
        })
    }
}

impl<T> Card<T> {
    /// The usable PEs of a row, from left to right.
    pub fn usable_pes(&self, row: u8) -> Result<Vec<Pe>, AllocError> {
        let mut pes = Vec::new(self.alloc);
        for column in 0..self.map.size.columns() {
            if self.map.is_usable(row, column) {
                pes.push(Pe::at(row, column))?;
            }
        }
        Ok(pes)
    }
}

/// Whether a PE of the next standing row is near enough for a link.
pub fn is_near(upper: Pe, lower: Pe) -> bool {
    upper.column.abs_diff(lower.column) <= 1
}
