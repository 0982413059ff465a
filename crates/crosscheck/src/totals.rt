//! What is added up over the cards of a tariff.
use crate::compare::Compared;
use std::fmt;

#[derive(Clone, Copy, Default)]
pub struct Totals {
    cards: u64,
    columns: u64,
    charges: u64,
    differences: u64,
}

impl Totals {
    pub fn add(&mut self, card: Compared) {
        self.cards = self.cards.saturating_add(1);
        if let Some(best) = card.best {
            self.columns = self.columns.saturating_add(u64::from(best.columns));
            self.charges = self.charges.saturating_add(u64::from(best.charge));
        }
        if !card.agreed {
            self.differences = self.differences.saturating_add(1);
        }
    }
}

impl fmt::Display for Totals {
    fn fmt<W: fmt::Write>(&self, f: &mut fmt::Formatter<W>) -> fmt::Result {
        let Totals {
            cards,
            columns,
            charges,
            differences,
        } = *self;
        write!(
            f,
            "{cards} cards, {columns} columns, {charges} charges, {differences} differences"
        )
    }
}
