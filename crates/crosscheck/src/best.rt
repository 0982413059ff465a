//! How many columns a best family has, and what it costs.
use crate::card::Card;
use crate::network::{Network, SOURCE};
use std::alloc::AllocError;
use tariff::Tariff;

/// A number of columns and their total charge.
#[derive(Clone, Copy, PartialEq, Debug)]
pub struct Answer {
    pub columns: u32,
    pub charge: u32,
}

/// By the greatest flow at the least cost; none where no row stands.
pub fn best_family<T: Tariff>(card: &Card<T>) -> Result<Option<Answer>, AllocError> {
    if card.rows.is_empty() {
        return Ok(None);
    }
    let mut network = Network::of_card(card)?;
    network.fill(card.alloc)?;
    let mut best = Answer {
        columns: 0,
        charge: 0,
    };
    for edge in &network.edges {
        if edge.used {
            best.charge = best.charge.saturating_add(edge.cost);
            if edge.from == SOURCE {
                best.columns = best.columns.saturating_add(1);
            }
        }
    }
    Ok(Some(best))
}
