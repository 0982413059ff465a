//! Jobs: bytes that ask for calls on a card, and the listing of what came of them.
#![tactic(auto)]

ghost use Rattle.job.specs.Laws.{Laws};

mod card;
mod line;
pub mod listing;
mod page;
mod record;
pub mod refusal;
#[cfg(test)]
mod tests;

/// What holds of every listing.
pub fn laws()
    ensures { Laws }
{}
