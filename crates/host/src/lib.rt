//! The map of one card: which PEs and switches are faulty, and which rows are chosen.
#![tactic(auto)]

ghost use Rattle.std.specs.Prelude.{◌≡◌};
ghost use Rattle.host.specs.Changes.{opened};
ghost use Rattle.host.specs.Laws.{Laws};

mod changes;
pub mod part;
mod questions;
pub mod refusal;
pub mod size;
#[cfg(test)]
mod tests;

use size::Size;

/// What is faulty in row i of a card: bit j is set where the PE or switch (i, j) is.
#[derive(Clone, Copy, Default)]
pub struct Row {
    /// faulty PEs
    pes: u64,
    /// faulty row switches
    across: u64,
    /// faulty column switches
    down: u64,
}

/// A card's map.
#[derive(Drop)]
pub struct Host {
    size: Size,
    rows: [Row; 64],
    /// bit i is set where row i is chosen
    choice: u64,
}

impl Host {
    /// A card on which all is healthy and every row is chosen.
    pub fn open(size: Size) -> Host
        ensures { result ≡ opened size }
    {
        Host {
            size,
            rows: [Row::default(); 64],
            choice: masks::below(size.rows()),
        }
    }
}

/// What the definitions in the contracts tell of each other.
pub fn laws()
    ensures { Laws }
{}
