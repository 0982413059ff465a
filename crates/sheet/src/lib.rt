//! Sheets: the records of a plan as bytes, a reader that takes them in their turn, and a writer for producers.
#![tactic(auto)]

ghost use Rattle.sheet.specs.Laws.{Laws};

pub mod extent;
pub mod fault;
pub mod reader;
pub mod record;
pub mod state;
#[cfg(test)]
mod tests;
pub mod writer;

/// What is written reads back, and what is read was so written.
pub fn laws()
    ensures { Laws }
{}
