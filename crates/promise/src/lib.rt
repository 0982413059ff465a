//! Calls on a book one after another, and what the book keeps whatever they are.
#![tactic(auto)]

pub mod call;
pub mod replay;
