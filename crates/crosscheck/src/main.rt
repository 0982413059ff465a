//! Compares a book's answers with those of a separate program, on random cards: crosscheck [FIRST_SEED [SEEDS]]
#![tactic(auto)]

use crate::chance::Chance;
use crate::compare::compare;
use crate::tariffs::Kind;
use crate::totals::Totals;
use crate::trouble::Trouble;
use std::env;

mod best;
mod book_of;
mod card;
mod chance;
mod columns;
mod compare;
mod greedily;
mod lent;
mod map;
mod maps;
mod network;
mod ours;
mod paths;
mod tariffs;
#[cfg(test)]
mod tests;
mod tolls;
mod totals;
mod trouble;
mod written;

fn main(rt: HostRuntime) -> Result<(), Trouble> {
    let mut words = env::args(&rt)?;
    let _program = words.next();
    let first = number(words.next(), 1)?;
    let seeds = number(words.next(), 4000)?;
    for kind in Kind::ALL {
        let mut totals = Totals::default();
        for seed in first..first.saturating_add(seeds) {
            let card = compare(rt.alloc(), kind, seed)?;
            if !card.agreed {
                println!(rt; "{}: they differ at seed {seed}", kind.name())?;
            }
            totals.add(card);
        }
        println!(rt; "{}: {totals}", kind.name())?;
    }
    Ok(())
}

/// The number that a word tells, or another where there is no word.
fn number(word: Option<String>, otherwise: u64) -> Result<u64, Trouble> {
    match word {
        None => Ok(otherwise),
        Some(word) => word.parse::<u64>().map_err(|_| Trouble::NoNumber),
    }
}
