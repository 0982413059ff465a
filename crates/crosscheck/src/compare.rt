//! What is compared on one random card.
use crate::best::{Answer, best_family};
use crate::book_of::book_of;
use crate::card::Card;
use crate::chance::Chance;
use crate::map::Map;
use crate::maps::{random_map, random_row};
use crate::ours::{greedy_agrees, route_agrees, sheet_agrees, trial_agrees};
use crate::tariffs::{Kind, random_heat, random_wire};
use crate::trouble::Trouble;
use std::alloc::Global;
use tariff::Tariff;
use tariff::links::Links;

/// What a card carries at best, and whether our programs agree.
#[derive(Clone, Copy)]
pub struct Compared {
    pub best: Option<Answer>,
    pub agreed: bool,
}

/// Compares on the card that a seed gives, with a tariff of this kind.
pub fn compare(alloc: Global, kind: Kind, seed: u64) -> Result<Compared, Trouble> {
    let mut chance = Chance::of_seed(seed);
    let map = random_map(&mut chance)?;
    let size = map.size;
    let chance = &mut chance;
    match kind {
        Kind::Links => compare_on(alloc, map, Links, chance),
        Kind::WireLength => {
            let wire = random_wire(chance)?;
            compare_on(alloc, map, wire, chance)
        }
        Kind::HeatOverLinks => {
            let heat = random_heat(Links, size, chance)?;
            compare_on(alloc, map, heat, chance)
        }
        Kind::HeatOverWireLength => {
            let wire = random_wire(chance)?;
            let heat = random_heat(wire, size, chance)?;
            compare_on(alloc, map, heat, chance)
        }
        Kind::TwoPilesOfHeat => {
            let wire = random_wire(chance)?;
            let one = random_heat(wire, size, chance)?;
            let two = random_heat(one, size, chance)?;
            compare_on(alloc, map, two, chance)
        }
    }
}

fn compare_on<T: Tariff + Drop>(
    alloc: Global,
    map: Map,
    tariff: T,
    chance: &mut Chance,
) -> Result<Compared, Trouble> {
    let card = Card::new(alloc, map, tariff)?;
    let best = best_family(&card)?;
    let mut book = book_of(&card)?;
    // The sheet is written out last: no other call here may alter the plan.
    let agreed = route_agrees(&mut book, best)
        && greedy_agrees(&card, &book, best)?
        && trial_agrees(&card, &mut book, random_row(map.size, chance))?
        && sheet_agrees(&card, &book, best)?;
    Ok(Compared { best, agreed })
}
