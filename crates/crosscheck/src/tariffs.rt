//! Random tariffs.
use crate::chance::Chance;
use host::size::Size;
use tariff::heat::Heat;
use tariff::pe::Pe;
use tariff::wire_length::WireLength;
use tariff::{Refusal, Tariff};

/// The tariffs under which cards are compared.
#[derive(Clone, Copy)]
pub enum Kind {
    Links,
    WireLength,
    HeatOverLinks,
    HeatOverWireLength,
    TwoPilesOfHeat,
}

impl Kind {
    pub const ALL: [Kind; 5] = [
        Kind::Links,
        Kind::WireLength,
        Kind::HeatOverLinks,
        Kind::HeatOverWireLength,
        Kind::TwoPilesOfHeat,
    ];

    pub fn name(self) -> &'static str {
        match self {
            Kind::Links => "links",
            Kind::WireLength => "wire length",
            Kind::HeatOverLinks => "heat over links",
            Kind::HeatOverWireLength => "heat over wire length",
            Kind::TwoPilesOfHeat => "two piles of heat",
        }
    }
}

/// Any wire, more often short, so that heat over it has room.
pub fn random_wire(chance: &mut Chance) -> Result<WireLength, Refusal> {
    let most = chance.within(1, 250);
    WireLength::new(chance.within(1, most), chance.within(1, 2 * most))
}

/// A layer of heat over a card of this size; little heat often makes charges equal.
pub fn random_heat<T: Tariff + Drop>(
    below: T,
    size: Size,
    chance: &mut Chance,
) -> Result<Heat<T>, Refusal> {
    let mut heat = Heat::new(below);
    let most = chance.small(0, 255);
    for row in 0..size.rows() {
        for column in 0..size.columns() {
            heat.set(Pe::at(row, column), chance.small(0, most))?;
        }
    }
    Ok(heat)
}
