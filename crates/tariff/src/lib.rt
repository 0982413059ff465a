//! What a PE and a link cost: the interface of a tariff, three tariffs, and the charge of a column.
#![tactic(auto)]

ghost use Rattle.std.specs.Prelude.{◌≡◌};
ghost use Rattle.tariff.specs.Meaning.{Meaning, Lawful};
ghost use Rattle.tariff.specs.Refusals.{number};

pub mod column;
pub mod heat;
mod kinds;
pub mod links;
pub mod pe;
pub mod wire_length;

use pe::Pe;

/// Asking a tariff changes nothing and is never refused; what is no PE and no link costs nothing.
pub trait Tariff {
    ghost meaning: { Self → Meaning };

    /// The charge of entering at a PE.
    fn entry(&self, pe: Pe) -> u32
        ensures { result ≡ (meaning self.now).entry pe.row pe.column };

    /// The charge of a link from a PE to one in a later row, at most one column aside.
    fn link(&self, upper: Pe, lower: Pe) -> u32
        ensures { result ≡ (meaning self.now).link upper.row upper.column lower.row lower.column };

    /// No charge is larger.
    fn ceiling(&self) -> u32
        ensures { result ≡ (meaning self.now).ceiling };

    ghost lawful: { (t : Self) → Lawful (meaning t) };
}

/// Why a call on a tariff is refused.
#[derive(Clone, Copy, PartialEq, Debug)]
pub enum Refusal {
    OutsideGrid,
    WireOutOfRange,
}

/// The number under which it is listed.
impl From<Refusal> for u8 {
    ghost from_gives = { λ x r. r ≡ number x };

    fn from(x: Refusal) -> u8 {
        match x {
            Refusal::OutsideGrid => 2,
            Refusal::WireOutOfRange => 23,
        }
    }
}
