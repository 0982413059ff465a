//! A tariff of its own, as a user of the library would write one, and tests of all tariffs and of least prices.
#![tactic(auto)]

ghost use Rattle.own_tariff.specs.Span.{span};
ghost use Rattle.std.proofs.Common.{rules};

use tariff::Tariff;
use tariff::pe::Pe;

#[cfg(test)]
mod charges;
#[cfg(test)]
mod underpriced;

/// Links are charged by the rows they span, and entering by the column.
#[derive(Clone, Copy)]
pub struct Span;

impl Tariff for Span {
    ghost meaning = { λ _. span };

    ghost lawful = { Prim.search rules };

    fn entry(&self, pe: Pe) -> u32 {
        if pe.is_in_grid() {
            u32::from(pe.column)
        } else {
            0
        }
    }

    fn link(&self, upper: Pe, lower: Pe) -> u32 {
        if !upper.can_link_to(lower) {
            return 0;
        }
        let rows = u32::from(lower.row) - u32::from(upper.row);
        if upper.column == lower.column {
            rows
        } else {
            rows + 8
        }
    }

    fn ceiling(&self) -> u32 {
        71
    }
}
