//! Links: what a column costs is how many of its links are long.
ghost use Rattle.tariff.specs.Kinds.{links};
ghost use Rattle.std.proofs.Common.{rules};

use crate::Tariff;
use crate::kinds::link_by_kind;
use crate::pe::Pe;

/// Only long links are charged.
#[derive(Clone, Copy)]
pub struct Links;

impl Tariff for Links {
    ghost meaning = { λ _. links };

    ghost lawful = { Prim.search rules };

    fn entry(&self, pe: Pe) -> u32 {
        0
    }

    fn link(&self, upper: Pe, lower: Pe) -> u32 {
        link_by_kind(upper, lower, 0, 1)
    }

    fn ceiling(&self) -> u32 {
        1
    }
}
