//! Wire length: a link costs the wire that it takes.
ghost use Rattle.std.specs.Prelude.{◌≡◌, ◌+◌, ◌*◌, true, false, MatchResult};
ghost use Rattle.tariff.specs.Kinds.{wire_length, wire_range};
ghost use Rattle.tariff.specs.KindLaws.{by_kind_lawful, range_parts};
ghost use Rattle.std.proofs.Common.{arith};

use crate::kinds::link_by_kind;
use crate::pe::Pe;
use crate::{Refusal, Tariff};

/// The wire of a short link is d long, that of a long link 2d + w.
#[derive(Clone, Copy)]
pub struct WireLength {
    d: u32,
    w: u32,
    ghost in_range: { wire_range d w ≡ true },
}

impl WireLength {
    /// Refused unless d is 1 to 250 and w is 1 to 500.
    pub fn new(d: u32, w: u32) -> Result<WireLength, Refusal>
        ensures { MatchResult result (λ t. (wire_range d w ≡ true) × (t.d ≡ d) × (t.w ≡ w)) (λ e. (wire_range d w ≡ false) × (e ≡ Refusal.WireOutOfRange)) }
    {
        if (1..=250).contains(&d) && (1..=500).contains(&w) {
            Ok(WireLength { d, w })
        } else {
            Err(Refusal::WireOutOfRange)
        }
    }

    // The charge of a long link.
    fn long(&self) -> u32
        ensures { result ≡ 2 * self.now.d + self.now.w }
    {
        2 * self.d + self.w
    }
}

impl Tariff for WireLength {
    ghost meaning = { λ t. wire_length t.d t.w };

    ghost lawful = { λ t. let range = range_parts t.d t.w t.in_range in by_kind_lawful _ _ (omega arith) (omega arith) };

    fn entry(&self, pe: Pe) -> u32 {
        0
    }

    fn link(&self, upper: Pe, lower: Pe) -> u32 {
        link_by_kind(upper, lower, self.d, self.long())
    }

    fn ceiling(&self) -> u32 {
        self.long()
    }
}
