//! Charges by the kind of a link alone.
ghost use Rattle.std.specs.Prelude.{◌≡◌};
ghost use Rattle.tariff.specs.Kinds.{by_kind};

use crate::pe::Pe;

/// One charge for every short link, and one for every long link.
pub fn link_by_kind(upper: Pe, lower: Pe, short: u32, long: u32) -> u32
    ensures { result ≡ (by_kind short long).link upper.row upper.column lower.row lower.column }
{
    if !upper.can_link_to(lower) {
        0
    } else if upper.column == lower.column {
        short
    } else {
        long
    }
}
