//! A card's map as routing sees it: the standing rows, going down, and which PEs are usable.
#![tactic(auto)]

ghost use Rattle.std.specs.Prelude.{◌≡◌};
ghost use Rattle.plans.specs.Masked.{usable_rows};
ghost use Rattle.routable.specs.Cards.{card_of};
ghost use Rattle.routable.specs.Laws.{Laws};

use arrayvec::ArrayVec;
use host::Host;
use masks::iter::Members;

/// The standing rows, going down.
pub fn standing_rows(host: &Host) -> ArrayVec<u8, 64>
    ensures { result.items ≡ (card_of host.now).rows }
{
    let mut rows = ArrayVec::new();
    for row in Members::of(host.standing()) {
        rows.push(row);
    }
    rows
}

/// The usable PEs of each standing row, going down.
pub fn usable_rows(host: &Host) -> ArrayVec<u64, 64>
    ensures { result.items ≡ usable_rows (card_of host.now) }
{
    let mut rows = ArrayVec::new();
    for row in Members::of(host.standing()) {
        rows.push(host.usable_in(row));
    }
    rows
}

/// What the definitions in the contracts tell of each other.
pub fn laws()
    ensures { Laws }
{}
