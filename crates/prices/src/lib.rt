//! Least prices, row by row: whether some logical column is priced below the worth.
#![tactic(auto)]

ghost use Rattle.std.specs.Prelude.{◌≡◌, IsTrue, ◌↔◌};
ghost use Rattle.plans.specs.Tolls.{Underpriced};
ghost use Rattle.plans.specs.Masked.{masked, toll_table};

use least::Least;
use masks::iter::Members;
use tariff::Tariff;

mod least;

/// Whether some logical column is priced below the worth: bit r of `standing` says that row r stands, bit j of `usable[r]` that the
/// PE in row r and column j is usable, and `tolls[r][j]` is its toll.
// Two tables by row, not one of pairs: the usable PEs are the map's, the tolls a sheet's.
#[tactic(auto, using(masks::proofs::Members::passing_below))]
pub fn some_column_underpriced<T: Tariff>(
    tariff: &T,
    standing: u64,
    usable: &[u64; 64],
    tolls: &[[u32; 64]; 64],
) -> bool
    ensures { IsTrue result ↔ Underpriced (masked standing usable.now) (T.meaning tariff.now) (toll_table tolls.now) }
{
    let mut least = Least::none();
    for row in Members::of(standing) {
        let i = usize::from(row);
        least = least.below(tariff, row, usable[i], &tolls[i]);
    }
    least.is_some_below_worth()
}
