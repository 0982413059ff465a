//! The tolls that a board tells.
ghost use Rattle.std.specs.Prelude.{◌≡◌, ℕ, ◌+◌, ◌*◌, ◌<◌, ◌≤◌, ◌^◌, [], length, sum, sum_by, slice_index_or};
ghost use Rattle.std.specs.List.{AllByRecursion};
ghost use Rattle.plans.specs.Columns.{GoingDown};
ghost use Rattle.plans.specs.Held.{at_each};
ghost use Rattle.router.specs.Boards.{Standing};
ghost use Rattle.router.specs.Tolls.{toll_of};
ghost use Rattle.route.specs.Holds.{cell};
ghost use Rattle.route.specs.Told.{told};

use router::board::{Board, ROW};
use router::toll::toll;

/// The toll of each PE, by row and physical column; `rows` are the standing rows.
pub fn by_row(board: &Board, rows: &[u8]) -> [[u32; 64]; 64]
    requires standing { Standing board.now }
    requires few { length rows.now ≤ 64 }
    requires down { GoingDown rows.now }
    requires limit { AllByRecursion (λ r. r < 64) rows.now }
    ensures { result ≡ at_each (λ r. at_each (told rows.now board.now r)) }
{
    let mut tolls = [[0; 64]; 64];
    for (s, row) in rows.iter().enumerate() {
        tolls[usize::from(*row)] = in_row(board, s * ROW + 1);
    }
    tolls
}

// Those of a row whose first column is the cell `first`.
fn in_row(board: &Board, first: usize) -> [u32; 64]
    requires standing { Standing board.now }
    requires inside { first ≤ 64 * ROW }
    ensures { result ≡ at_each (λ j. toll_of board.now (first + j)) }
{
    let mut tolls = [0; 64];
    for j in 0..64 {
        tolls[j] = toll(board, first + j);
    }
    tolls
}

/// The tolls of rows, added up.
pub fn sum(rows: &[u8], tolls: &[[u32; 64]; 64]) -> u32
    requires limit { AllByRecursion (λ r. r < 64) rows.now }
    requires fits { sum_by (λ r. sum (slice_index_or tolls.now r [])) rows.now < 2 ^ 32 }
    ensures { result ≡ sum_by (λ r. sum (slice_index_or tolls.now r [])) rows.now }
{
    let mut sum = 0;
    for row in rows {
        sum += tolls[usize::from(*row)].iter().sum::<u32>();
    }
    sum
}
