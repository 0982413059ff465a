//! The columns of the ways on a board.
ghost use Rattle.std.specs.Prelude.{◌≡◌, ℕ, ◌+◌, ◌-◌, ◌*◌, ◌<◌, ◌≤◌, map, length, slice_index, slice_index_or};
ghost use Rattle.std.specs.List.{AllByRecursion};
ghost use Rattle.plans.specs.Held.{at_each, held_row};
ghost use Rattle.router.specs.Boards.{Standing};
ghost use Rattle.route.specs.Told.{first_cells, columns};

use arrayvec::ArrayVec;
use plans::held::HeldRow;
use router::board::{Board, CELLS, ROW};

/// The cells where ways start, left to right.
pub fn starts(board: &Board) -> ArrayVec<u16, 64>
    ensures { result.items ≡ first_cells board.now }
{
    let mut cells = ArrayVec::new();
    for u in 1..65 {
        if board.ways.used[u] {
            cells.push(u as u16);
        }
    }
    cells
}

/// The physical columns of the ways in each of the first `rows` rows.
pub fn by_row(board: &Board, rows: usize, mut starts: ArrayVec<u16, 64>) -> [HeldRow; 64]
    requires standing { Standing board.now }
    requires rows { board.now.grid.last + ROW ≡ rows * ROW }
    requires starts { starts.items ≡ first_cells board.now }
    ensures { result ≡ at_each (held_row (columns board.now rows)) }
{
    let mut held = [HeldRow { columns: [0; 64] }; 64];
    let cells = starts.as_mut_slice();
    for s in 0..rows {
        held[s] = in_row(cells, s * ROW + 1);
        go_on(board, cells);
    }
    held
}

// The physical columns of cells of a row, whose first column is the cell `first`.
fn in_row(cells: &[u16], first: usize) -> HeldRow
    requires few { length cells.now ≤ 64 }
    requires inside { AllByRecursion (λ u. (first ≤ u) × (u < first + 64)) cells.now }
    ensures { result.columns ≡ at_each (λ n. slice_index_or cells.now n first - first) }
{
    let mut columns = [0; 64];
    for (n, cell) in cells.iter().enumerate() {
        columns[n] = (usize::from(*cell) - first) as u8;
    }
    HeldRow { columns }
}

// Has each of the cells go on to the next row.
fn go_on(board: &Board, cells: &mut [u16])
    requires { AllByRecursion (λ u. u < CELLS) cells.old }
    ensures { cells.new ≡ map (slice_index board.now.ways.next) cells.old }
{
    for cell in cells.iter_mut() {
        *cell = board.ways.next[usize::from(*cell)];
    }
}
