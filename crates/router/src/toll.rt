//! The tolls that the labels tell.
ghost use Rattle.std.specs.Prelude.{◌≡◌, ℕ, ◌<◌, slice_index};
ghost use Rattle.router.specs.Boards.{Standing};
ghost use Rattle.router.specs.Tolls.{toll_of};

use crate::board::{Board, CELLS};

/// The toll of the cell `u`: how far it raises its label, if it is used.
#[tactic(auto, using(crate::proofs::Lows::next_inside, crate::proofs::Lows::next_high))]
pub fn toll(board: &Board, u: usize) -> u32
    requires standing { Standing board.now }
    requires inside { u < CELLS }
    ensures { result ≡ toll_of board.now u }
{
    if !board.ways.used[u] {
        return 0;
    }
    if u >= board.grid.last {
        return board.labels.exit - board.labels.into[u];
    }
    let next = board.ways.next[u] as usize;
    board.labels.into[next] - board.ways.charge[next] as u32 - board.labels.into[u]
}
