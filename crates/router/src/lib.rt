//! The router's core: ways through a grid of cells that no others beat, and tolls that show it.
#![tactic(auto)]

ghost use Rattle.std.specs.Prelude.{◌≡◌};
ghost use Rattle.router.specs.Boards.{Shape, Standing};

pub mod board;
mod descent;
mod order;
pub mod queue;
pub mod search;
mod settle;
pub mod toll;
mod walk;

use board::Board;
use plans::WORTH;
use search::Search;

/// Finds the ways through a grid, as many as can be and among those the cheapest, and labels that show it.
pub fn solve(board: &mut Board, search: &mut Search)
    requires { Shape board.old.grid }
    ensures standing { Standing board.new }
    ensures top { board.new.labels.exit ≡ WORTH }
    ensures grid { board.new.grid ≡ board.old.grid }
{
    board.clear();
    settle::settle(board, search, 0);
    while board.labels.exit < WORTH {
        let start = walk::augment(board, search);
        settle::settle(board, search, start);
    }
}
