//! The walk that makes one way more, back along the reasons from the last row to the first.
ghost use Rattle.std.specs.Prelude.{◌≡◌, ℕ, ◌-◌, ◌<◌};
ghost use Rattle.plans.specs.Tolls.{worth};
ghost use Rattle.router.specs.Boards.{Standing};
ghost use Rattle.router.specs.Searches.{Settled};
ghost use Rattle.router.specs.Walking.{Walks, Stepped, Rerouted, spare};

use crate::board::{Board, CELLS, ROW};
use crate::search::Search;

/// Makes one way more; answers the cell where it starts.
pub fn augment(board: &mut Board, search: &Search) -> usize
    requires settled { Settled board.old search.now }
    requires room { board.old.labels.exit < worth }
    ensures standing { Standing board.new }
    ensures fewer { spare board.new < spare board.old }
    ensures others { board.new ≡ record board.old { ways = board.new.ways } }
{
    board.ways.open(search.last);
    finish(board, search, search.last)
}

// Walks from the hole `w` to its end, and answers where that is: as each reason comes before the one that led to it, there are no more
// moves than cells.
fn finish(board: &mut Board, search: &Search, w: usize) -> usize
    requires { Walks board.old search.now w CELLS }
    ensures standing { Standing board.new }
    ensures others { Rerouted board.old board.new }
{
    let mut hole = w;
    for _ in 0..CELLS {
        match step(board, search, hole) {
            Some(next) => hole = next,
            None => return hole,
        }
    }
    hole
}

// One move from the hole `w`: where the hole is then, or nothing at the end.
fn step(board: &mut Board, search: &Search, w: usize) -> Option<usize>
    requires { (n : ℕ) × Walks board.old search.now w n }
    ensures steps { (n : ℕ) → Walks board.old search.now w n → Stepped board.new search.now (n - 1) result }
    ensures others { Rerouted board.old board.new }
{
    let Some(a) = search.why[w].comes_from(w) else {
        return None;
    };
    if a == w {
        return Some(board.ways.drop(w));
    }
    let charge = board.grid.links[a][w + 1 - (a + ROW)];
    Some(board.ways.link(a, w, charge))
}
