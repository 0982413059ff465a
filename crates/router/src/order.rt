//! In which order cells are scanned: as the queue suggests them, and then what it left.
ghost use Rattle.std.specs.Prelude.{◌≡◌, ℕ, ◌<◌, ◌≤◌, true, false, Some};
ghost use Rattle.router.specs.Searches.{Begun, RestsAt, due_of, work};

use crate::board::{Board, CELLS, ROW};
use crate::queue::ROOM;
use crate::search::{NEVER, Search};

/// Scans cells until none is due before the rise.
pub fn rest(search: &mut Search, board: &Board)
    requires { Begun board.now search.old }
    ensures begun { Begun board.now search.new }
    ensures rests { (u : ℕ) → u < CELLS → RestsAt search.new u }
{
    follow(search, board);
    // keys past the queue's last bucket come in its next round
    while search.rise > 0
        && next_due(search) < search.rise
        && (resume(search, board) || pass(search, board))
    {}
}

/// Has the queue begin with the cells of the first row, so that it suggests first those to the left of a cell: the last one put in is the
/// first one out.
pub fn begin_beside(search: &mut Search, start: usize)
    ensures { search.new ≡ record search.old { queue = search.new.queue } }
{
    search.queue.restart(0);
    for k in 1..=ROW {
        let u = (start % ROW + k) % ROW;
        search.queue.push(u as u16, search.due[u], search.rise);
    }
}

// Scans cells as the queue suggests them; says whether any was scanned. It may leave some.
fn follow(search: &mut Search, board: &Board) -> bool
    requires { Begun board.now search.old }
    ensures begun { Begun board.now search.new }
    ensures no_more { work search.new ≤ work search.old }
    ensures less { result ≡ true → work search.new < work search.old }
{
    let mut any = false;
    for _ in 0..ROOM {
        match look_at_next(search, board) {
            Some(scanned) => any |= scanned,
            None => return any,
        }
    }
    any
}

// Looks at the next cell that the queue suggests, if it has one; says whether it was scanned.
fn look_at_next(search: &mut Search, board: &Board) -> Option<bool>
    requires { Begun board.now search.old }
    ensures begun { Begun board.now search.new }
    ensures no_more { work search.new ≤ work search.old }
    ensures less { result ≡ Some true → work search.new < work search.old }
{
    let u = search.queue.take(search.rise)?;
    if u >= CELLS {
        return Some(false);
    }
    Some(search.look(board, u))
}

// Has the queue begin anew with all cells that are due, and follows it.
fn resume(search: &mut Search, board: &Board) -> bool
    requires { Begun board.now search.old }
    ensures begun { Begun board.now search.new }
    ensures less { result ≡ true → work search.new < work search.old }
    ensures no_more { work search.new ≤ work search.old }
{
    suggest(search);
    follow(search, board)
}

// Puts all cells that are due into the queue.
fn suggest(search: &mut Search)
    ensures { search.new ≡ record search.old { queue = search.new.queue } }
{
    let base = next_due(search);
    search.queue.restart(base);
    for u in 0..CELLS {
        search.queue.push(u as u16, search.due[u], search.rise);
    }
}

// How soon a cell is due.
fn next_due(search: &Search) -> u32
    ensures { (u : ℕ) → u < CELLS → result ≤ due_of search.now u }
{
    let mut soonest = NEVER;
    for u in 0..CELLS {
        soonest = soonest.min(search.due[u]);
    }
    soonest
}

// Looks at each cell once; says whether any was scanned.
fn pass(search: &mut Search, board: &Board) -> bool
    requires { Begun board.now search.old }
    ensures begun { Begun board.now search.new }
    ensures less { result ≡ true → work search.new < work search.old }
    ensures rests { result ≡ false → (u : ℕ) → u < CELLS → RestsAt search.new u }
{
    let mut any = false;
    for u in 0..CELLS {
        if search.look(board, u) {
            any = true;
        }
    }
    any
}
