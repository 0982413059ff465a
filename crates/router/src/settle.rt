//! Labels are settled again, as high as the ways allow.
ghost use Rattle.std.specs.Prelude.{◌≡◌, ℕ, ◌+◌, ◌<◌, ◌≤◌, min, slice_index};
ghost use Rattle.plans.specs.Tolls.{worth};
ghost use Rattle.router.specs.Boards.{Standing};
ghost use Rattle.router.specs.Searches.{Settled};

use crate::board::{Board, CELLS, Labels};
use crate::order;
use crate::search::Search;

/// Settles the labels; the last way that was made starts at the cell `start`.
pub fn settle(board: &mut Board, search: &mut Search, start: usize)
    requires { Standing board.old }
    ensures settled { Settled board.new search.new }
    ensures others { board.new ≡ record board.old { labels = board.new.labels } }
{
    search.begin(board);
    order::begin_beside(search, start);
    order::rest(search, board);
    raise(&mut board.labels, search);
}

// Raises the labels as far as the exit may rise, but where the label on trial is lower.
fn raise(labels: &mut Labels, search: &Search)
    requires low { (u : ℕ) → slice_index labels.old.into u ≤ labels.old.exit }
    requires above { (u : ℕ) → slice_index labels.old.into u ≤ slice_index search.now.label u }
    requires top { labels.old.exit + search.now.rise ≤ worth }
    ensures into { (u : ℕ) → slice_index labels.new.into u ≡ min (slice_index search.now.label u) (slice_index labels.old.into u + search.now.rise) }
    ensures exit { labels.new.exit ≡ labels.old.exit + search.now.rise }
{
    if search.rise == 0 {
        return;
    }
    for u in 0..CELLS {
        labels.into[u] = search.label[u].min(labels.into[u] + search.rise);
    }
    labels.exit += search.rise;
}
