//! The search for better labels: labels on trial fall from cell to cell, until none that counts can fall further.
ghost use Rattle.std.specs.Prelude.{◌≡◌, ℕ, ◌+◌, ◌<◌, ◌≤◌, true, false, slice_index};
ghost use Rattle.flow.specs.Seeks.{Offer, Closer};
ghost use Rattle.router.specs.Boards.{Standing, Usable, net_of, flow_of, labels_of};
ghost use Rattle.router.specs.Searches.{Seeks, EnteredTo, Begun, Lowered, RestsAt, label_of, waits_of, reason, work};

use crate::board::{Board, CELLS, ROW};
use crate::queue::Queue;
use plans::WORTH;

/// A cell that is due then does not wait.
pub const NEVER: u32 = u32::MAX;

/// Why a label is what it is: by the entry charge, by the label below the cell itself, which is dropped, or by a link from above, to
/// the left, straight or to the right.
#[derive(Clone, Copy)]
pub enum Why {
    Entry,
    Dropped,
    Left,
    Straight,
    Right,
}

impl Why {
    ghost use Rattle.std.specs.Prelude.{MatchOption};
    ghost use Rattle.flow.specs.Seeks.{below};
    ghost use Rattle.router.specs.declared.search.Why.TheVariants.{Entry};

    /// The cell from whose label below the label above the cell `w` comes, or none where that is the entry charge.
    pub fn comes_from(self, w: usize) -> Option<usize>
        requires { w < CELLS }
        ensures { MatchOption result (self ≡ Entry) (λ a. reason w self ≡ below a) }
    {
        match self {
            Why::Entry => None,
            Why::Dropped => Some(w),
            Why::Left => Some((w + 1).saturating_sub(ROW)),
            Why::Straight => Some(w.saturating_sub(ROW)),
            Why::Right => Some(w.saturating_sub(ROW + 1)),
        }
    }
}

/// Labels on trial, and how far above its label each is that waits to be scanned; why each was last lowered; how far the exit may rise,
/// and the cell of the last row that says so; and a queue that suggests which cell to scan next.
#[derive(Drop)]
pub struct Search {
    pub label: [u32; CELLS],
    pub due: [u32; CELLS],
    pub why: [Why; CELLS],
    pub rise: u32,
    pub last: usize,
    pub queue: Queue,
}

impl Search {
    /// Room for a search; what is in it counts for nothing.
    pub fn new() -> Search {
        Search {
            label: [0; CELLS],
            due: [NEVER; CELLS],
            why: [Why::Entry; CELLS],
            rise: 0,
            last: 0,
            queue: Queue::new(),
        }
    }

    /// Begins a search: only labels of the first row are known. The queue is still to be begun anew.
    pub fn begin(&mut self, board: &Board)
        requires { Standing board.now }
        ensures { Begun board.now self.new }
    {
        self.clear(board);
        for u in 0..ROW {
            self.enter(board, u);
        }
    }

    /// Scans the cell `u` if it is due before the rise; says whether it did.
    pub fn look(&mut self, board: &Board, u: usize) -> bool
        requires begun { Begun board.now self.old }
        requires inside { u < CELLS }
        ensures begun { Begun board.now self.new }
        ensures less { result ≡ true → work self.new < work self.old }
        ensures no_more { work self.new ≤ work self.old }
        ensures same { result ≡ false → self.new ≡ self.old }
        ensures rests { result ≡ false → RestsAt self.new u }
    {
        if self.due[u] < self.rise {
            self.scan(board, u);
            return true;
        }
        false
    }

    // Passes the label on trial of the cell `u` on to those that it bounds; the cell waits no more.
    fn scan(&mut self, board: &Board, u: usize)
        requires begun { Begun board.now self.old }
        requires waits { waits_of self.old u ≡ true }
        ensures begun { Begun board.now self.new }
        ensures less { work self.new < work self.old }
    {
        let a = board.ways.prev[u] as usize;
        let base = self.label[u] - board.ways.charge[u] as u32;
        self.lower(board, a, base, Why::Dropped);
        if a < board.grid.last {
            let links = board.grid.links[a];
            // what is lowered last is scanned next: straight first
            self.lower(board, a + ROW + 1, base + links[2] as u32, Why::Right);
            self.lower(board, a + ROW - 1, base + links[0] as u32, Why::Left);
            self.lower(board, a + ROW, base + links[1] as u32, Why::Straight);
        }
        self.due[u] = NEVER;
    }

    // Nothing is lowered yet.
    fn clear(&mut self, board: &Board)
        requires { Standing board.now }
        ensures seeks { Seeks board.now self.new }
        ensures entered { EnteredTo board.now self.new 0 }
    {
        self.label = board.grid.tops;
        for u in 0..ROW {
            if board.ways.used[u] {
                self.label[u] = board.grid.entries[u] as u32;
            }
        }
        self.due = [NEVER; CELLS];
        self.rise = WORTH - board.labels.exit;
    }

    // Enters at the cell `u` of the first row, where it is not used.
    fn enter(&mut self, board: &Board, u: usize)
        requires seeks { Seeks board.now self.old }
        requires first { u < ROW }
        requires entered { EnteredTo board.now self.old u }
        ensures seeks { Seeks board.now self.new }
        ensures entered { EnteredTo board.now self.new (u + 1) }
    {
        if !board.ways.used[u] {
            self.lower(board, u, board.grid.entries[u] as u32, Why::Entry);
        }
    }

    // Lowers the label on trial of the cell `w` to `v`, where it is higher.
    fn lower(&mut self, board: &Board, w: usize, v: u32, why: Why)
        requires seeks { Seeks board.now self.old }
        requires inside { w < CELLS }
        requires offer { Usable board.now.grid w → Offer (net_of board.now.grid) (flow_of board.now.ways) (label_of self.old) w v (reason w why) }
        ensures seeks { Seeks board.now self.new }
        ensures lowered { Lowered self.old self.new w v }
    {
        if v < self.label[w] {
            let due = v - board.labels.into[w];
            self.label[w] = v;
            self.due[w] = due;
            self.why[w] = why;
            self.tell(board, w, due);
            self.queue.push(w as u16, due, self.rise);
        }
    }

    // How far the exit may rise, and the cell that says so, once the label on trial of the cell `w` is so far above its label.
    fn tell(&mut self, board: &Board, w: usize, due: u32)
        requires { w < CELLS }
        ensures closer { let v = slice_index board.now.labels.into w + due in Closer (net_of board.now.grid) (flow_of board.now.ways) (labels_of board.now.labels) w v self.old.rise self.old.last self.new.rise self.new.last }
        ensures others { self.new ≡ record self.old { rise = self.new.rise; last = self.new.last } }
    {
        if due < self.rise && w >= board.grid.last && !board.ways.used[w] {
            self.rise = due;
            self.last = w;
        }
    }
}
