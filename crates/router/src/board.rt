//! A grid of cells, ways through it, and labels on them.
ghost use Rattle.std.specs.Prelude.{◌≡◌, ◌<◌, slice_index};
ghost use Rattle.flow.specs.Moves.{Opened, Linked, Dropped};
ghost use Rattle.router.specs.Boards.{Shape, Standing, flow_of, onward};

use crate::descent::{cheapest, descents};

/// How many cells stand in a row: one for each of 64 columns, and one at either end that is never usable.
pub const ROW: usize = 66;

/// 64 rows, and one below them that is never usable.
pub const CELLS: usize = 65 * ROW;

/// The PEs of the standing rows, going down, and what they charge. The cell s × 66 + j + 1 is the one in the standing row s,
/// counted from 0, and the physical column j.
#[derive(Drop)]
pub struct Grid {
    /// the worth in each usable cell, and 0 elsewhere
    pub tops: [u32; CELLS],
    /// the entry charges of the first row
    pub entries: [u16; ROW],
    /// the charges of the links from a cell to those below it: left, straight, right
    pub links: [[u16; 3]; CELLS],
    /// the first cell of the last row
    pub last: usize,
}

/// Which cells are used, where each goes on, where each comes from, and the charge of the link by which it comes. An unused cell
/// comes from itself.
#[derive(Drop)]
pub struct Ways {
    pub used: [bool; CELLS],
    pub next: [u16; CELLS],
    pub prev: [u16; CELLS],
    pub charge: [u16; CELLS],
}

/// The label above each cell, and the one at the exit, below the last row.
#[derive(Drop)]
pub struct Labels {
    pub into: [u32; CELLS],
    pub exit: u32,
}

#[derive(Drop)]
pub struct Board {
    pub grid: Grid,
    pub ways: Ways,
    pub labels: Labels,
}

impl Board {
    /// A board with a grid, not cleared yet.
    pub fn new(grid: Grid) -> Board
        ensures { result.grid ≡ grid }
    {
        Board {
            grid,
            ways: Ways {
                used: [false; CELLS],
                next: [0; CELLS],
                prev: [0; CELLS],
                charge: [0; CELLS],
            },
            labels: Labels {
                into: [0; CELLS],
                exit: 0,
            },
        }
    }

    /// No cell is used, and each label is as much below the exit's as it costs to come down.
    pub fn clear(&mut self)
        requires { Shape self.old.grid }
        ensures standing { Standing self.new }
        ensures grid { self.new.grid ≡ self.old.grid }
    {
        self.ways.used = [false; CELLS];
        self.ways.charge = [0; CELLS];
        let least = descents(&self.grid);
        let exit = cheapest(&self.grid, &least);
        self.labels.into = [0; CELLS];
        self.labels.exit = exit;
        for u in 0..CELLS {
            self.ways.prev[u] = u as u16;
            self.labels.into[u] = exit.saturating_sub(least[u]);
        }
    }
}

impl Ways {
    /// Has the cell `e` used.
    pub fn open(&mut self, e: usize)
        requires { e < CELLS }
        ensures { Opened (flow_of self.old) (flow_of self.new) e }
    {
        self.used[e] = true;
    }

    /// Has the cell `a` used and go on to `w`; answers the cell that bore the label below `a` until now.
    pub fn link(&mut self, a: usize, w: usize, charge: u16) -> usize
        requires inside { a < CELLS }
        requires hole { w < CELLS }
        ensures ways { Linked (flow_of self.old) (flow_of self.new) a w charge }
        ensures onward { result ≡ onward self.old a }
    {
        let onward = if self.used[a] {
            self.next[a] as usize
        } else {
            a
        };
        self.used[a] = true;
        self.next[a] = w as u16;
        self.prev[w] = a as u16;
        self.charge[w] = charge;
        onward
    }

    /// Has the cell `w` used no more; answers where it went on.
    pub fn drop(&mut self, w: usize) -> usize
        requires { w < CELLS }
        ensures ways { Dropped (flow_of self.old) (flow_of self.new) w }
        ensures onward { result ≡ slice_index self.old.next w }
    {
        self.used[w] = false;
        self.prev[w] = w as u16;
        self.charge[w] = 0;
        self.next[w] as usize
    }
}
