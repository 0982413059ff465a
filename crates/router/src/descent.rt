//! What it costs to come down, before any way is made. With labels that are as much below the exit's, a search goes first where ways are
//! cheap.
ghost use Rattle.std.specs.Prelude.{◌≡◌, ℕ, ◌+◌, ◌<◌, ◌≤◌, slice_index};
ghost use Rattle.plans.specs.Tolls.{worth};
ghost use Rattle.router.specs.Boards.{Shape};
ghost use Rattle.router.specs.Descents.{Descends, descent};

use crate::board::{CELLS, Grid, ROW};
use plans::WORTH;

/// What the links from each cell down to the last row cost at least; the worth where there is no way.
pub fn descents(grid: &Grid) -> [u32; CELLS]
    requires { Shape grid.now }
    ensures { Descends grid.now result 0 }
{
    let mut least = [WORTH; CELLS];
    let end = grid.last + ROW;
    for k in 0..end {
        let u = end - 1 - k;
        least[u] = descent(grid, &least, u);
    }
    least
}

// What they cost from the cell `u`, by what they cost from the cells below it.
fn descent(grid: &Grid, least: &[u32; CELLS], u: usize) -> u32
    requires shape { Shape grid.now }
    requires inside { u < CELLS }
    requires limit { (w : ℕ) → slice_index least.now w ≤ worth }
    ensures { result ≡ descent grid.now least.now u }
{
    if grid.tops[u] == 0 {
        return WORTH;
    }
    if u >= grid.last {
        return 0;
    }
    let links = grid.links[u];
    let left = least[u + ROW - 1] + links[0] as u32;
    let straight = least[u + ROW] + links[1] as u32;
    let right = least[u + ROW + 1] + links[2] as u32;
    WORTH.min(left).min(straight).min(right)
}

/// What the cheapest way costs, at most the worth.
pub fn cheapest(grid: &Grid, least: &[u32; CELLS]) -> u32
    requires limit { (w : ℕ) → slice_index least.now w ≤ worth }
    ensures limit { result ≤ worth }
    ensures cheapest { (u : ℕ) → u < ROW → result ≤ slice_index grid.now.entries u + slice_index least.now u }
{
    let mut cost = WORTH;
    for u in 0..ROW {
        cost = cost.min(grid.entries[u] as u32 + least[u]);
    }
    cost
}
