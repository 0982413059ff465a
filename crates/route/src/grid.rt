//! The grid of a card: what the router is told of its PEs and its tariff.
ghost use Rattle.std.specs.Prelude.{◌≡◌, ℕ, ◌-◌, ◌<◌, ◌≤◌, if◌then◌else◌, [], length, slice_index, slice_index_or};
ghost use Rattle.plans.specs.Tolls.{worth};
ghost use Rattle.routable.specs.Cards.{card_of};
ghost use Rattle.router.specs.Boards.{Shape};
ghost use Rattle.route.specs.Holds.{Holds};
ghost use Rattle.route.specs.Grids.{has_pe, links_to, links_from};

use host::Host;
use plans::WORTH;
use routable::usable_rows;
use router::board::{CELLS, Grid, ROW};
use tariff::Tariff;
use tariff::pe::Pe;

/// The grid of a card whose standing rows are given, at least one.
pub fn grid_of<T: Tariff>(host: &Host, tariff: &T, rows: &[u8]) -> Grid
    requires some { 0 < length rows.now }
    requires rows { rows.now ≡ (card_of host.now).rows }
    ensures holds { Holds (card_of host.now) (T.meaning tariff.now) result }
    ensures shape { Shape result }
{
    Grid {
        tops: tops(usable_rows(host).as_slice()),
        entries: entries(tariff, rows[0]),
        links: links(tariff, rows),
        last: (rows.len() - 1) * ROW,
    }
}

// The worth in the cells that have a usable PE, by the usable PEs of each row.
fn tops(rows: &[u64]) -> [u32; CELLS]
    ensures { (u : ℕ) → u < CELLS → slice_index result u ≡ (if has_pe rows.now u then worth else 0) }
{
    let mut tops = [0; CELLS];
    for u in 0..CELLS {
        tops[u] = if has_pe(rows, u) { WORTH } else { 0 };
    }
    tops
}

// Whether the cell `u` has one.
fn has_pe(rows: &[u64], u: usize) -> bool
    ensures { result ≡ has_pe rows.now u }
{
    let place = u % ROW;
    match rows.get(u / ROW) {
        Some(row) => place > 0 && masks::has(*row, (place - 1) as u8),
        None => false,
    }
}

// What it costs to enter at the cells of the first row.
fn entries<T: Tariff>(tariff: &T, row: u8) -> [u16; ROW]
    ensures { (u : ℕ) → u < ROW → slice_index result u ≡ (T.meaning tariff.now).entry row (u - 1) }
{
    let mut entries = [0; ROW];
    for u in 0..ROW {
        entries[u] = tariff.entry(Pe::at(row, u.saturating_sub(1) as u8)) as u16;
    }
    entries
}

// What links cost, by the cells from which they go: left, straight, right.
fn links<T: Tariff>(tariff: &T, rows: &[u8]) -> [[u16; 3]; CELLS]
    requires { length rows.now ≤ 64 }
    ensures { (u : ℕ) → u < CELLS → slice_index_or result u [] ≡ links_from (T.meaning tariff.now) rows.now u }
{
    let mut links = [[0; 3]; CELLS];
    for s in 1..rows.len() {
        for place in 0..ROW {
            let upper = Pe::at(rows[s - 1], place.saturating_sub(1) as u8);
            links[(s - 1) * ROW + place] = links_to(tariff, upper, rows[s]);
        }
    }
    links
}

// What the links from a PE to a row cost. Left of column 0 there is none.
fn links_to<T: Tariff>(tariff: &T, upper: Pe, row: u8) -> [u16; 3]
    requires { upper.column < 255 }
    ensures { result ≡ links_to (T.meaning tariff.now) upper row }
{
    let left = tariff.link(upper, Pe::at(row, upper.column.saturating_sub(1)));
    let straight = tariff.link(upper, Pe::at(row, upper.column));
    let right = tariff.link(upper, Pe::at(row, upper.column + 1));
    [left as u16, straight as u16, right as u16]
}
