//! Greedy column rerouting: the search for columns, from left to right.
#![tactic(auto)]

ghost use Rattle.std.specs.Prelude.{◌≡◌, ◌-◌, ◌*◌, ◌≤◌, length};
ghost use Rattle.greedy.specs.Search.{neighbour, reach, try_leftmost, try_lower, usable_starts, greedy};
ghost use Rattle.greedy.specs.Answers.{seen, told, one_after_another, at_front};
ghost use Rattle.greedy.specs.Laws.{Laws};

use masks::iter::Members;

#[cfg(test)]
mod tests;

/// Writes the columns that greedy finds to `out`, one after another, and answers how many there are.
/// Number s of `untried` has the usable PEs of the standing row s, and is left with those that were not tried.
pub fn search(untried: &mut [u64], out: &mut [u8]) -> u32
    requires { usable_starts untried.old * length untried.old ≤ length out.old }
    ensures number { result ≡ length (greedy untried.old).columns }
    ensures bytes { out.new ≡ at_front (one_after_another (greedy untried.old).columns) out.old }
    ensures untried { untried.new ≡ (greedy untried.old).untried }
{
    let rows = untried.len();
    let starts = untried.first().copied().unwrap_or(0);
    // Counted by hand: not every start takes a chunk of `out`, and the proof loses what `chunks_exact_mut` leaves behind it.
    let mut columns = 0;
    for start in Members::of(starts) {
        let at = columns as usize * rows;
        if reach(start, untried, &mut out[at..at + rows]) {
            columns += 1;
        }
    }
    columns
}

/// What greedy finds on any card, and what it tries.
pub fn laws()
    ensures { Laws }
{}

/// Whether a column can be completed from the PE in this column of the first row; it is written to `path`.
// A yes or no, since the column lies in the caller's buffer. A struct of the slices would tell both loans in each contract.
#[cycle(reaching)]
fn reach(column: u8, untried: &mut [u64], path: &mut [u8]) -> bool
    requires { length path.old ≡ length untried.old }
    ensures { seen result path.new untried.new ≡ told path.old (reach (length untried.old - 1) column untried.old) }
{
    let Some((row, lower)) = untried.split_first_mut() else {
        return false;
    };
    *row = masks::with(*row, column, false);
    if lower.is_empty() || try_lower(column, lower, &mut path[1..]) {
        path[0] = column;
        return true;
    }
    false
}

/// Tries the lower neighbours of a PE, left first; there are three at most.
#[cycle(reaching)]
fn try_lower(column: u8, untried: &mut [u64], path: &mut [u8]) -> bool
    requires { length path.old ≡ length untried.old }
    ensures { seen result path.new untried.new ≡ told path.old (try_lower (reach (length untried.old - 1)) column untried.old) }
{
    try_leftmost(column, untried, path)
        || try_leftmost(column, untried, path)
        || try_leftmost(column, untried, path)
}

/// Reaches the leftmost untried lower neighbour, if there is one.
#[cycle(reaching)]
fn try_leftmost(column: u8, untried: &mut [u64], path: &mut [u8]) -> bool
    requires { length path.old ≡ length untried.old }
    ensures { seen result path.new untried.new ≡ told path.old (try_leftmost (reach (length untried.old - 1)) column untried.old) }
{
    match untried.first().and_then(|row| neighbour(*row, column)) {
        Some(next) => reach(next, untried, path),
        None => false,
    }
}

/// The leftmost PE of a row that is at most one column aside.
fn neighbour(row: u64, column: u8) -> Option<u8>
    ensures { result ≡ neighbour row column }
{
    let near = masks::without(
        masks::below(column.saturating_add(2)),
        masks::below(column.saturating_sub(1)),
    );
    masks::lowest(masks::common(row, near))
}
