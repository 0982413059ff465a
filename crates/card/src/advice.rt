//! What trials tell of a drawn card: a row to leave out, and a PE to repair.
ghost use Rattle.std.specs.Prelude.{◌<◌, length};
ghost use Rattle.card.specs.Scripts.{calls};

use crate::asking::{GREEDY, columns};
use crate::drawing::Drawing;
use crate::script::Script;
use host::part::Part;
use promise::call::Call;
use tariff::pe::Pe;

/// The row without which the most PEs are in greedy's columns, if they are more than with all rows; the first of several.
pub fn row_to_leave_out(drawing: Drawing<'_>, pictures: &Script<'_>) -> Option<u8>
    requires { length (calls pictures.now) < 72 }
{
    let rows = u64::from(drawing.size.rows());
    let mut most = u64::from(columns(drawing, &pictures.with(GREEDY))) * rows;
    let mut left_out = None;
    for row in 0..drawing.size.rows() {
        let pes = u64::from(columns(drawing, &pictures.with(Call::Trial { row }))) * (rows - 1);
        if pes > most {
            most = pes;
            left_out = Some(row);
        }
    }
    left_out
}

/// The faulty PE whose repair gives greedy the most columns, if they are more than now; the first of several.
pub fn pe_to_repair(drawing: Drawing<'_>, script: &Script<'_>) -> Option<Pe>
    requires { length (calls script.now) < 71 }
{
    let mut best = Repair {
        pe: None,
        columns: columns(drawing, &script.with(GREEDY)),
    };
    for (row, line) in (0..64).zip(drawing.lines.iter()) {
        best = best_in_row(drawing, script, row, line, best);
    }
    best.pe
}

/// A PE to repair, if there is one, and greedy's columns then.
#[derive(Clone, Copy)]
struct Repair {
    pe: Option<Pe>,
    columns: u32,
}

/// The best repair so far, or one in this row that gives more columns.
fn best_in_row(
    drawing: Drawing<'_>,
    script: &Script<'_>,
    row: u8,
    line: &[u8],
    mut best: Repair,
) -> Repair
    requires { length (calls script.now) < 71 }
{
    for (column, drawn) in (0..64).zip(line.iter()) {
        if *drawn == b'X' {
            let part = Part::Pe(row, column);
            let repaired = script.with(Call::Mark { part, state: 0 }).with(GREEDY);
            let number = columns(drawing, &repaired);
            if number > best.columns {
                best = Repair {
                    pe: Some(Pe::at(row, column)),
                    columns: number,
                };
            }
        }
    }
    best
}
