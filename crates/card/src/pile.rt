//! What columns of a drawn card cost: heat over wire length.
ghost use Rattle.std.specs.Prelude.{◌≡◌, ◌<◌, ◌≤◌, length};
ghost use Rattle.card.specs.Piles.{faulty, beside_fault, warm_pe, warm_row, IsPileOf};

use tariff::heat::Heat;
use tariff::pe::Pe;
use tariff::wire_length::WireLength;

/// The heat of a PE that is beside a faulty one.
const WARM: u8 = 2;

/// A short link takes wire of length 1, a long one 3; PEs beside a faulty one of their row are warm.
pub fn pile(lines: &[&[u8]]) -> Heat<WireLength>
    requires { length lines.now ≤ 64 }
    ensures { IsPileOf lines.now result }
{
    let mut heat = Heat::new(WireLength::new(1, 1).unwrap());
    for (row, line) in lines.iter().enumerate() {
        warm_row(&mut heat, row as u8, line);
    }
    heat
}

fn warm_row(heat: &mut Heat<WireLength>, row: u8, line: &[u8])
    requires { row < 64 }
    ensures below { heat.new.below ≡ heat.old.below }
    ensures heats { heat.new.heats ≡ warm_row heat.old.heats row line.now 64 }
{
    for column in 0..64 {
        warm_pe(heat, row, line, column);
    }
}

fn warm_pe(heat: &mut Heat<WireLength>, row: u8, line: &[u8], column: u8)
    requires row { row < 64 }
    requires column { column < 64 }
    ensures below { heat.new.below ≡ heat.old.below }
    ensures heats { heat.new.heats ≡ warm_pe heat.old.heats row line.now column }
{
    if is_beside_fault(line, column) {
        heat.set(Pe::at(row, column), WARM).unwrap();
    }
}

/// Whether the PE left or right of a column is faulty.
fn is_beside_fault(line: &[u8], column: u8) -> bool
    ensures { result ≡ beside_fault line.now column }
{
    let column = usize::from(column);
    column > 0 && is_faulty(line, column - 1) || is_faulty(line, column + 1)
}

fn is_faulty(line: &[u8], place: usize) -> bool
    ensures { result ≡ faulty line.now place }
{
    place < line.len() && line[place] == b'X'
}
