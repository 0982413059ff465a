//! The writer of a plan's sheet: the head, the columns from left to right, the tolls, and the end.
#![tactic(auto)]

ghost use Rattle.std.specs.Prelude.{◌≡◌, ◌+◌, ◌<◌, ◌≤◌, ◌++◌, length};
ghost use Rattle.arrayvec.specs.ArrayVec.{array_vec_len};
ghost use Rattle.sheet.specs.Records.{size, bytes};
ghost use Rattle.plan_sheet.specs.Writing.{number, answer, buffer};
ghost use Rattle.plan_sheet.specs.Theorems.{WrittenIsAccepted, WrittenIsShort};
ghost use Rattle.plan_sheet.specs.Parts.{held_sheet, column_bytes, record_below, toll_bytes};

use arrayvec::ArrayVec;
use host::Host;
use masks::iter::Members;
use plans::held::HeldPlan;
use sheet::record::{Head, Record, Step, Toll};
use std::cmp::Ordering;

#[cfg(test)]
mod tests;

/// The buffer has no room for the whole sheet.
#[derive(Clone, Copy, PartialEq, Debug)]
pub struct ShortBuffer;

/// The number under which it is listed.
impl From<ShortBuffer> for u8 {
    ghost from_gives = { λ x r. r ≡ number x };

    fn from(_: ShortBuffer) -> u8 {
        21
    }
}

/// Room for any sheet.
type Bytes = ArrayVec<u8, 32_844>;

/// Writes the sheet of a plan at the front of a buffer, whole or not at all, and answers its length. The plan's family is its first
/// columns, so many of them; there are 64 at most.
// Made in memory of its own first, so that a buffer that is too short stays as it was.
pub fn write_plan(
    host: &Host,
    plan: &HeldPlan,
    columns: u32,
    out: &mut [u8],
) -> Result<usize, ShortBuffer>
    ensures answer { result ≡ answer host.now plan.now columns (length out.old) }
    ensures buffer { out.new ≡ buffer host.now plan.now columns out.old }
{
    let sheet = sheet_of(host, plan, columns.min(64) as usize);
    let length = sheet.len();
    if length > out.len() {
        return Err(ShortBuffer);
    }
    out[..length].copy_from_slice(&sheet);
    Ok(length)
}

/// The sheet of a plan, whose family is the first columns, so many of them.
fn sheet_of(host: &Host, plan: &HeldPlan, columns: usize) -> Bytes
    requires { columns ≤ 64 }
    ensures { result.items ≡ held_sheet host.now plan.now columns }
{
    let standing = host.standing();
    let mut sheet = ArrayVec::new();
    let head = Head {
        rows: host.size().rows(),
        columns: host.size().columns(),
        standing,
    };
    put(Record::Head(head), &mut sheet);
    let rows = host.standing_count() as usize;
    for n in 0..columns {
        put_column(plan, rows, n, &mut sheet);
    }
    for row in Members::of(standing) {
        put_tolls(plan, row, &mut sheet);
    }
    put(Record::End, &mut sheet);
    sheet
}

/// Puts column n of a plan, along so many rows, behind what has been put.
#[tactic(auto, using(crate::proofs::Parts::column_parts))]
fn put_column(plan: &HeldPlan, standing: usize, n: usize, sheet: &mut Bytes)
    requires rows { standing ≤ 64 }
    requires columns { n < 64 }
    requires room { array_vec_len sheet.old + length (column_bytes plan.now standing n) ≤ 32844 }
    ensures { sheet.new.items ≡ sheet.old.items ++ column_bytes plan.now standing n }
{
    let mut above = None;
    for s in 0..standing {
        let column = plan.rows[s].columns[n];
        put(record_below(above, column), sheet);
        above = Some(column);
    }
}

/// The record of a column's next PE: in the first row a start, and then a step from the PE above.
fn record_below(above: Option<u8>, column: u8) -> Record
    ensures { result ≡ record_below above column }
{
    let Some(above) = above else {
        return Record::Start(column);
    };
    Record::Step(match column.cmp(&above) {
        Ordering::Less => Step::Left,
        Ordering::Equal => Step::Straight,
        Ordering::Greater => Step::Right,
    })
}

/// Puts the tolls of a row, left to right, behind what has been put.
#[tactic(auto, using(crate::proofs::Parts::toll_parts))]
fn put_tolls(plan: &HeldPlan, row: u8, sheet: &mut Bytes)
    requires within { row < 64 }
    requires room { array_vec_len sheet.old + length (toll_bytes plan.now row) ≤ 32844 }
    ensures { sheet.new.items ≡ sheet.old.items ++ toll_bytes plan.now row }
{
    for column in 0..64 {
        let amount = plan.tolls[usize::from(row)][usize::from(column)];
        if amount > 0 {
            put(
                Record::Toll(Toll {
                    row,
                    column,
                    amount,
                }),
                sheet,
            );
        }
    }
}

/// Puts a record behind what has been put.
fn put(next: Record, sheet: &mut Bytes)
    requires { array_vec_len sheet.old + size next ≤ 32844 }
    ensures { sheet.new.items ≡ sheet.old.items ++ bytes next }
{
    let mut longest = [0; 11];
    let bytes = &mut longest[..next.size()];
    next.write(bytes);
    let _ = sheet.try_extend_from_slice(bytes);
}

/// The sheet of a plan that is held is accepted, with the plan's columns and tolls.
pub fn written_is_accepted()
    ensures { WrittenIsAccepted }
{}

/// Whatever is held, its sheet has at most 32,844 bytes.
pub fn written_is_short()
    ensures { WrittenIsShort }
{}
