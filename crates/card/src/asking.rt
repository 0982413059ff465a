//! What a list of calls on a book of a drawn card is answered.
ghost use Rattle.std.specs.Prelude.{◌≡◌, take};
ghost use Rattle.card.specs.Asking.{KeepsPromise, PlanWritten};
ghost use Rattle.card.specs.Scripts.{calls};

use crate::drawing::Drawing;
use crate::pile::pile;
use crate::script::Script;
use book::refusal::Refusal;
use promise::call::{Call, Reply};
use promise::replay::replay;

/// Room for greedy's columns on any card.
const ROOM: usize = 4096;

pub const GREEDY: Call<'static> = Call::Greedy { room: ROOM };

/// The reply to the last call.
pub fn reply(drawing: Drawing<'_>, script: &Script<'_>) -> Option<Result<Reply, Refusal>>
    ensures { KeepsPromise drawing.entry (calls script.now) result }
{
    let mut buffer = [0; ROOM];
    let (_book, reply) = replay(
        drawing.size,
        pile(drawing.lines),
        script.calls(),
        &mut buffer,
    );
    reply
}

/// The number of columns that the last call is answered, or 0 where it is answered none.
pub fn columns(drawing: Drawing<'_>, script: &Script<'_>) -> u32 {
    match reply(drawing, script) {
        Some(Ok(Reply::Counts(columns, _))) => columns,
        _ => 0,
    }
}

/// The sheet of the plan that is held after the calls, at the front of a buffer; nothing where none is held.
pub fn planned<'a>(drawing: Drawing<'_>, script: &Script<'_>, sheet: &'a mut [u8]) -> &'a [u8]
    ensures { PlanWritten drawing.entry (calls script.now) sheet.old result.now }
{
    let mut buffer = [0; ROOM];
    let (book, _reply) = replay(
        drawing.size,
        pile(drawing.lines),
        script.calls(),
        &mut buffer,
    );
    let length = book.plan_out(sheet).unwrap_or(0);
    front(sheet, length)
}

/// The first bytes, so many or as many as there are.
fn front(bytes: &[u8], most: usize) -> &[u8]
    ensures { result.now ≡ take most bytes.now }
{
    &bytes[..most.min(bytes.len())]
}
