//! A reader that takes the records of a sheet, each in its turn.
ghost use Rattle.std.specs.Prelude.{◌≡◌};
ghost use Rattle.std.specs.Option.{option_map};
ghost use Rattle.sheet.specs.Turns.{turn};
ghost use Rattle.sheet.specs.Readings.{new_reader, turned, taken, answer_of, reader_after};

use crate::fault::SheetFault;
use crate::record::{Kind, Record};
use crate::state::State;
use records::record_at;

impl State {
    /// The state after a record, if it may come here.
    pub fn after(self, next: Record) -> Option<State>
        ensures { result ≡ turn self next }
    {
        // a reader's turn, whatever its place
        let mut reader = Reader { state: self, at: 0 };
        reader.turn(next)?;
        Some(reader.state)
    }
}

/// Where a reader is: what has come, and the place of the next record.
// The sheet is given at each call, as a writer is given its buffer: it may have grown, and no borrow lasts.
// No iterator: a fault leaves it where it was, so it would give that fault for ever.
#[derive(Clone, Copy)]
pub struct Reader {
    state: State,
    pub(crate) at: usize,
}

impl Reader {
    /// At the start of a sheet.
    pub fn new() -> Reader
        ensures { result ≡ new_reader }
    {
        Reader {
            state: State::Opening,
            at: 0,
        }
    }

    /// The place of the next record.
    pub fn place(&self) -> usize
        ensures { result ≡ self.now.at }
    {
        self.at
    }

    /// Takes the next record. A fault leaves the reader where it was.
    #[tactic(auto, using(crate::proofs::Places::next_at))]
    pub fn take(&mut self, sheet: &[u8]) -> Result<Record, SheetFault>
        ensures answer { result ≡ answer_of (taken self.old sheet.now) }
        ensures reader { self.new ≡ reader_after self.old (taken self.old sheet.now) }
    {
        let at = self.at;
        if at >= sheet.len() {
            return Err(SheetFault::NoEnd { at });
        }
        let (kind, body) = record_at::<Kind>(sheet, at)?;
        let next = Record::of(kind, body);
        let mut ahead = *self;
        ahead.turn(next).ok_or(SheetFault::OutOfTurn { at })?;
        ahead.at += next.size();
        if next == Record::End && ahead.at < sheet.len() {
            return Err(SheetFault::AfterEnd { at: ahead.at });
        }
        *self = ahead;
        Ok(next)
    }

    /// Takes a record in its turn, which settles what may come next. One that may not come here changes nothing.
    // The place is left to the callers, since a writer first tests whether there is room.
    pub(crate) fn turn(&mut self, next: Record) -> Option<()>
        ensures answer { result ≡ option_map (λ s. tt) (turn self.old.state next) }
        ensures reader { self.new ≡ turned self.old next }
    {
        match (&mut self.state, next) {
            (State::Opening, Record::Head(head)) => {
                self.state = State::Between {
                    standing: masks::count(head.standing),
                }
            }
            (State::Between { standing }, Record::Start(_)) if *standing > 1 => {
                self.state = State::Column {
                    standing: *standing,
                    left: *standing - 1,
                }
            }
            // A column of one PE is full at once.
            (State::Between { .. }, Record::Start(_)) => {}
            (State::Column { left, .. }, Record::Step(_)) if *left > 1 => *left -= 1,
            (State::Column { standing, .. }, Record::Step(_)) => {
                self.state = State::Between {
                    standing: *standing,
                }
            }
            (State::Between { .. } | State::Tolls, Record::Toll(_)) => self.state = State::Tolls,
            (State::Between { .. } | State::Tolls, Record::End) => self.state = State::Ended,
            _ => return None,
        }
        Some(())
    }
}
