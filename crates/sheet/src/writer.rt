//! A writer of sheets for producers: it sees to the turn of each record, and checks no map.
ghost use Rattle.std.specs.Prelude.{◌≡◌, length};
ghost use Rattle.host.specs.Refusals.{answered};
ghost use Rattle.sheet.specs.Writers.{head_refusal, number, opening_answer, opening_buffer, put_answer, put_buffer, writer_after};
ghost use Rattle.sheet.specs.declared.writer.Refusal.TheVariants.{Card};

use crate::reader::Reader;
use crate::record::{Head, Record};
use host::size::Size;

/// Why a call on a writer is refused.
#[derive(Clone, Copy, PartialEq, Debug)]
pub enum Refusal {
    /// by the size test, or for a standing row that the card does not have
    Card(host::refusal::Refusal),
    /// no row stands
    NoRow,
    /// a record that may not come here
    OutOfTurn,
    /// the buffer has no room for the record
    ShortBuffer,
}

/// The number under which it is listed.
impl From<Refusal> for u8 {
    ghost from_gives = { λ x r. r ≡ number x };

    fn from(x: Refusal) -> u8 {
        match x {
            Refusal::Card(y) => u8::from(y),
            Refusal::NoRow => 6,
            Refusal::OutOfTurn => 9,
            Refusal::ShortBuffer => 21,
        }
    }
}

impl From<host::refusal::Refusal> for Refusal {
    ghost from_gives = { λ x r. r ≡ Card x };

    fn from(x: host::refusal::Refusal) -> Refusal {
        Refusal::Card(x)
    }
}

/// What has been written, as where a reader of it would stand.
// The buffer is given at each call, since it stays the producer's between them.
#[derive(Clone, Copy)]
pub struct Writer {
    reader: Reader,
}

impl Writer {
    /// Writes the head of a sheet at the front of a buffer, behind which starts, steps, tolls and the end are put.
    // By numbers and not by a `Head`, since they are tested before there is one.
    pub fn open(rows: u8, columns: u8, standing: u64, out: &mut [u8]) -> Result<Writer, Refusal>
        ensures answer { result ≡ opening_answer rows columns standing (length out.old) }
        ensures buffer { out.new ≡ opening_buffer rows columns standing out.old }
    {
        let head = tested_head(rows, columns, standing)?;
        let mut writer = Writer {
            reader: Reader::new(),
        };
        writer.put(Record::Head(head), out)?;
        Ok(writer)
    }

    /// Writes a record behind the last one and answers the length of the sheet so far; a refused call changes nothing.
    pub fn put(&mut self, next: Record, out: &mut [u8]) -> Result<usize, Refusal>
        ensures answer { result ≡ put_answer self.old next (length out.old) }
        ensures writer { self.new ≡ writer_after self.old next (length out.old) }
        ensures buffer { out.new ≡ put_buffer self.old next out.old }
    {
        let mut ahead = self.reader;
        ahead.turn(next).ok_or(Refusal::OutOfTurn)?;
        let at = ahead.at;
        if out.len().saturating_sub(at) < next.size() {
            return Err(Refusal::ShortBuffer);
        }
        ahead.at += next.size();
        next.write(&mut out[at..ahead.at]);
        self.reader = ahead;
        Ok(ahead.at)
    }
}

/// The head of a sheet for a card of this size with these standing rows, if there is such a card.
#[tactic(auto, using(crate::proofs::Outside::outside_is))]
fn tested_head(rows: u8, columns: u8, standing: u64) -> Result<Head, Refusal>
    ensures { result ≡ answered (head_refusal rows columns standing) (record { rows = rows; columns = columns; standing = standing }) }
{
    Size::test(rows, columns)?;
    if masks::without(standing, masks::below(rows)) != 0 {
        return Err(Refusal::Card(host::refusal::Refusal::Outside));
    }
    if standing == 0 {
        return Err(Refusal::NoRow);
    }
    Ok(Head {
        rows,
        columns,
        standing,
    })
}
