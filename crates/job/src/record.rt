//! The records of a job: a byte of kind, and a body whose length the kind fixes.
ghost use Rattle.std.specs.Prelude.{◌≡◌, ◌≤◌, length};
ghost use Rattle.std.specs.Option.{ok_or};
ghost use Rattle.std.specs.Result.{result_map_both};
ghost use Rattle.std.specs.Iterator.{YieldsFirstBy, item_count};
ghost use Rattle.job.specs.Records.{kind_of, body_length, sheet_length, record_of, reading, entries, bare, bare_entry};

use crate::refusal::Refusal;
use host::part::Part;
use records::{NoSuchKind, RecordKind, record_at};
use sheet::extent::extent;

#[derive(Clone, Copy)]
pub enum Kind {
    Size,
    MarkPe,
    MarkRowSwitch,
    MarkColumnSwitch,
    Choose,
    Route,
    Greedy,
    Judge,
}

/// What a job asks of a book; S stands for a sheet.
#[derive(Clone, Copy)]
pub enum Call<S> {
    /// a part and its state
    // a number, since the book's call refuses one above 1
    Mark(Part, u8),
    /// a row and its state, a number too
    Choose(u8, u8),
    Route,
    Greedy,
    Judge(S),
}

#[derive(Clone, Copy)]
pub enum Record<S> {
    /// rows and columns of a new card
    Size(u8, u8),
    Call(Call<S>),
}

/// A byte of kind, with the record that it begins or what is wrong with it.
// The byte itself, since the line of an unknown kind tells it too.
#[derive(Clone, Copy)]
pub struct Entry<S> {
    pub kind: u8,
    pub content: Result<Record<S>, Refusal>,
}

/// The entries that are left of a job.
#[derive(Drop)]
pub struct Entries<'a>(pub &'a [u8]);

impl TryFrom<u8> for Kind {
    type Error = NoSuchKind;

    ghost try_from_gives = { λ byte r. r ≡ ok_or (kind_of byte) (record {}) };

    fn try_from(byte: u8) -> Result<Kind, NoSuchKind> {
        match byte {
            0x10 => Ok(Kind::Size),
            0x11 => Ok(Kind::MarkPe),
            0x12 => Ok(Kind::MarkRowSwitch),
            0x13 => Ok(Kind::MarkColumnSwitch),
            0x14 => Ok(Kind::Choose),
            0x15 => Ok(Kind::Route),
            0x16 => Ok(Kind::Greedy),
            0x17 => Ok(Kind::Judge),
            _ => Err(NoSuchKind),
        }
    }
}

impl RecordKind for Kind {
    ghost kind_of = { kind_of };

    ghost length_of = { body_length };

    ghost read_from_byte = { λ byte r e. e };

    fn body_length(self) -> usize {
        match self {
            Kind::Route | Kind::Greedy | Kind::Judge => 0,
            Kind::Size | Kind::Choose => 2,
            Kind::MarkPe | Kind::MarkRowSwitch | Kind::MarkColumnSwitch => 3,
        }
    }
}

impl Kind {
    /// How many of the bytes behind its body are a sheet that is judged.
    fn sheet_length(self, behind: &[u8]) -> usize
        ensures length { result ≡ sheet_length self behind.now }
        ensures inside { result ≤ length behind.now }
    {
        match self {
            Kind::Judge => extent(behind),
            _ => 0,
        }
    }

    /// The record of this kind that begins a body, with its sheet.
    // By index: slice patterns would need an arm that no body takes.
    fn read<'a>(self, body: &[u8], sheet: &'a [u8]) -> Record<&'a [u8]>
        requires { body_length self ≤ length body.now }
        ensures { bare result ≡ record_of self body.now sheet.now }
    {
        match self {
            Kind::Size => Record::Size(body[0], body[1]),
            Kind::MarkPe => Record::Call(Call::Mark(Part::Pe(body[0], body[1]), body[2])),
            Kind::MarkRowSwitch => Record::Call(Call::Mark(
                Part::RowSwitch(body[0], body[1]),
                body[2],
            )),
            Kind::MarkColumnSwitch => Record::Call(Call::Mark(
                Part::ColumnSwitch(body[0], body[1]),
                body[2],
            )),
            Kind::Choose => Record::Call(Call::Choose(body[0], body[1])),
            Kind::Route => Record::Call(Call::Route),
            Kind::Greedy => Record::Call(Call::Greedy),
            Kind::Judge => Record::Call(Call::Judge(sheet)),
        }
    }
}

/// The record that some bytes begin with, and the bytes behind it.
fn read(bytes: &[u8]) -> Result<(Record<&[u8]>, &[u8]), Refusal>
    ensures { result_map_both (λ p. (bare p.0, p.1.now)) (λ x. x) result ≡ reading bytes.now }
{
    let (kind, body) = record_at::<Kind>(bytes, 0)?;
    let behind = &bytes[1 + body.len()..];
    let (sheet, rest) = behind.split_at(kind.sheet_length(behind));
    Ok((kind.read(body, sheet), rest))
}

impl<'a> Iterator for Entries<'a> {
    type Item = Entry<&'a [u8]>;

    ghost next_gives = { YieldsFirstBy bare_entry (λ s. entries s.0.now) };

    ghost remaining = { item_count (λ s. entries s.0.now) };

    #[tactic(auto, using(crate::proofs::Readings::entries_none, crate::proofs::Readings::entries_more))]
    fn next(&mut self) -> Option<Entry<&'a [u8]>> {
        let kind = *self.0.first()?;
        let reading = read(self.0);
        // nothing is read behind a fault
        self.0 = reading.map_or(&[], |(_, rest)| rest);
        let content = reading.map(|(record, _)| record);
        Some(Entry { kind, content })
    }
}
