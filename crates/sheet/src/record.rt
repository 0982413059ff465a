//! The records of a sheet: a byte of kind, and a body whose length the kind fixes.
ghost use Rattle.std.specs.Prelude.{◌≡◌, ◌≤◌, length};
ghost use Rattle.std.specs.Option.{ok_or};
ghost use Rattle.sheet.specs.Records.{code, kind_of, body_length, made, kind_in, size, bytes};

use records::{NoSuchKind, RecordKind};

/// The kinds of record, by their bytes.
#[derive(Clone, Copy, PartialEq, Eq, Debug)]
pub enum Kind {
    Head = 0x01,
    Start = 0x02,
    Left = 0x03,
    Straight = 0x04,
    Right = 0x05,
    Toll = 0x06,
    End = 0x07,
}

/// Where a column goes in the next standing row.
#[derive(Clone, Copy, PartialEq, Eq, Debug)]
pub enum Step {
    Left,
    Straight,
    Right,
}

/// The size of a card, and its standing rows as a mask.
#[derive(Clone, Copy, PartialEq, Eq, Debug)]
pub struct Head {
    pub rows: u8,
    pub columns: u8,
    pub standing: u64,
}

/// What is asked for a PE.
// By numbers, as its bytes have them: a sheet knows no card.
#[derive(Clone, Copy, PartialEq, Eq, Debug)]
pub struct Toll {
    pub row: u8,
    pub column: u8,
    pub amount: u32,
}

/// What one record of a sheet says.
#[derive(Clone, Copy, PartialEq, Eq, Debug)]
pub enum Record {
    Head(Head),
    /// a column starts at this physical column
    Start(u8),
    Step(Step),
    Toll(Toll),
    End,
}

impl From<Kind> for u8 {
    ghost from_gives = { λ kind byte. byte ≡ code kind };

    fn from(kind: Kind) -> u8 {
        kind as u8
    }
}

impl TryFrom<u8> for Kind {
    type Error = NoSuchKind;

    ghost try_from_gives = { λ byte r. r ≡ ok_or (kind_of byte) (record {}) };

    // The bytes once more: a search of all kinds for the one of a byte left a goal open.
    fn try_from(byte: u8) -> Result<Kind, NoSuchKind> {
        match byte {
            0x01 => Ok(Kind::Head),
            0x02 => Ok(Kind::Start),
            0x03 => Ok(Kind::Left),
            0x04 => Ok(Kind::Straight),
            0x05 => Ok(Kind::Right),
            0x06 => Ok(Kind::Toll),
            0x07 => Ok(Kind::End),
            _ => Err(NoSuchKind),
        }
    }
}

impl RecordKind for Kind {
    ghost kind_of = { kind_of };

    ghost length_of = { body_length };

    ghost read_from_byte = { λ byte r e. e };

    fn body_length(self) -> usize {
        match self {
            Kind::Head => 10,
            Kind::Start => 1,
            Kind::Toll => 6,
            Kind::Left | Kind::Straight | Kind::Right | Kind::End => 0,
        }
    }
}

impl From<Record> for Kind {
    ghost from_gives = { λ x kind. kind ≡ kind_in x };

    fn from(x: Record) -> Kind {
        match x {
            Record::Head(_) => Kind::Head,
            Record::Start(_) => Kind::Start,
            Record::Step(Step::Left) => Kind::Left,
            Record::Step(Step::Straight) => Kind::Straight,
            Record::Step(Step::Right) => Kind::Right,
            Record::Toll(_) => Kind::Toll,
            Record::End => Kind::End,
        }
    }
}

impl Record {
    /// The record of a kind with this body.
    // By index: slice patterns would need an arm that no body takes.
    pub(crate) fn of(kind: Kind, body: &[u8]) -> Record
        requires { body_length kind ≤ length body.now }
        ensures { result ≡ made kind body.now }
    {
        match kind {
            Kind::Head => Record::Head(Head {
                rows: body[0],
                columns: body[1],
                standing: u64::from_be_bytes(body[2..10].try_into().unwrap()),
            }),
            Kind::Start => Record::Start(body[0]),
            Kind::Left => Record::Step(Step::Left),
            Kind::Straight => Record::Step(Step::Straight),
            Kind::Right => Record::Step(Step::Right),
            Kind::Toll => Record::Toll(Toll {
                row: body[0],
                column: body[1],
                amount: u32::from_be_bytes(body[2..6].try_into().unwrap()),
            }),
            Kind::End => Record::End,
        }
    }

    /// How many bytes it has.
    pub fn size(self) -> usize
        ensures { result ≡ size self }
    {
        1 + Kind::from(self).body_length()
    }

    /// Writes its bytes to a part of a buffer that is just as long.
    pub fn write(self, out: &mut [u8])
        requires { length out.old ≡ size self }
        ensures { out.new ≡ bytes self }
    {
        let kind = u8::from(Kind::from(self));
        match self {
            Record::Head(head) => {
                let (front, standing) = out.split_at_mut(3);
                front.copy_from_slice(&[kind, head.rows, head.columns]);
                standing.copy_from_slice(&head.standing.to_be_bytes());
            }
            Record::Start(column) => out.copy_from_slice(&[kind, column]),
            Record::Toll(toll) => {
                let (front, amount) = out.split_at_mut(3);
                front.copy_from_slice(&[kind, toll.row, toll.column]);
                amount.copy_from_slice(&toll.amount.to_be_bytes());
            }
            Record::Step(_) | Record::End => out.copy_from_slice(&[kind]),
        }
    }
}
