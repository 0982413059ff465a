//! Records of any format: a byte of kind, and a body whose length the kind fixes.
#![tactic(auto)]

ghost use Rattle.std.specs.Prelude.{◌≡◌, ℕ, Option, Result, drop};
ghost use Rattle.std.specs.Option.{ok_or};
ghost use Rattle.records.specs.declared.NoSuchKind.{NoSuchKind};
ghost use Rattle.records.specs.Records.{number, place, record_from, bare};

#[cfg(test)]
mod tests;

/// A byte is no kind of the format.
#[derive(Clone, Copy, PartialEq, Debug)]
pub struct NoSuchKind;

/// What is wrong with a record, and the place of its kind.
#[derive(Clone, Copy, PartialEq, Debug)]
pub enum RecordFault {
    /// a kind that there is not
    UnknownKind { at: usize },
    /// a body that the end of the bytes cuts short
    CutShort { at: usize },
}

/// The number under which it is listed.
impl From<RecordFault> for u8 {
    ghost from_gives = { λ x r. r ≡ number x };

    fn from(x: RecordFault) -> u8 {
        match x {
            RecordFault::UnknownKind { at: _ } => 7,
            RecordFault::CutShort { at: _ } => 8,
        }
    }
}

impl RecordFault {
    /// The byte at which it stands.
    pub fn place(self) -> usize
        ensures { result ≡ place self }
    {
        match self {
            RecordFault::UnknownKind { at } | RecordFault::CutShort { at } => at,
        }
    }
}

/// The kinds of a format.
pub trait RecordKind: Copy + TryFrom<u8, Error = NoSuchKind> {
    // which kind a byte is, and how many bytes follow a kind
    ghost kind_of: { ℕ → Option Self };

    ghost length_of: { Self → ℕ };

    /// How many bytes follow it.
    fn body_length(self) -> usize
        ensures { result ≡ length_of self };

    // `try_from` answers the kind of a byte
    ghost read_from_byte: { (b : ℕ) (r : Result Self NoSuchKind) → Self.try_from_gives b r → r ≡ ok_or (kind_of b) (record {}) };
}

/// The record at a place: its kind, and its body as that part of the bytes.
pub fn record_at<'a, K: RecordKind>(
    bytes: &'a [u8],
    at: usize,
) -> Result<(K, &'a [u8]), RecordFault>
    ensures { bare result ≡ record_from K.kind_of K.length_of at (drop at bytes.now) }
{
    let (byte, rest) = bytes
        .get(at..)
        .and_then(|rest| rest.split_first())
        .ok_or(RecordFault::CutShort { at })?;
    let kind = K::try_from(*byte).map_err(|_| RecordFault::UnknownKind { at })?;
    let Some(body) = rest.get(..kind.body_length()) else {
        return Err(RecordFault::CutShort { at });
    };
    Ok((kind, body))
}
