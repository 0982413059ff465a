//! Why a record of a job is refused, and why a whole listing is.
ghost use Rattle.std.specs.Prelude.{◌≡◌};
ghost use Rattle.job.specs.Refusals.{number, place, of_record, listing_number};
ghost use Rattle.job.specs.declared.refusal.Refusal.TheVariants.{Size, Book};

use records::RecordFault;

#[derive(Clone, Copy, PartialEq, Debug)]
pub enum Refusal {
    /// by the size test
    Size(host::refusal::Refusal),
    /// by the book
    Book(book::refusal::Refusal),
    /// a kind of record that there is not
    // not the record's own fault, since a listing tells no place
    UnknownKind,
    /// a body that the job's end cuts short
    CutShort,
    /// a record before any size was accepted
    OutOfTurn,
}

/// The number under which it is listed.
impl From<Refusal> for u8 {
    ghost from_gives = { λ x r. r ≡ number x };

    fn from(x: Refusal) -> u8 {
        match x {
            Refusal::Size(y) => u8::from(y),
            Refusal::Book(y) => u8::from(y),
            Refusal::UnknownKind => 7,
            Refusal::CutShort => 8,
            Refusal::OutOfTurn => 9,
        }
    }
}

impl Refusal {
    /// The place of a fault within a sheet, counted from the sheet's first byte.
    pub fn place(self) -> Option<usize>
        ensures { result ≡ place self }
    {
        match self {
            Refusal::Book(book::refusal::Refusal::Judge(fault)) => Some(fault.place()),
            _ => None,
        }
    }
}

impl From<host::refusal::Refusal> for Refusal {
    ghost from_gives = { λ x r. r ≡ Size x };

    fn from(x: host::refusal::Refusal) -> Refusal {
        Refusal::Size(x)
    }
}

impl From<book::refusal::Refusal> for Refusal {
    ghost from_gives = { λ x r. r ≡ Book x };

    fn from(x: book::refusal::Refusal) -> Refusal {
        Refusal::Book(x)
    }
}

impl From<RecordFault> for Refusal {
    ghost from_gives = { λ x r. r ≡ of_record x };

    fn from(x: RecordFault) -> Refusal {
        match x {
            RecordFault::UnknownKind { at: _ } => Refusal::UnknownKind,
            RecordFault::CutShort { at: _ } => Refusal::CutShort,
        }
    }
}

#[derive(Clone, Copy, PartialEq, Debug)]
pub enum ListingRefusal {
    /// a job of more than 60,000 bytes
    LongJob,
    /// a buffer that is too short for the whole listing
    ShortBuffer,
}

/// The number under which it is listed.
impl From<ListingRefusal> for u8 {
    ghost from_gives = { λ x r. r ≡ listing_number x };

    fn from(x: ListingRefusal) -> u8 {
        match x {
            ListingRefusal::LongJob => 24,
            ListingRefusal::ShortBuffer => 21,
        }
    }
}
