//! What is wrong with the bytes of a sheet, and at which byte.
ghost use Rattle.std.specs.Prelude.{◌≡◌};
ghost use Rattle.sheet.specs.Faults.{number, place};
ghost use Rattle.sheet.specs.declared.fault.SheetFault.TheVariants.{Record};

use records::RecordFault;

/// What is wrong with a sheet, whatever the card.
#[derive(Clone, Copy, PartialEq, Debug)]
pub enum SheetFault {
    Record(RecordFault),
    /// a record that may not come here
    OutOfTurn { at: usize },
    /// no bytes left before the end record came; the place is the length
    NoEnd { at: usize },
    /// bytes behind the end record; the place is the first of them
    AfterEnd { at: usize },
}

impl From<RecordFault> for SheetFault {
    ghost from_gives = { λ x r. r ≡ Record x };

    fn from(x: RecordFault) -> SheetFault {
        SheetFault::Record(x)
    }
}

/// The number under which it is listed.
impl From<SheetFault> for u8 {
    ghost from_gives = { λ x r. r ≡ number x };

    fn from(x: SheetFault) -> u8 {
        match x {
            SheetFault::Record(y) => u8::from(y),
            SheetFault::OutOfTurn { at: _ } => 9,
            SheetFault::NoEnd { at: _ } => 10,
            SheetFault::AfterEnd { at: _ } => 11,
        }
    }
}

impl SheetFault {
    /// The byte at which it stands.
    pub fn place(self) -> usize
        ensures { result ≡ place self }
    {
        match self {
            SheetFault::Record(x) => x.place(),
            SheetFault::OutOfTurn { at } | SheetFault::NoEnd { at } | SheetFault::AfterEnd { at } =>
                at,
        }
    }
}
