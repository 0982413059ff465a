//! What is wrong with a sheet for a card, and at which byte.
ghost use Rattle.std.specs.Prelude.{◌≡◌};
ghost use Rattle.verdict.specs.Faults.{card_number, number, place};
ghost use Rattle.verdict.specs.declared.fault.JudgeFault.TheVariants.{Sheet};

use sheet::fault::SheetFault;

/// What is wrong with a sheet for a card.
#[derive(Clone, Copy, PartialEq, Debug)]
pub enum CardFault {
    /// a head that differs from the card
    OtherCard,
    /// a PE outside the host
    OutsideHost,
    /// a PE that is not usable
    NotUsable,
    /// a PE that is not right of the preceding column's PE in that row
    NotRight,
    /// a toll on a PE that is outside the host, not usable or in no standing row
    TollPlace,
    /// a toll that is not after the preceding one by row, then column
    TollOrder,
    /// a toll that is not 1 to 5,000,000
    TollAmount,
    /// some column is priced below the worth
    Underpriced,
    /// the tolls do not add up
    WrongSum,
}

/// Why a sheet is refused.
#[derive(Clone, Copy, PartialEq, Debug)]
pub enum JudgeFault {
    /// whatever the card
    Sheet(SheetFault),
    /// for the card, with the place of the record that is at fault
    Card { fault: CardFault, at: usize },
}

/// The number under which it is listed.
impl From<CardFault> for u8 {
    ghost from_gives = { λ x r. r ≡ card_number x };

    fn from(x: CardFault) -> u8 {
        match x {
            CardFault::OtherCard => 12,
            CardFault::OutsideHost => 13,
            CardFault::NotUsable => 14,
            CardFault::NotRight => 15,
            CardFault::TollPlace => 16,
            CardFault::TollOrder => 17,
            CardFault::TollAmount => 18,
            CardFault::Underpriced => 19,
            CardFault::WrongSum => 20,
        }
    }
}

impl From<SheetFault> for JudgeFault {
    ghost from_gives = { λ x r. r ≡ Sheet x };

    fn from(x: SheetFault) -> JudgeFault {
        JudgeFault::Sheet(x)
    }
}

/// The number under which it is listed.
impl From<JudgeFault> for u8 {
    ghost from_gives = { λ x r. r ≡ number x };

    fn from(x: JudgeFault) -> u8 {
        match x {
            JudgeFault::Sheet(y) => u8::from(y),
            JudgeFault::Card { fault, at: _ } => u8::from(fault),
        }
    }
}

impl JudgeFault {
    /// The byte at which it stands.
    pub fn place(self) -> usize
        ensures { result ≡ place self }
    {
        match self {
            JudgeFault::Sheet(x) => x.place(),
            JudgeFault::Card { fault: _, at } => at,
        }
    }
}
