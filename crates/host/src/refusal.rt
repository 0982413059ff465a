//! Why a call is refused.
ghost use Rattle.std.specs.Prelude.{◌≡◌};
ghost use Rattle.host.specs.Refusals.{number};

#[derive(Clone, Copy, PartialEq, Debug)]
pub enum Refusal {
    /// rows or columns not 1 to 64
    BadSize,
    /// a row, PE or switch that the card does not have
    Outside,
    /// a state that is neither 0 nor 1
    BadState,
    /// a picture that has not one character for each column
    BadLength,
    /// a character other than '.' and 'X'
    BadCharacter,
}

/// The number under which it is listed.
impl From<Refusal> for u8 {
    ghost from_gives = { λ x r. r ≡ number x };

    fn from(x: Refusal) -> u8 {
        match x {
            Refusal::BadSize => 1,
            Refusal::Outside => 2,
            Refusal::BadState => 3,
            Refusal::BadLength => 4,
            Refusal::BadCharacter => 5,
        }
    }
}
