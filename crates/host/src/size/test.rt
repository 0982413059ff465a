//! The size test, which is the only way to a size.
ghost use Rattle.std.specs.Prelude.{◌≡◌};
ghost use Rattle.host.specs.Sizes.{tested};

use super::Size;
use crate::refusal::Refusal;

impl Size {
    pub fn test(rows: u8, columns: u8) -> Result<Size, Refusal>
        ensures { result ≡ tested rows columns }
    {
        if !(1..=64).contains(&rows) || !(1..=64).contains(&columns) {
            return Err(Refusal::BadSize);
        }
        Ok(Size { rows, columns })
    }

    pub fn rows(self) -> u8
        ensures { result ≡ self.rows }
    {
        self.rows
    }

    pub fn columns(self) -> u8
        ensures { result ≡ self.columns }
    {
        self.columns
    }
}
