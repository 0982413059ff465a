//! The parts of a card that can be faulty, each by row and column.
ghost use Rattle.std.specs.Prelude.{◌≡◌};
ghost use Rattle.host.specs.Maps.{inside};

use crate::size::Size;

/// A part, by its kind, row and column.
// By numbers: a switch is named after the PE at its left or upper end, but is none.
#[derive(Clone, Copy, PartialEq, Debug)]
pub enum Part {
    Pe(u8, u8),
    /// (i, j) joins PE (i, j) and PE (i, j + 1)
    RowSwitch(u8, u8),
    /// (i, j) joins PE (i, j) and PE (i + 1, j)
    ColumnSwitch(u8, u8),
}

impl Part {
    /// Whether a card of this size has the part.
    pub fn is_inside(self, size: Size) -> bool
        ensures { result ≡ inside size self }
    {
        match self {
            Part::Pe(i, j) => i < size.rows() && j < size.columns(),
            Part::RowSwitch(i, j) => i < size.rows() && j < size.columns() - 1,
            Part::ColumnSwitch(i, j) => i < size.rows() - 1 && j < size.columns(),
        }
    }
}
