//! Where a PE is, and which links there can be.
ghost use Rattle.std.specs.Prelude.{◌≡◌};
ghost use Rattle.tariff.specs.Meaning.{in_grid, is_link};

/// A PE by its row and physical column.
#[derive(Clone, Copy, PartialEq, Debug)]
pub struct Pe {
    pub row: u8,
    pub column: u8,
}

impl Pe {
    /// The PE in a row and physical column.
    pub fn at(row: u8, column: u8) -> Pe
        ensures row { result.row ≡ row }
        ensures column { result.column ≡ column }
    {
        Pe { row, column }
    }

    /// Whether there can be a PE here.
    pub fn is_in_grid(self) -> bool
        ensures { result ≡ in_grid self.row self.column }
    {
        self.row < 64 && self.column < 64
    }

    /// Whether a link can go from this PE to the other.
    pub fn can_link_to(self, lower: Pe) -> bool
        ensures { result ≡ is_link self.row self.column lower.row lower.column }
    {
        self.row < lower.row
            && lower.row < 64
            && self.column < 64
            && lower.column < 64
            && self.column <= lower.column + 1
            && lower.column <= self.column + 1
    }
}
