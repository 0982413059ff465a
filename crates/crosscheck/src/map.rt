//! The map of a card, in tables of its own.
use host::part::Part;
use host::size::Size;

/// A yes or no for each place, by row and column.
pub type Table = [[bool; 64]; 64];

// What is told of parts and rows that the card does not have counts for nothing.
#[derive(Clone, Copy)]
pub struct Map {
    pub size: Size,
    faulty_pes: Table,
    faulty_row_switches: Table,
    faulty_column_switches: Table,
    left_out: [bool; 64],
}

impl Map {
    /// A card on which all is healthy and every row is chosen.
    pub fn healthy(size: Size) -> Map {
        Map {
            size,
            faulty_pes: [[false; 64]; 64],
            faulty_row_switches: [[false; 64]; 64],
            faulty_column_switches: [[false; 64]; 64],
            left_out: [false; 64],
        }
    }

    pub fn spoil(&mut self, part: Part) {
        match part {
            Part::Pe(row, column) => set(&mut self.faulty_pes, row, column),
            Part::RowSwitch(row, column) => set(&mut self.faulty_row_switches, row, column),
            Part::ColumnSwitch(row, column) => set(&mut self.faulty_column_switches, row, column),
        }
    }

    pub fn is_faulty(&self, part: Part) -> bool {
        match part {
            Part::Pe(row, column) => holds(&self.faulty_pes, row, column),
            Part::RowSwitch(row, column) => holds(&self.faulty_row_switches, row, column),
            Part::ColumnSwitch(row, column) => holds(&self.faulty_column_switches, row, column),
        }
    }

    pub fn leave_out(&mut self, row: u8) {
        if let Some(left_out) = self.left_out.get_mut(usize::from(row)) {
            *left_out = true;
        }
    }

    pub fn is_left_out(&self, row: u8) -> bool {
        self.left_out.get(usize::from(row)) == Some(&true)
    }

    /// Whether a PE is healthy, as are the column switches above and below it.
    pub fn is_usable(&self, row: u8, column: u8) -> bool {
        let last_row = self.size.rows() - 1;
        row <= last_row
            && column < self.size.columns()
            && !self.is_faulty(Part::Pe(row, column))
            && (row == 0 || !self.is_faulty(Part::ColumnSwitch(row - 1, column)))
            && (row == last_row || !self.is_faulty(Part::ColumnSwitch(row, column)))
    }

    /// Whether a row is chosen and its row switches are healthy.
    pub fn is_standing(&self, row: u8) -> bool {
        row < self.size.rows()
            && !self.is_left_out(row)
            && (0..self.size.columns() - 1).all(|column| !self.is_faulty(Part::RowSwitch(
                row, column,
            )))
    }
}

/// What a table says of a place.
pub fn holds(table: &Table, row: u8, column: u8) -> bool {
    match table.get(usize::from(row)) {
        None => false,
        Some(row) => row.get(usize::from(column)) == Some(&true),
    }
}

/// Says yes of a place.
pub fn set(table: &mut Table, row: u8, column: u8) {
    if let Some(row) = table.get_mut(usize::from(row))
        && let Some(at) = row.get_mut(usize::from(column))
    {
        *at = true;
    }
}
