//! The columns that a sheet tells.
ghost use Rattle.std.specs.Prelude.{◌≡◌, ◌≤◌, length};

use masks::iter::Members;
use sheet::reader::Reader;
use sheet::record::{Record, Step};

/// Columns from left to right, by the rows of a card.
#[derive(Clone, Copy)]
pub struct Columns {
    /// the physical columns of a row's PEs, one for each column
    rows: [[u8; 64]; 64],
    standing: u64,
    number: usize,
    long_links: u32,
    ghost few: { number ≤ 64 },
}

/// The physical column of the last PE that was told, and the rows that its column still goes through.
#[derive(Clone, Copy)]
struct Place {
    column: u8,
    below: Members,
}

impl Columns {
    ghost use Rattle.card.specs.Columns.{pes_in};

    /// The columns of a sheet, read up to its end or its first fault.
    pub fn of_sheet(sheet: &[u8]) -> Columns {
        let mut columns = Columns {
            rows: [[0; 64]; 64],
            standing: 0,
            number: 0,
            long_links: 0,
        };
        let mut place = Place {
            column: 0,
            below: Members::of(0),
        };
        let mut reader = Reader::new();
        for _ in 0..sheet.len() {
            let Ok(record) = reader.take(sheet) else {
                break;
            };
            place = columns.take(record, place);
        }
        columns
    }

    /// Takes over what a record tells, and answers the place behind it.
    fn take(&mut self, record: Record, place: Place) -> Place {
        match record {
            Record::Head(head) => self.standing = head.standing,
            Record::Start(column) => {
                self.number = (self.number + 1).min(64);
                return self.put(column, Members::of(self.standing));
            }
            Record::Step(Step::Straight) => return self.put(place.column, place.below),
            Record::Step(Step::Left) => {
                self.long_links = self.long_links.saturating_add(1);
                return self.put(place.column.saturating_sub(1), place.below);
            }
            Record::Step(Step::Right) => {
                self.long_links = self.long_links.saturating_add(1);
                return self.put(place.column.saturating_add(1), place.below);
            }
            Record::Toll(_) | Record::End => {}
        }
        place
    }

    /// Puts a PE of the last column in the first of the rows that are left.
    fn put(&mut self, column: u8, mut below: Members) -> Place {
        if let Some(row) = below.next() {
            if row < 64 && self.number > 0 {
                self.rows[usize::from(row)][self.number - 1] = column;
            }
        }
        Place { column, below }
    }

    /// The physical columns of a row's PEs; there are none where the row does not stand.
    pub fn in_row(&self, row: u8) -> &[u8]
        ensures pes { result.now ≡ pes_in self.now row }
        ensures few { length result.now ≤ 64 }
    {
        if row < 64 && masks::has(self.standing, row) {
            &self.rows[usize::from(row)][..self.number]
        } else {
            &[]
        }
    }

    /// How many links change the physical column.
    pub fn long_links(&self) -> u32
        ensures { result ≡ self.now.long_links }
    {
        self.long_links
    }
}
