//! What a map is asked.
ghost use Rattle.std.specs.Prelude.{◌≡◌, ℕ, ◌<◌};
ghost use Rattle.masks.specs.Masks.{bit, mask, how_many, least};
ghost use Rattle.host.specs.Maps.{row_at, faulty, faulty_above, usable, stands};

use crate::part::Part;
use crate::size::Size;
use crate::{Host, Row};

impl Host {
    pub fn size(&self) -> Size
        ensures { result ≡ self.now.size }
    {
        self.size
    }

    /// The chosen rows: bit i is row i.
    pub fn chosen(&self) -> u64
        ensures { result ≡ self.now.choice }
    {
        self.choice
    }

    fn row_at(&self, row: u8) -> Row
        requires { row < self.now.size.rows }
        ensures { result ≡ row_at self.now row }
    {
        self.rows[usize::from(row)]
    }

    /// The usable PEs of a row: bit j is PE (row, j).
    pub fn usable_in(&self, row: u8) -> u64
        ensures { result ≡ mask (usable self.now row) }
    {
        if row >= self.size.rows() {
            return 0;
        }
        let unusable = self.row_at(row).pes | self.switches_above(row) | self.switches_below(row);
        masks::without(masks::below(self.size.columns()), unusable)
    }

    /// The faulty column switches above a row: bit j is (row - 1, j).
    fn switches_above(&self, row: u8) -> u64
        ensures { (j : ℕ) → j < self.now.size.columns → bit result j ≡ faulty_above self.now row j }
    {
        row.checked_sub(1)
            .map_or(0, |above| self.switches_below(above))
    }

    /// The faulty column switches below a row: bit j is (row, j).
    fn switches_below(&self, row: u8) -> u64
        ensures { (j : ℕ) → j < self.now.size.columns → bit result j ≡ faulty self.now (Part.ColumnSwitch row j) }
    {
        if row < self.size.rows() - 1 {
            self.row_at(row).down
        } else {
            0
        }
    }

    pub fn is_usable(&self, row: u8, column: u8) -> bool
        ensures { result ≡ usable self.now row column }
    {
        masks::has(self.usable_in(row), column)
    }

    /// The leftmost usable PE of a row.
    pub fn leftmost_usable(&self, row: u8) -> Option<u8>
        ensures { result ≡ least (usable self.now row) }
    {
        masks::lowest(self.usable_in(row))
    }

    pub fn is_standing(&self, row: u8) -> bool
        ensures { result ≡ stands self.now row }
    {
        if row >= self.size.rows() {
            return false;
        }
        let switches = masks::below(self.size.columns() - 1);
        masks::has(self.choice, row) && masks::common(self.row_at(row).across, switches) == 0
    }

    /// The standing rows: bit i is row i.
    pub fn standing(&self) -> u64
        ensures { result ≡ mask (stands self.now) }
    {
        let mut rows = 0;
        // No `fold`: of what its closure gives, neither the check nor `search (rules, ranges)` finds a proof.
        for i in 0..self.size.rows() {
            rows = masks::with(rows, i, self.is_standing(i));
        }
        rows
    }

    /// How many rows stand.
    pub fn standing_count(&self) -> u32
        ensures { result ≡ how_many (stands self.now) }
    {
        masks::count(self.standing())
    }
}
