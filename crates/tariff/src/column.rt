//! The charge of a column.
ghost use Rattle.std.specs.Prelude.{◌≡◌};
ghost use Rattle.masks.specs.Masks.{bit};
ghost use Rattle.masks.specs.Members.{members};
ghost use Rattle.tariff.specs.Charges.{charge};

use crate::Tariff;
use crate::pe::Pe;
use masks::iter::Members;

/// The charge of the column that has its PE of each standing row, going down, in the physical column given for it.
// The tariff and the standing rows go apart here and above, since a book, a sheet and a test hold them apart.
pub fn column_charge<T: Tariff>(tariff: &T, standing: u64, columns: &[u8]) -> u32
    ensures { result ≡ charge (T.meaning tariff.now) (members (bit standing)) columns.now }
{
    let mut sum = 0;
    let mut above: Option<Pe> = None;
    for (row, column) in Members::of(standing).zip(columns) {
        let pe = Pe::at(row, *column);
        sum += match above {
            None => tariff.entry(pe),
            Some(upper) => tariff.link(upper, pe),
        };
        above = Some(pe);
    }
    sum
}
