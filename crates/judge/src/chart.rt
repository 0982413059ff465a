//! A map, with what a judge asks of it at every record drawn out once.
ghost use Rattle.std.specs.Prelude.{◌≡◌, not};
ghost use Rattle.masks.specs.Masks.{bit, mask};
ghost use Rattle.host.specs.Maps.{usable, stands};
ghost use Rattle.host.specs.Refusals.{refuse, answered};
ghost use Rattle.routable.specs.Cards.{card_of};
ghost use Rattle.verdict.specs.Judging.{same_head};
ghost use Rattle.judge.specs.Charts.{usable_table};

use arrayvec::ArrayVec;
use host::Host;
use routable::standing_rows;
use sheet::record::Head;
use tariff::pe::Pe;
use verdict::fault::CardFault;

/// A map and its tables, which are looked up where the map would be asked.
#[derive(Drop)]
pub struct Chart<'a> {
    pub host: &'a Host,
    /// the standing rows: bit i is row i
    pub standing: u64,
    /// the standing rows, going down
    pub rows: ArrayVec<u8, 64>,
    /// the usable PEs of each row: bit j is PE (row, j)
    pub usable: [u64; 64],
    ghost stand: { standing ≡ mask (stands host.now) },
    ghost listed: { rows.items ≡ (card_of host.now).rows },
    ghost drawn: { usable ≡ usable_table host.now },
}

impl Chart<'_> {
    pub fn of(host: &Host) -> Chart<'_>
        ensures { result.host.now ≡ host.now }
    {
        Chart {
            host,
            standing: host.standing(),
            rows: standing_rows(host),
            usable: usable_by_row(host),
        }
    }

    /// Whether a head is the map's.
    pub fn check_head(&self, head: Head) -> Result<(), CardFault>
        ensures { result ≡ answered (refuse (not (same_head self.now.host.now head)) CardFault.OtherCard None) tt }
    {
        let size = self.host.size();
        if head.rows == size.rows()
            && head.columns == size.columns()
            && head.standing == self.standing
        {
            Ok(())
        } else {
            Err(CardFault::OtherCard)
        }
    }

    /// Whether a PE is usable.
    pub fn is_usable(&self, pe: Pe) -> bool
        ensures { result ≡ usable self.now.host.now pe.row pe.column }
    {
        pe.row < 64 && masks::has(self.usable[usize::from(pe.row)], pe.column)
    }

    /// Whether a row stands.
    pub fn is_standing(&self, row: u8) -> bool
        ensures { result ≡ stands self.now.host.now row }
    {
        masks::has(self.standing, row)
    }
}

/// The usable PEs of each row.
fn usable_by_row(host: &Host) -> [u64; 64]
    ensures { result ≡ usable_table host.now }
{
    let mut usable = [0; 64];
    for row in 0..64u8 {
        usable[usize::from(row)] = host.usable_in(row);
    }
    usable
}
