//! The columns of a sheet, put in PE by PE.
ghost use Rattle.std.specs.Prelude.{◌≡◌, ◌<◌, length};
ghost use Rattle.host.specs.declared.Host.{Host};
ghost use Rattle.tariff.specs.Meaning.{Meaning};
ghost use Rattle.plans.specs.Columns.{row};
ghost use Rattle.routable.specs.Cards.{card_of};
ghost use Rattle.host.specs.Refusals.{answered};
ghost use Rattle.verdict.specs.Judging.{Gathered, blank, stepped, pe_fault, pe_checked, step_checked};
ghost use Rattle.plans.specs.Least.{last};
ghost use Rattle.judge.specs.Gathering.{charge_below, columns_of, HoldsColumns, ChecksAs};

use crate::chart::Chart;
use plans::held::HeldRow;
use sheet::record::Step;
use tariff::Tariff;
use tariff::pe::Pe;
use verdict::fault::CardFault;

/// The columns that have come.
#[derive(Clone, Copy)]
pub struct GatheredColumns {
    /// by standing rows: the full columns, and behind them the PEs of the one that has begun
    pub rows: [HeldRow; 64],
    /// how many are full
    pub full: usize,
    /// how many PEs of the next one have come
    place: usize,
    /// the last of these
    above: Option<Pe>,
    /// the charges of all
    pub charge: u32,
}

/// Where a step leads from a physical column; left of column 0 there is nothing.
fn stepped(step: Step, column: u8) -> Option<u8>
    requires { column < 64 }
    ensures { result ≡ stepped step column }
{
    match step {
        Step::Left => column.checked_sub(1),
        Step::Straight => Some(column),
        Step::Right => Some(column + 1),
    }
}

/// What a PE is charged below the last one of its column.
fn charge_below<T: Tariff>(tariff: &T, above: Option<Pe>, pe: Pe) -> u32
    ensures { result ≡ charge_below (T.meaning tariff.now) above pe }
{
    match above {
        None => tariff.entry(pe),
        Some(upper) => tariff.link(upper, pe),
    }
}

impl GatheredColumns {
    /// Before the first.
    pub fn none() -> GatheredColumns
        ensures { (h : Host) (m : Meaning) → result ≡ columns_of h m blank }
    {
        GatheredColumns {
            rows: [HeldRow { columns: [0; 64] }; 64],
            full: 0,
            place: 0,
            above: None,
            charge: 0,
        }
    }

    /// The next PE of the column that has begun, in a physical column, or what is wrong with it.
    fn next_pe(&self, chart: &Chart, column: u8) -> Result<Pe, CardFault>
        requires { (m : Meaning) × (g : Gathered) × HoldsColumns chart.now.host.now m self.now g }
        ensures { let h = chart.now.host.now in
            (m : Meaning) (g : Gathered) → HoldsColumns h m self.now g →
            result ≡ answered (pe_fault h g column) (record { row = row (card_of h) (length g.column); column = column }) }
    {
        let Some(row) = chart.rows.get(self.place) else {
            return Err(CardFault::OutsideHost);
        };
        if column >= chart.host.size().columns() {
            return Err(CardFault::OutsideHost);
        }
        let pe = Pe::at(*row, column);
        if !chart.is_usable(pe) {
            return Err(CardFault::NotUsable);
        }
        if self.full > 0 && column <= self.rows[self.place].columns[self.full - 1] {
            return Err(CardFault::NotRight);
        }
        Ok(pe)
    }

    /// Puts the next PE of the column that has begun, or of a new one, in a physical column.
    pub fn put<T: Tariff>(&mut self, chart: &Chart, tariff: &T, column: u8) -> Result<(), CardFault>
        requires { (g : Gathered) × HoldsColumns chart.now.host.now (T.meaning tariff.now) self.old g }
        ensures { let h = chart.now.host.now in let m = T.meaning tariff.now in
            (g : Gathered) → HoldsColumns h m self.old g → ChecksAs (λ g'. self.new ≡ columns_of h m g') result (pe_checked h g column) }
    {
        let pe = self.next_pe(chart, column)?;
        self.charge += charge_below(tariff, self.above, pe);
        self.rows[self.place].columns[self.full] = column;
        self.place += 1;
        self.above = Some(pe);
        if self.place == chart.rows.len() {
            self.full += 1;
            self.place = 0;
            self.above = None;
        }
        Ok(())
    }

    /// Puts the next PE by a step from the last one.
    pub fn step<T: Tariff>(
        &mut self,
        chart: &Chart,
        tariff: &T,
        step: Step,
    ) -> Result<(), CardFault>
        requires { (g : Gathered) × HoldsColumns chart.now.host.now (T.meaning tariff.now) self.old g }
        ensures { let h = chart.now.host.now in let m = T.meaning tariff.now in
            (g : Gathered) → HoldsColumns h m self.old g → ChecksAs (λ g'. self.new ≡ columns_of h m g') result (step_checked h g (stepped step (last g.column))) }
    {
        let from = self.above.map_or(0, |pe| pe.column);
        let Some(column) = stepped(step, from) else {
            return Err(CardFault::OutsideHost);
        };
        self.put(chart, tariff, column)
    }
}
