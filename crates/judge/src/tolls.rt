//! The tolls of a sheet, added one by one.
ghost use Rattle.std.specs.Prelude.{◌≡◌, []};
ghost use Rattle.host.specs.Refusals.{answered};
ghost use Rattle.verdict.specs.Judging.{Gathered, toll_fault, with_toll};
ghost use Rattle.judge.specs.Gathering.{toll_on, after_last, tolls_of, HoldsTolls, ChecksAs};

use crate::chart::Chart;
use plans::WORTH;
use tariff::pe::Pe;
use verdict::fault::CardFault;

/// The tolls that have come.
#[derive(Clone, Copy)]
pub struct GatheredTolls {
    /// by row and physical column
    pub amounts: [[u32; 64]; 64],
    /// the PE of the last one
    last: Option<Pe>,
    /// all of them added up
    pub sum: u64,
}

/// Whether a PE comes after the last one that has a toll, by row, then column; the first may be any.
fn is_after(last: Option<Pe>, pe: Pe) -> bool
    ensures { result ≡ after_last last pe }
{
    match last {
        None => true,
        Some(one) => one.row < pe.row || one.row == pe.row && one.column < pe.column,
    }
}

impl GatheredTolls {
    /// Before the first.
    pub fn none() -> GatheredTolls
        ensures { result ≡ tolls_of [] }
    {
        GatheredTolls {
            amounts: [[0; 64]; 64],
            last: None,
            sum: 0,
        }
    }

    /// What is wrong with the next toll, if anything is.
    fn check(&self, chart: &Chart, pe: Pe, amount: u32) -> Result<(), CardFault>
        ensures { let t = toll_on pe amount in
            (g : Gathered) → self.now ≡ tolls_of g.tolls → result ≡ answered (toll_fault chart.now.host.now g t) tt }
    {
        if !chart.is_standing(pe.row) || !chart.is_usable(pe) {
            return Err(CardFault::TollPlace);
        }
        if !is_after(self.last, pe) {
            return Err(CardFault::TollOrder);
        }
        if amount == 0 || amount > WORTH {
            return Err(CardFault::TollAmount);
        }
        Ok(())
    }

    /// Adds the next toll.
    pub fn add(&mut self, chart: &Chart, pe: Pe, amount: u32) -> Result<(), CardFault>
        requires { (g : Gathered) × HoldsTolls chart.now.host.now self.old g }
        ensures { let h = chart.now.host.now in let t = toll_on pe amount in
            (g : Gathered) → HoldsTolls h self.old g → ChecksAs (λ g'. self.new ≡ tolls_of g'.tolls) result (answered (toll_fault h g t) (with_toll g t)) }
    {
        self.check(chart, pe, amount)?;
        self.amounts[usize::from(pe.row)][usize::from(pe.column)] = amount;
        self.last = Some(pe);
        self.sum += u64::from(amount);
        Ok(())
    }
}
