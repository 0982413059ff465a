//! The judge of a sheet: it reads one against a map and a tariff, record by record, and takes its plan over if it is accepted.
#![tactic(auto)]

ghost use Rattle.std.specs.Prelude.{◌≡◌, []};
ghost use Rattle.host.specs.Refusals.{answered};
ghost use Rattle.routable.specs.Cards.{card_of};
ghost use Rattle.verdict.specs.Judging.{Gathered, verdict_fault};
ghost use Rattle.judge.specs.Gathering.{Holds};
ghost use Rattle.judge.specs.Judge.{judge_answer, plan_after};

mod chart;
mod columns;
mod gathering;
mod tolls;

use chart::Chart;
use gathering::Gathering;
use host::Host;
use plans::WORTH;
use plans::held::HeldPlan;
use prices::some_column_underpriced;
use tariff::Tariff;
use verdict::fault::{CardFault, JudgeFault};

/// Judges a sheet. One that is accepted gives the plan, and its number of columns and total charge are answered.
pub fn judge<T: Tariff>(
    host: &Host,
    tariff: &T,
    sheet: &[u8],
    plan: &mut HeldPlan,
) -> Result<(u32, u32), JudgeFault>
    ensures answer { result ≡ judge_answer host.now (T.meaning tariff.now) sheet.now }
    ensures plan { plan.new ≡ plan_after host.now (T.meaning tariff.now) sheet.now plan.old }
{
    let chart = Chart::of(host);
    let mut gathering = Gathering::none();
    let at = gathering.read(&chart, tariff, sheet)?;
    if let Err(fault) = settle(&gathering, &chart, tariff) {
        return Err(JudgeFault::Card { fault, at });
    }
    let rows = gathering.columns.rows;
    let tolls = gathering.tolls.amounts;
    *plan = HeldPlan { rows, tolls };
    Ok((gathering.columns.full as u32, gathering.columns.charge))
}

/// What is wrong with the whole of a sheet, if anything is.
fn settle<T: Tariff>(gathering: &Gathering, chart: &Chart, tariff: &T) -> Result<(), CardFault>
    requires { (g : Gathered) × Holds chart.now.host.now (T.meaning tariff.now) gathering.now g × (g.column ≡ []) }
    ensures { let h = chart.now.host.now in let m = T.meaning tariff.now in
        (g : Gathered) → Holds h m gathering.now g → g.column ≡ [] → result ≡ answered (verdict_fault (card_of h) m g) tt }
{
    let columns = &gathering.columns;
    let tolls = &gathering.tolls;
    if some_column_underpriced(tariff, chart.standing, &chart.usable, &tolls.amounts) {
        return Err(CardFault::Underpriced);
    }
    if tolls.sum + u64::from(columns.charge) != u64::from(WORTH) * columns.full as u64 {
        return Err(CardFault::WrongSum);
    }
    Ok(())
}
