//! What is gathered of a sheet, record by record.
ghost use Rattle.std.specs.Prelude.{◌≡◌, [], drop};
ghost use Rattle.host.specs.declared.Host.{Host};
ghost use Rattle.tariff.specs.Meaning.{Meaning};
ghost use Rattle.sheet.specs.Readings.{taken, reader_after, reading};
ghost use Rattle.verdict.specs.Judging.{Gathered, blank, checked, gathered};
ghost use Rattle.judge.specs.Gathering.{gathering_of, Holds, AnswersAs, ChecksAs, next_gathered, end_at};

use crate::chart::Chart;
use crate::columns::GatheredColumns;
use crate::tolls::GatheredTolls;
use sheet::reader::Reader;
use sheet::record::Record;
use tariff::Tariff;
use tariff::pe::Pe;
use verdict::fault::{CardFault, JudgeFault};

/// The columns and the tolls that have come.
#[derive(Clone, Copy)]
pub struct Gathering {
    pub columns: GatheredColumns,
    pub tolls: GatheredTolls,
}

impl Gathering {
    /// Before the first record.
    pub fn none() -> Gathering
        ensures { (h : Host) (m : Meaning) → result ≡ gathering_of h m blank }
    {
        Gathering {
            columns: GatheredColumns::none(),
            tolls: GatheredTolls::none(),
        }
    }

    /// Checks a record, and takes it in.
    fn take<T: Tariff>(&mut self, chart: &Chart, tariff: &T, next: Record) -> Result<(), CardFault>
        requires { (g : Gathered) × Holds chart.now.host.now (T.meaning tariff.now) self.old g }
        ensures { let h = chart.now.host.now in let m = T.meaning tariff.now in
            (g : Gathered) → Holds h m self.old g → ChecksAs (λ g'. self.new ≡ gathering_of h m g') result (checked h g next) }
    {
        match next {
            Record::Head(head) => chart.check_head(head),
            Record::Start(column) => self.columns.put(chart, tariff, column),
            Record::Step(step) => self.columns.step(chart, tariff, step),
            Record::Toll(toll) => {
                let pe = Pe {
                    row: toll.row,
                    column: toll.column,
                };
                self.tolls.add(chart, pe, toll.amount)
            }
            Record::End => Ok(()),
        }
    }

    /// Takes in the next record of a sheet, and answers its place if it is the end.
    fn take_next<T: Tariff>(
        &mut self,
        chart: &Chart,
        tariff: &T,
        reader: &mut Reader,
        sheet: &[u8],
    ) -> Result<Option<usize>, JudgeFault>
        requires { (g : Gathered) × Holds chart.now.host.now (T.meaning tariff.now) self.old g }
        ensures reader { reader.new ≡ reader_after reader.old (taken reader.old sheet.now) }
        ensures gathered { let h = chart.now.host.now in let m = T.meaning tariff.now in let at = reader.old.at in
            (g : Gathered) → Holds h m self.old g →
            AnswersAs (λ p. end_at at p.0) (λ p. self.new ≡ gathering_of h m p.1) result (next_gathered h g at (taken reader.old sheet.now)) }
    {
        let at = reader.place();
        let record = reader.take(sheet)?;
        match self.take(chart, tariff, record) {
            Ok(()) => Ok(end_at(at, record)),
            Err(fault) => Err(JudgeFault::Card { fault, at }),
        }
    }

    /// Reads a sheet whole, and answers the place of its end record.
    pub fn read<T: Tariff>(
        &mut self,
        chart: &Chart,
        tariff: &T,
        sheet: &[u8],
    ) -> Result<usize, JudgeFault>
        requires { self.old ≡ gathering_of chart.now.host.now (T.meaning tariff.now) blank }
        ensures { let h = chart.now.host.now in let m = T.meaning tariff.now in
            AnswersAs (λ p. p.1) (λ p. Holds h m self.new p.0 × (p.0.column ≡ [])) result (gathered h blank (reading sheet.now)) }
    {
        let mut reader = Reader::new();
        loop {
            match self.take_next(chart, tariff, &mut reader, sheet) {
                Ok(None) => {}
                Ok(Some(end)) => break Ok(end),
                Err(fault) => break Err(fault),
            }
        }
    }
}

/// The place of a record, if it is the end.
fn end_at(at: usize, found: Record) -> Option<usize>
    ensures { result ≡ end_at at found }
{
    match found {
        Record::End => Some(at),
        _ => None,
    }
}
