//! The longest sheet: 64 straight columns in 64 rows, and a toll of 78,125 on each PE, which is 1 / 64 of the worth.
use crate::example::judged;
use host::Host;
use host::size::Size;
use judge::judge;
use plan_sheet::write_plan;
use plans::held::HeldPlan;
use sheet::record::{Record, Step, Toll};
use sheet::writer::{Refusal, Writer};
use std::test::Fail;
use tariff::links::Links;

const LENGTH: usize = 32_844;

/// The last toll is given, since it decides.
fn longest(last: u32) -> Result<[u8; 32_844], Refusal> {
    let mut sheet = [0; LENGTH];
    let mut writer = Writer::open(64, 64, u64::MAX, &mut sheet)?;
    for column in 0..64 {
        writer.put(Record::Start(column), &mut sheet)?;
        for _ in 1..64 {
            writer.put(Record::Step(Step::Straight), &mut sheet)?;
        }
    }
    for row in 0..64 {
        for column in 0..64 {
            let amount = if row == 63 && column == 63 {
                last
            } else {
                78_125
            };
            writer.put(
                Record::Toll(Toll {
                    row,
                    column,
                    amount,
                }),
                &mut sheet,
            )?;
        }
    }
    writer.put(Record::End, &mut sheet)?;
    Ok(sheet)
}

#[test]
fn it_is_accepted(rt: HostRuntime) -> Result<(), Fail> {
    let host = Host::open(Size::test(64, 64)?);
    assert_eq!(rt; judged(&host, &longest(78_125)?), Ok((64, 0)));
    assert_eq!(rt; judged(&host, &longest(78_124)?), Err((19, LENGTH - 1)));
    assert_eq!(rt; judged(&host, &longest(78_126)?), Err((20, LENGTH - 1)));
    Ok(())
}

#[test]
fn its_plan_is_written_to_the_same_bytes(rt: HostRuntime) -> Result<(), Fail> {
    let host = Host::open(Size::test(64, 64)?);
    let sheet = longest(78_125)?;
    let mut plan = HeldPlan::empty();
    assert!(rt; judge(&host, &Links, &sheet, &mut plan).is_ok());
    let mut out = [0; LENGTH];
    assert_eq!(rt; write_plan(&host, &plan, 64, &mut out), Ok(LENGTH));
    assert_eq!(rt; out, sheet);
    Ok(())
}
