//! A card of 2 by 3, where PEs (0, 0) and (1, 2) are faulty, and the sheet of a plan for it.
use host::Host;
use host::part::Part;
use host::refusal::Refusal;
use host::size::Size;
use judge::judge;
use plan_sheet::write_plan;
use plans::held::HeldPlan;
use std::test::Fail;
use tariff::links::Links;

/// Two columns, each with a link to the left, and a toll of 4,999,999 on each of PEs (0, 1) and (1, 1).
pub const SHEET: [u8; 32] = [
    0x01, 2, 3, 0, 0, 0, 0, 0, 0, 0, 0b11, 0x02, 1, 0x03, 0x02, 2, 0x03, 0x06, 0, 1, 0, 0x4C, 0x4B,
    0x3F, 0x06, 1, 1, 0, 0x4C, 0x4B, 0x3F, 0x07,
];

pub fn card() -> Result<Host, Refusal> {
    let mut host = Host::open(Size::test(2, 3)?);
    host.mark(Part::Pe(0, 0), 1)?;
    host.mark(Part::Pe(1, 2), 1)?;
    Ok(host)
}

/// What the judge says of a sheet under the links tariff: columns and charge, or the number of the fault and its place.
pub fn judged(host: &Host, sheet: &[u8]) -> Result<(u32, u32), (u8, usize)> {
    let mut plan = HeldPlan::empty();
    match judge(host, &Links, sheet, &mut plan) {
        Ok(answer) => Ok(answer),
        Err(fault) => Err((u8::from(fault), fault.place())),
    }
}

#[test]
fn it_is_accepted(rt: HostRuntime) -> Result<(), Fail> {
    assert_eq!(rt; judged(&card()?, &SHEET), Ok((2, 2)));
    Ok(())
}

#[test]
fn its_plan_is_written_to_the_same_bytes(rt: HostRuntime) -> Result<(), Fail> {
    let host = card()?;
    let mut plan = HeldPlan::empty();
    assert!(rt; judge(&host, &Links, &SHEET, &mut plan).is_ok());
    let mut out = [0; 32];
    assert_eq!(rt; write_plan(&host, &plan, 2, &mut out), Ok(32));
    assert_eq!(rt; out, SHEET);
    Ok(())
}

#[test]
fn a_beginning_misses_its_end_or_is_cut_short(rt: HostRuntime) -> Result<(), Fail> {
    let host = card()?;
    let mut record = 0;
    for length in 0..32 {
        if [0, 11, 13, 14, 16, 17, 24, 31].contains(&length) {
            record = length;
        }
        let number = if record == length { 10 } else { 8 };
        assert_eq!(rt; judged(&host, &SHEET[..length]), Err((number, record)));
    }
    Ok(())
}
