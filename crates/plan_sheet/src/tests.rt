//! The sheet of a plan, byte by byte.
use crate::{ShortBuffer, write_plan};
use host::Host;
use host::part::Part;
use host::size::Size;
use plans::held::HeldPlan;
use std::test::Fail;

const SHEET: [u8; 32] = [
    0x01, 2, 3, 0, 0, 0, 0, 0, 0, 0, 0b11, 0x02, 1, 0x03, 0x02, 2, 0x03, 0x06, 0, 1, 0, 0x4C, 0x4B,
    0x3F, 0x06, 1, 1, 0, 0x4C, 0x4B, 0x3F, 0x07,
];

#[test]
fn a_sheet_is_written_whole_or_not_at_all(rt: HostRuntime) -> Result<(), Fail> {
    let mut host = Host::open(Size::test(2, 3)?);
    host.mark(Part::Pe(0, 0), 1)?;
    host.mark(Part::Pe(1, 2), 1)?;
    let mut plan = HeldPlan::empty();
    plan.rows[0].columns[0] = 1;
    plan.rows[0].columns[1] = 2;
    plan.rows[1].columns[0] = 0;
    plan.rows[1].columns[1] = 1;
    plan.tolls[0][1] = 4_999_999;
    plan.tolls[1][1] = 4_999_999;
    let mut out = [0xFF; 40];
    assert_eq!(rt;
        write_plan(&host, &plan, 2, &mut out[..31]),
        Err(ShortBuffer)
    );
    assert_eq!(rt; out, [0xFF; 40]);
    assert_eq!(rt; write_plan(&host, &plan, 2, &mut out), Ok(32));
    let mut expected = [0xFF; 40];
    expected[..32].copy_from_slice(&SHEET);
    assert_eq!(rt; out, expected);
    Ok(())
}
