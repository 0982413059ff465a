//! The sheet of the example, damaged.
use crate::example::{SHEET, card, judged};
use host::Host;
use host::size::Size;
use std::test::Fail;

/// Bytes by their places that are put in place of the sheet's own, the number of the fault that this makes, and its place.
const DAMAGE: [(&[(usize, u8)], u8, usize); 33] = [
    // no kind
    (&[(11, 0x08)], 7, 11),
    (&[(31, 0x00)], 7, 31),
    // a second head, which the sheet is too short for
    (&[(24, 0x01)], 8, 24),
    // a start in place of the head
    (&[(0, 0x02)], 9, 0),
    // within a column a start, a toll, and an end, which bytes are behind
    (&[(13, 0x02)], 9, 13),
    (&[(13, 0x06)], 9, 13),
    (&[(13, 0x07)], 9, 13),
    // behind a full column a step, and a second head
    (&[(17, 0x05)], 9, 17),
    (&[(17, 0x01)], 9, 17),
    // behind a toll a start
    (&[(24, 0x02)], 9, 24),
    // an end, which bytes are behind
    (&[(17, 0x07)], 11, 18),
    // other rows, columns and standing rows
    (&[(1, 3)], 12, 0),
    (&[(2, 2)], 12, 0),
    (&[(10, 0b01)], 12, 0),
    (&[(3, 0x80)], 12, 0),
    // PEs outside the card
    (&[(12, 3)], 13, 11),
    (&[(15, 255)], 13, 14),
    (&[(16, 0x05)], 13, 16),
    // faulty PEs, of which the second is not right of the first column either
    (&[(12, 0)], 14, 11),
    (&[(15, 0)], 14, 14),
    (&[(16, 0x04)], 14, 16),
    // PEs of the first column
    (&[(15, 1)], 15, 14),
    (&[(13, 0x04)], 15, 16),
    // tolls outside the card and on a faulty PE, which comes too late too, and is 0
    (&[(25, 2)], 16, 24),
    (&[(26, 3)], 16, 24),
    (&[(25, 0), (26, 0), (28, 0), (29, 0), (30, 0)], 16, 24),
    // tolls on a PE that has one, and on one before it, of which the second is 0
    (&[(18, 1)], 17, 24),
    (&[(18, 1), (25, 0), (28, 0), (29, 0), (30, 0)], 17, 24),
    // tolls of 0 and of 5,000,001
    (&[(21, 0), (22, 0), (23, 0)], 18, 17),
    (&[(23, 0x41)], 18, 17),
    // PEs (0, 2) and (1, 1) are priced 1 + 4,999,998, with tolls that add up, and with tolls that do not
    (&[(23, 0x40), (30, 0x3E)], 19, 31),
    (&[(30, 0x3E)], 19, 31),
    // the tolls add up to one too many
    (&[(30, 0x40)], 20, 31),
];

fn damaged(damage: &[(usize, u8)]) -> [u8; 32] {
    let mut sheet = SHEET;
    for (at, byte) in damage {
        if *at < 32 {
            sheet[*at] = *byte;
        }
    }
    sheet
}

#[test]
fn each_fault_alone(rt: HostRuntime) -> Result<(), Fail> {
    let host = card()?;
    for (damage, number, place) in DAMAGE {
        assert_eq!(rt; judged(&host, &damaged(damage)), Err((number, place)));
    }
    Ok(())
}

#[test]
fn the_first_of_two_faults(rt: HostRuntime) -> Result<(), Fail> {
    let host = card()?;
    for (damage, number, place) in DAMAGE {
        let mut sheet = damaged(damage);
        if place < 31 {
            sheet[31] = 0x08;
        }
        assert_eq!(rt; judged(&host, &sheet), Err((number, place)));
    }
    Ok(())
}

#[test]
fn bytes_behind_the_end(rt: HostRuntime) -> Result<(), Fail> {
    let mut sheet = [0x07; 33];
    sheet[..32].copy_from_slice(&damaged(&[(30, 0x3E)]));
    assert_eq!(rt; judged(&card()?, &sheet), Err((11, 32)));
    Ok(())
}

#[test]
fn faults_on_other_cards(rt: HostRuntime) -> Result<(), Fail> {
    // a step left of column 0
    let healthy = Host::open(Size::test(2, 3)?);
    assert_eq!(rt; judged(&healthy, &damaged(&[(12, 0)])), Err((13, 13)));
    // a toll in a row that is left out
    let mut one_row = card()?;
    one_row.choose(1, 0)?;
    let sheet = [
        0x01, 2, 3, 0, 0, 0, 0, 0, 0, 0, 0b01, 0x06, 1, 1, 0, 0, 0, 1, 0x07,
    ];
    assert_eq!(rt; judged(&one_row, &sheet), Err((16, 11)));
    Ok(())
}
