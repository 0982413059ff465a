//! Cards and sheets worked out by hand.
use crate::best::{Answer, best_family};
use crate::card::Card;
use crate::greedily;
use crate::map::Map;
use crate::ours::tells_plan;
use crate::trouble::Trouble;
use host::part::Part;
use host::part::Part::{ColumnSwitch, Pe as PeAt, RowSwitch};
use host::size::Size;
use std::alloc::Global;
use std::test::Fail;
use tariff::heat::Heat;
use tariff::links::Links;
use tariff::pe::Pe;

fn map(rows: u8, columns: u8, faulty: &[Part]) -> Result<Map, host::refusal::Refusal> {
    let mut map = Map::healthy(Size::test(rows, columns)?);
    for part in faulty {
        map.spoil(*part);
    }
    Ok(map)
}

fn answer(columns: u32, charge: u32) -> Answer {
    Answer { columns, charge }
}

#[test]
fn best_families_over_links(rt: HostRuntime) -> Result<(), Fail> {
    for (rows, columns, faulty, best) in [
        (1, 1, [].as_slice(), answer(1, 0)),
        (1, 1, [PeAt(0, 0)].as_slice(), answer(0, 0)),
        (3, 3, [PeAt(1, 1)].as_slice(), answer(2, 0)),
        (2, 3, [PeAt(0, 0), PeAt(1, 2)].as_slice(), answer(2, 2)),
        (3, 3, [ColumnSwitch(0, 1)].as_slice(), answer(2, 0)),
        (3, 3, [RowSwitch(1, 0), PeAt(1, 1)].as_slice(), answer(3, 0)),
    ] {
        let card = Card::new(rt.alloc(), map(rows, columns, faulty)?, Links)?;
        assert_eq!(rt; best_family(&card)?, Some(best));
    }
    Ok(())
}

#[test]
fn without_a_standing_row_there_is_no_family(rt: HostRuntime) -> Result<(), Fail> {
    let mut map = map(2, 2, &[RowSwitch(0, 0)])?;
    map.leave_out(1);
    let card = Card::new(rt.alloc(), map, Links)?;
    assert_eq!(rt; best_family(&card)?, None);
    assert_eq!(rt; greedily::find(&card, &card.rows)?.answer, None);
    Ok(())
}

#[test]
fn heat_of_the_first_row_counts(rt: HostRuntime) -> Result<(), Fail> {
    let mut heat = Heat::new(Links);
    for (row, column, degrees) in [(0, 1, 2), (1, 0, 5), (1, 1, 9), (1, 2, 3)] {
        heat.set(Pe::at(row, column), degrees)?;
    }
    let card = Card::new(rt.alloc(), map(2, 3, &[PeAt(0, 0), PeAt(0, 2)])?, heat)?;
    assert_eq!(rt; best_family(&card)?, Some(answer(1, 6)));
    assert_eq!(rt;
        greedily::find(&card, &card.rows)?.answer,
        Some(answer(1, 8))
    );
    Ok(())
}

// Columns straight down in 0, and round the faulty PE in 2; without the row of that PE, three straight ones.
#[test]
fn greedy_goes_left_where_it_can(rt: HostRuntime) -> Result<(), Fail> {
    let card = Card::new(rt.alloc(), map(3, 3, &[PeAt(1, 1)])?, Links)?;
    assert_eq!(rt;
        greedily::find(&card, &card.rows)?.answer,
        Some(answer(2, 2))
    );
    assert_eq!(rt; greedily::find(&card, &[0, 2])?.answer, Some(answer(3, 0)));
    Ok(())
}

/// Two columns with a long link each, and tolls on the two PEs in the middle that leave no price below the worth.
const SHEET: [u8; 32] = [
    0x01, 2, 3, 0, 0, 0, 0, 0, 0, 0, 0b11, 0x02, 1, 0x03, 0x02, 2, 0x03, 0x06, 0, 1, 0, 0x4C, 0x4B,
    0x3F, 0x06, 1, 1, 0, 0x4C, 0x4B, 0x3F, 0x07,
];

/// Whether a sheet is taken for the card of these two columns.
fn is_taken(alloc: Global, sheet: &[u8], told: Answer) -> Result<bool, Trouble> {
    let card = Card::new(alloc, map(2, 3, &[PeAt(0, 0), PeAt(1, 2)])?, Links)?;
    Ok(tells_plan(&card, sheet, told)?)
}

/// Whether it is taken with other bytes from a place on.
fn is_taken_with(alloc: Global, place: usize, bytes: &[u8]) -> Result<bool, Trouble> {
    let mut sheet = SHEET;
    for (at, byte) in sheet.iter_mut().skip(place).zip(bytes) {
        *at = *byte;
    }
    is_taken(alloc, &sheet, answer(2, 2))
}

#[test]
fn a_sheet_is_taken_as_it_is_told(rt: HostRuntime) -> Result<(), Fail> {
    assert!(rt; is_taken(rt.alloc(), &SHEET, answer(2, 2))?);
    assert!(rt; !is_taken(rt.alloc(), &SHEET, answer(2, 1))?);
    assert!(rt; !is_taken(rt.alloc(), &SHEET, answer(1, 1))?);
    Ok(())
}

#[test]
fn a_sheet_has_the_head_of_the_card_and_ends_with_its_end(rt: HostRuntime) -> Result<(), Fail> {
    // a kind, a row and a column more, a row that does not stand, tolls before a column, and no end
    for (place, bytes) in [
        (0, [0x02].as_slice()),
        (1, [3].as_slice()),
        (2, [4].as_slice()),
        (10, [0b111].as_slice()),
        (
            14,
            [0x06, 0, 1, 0, 0x4C, 0x4B, 0x3F, 0x02, 2, 0x03].as_slice(),
        ),
        (31, [0x06].as_slice()),
    ] {
        assert!(rt; !is_taken_with(rt.alloc(), place, bytes)?);
    }
    let mut longer = [0x07; 33];
    for (at, byte) in longer.iter_mut().zip(&SHEET) {
        *at = *byte;
    }
    assert!(rt; !is_taken(rt.alloc(), &longer, answer(2, 2))?);
    Ok(())
}

#[test]
fn tolls_have_to_support_the_family(rt: HostRuntime) -> Result<(), Fail> {
    // none, 1 too little, 1 too much, and the two exchanged
    for (place, bytes) in [
        (30, [0x3E].as_slice()),
        (30, [0x40].as_slice()),
        (28, [0, 0, 0].as_slice()),
        (18, [1, 1, 0, 0x4C, 0x4B, 0x3F, 0x06, 0, 1].as_slice()),
    ] {
        assert!(rt; !is_taken_with(rt.alloc(), place, bytes)?);
    }
    Ok(())
}

#[test]
fn columns_have_to_be_a_family_from_left_to_right(rt: HostRuntime) -> Result<(), Fail> {
    // the columns exchanged, two that share a PE, one on a faulty PE, and one that goes too far aside
    for columns in [
        [0x02, 2, 0x03, 0x02, 1, 0x03],
        [0x02, 1, 0x04, 0x02, 2, 0x03],
        [0x02, 1, 0x04, 0x02, 2, 0x04],
        [0x02, 1, 0x03, 0x02, 2, 0x02],
    ] {
        assert!(rt; !is_taken_with(rt.alloc(), 11, &columns)?);
    }
    Ok(())
}
