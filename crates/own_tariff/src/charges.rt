//! Charges worked out by hand.
use crate::Span;
use std::test::Fail;
use tariff::column::column_charge;
use tariff::heat::Heat;
use tariff::links::Links;
use tariff::pe::Pe;
use tariff::wire_length::WireLength;
use tariff::{Refusal, Tariff};

// Rows 0, 2 and 5 stand; the column has a long link, then a short one.
const ROWS: u64 = 37;

#[test]
fn a_column_under_each_tariff(rt: HostRuntime) -> Result<(), Fail> {
    let columns = [3, 4, 4];
    assert_eq!(rt; column_charge(&Links, ROWS, &columns), 1);
    assert_eq!(rt; column_charge(&WireLength::new(3, 4)?, ROWS, &columns), 13);
    assert_eq!(rt; column_charge(&Span, ROWS, &columns), 16);
    let mut heat = Heat::new(Links);
    heat.set(Pe::at(0, 3), 7)?;
    heat.set(Pe::at(1, 4), 200)?;
    heat.set(Pe::at(2, 4), 5)?;
    heat.set(Pe::at(5, 4), 9)?;
    assert_eq!(rt; column_charge(&heat, ROWS, &columns), 22);
    Ok(())
}

#[test]
fn a_column_shorter_or_longer_than_the_rows(rt: HostRuntime) {
    assert_eq!(rt; column_charge(&Span, ROWS, &[]), 0);
    assert_eq!(rt; column_charge(&Span, ROWS, &[3]), 3);
    assert_eq!(rt; column_charge(&Span, ROWS, &[3, 4, 4, 5]), 16);
    assert_eq!(rt; column_charge(&Span, 0, &[3, 4, 4]), 0);
}

#[test]
fn heat_counts_in_the_first_row_and_at_the_lower_end(rt: HostRuntime) -> Result<(), Fail> {
    let mut heat = Heat::new(Links);
    heat.set(Pe::at(0, 1), 2)?;
    heat.set(Pe::at(1, 0), 5)?;
    heat.set(Pe::at(1, 1), 9)?;
    heat.set(Pe::at(1, 2), 3)?;
    assert_eq!(rt; column_charge(&heat, 3, &[1, 0]), 8);
    assert_eq!(rt; column_charge(&heat, 3, &[1, 1]), 11);
    assert_eq!(rt; column_charge(&heat, 3, &[1, 2]), 6);
    Ok(())
}

#[test]
fn heat_adds_nothing_at_the_top(rt: HostRuntime) -> Result<(), Fail> {
    let mut heat = Heat::new(WireLength::new(250, 500)?);
    heat.set(Pe::at(0, 0), 255)?;
    heat.set(Pe::at(1, 0), 255)?;
    assert_eq!(rt; heat.ceiling(), 1000);
    assert_eq!(rt; heat.entry(Pe::at(0, 0)), 0);
    assert_eq!(rt; heat.link(Pe::at(0, 0), Pe::at(1, 0)), 250);
    assert_eq!(rt; heat.link(Pe::at(0, 1), Pe::at(1, 0)), 1000);
    Ok(())
}

#[test]
fn heat_over_heat_over_wire_length(rt: HostRuntime) -> Result<(), Fail> {
    let mut first = Heat::new(WireLength::new(150, 445)?);
    first.set(Pe::at(0, 0), 255)?;
    first.set(Pe::at(1, 0), 255)?;
    let mut second = Heat::new(first);
    second.set(Pe::at(0, 0), 255)?;
    second.set(Pe::at(1, 0), 255)?;
    assert_eq!(rt; second.ceiling(), 1000);
    assert_eq!(rt; second.entry(Pe::at(0, 0)), 255);
    assert_eq!(rt; second.link(Pe::at(0, 0), Pe::at(1, 0)), 405);
    assert_eq!(rt; second.link(Pe::at(0, 1), Pe::at(1, 0)), 1000);
    Ok(())
}

#[test]
fn outside_questions_get_nothing(rt: HostRuntime) -> Result<(), Fail> {
    let mut heat = Heat::new(WireLength::new(1, 1)?);
    heat.set(Pe::at(63, 63), 255)?;
    assert_eq!(rt; heat.entry(Pe::at(63, 63)), 255);
    assert_eq!(rt; heat.entry(Pe::at(64, 63)), 0);
    assert_eq!(rt; heat.entry(Pe::at(63, 64)), 0);
    assert_eq!(rt; heat.link(Pe::at(62, 62), Pe::at(63, 63)), 258);
    assert_eq!(rt; heat.link(Pe::at(62, 61), Pe::at(63, 63)), 0);
    assert_eq!(rt; heat.link(Pe::at(63, 63), Pe::at(63, 63)), 0);
    assert_eq!(rt; heat.link(Pe::at(62, 64), Pe::at(63, 63)), 0);
    assert_eq!(rt; heat.link(Pe::at(63, 63), Pe::at(64, 63)), 0);
    Ok(())
}

#[test]
fn refusals(rt: HostRuntime) {
    assert_eq!(rt; WireLength::new(250, 500).is_ok(), true);
    assert_eq!(rt; WireLength::new(0, 1).err(), Some(Refusal::WireOutOfRange));
    assert_eq!(rt;
        WireLength::new(251, 1).err(),
        Some(Refusal::WireOutOfRange)
    );
    assert_eq!(rt; WireLength::new(1, 0).err(), Some(Refusal::WireOutOfRange));
    assert_eq!(rt;
        WireLength::new(1, 501).err(),
        Some(Refusal::WireOutOfRange)
    );
    let mut heat = Heat::new(Links);
    assert_eq!(rt; heat.set(Pe::at(64, 0), 1), Err(Refusal::OutsideGrid));
    assert_eq!(rt; heat.set(Pe::at(0, 64), 1), Err(Refusal::OutsideGrid));
    assert_eq!(rt; heat.entry(Pe::at(0, 0)), 0);
    assert_eq!(rt; u8::from(Refusal::OutsideGrid), 2);
    assert_eq!(rt; u8::from(Refusal::WireOutOfRange), 23);
}
