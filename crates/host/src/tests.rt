//! Cases at the edges of a card, with answers worked out by hand.
use crate::Host;
use crate::part::Part;
use crate::refusal::Refusal;
use crate::size::Size;
use std::test::Fail;

fn card(rows: u8, columns: u8) -> Result<Host, Refusal> {
    Ok(Host::open(Size::test(rows, columns)?))
}

#[test]
fn sides_are_1_to_64(rt: HostRuntime) {
    assert!(rt; Size::test(1, 1).is_ok());
    assert!(rt; Size::test(64, 64).is_ok());
    for (rows, columns) in [(0, 1), (1, 0), (65, 64), (64, 65), (255, 255)] {
        assert!(rt; Size::test(rows, columns).is_err());
    }
    assert_eq!(rt; u8::from(Refusal::BadSize), 1);
}

#[test]
fn refusals_come_in_order(rt: HostRuntime) -> Result<(), Fail> {
    let mut host = card(2, 3)?;
    assert_eq!(rt; host.mark(Part::Pe(2, 0), 2), Err(Refusal::Outside));
    assert_eq!(rt; host.mark(Part::Pe(0, 3), 1), Err(Refusal::Outside));
    assert_eq!(rt; host.mark(Part::Pe(1, 2), 2), Err(Refusal::BadState));
    assert_eq!(rt; host.choose(2, 7), Err(Refusal::Outside));
    assert_eq!(rt; host.choose(1, 2), Err(Refusal::BadState));
    assert_eq!(rt; host.picture(2, b"?"), Err(Refusal::Outside));
    assert_eq!(rt; host.picture(1, b"?"), Err(Refusal::BadLength));
    assert_eq!(rt; host.picture(1, b"X?X"), Err(Refusal::BadCharacter));
    assert_eq!(rt; host.picture(1, b"xx."), Err(Refusal::BadCharacter));
    assert_eq!(rt; (host.usable_in(1), host.standing()), (0b111, 0b11));
    Ok(())
}

#[test]
fn a_switch_joins_two_parts_of_the_card(rt: HostRuntime) -> Result<(), Fail> {
    let one = Size::test(1, 1)?;
    assert!(rt; !Part::RowSwitch(0, 0).is_inside(one));
    assert!(rt; !Part::ColumnSwitch(0, 0).is_inside(one));
    let flat = Size::test(1, 5)?;
    assert!(rt; Part::RowSwitch(0, 3).is_inside(flat));
    assert!(rt; !Part::RowSwitch(0, 4).is_inside(flat));
    assert!(rt; !Part::ColumnSwitch(0, 0).is_inside(flat));
    let full = Size::test(64, 64)?;
    assert!(rt; Part::RowSwitch(63, 62).is_inside(full));
    assert!(rt; !Part::RowSwitch(63, 63).is_inside(full));
    assert!(rt; Part::ColumnSwitch(62, 63).is_inside(full));
    assert!(rt; !Part::ColumnSwitch(63, 63).is_inside(full));
    Ok(())
}

#[test]
fn a_faulty_column_switch_spoils_the_pes_at_both_its_ends(rt: HostRuntime) -> Result<(), Fail> {
    let mut host = card(3, 3)?;
    assert_eq!(rt; host.mark(Part::ColumnSwitch(0, 1), 1), Ok(true));
    assert_eq!(rt;
        (host.usable_in(0), host.usable_in(1), host.usable_in(2)),
        (0b101, 0b101, 0b111)
    );
    assert!(rt; !host.is_usable(0, 1));
    assert!(rt; host.is_usable(2, 1));
    assert!(rt; !host.is_usable(3, 1));
    assert_eq!(rt; host.mark(Part::ColumnSwitch(0, 1), 0), Ok(true));
    assert_eq!(rt; host.usable_in(0), 0b111);
    Ok(())
}

#[test]
fn the_leftmost_usable_pe_is_found_from_a_picture(rt: HostRuntime) -> Result<(), Fail> {
    let mut host = card(2, 4)?;
    assert_eq!(rt; host.picture(0, b"XX.X"), Ok(true));
    assert_eq!(rt; host.picture(1, b"XXXX"), Ok(true));
    assert_eq!(rt; host.leftmost_usable(0), Some(2));
    assert_eq!(rt; host.leftmost_usable(1), None);
    assert_eq!(rt; host.leftmost_usable(2), None);
    Ok(())
}

#[test]
fn a_call_tells_whether_it_altered_a_state(rt: HostRuntime) -> Result<(), Fail> {
    let mut host = card(2, 3)?;
    assert_eq!(rt; host.mark(Part::Pe(0, 1), 0), Ok(false));
    assert_eq!(rt; host.mark(Part::Pe(0, 1), 1), Ok(true));
    assert_eq!(rt; host.picture(0, b".X."), Ok(false));
    assert_eq!(rt; host.picture(0, b"XX."), Ok(true));
    assert_eq!(rt; host.picture(1, b".X."), Ok(true));
    assert_eq!(rt; host.choose(1, 1), Ok(false));
    assert_eq!(rt; host.choose(1, 0), Ok(true));
    assert_eq!(rt; host.choose(1, 0), Ok(false));
    Ok(())
}

#[test]
fn a_row_stands_if_it_is_chosen_and_whole(rt: HostRuntime) -> Result<(), Fail> {
    let mut host = card(64, 64)?;
    assert_eq!(rt; host.standing(), u64::MAX);
    assert_eq!(rt; host.mark(Part::RowSwitch(1, 62), 1), Ok(true));
    assert_eq!(rt; host.choose(63, 0), Ok(true));
    assert!(rt; !host.is_standing(1));
    assert!(rt; !host.is_standing(63));
    assert!(rt; !host.is_standing(64));
    assert_eq!(rt; host.standing_count(), 62);
    assert_eq!(rt; host.choose(63, 1), Ok(true));
    assert_eq!(rt; host.standing(), u64::MAX - 2);
    Ok(())
}
