//! Cards worked out by hand.
use crate::route;
use host::Host;
use host::part::Part;
use host::size::Size;
use plans::held::HeldPlan;
use std::test::Fail;
use tariff::Tariff;
use tariff::heat::Heat;
use tariff::links::Links;
use tariff::pe::Pe;

fn card(rows: u8, columns: u8) -> Result<Host, host::refusal::Refusal> {
    Ok(Host::open(Size::test(rows, columns)?))
}

fn routed<T: Tariff>(host: &Host, tariff: &T) -> Option<(u32, u32)> {
    let mut plan = HeldPlan::empty();
    route(host, tariff, &mut plan)
}

#[test]
fn a_single_pe(rt: HostRuntime) -> Result<(), Fail> {
    let mut host = card(1, 1)?;
    assert_eq!(rt; routed(&host, &Links), Some((1, 0)));
    host.mark(Part::Pe(0, 0), 1)?;
    assert_eq!(rt; routed(&host, &Links), Some((0, 0)));
    host.choose(0, 0)?;
    assert_eq!(rt; routed(&host, &Links), None);
    Ok(())
}

// Greedy goes round the faulty PE; the best family leaves it between two straight columns.
#[test]
fn straight_columns_past_a_faulty_pe(rt: HostRuntime) -> Result<(), Fail> {
    let mut host = card(3, 3)?;
    host.mark(Part::Pe(1, 1), 1)?;
    assert_eq!(rt; routed(&host, &Links), Some((2, 0)));
    Ok(())
}

// Columns go from 1 to 0 and from 2 to 1, each with a long link; its tolls come to what else it is worth.
#[test]
fn a_plan(rt: HostRuntime) -> Result<(), Fail> {
    let mut host = card(2, 3)?;
    host.picture(0, b"X..")?;
    host.picture(1, b"..X")?;
    let mut plan = HeldPlan::empty();
    assert_eq!(rt; route(&host, &Links, &mut plan), Some((2, 2)));
    let (above, below) = (plan.rows[0].columns, plan.rows[1].columns);
    assert_eq!(rt; (above[0], above[1], above[2]), (1, 2, 0));
    assert_eq!(rt; (below[0], below[1], below[2]), (0, 1, 0));
    let first = u64::from(plan.tolls[0][1]) + u64::from(plan.tolls[1][0]);
    let second = u64::from(plan.tolls[0][2]) + u64::from(plan.tolls[1][1]);
    assert_eq!(rt; (first, second), (4_999_999, 4_999_999));
    Ok(())
}

#[test]
fn a_faulty_column_switch_costs_a_column(rt: HostRuntime) -> Result<(), Fail> {
    let mut host = card(3, 3)?;
    host.mark(Part::ColumnSwitch(0, 1), 1)?;
    assert_eq!(rt; routed(&host, &Links), Some((2, 0)));
    Ok(())
}

// Row 1 has a faulty switch, so columns go from row 0 to row 2, past its faulty PE.
#[test]
fn rows_that_do_not_stand_are_passed_over(rt: HostRuntime) -> Result<(), Fail> {
    let mut host = card(3, 3)?;
    host.mark(Part::RowSwitch(1, 0), 1)?;
    host.mark(Part::Pe(1, 1), 1)?;
    assert_eq!(rt; routed(&host, &Links), Some((3, 0)));
    Ok(())
}

// From the PE of row 0, with heat 2, to that of row 1 with the least charge: 2 + 1 + 3.
#[test]
fn heat_is_charged(rt: HostRuntime) -> Result<(), Fail> {
    let mut heat = Heat::new(Links);
    heat.set(Pe::at(0, 1), 2)?;
    heat.set(Pe::at(1, 0), 5)?;
    heat.set(Pe::at(1, 1), 9)?;
    heat.set(Pe::at(1, 2), 3)?;
    let mut host = card(2, 3)?;
    host.picture(0, b"X.X")?;
    assert_eq!(rt; routed(&host, &heat), Some((1, 6)));
    Ok(())
}

#[test]
fn a_row_without_a_usable_pe_stops_all(rt: HostRuntime) -> Result<(), Fail> {
    let mut host = card(3, 3)?;
    host.picture(1, b"XXX")?;
    assert_eq!(rt; routed(&host, &Links), Some((0, 0)));
    Ok(())
}

#[test]
fn the_largest_cards(rt: HostRuntime) -> Result<(), Fail> {
    let mut host = card(64, 64)?;
    assert_eq!(rt; routed(&host, &Links), Some((64, 0)));
    for row in 0..64u8 {
        let mut text = [b'.'; 64];
        for column in 0..64u8 {
            if (row + column) % 2 == 1 {
                text[usize::from(column)] = b'X';
            }
        }
        host.picture(row, &text)?;
    }
    assert_eq!(rt; routed(&host, &Links), Some((32, 2016)));
    for row in 0..64u8 {
        host.picture(row, &[b'X'; 64])?;
    }
    assert_eq!(rt; routed(&host, &Links), Some((0, 0)));
    Ok(())
}
