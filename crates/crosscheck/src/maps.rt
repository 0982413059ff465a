//! Random maps of cards.
use crate::chance::Chance;
use crate::map::Map;
use host::part::Part;
use host::refusal::Refusal;
use host::size::Size;

/// Some faulty PEs, and now and then faulty switches and rows left out.
pub fn random_map(chance: &mut Chance) -> Result<Map, Refusal> {
    let mut map = Map::healthy(random_size(chance)?);
    spoil_pes(&mut map, chance);
    spoil_switches(&mut map, chance);
    leave_rows_out(&mut map, chance);
    Ok(map)
}

/// Mostly small; now and then of any size, or as large as can be.
fn random_size(chance: &mut Chance) -> Result<Size, Refusal> {
    let most = match chance.small(0, 199) {
        0 => return Size::test(64, 64),
        1..=5 => 64,
        6..=30 => 24,
        _ => 8,
    };
    Size::test(chance.small(1, most), chance.small(1, most))
}

/// 0 to 60 per cent of the PEs are faulty, more often few than many.
fn spoil_pes(map: &mut Map, chance: &mut Chance) {
    let most = chance.small(0, 60);
    let percent = chance.small(0, most);
    for row in 0..map.size.rows() {
        for column in 0..64 {
            if chance.happens(percent) {
                map.spoil(Part::Pe(row, column));
            }
        }
    }
}

/// On half of the cards, a few row switches and some column switches.
fn spoil_switches(map: &mut Map, chance: &mut Chance) {
    if chance.happens(50) {
        return;
    }
    // At some of these places the card has no switch.
    for _ in 0..chance.small(0, 2) {
        let (row, column) = random_place(map.size, chance);
        map.spoil(Part::RowSwitch(row, column));
    }
    for _ in 0..chance.small(0, 6) {
        let (row, column) = random_place(map.size, chance);
        map.spoil(Part::ColumnSwitch(row, column));
    }
}

fn random_place(size: Size, chance: &mut Chance) -> (u8, u8) {
    (
        random_row(size, chance),
        chance.small(0, size.columns() - 1),
    )
}

pub fn random_row(size: Size, chance: &mut Chance) -> u8 {
    chance.small(0, size.rows() - 1)
}

/// On half of the cards, up to half of the rows.
fn leave_rows_out(map: &mut Map, chance: &mut Chance) {
    if chance.happens(50) {
        return;
    }
    let percent = chance.small(0, 50);
    for row in 0..map.size.rows() {
        if chance.happens(percent) {
            map.leave_out(row);
        }
    }
}
