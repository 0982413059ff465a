//! Whether some column is priced below the worth, on cards worked out by hand.
use crate::Span;
use plans::WORTH;
use prices::some_column_underpriced;
use std::test::Fail;
use tariff::heat::Heat;
use tariff::links::Links;
use tariff::pe::Pe;

// 2 by 3, PEs (0,0) and (1,2) faulty: two columns, each with one long link.
#[test]
fn two_long_links(rt: HostRuntime) {
    let mut usable = [0; 64];
    usable[0] = 0b110;
    usable[1] = 0b011;
    let mut tolls = [[0; 64]; 64];
    tolls[0][1] = WORTH - 1;
    tolls[1][1] = WORTH - 1;
    assert_eq!(rt;
        some_column_underpriced(&Links, 0b11, &usable, &tolls),
        false
    );
    tolls[1][1] = WORTH - 2;
    assert_eq!(rt;
        some_column_underpriced(&Links, 0b11, &usable, &tolls),
        true
    );
}

// 3 by 3, PE (1,1) faulty: tolls of the worth on the other two of its row.
#[test]
fn around_a_faulty_pe(rt: HostRuntime) {
    let mut usable = [0b111; 64];
    usable[1] = 0b101;
    let mut tolls = [[0; 64]; 64];
    tolls[1][0] = WORTH;
    assert_eq!(rt;
        some_column_underpriced(&Links, 0b111, &usable, &tolls),
        true
    );
    tolls[1][2] = WORTH;
    assert_eq!(rt;
        some_column_underpriced(&Links, 0b111, &usable, &tolls),
        false
    );
    // Without the middle row there is no toll.
    assert_eq!(rt;
        some_column_underpriced(&Links, 0b101, &usable, &tolls),
        true
    );
}

#[test]
fn no_column_no_price(rt: HostRuntime) {
    let tolls = [[0; 64]; 64];
    let mut usable = [u64::MAX; 64];
    assert_eq!(rt; some_column_underpriced(&Links, 0, &usable, &tolls), false);
    assert_eq!(rt;
        some_column_underpriced(&Links, u64::MAX, &usable, &tolls),
        true
    );
    usable[63] = 0;
    assert_eq!(rt;
        some_column_underpriced(&Links, u64::MAX, &usable, &tolls),
        false
    );
}

// 2 by 3, PEs (0,0) and (0,2) faulty, heat 2 on (0,1) and 5, 9, 3 on row 1: the cheapest column costs 6.
#[test]
fn heat_of_the_first_row(rt: HostRuntime) -> Result<(), Fail> {
    let mut heat = Heat::new(Links);
    heat.set(Pe::at(0, 1), 2)?;
    heat.set(Pe::at(1, 0), 5)?;
    heat.set(Pe::at(1, 1), 9)?;
    heat.set(Pe::at(1, 2), 3)?;
    let mut usable = [0; 64];
    usable[0] = 0b010;
    usable[1] = 0b111;
    let mut tolls = [[0; 64]; 64];
    tolls[0][1] = WORTH - 6;
    assert_eq!(rt;
        some_column_underpriced(&heat, 0b11, &usable, &tolls),
        false
    );
    tolls[0][1] = WORTH - 7;
    assert_eq!(rt; some_column_underpriced(&heat, 0b11, &usable, &tolls), true);
    Ok(())
}

// One column from (0,63) to (2,62) over the tariff of this crate: 63 to enter, 2 + 8 for the link.
#[test]
fn at_the_right_edge(rt: HostRuntime) {
    let mut usable = [0; 64];
    usable[0] = 1 << 63;
    usable[2] = 1 << 62;
    let mut tolls = [[u32::MAX; 64]; 64];
    assert_eq!(rt;
        some_column_underpriced(&Span, 0b101, &usable, &tolls),
        false
    );
    tolls[0][63] = 0;
    tolls[2][62] = WORTH - 73;
    assert_eq!(rt;
        some_column_underpriced(&Span, 0b101, &usable, &tolls),
        false
    );
    tolls[2][62] = WORTH - 74;
    assert_eq!(rt;
        some_column_underpriced(&Span, 0b101, &usable, &tolls),
        true
    );
}
