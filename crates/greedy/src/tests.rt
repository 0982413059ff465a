//! Cards with columns worked out by hand. Bit 0 of a row, its last digit, is column 0.
use crate::search;
use std::process::Abort;

/// The number of columns, which are written to `out`.
fn searched(rt: &impl Abort, untried: &mut [u64], out: &mut [u8; 4097]) -> u32 {
    assert!(rt; untried.len() <= 64);
    search(untried, out)
}

/// Checks the columns that are found, one after another, and that the byte behind them is left alone.
fn finds(rt: &impl Abort, untried: &mut [u64], columns: u32, bytes: &[u8]) {
    let mut out = [b'#'; 4097];
    assert_eq!(rt; searched(rt, untried, &mut out), columns);
    assert!(rt; bytes.len() < 4097);
    assert!(rt; &out[0..bytes.len()] == bytes);
    assert_eq!(rt; out[bytes.len()], b'#');
}

#[test]
fn a_column_goes_round_a_faulty_pe(rt: HostRuntime) {
    finds(&rt, &mut [0b111, 0b101, 0b111], 2, &[0, 0, 0, 1, 2, 1]);
}

#[test]
fn left_comes_first(rt: HostRuntime) {
    finds(&rt, &mut [0b110, 0b011], 2, &[1, 0, 2, 1]);
}

#[test]
fn the_smallest_cards(rt: HostRuntime) {
    finds(&rt, &mut [1], 1, &[0]);
    finds(&rt, &mut [0], 0, &[]);
    finds(&rt, &mut [], 0, &[]);
}

#[test]
fn the_search_goes_back_two_rows(rt: HostRuntime) {
    finds(
        &rt,
        &mut [0b000001, 0b000011, 0b000101, 0b001000],
        1,
        &[0, 1, 2, 3],
    );
    finds(
        &rt,
        &mut [0b100001, 0b100011, 0b100101, 0b001000],
        1,
        &[0, 1, 2, 3],
    );
}

#[test]
fn a_whole_card_has_straight_columns(rt: HostRuntime) {
    let mut out = [64; 4097];
    assert_eq!(rt; searched(&rt, &mut [u64::MAX; 64], &mut out), 64);
    for (i, b) in out.iter().enumerate() {
        assert_eq!(rt; *b as usize, i / 64);
    }
}
