//! Small drawings, and what is told of them, worked out by hand.
use crate::{answer, canvas};
use std::test::Fail;

fn told(rt: &HostRuntime, text: &[u8]) -> Result<String, Fail> {
    let mut out = Vec::new(rt.alloc());
    answer(rt.alloc(), text, &mut out)?;
    Ok(String::from_utf8(out)?)
}

// The size test, and then the pictures, row by row: the first refusal is told by its number.
#[test]
fn a_bad_drawing_is_one_line(rt: HostRuntime) -> Result<(), Fail> {
    assert_eq!(rt; told(&rt, b"")?.as_str(), "no 1\n");
    assert_eq!(rt; told(&rt, &[b'.'; 65])?.as_str(), "no 1\n");
    assert_eq!(rt; told(&rt, &[b'\n'; 66])?.as_str(), "no 1\n");
    assert_eq!(rt; told(&rt, b"..\n.\n.x")?.as_str(), "row 1: no 4\n");
    assert_eq!(rt; told(&rt, b"..\n.x\n.")?.as_str(), "row 1: no 5\n");
    assert_eq!(rt; told(&rt, b"..\n..\n\n")?.as_str(), "row 2: no 4\n");
    assert_eq!(rt; told(&rt, b"..\r\n..\r\n")?.as_str(), "row 0: no 5\n");
    Ok(())
}

// A column of one PE takes no wire, and its only toll is the worth, 5,000,000.
#[test]
fn one_pe_is_a_column(rt: HostRuntime) -> Result<(), Fail> {
    let expected = "1 rows, 1 columns
all rows: 1 columns, total 0
greedy: 1 columns, total 0
route: 1 columns, total 0, 0 long links
0
sheet of 21 bytes:
01010100000000000000010200060000004C4B4007
judge: 1 columns, total 0
";
    assert_eq!(rt; told(&rt, b".")?.as_str(), expected);
    Ok(())
}

#[test]
fn a_repair_that_helps_is_told_and_not_made(rt: HostRuntime) -> Result<(), Fail> {
    let expected = "1 rows, 1 columns
all rows: 0 columns, total 0
PE (0, 0) repaired: 1 columns, total 0
greedy: 0 columns, total 0
route: 0 columns, total 0, 0 long links
X
sheet of 12 bytes:
010101000000000000000107
judge: 0 columns, total 0
";
    assert_eq!(rt; told(&rt, b"X\n")?.as_str(), expected);
    Ok(())
}

// With row 1 there is no column. Without it each takes one short link.
#[test]
fn a_row_is_left_out_where_more_pes_are_used(rt: HostRuntime) -> Result<(), Fail> {
    let front = "3 rows, 2 columns
all rows: 0 columns, total 0
without row 1, which is left out: 2 columns, total 2
greedy: 2 columns, total 2
route: 2 columns, total 2, 0 long links
01
XX
01
sheet of ";
    assert!(rt; told(&rt, b"..\nXX\n..\n")?.starts_with(front));
    Ok(())
}

// Without row 1 there are three columns, but of one PE each.
#[test]
fn no_row_is_left_out_for_more_columns_of_fewer_pes(rt: HostRuntime) -> Result<(), Fail> {
    let front = "2 rows, 3 columns
all rows: 2 columns, total 8
PE (1, 1) repaired: 3 columns, total 7
greedy: 2 columns, total 8
";
    assert!(rt; told(&rt, b"...\n.X.\n")?.starts_with(front));
    Ok(())
}

// 64 lines of 64 characters are the longest drawing.
#[test]
fn a_character_behind_the_longest_drawing_is_read(rt: HostRuntime) -> Result<(), Fail> {
    let mut text = [b'.'; 4161];
    for row in 1..65 {
        text[65 * row - 1] = b'\n';
    }
    assert_eq!(rt; told(&rt, &text)?.as_str(), "no 1\n");
    Ok(())
}

// Each column has a long link, 3, and one PE beside a faulty one, 2.
#[test]
fn long_links_and_warm_pes_are_charged(rt: HostRuntime) -> Result<(), Fail> {
    let front = "2 rows, 3 columns
all rows: 2 columns, total 10
greedy: 2 columns, total 10
route: 2 columns, total 10, 2 long links
X01
01X
sheet of ";
    assert!(rt; told(&rt, b"X..\n..X\n")?.starts_with(front));
    Ok(())
}

#[test]
fn each_column_has_a_character_of_its_own(rt: HostRuntime) -> Result<(), Fail> {
    let mut places = [0; 64];
    for (place, column) in (0..64).zip(places.iter_mut()) {
        *column = place;
    }
    let mut line = canvas::line(rt.alloc(), &[b'.'; 64], &places)?;
    line.sort_unstable();
    assert!(rt; !line.contains(&b'.') && !line.contains(&b'X'));
    assert!(rt; line.iter().zip(line.iter().skip(1)).all(|(a, b)| a < b));
    Ok(())
}
