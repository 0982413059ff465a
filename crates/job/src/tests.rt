//! Jobs with the lines that they give, written out by hand.
use crate::listing::{harvest_listing, list, print};
use crate::refusal::ListingRefusal;
use std::process::Abort;

/// Checks that a job has this listing, and that the byte behind it is left alone.
fn gives(rt: &impl Abort, job: &[u8], lines: &[u8]) {
    let mut out = [b'#'; 200];
    assert_eq!(rt; list(job, &mut out), Ok(lines.len()));
    assert!(rt; lines.len() < 200);
    assert!(rt; &out[0..lines.len()] == lines);
    assert_eq!(rt; out[lines.len()], b'#');
}

#[test]
fn an_empty_job_has_no_line(rt: HostRuntime) {
    gives(&rt, b"", b"");
}

#[test]
fn every_record_has_a_line(rt: HostRuntime) {
    gives(
        &rt,
        b"\x10\x02\x03\x11\x00\x00\x01\x11\x01\x02\x01\x12\x01\x01\x01\x13\x00\x02\x00\x14\x01\x00",
        b"10 ok\n11 ok\n11 ok\n12 ok\n13 ok\n14 ok\n",
    );
}

#[test]
fn every_refusal_of_a_record_has_its_number(rt: HostRuntime) {
    gives(&rt, b"\x11\x00\x00\x01\x14\x00\x00", b"11 no 9\n14 no 9\n");
    gives(
        &rt,
        b"\x10\x41\x01\x10\x00\x40\x12\x00\x00\x01",
        b"10 no 1\n10 no 1\n12 no 9\n",
    );
    gives(
        &rt,
        b"\x10\x01\x02\x11\x01\x00\x01\x12\x00\x01\x00\x13\x00\x00\x00",
        b"10 ok\n11 no 2\n12 no 2\n13 no 2\n",
    );
    gives(
        &rt,
        b"\x10\x01\x02\x11\x00\x01\x02\x14\x00\x03\x14\x01\x03",
        b"10 ok\n11 no 3\n14 no 3\n14 no 2\n",
    );
    gives(&rt, b"\x10\x01\x01\x18\x10\x01\x01", b"10 ok\n18 no 7\n");
    gives(&rt, b"\xAF\x10\x01\x01", b"AF no 7\n");
    gives(&rt, b"\x10\x01\x01\x13\x00\x00", b"10 ok\n13 no 8\n");
    gives(&rt, b"\x11", b"11 no 8\n");
}

#[test]
fn greedy_has_a_line_with_its_counts(rt: HostRuntime) {
    gives(
        &rt,
        b"\x10\x02\x03\x11\x00\x00\x01\x11\x01\x02\x01\x16",
        b"10 ok\n11 ok\n11 ok\n16 2 2\n",
    );
    gives(&rt, b"\x10\x40\x40\x16", b"10 ok\n16 64 0\n");
    gives(
        &rt,
        b"\x16\x10\x01\x01\x14\x00\x00\x16",
        b"16 no 9\n10 ok\n14 ok\n16 no 6\n",
    );
}

/// The sheet of a plan for 2 rows by 3 columns, where PEs (0, 0) and (1, 2) are faulty.
const SHEET: [u8; 32] =
    *b"\x01\x02\x03\0\0\0\0\0\0\0\x03\x02\x01\x03\x02\x02\x03\x06\0\x01\0\x4C\x4B\x3F\x06\x01\x01\0\x4C\x4B\x3F\x07";

#[test]
fn a_sheet_follows_its_judge(rt: HostRuntime) {
    // the card of that sheet: greedy, route and the judge of the sheet
    let mut job = [0u8; 46];
    job[..14].copy_from_slice(b"\x10\x02\x03\x11\x00\x00\x01\x11\x01\x02\x01\x16\x15\x17");
    job[14..].copy_from_slice(&SHEET);
    gives(&rt, &job, b"10 ok\n11 ok\n11 ok\n16 2 2\n15 2 2\n17 2 2\n");
    // one less in the last toll, and one more
    job[44] = 0x3E;
    gives(
        &rt,
        &job,
        b"10 ok\n11 ok\n11 ok\n16 2 2\n15 2 2\n17 no 19 at 31\n",
    );
    job[44] = 0x40;
    gives(
        &rt,
        &job,
        b"10 ok\n11 ok\n11 ok\n16 2 2\n15 2 2\n17 no 20 at 31\n",
    );
    // without its end record
    gives(
        &rt,
        &job[..45],
        b"10 ok\n11 ok\n11 ok\n16 2 2\n15 2 2\n17 no 10 at 31\n",
    );
}

#[test]
fn a_sheet_ends_with_its_first_end_record(rt: HostRuntime) {
    // an end record out of turn still ends the sheet, and the job goes on behind it
    gives(
        &rt,
        b"\x10\x01\x01\x17\x07\x15\x17\x01\x01\x01\0\0\0\0\0\0\0\x01\x07\x16",
        b"10 ok\n17 no 9 at 0\n15 1 0\n17 no 19 at 11\n16 1 0\n",
    );
    // a 07 within a body is no end record, and a sheet that cannot be read goes on to the job's end
    gives(
        &rt,
        b"\x10\x01\x01\x17\x02\x07\x08\x15\x07",
        b"10 ok\n17 no 9 at 0\n",
    );
    gives(&rt, b"\x10\x01\x01\x17", b"10 ok\n17 no 10 at 0\n");
}

#[test]
fn without_a_card_or_a_row_a_sheet_is_passed_over(rt: HostRuntime) {
    gives(&rt, b"\x15\x17\x08\x07", b"15 no 9\n17 no 9\n");
    gives(
        &rt,
        b"\x17\x07\x10\x01\x01\x14\x00\x00\x15\x17\x07\x16",
        b"17 no 9\n10 ok\n14 ok\n15 no 6\n17 no 6\n16 no 6\n",
    );
}

#[test]
fn a_refused_size_keeps_the_card_and_an_accepted_one_opens_another(rt: HostRuntime) {
    gives(
        &rt,
        b"\x10\x02\x02\x10\x00\x02\x11\x01\x01\x01",
        b"10 ok\n10 no 1\n11 ok\n",
    );
    gives(
        &rt,
        b"\x10\x02\x02\x10\x01\x01\x11\x01\x01\x01",
        b"10 ok\n10 ok\n11 no 2\n",
    );
}

#[test]
fn a_listing_may_fill_its_buffer_and_not_pass_it(rt: HostRuntime) {
    let mut out = [b'#'; 6];
    assert_eq!(rt; list(b"\x10\x01\x01", &mut out), Ok(6));
    assert_eq!(rt; out, *b"10 ok\n");
    let mut short = [b'#'; 5];
    assert_eq!(rt;
        list(b"\x10\x01\x01", &mut short),
        Err(ListingRefusal::ShortBuffer)
    );
    assert_eq!(rt; harvest_listing(b"\x10\x01\x01", &mut short), -21);
    assert_eq!(rt; short, [b'#'; 5]);
}

#[test]
fn a_job_of_60000_bytes_is_read_and_one_more_is_not(rt: HostRuntime) {
    let job = [0u8; 60_001];
    let mut out = [b'#'; 65_536];
    assert_eq!(rt; list(&job, &mut out), Err(ListingRefusal::LongJob));
    assert_eq!(rt; harvest_listing(&job, &mut out), -24);
    assert_eq!(rt; out[0], b'#');
    assert_eq!(rt; harvest_listing(&job[0..60_000], &mut out), 8);
    assert!(rt; &out[0..9] == b"00 no 7\n#".as_slice());
    assert_eq!(rt; print(&job, &mut out), 6);
    assert!(rt; &out[0..9] == b"no 24\n7\n#".as_slice());
}

#[test]
fn the_program_says_when_its_buffer_is_too_short(rt: HostRuntime) {
    // Each three bytes are a choice before any size: 8,192 lines of 8 bytes fill the buffer.
    let job = [0x14u8; 24_579];
    let mut out = [b'#'; 65_536];
    assert_eq!(rt; print(&job[0..24_576], &mut out), 65_536);
    assert!(rt; &out[65_528..65_536] == b"14 no 9\n".as_slice());
    assert_eq!(rt; print(&job, &mut out), 6);
    assert!(rt; &out[0..8] == b"no 21\n9\n".as_slice());
}
