//! Sheets read and written record by record.
use crate::reader::Reader;
use crate::record::{Head, Record, Step, Toll};
use crate::writer::{Refusal, Writer};
use std::test::Fail;

/// A card of 2 by 3, both rows standing: two columns that step left, and two tolls.
const SHEET: [u8; 32] = [
    0x01, 2, 3, 0, 0, 0, 0, 0, 0, 0, 0b11, 0x02, 1, 0x03, 0x02, 2, 0x03, 0x06, 0, 1, 0, 0x4C, 0x4B,
    0x3F, 0x06, 1, 1, 0, 0x4C, 0x4B, 0x3F, 0x07,
];

/// What it says, and how long the sheet is behind each record.
const RECORDS: [(Record, usize); 8] = [
    (
        Record::Head(Head {
            rows: 2,
            columns: 3,
            standing: 0b11,
        }),
        11,
    ),
    (Record::Start(1), 13),
    (Record::Step(Step::Left), 14),
    (Record::Start(2), 16),
    (Record::Step(Step::Left), 17),
    (
        Record::Toll(Toll {
            row: 0,
            column: 1,
            amount: 4_999_999,
        }),
        24,
    ),
    (
        Record::Toll(Toll {
            row: 1,
            column: 1,
            amount: 4_999_999,
        }),
        31,
    ),
    (Record::End, 32),
];

#[test]
fn records_are_read_one_behind_the_other(rt: HostRuntime) {
    let mut reader = Reader::new();
    for (record, behind) in RECORDS {
        assert_eq!(rt; reader.take(&SHEET), Ok(record));
        assert_eq!(rt; reader.place(), behind);
    }
}

#[test]
fn they_are_written_to_the_same_bytes(rt: HostRuntime) -> Result<(), Fail> {
    let mut out = [0xFF; 40];
    let mut writer = Writer::open(2, 3, 0b11, &mut out)?;
    for (record, behind) in &RECORDS[1..] {
        assert_eq!(rt; writer.put(*record, &mut out), Ok(*behind));
    }
    // what is behind the sheet stays
    let mut expected = [0xFF; 40];
    expected[..32].copy_from_slice(&SHEET);
    assert_eq!(rt; out, expected);
    Ok(())
}

/// The fault that ends a reading, by number and place, and the place where it leaves the reader.
fn fault_of(sheet: &[u8]) -> Option<(u8, usize, usize)> {
    let mut reader = Reader::new();
    for _ in 0..=sheet.len() {
        match reader.take(sheet) {
            Ok(Record::End) => return None,
            Ok(_) => {}
            Err(fault) => return Some((u8::from(fault), fault.place(), reader.place())),
        }
    }
    None
}

#[test]
fn a_reading_stops_at_the_first_fault(rt: HostRuntime) {
    let mut sheet = SHEET;
    assert_eq!(rt; fault_of(&sheet), None);
    assert_eq!(rt; fault_of(&sheet[..31]), Some((10, 31, 31)));
    assert_eq!(rt; fault_of(&sheet[..30]), Some((8, 24, 24)));
    sheet[24] = 0x07; // an end in place of the second toll
    assert_eq!(rt; fault_of(&sheet), Some((11, 25, 24)));
    sheet[24] = 0x02; // a start behind a toll
    assert_eq!(rt; fault_of(&sheet), Some((9, 24, 24)));
    sheet[16] = 0x06; // a toll within a column
    assert_eq!(rt; fault_of(&sheet), Some((9, 16, 16)));
    sheet[14] = 0x05; // a step behind a full column
    assert_eq!(rt; fault_of(&sheet), Some((9, 14, 14)));
    sheet[11] = 0x08; // no kind
    assert_eq!(rt; fault_of(&sheet), Some((7, 11, 11)));
}

/// The number by which a writer refuses to open, in a buffer of so many bytes.
fn refusal_to_open(rows: u8, columns: u8, standing: u64, room: usize) -> Option<u8> {
    let mut out = [0; 11];
    match Writer::open(rows, columns, standing, &mut out[..room.min(11)]) {
        Ok(_) => None,
        Err(refusal) => Some(u8::from(refusal)),
    }
}

#[test]
fn refusals_of_a_writer_come_in_order(rt: HostRuntime) -> Result<(), Fail> {
    assert_eq!(rt; refusal_to_open(2, 65, 0b100, 10), Some(1));
    assert_eq!(rt; refusal_to_open(2, 3, 0b100, 10), Some(2));
    assert_eq!(rt; refusal_to_open(2, 3, 0, 10), Some(6));
    assert_eq!(rt; refusal_to_open(2, 3, 0b11, 10), Some(21));
    assert_eq!(rt; refusal_to_open(2, 3, 0b11, 11), None);
    let mut out = [0xFF; 12];
    let mut writer = Writer::open(2, 3, 0b11, &mut out)?;
    assert_eq!(rt;
        writer.put(Record::Step(Step::Right), &mut out[..11]),
        Err(Refusal::OutOfTurn)
    );
    assert_eq!(rt;
        writer.put(Record::Start(1), &mut out),
        Err(Refusal::ShortBuffer)
    );
    assert_eq!(rt; writer.put(Record::End, &mut out), Ok(12));
    assert_eq!(rt; out, [1, 2, 3, 0, 0, 0, 0, 0, 0, 0, 0b11, 7]);
    Ok(())
}
