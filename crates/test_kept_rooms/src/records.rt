// Records one by one: which is an entry that may come next, and why another is not.

use kept_rooms::{Lasts, RecordCode, RecordFault, record_entry, records_have_one_reading};
use std::alloc::Global;

// A line, how many stations the room has, and what it is refused for. Station 0 had the number 5
// before.
const ROWS: [(&str, u32, Option<RecordCode>); 27] = [
    ("0 6 slice 0 10", 1, None),
    ("0 4000000000 slice 0 10", 1, None),
    ("1 1 slice 0 10", 2, None),
    ("15 1 slice 0 10", 16, None),
    ("15 4000000000 slice 31 10", 16, None),
    // no entry's line
    ("", 16, Some(RecordCode::H1)),
    ("0", 16, Some(RecordCode::H1)),
    ("0 6 sli", 16, Some(RecordCode::H1)),
    ("0 6 slice 0 10 ", 16, Some(RecordCode::H1)),
    ("0 6  slice 0 10", 16, Some(RecordCode::H1)),
    ("0 06 slice 0 10", 16, Some(RecordCode::H1)),
    ("0 6 view 0 0 10", 16, Some(RecordCode::H1)),
    ("16 6 slice 0 10", 16, Some(RecordCode::H1)),
    ("0 4294967296 slice 0 10", 16, Some(RecordCode::H1)),
    // its number does not rise
    ("0 5 slice 0 10", 1, Some(RecordCode::H4)),
    ("0 4 slice 0 10", 1, Some(RecordCode::H4)),
    ("0 0 slice 0 10", 1, Some(RecordCode::H4)),
    ("1 0 slice 0 10", 2, Some(RecordCode::H4)),
    // its station is not in the room
    ("1 1 slice 0 10", 1, Some(RecordCode::H6)),
    ("15 1 slice 0 10", 15, Some(RecordCode::H6)),
    ("0 6 slice 0 10", 0, Some(RecordCode::H6)),
    // its number is too great
    ("0 4000000001 slice 0 10", 1, Some(RecordCode::H7)),
    ("0 4294967295 slice 0 10", 1, Some(RecordCode::H7)),
    // two at once: the first is told
    ("0 0 sli", 0, Some(RecordCode::H1)),
    ("16 4000000001 slice 0 10", 1, Some(RecordCode::H1)),
    ("1 0 slice 0 10", 1, Some(RecordCode::H4)),
    ("1 4000000001 slice 0 10", 1, Some(RecordCode::H6)),
];

// What a line is refused for after number 5 of station 0.
fn refused(alloc: Global, line: &str, stations: u32) -> Result<Option<RecordCode>, RecordFault> {
    let mut lasts = Lasts::new();
    lasts.note(0, 5);
    match record_entry(alloc, line.as_bytes(), stations, &lasts) {
        Ok(_) => Ok(None),
        Err(RecordFault::Refused(code)) => Ok(Some(code)),
        Err(RecordFault::Memory) => Err(RecordFault::Memory),
    }
}

#[test]
fn a_record_is_an_entry_or_is_refused(rt: HostRuntime) {
    let alloc = rt.alloc();
    for (line, stations, want) in ROWS {
        assert!(rt; refused(alloc, line, stations) == Ok(want), "{line}");
    }
    records_have_one_reading::<u8, u8, u8>();
}
