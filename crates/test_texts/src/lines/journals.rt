// Journals read, and texts that are none.

use call_text::{
    EntryFault, JournalCode, JournalFault, MAX_JOURNAL, NewsFault, entry_text, journal_text,
    news_text, read_entry, read_journal, read_news,
};
use reply_text::{Memory, put, put_number};
use std::alloc::Global;
use std::test::Fail;

// What is read of a text: the text of its journal, or the code and the line of its fault.
fn told(alloc: Global, text: &[u8]) -> Result<Vec<u8>, Memory> {
    let mut said = Vec::new(alloc);
    if text.len() > MAX_JOURNAL {
        return Ok(said);
    }
    match read_journal(alloc, text) {
        Ok(entries) => return journal_text(alloc, &entries),
        Err(JournalFault::Refused { code, number }) => put_number(&mut said, lead(code), number)?,
        Err(JournalFault::Memory) => put(&mut said, b"memory")?,
    }
    Ok(said)
}

// The letters of a code, with a space after them.
fn lead(code: JournalCode) -> &'static [u8] {
    match code {
        JournalCode::H1 => b"H1 ",
        JournalCode::H2 => b"H2 ",
        JournalCode::H4 => b"H4 ",
    }
}

// Each row is a text, in which `/` stands for a line feed, ` | `, and what is read of it.
const FAULTS: &str = "\
journal 0 | H1 1
 | H1 1
/ | H1 1
journal 0\r/ | H1 1
journal/ | H1 1
journal  0/ | H1 1
 journal 0/ | H1 1
journal 0 / | H1 1
journal 00/ | H1 1
journal x/ | H1 1
journal 4294967296/ | H1 1
Journal 0/ | H1 1
journal 0// | H1 2
journal 4294967295/ | H2 1
journal 1/ | H2 1
journal 2/0 1 slice 0 10/ | H2 1
journal 0/0 1 slice 0 10/ | H2 1
journal 1/0 1 slice 0 10 | H1 2
journal 1/0 1 slice 00 10/ | H1 2
journal 1/00 1 slice 0 10/ | H1 2
journal 1/16 1 slice 0 10/ | H1 2
journal 1/0 01 slice 0 10/ | H1 2
journal 1/0 4294967296 slice 0 10/ | H1 2
journal 1/0 1  slice 0 10/ | H1 2
journal 1/0 1 slice\t0 10/ | H1 2
journal 1/0 1 slice 32 10/ | H1 2
journal 1/0 1 slice 0 00:00:00:10/ | H1 2
journal 1/0 1 items 0/ | H1 2
journal 1/0 1 news 0/ | H1 2
journal 1/0 1 back 0,0/ | H1 2
journal 1/0 1 back 00/ | H1 2
journal 1/0 1 back/ | H1 2
journal 1/0 1 slice 0 10 kept/ | H1 2
journal 1/0 1 slice 0 10  keep/ | H1 2
journal 1/0 1 slice 0 10 keep / | H1 2
journal 1/0 1 slice 0 10 / | H1 2
journal 3/0 1 slice 0 1/0 x slice 0 1/ | H1 3
journal 2/0 2 slice 0 1/0 2 slice 0 1/ | H4 3
journal 3/0 2 slice 0 1/1 1 slice 0 1/0 1 slice 0 1/ | H4 4
";

const JOURNALS: &str = "\
journal 0/
journal 1/15 0 remove 31 4294967295/
journal 3/0 1 overwrite 1 20 @3 400 5000/15 70 insert 0,2 2 24 #7 5 6/0 2 extract 1,2 1 3/
journal 4/0 1 overwrite 1 20 @3 400 5000 keep/15 70 insert 0,2 2 24 #7 5 6 keep/0 2 extract 1,2 1 3 keep/0 3 remove 1 4 keep/
journal 2/3 1 slice 0 10/4 1 back 0,31/
journal 4/0 1 slice 0 10 keep/0 2 slice 0 11/0 3 fill 1 20 @3 400 source 7 keep/0 4 fill 1 20 @3 400 sequence keep/
";

// A text with a line feed in place of each `/`.
fn with_lines(alloc: Global, row: &str) -> Result<Vec<u8>, Memory> {
    let mut text = Vec::new(alloc);
    for byte in row.as_bytes() {
        text.push(if *byte == b'/' { b'\n' } else { *byte })?;
    }
    Ok(text)
}

#[test]
fn the_first_fault_of_a_journal_is_told(rt: HostRuntime) -> Result<(), Fail> {
    for (row, text) in FAULTS.lines().enumerate() {
        let (journal, want) = text.split_once(" | ").ok_or("no row")?;
        let said = told(rt.alloc(), with_lines(rt.alloc(), journal)?.as_slice())?;
        assert_eq!(rt; said.as_slice(), want.as_bytes(), "row {row}");
    }
    Ok(())
}

#[test]
fn written_journals_are_read(rt: HostRuntime) -> Result<(), Fail> {
    for (row, text) in JOURNALS.lines().enumerate() {
        let text = with_lines(rt.alloc(), text)?;
        let said = told(rt.alloc(), text.as_slice())?;
        assert_eq!(rt; said.as_slice(), text.as_slice(), "row {row}");
    }
    Ok(())
}

// What is read of the line of an entry: the entry's text, or its fault.
fn entry_told(alloc: Global, line: &[u8]) -> Result<Vec<u8>, Memory> {
    match read_entry(alloc, line) {
        Ok(entry) => entry_text(alloc, &entry),
        Err(EntryFault::H1) => {
            let mut said = Vec::new(alloc);
            put(&mut said, b"H1")?;
            Ok(said)
        }
        Err(EntryFault::Memory) => Err(Memory),
    }
}

// Each row is a line, ` | `, and what is read of it.
const ENTRIES: &str = "\
0 1 slice 0 10 | 0 1 slice 0 10
15 4294967295 remove 31 4294967295 keep | 15 4294967295 remove 31 4294967295 keep
0 0 link 0,1 4294967295,0 | 0 0 link 0,1 4294967295,0
7 4294967295 back 0,1,31 | 7 4294967295 back 0,1,31
3 7 ripple 0,31 31 2 tail -2147483648 | 3 7 ripple 0,31 31 2 tail -2147483648
 | H1
0 1 | H1
0 slice 0 10 | H1
16 1 slice 0 10 | H1
0 4294967296 slice 0 10 | H1
0 01 slice 0 10 | H1
0 1  slice 0 10 | H1
0 1 slice 0 10 / | H1
0 1 slice 0 10/ | H1
0 1 point | H1
0 1 items 0 | H1
0 1 news 0 | H1
0 1 back 0,0 | H1
0 1 back 1,0 | H1
0 1 back 32 | H1
0 1 back 0 keep | H1
0 1 back  0 | H1
0 1 back | H1
0 1 link 0,1 5 | H1
";

#[test]
fn an_entry_is_read_of_its_line(rt: HostRuntime) -> Result<(), Fail> {
    for (row, text) in ENTRIES.lines().enumerate() {
        let (line, want) = text.split_once(" | ").ok_or("no row")?;
        let said = entry_told(rt.alloc(), with_lines(rt.alloc(), line)?.as_slice())?;
        assert_eq!(rt; said.as_slice(), want.as_bytes(), "row {row}");
    }
    Ok(())
}

#[test]
fn a_step_is_asked_for_by_the_station_of_its_entry(rt: HostRuntime) -> Result<(), Fail> {
    for (line, station) in [
        ("0 1 slice 0 10", 0u32),
        ("15 1 slice 0 10", 15),
        ("7 1 back 0,2", 7),
    ] {
        match read_entry(rt.alloc(), line.as_bytes()) {
            Ok(entry) => assert_eq!(rt; (entry.station, entry.call.by), (station, station)),
            Err(_) => return Err("no entry".into()),
        }
    }
    Ok(())
}

// What is read of a reply that tells an entry: its text, or its fault.
fn news_told(alloc: Global, line: &[u8]) -> Result<Vec<u8>, Memory> {
    match read_news(alloc, line) {
        Ok(news) => news_text(alloc, &news),
        Err(NewsFault::NotNews) => {
            let mut said = Vec::new(alloc);
            put(&mut said, b"none")?;
            Ok(said)
        }
        Err(NewsFault::Memory) => Err(Memory),
    }
}

// Each row is a line, ` | `, and what is read of it.
const NEWS: &str = "\
news 0 1 0 1 overwrite 0 10 @0 3600 5 | news 0 1 0 1 overwrite 0 10 @0 3600 5
news 1 2 15 4294967295 back 0,31 | news 1 2 15 4294967295 back 0,31
news 99999 100000 0 3 link 0,1 4,5 | news 99999 100000 0 3 link 0,1 4,5
news 0 0 | news 0 0
news 1 1 | news 1 1
news 5 3 | news 5 3
news 4294967295 4294967295 | news 4294967295 4294967295
news 4294967294 4294967295 0 0 unlink 0 0 | news 4294967294 4294967295 0 0 unlink 0 0
 | none
news | none
news 0 | none
news 0 1 | none
news 0 0 0 1 slice 3 50 | none
news 1 1 0 1 slice 3 50 | none
news 1 0 0 1 slice 3 50 | none
news 0 1 0 1 | none
news 0 1 0 1 point | none
news 0 1 0 1 news 0 | none
news 0 1 16 1 slice 3 50 | none
news 0 1 0 1 slice 3 50  | none
news 0 1 0 1 slice 3 050 | none
news 0 1  0 1 slice 3 50 | none
news  0 1 0 1 slice 3 50 | none
 news 0 1 0 1 slice 3 50 | none
news 00 1 0 1 slice 3 50 | none
news 0 01 0 1 slice 3 50 | none
news 1 1  | none
news\t1 1 | none
news x 1 | none
news 1 x | none
news 1 4294967296 | none
news 4294967296 1 | none
News 1 1 | none
newt 1 1 | none
ok 0 1 | none
";

#[test]
fn news_are_read_of_their_line(rt: HostRuntime) -> Result<(), Fail> {
    for (row, text) in NEWS.lines().enumerate() {
        let (line, want) = text.split_once(" | ").ok_or("no row")?;
        let said = news_told(rt.alloc(), line.as_bytes())?;
        assert_eq!(rt; said.as_slice(), want.as_bytes(), "row {row}");
    }
    Ok(())
}

#[test]
fn news_tell_the_station_of_their_step(rt: HostRuntime) -> Result<(), Fail> {
    match read_news(rt.alloc(), b"news 2 9 7 1 back 0,2") {
        Ok(news) => {
            assert_eq!(rt; (news.place, news.length), (2, 9));
            let entry = news.entry.ok_or("no entry")?;
            assert_eq!(rt; (entry.station, entry.number, entry.call.by), (7, 1, 7));
        }
        Err(_) => return Err("no news".into()),
    }
    Ok(())
}

// The text of a journal of so many slices, all of one station.
fn slices(alloc: Global, count: u32) -> Result<Vec<u8>, Memory> {
    let mut text = Vec::new(alloc);
    put_number(&mut text, b"journal ", count)?;
    put(&mut text, b"\n")?;
    for number in 0..count {
        put_number(&mut text, b"0 ", number)?;
        put(&mut text, b" slice 0 0\n")?;
    }
    Ok(text)
}

#[test]
fn a_full_journal_is_read_and_a_longer_one_is_not(rt: HostRuntime) -> Result<(), Fail> {
    let full = slices(rt.alloc(), 100_000)?;
    let said = told(rt.alloc(), full.as_slice())?;
    assert!(rt; said == full);
    let longer = slices(rt.alloc(), 100_001)?;
    let said = told(rt.alloc(), longer.as_slice())?;
    assert_eq!(rt; said.as_slice(), b"H2 1".as_slice());
    Ok(())
}

#[test]
fn faults_of_journals_are_told_apart(rt: HostRuntime) {
    let fault = |code: JournalCode, number: u32| JournalFault::Refused { code, number };
    let first = fault(JournalCode::H1, 1);
    assert!(rt; first == fault(JournalCode::H1, 1));
    let others = [
        fault(JournalCode::H2, 1),
        fault(JournalCode::H4, 1),
        fault(JournalCode::H1, 2),
        JournalFault::Memory,
    ];
    for (row, other) in others.into_iter().enumerate() {
        assert!(rt; first != other, "row {row}");
    }
}
