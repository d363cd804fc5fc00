// Each reply and each entry of a recorded session with another number, left out, doubled and moved.
use crate::calling::Record;
use crate::recorded::{CHANGED_ENTRIES, CHANGED_REPLIES, ENTRIES, LEGAL, REPLIES};
use crate::rows::{journal, journal_of, push_row, recorded_of, rows_of, session_says};
use std::alloc::Global;
use std::test::Fail;

// What becomes of a row.
#[derive(Clone, Copy, Debug, PartialEq, Eq)]
enum Change {
    Other,
    Dropped,
    Doubled,
    Moved,
}

// The changes, in the order in which a row of a table tells of them.
const CHANGES: [Change; 4] = [
    Change::Other,
    Change::Dropped,
    Change::Doubled,
    Change::Moved,
];

// Which of so many rows stands at a place, where one is moved behind the next; the last comes first.
fn moved(rows: usize, row: usize, place: usize) -> usize {
    let next = row.saturating_add(1);
    if next >= rows {
        return if place == 0 {
            row
        } else {
            place.saturating_sub(1)
        };
    }
    if place == row {
        next
    } else if place == next {
        row
    } else {
        place
    }
}

// The rows with one of them changed: the other row that it may be is at hand.
fn changed(
    alloc: Global,
    rows: &[&[u8]],
    row: usize,
    other: &[u8],
    change: Change,
) -> Result<Vec<u8>, Fail> {
    let mut text = Vec::new(alloc);
    for (place, here) in rows.iter().enumerate() {
        let is_it = place == row;
        match change {
            Change::Other => push_row(&mut text, if is_it { other } else { *here })?,
            Change::Dropped => {
                if !is_it {
                    push_row(&mut text, here)?;
                }
            }
            Change::Doubled => {
                push_row(&mut text, here)?;
                if is_it {
                    push_row(&mut text, here)?;
                }
            }
            Change::Moved => match rows.get(moved(rows.len(), row, place)) {
                Some(there) => push_row(&mut text, there)?,
                None => {}
            },
        }
    }
    Ok(text)
}

// How many rows there are after a change.
fn count_after(rows: usize, change: Change) -> usize {
    match change {
        Change::Dropped => rows.saturating_sub(1),
        Change::Doubled => rows.saturating_add(1),
        _ => rows,
    }
}

// Whether each change of an entry is told as a row of the table says.
fn entry_told(alloc: Global, entries: &[&[u8]], at: usize, row: &str) -> Result<bool, Fail> {
    let mut parts = row.split('|');
    let other = parts.next().unwrap_or("").trim();
    for change in CHANGES {
        let text = changed(alloc, entries, at, other.as_bytes(), change)?;
        let journal = journal_of(alloc, count_after(entries.len(), change), &text)?;
        let told = parts.next().unwrap_or("").trim();
        if !session_says(alloc, &journal, 0, &recorded_of(0), told)? {
            return Ok(false);
        }
    }
    Ok(parts.next().is_none())
}

// Whether each change of a reply to a station is told as a row of the table says.
fn reply_told(
    alloc: Global,
    journal: &[u8],
    station: usize,
    replies: &[&[u8]],
    at: usize,
    row: &str,
) -> Result<bool, Fail> {
    let mut parts = row.split('|');
    let other = parts.next().unwrap_or("").trim();
    for change in CHANGES {
        let text = changed(alloc, replies, at, other.as_bytes(), change)?;
        let record = Record {
            got: &text,
            ..recorded_of(station)
        };
        let told = parts.next().unwrap_or("").trim();
        if !session_says(alloc, journal, station, &record, told)? {
            return Ok(false);
        }
    }
    Ok(parts.next().is_none())
}

// Whether all changes of the replies to a station are told as the table says.
fn replies_told(
    alloc: Global,
    journal: &[u8],
    station: usize,
    replies: &'static str,
    table: &str,
) -> Result<bool, Fail> {
    let rows = rows_of(alloc, replies)?;
    let mut at = 0usize;
    for row in table.lines() {
        if !reply_told(alloc, journal, station, &rows, at, row)? {
            return Ok(false);
        }
        at = at.saturating_add(1);
    }
    Ok(at == rows.len())
}

#[test]
fn a_session_of_four_stations_is_explained(rt: HostRuntime) -> Result<(), Fail> {
    let alloc = rt.alloc();
    let journal = journal(alloc)?;
    assert!(rt; session_says(alloc, &journal, 0, &recorded_of(0), LEGAL.trim())?);
    Ok(())
}

#[test]
fn each_change_of_an_entry_is_told(rt: HostRuntime) -> Result<(), Fail> {
    let alloc = rt.alloc();
    let entries = rows_of(alloc, ENTRIES)?;
    let mut at = 0usize;
    for row in CHANGED_ENTRIES.lines() {
        assert!(rt; entry_told(alloc, &entries, at, row)?, "{row}");
        at = at.saturating_add(1);
    }
    assert_eq!(rt; at, entries.len());
    assert_eq!(rt; at, 23);
    Ok(())
}

#[test]
fn each_change_of_a_reply_is_told(rt: HostRuntime) -> Result<(), Fail> {
    let alloc = rt.alloc();
    let journal = journal(alloc)?;
    for (station, (replies, table)) in REPLIES.iter().zip(CHANGED_REPLIES).enumerate() {
        assert!(rt;
            replies_told(alloc, &journal, station, replies, table)?,
            "{station}"
        );
    }
    Ok(())
}
