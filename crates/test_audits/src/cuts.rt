// Sessions that were cut short, taken as far as they went.
use crate::calling::{Record, says_so, with_journal};
use crate::recorded::{CUTS, LINES, REPLIES};
use crate::rows::{journal, push_row, recorded_of, rows_of, session_says};
use std::alloc::Global;
use std::test::Fail;

// How many entries the session has.
const ENTRY_COUNT: usize = 23;

// And how many replies.
const REPLY_COUNT: usize = 41;

// The first of these rows, and a front of the next one where it is torn.
fn front(alloc: Global, rows: &[&[u8]], count: usize, is_torn: bool) -> Result<Vec<u8>, Fail> {
    let mut text = Vec::new(alloc);
    for (at, row) in rows.iter().enumerate() {
        if at < count {
            push_row(&mut text, row)?;
        } else if at == count && is_torn {
            text.extend_from_slice(row)?;
        }
    }
    Ok(text)
}

// Whether a session is told as it has to be of whose replies one station got so many: it is explained where it was cut
// short, and else its next line has no reply.
fn fewer_told(
    alloc: Global,
    journal: &[u8],
    station: usize,
    replies: &[&[u8]],
    count: usize,
) -> Result<bool, Fail> {
    let missing = replies.len().saturating_sub(count);
    let replies_left = REPLY_COUNT.saturating_sub(missing);
    let legal = format!(in alloc; "legal {ENTRY_COUNT} {replies_left}")?;
    let next = count.saturating_add(1);
    let alone = format!(in alloc; "A4 {station} {next}")?;
    for is_torn in [false, true] {
        let got = front(alloc, replies, count, is_torn)?;
        for is_cut in [false, true] {
            let record = Record {
                got: &got,
                is_cut,
                ..recorded_of(station)
            };
            let told = if is_cut || missing == 0 {
                &legal
            } else {
                &alone
            };
            if !session_says(alloc, journal, station, &record, told)? {
                return Ok(false);
            }
        }
    }
    Ok(true)
}

// Whether so many lines and replies of a station, and no more, are told as a row of the table says.
fn cut_told(
    alloc: Global,
    journal: &[u8],
    station: usize,
    count: usize,
    told: &str,
) -> Result<bool, Fail> {
    let lines = rows_of(alloc, LINES.get(station).unwrap_or(&""))?;
    let replies = rows_of(alloc, REPLIES.get(station).unwrap_or(&""))?;
    let sent = front(alloc, &lines, count, false)?;
    let got = front(alloc, &replies, count, false)?;
    let record = Record {
        sent: &sent,
        got: &got,
        is_cut: true,
    };
    session_says(alloc, journal, station, &record, told)
}

#[test]
fn a_cut_session_is_explained_as_far_as_it_went(rt: HostRuntime) -> Result<(), Fail> {
    let alloc = rt.alloc();
    let journal = journal(alloc)?;
    for (station, replies) in REPLIES.iter().enumerate() {
        let rows = rows_of(alloc, replies)?;
        for count in 0..=rows.len() {
            assert!(rt;
                fewer_told(alloc, &journal, station, &rows, count)?,
                "{station} after {count}"
            );
        }
    }
    Ok(())
}

#[test]
fn entries_of_a_cut_session_are_those_that_its_lines_ask_for(rt: HostRuntime) -> Result<(), Fail> {
    let alloc = rt.alloc();
    let journal = journal(alloc)?;
    for (station, table) in CUTS.iter().enumerate() {
        let mut count = 0usize;
        for told in table.lines() {
            assert!(rt;
                cut_told(alloc, &journal, station, count, told)?,
                "{station} after {count}"
            );
            count = count.saturating_add(1);
        }
    }
    Ok(())
}

// A journal of one entry, which line 2 of station 0 asks for.
const JOURNAL: &[u8] = b"journal 1\n0 2 slice 2 1\n";

// What a station sent and got in a room of this journal, whether its session was cut short, and what comes of it.
const SESSIONS: [(&[u8], &[u8], bool, &str); 16] = [
    (b"point\nslice 2 1", b"point 0\nok 0\n", true, "legal 1 2"),
    (b"point\nslice 2 1", b"point 1\n", true, "legal 1 1"),
    (b"point\nslice 2 1", b"point 0\n", true, "legal 1 1"),
    (b"point\nslice 2 1\nslice 2 1\n", b"", true, "legal 1 0"),
    (b"point\nslice 2 01\npoint\n", b"", true, "legal 1 0"),
    (b"point\nslice 2 2", b"point 0\n", true, "A5 0 2"),
    (b"point\npoint\nslice 2 1", b"point 0\n", true, "A5 0 2"),
    (b"point\n", b"point 0\n", true, "A5 0 2"),
    (b"", b"", true, "A5 0 2"),
    (b"", b"", false, "A5 0 2"),
    (b"point\nslice 2 1", b"point 0\nok 0", true, "legal 1 1"),
    (b"point\nslice 2 1", b"point 0\nok 0", false, "A4 0 2"),
    (
        b"point\nslice 2 1",
        b"point 0\nok 0\nok 1\n",
        true,
        "A4 0 3",
    ),
    (
        b"point\nslice 2 1",
        b"point 0\nok 0\nok 1\n",
        false,
        "A4 0 3",
    ),
    (b"point\nslice 2 1", b"point 2\n", true, "A1 0 1"),
    (b"point\nslice 2 1", b"", false, "A4 0 1"),
];

#[test]
fn a_session_may_leave_an_entry_that_a_later_line_asks_for(rt: HostRuntime) -> Result<(), Fail> {
    let alloc = rt.alloc();
    for (sent, got, is_cut, told) in SESSIONS {
        let record = Record { sent, got, is_cut };
        assert!(rt;
            says_so(alloc, &with_journal(JOURNAL), &[record], told)?,
            "{told}"
        );
    }
    Ok(())
}
