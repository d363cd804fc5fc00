// Four stations that cut four tracks at once, some hundreds of lines each, and a fifth that looks at the end.
use crate::documents::document_of;
use crate::replays::replayed_document;
use crate::stations::{Served, Serving, serve};
use crate::turns::{Hold, Until};
use call_text::{read_journal, sight_text};
use composables::{Listed, Track};
use cut_room::Sight;
use cut_steps::CutObject;
use edit_apply::Seen;
use room_files::MemFiles;
use std::alloc::Global;
use std::sync::Wait;
use std::test::Fail;
use std::thread::Threads;
use test_runs::ended_over;

/// How often each station sends its lines, with the number of the round in the place of each `%`: so `%3` is an item that
/// the opening has, and `%35` a place in it.
const ROUNDS: u32 = 16;

/// More than the places of all lines.
const PLACES: u32 = 5_000;

const FIRST: &str = "\
link 0,1,2,3 170,170,170,170
overwrite 0 %04 @0 7 3
link 0,1 %1,%1
slip 0,1 0 %1 2
items 0
insert 0,1,2,3 0 %25 @0 9 12
trim 0 %3 tail -2
view 1 %00 %50
slice 0 %45
dissolve 0 %60 1 2
roll 0 %50 1
extract 0,1,2,3 0 %8
insert 0 0 %90 @0 9 4
ripple 0,1,2,3 0 %5 tail -1
unlink 0 %1
overwrite 4 0 @0 0 1
jump
point
";

const SECOND: &str = "\
link 0,1,2,3 170,170,170,170
link 1,2 %2,%2
slip 1 1 %2 1
slip 1,2 1 %2 -1
overwrite 1 %40 @0 140 5
dissolve 1 %50 2 2
view 2 %20 %60
remove 1 %6
fill 1 %65 @0 300 sequence
undissolve 1 %50
slide 1 1 %3 1
items 1
trim 2 %7 head 3
unlink 2 %2
view 1 5 99999
items 7
overwrite 1 0 @9 0 1
point
";

const THIRD: &str = "\
link 0,1,2,3 170,170,170,170
link 2,3 %4,%4
slide 2 2 %4 1
extract 0,1,2,3 2 %5
ripple 0,1,2,3 2 %6 tail 1
ripple 2 2 %7 head 1
overwrite 3 %30 @0 130 4
remove 3 %9
fill 3 %95 @0 90 source 2
items 3
slice 3 %15
trim 3 %1 tail -4
roll 3 %20 2
overwrite 3 0 @0 86399 2
point
";

const FOURTH: &str = "\
link 0,1,2,3 170,170,170,170
link 0,3 %6,%6
slip 0,3 3 %6 3
insert 0,1,2,3 3 %70 @0 50 8
insert 0,3 3 %75 @0 50 2
view 0 %00 %90
dissolve 3 %10 1 1
trim 3 %3 head -2
slide 3 3 %8 1
unlink 0 %6
slice 0 %77
fill 0 %22 @0 700 sequence
items 2
overwrite 0 %95 @0 195 3
link 0,3 %0
point
";

/// What the fifth sends once the others have left.
const LAST: &str = "items 0\nitems 1\nitems 2\nitems 3\n";

// A text as often as each station sends it.
fn rounds_of(alloc: Global, text: &str) -> Result<String, Fail> {
    let mut all = String::new(alloc);
    for round in 1..=ROUNDS {
        let number = format!(in alloc; "{round}")?;
        let mut pieces = text.split('%');
        all.push_str(pieces.next().ok_or("a text")?)?;
        for piece in pieces {
            all.push_str(number.as_str())?;
            all.push_str(piece)?;
        }
    }
    Ok(all)
}

// A line of a station with its reply, and the place of both among all.
#[derive(Clone, Copy)]
struct Row<'a> {
    place: u32,
    station: u32,
    number: u32,
    line: &'a str,
    reply: &'a str,
}

// After how many entries a reply stands, twice, and one more where the edit itself is the next; a bad line has no
// place.
fn place_of(reply: &str) -> Option<u32> {
    let mut words = reply.split(' ');
    let first = words.next()?;
    if first == "bad" {
        return Some(0);
    }
    let point = words.next()?.parse::<u32>().ok()?;
    let twice = point.saturating_mul(2);
    Some(if first == "ok" {
        twice.saturating_add(1)
    } else {
        twice
    })
}

// Adds the rows of a station, with a reply for each line.
fn add_rows<'a>(
    rows: &mut Vec<Row<'a>>,
    station: u32,
    sent: &'a str,
    taken: &'a str,
) -> Result<(), Fail> {
    let mut replies = taken.lines();
    let mut number = 0u32;
    for line in sent.lines() {
        let reply = replies.next().ok_or("a reply to each line")?;
        number = number.saturating_add(1);
        rows.push(Row {
            place: place_of(reply).ok_or("a reply with its point")?,
            station,
            number,
            line,
            reply,
        })?;
    }
    match replies.next() {
        Some(_) => Err("a reply without a line")?,
        None => Ok(()),
    }
}

// Lines in the order of their places, what they were answered, and the journal that they come to.
#[derive(Drop)]
struct Serial {
    sent: String,
    replies: String,
    entries: String,
    count: u32,
}

// Adds a line and its reply in serial order, and its entry where it was committed.
fn put_row(alloc: Global, serial: &mut Serial, row: &Row<'_>) -> Result<(), Fail> {
    serial.sent.push_str(row.line)?;
    serial.sent.push('\n')?;
    serial.replies.push_str(row.reply)?;
    serial.replies.push('\n')?;
    if row.place % 2 == 1 {
        let entry = format!(in alloc; "{} {} {}\n", row.station, row.number, row.line)?;
        serial.entries.push_str(entry.as_str())?;
        serial.count = serial.count.saturating_add(1);
    }
    Ok(())
}

// All lines of the stations in the serial order that their replies tell.
fn serial_of(alloc: Global, rows: &[Row<'_>]) -> Result<Serial, Fail> {
    let mut serial = Serial {
        sent: String::new(alloc),
        replies: String::new(alloc),
        entries: String::new(alloc),
        count: 0,
    };
    for place in 0..PLACES {
        for row in rows {
            if row.place == place {
                put_row(alloc, &mut serial, row)?;
            }
        }
    }
    Ok(serial)
}

// What `items` is answered of a track after so many entries.
fn items_text(alloc: Global, track: &Track, point: u32) -> Result<String, Fail> {
    let items = Listed::from_vec(track.items(alloc).ok().ok_or("items")?);
    let sight: Sight<CutObject> = Sight::Seen {
        point,
        seen: Seen::Items(items),
    };
    let text = sight_text(alloc, &sight).ok().ok_or("a text")?;
    Ok(String::from_utf8_lossy(alloc, &text)?)
}

// What `items` is answered of each track after all entries of a journal's text, by replay from the document.
fn last_sights(alloc: Global, document: &[u8], journal: &[u8]) -> Result<String, Fail> {
    let entries = if journal.len() < 1_000_000 {
        read_journal(alloc, journal).ok()
    } else {
        None
    };
    let entries = entries.ok_or("a journal")?;
    let count = u32::try_from(entries.len()).ok().ok_or("a count")?;
    let tracks = replayed_document(alloc, document, &entries).ok_or("tracks")?;
    let mut text = String::new(alloc);
    for track in &tracks {
        let items = items_text(alloc, track, count)?;
        text.push_str(items.as_str())?;
        text.push('\n')?;
    }
    Ok(text)
}

// Serves the stations, of which the fifth reads its first line when the others have left.
fn served_together<R: Threads + Wait + Sync>(
    rt: &R,
    alloc: Global,
    sent: &[&str],
) -> Result<Served, Fail> {
    let looks = Hold {
        station: 4,
        until: Until::Left(4),
    };
    let serving = Serving {
        tracks: 4,
        clips: 180,
        sent,
        reads: &[],
        writes: &[],
        calls: &[],
        files: &[],
        held: &[looks],
        at_gate: &[],
    };
    serve(rt, alloc, &serving)
}

// All rows in the order of their places.
fn serial_of_all(alloc: Global, sent: &[&str], taken: &[String]) -> Result<Serial, Fail> {
    let mut rows = Vec::new(alloc);
    let mut station = 0u32;
    for (sent, taken) in sent.iter().zip(taken) {
        add_rows(&mut rows, station, sent, taken.as_str())?;
        station = station.saturating_add(1);
    }
    serial_of(alloc, &rows)
}

// Whether one station that sends all of it is answered so.
fn is_answered_alone<R: Threads + Wait + Sync>(
    rt: &R,
    alloc: Global,
    document: &[u8],
    serial: &Serial,
) -> Result<bool, Fail> {
    let mut files = MemFiles::new(alloc, Vec::new(alloc));
    files.put("cut", document)?;
    let pieces = [serial.sent.as_bytes()];
    let (status, output) = ended_over(rt, alloc, "run cut 24 ndf", &mut files, &pieces, &[], &[])?;
    Ok(status == 0 && output.as_slice().starts_with(serial.replies.as_bytes()))
}

// What all stations were answered is what one station is answered that sends all of it in the order of the journal; and
// the journal's text, read back and replayed, comes to the tracks that were seen last.
#[test]
fn four_stations_are_answered_as_one(rt: HostRuntime) -> Result<(), Fail> {
    let alloc = rt.alloc();
    let first = rounds_of(alloc, FIRST)?;
    let second = rounds_of(alloc, SECOND)?;
    let third = rounds_of(alloc, THIRD)?;
    let fourth = rounds_of(alloc, FOURTH)?;
    let sent = [
        first.as_str(),
        second.as_str(),
        third.as_str(),
        fourth.as_str(),
        LAST,
    ];
    let served = served_together(&rt, alloc, &sent)?;
    assert_eq!(rt; served.status, 0);
    assert!(rt; !served.gave_up);
    let serial = serial_of_all(alloc, &sent, &served.taken)?;
    assert!(rt; serial.count > 300, "{} entries", serial.count);
    let journal = served.journal.ok_or("a journal")?;
    let wanted = format!(in alloc; "journal {}\n{}", serial.count, serial.entries)?;
    assert!(rt; journal.as_slice() == wanted.as_bytes());
    let document = document_of(alloc, 4, 180)?;
    assert!(rt; is_answered_alone(&rt, alloc, &document, &serial)?);
    let last = served.taken.last().ok_or("the fifth station")?;
    let sights = last_sights(alloc, &document, &journal)?;
    assert_eq!(rt; sights.as_str(), last.as_str());
    Ok(())
}
