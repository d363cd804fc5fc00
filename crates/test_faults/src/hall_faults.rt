// Each call of the hall, of the files and of each station's line fails in its turn, where four stations are served.
use room_files::{Files, MemFiles};
use room_halls::{Hall, MemHall};
use room_ports::{MemLine, MemSink, MemSource, OpenGate};
use std::alloc::Global;
use std::sync::Wait;
use std::test::Fail;
use std::thread::Threads;
use test_cut::IMPORTED;
use test_runs::served_over;

/// The numbers of the calls of the hall and of files that fail, and of the reads and writes of one station's line; 0 is
/// none.
#[derive(Clone, Copy)]
struct Failing {
    hall: u32,
    file: u32,
    station: u32,
    read: u32,
    write: u32,
}

const NONE: Failing = Failing {
    hall: 0,
    file: 0,
    station: 0,
    read: 0,
    write: 0,
};

/// What each station sends, a line a read: edits that apply in any order.
const SENT: [&str; 4] = [
    "slice 0 5\nslice 1 5\nslice 2 50\n",
    "slice 0 6\nslice 1 6\nslice 2 51\n",
    "slice 0 7\nslice 1 7\nslice 2 52\n",
    "slice 0 8\nslice 1 8\nslice 2 53\n",
];

/// What comes of it: the status, how many edits each station was answered `ok`, and how many entries it has in the
/// journal, where there is one.
#[derive(Drop)]
struct Served {
    status: u8,
    answered: Vec<u32>,
    entries: Option<Vec<u32>>,
}

// A call that fails, in a list.
fn only(alloc: Global, call: u32) -> Result<Vec<u32>, Fail> {
    let mut calls = Vec::new(alloc);
    calls.push(call)?;
    Ok(calls)
}

// The line of a station that sends this, whose calls may fail.
fn line_of(alloc: Global, sent: &str, read: u32, write: u32) -> Result<MemLine, Fail> {
    let mut pieces = Vec::new(alloc);
    for line in sent.split_inclusive('\n') {
        pieces.push(line.as_bytes().to_vec(alloc)?)?;
    }
    Ok(MemLine {
        input: MemSource::new(pieces, only(alloc, read)?),
        output: MemSink::new(alloc, only(alloc, write)?),
    })
}

// The hall of stations that send this.
fn hall_of(alloc: Global, sent: &[&str], failing: Failing) -> Result<MemHall, Fail> {
    let mut lines = Vec::new(alloc);
    let mut station = 0u32;
    for text in sent {
        let line = match station == failing.station {
            true => line_of(alloc, text, failing.read, failing.write)?,
            false => line_of(alloc, text, 0, 0)?,
        };
        lines.push(line)?;
        station = station.saturating_add(1);
    }
    Ok(MemHall::new(alloc, lines, only(alloc, failing.hall)?))
}

// How many lines of a text begin so.
fn count_of(text: &str, front: &str) -> u32 {
    let mut count = 0u32;
    for line in text.lines() {
        if line.starts_with(front) {
            count = count.saturating_add(1);
        }
    }
    count
}

// How many edits the stations of this hall were answered `ok`, one after another.
fn answered(alloc: Global, hall: &mut MemHall, stations: u32) -> Result<Vec<u32>, Fail> {
    let mut counts = Vec::new(alloc);
    for station in 0..stations {
        match hall.seat_station(alloc, station) {
            Ok(line) => {
                let bytes = line.output.bytes().ok_or("told")?;
                let text = String::from_utf8_lossy(alloc, bytes)?;
                counts.push(count_of(text.as_str(), "ok "))?;
            }
            Err(_) => {}
        }
    }
    Ok(counts)
}

// How many entries the stations have in a journal.
fn entries(alloc: Global, journal: &[u8]) -> Result<Vec<u32>, Fail> {
    let text = String::from_utf8_lossy(alloc, journal)?;
    let mut counts = Vec::new(alloc);
    for station in ["0 ", "1 ", "2 ", "3 "] {
        counts.push(count_of(text.as_str(), station))?;
    }
    Ok(counts)
}

// Four stations are served in the room of this document.
fn serve_four<R: Threads + Wait + Sync>(
    rt: &R,
    alloc: Global,
    cut: &str,
    sent: &[&str],
    failing: Failing,
) -> Result<Served, Fail> {
    let mut files = MemFiles::new(alloc, only(alloc, failing.file)?);
    files.put("cut", cut.as_bytes())?;
    let mut hall = hall_of(alloc, sent, failing)?;
    let words = "serve cut 24 ndf 4 hall out.journal";
    let status = served_over(rt, alloc, words, &mut files, &mut hall, &OpenGate)?;
    let entries = match files.read_file(alloc, "out.journal", 1_000_000) {
        Ok(journal) => Some(entries(alloc, &journal)?),
        Err(_) => None,
    };
    Ok(Served {
        status,
        answered: answered(alloc, &mut hall, 4)?,
        entries,
    })
}

// Whether they end with this status, where each station has so many `ok` and no journal is kept.
fn keeps_none(served: &Served, status: u8, ok: u32) -> bool {
    served.status == status
        && served.entries.is_none()
        && served.answered.as_slice() == [ok; 4].as_slice()
}

// Whether serving ended with this status, so many edits of one station are answered and so many in the journal, and all
// those of the others.
fn keeps_all_but(served: &Served, status: u8, station: u32, ok: u32, kept: u32) -> bool {
    let mut all = served.status == status;
    let mut other = 0u32;
    for count in &served.answered {
        all = all && *count == if other == station { ok } else { 3 };
        other = other.saturating_add(1);
    }
    let mut other = 0u32;
    if let Some(entries) = &served.entries {
        for count in entries {
            all = all && *count == if other == station { kept } else { 3 };
            other = other.saturating_add(1);
        }
    }
    all && other == 4 && served.answered.len() == 4
}

// The hall opens and seats four stations; the document is read and the journal written.
#[test]
fn each_call_of_a_hall_of_four_may_fail(rt: HostRuntime) -> Result<(), Fail> {
    let alloc = rt.alloc();
    for hall in 1..=5u32 {
        let served = serve_four(&rt, alloc, IMPORTED, &SENT, Failing { hall, ..NONE })?;
        assert!(rt; keeps_none(&served, 5, 0), "call {hall}");
    }
    for (file, status, ok) in [(1u32, 1u8, 0u32), (2, 2, 3)] {
        let served = serve_four(&rt, alloc, IMPORTED, &SENT, Failing { file, ..NONE })?;
        assert!(rt; keeps_none(&served, status, ok), "file {file}");
    }
    let served = serve_four(&rt, alloc, IMPORTED, &SENT, NONE)?;
    assert!(rt; keeps_all_but(&served, 0, 0, 3, 3));
    Ok(())
}

// A station whose line fails ends no other. An edit whose reply could not be written is in the journal.
#[test]
fn each_call_of_a_line_of_four_may_fail(rt: HostRuntime) -> Result<(), Fail> {
    let alloc = rt.alloc();
    for station in 0..4u32 {
        for read in 1..=4u32 {
            let failing = Failing {
                station,
                read,
                ..NONE
            };
            let served = serve_four(&rt, alloc, IMPORTED, &SENT, failing)?;
            let ok = read.saturating_sub(1);
            assert!(rt;
                keeps_all_but(&served, 1, station, ok, ok),
                "{station}, read {read}"
            );
        }
        for write in 1..=3u32 {
            let failing = Failing {
                station,
                write,
                ..NONE
            };
            let served = serve_four(&rt, alloc, IMPORTED, &SENT, failing)?;
            let ok = write.saturating_sub(1);
            assert!(rt;
                keeps_all_but(&served, 2, station, ok, write),
                "{station}, write {write}"
            );
        }
    }
    Ok(())
}

// A line without its line feed is answered, and one that was read before its line failed.
#[test]
fn a_line_that_ends_is_answered(rt: HostRuntime) -> Result<(), Fail> {
    let alloc = rt.alloc();
    let table = [
        (0u32, 0u8, "slice 0 10"),
        (2, 1, "slice 0 10\n"),
        (2, 1, "slice 0 10\nslice 0 11"),
    ];
    for (read, status, first) in table {
        let sent = [first, "slice 1 10\n", "", ""];
        let served = serve_four(&rt, alloc, IMPORTED, &sent, Failing { read, ..NONE })?;
        assert_eq!(rt; served.status, status, "{first}");
        assert_eq!(rt;
            served.answered.as_slice(),
            [1u32, 1, 0, 0].as_slice(),
            "{first}"
        );
        let entries = served.entries.ok_or("a journal")?;
        assert_eq!(rt; entries.as_slice(), [1u32, 1, 0, 0].as_slice(), "{first}");
    }
    Ok(())
}
