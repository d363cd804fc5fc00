// Sessions that a journal explains, and where others stop.
ghost use Rattle.std.specs.Prelude.{◌≡◌, ◌≤◌, Some, IsSomeAnd, true, slice_get};
ghost use Rattle.recorded_sessions.specs.Sessions.{AreOwn, IsAt};
ghost use Rattle.recorded_sessions.specs.Telling.{AreKnown};
ghost use Rattle.test_recorded.specs.Knowing.{IsExplained, IsOwn};

use recorded_sessions::{Explains, Heard, Memory, Stop, Told, audit_session};
use room_core::Entry;
use std::alloc::Global;

// What replies tell, as what explains them; and from which place on entries are left.
#[derive(Clone, Copy)]
struct Known<'a> {
    tells: &'a [Told],
    left: usize,
}

impl<'a> Explains for Known<'a> {
    ghost explains = { λ known number told after points.
        IsExplained known.tells.now number told after points };

    ghost left = { λ known place. known.left ≤ place };

    fn is_left(&self, place: usize) -> Result<bool, Memory> {
        Ok(self.left <= place)
    }
}

// Whether a reply tells of no own entry, or of one that is the station's.
fn is_own(entries: &[Entry<u32>], station: u32, tell: Told) -> bool
    ensures { result ≡ true → IsOwn entries.now station tell }
{
    match tell {
        Told::Own(point) => match entries.get(point as usize) {
            Some(entry) => entry.station == station,
            None => false,
        },
        _ => true,
    }
}

// The same of all.
fn are_own(entries: &[Entry<u32>], station: u32, tells: &[Told]) -> bool
    ensures { result ≡ true → AreOwn entries.now station tells.now }
{
    for tell in tells {
        if !is_own(entries, station, *tell) {
            return false;
        }
    }
    true
}

// The audit of a session; `None` where the replies tell of entries that are another station's, or are not as many as
// pairs.
fn audited(
    alloc: Global,
    known: &Known<'_>,
    entries: &[Entry<u32>],
    heard: &Heard,
) -> Option<Result<(), Stop>> {
    if known.tells.len() != heard.lines.min(heard.replies) {
        return None;
    }
    if !are_own(entries, heard.station, known.tells) {
        return None;
    }
    Some(audit_session(alloc, known, known.tells, entries, heard))
}

// A journal whose entries are of these stations.
fn journal(alloc: Global, stations: &[u32]) -> Result<Vec<Entry<u32>>, Memory> {
    let mut entries = Vec::new(alloc);
    for station in stations {
        entries.push(Entry {
            station: *station,
            number: 1,
            call: 0,
        })?;
    }
    Ok(entries)
}

// Entries 0, 2 and 3 are station 0's.
const STATIONS: [u32; 5] = [0, 1, 0, 0, 1];

// What the replies of station 0 tell, how many lines and replies there are, from where on entries are left (where its
// session was cut short), and how its audit ends.
type Row = (
    &'static [Told],
    usize,
    usize,
    Option<usize>,
    Result<(), Stop>,
);

use Told::{Least, Nothing, Own, Point, Same};

const ROWS: [Row; 15] = [
    (&[Own(0), Own(2), Own(3)], 3, 3, None, Ok(())),
    (
        &[Own(0), Point(1), Own(2), Same, Least(1), Own(3)],
        6,
        6,
        None,
        Ok(()),
    ),
    (
        &[Own(0), Own(2), Own(3), Point(5), Least(9), Point(9)],
        6,
        6,
        None,
        Ok(()),
    ),
    (&[Own(0), Own(3)], 2, 2, None, Err(Stop::Untold(2))),
    (&[Own(0), Own(2)], 2, 2, None, Err(Stop::Untold(3))),
    (&[], 0, 0, None, Err(Stop::Untold(0))),
    (
        &[Own(0), Point(0)],
        2,
        2,
        None,
        Err(Stop::Reply { number: 2, told: 1 }),
    ),
    (
        &[Own(0), Nothing],
        2,
        2,
        None,
        Err(Stop::Reply { number: 2, told: 1 }),
    ),
    (
        &[Own(2), Own(0)],
        2,
        2,
        None,
        Err(Stop::Reply { number: 2, told: 3 }),
    ),
    (
        &[Own(0), Own(2), Least(1), Point(2)],
        4,
        4,
        None,
        Err(Stop::Reply { number: 4, told: 3 }),
    ),
    (
        &[Own(0), Own(2), Own(3)],
        4,
        3,
        None,
        Err(Stop::Unpaired(4)),
    ),
    (
        &[Own(0), Own(2), Own(3)],
        3,
        4,
        Some(0),
        Err(Stop::Unpaired(4)),
    ),
    (&[Own(0), Own(2)], 3, 2, Some(3), Ok(())),
    (&[Own(0)], 3, 1, Some(3), Err(Stop::Untold(2))),
    (&[Own(0), Own(3)], 3, 2, Some(0), Err(Stop::Untold(2))),
];

fn ends_so(alloc: Global, row: &Row) -> Result<bool, Memory> {
    let (tells, lines, replies, left, ends) = *row;
    let heard = Heard {
        station: 0,
        lines,
        replies,
        is_cut: left.is_some(),
    };
    let known = Known {
        tells,
        left: left.unwrap_or(0),
    };
    let entries = journal(alloc, &STATIONS)?;
    Ok(audited(alloc, &known, &entries, &heard) == Some(ends))
}

#[test]
fn sessions_end_where_they_are_not_explained(rt: HostRuntime) {
    let alloc = rt.alloc();
    for row in ROWS {
        assert_eq!(rt; ends_so(alloc, &row), Ok(true), "{:?}", row.0);
    }
}
