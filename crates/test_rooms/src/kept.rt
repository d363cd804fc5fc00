// Cuts of a room of counters at points of a long history, each asked again where cuts are kept by then.
ghost use Rattle.std.specs.Prelude.{◌≡◌, ◌<◌, IfOk};
ghost use Rattle.room_core.specs.Totals.{CanOpen};

use cut_room::{Answer, Room, RoomBlank};
use edit_journal::{Naming, Pass};
use history_points::replay;
use room_core::{Entry, Memory};
use room_ports::OpenGate;
use std::alloc::Global;
use std::marker::Brand;
use std::sync::Wait;
use std::sync::ledger::{Blank, Ledger};
use std::test::Fail;
use step_count::Steps;
use test_counters::Counters;

// How many edits there are.
const EDITS: u32 = 20_000;

// The points in the order in which cuts are asked for: at and beside those where cuts are kept, and each again.
const POINTS: [u32; 12] = [
    16_384, 16_383, 20_000, 16_384, 16_383, 20_000, 8_191, 8_193, 8_192, 0, 1, 12_000,
];

// The edit at a place.
fn call_at(place: u32) -> (u32, u32) {
    (1 + place % 2, 1 + place % 3)
}

// Three counters at 0.
fn zeros(alloc: Global) -> Result<Vec<u32>, Memory>
    ensures { IfOk result (λ parts. CanOpen 3 1000000 parts.items) }
{
    let mut parts = Vec::new(alloc);
    parts.push(0)?;
    parts.push(0)?;
    parts.push(0)?;
    Ok(parts)
}

// A room of these counters, for one station.
fn blank_of(alloc: Global) -> Result<RoomBlank<Counters>, Memory> {
    let object = Counters {
        count: 3,
        most: 1_000_000,
    };
    let parts = zeros(alloc)?;
    RoomBlank::new(alloc, object, parts, 1)
}

// The counters after the first entries, done one after another.
fn plain(alloc: Global, entries: &[Entry<(u32, u32)>], n: u32) -> Result<Vec<u32>, Memory> {
    let object = Counters {
        count: 3,
        most: 1_000_000,
    };
    let opening = zeros(alloc)?;
    if n as usize > entries.len() || n > 100_000 {
        return Err(Memory);
    }
    match replay(alloc, &object, &opening, entries, n) {
        Ok(parts) => Ok(parts),
        Err(_) => Err(Memory),
    }
}

// The edits as entries, for a plain replay.
fn entries_of(alloc: Global) -> Result<Vec<Entry<(u32, u32)>>, Memory> {
    let mut entries = Vec::new(alloc);
    for place in 0..EDITS {
        entries.push(Entry {
            station: 0,
            number: 1,
            call: call_at(place),
        })?;
    }
    Ok(entries)
}

// Does the edit at a place, and says whether it stands there.
fn edited<J: Naming<Counters, u32>, R: Wait, L: Ledger>(
    rt: &R,
    alloc: Global,
    room: &Room<Counters, J>,
    pass: Pass<Counters, J>,
    place: u32,
    steps: &mut Steps<L>,
) -> (Pass<Counters, J>, bool) {
    let last = pass.last();
    if last == u32::MAX {
        return (pass, false);
    }
    let call = call_at(place);
    let (pass, answer) = room.edit(rt, alloc, pass, last + 1, call, &OpenGate, steps);
    match answer {
        Answer::Done { point, .. } => (pass, point == place),
        _ => (pass, false),
    }
}

// The cuts at the points, one after another.
fn cuts_at<J: Naming<Counters, u32>, R: Wait>(
    rt: &R,
    alloc: Global,
    room: &Room<Counters, J>,
    pass: Pass<Counters, J>,
) -> Option<Vec<Vec<u32>>> {
    let mut pass = pass;
    let mut cuts = Vec::new(alloc);
    for n in POINTS {
        let (back, cut) = room.cut_at(rt, alloc, pass, n);
        pass = back;
        cuts.push(cut.ok()?).ok()?;
    }
    Some(cuts)
}

// The cuts of a room at the points, once all edits are done; `None` where one of these does not stand at its place.
fn asked<J: Naming<Counters, u32>, R: Wait, L: Ledger>(
    rt: &R,
    alloc: Global,
    blank: RoomBlank<Counters>,
    ledger: Blank,
) -> Option<Vec<Vec<u32>>>
    requires table { J.table ≡ blank.journal.table }
    requires opening { J.opening ≡ blank.journal.opening }
    requires stations { J.stations ≡ blank.journal.stations }
    requires ledger { (ledger.name ≡ L.name) × (ledger.parts ≡ L.parts) × (0 < ledger.parts) }
{
    let mut steps = Steps::<L>::new(ledger);
    let (room, mut passes) = Room::<Counters, J>::open(alloc, blank).ok()?;
    let mut pass = passes.pop()?;
    let mut done = true;
    for place in 0..EDITS {
        let (back, stands) = edited(rt, alloc, &room, pass, place, &mut steps);
        pass = back;
        done = done && stands;
    }
    if !done {
        return None;
    }
    cuts_at(rt, alloc, &room, pass)
}

// What `asked` gives, where the call picks the journal's name and the ledger.
fn asked_once<R: Wait>(rt: &R, alloc: Global, blank: RoomBlank<Counters>) -> Option<Vec<Vec<u32>>> {
    asked::<Brand, R, Brand>(rt, alloc, blank, Blank::new(1))
}

#[test]
fn cuts_are_those_of_a_plain_replay(rt: HostRuntime) -> Result<(), Fail> {
    let alloc = rt.alloc();
    let blank = blank_of(alloc).ok().ok_or("a blank")?;
    let cuts = asked_once(&rt, alloc, blank).ok_or("cuts")?;
    let entries = entries_of(alloc).ok().ok_or("entries")?;
    assert!(rt; cuts.len() == POINTS.len());
    for (n, cut) in POINTS.into_iter().zip(&cuts) {
        let plain = plain(alloc, &entries, n).ok().ok_or("a replay")?;
        assert!(rt; *cut == plain, "after {n}");
    }
    Ok(())
}
