// How many calls a cut takes: those after the nearest cut that is kept, which are none at a kept point and none where the
// cut is the room as it stands.
ghost use Rattle.std.specs.Prelude.{◌≡◌, ◌<◌};

use cut_room::{KEPT_EVERY, Room, RoomBlank};
use edit_journal::{Naming, Pass};
use room_ports::OpenGate;
use std::alloc::Global;
use std::marker::Brand;
use std::sync::atomic::{AtomicU32, Ordering};
use std::sync::ledger::{Blank, Ledger};
use std::sync::{Arc, Wait};
use std::test::Fail;
use step_count::Steps;
use test_counters::{Watch, Watched};

// How many edits there are.
const EDITS: u32 = 20_000;

// A point, and how many calls the cut there takes where none was kept before the first.
const CUTS: [(u32, u32); 8] = [
    (20_000, 0),
    (16_384, 16_384),
    (16_384, 0),
    (16_385, 1),
    (8_192, 0),
    (8_191, 1_023),
    (1, 1),
    (0, 0),
];

// The same where cuts were kept as the journal grew.
const LATER_CUTS: [(u32, u32); 8] = [
    (20_000, 0),
    (19_999, 31),
    (16_384, 256),
    (16_385, 1),
    (8_192, 0),
    (8_191, 1_023),
    (10_000, 784),
    (10_000, 0),
];

// Counts the calls that are done.
#[derive(Drop)]
struct Tally {
    done: Arc<AtomicU32, Global>,
}

impl Watch for Tally {
    // Counts one call more.
    fn sees(&self, _call: u32) {
        let _ = self.done.fetch_add(1, Ordering::SeqCst);
    }
}

// Edits so often. A cut is kept each so many edits.
fn edited<J: Naming<Watched<Tally>, u32>, R: Wait, L: Ledger>(
    rt: &R,
    alloc: Global,
    room: &Room<Watched<Tally>, J>,
    pass: Pass<Watched<Tally>, J>,
    every: u32,
    steps: &mut Steps<L>,
) -> Option<Pass<Watched<Tally>, J>>
    requires every { 0 < every }
{
    let mut pass = pass;
    for number in 1..=EDITS {
        let last = pass.last();
        if last >= number {
            return None;
        }
        let (next, _) = room.edit(rt, alloc, pass, number, 7, &OpenGate, steps);
        pass = next;
        if number % every == 0 {
            pass = room.keep_cut(rt, alloc, pass);
        }
    }
    Some(pass)
}

// How many calls each of the cuts takes, one after another.
fn counted<J: Naming<Watched<Tally>, u32>, R: Wait>(
    rt: &R,
    alloc: Global,
    room: &Room<Watched<Tally>, J>,
    pass: Pass<Watched<Tally>, J>,
    cuts: [(u32, u32); 8],
    done: &AtomicU32,
) -> Option<Vec<u32>> {
    let mut pass = pass;
    let mut counts = Vec::new(alloc);
    for (point, _) in cuts {
        let before = done.load(Ordering::SeqCst);
        let (next, _) = room.cut_at(rt, alloc, pass, point);
        pass = next;
        let after = done.load(Ordering::SeqCst);
        counts.push(after.saturating_sub(before)).ok()?;
    }
    Some(counts)
}

// The counts of a room where a cut was kept each so many edits.
fn room_counted<J: Naming<Watched<Tally>, u32>, R: Wait, L: Ledger>(
    rt: &R,
    alloc: Global,
    blank: RoomBlank<Watched<Tally>>,
    ledger: Blank,
    every: u32,
    cuts: [(u32, u32); 8],
    done: &AtomicU32,
) -> Option<Vec<u32>>
    requires table { J.table ≡ blank.journal.table }
    requires opening { J.opening ≡ blank.journal.opening }
    requires stations { J.stations ≡ blank.journal.stations }
    requires ledger { (ledger.name ≡ L.name) × (ledger.parts ≡ L.parts) × (0 < ledger.parts) }
    requires every { 0 < every }
{
    let mut steps = Steps::<L>::new(ledger);
    let (room, mut passes) = Room::<Watched<Tally>, J>::open(alloc, blank).ok()?;
    let pass = passes.pop()?;
    let pass = edited(rt, alloc, &room, pass, every, &mut steps)?;
    if done.load(Ordering::SeqCst) != EDITS {
        return None;
    }
    counted(rt, alloc, &room, pass, cuts, done)
}

// What `room_counted` gives, where the call picks the journal's name and the ledger.
fn counted_once<R: Wait>(
    rt: &R,
    alloc: Global,
    blank: RoomBlank<Watched<Tally>>,
    every: u32,
    cuts: [(u32, u32); 8],
    done: &AtomicU32,
) -> Option<Vec<u32>>
    requires every { 0 < every }
{
    room_counted::<Brand, R, Brand>(rt, alloc, blank, Blank::new(1), every, cuts, done)
}

// The counts of a new room.
fn new_counts<R: Wait>(
    rt: &R,
    alloc: Global,
    every: u32,
    cuts: [(u32, u32); 8],
) -> Result<Vec<u32>, Fail>
    requires every { 0 < every }
{
    let done = Arc::new(alloc, AtomicU32::new(0))?;
    let watch = Tally {
        done: Arc::try_clone(&done)?,
    };
    let mut parts = Vec::new(alloc);
    parts.push(0)?;
    parts.push(0)?;
    let blank = RoomBlank::new(alloc, Watched { watch }, parts, 1)
        .ok()
        .ok_or("a blank")?;
    let counts = counted_once(rt, alloc, blank, every, cuts, &done).ok_or("cuts")?;
    Ok(counts)
}

#[test]
fn a_cut_begins_at_the_nearest_one_that_is_kept(rt: HostRuntime) -> Result<(), Fail> {
    let counts = new_counts(&rt, rt.alloc(), 1_000_000, CUTS)?;
    assert!(rt; counts.len() == CUTS.len());
    for ((point, wanted), count) in CUTS.into_iter().zip(&counts) {
        assert_eq!(rt; *count, wanted, "at {point}");
    }
    Ok(())
}

#[test]
fn a_cut_begins_at_one_that_was_kept_meanwhile(rt: HostRuntime) -> Result<(), Fail> {
    let counts = new_counts(&rt, rt.alloc(), KEPT_EVERY, LATER_CUTS)?;
    assert!(rt; counts.len() == LATER_CUTS.len());
    for ((point, wanted), count) in LATER_CUTS.into_iter().zip(&counts) {
        assert_eq!(rt; *count, wanted, "at {point}");
    }
    Ok(())
}
