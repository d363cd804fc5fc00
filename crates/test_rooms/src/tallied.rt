// How often a room has its object do a call: once for each edit, however many entries its journal has.
ghost use Rattle.std.specs.Prelude.{◌≡◌, ◌<◌};

use cut_room::{Room, RoomBlank};
use edit_journal::{Naming, Pass};
use room_ports::OpenGate;
use std::alloc::Global;
use std::marker::Brand;
use std::sync::atomic::{AtomicU32, Ordering};
use std::sync::ledger::{Blank, Ledger};
use std::sync::{Arc, Wait};
use std::test::Fail;
use step_count::Steps;
use test_counters::{Watch, Watched};

// Counts the calls that are done.
#[derive(Drop)]
struct Tally {
    done: Arc<AtomicU32, Global>,
}

impl Watch for Tally {
    // Counts one call more.
    fn sees(&self, _call: u32) {
        let _ = self.done.fetch_add(1, Ordering::SeqCst);
    }
}

// Edits so often, and says how often a call was done before the last edit and after it.
fn tallied<J: Naming<Watched<Tally>, u32>, R: Wait, L: Ledger>(
    rt: &R,
    alloc: Global,
    blank: RoomBlank<Watched<Tally>>,
    ledger: Blank,
    done: &AtomicU32,
) -> Option<(u32, u32)>
    requires table { J.table ≡ blank.journal.table }
    requires opening { J.opening ≡ blank.journal.opening }
    requires stations { J.stations ≡ blank.journal.stations }
    requires ledger { (ledger.name ≡ L.name) × (ledger.parts ≡ L.parts) × (0 < ledger.parts) }
{
    let mut steps = Steps::<L>::new(ledger);
    let (room, mut passes) = Room::<Watched<Tally>, J>::open(alloc, blank).ok()?;
    let mut pass = passes.pop()?;
    let mut before = 0;
    for number in 1..=1_001 {
        let last = pass.last();
        if last >= number {
            return None;
        }
        before = done.load(Ordering::SeqCst);
        let (next, _) = room.edit(rt, alloc, pass, number, 7, &OpenGate, &mut steps);
        pass = next;
    }
    Some((before, done.load(Ordering::SeqCst)))
}

// What `tallied` gives, where the call picks the journal's name and the ledger.
fn tallied_once<R: Wait>(
    rt: &R,
    alloc: Global,
    blank: RoomBlank<Watched<Tally>>,
    done: &AtomicU32,
) -> Option<(u32, u32)> {
    tallied::<Brand, R, Brand>(rt, alloc, blank, Blank::new(1), done)
}

#[test]
fn a_call_is_done_once_for_each_edit(rt: HostRuntime) -> Result<(), Fail> {
    let alloc = rt.alloc();
    let done = Arc::new(alloc, AtomicU32::new(0))?;
    let watch = Tally {
        done: Arc::try_clone(&done)?,
    };
    let object = Watched { watch };
    let mut parts = Vec::new(alloc);
    parts.push(0)?;
    parts.push(0)?;
    let blank = RoomBlank::new(alloc, object, parts, 1)
        .ok()
        .ok_or("a blank")?;
    let told = tallied_once(&rt, alloc, blank, &done).ok_or("edits")?;
    assert!(rt; told == (1_000, 1_001));
    Ok(())
}
