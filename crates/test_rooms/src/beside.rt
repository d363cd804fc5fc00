// A station edits while a cut of the past is made for another: the call that is done for the cut waits until that edit
// has its answer.
ghost use Rattle.std.specs.Prelude.{◌≡◌, ◌<◌};

use crate::signs::{is_met, is_set, set};
use cut_room::{Room, RoomBlank};
use edit_journal::{Naming, Pass};
use room_core::Memory;
use room_ports::OpenGate;
use std::alloc::Global;
use std::marker::Brand;
use std::sync::atomic::AtomicBool;
use std::sync::ledger::{Blank, Ledger};
use std::sync::{Arc, Wait};
use std::test::Fail;
use std::thread;
use std::thread::Threads;
use step_count::Steps;
use test_counters::{Watch, Watched};

// Whether a cut is asked for, whether its call is being done, whether the other station's edit has its answer, and whether
// the call that is done for the cut saw that.
#[derive(Drop)]
struct Signs {
    asked: AtomicBool,
    begun: AtomicBool,
    answered: AtomicBool,
    seen: AtomicBool,
}

// Sees the calls that a room does, and waits in one of them.
#[derive(Drop)]
struct Waiting {
    signs: Arc<Signs, Global>,
}

impl Watch for Waiting {
    // An even call that is done for the cut waits for the answer to an odd one.
    fn sees(&self, call: u32) {
        if call % 2 == 1 || !is_set(&self.signs.asked) {
            return;
        }
        set(&self.signs.begun);
        if is_met(&self.signs.answered) {
            set(&self.signs.seen);
        }
    }
}

// Two parts whose calls may wait.
type Slow = Watched<Waiting>;

// A station's pass, and the length of the cut that it has asked for.
#[derive(Drop)]
struct Station<J: Naming<Slow, u32>> {
    pass: Option<Pass<Slow, J>>,
    cut: Option<usize>,
}

// Does a station's edit of a number.
fn edited<J: Naming<Slow, u32>, R: Wait, L: Ledger>(
    ledger: Blank,
    rt: &R,
    alloc: Global,
    room: &Room<Slow, J>,
    pass: Pass<Slow, J>,
    number: u32,
    call: u32,
) -> Option<Pass<Slow, J>>
    requires { (ledger.name ≡ L.name) × (ledger.parts ≡ L.parts) × (0 < ledger.parts) }
{
    if pass.last() >= number {
        return None;
    }
    let mut steps = Steps::<L>::new(ledger);
    let (pass, _) = room.edit(rt, alloc, pass, number, call, &OpenGate, &mut steps);
    Some(pass)
}

// Does a station's first edit, where the call picks the ledger.
fn edited_once<J: Naming<Slow, u32>, R: Wait>(
    rt: &R,
    alloc: Global,
    room: &Room<Slow, J>,
    pass: Pass<Slow, J>,
    number: u32,
    call: u32,
) -> Option<Pass<Slow, J>> {
    edited::<J, R, Brand>(Blank::new(1), rt, alloc, room, pass, number, call)
}

// Station 0 asks for the cut after the first of its two edits; station 1 edits once the call for that cut is being done.
fn goes_on<J: Naming<Slow, u32>, R: Wait>(
    rt: &R,
    alloc: Global,
    room: &Room<Slow, J>,
    signs: &Signs,
    station: &mut Station<J>,
) {
    let Some(pass) = station.pass.take() else {
        return;
    };
    if pass.station() == 0 {
        let (_, cut) = room.cut_at(rt, alloc, pass, 1);
        station.cut = cut.ok().map(|parts| parts.len());
    } else if is_met(&signs.begun) && edited_once(rt, alloc, room, pass, 1, 1).is_some() {
        set(&signs.answered);
    }
}

// Both stations, each in a thread of its own, and the lengths of the cuts that they have asked for.
fn both_go_on<J: Naming<Slow, u32> + Send + Sync, R: Threads + Wait + Sync>(
    rt: &R,
    alloc: Global,
    blank: RoomBlank<Slow>,
    signs: &Signs,
) -> Option<Vec<Option<usize>>>
    requires table { J.table ≡ blank.journal.table }
    requires opening { J.opening ≡ blank.journal.opening }
    requires stations { J.stations ≡ blank.journal.stations }
{
    let (room, passes) = Room::<Slow, J>::open(alloc, blank).ok()?;
    let mut stations = Vec::new(alloc);
    for pass in passes {
        let pass = if pass.station() == 0 {
            let pass = edited_once(rt, alloc, &room, pass, 1, 0)?;
            edited_once(rt, alloc, &room, pass, 2, 0)?
        } else {
            pass
        };
        let station = Station {
            pass: Some(pass),
            cut: None,
        };
        stations.push(station).ok()?;
    }
    set(&signs.asked);
    thread::for_each_mut(
        rt,
        &mut stations,
        2,
        &|_, station| { goes_on(rt, alloc, &room, signs, station) },
    );
    let mut cuts = Vec::new(alloc);
    for station in &stations {
        cuts.push(station.cut).ok()?;
    }
    Some(cuts)
}

// What `both_go_on` gives, where the call picks the journal's name.
fn both_go_on_once<R: Threads + Wait + Sync>(
    rt: &R,
    alloc: Global,
    blank: RoomBlank<Slow>,
    signs: &Signs,
) -> Option<Vec<Option<usize>>> {
    both_go_on::<Brand, R>(rt, alloc, blank, signs)
}

// Two parts whose calls may wait, for two stations.
fn blank_of(alloc: Global, signs: Arc<Signs, Global>) -> Result<RoomBlank<Slow>, Memory> {
    let object = Watched {
        watch: Waiting { signs },
    };
    let mut parts = Vec::new(alloc);
    parts.push(0)?;
    parts.push(0)?;
    RoomBlank::new(alloc, object, parts, 2)
}

#[test]
fn a_station_edits_while_a_cut_is_made(rt: HostRuntime) -> Result<(), Fail> {
    let alloc = rt.alloc();
    let signs = Signs {
        asked: AtomicBool::new(false),
        begun: AtomicBool::new(false),
        answered: AtomicBool::new(false),
        seen: AtomicBool::new(false),
    };
    let signs = Arc::new(alloc, signs)?;
    let shared = Arc::try_clone(&signs)?;
    let blank = blank_of(alloc, shared).ok().ok_or("a blank")?;
    let cuts = both_go_on_once(&rt, alloc, blank, &signs).ok_or("a room")?;
    assert!(rt; cuts.get(0) == Some(&Some(2)));
    assert!(rt; is_set(&signs.seen));
    Ok(())
}
