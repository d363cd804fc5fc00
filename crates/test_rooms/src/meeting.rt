// Two stations that edit two parts at the same time: a call on a part looks for one on the other that has begun.
ghost use Rattle.std.specs.Prelude.{◌≡◌, ◌<◌};

use crate::signs::{is_met, is_set, set};
use cut_room::{Room, RoomBlank};
use edit_journal::{Naming, Pass};
use room_core::Memory;
use room_ports::OpenGate;
use std::alloc::Global;
use std::marker::Brand;
use std::sync::atomic::AtomicBool;
use std::sync::ledger::{Blank, Ledger};
use std::sync::{Arc, Wait};
use std::test::Fail;
use std::thread;
use std::thread::Threads;
use step_count::Steps;
use test_counters::{Watch, Watched};

// For each of two parts, whether a call on it has begun, and whether it saw that one on the other had.
#[derive(Drop)]
struct Flags {
    begun: [AtomicBool; 2],
    met: [AtomicBool; 2],
}

// Sees the calls that a room does, and has each look for one on the other part.
#[derive(Drop)]
struct Meeting {
    flags: Arc<Flags, Global>,
}

impl Watch for Meeting {
    // A call that has begun says so, and looks whether one on the other part has begun.
    fn sees(&self, call: u32) {
        let own = (call % 2) as usize;
        set(&self.flags.begun[own]);
        if is_met(&self.flags.begun[1 - own]) {
            set(&self.flags.met[own]);
        }
    }
}

// Two parts whose calls look for one another.
type Pair = Watched<Meeting>;

// A station with its one call.
#[derive(Drop)]
struct Station<J: Naming<Pair, u32>> {
    pass: Option<Pass<Pair, J>>,
    call: u32,
}

// Does a station's one call, if it has not done it.
fn edit_counted<J: Naming<Pair, u32>, R: Wait, L: Ledger>(
    ledger: Blank,
    rt: &R,
    alloc: Global,
    room: &Room<Pair, J>,
    station: &mut Station<J>,
)
    requires { (ledger.name ≡ L.name) × (ledger.parts ≡ L.parts) × (0 < ledger.parts) }
{
    let mut steps = Steps::<L>::new(ledger);
    match station.pass.take() {
        Some(pass) => {
            if pass.last() == 0 {
                let (pass, _) = room.edit(rt, alloc, pass, 1, station.call, &OpenGate, &mut steps);
                station.pass = Some(pass);
            }
        }
        None => {}
    }
}

// Does a station's one call, where the call picks the ledger.
fn edit_once<J: Naming<Pair, u32>, R: Wait>(
    rt: &R,
    alloc: Global,
    room: &Room<Pair, J>,
    station: &mut Station<J>,
) {
    edit_counted::<J, R, Brand>(Blank::new(1), rt, alloc, room, station)
}

// Both stations edit, each in a thread of its own.
fn edit_both<J: Naming<Pair, u32> + Send + Sync, R: Threads + Wait + Sync>(
    rt: &R,
    alloc: Global,
    blank: RoomBlank<Pair>,
) -> Result<(), Memory>
    requires table { J.table ≡ blank.journal.table }
    requires opening { J.opening ≡ blank.journal.opening }
    requires stations { J.stations ≡ blank.journal.stations }
{
    let (room, passes) = Room::<Pair, J>::open(alloc, blank)?;
    let mut stations = Vec::new(alloc);
    for pass in passes {
        let call = pass.station();
        stations.push(Station {
            pass: Some(pass),
            call,
        })?;
    }
    thread::for_each_mut(
        rt,
        &mut stations,
        2,
        &|_, station| { edit_once(rt, alloc, &room, station) },
    );
    Ok(())
}

// Both stations edit two parts of a new room, each in a thread of its own.
fn edit_both_once<R: Threads + Wait + Sync>(
    rt: &R,
    alloc: Global,
    flags: Arc<Flags, Global>,
) -> Result<(), Memory> {
    let mut parts = Vec::new(alloc);
    parts.push(0)?;
    parts.push(0)?;
    let object = Watched {
        watch: Meeting { flags },
    };
    let blank = RoomBlank::new(alloc, object, parts, 2)?;
    edit_both::<Brand, R>(rt, alloc, blank)
}

#[test]
fn two_stations_edit_two_parts_at_the_same_time(rt: HostRuntime) -> Result<(), Fail> {
    let flags = Flags {
        begun: [AtomicBool::new(false), AtomicBool::new(false)],
        met: [AtomicBool::new(false), AtomicBool::new(false)],
    };
    let flags = Arc::new(rt.alloc(), flags)?;
    let shared = Arc::try_clone(&flags)?;
    edit_both_once(&rt, rt.alloc(), shared)
        .ok()
        .ok_or("a room")?;
    assert!(rt; is_set(&flags.met[0]));
    assert!(rt; is_set(&flags.met[1]));
    Ok(())
}
