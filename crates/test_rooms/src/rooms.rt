// A room of counters, for five stations on one thread.
ghost use Rattle.std.specs.Prelude.{◌≡◌, ◌<◌, IfOk};

use cut_room::{Answer, CutFault, Room, RoomBlank, Sight};
use edit_journal::{Naming, Pass};
use room_core::{Entry, Memory};
use room_ports::Gate;
use std::alloc::Global;
use std::marker::Brand;
use std::sync::Wait;
use std::sync::atomic::{AtomicU32, Ordering};
use std::sync::ledger::{Blank, Ledger};
use std::test::Fail;
use step_count::Steps;
use test_counters::Counters;

// What an edit or a question is answered: the point, and the sum or the number that is refused.
#[derive(Clone, Copy, PartialEq, Eq)]
enum Told {
    Done(u32, u32),
    Refused(u32, u32),
    Full(u32),
    Seen(u32, u32),
    Memory,
}

// What an edit is answered.
fn edit_told(answer: &Answer<Counters>) -> Told {
    match *answer {
        Answer::Done { point, done } => Told::Done(point, done),
        Answer::Refused { point, refusal } => Told::Refused(point, refusal),
        Answer::Full { point } => Told::Full(point),
        Answer::Memory => Told::Memory,
    }
}

// What a question is answered.
fn sight_told(sight: &Sight<Counters>) -> Told {
    match *sight {
        Sight::Seen { point, seen } => Told::Seen(point, seen),
        Sight::Refused { point, refusal } => Told::Refused(point, refusal),
        Sight::Memory => Told::Memory,
    }
}

// Three counters at 0, which go up to 10, for five stations.
fn blank_of(alloc: Global) -> Result<RoomBlank<Counters>, Memory> {
    let object = Counters { count: 3, most: 10 };
    let mut parts = Vec::new(alloc);
    parts.push(0)?;
    parts.push(0)?;
    parts.push(0)?;
    RoomBlank::new(alloc, object, parts, 5)
}

// How often each of five stations stood at the gate.
#[derive(Drop)]
struct CountingGate {
    calls: [AtomicU32; 5],
}

impl CountingGate {
    // Nobody stood at the gate.
    fn new() -> Self {
        CountingGate {
            calls: [
                AtomicU32::new(0),
                AtomicU32::new(0),
                AtomicU32::new(0),
                AtomicU32::new(0),
                AtomicU32::new(0),
            ],
        }
    }

    // How often a station stood at the gate; 0 of one that is not there.
    fn calls_of(&self, station: usize) -> u32 {
        match self.calls.get(station) {
            Some(calls) => calls.load(Ordering::SeqCst),
            None => 0,
        }
    }

    // How often each station stood at the gate.
    fn each(&self) -> [u32; 5] {
        [
            self.calls_of(0),
            self.calls_of(1),
            self.calls_of(2),
            self.calls_of(3),
            self.calls_of(4),
        ]
    }
}

impl Gate for CountingGate {
    // Counts the station and lets it go on at once.
    fn at_commit(&self, station: u32) {
        match self.calls.get(station as usize) {
            Some(calls) => {
                calls.fetch_add(1, Ordering::SeqCst);
            }
            None => {}
        }
    }
}

// Sends a call, under the number that follows the station's last.
fn sent<J: Naming<Counters, u32>, R: Wait, L: Ledger>(
    rt: &R,
    alloc: Global,
    room: &Room<Counters, J>,
    pass: Pass<Counters, J>,
    call: (u32, u32),
    gate: &CountingGate,
    steps: &mut Steps<L>,
) -> (Pass<Counters, J>, Told) {
    let last = pass.last();
    if last == u32::MAX {
        return (pass, Told::Memory);
    }
    let (pass, answer) = room.edit(rt, alloc, pass, last + 1, call, gate, steps);
    (pass, edit_told(&answer))
}

// What five stations were answered, the sums after the first entry, why there is no cut at the fourth, and how often
// each station stood at the gate.
#[derive(Drop)]
struct Outcome {
    told: [Told; 6],
    cut: Option<Vec<u32>>,
    no_cut: Option<CutFault>,
    point: u32,
    lasts: [u32; 5],
    gated: [u32; 5],
}

// Stations 0, 1 and 2 edit, 2 and 3 ask, and 4 asks for cuts: what each is answered.
fn five_answered<J: Naming<Counters, u32>, R: Wait, L: Ledger>(
    rt: &R,
    alloc: Global,
    blank: RoomBlank<Counters>,
    ledger: Blank,
) -> Option<Outcome>
    requires table { J.table ≡ blank.journal.table }
    requires opening { J.opening ≡ blank.journal.opening }
    requires stations { J.stations ≡ blank.journal.stations }
    requires ledger { (ledger.name ≡ L.name) × (ledger.parts ≡ L.parts) × (0 < ledger.parts) }
{
    let mut steps = Steps::<L>::new(ledger);
    let gate = CountingGate::new();
    let (room, mut passes) = Room::<Counters, J>::open(alloc, blank).ok()?;
    let (four, three, two) = (passes.pop()?, passes.pop()?, passes.pop()?);
    let (one, zero) = (passes.pop()?, passes.pop()?);
    let (zero, first) = sent(rt, alloc, &room, zero, (1, 5), &gate, &mut steps);
    let (one, second) = sent(rt, alloc, &room, one, (2, 6), &gate, &mut steps);
    let (one, third) = sent(rt, alloc, &room, one, (2, 4), &gate, &mut steps);
    let (two, fourth) = sent(rt, alloc, &room, two, (0, 1), &gate, &mut steps);
    let (two, fifth) = room.see(rt, alloc, two, &2);
    let (three, sixth) = room.see(rt, alloc, three, &5);
    let (three, point) = room.point(rt, three);
    let (four, cut) = room.cut_at(rt, alloc, four, 1);
    let (four, no_cut) = room.cut_at(rt, alloc, four, 3);
    Some(Outcome {
        told: [
            first,
            second,
            third,
            fourth,
            sight_told(&fifth),
            sight_told(&sixth),
        ],
        cut: cut.ok(),
        no_cut: no_cut.err(),
        point,
        lasts: [
            zero.last(),
            one.last(),
            two.last(),
            three.last(),
            four.last(),
        ],
        gated: gate.each(),
    })
}

// What `five_answered` gives, where the call picks the journal's name and the ledger.
fn five_answered_once<R: Wait>(
    rt: &R,
    alloc: Global,
    blank: RoomBlank<Counters>,
) -> Option<Outcome> {
    five_answered::<Brand, R, Brand>(rt, alloc, blank, Blank::new(1))
}

#[test]
fn five_stations_are_answered_by_one_journal(rt: HostRuntime) -> Result<(), Fail> {
    let alloc = rt.alloc();
    let blank = blank_of(alloc).ok().ok_or("a blank")?;
    let outcome = five_answered_once(&rt, alloc, blank).ok_or("an outcome")?;
    let [first, second, third, fourth, fifth, sixth] = outcome.told;
    assert!(rt; first == Told::Done(0, 5));
    assert!(rt; second == Told::Refused(1, 5));
    assert!(rt; third == Told::Done(1, 9));
    assert!(rt; fourth == Told::Refused(2, 0));
    assert!(rt; fifth == Told::Seen(2, 4));
    assert!(rt; sixth == Told::Refused(2, 5));
    let cut = outcome.cut.ok_or("a cut")?;
    assert!(rt; cut.as_slice() == [5, 5, 0].as_slice());
    assert!(rt; outcome.no_cut == Some(CutFault::NoPoint(2)));
    assert!(rt; outcome.point == 2);
    assert!(rt; outcome.lasts == [1, 1, 0, 0, 0]);
    assert!(rt; outcome.gated == [1, 1, 0, 0, 0]);
    Ok(())
}

// What a station is answered after as many entries as a journal can have, and how often each stood at the gate.
fn filled<J: Naming<Counters, u32>, R: Wait, L: Ledger>(
    rt: &R,
    alloc: Global,
    blank: RoomBlank<Counters>,
    ledger: Blank,
) -> Option<([Told; 3], [u32; 5])>
    requires table { J.table ≡ blank.journal.table }
    requires opening { J.opening ≡ blank.journal.opening }
    requires stations { J.stations ≡ blank.journal.stations }
    requires ledger { (ledger.name ≡ L.name) × (ledger.parts ≡ L.parts) × (0 < ledger.parts) }
{
    let mut steps = Steps::<L>::new(ledger);
    let gate = CountingGate::new();
    let (room, mut passes) = Room::<Counters, J>::open(alloc, blank).ok()?;
    let (mut pass, mut last) = sent(rt, alloc, &room, passes.pop()?, (1, 1), &gate, &mut steps);
    for _ in 1..100_000 {
        (pass, last) = sent(rt, alloc, &room, pass, (1, 0), &gate, &mut steps);
    }
    let (pass, full) = sent(rt, alloc, &room, pass, (1, 0), &gate, &mut steps);
    let (_, refused) = sent(rt, alloc, &room, pass, (1, 10), &gate, &mut steps);
    Some(([last, full, refused], gate.each()))
}

// What `filled` gives, where the call picks the journal's name and the ledger.
fn filled_once<R: Wait>(
    rt: &R,
    alloc: Global,
    blank: RoomBlank<Counters>,
) -> Option<([Told; 3], [u32; 5])> {
    filled::<Brand, R, Brand>(rt, alloc, blank, Blank::new(1))
}

#[test]
fn a_room_fills_and_refuses(rt: HostRuntime) -> Result<(), Fail> {
    let alloc = rt.alloc();
    let blank = blank_of(alloc).ok().ok_or("a blank")?;
    let (told, gated) = filled_once(&rt, alloc, blank).ok_or("answers")?;
    assert!(rt;
        told == [
            Told::Done(99_999, 1),
            Told::Full(100_000),
            Told::Refused(100_000, 1)
        ]
    );
    assert!(rt; gated == [0, 0, 0, 0, 100_001]);
    Ok(())
}

// The entries of a room that is closed as it was opened.
fn closed<J: Naming<Counters, u32>>(
    alloc: Global,
    blank: RoomBlank<Counters>,
) -> Option<Vec<Entry<(u32, u32)>>>
    requires table { J.table ≡ blank.journal.table }
    requires opening { J.opening ≡ blank.journal.opening }
    requires stations { J.stations ≡ blank.journal.stations }
{
    match Room::<Counters, J>::open(alloc, blank) {
        Ok((room, passes)) => Some(room.close(passes)),
        Err(_) => None,
    }
}

// What `closed` gives, where the call picks the journal's name.
fn closed_once(alloc: Global, blank: RoomBlank<Counters>) -> Option<Vec<Entry<(u32, u32)>>> {
    closed::<Brand>(alloc, blank)
}

#[test]
fn a_room_closes_with_all_its_passes(rt: HostRuntime) -> Result<(), Fail> {
    let alloc = rt.alloc();
    let blank = blank_of(alloc).ok().ok_or("a blank")?;
    let entries = closed_once(alloc, blank).ok_or("entries")?;
    assert!(rt; entries.is_empty());
    Ok(())
}
