// Entries of a room's journal, from a place on.
ghost use Rattle.std.specs.Prelude.{◌≡◌, ◌<◌, IfOk};
ghost use Rattle.room_core.specs.Totals.{CanOpen};

use cut_room::{CutFault, Room, RoomBlank};
use edit_journal::{Naming, Pass};
use room_core::Memory;
use room_ports::OpenGate;
use std::alloc::Global;
use std::marker::Brand;
use std::sync::Wait;
use std::sync::ledger::{Blank, Ledger};
use std::test::Fail;
use step_count::Steps;
use test_counters::Counters;

// From where, and how many entries at most; how many come, the number of the first of them or 0, and the journal's length,
// or how many entries there are where `from` is past them.
const ASKED: [(u32, u32, Result<(usize, u32, u32), u32>); 8] = [
    (0, 10, Ok((5, 1, 5))),
    (0, 5, Ok((5, 1, 5))),
    (0, 2, Ok((2, 1, 5))),
    (2, 2, Ok((2, 3, 5))),
    (4, u32::MAX, Ok((1, 5, 5))),
    (5, 1, Ok((0, 0, 5))),
    (3, 0, Ok((0, 0, 5))),
    (6, 1, Err(5)),
];

// Two counters at 0, for one station.
fn blank_of(alloc: Global) -> Result<RoomBlank<Counters>, Memory> {
    let object = Counters {
        count: 2,
        most: 100,
    };
    let parts = zeros(alloc)?;
    RoomBlank::new(alloc, object, parts, 1)
}

// Two counters at 0.
fn zeros(alloc: Global) -> Result<Vec<u32>, Memory>
    ensures { IfOk result (λ parts. CanOpen 2 100 parts.items) }
{
    let mut parts = Vec::new(alloc);
    parts.push(0)?;
    parts.push(0)?;
    Ok(parts)
}

// What a part of the journal has: how many entries, the number of the first, and the journal's length.
fn told<J: Naming<Counters, u32>, R: Wait>(
    rt: &R,
    alloc: Global,
    room: &Room<Counters, J>,
    pass: Pass<Counters, J>,
    from: u32,
    most: u32,
) -> (Pass<Counters, J>, Option<Result<(usize, u32, u32), u32>>) {
    let (pass, excerpt) = room.entries(rt, alloc, pass, from, most);
    let told = match excerpt {
        Ok(excerpt) => {
            let first = match excerpt.entries.first() {
                Some(entry) => entry.number,
                None => 0,
            };
            Some(Ok((excerpt.entries.len(), first, excerpt.length)))
        }
        Err(CutFault::NoPoint(length)) => Some(Err(length)),
        Err(CutFault::Memory) => None,
    };
    (pass, told)
}

// What each part has that is asked for.
fn all_told<J: Naming<Counters, u32>, R: Wait>(
    rt: &R,
    alloc: Global,
    room: &Room<Counters, J>,
    pass: Pass<Counters, J>,
) -> Option<Vec<Result<(usize, u32, u32), u32>>> {
    let mut pass = pass;
    let mut all = Vec::new(alloc);
    for (from, most, _) in ASKED {
        let (back, told) = told(rt, alloc, room, pass, from, most);
        pass = back;
        all.push(told?).ok()?;
    }
    Some(all)
}

// What each part has that is asked for, in a room with five entries.
fn five_told<J: Naming<Counters, u32>, R: Wait, L: Ledger>(
    rt: &R,
    alloc: Global,
    blank: RoomBlank<Counters>,
    ledger: Blank,
) -> Option<Vec<Result<(usize, u32, u32), u32>>>
    requires table { J.table ≡ blank.journal.table }
    requires opening { J.opening ≡ blank.journal.opening }
    requires stations { J.stations ≡ blank.journal.stations }
    requires ledger { (ledger.name ≡ L.name) × (ledger.parts ≡ L.parts) × (0 < ledger.parts) }
{
    let mut steps = Steps::<L>::new(ledger);
    let (room, mut passes) = Room::<Counters, J>::open(alloc, blank).ok()?;
    let mut pass = passes.pop()?;
    for number in 1..=5 {
        let last = pass.last();
        if last >= number {
            return None;
        }
        let (back, _) = room.edit(rt, alloc, pass, number, (1, 1), &OpenGate, &mut steps);
        pass = back;
    }
    all_told(rt, alloc, &room, pass)
}

// What `five_told` gives, where the call picks the journal's name and the ledger.
fn told_once<R: Wait>(
    rt: &R,
    alloc: Global,
    blank: RoomBlank<Counters>,
) -> Option<Vec<Result<(usize, u32, u32), u32>>> {
    five_told::<Brand, R, Brand>(rt, alloc, blank, Blank::new(1))
}

#[test]
fn a_part_of_the_journal_comes_with_its_length(rt: HostRuntime) -> Result<(), Fail> {
    let alloc = rt.alloc();
    let blank = blank_of(alloc).ok().ok_or("a blank")?;
    let all = told_once(&rt, alloc, blank).ok_or("answers")?;
    assert!(rt; all.len() == ASKED.len());
    for ((from, most, wanted), told) in ASKED.into_iter().zip(&all) {
        assert_eq!(rt; *told, wanted, "{most} from {from}");
    }
    Ok(())
}
