// A question copies nothing: a part that is never copied answers it, and no edit.
ghost use Rattle.std.specs.Prelude.{◌≡◌, ◌<◌};

use cut_room::{Answer, Room, RoomBlank, Sight};
use edit_journal::Naming;
use room_core::Memory;
use room_ports::OpenGate;
use std::alloc::Global;
use std::marker::Brand;
use std::sync::Wait;
use std::sync::ledger::{Blank, Ledger};
use std::test::Fail;
use step_count::Steps;
use test_counters::Registers;

// One register at 0, for one station.
fn blank_of(alloc: Global) -> Result<RoomBlank<Registers>, Memory> {
    let mut parts = Vec::new(alloc);
    parts.push(0)?;
    RoomBlank::new(alloc, Registers { count: 1 }, parts, 1)
}

// Makes the register the greatest number, and says whether a question is told it, and whether an edit finds no memory.
fn asked<J: Naming<Registers, u32>, R: Wait, L: Ledger>(
    rt: &R,
    alloc: Global,
    blank: RoomBlank<Registers>,
    ledger: Blank,
) -> Option<(bool, bool)>
    requires table { J.table ≡ blank.journal.table }
    requires opening { J.opening ≡ blank.journal.opening }
    requires stations { J.stations ≡ blank.journal.stations }
    requires ledger { (ledger.name ≡ L.name) × (ledger.parts ≡ L.parts) × (0 < ledger.parts) }
{
    let mut steps = Steps::<L>::new(ledger);
    let (room, mut passes) = Room::<Registers, J>::open(alloc, blank).ok()?;
    let pass = passes.pop()?;
    let last = pass.last();
    if last > 0 {
        return None;
    }
    let call = (0, u32::MAX);
    let (pass, _) = room.edit(rt, alloc, pass, 1, call, &OpenGate, &mut steps);
    let (pass, sight) = room.see(rt, alloc, pass, &0);
    let last = pass.last();
    if last > 1 {
        return None;
    }
    let (_, answer) = room.edit(rt, alloc, pass, 2, (0, 7), &OpenGate, &mut steps);
    let seen = match sight {
        Sight::Seen { point, seen } => point == 1 && seen == u32::MAX,
        _ => false,
    };
    let uncopied = match answer {
        Answer::Memory => true,
        _ => false,
    };
    Some((seen, uncopied))
}

// What `asked` gives, where the call picks the journal's name and the ledger.
fn asked_once<R: Wait>(rt: &R, alloc: Global, blank: RoomBlank<Registers>) -> Option<(bool, bool)> {
    asked::<Brand, R, Brand>(rt, alloc, blank, Blank::new(1))
}

#[test]
fn a_part_that_is_never_copied_is_seen(rt: HostRuntime) -> Result<(), Fail> {
    let alloc = rt.alloc();
    let blank = blank_of(alloc).ok().ok_or("a blank")?;
    let told = asked_once(&rt, alloc, blank).ok_or("answers")?;
    assert!(rt; told == (true, true));
    Ok(())
}
