// A room that goes on from the records of a kept file: they are made its first entries again.
ghost use Rattle.std.specs.Prelude.{◌≡◌, ◌<◌, ◌≤◌, ℕ, [], List, Some, IfErr, IfOk, OnOk, length, slice_get};
ghost use Rattle.room_core.specs.declared.entry.Entry.{Entry};
ghost use Rattle.room_core.specs.Parts.{AreGood, numbers};
ghost use Rattle.edit_calls.specs.declared.asks.Call.{Call};
ghost use Rattle.take_back.specs.declared.step.Step.{Step};
ghost use Rattle.edit_journal.specs.Turns.{AreFresh, Known};
ghost use Rattle.kept_rooms.specs.Kept.{AreKept, AreTaken, IsKeptFault};
ghost use Rattle.kept_rooms.specs.Making.{HasOwn, IsLookFault, IsMade, IsOfRecord, IsToldOf, Tells};
ghost use Rattle.kept_rooms.specs.Rooms.{EachKnowsOwn, KnowsAll, KnowsOwn};

use crate::KeptFault;
use crate::comparing::are_same;
use crate::held_pass::HeldPass;
use crate::remaking::Remaking;
use crate::stop::Stop;
use cut_room::Room;
use edit_calls::Call;
use edit_journal::{Naming, Pass};
use history_points::{ReplayFault, replay};
use journal_file::Record;
use room_core::{Entry, Memory, PartObject};
use std::alloc::Global;
use std::sync::Wait;
use take_back::Step;

/// What a room goes on with from its kept entries: these, the passes of its stations from 0 on, and
/// the pass of the desk that keeps the file.
#[derive(Drop)]
pub struct Remade<O: PartObject<Call = Step<Call>>, J: Naming<O, O::Part>> {
    pub entries: Vec<Entry<Step<Call>>>,
    pub passes: Vec<Pass<O, J>>,
    pub reader: Pass<O, J>,
}

// What is told of a record after so many entries that apply, or where the room says that its entry
// does not.
fn told_of_record(stop: Stop, count: u32) -> KeptFault
    requires { count < 4294967295 }
    ensures { IsToldOf count stop result }
{
    match stop {
        Stop::Refused(code) => KeptFault::Refused {
            code,
            number: count + 1,
        },
        Stop::NotApplied => KeptFault::Strayed,
        Stop::Strayed => KeptFault::Strayed,
        Stop::Memory => KeptFault::Memory,
    }
}

// What is told where the making of entries stops at a record after these. The entries are done once
// more on what the room began with, for the first that does not apply.
fn told_of<O: PartObject<Call = Step<Call>>>(
    alloc: Global,
    object: &O,
    opening: &[O::Part],
    entries: &[Entry<Step<Call>>],
    stop: Stop,
) -> KeptFault
    requires opens { O.opens object.now opening.now }
    requires good { AreGood (O.good object.now) (numbers 0 (O.count object.now)) opening.now }
    requires within { length entries.now ≤ 100000 }
    requires record { IsOfRecord stop }
    ensures { Tells (O.meaning object.now) opening.now entries.now stop result }
{
    let count = entries.len() as u32;
    match replay(alloc, object, opening, entries, count) {
        Ok(_) => told_of_record(stop, count),
        Err(ReplayFault::Refused(place)) => KeptFault::NotApplied { place },
        Err(ReplayFault::Memory) => KeptFault::Memory,
    }
}

// What is told where the making of entries stops. A pass is lent for the parts that the room began
// with.
fn told<R: Wait, O: PartObject<Call = Step<Call>> + Drop, J: Naming<O, O::Part>>(
    rt: &R,
    alloc: Global,
    room: &Room<O, J>,
    reader: Pass<O, J>,
    entries: &[Entry<Step<Call>>],
    stop: Stop,
) -> KeptFault
    requires opens { O.opens room.now.object room.now.parts }
    requires within { length entries.now ≤ 100000 }
    ensures { Tells (O.meaning room.now.object) room.now.parts entries.now stop result }
{
    match stop {
        Stop::Strayed => return KeptFault::Strayed,
        Stop::Memory => return KeptFault::Memory,
        _ => {}
    }
    let (_, opening) = room.cut_at(rt, alloc, reader, 0);
    match opening {
        Ok(opening) => told_of(alloc, room.object(), &opening, entries, stop),
        Err(_) => KeptFault::Memory,
    }
}

// Makes all entries again. The pass of the desk is lent where one is refused.
fn make_all<R: Wait, O: PartObject<Call = Step<Call>> + Drop, J: Naming<O, O::Part>>(
    rt: &R,
    alloc: Global,
    room: &Room<O, J>,
    remaking: &mut Remaking<O, J>,
    reader: Pass<O, J>,
    records: &[Record],
) -> Result<Pass<O, J>, KeptFault>
    requires opens { O.opens room.now.object room.now.parts }
    requires made { IsMade remaking.old.entries.items remaking.old.lasts remaking.old.passes.items }
    requires none { remaking.old.entries.items ≡ [] }
    requires few { length remaking.old.passes.items ≤ 16 }
    requires within { length records.now ≤ 100000 }
    ensures made { OnOk result (IsMade remaking.new.entries.items remaking.new.lasts
        remaking.new.passes.items) }
    ensures taken { OnOk result (AreTaken (length remaking.old.passes.items) [] records.now
        remaking.new.entries.items) }
    ensures count { length remaking.new.passes.items ≡ length remaking.old.passes.items }
    ensures reader { IfOk result (λ pass. pass ≡ reader) }
    ensures fault { IfErr result (λ fault. IsKeptFault (O.meaning room.now.object) room.now.parts
        (length remaking.old.passes.items) records.now fault) }
{
    for record in records {
        match remaking.add(rt, alloc, room, record.line()) {
            Ok(()) => {}
            Err(stop) => return Err(told(rt, alloc, room, reader, &remaking.entries, stop)),
        }
    }
    Ok(reader)
}

// Looks whether the room's history begins with these entries.
fn look<R: Wait, O: PartObject<Call = Step<Call>> + Drop, J: Naming<O, O::Part>>(
    rt: &R,
    alloc: Global,
    room: &Room<O, J>,
    reader: Pass<O, J>,
    entries: &[Entry<Step<Call>>],
) -> Result<Pass<O, J>, KeptFault>
    requires none { reader.entries ≡ [] }
    requires within { length entries.now ≤ 100000 }
    ensures knows { IfOk result (λ pass. KnowsAll (O.meaning room.now.object) room.now.parts
        entries.now pass) }
    ensures number { IfOk result (λ pass. pass.number ≡ reader.number) }
    ensures fault { IfErr result (λ fault. IsLookFault fault) }
{
    let (reader, excerpt) = room.entries(rt, alloc, reader, 0, entries.len() as u32);
    match excerpt {
        Ok(excerpt) => {
            if are_same(&excerpt.entries, entries) {
                Ok(reader)
            } else {
                Err(KeptFault::Strayed)
            }
        }
        Err(_) => Err(KeptFault::Memory),
    }
}

// Looks whether a station is told of that many entries.
fn look_with<R: Wait, O: PartObject<Call = Step<Call>> + Drop, J: Naming<O, O::Part>>(
    rt: &R,
    room: &Room<O, J>,
    pass: Pass<O, J>,
    count: u32,
) -> Result<Pass<O, J>, KeptFault>
    ensures knows { IfOk result (λ after. (entries : List (Entry (Step Call))) (station : ℕ)
        → length entries ≡ count → HasOwn entries station pass
        → KnowsOwn (O.meaning room.now.object) room.now.parts entries station after) }
    ensures fault { IfErr result (λ fault. IsLookFault fault) }
{
    let (pass, point) = room.point(rt, pass);
    if point < count {
        return Err(KeptFault::Strayed);
    }
    Ok(pass)
}

// Looks with the passes of all stations.
fn look_with_all<R: Wait, O: PartObject<Call = Step<Call>> + Drop, J: Naming<O, O::Part>>(
    rt: &R,
    alloc: Global,
    room: &Room<O, J>,
    held: Vec<HeldPass<O, J>>,
    count: u32,
) -> Result<Vec<Pass<O, J>>, KeptFault>
    ensures knows { IfOk result (λ passes. (entries : List (Entry (Step Call))) → length entries ≡ count
        → ((s : ℕ) (p : Known O O.Part (Step Call)) → slice_get held.items s ≡ Some p → HasOwn entries s p)
        → EachKnowsOwn (O.meaning room.now.object) room.now.parts entries passes.items) }
    ensures count { IfOk result (λ passes. length passes.items ≡ length held.items) }
    ensures fault { IfErr result (λ fault. IsLookFault fault) }
{
    let mut passes = Vec::with_capacity(alloc, held.len())?;
    for pass in held {
        let pass = look_with(rt, room, pass.into_pass(), count)?;
        passes.push(pass)?;
    }
    Ok(passes)
}

/// Makes the records of a kept file the first entries of a room that has just been opened, one
/// after another, each by its station, and looks then whether the room has them so. The passes are
/// those of the stations from 0 on; the reader is that of the desk, which has no entry of its own.
pub fn make_again<R: Wait, O: PartObject<Call = Step<Call>> + Drop, J: Naming<O, O::Part>>(
    rt: &R,
    alloc: Global,
    room: &Room<O, J>,
    passes: Vec<Pass<O, J>>,
    reader: Pass<O, J>,
    records: &[Record],
) -> Result<Remade<O, J>, KeptFault>
    requires opens { O.opens room.now.object room.now.parts }
    requires passes { AreFresh J.opening (length passes.items) passes.items }
    requires stations { length passes.items ≤ 16 }
    requires reader { reader.entries ≡ [] }
    requires within { length records.now ≤ 100000 }

    ensures entries { IfOk result (λ r. AreKept (O.meaning room.now.object) room.now.parts
        (length passes.items) records.now r.entries.items) }
    ensures reader { IfOk result (λ r. KnowsAll (O.meaning room.now.object) room.now.parts
        r.entries.items r.reader) }
    ensures number { IfOk result (λ r. r.reader.number ≡ reader.number) }
    ensures passes { IfOk result (λ r. EachKnowsOwn (O.meaning room.now.object) room.now.parts
        r.entries.items r.passes.items) }
    ensures stations { IfOk result (λ r. length r.passes.items ≡ length passes.items) }

    ensures refused { IfErr result (λ fault. IsKeptFault (O.meaning room.now.object) room.now.parts
        (length passes.items) records.now fault) }
{
    let mut remaking = Remaking::new(alloc, passes)?;
    let reader = make_all(rt, alloc, room, &mut remaking, reader, records)?;
    let Remaking {
        entries,
        lasts: _,
        passes,
    } = remaking;
    let reader = look(rt, alloc, room, reader, &entries)?;
    let passes = look_with_all(rt, alloc, room, passes, entries.len() as u32)?;
    Ok(Remade {
        entries,
        passes,
        reader,
    })
}
