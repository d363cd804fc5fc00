// The entries of a kept file, as they are made again one after another.
ghost use Rattle.std.specs.Prelude.{◌≡◌, ◌<◌, ◌≤◌, [], OnOk, IfOk, length};
ghost use Rattle.edit_journal.specs.Turns.{AreFresh, last_of};
ghost use Rattle.kept_rooms.specs.Making.{Adds, IsMade, Makes};

use crate::held_pass::HeldPass;
use crate::records::record_entry;
use crate::stop::Stop;
use crate::{Lasts, RecordFault};
use cut_room::Room;
use edit_calls::Call;
use edit_journal::{Naming, Pass};
use room_core::{Entry, Memory, PartObject};
use std::alloc::Global;
use std::sync::Wait;
use take_back::Step;

// The entries so far, the last number of each station, and their passes.
#[derive(Drop)]
pub struct Remaking<O: PartObject<Call = Step<Call>>, J: Naming<O, O::Part>> {
    pub entries: Vec<Entry<Step<Call>>>,
    pub lasts: Lasts,
    pub passes: Vec<HeldPass<O, J>>,
}

// Passes that can be lent, of the stations from 0 on.
fn held<O: PartObject, J: Naming<O, O::Part>>(
    alloc: Global,
    passes: Vec<Pass<O, J>>,
) -> Result<Vec<HeldPass<O, J>>, Memory>
    ensures { IfOk result (λ held. held.items ≡ passes.items) }
{
    let mut held = Vec::new(alloc);
    for pass in passes {
        held.push(HeldPass::new(pass))?;
    }
    Ok(held)
}

// An equal entry.
fn copy_entry<O: PartObject<Call = Step<Call>>>(
    alloc: Global,
    object: &O,
    entry: &Entry<Step<Call>>,
) -> Result<Entry<Step<Call>>, Memory>
    ensures { IfOk result (λ copy. copy ≡ entry.now) }
{
    Ok(Entry {
        station: entry.station,
        number: entry.number,
        call: object.copy_call(alloc, &entry.call)?,
    })
}

impl<O: PartObject<Call = Step<Call>> + Drop, J: Naming<O, O::Part>> Remaking<O, J> {
    // Before the first entry.
    pub fn new(alloc: Global, passes: Vec<Pass<O, J>>) -> Result<Remaking<O, J>, Memory>
        requires { AreFresh J.opening (length passes.items) passes.items }
        ensures made { IfOk result (λ r. IsMade r.entries.items r.lasts r.passes.items) }
        ensures none { IfOk result (λ r. r.entries.items ≡ []) }
        ensures count { IfOk result (λ r. length r.passes.items ≡ length passes.items) }
    {
        Ok(Remaking {
            entries: Vec::new(alloc),
            lasts: Lasts::new(),
            passes: held(alloc, passes)?,
        })
    }

    // Takes a record as the next entry, which its station makes again.
    pub fn add<R: Wait>(
        &mut self,
        rt: &R,
        alloc: Global,
        room: &Room<O, J>,
        line: &[u8],
    ) -> Result<(), Stop>
        requires made { IsMade self.old.entries.items self.old.lasts self.old.passes.items }
        requires few { length self.old.passes.items ≤ 16 }
        requires within { length self.old.entries.items < 100000 }
        ensures adds { Adds (length self.old.passes.items) line.now self.old.entries.items
            self.new.entries.items result }
        ensures made { OnOk result (IsMade self.new.entries.items self.new.lasts
            self.new.passes.items) }
        ensures count { length self.new.passes.items ≡ length self.old.passes.items }
        ensures within { length self.new.entries.items ≤ 100000 }
    {
        let stations = self.passes.len() as u32;
        let entry = match record_entry(alloc, line, stations, &self.lasts) {
            Ok(entry) => entry,
            Err(RecordFault::Refused(code)) => return Err(Stop::Refused(code)),
            Err(RecordFault::Memory) => return Err(Stop::Memory),
        };
        self.make(rt, alloc, room, entry)
    }

    // The same with the entry of a record.
    fn make<R: Wait>(
        &mut self,
        rt: &R,
        alloc: Global,
        room: &Room<O, J>,
        entry: Entry<Step<Call>>,
    ) -> Result<(), Stop>
        requires made { IsMade self.old.entries.items self.old.lasts self.old.passes.items }
        requires few { length self.old.passes.items ≤ 16 }
        requires within { length self.old.entries.items < 100000 }
        requires station { entry.station < length self.old.passes.items }
        requires above { last_of entry.station self.old.entries.items < entry.number }
        ensures makes { Makes entry self.old.entries.items self.new.entries.items result }
        ensures made { OnOk result (IsMade self.new.entries.items self.new.lasts
            self.new.passes.items) }
        ensures count { length self.new.passes.items ≡ length self.old.passes.items }
        ensures within { length self.new.entries.items ≤ 100000 }
    {
        let place = self.entries.len() as u32;
        let (station, number) = (entry.station, entry.number);
        let copy = copy_entry(alloc, room.object(), &entry)?;
        self.entries.push(entry)?;
        self.passes[station as usize].make(rt, alloc, room, copy, place)?;
        self.lasts.note(station, number);
        Ok(())
    }
}
