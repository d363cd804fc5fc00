// A pass that stays at the desk, and is lent to the room to read its journal.
ghost use Rattle.std.specs.Prelude.{◌≡◌, ◌<◌, IfOk, IfErr, take, drop, length};
ghost use Rattle.cut_room.specs.Rooms.{IsAtPoint};
ghost use Rattle.room_keepers.specs.declared.fault.KeepFault.TheVariants as faults;

use cut_room::Room;
use edit_journal::{Naming, Pass};
use room_core::{Entry, PartObject};
use room_keepers::KeepFault;
use std::alloc::Global;
use std::marker::Model;
use std::sync::Wait;

// To contracts it is the pass.
#[derive(Drop)]
pub struct HeldPass<O: PartObject, J: Naming<O, O::Part>> {
    pass: Option<Pass<O, J>>,
}

impl<O: PartObject, J: Naming<O, O::Part>> Model for HeldPass<O, J> {
    ghost use Rattle.std.specs.Prelude.{IsSome};
    ghost use Rattle.edit_journal.specs.Turns.{Known};
    ghost use Rattle.kept_desk.specs.Desks.{known_of};

    ghost Value = { Known O O.Part O.Call };

    ghost view = { λ h. known_of h.pass };

    ghost invariant = { λ h. IsSome h.pass };
}

impl<O: PartObject, J: Naming<O, O::Part>> HeldPass<O, J> {
    pub fn new(pass: Pass<O, J>) -> HeldPass<O, J>
        ensures { result ≡ pass }
    {
        HeldPass { pass: Some(pass) }
    }

    pub fn into_pass(self) -> Pass<O, J>
        ensures { result ≡ self }
    {
        let HeldPass { pass } = self;
        match pass {
            Some(pass) => pass,
            None => unreachable!(),
        }
    }
}

impl<O: PartObject + Drop, J: Naming<O, O::Part>> HeldPass<O, J> {
    // The entries of the room from one on, at most so many. Where the room has none the answer is that there is no
    // memory: no caller asks for entries that the room has not told of, and what a room has told of stays.
    pub fn entries<R: Wait>(
        &mut self,
        rt: &R,
        alloc: Global,
        room: &Room<O, J>,
        from: u32,
        most: u32,
    ) -> Result<Vec<Entry<O::Call>>, KeepFault>
        ensures at { IsAtPoint (O.meaning room.now.object) room.now.parts self.old self.new
            (length self.new.entries) }
        ensures entries { IfOk result (λ v. v.items ≡ take most (drop from self.new.entries)) }
        ensures some { IfOk result (λ v. 0 < length v.items) }
        ensures fault { IfErr result (λ f. f ≡ faults.Memory) }
    {
        let pass = match self.pass.take() {
            Some(pass) => pass,
            None => unreachable!(),
        };
        let (pass, copied) = room.entries(rt, alloc, pass, from, most);
        self.pass = Some(pass);
        match copied {
            Ok(excerpt) => some_of(excerpt.entries),
            Err(_) => Err(KeepFault::Memory),
        }
    }
}

// The same entries, where there are any.
fn some_of<C: Drop>(entries: Vec<Entry<C>>) -> Result<Vec<Entry<C>>, KeepFault>
    ensures same { IfOk result (λ v. v ≡ entries) }
    ensures some { IfOk result (λ v. 0 < length v.items) }
    ensures fault { IfErr result (λ f. f ≡ faults.Memory) }
{
    if entries.is_empty() {
        return Err(KeepFault::Memory);
    }
    Ok(entries)
}
