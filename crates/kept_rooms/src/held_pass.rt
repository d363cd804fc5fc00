// A station's pass, which is lent to the room for each entry of the station.
ghost use Rattle.std.specs.Prelude.{◌≡◌, ◌<◌, IfErr, OnOk};
ghost use Rattle.edit_journal.specs.Turns.{last_of};
ghost use Rattle.cut_room.specs.Rooms.{Edited};
ghost use Rattle.cut_room.specs.declared.answers.Answer.TheVariants as answers;
ghost use Rattle.kept_rooms.specs.Making.{IsDoneAt, IsMadeAt, IsOfRoom};

use crate::stop::Stop;
use cut_room::{Answer, Room};
use edit_journal::{Naming, Pass};
use room_core::{Entry, PartObject};
use room_ports::OpenGate;
use std::alloc::Global;
use std::marker::{Brand, Model};
use std::sync::Wait;
use std::sync::ledger::{Blank, Ledger};
use step_count::Steps;

// To contracts it is the pass.
#[derive(Drop)]
pub struct HeldPass<O: PartObject, J: Naming<O, O::Part>> {
    pass: Option<Pass<O, J>>,
}

impl<O: PartObject, J: Naming<O, O::Part>> Model for HeldPass<O, J> {
    ghost use Rattle.std.specs.Prelude.{IsSome};
    ghost use Rattle.edit_journal.specs.Turns.{Known};
    ghost use Rattle.kept_rooms.specs.Making.{known_of};

    ghost Value = { Known O O.Part O.Call };

    ghost view = { λ h. known_of h.pass };

    ghost invariant = { λ h. IsSome h.pass };
}

impl<O: PartObject, J: Naming<O, O::Part>> HeldPass<O, J> {
    pub fn new(pass: Pass<O, J>) -> HeldPass<O, J>
        ensures { result ≡ pass }
    {
        HeldPass { pass: Some(pass) }
    }

    pub fn into_pass(self) -> Pass<O, J>
        ensures { result ≡ self }
    {
        let HeldPass { pass } = self;
        match pass {
            Some(pass) => pass,
            None => unreachable!(),
        }
    }
}

impl<O: PartObject + Drop, J: Naming<O, O::Part>> HeldPass<O, J> {
    // Has the room do the call of an entry of the station, which is to stand at this place.
    pub fn make<R: Wait>(
        &mut self,
        rt: &R,
        alloc: Global,
        room: &Room<O, J>,
        entry: Entry<O::Call>,
        place: u32,
    ) -> Result<(), Stop>
        requires station { entry.station ≡ self.old.number }
        requires number { last_of self.old.number self.old.entries < entry.number }
        ensures made { OnOk result (IsMadeAt place entry self.old self.new) }
        ensures stop { IfErr result IsOfRoom }
    {
        let pass = match self.pass.take() {
            Some(pass) => pass,
            None => unreachable!(),
        };
        let Entry {
            station: _,
            number,
            call,
        } = entry;
        let (pass, answer) = edit_uncounted(rt, alloc, room, pass, number, call);
        self.pass = Some(pass);
        done_at(&answer, place)
    }
}

// An edit of the room past an open gate, with its steps counted.
fn edit_counted<R: Wait, O: PartObject + Drop, J: Naming<O, O::Part>, L: Ledger>(
    blank: Blank,
    rt: &R,
    alloc: Global,
    room: &Room<O, J>,
    pass: Pass<O, J>,
    number: u32,
    call: O::Call,
) -> (Pass<O, J>, Answer<O>)
    requires blank { (blank.name ≡ L.name) × (blank.parts ≡ L.parts) × (0 < blank.parts) }
    requires number { last_of pass.number pass.entries < number }
    ensures { Edited (O.meaning room.now.object) room.now.parts
        (record { station = pass.number; number = number; call = call }) pass result.0 result.1 }
{
    let mut steps = Steps::<L>::new(blank);
    room.edit(rt, alloc, pass, number, call, &OpenGate, &mut steps)
}

// The same, which counts no steps.
fn edit_uncounted<R: Wait, O: PartObject + Drop, J: Naming<O, O::Part>>(
    rt: &R,
    alloc: Global,
    room: &Room<O, J>,
    pass: Pass<O, J>,
    number: u32,
    call: O::Call,
) -> (Pass<O, J>, Answer<O>)
    requires { last_of pass.number pass.entries < number }
    ensures { Edited (O.meaning room.now.object) room.now.parts
        (record { station = pass.number; number = number; call = call }) pass result.0 result.1 }
{
    edit_counted::<R, O, J, Brand>(Blank::new(1), rt, alloc, room, pass, number, call)
}

// Whether the room has done an edit as the entry at this place.
fn done_at<O: PartObject>(answer: &Answer<O>, place: u32) -> Result<(), Stop>
    ensures done { OnOk result (IsDoneAt place answer.now) }
    ensures stop { IfErr result IsOfRoom }
{
    match answer {
        Answer::Done { point, done: _ } => {
            if *point == place {
                Ok(())
            } else {
                Err(Stop::Strayed)
            }
        }
        Answer::Refused { .. } => Err(Stop::NotApplied),
        Answer::Full { .. } => Err(Stop::Strayed),
        Answer::Memory => Err(Stop::Memory),
    }
}
