// An object of parts of which each keeps what it was.
ghost use Rattle.std.specs.Prelude.{◌≡◌, ◌<◌, ◌^◌, IfOk, false};
ghost use Rattle.part_sets.specs.Members.{members};
ghost use Rattle.room_core.specs.Whole.{set_of};
ghost use Rattle.take_back.specs.Parts.{CanOpen, IsGoodKept};
ghost use Rattle.take_back.specs.RoomyLaws.{backed-roomy};
ghost use Rattle.take_back.specs.StepLaws.{backed-named, backed-opens};
ghost use Rattle.take_back.specs.Steps.{backed};

use crate::back::{missing, take_back};
use crate::doing::do_call;
use crate::{BackDone, BackRefusal, Deed, Former, Kept, Step};
use room_core::{Fault, Memory, PartObject};
use std::alloc::Global;
use std::sync::ledger::Ledger;
use step_count::Steps;

/// An object whose calls can be taken back: each by the station that sent it, on all parts that it named, where no
/// call has changed one of them since.
///
/// A taking back is refused with `NoPart` of its least part that is not there, else with `NotYours` of its least part
/// of which nothing can be taken back or what another station did, else with `OtherTracks` of its least part that a
/// call on other parts changed last. Calls have the object's own refusals. A question is about the part as it is now.
#[derive(Drop)]
pub struct Backed<O> {
    /// The object whose calls can be taken back.
    pub object: O,
}

// The set of these parts, which is that of its members.
fn set(tracks: u32) -> u32
    ensures { result ≡ set_of (members tracks) }
{
    tracks
}

// An equal former part.
fn copy_former<O: PartObject>(
    alloc: Global,
    object: &O,
    former: &Former<O::Part>,
) -> Result<Former<O::Part>, Memory>
    ensures { IfOk result (λ copy. copy ≡ former.now) }
{
    Ok(Former {
        part: object.copy_part(alloc, &former.part)?,
        names: former.names,
        by: former.by,
    })
}

impl<O: PartObject> PartObject for Backed<O> {
    /// A part, with what it was before its last call.
    type Part = Kept<O::Part>;

    /// A call of the object, or a taking back, with the station that sends it.
    type Call = Step<O::Call>;

    /// The object's own answer, or that a call was taken back.
    type Done = BackDone<O::Done>;

    /// The object's own refusal, or why nothing is taken back.
    type Refusal = BackRefusal<O::Refusal>;

    /// A question of the object.
    type Ask = O::Ask;

    /// The object's own answer.
    type Seen = O::Seen;

    /// The object's own refusal.
    type AskRefusal = O::AskRefusal;

    ghost meaning = { λ o. backed (O.count o.object) (O.meaning o.object) };

    ghost refuses_first = { λ o. false };

    ghost count = { λ o. O.count o.object };

    ghost good = { λ o. IsGoodKept (O.good o.object) };

    ghost roomy = { λ o k. O.roomy o.object k.now };

    ghost opens = { λ o. CanOpen (O.opens o.object) };

    ghost size = { λ k. O.size k.now };

    ghost asked = { λ o ask. O.asked o.object ask };

    ghost seen = { λ o k ask. O.seen o.object k.now ask };

    /// As many parts as the object has.
    fn parts(&self) -> u32 {
        self.object.parts()
    }

    /// The parts that the object's call names, or those whose last call is to be taken back.
    fn names(&self, step: &Step<O::Call>) -> u32 {
        match &step.act {
            Deed::Do(call) => self.object.names(call),
            Deed::Back { tracks } => set(*tracks),
        }
    }

    /// The object's own refusal, or the least part of a taking back that is not there.
    fn refuse_names(&self, step: &Step<O::Call>) -> Option<BackRefusal<O::Refusal>> {
        match &step.act {
            Deed::Do(call) => match self.object.refuse_names(call) {
                Some(refusal) => Some(BackRefusal::Own(refusal)),
                None => None,
            },
            Deed::Back { tracks } => match missing(self.object.parts(), *tracks) {
                Some(number) => Some(BackRefusal::NoPart(number)),
                None => None,
            },
        }
    }

    /// The part that the object's question is about.
    fn ask_part(&self, ask: &O::Ask) -> Result<u32, O::AskRefusal> {
        self.object.ask_part(ask)
    }

    /// Does the object's call, with what the parts were kept beside them, or takes back the last call.
    fn apply<L: Ledger>(
        &self,
        alloc: Global,
        parts: &mut Vec<Kept<O::Part>>,
        step: &Step<O::Call>,
        steps: &mut Steps<L>,
    ) -> Result<BackDone<O::Done>, Fault<BackRefusal<O::Refusal>>> {
        match &step.act {
            Deed::Do(call) => do_call(alloc, &self.object, parts, call, step.by, steps),
            Deed::Back { tracks } => take_back::<O, L>(parts, *tracks, step.by, steps),
        }
    }

    /// Answers from the part as it is now.
    fn see(
        &self,
        alloc: Global,
        part: &Kept<O::Part>,
        ask: &O::Ask,
    ) -> Result<O::Seen, Fault<O::AskRefusal>> {
        self.object.see(alloc, &part.now, ask)
    }

    /// An equal part, with an equal former part where it has one.
    fn copy_part(&self, alloc: Global, part: &Kept<O::Part>) -> Result<Kept<O::Part>, Memory> {
        let now = self.object.copy_part(alloc, &part.now)?;
        match &part.before {
            Some(former) => Ok(Kept {
                now,
                before: Some(copy_former(alloc, &self.object, former)?),
            }),
            None => Ok(Kept { now, before: None }),
        }
    }

    /// An equal step of the same station.
    fn copy_call(&self, alloc: Global, step: &Step<O::Call>) -> Result<Step<O::Call>, Memory> {
        match &step.act {
            Deed::Do(call) => Ok(Step {
                by: step.by,
                act: Deed::Do(self.object.copy_call(alloc, call)?),
            }),
            Deed::Back { tracks } => Ok(Step {
                by: step.by,
                act: Deed::Back { tracks: *tracks },
            }),
        }
    }

    ghost named = { λ o. backed-named (O.count o.object) (O.meaning o.object) (O.named o.object) };

    ghost opening = { λ o. backed-opens (O.good o.object) (O.count o.object) (O.opens o.object)
        (O.opening o.object) };

    ghost stays_roomy = { λ o ps qs entries can legal comes. backed-roomy (O.meaning o.object)
        (O.good o.object) (O.count o.object) (O.opens o.object) (O.roomy o.object)
        (O.named o.object) (O.opening o.object) (O.stays_roomy o.object)
        ps qs entries can legal comes };
}
