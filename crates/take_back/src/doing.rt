// A call that is done on parts, with what they were before kept.
ghost use Rattle.std.specs.Prelude.{◌≡◌, ◌≤◌, ◌<◌, ◌+◌, ◌*◌, None, IfOk, All, length, sum_by, false};
ghost use Rattle.room_core.specs.Calls.{AnswersCall};
ghost use Rattle.room_core.specs.Parts.{AreGood};
ghost use Rattle.room_core.specs.Whole.{set_of};
ghost use Rattle.take_back.specs.declared.kept.Kept.{Kept as KeptPart};
ghost use Rattle.take_back.specs.Parts.{changed, changed_by, nows, IsGoodKept};
ghost use Rattle.take_back.specs.Steps.{done_by};

use crate::{BackDone, BackRefusal, Former, Kept, nows_of};
use room_core::{Fault, PartObject};
use std::alloc::Global;
use std::mem::replace;
use std::sync::ledger::Ledger;
use step_count::Steps;

// Gives a part what a call left of it, and keeps what it was, with the parts that the call named and its station.
fn change<P: Drop>(kept: &mut Kept<P>, part: P, names: u32, by: u32)
    ensures { kept.new ≡ changed_by names by kept.old part }
{
    let part = replace(&mut kept.now, part);
    kept.before = Some(Former { part, names, by });
}

// Gives each part what a call left of it, and keeps what it was.
fn change_all<P: Drop>(parts: &mut Vec<Kept<P>>, left: Vec<P>, names: u32, by: u32)
    requires as_many { length left.items ≡ length parts.old.items }
    ensures { parts.new.items ≡ changed names by parts.old.items left.items }
{
    let mut at = 0;
    for part in left {
        change(&mut parts[at], part, names, by);
        at += 1;
    }
}

// Does a call on the parts that it names. Each is copied once: the copy is changed, and the part itself is kept as what
// it was.
pub(crate) fn do_call<O: PartObject, L: Ledger>(
    alloc: Global,
    object: &O,
    parts: &mut Vec<Kept<O::Part>>,
    call: &O::Call,
    by: u32,
    steps: &mut Steps<L>,
) -> Result<BackDone<O::Done>, Fault<BackRefusal<O::Refusal>>>
    requires named { (O.meaning object.now).refuses call.now ≡ None }
    requires good { AreGood (IsGoodKept (O.good object.now))
        ((O.meaning object.now).names call.now) parts.old.items }
    requires roomy { All (λ (k : KeptPart O.Part). O.roomy object.now k.now) parts.old.items }
    ensures meant { AnswersCall false (done_by (set_of ((O.meaning object.now).names call.now)) by
        parts.old.items ((O.meaning object.now).applied (nows parts.old.items) call.now))
        parts.old.items parts.new.items result }
    ensures good { AreGood (IsGoodKept (O.good object.now))
        ((O.meaning object.now).names call.now) parts.new.items }
    ensures least { steps.old + 1 ≤ steps.new }
    ensures most { steps.new ≤ steps.old + 32 * sum_by
        (λ (k : KeptPart O.Part). O.size k.now + 64) parts.old.items }
{
    let mut left = match nows_of(alloc, object, parts) {
        Ok(copies) => copies,
        Err(_) => {
            steps.tick();
            return Err(Fault::Memory);
        }
    };
    let done = match object.apply(alloc, &mut left, call, steps) {
        Ok(done) => done,
        Err(Fault::Refused(refusal)) => return Err(Fault::Refused(BackRefusal::Own(refusal))),
        Err(Fault::Memory) => return Err(Fault::Memory),
    };
    change_all(parts, left, object.names(call), by);
    Ok(BackDone::Own(done))
}
