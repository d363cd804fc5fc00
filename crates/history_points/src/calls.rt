// One call on all parts of an object.
ghost use Rattle.std.specs.Prelude.{◌≡◌, ◌+◌, ◌*◌, ◌≤◌, None, OnOk, All, sum_by};
ghost use Rattle.room_core.specs.Parts.{AreGood, numbers};
ghost use Rattle.room_core.specs.Whole.{picked, whole};
ghost use Rattle.history_points.specs.InPlace.{AnswersInPlace};
ghost use Rattle.history_points.specs.Slots.{present, IsWhole};

use crate::Places;
use crate::naming::named_parts;
use crate::places::{put_in, take_out};
use room_core::{Fault, PartObject};
use std::alloc::Global;
use std::sync::ledger::Ledger;
use step_count::Steps;

// Does a call on the parts that it names, which are taken out of their places and put back, changed or not.
fn apply_named<O: PartObject, L: Ledger>(
    alloc: Global,
    object: &O,
    slots: &mut Vec<Option<O::Part>>,
    names: &[u32],
    call: &O::Call,
    steps: &mut Steps<L>,
) -> Result<O::Done, Fault<O::Refusal>>
    requires named { (O.meaning object.now).refuses call.now ≡ None }
    requires names { names.now ≡ (O.meaning object.now).names call.now }
    requires whole { IsWhole slots.old.items }
    requires good { AreGood (O.good object.now) (numbers 0 (O.count object.now))
        (present slots.old.items) }
    requires roomy { All (O.roomy object.now) (present slots.old.items) }
    ensures whole { IsWhole slots.new.items }
    ensures meant { AnswersInPlace (whole (O.meaning object.now) (present slots.old.items) call.now)
        (present slots.old.items) (present slots.new.items) result }
    ensures good { AreGood (O.good object.now) (numbers 0 (O.count object.now))
        (present slots.new.items) }
    ensures least { OnOk result (steps.old + 1 ≤ steps.new) }
    ensures most { steps.new ≤ steps.old + 32 * sum_by
        (λ p. O.size p + 64) (picked (present slots.old.items) names.now) }
{
    let mut named = Vec::with_capacity(alloc, names.len())?;
    take_out(slots, names, &mut named);
    let result = object.apply(alloc, &mut named, call, steps);
    put_in(slots, names, named);
    result
}

/// Does a call on all parts, of which it changes those that it names, in their places. Where it does not do the call
/// nothing has changed.
pub fn apply_in_place<O: PartObject, L: Ledger>(
    alloc: Global,
    object: &O,
    parts: &mut Places<O::Part>,
    call: &O::Call,
    steps: &mut Steps<L>,
) -> Result<O::Done, Fault<O::Refusal>>
    requires count { O.count object.now ≤ 32 }
    requires good { AreGood (O.good object.now) (numbers 0 (O.count object.now)) parts.old }
    requires roomy { All (O.roomy object.now) parts.old }
    ensures meant { AnswersInPlace (whole (O.meaning object.now) parts.old call.now) parts.old
        parts.new result }
    ensures good { AreGood (O.good object.now) (numbers 0 (O.count object.now)) parts.new }
    ensures least { OnOk result (steps.old + 1 ≤ steps.new) }
    ensures most { steps.new ≤ steps.old + 32 * sum_by
        (λ p. O.size p + 64) (picked parts.old ((O.meaning object.now).names call.now)) }
{
    match object.refuse_names(call) {
        Some(refusal) => return Err(Fault::Refused(refusal)),
        None => {}
    }
    let names = named_parts(alloc, object, call)?;
    apply_named(alloc, object, &mut parts.slots, &names, call, steps)
}
