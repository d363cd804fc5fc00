// A call on all parts of an object, done on copies of those that it names.
ghost use Rattle.std.specs.Prelude.{◌≡◌, ◌≤◌, ◌<◌, None, All, IfOk, false};
ghost use Rattle.room_core.specs.Calls.{AnswersCall};
ghost use Rattle.room_core.specs.History.{answer_in};
ghost use Rattle.room_core.specs.Parts.{AreGood, numbers};
ghost use Rattle.room_core.specs.Whole.{whole};
ghost use Rattle.cut_mirror.specs.Foretelling.{Foretells};

use crate::parts::{copy_named, members, put_in};
use room_core::{Fault, Memory, PartObject};
use std::alloc::Global;
use std::marker::Brand;
use std::sync::ledger::{Blank, Ledger};
use step_count::Steps;

// The numbers of the parts that a call names, in ascending order.
fn named_by<O: PartObject>(alloc: Global, object: &O, call: &O::Call) -> Result<Vec<u32>, Memory>
    requires named { (O.meaning object.now).refuses call.now ≡ None }
    requires count { O.count object.now ≤ 32 }
    ensures { IfOk result (λ v. v.items ≡ (O.meaning object.now).names call.now) }
{
    members(alloc, object.names(call))
}

// Does a call on copies of the parts with these numbers, with its steps counted, and puts what
// it leaves in their places.
fn apply_named<O: PartObject, L: Ledger>(
    blank: Blank,
    alloc: Global,
    object: &O,
    parts: &mut Vec<O::Part>,
    names: &[u32],
    call: &O::Call,
) -> Result<O::Done, Fault<O::Refusal>>
    requires blank { (blank.name ≡ L.name) × (blank.parts ≡ L.parts) × (0 < blank.parts) }
    requires named { (O.meaning object.now).refuses call.now ≡ None }
    requires names { names.now ≡ (O.meaning object.now).names call.now }
    requires good { AreGood (O.good object.now) (numbers 0 (O.count object.now)) parts.old.items }
    requires roomy { All (O.roomy object.now) parts.old.items }
    ensures meant { AnswersCall false (whole (O.meaning object.now) parts.old.items call.now)
        parts.old.items parts.new.items result }
    ensures good { AreGood (O.good object.now) (numbers 0 (O.count object.now)) parts.new.items }
{
    let mut steps = Steps::<L>::new(blank);
    let mut named = copy_named(alloc, object, parts, names)?;
    let done = match object.apply(alloc, &mut named, call, &mut steps) {
        Ok(done) => done,
        Err(fault) => return Err(fault),
    };
    put_in(parts, names, named);
    Ok(done)
}

// Does a call on all parts, of which it changes those that it names. Where it does not do the call nothing has changed.
pub(crate) fn apply<O: PartObject>(
    alloc: Global,
    object: &O,
    parts: &mut Vec<O::Part>,
    call: &O::Call,
) -> Result<O::Done, Fault<O::Refusal>>
    requires count { O.count object.now ≤ 32 }
    requires good { AreGood (O.good object.now) (numbers 0 (O.count object.now)) parts.old.items }
    requires roomy { All (O.roomy object.now) parts.old.items }
    ensures meant { AnswersCall false (whole (O.meaning object.now) parts.old.items call.now)
        parts.old.items parts.new.items result }
    ensures good { AreGood (O.good object.now) (numbers 0 (O.count object.now)) parts.new.items }
{
    match object.refuse_names(call) {
        Some(refusal) => return Err(Fault::Refused(refusal)),
        None => {}
    }
    let names = named_by(alloc, object, call)?;
    apply_named::<O, Brand>(Blank::new(1), alloc, object, parts, &names, call)
}

// What a call on copies of the parts with these numbers answers, with its steps counted. What it leaves is let go.
fn answer_named<O: PartObject, L: Ledger>(
    blank: Blank,
    alloc: Global,
    object: &O,
    parts: &[O::Part],
    names: &[u32],
    call: &O::Call,
) -> Result<O::Done, Fault<O::Refusal>>
    requires blank { (blank.name ≡ L.name) × (blank.parts ≡ L.parts) × (0 < blank.parts) }
    requires named { (O.meaning object.now).refuses call.now ≡ None }
    requires names { names.now ≡ (O.meaning object.now).names call.now }
    requires good { AreGood (O.good object.now) (numbers 0 (O.count object.now)) parts.now }
    requires roomy { All (O.roomy object.now) parts.now }
    ensures { Foretells (answer_in (whole (O.meaning object.now) parts.now call.now)) result }
{
    let mut steps = Steps::<L>::new(blank);
    let mut named = copy_named(alloc, object, parts, names)?;
    object.apply(alloc, &mut named, call, &mut steps)
}

// What a call on all parts would answer, which stay as they are.
pub(crate) fn answer<O: PartObject>(
    alloc: Global,
    object: &O,
    parts: &[O::Part],
    call: &O::Call,
) -> Result<O::Done, Fault<O::Refusal>>
    requires count { O.count object.now ≤ 32 }
    requires good { AreGood (O.good object.now) (numbers 0 (O.count object.now)) parts.now }
    requires roomy { All (O.roomy object.now) parts.now }
    ensures { Foretells (answer_in (whole (O.meaning object.now) parts.now call.now)) result }
{
    match object.refuse_names(call) {
        Some(refusal) => return Err(Fault::Refused(refusal)),
        None => {}
    }
    let names = named_by(alloc, object, call)?;
    answer_named::<O, Brand>(Blank::new(1), alloc, object, parts, &names, call)
}
