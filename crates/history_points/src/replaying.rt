// The parts that a history comes to.
ghost use Rattle.std.specs.Prelude.{◌≡◌, ◌≤◌, ◌<◌, IfOk, length};
ghost use Rattle.room_core.specs.Parts.{AreGood, numbers};
ghost use Rattle.history_points.specs.Reached.{IsReached};
ghost use Rattle.history_points.specs.Replays.{Replays};

use crate::{Places, ReplayFault, apply_in_place};
use room_core::{Entry, Fault, Memory, PartObject};
use std::alloc::Global;
use std::marker::Brand;
use std::sync::ledger::{Blank, Ledger};
use step_count::Steps;

/// Equal parts, in their order.
pub fn copy_parts<O: PartObject>(
    alloc: Global,
    object: &O,
    parts: &[O::Part],
) -> Result<Vec<O::Part>, Memory>
    ensures { IfOk result (λ copies. copies.items ≡ parts.now) }
{
    let mut copies = Vec::new(alloc);
    for part in parts {
        copies.push(object.copy_part(alloc, part)?)?;
    }
    Ok(copies)
}

// Does the first `n` entries on copies of the parts, as `replay` says, with their steps counted in
// a ledger of the call.
fn replay_counted<O: PartObject, L: Ledger>(
    blank: Blank,
    alloc: Global,
    object: &O,
    from: &[O::Part],
    entries: &[Entry<O::Call>],
    n: u32,
) -> Result<Vec<O::Part>, ReplayFault>
    requires blank { (blank.name ≡ L.name) × (blank.parts ≡ L.parts) × (0 < blank.parts) }
    requires from { IsReached (O.meaning object.now) (O.opens object.now) n from.now }
    requires good { AreGood (O.good object.now) (numbers 0 (O.count object.now)) from.now }
    requires within { n ≤ length entries.now }
    ensures replays { Replays (O.meaning object.now) from.now entries.now n result }
    ensures good { IfOk result (λ parts. AreGood (O.good object.now)
        (numbers 0 (O.count object.now)) parts.items) }
{
    let mut steps = Steps::<L>::new(blank);
    let mut parts = Places::of(alloc, copy_parts(alloc, object, from)?)?;
    for k in 0..n {
        let call = &entries[k as usize].call;
        match apply_in_place(alloc, object, &mut parts, call, &mut steps) {
            Ok(_) => {}
            Err(Fault::Refused(_)) => return Err(ReplayFault::Refused(k)),
            Err(Fault::Memory) => return Err(ReplayFault::Memory),
        }
    }
    Ok(parts.into_vec(alloc)?)
}

/// The parts after the first `n` entries, done one after another on parts that a history of an opening comes to, as the
/// opening itself; or the first of these entries that does not apply. The numbers that the entries bear do not matter.
pub fn replay<O: PartObject>(
    alloc: Global,
    object: &O,
    from: &[O::Part],
    entries: &[Entry<O::Call>],
    n: u32,
) -> Result<Vec<O::Part>, ReplayFault>
    requires from { IsReached (O.meaning object.now) (O.opens object.now) n from.now }
    requires good { AreGood (O.good object.now) (numbers 0 (O.count object.now)) from.now }
    requires within { n ≤ length entries.now }
    ensures replays { Replays (O.meaning object.now) from.now entries.now n result }
    ensures good { IfOk result (λ parts. AreGood (O.good object.now)
        (numbers 0 (O.count object.now)) parts.items) }
{
    replay_counted::<O, Brand>(Blank::new(1), alloc, object, from, entries, n)
}
