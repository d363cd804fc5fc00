// The numbers of the parts that a call names.
ghost use Rattle.std.specs.Prelude.{◌≡◌, ◌≤◌, ℕ, List, None, IfOk};
ghost use Rattle.room_core.specs.Parts.{AscendBetween};
ghost use Rattle.room_core.specs.Whole.{set_of};

use room_core::{Memory, PartObject};
use std::alloc::Global;

// The numbers of a set, in ascending order.
fn numbers_in(alloc: Global, set: u32) -> Result<Vec<u32>, Memory>
    ensures { IfOk result (λ v. (names : List ℕ) → AscendBetween 0 32 names → set_of names ≡ set
        → v.items ≡ names) }
{
    let mut numbers = Vec::new(alloc);
    let mut left = set;
    for number in 0..32u32 {
        if left % 2 == 1 {
            numbers.push(number)?;
        }
        left /= 2;
    }
    Ok(numbers)
}

/// The numbers of the parts that a call names, in ascending order.
pub(crate) fn named_parts<O: PartObject>(
    alloc: Global,
    object: &O,
    call: &O::Call,
) -> Result<Vec<u32>, Memory>
    requires named { (O.meaning object.now).refuses call.now ≡ None }
    requires count { O.count object.now ≤ 32 }
    ensures { IfOk result (λ v. v.items ≡ (O.meaning object.now).names call.now) }
{
    numbers_in(alloc, object.names(call))
}
