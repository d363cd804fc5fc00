// The parts that a call names, copied out of all and put back.
ghost use Rattle.std.specs.Prelude.{◌≡◌, ◌<◌, All, IfOk, length};
ghost use Rattle.part_sets.specs.Members.{members};
ghost use Rattle.room_core.specs.Whole.{picked, put_back};

use part_sets::has;
use room_core::{Memory, PartObject};
use std::alloc::Global;

// The numbers of a set, in ascending order.
pub(crate) fn members(alloc: Global, set: u32) -> Result<Vec<u32>, Memory>
    ensures { IfOk result (λ numbers. numbers.items ≡ members set) }
{
    let mut numbers = Vec::new(alloc);
    for number in 0..32 {
        if has(set, number) {
            numbers.push(number)?;
        }
    }
    Ok(numbers)
}

// Equal parts to those with these numbers.
pub(crate) fn copy_named<O: PartObject>(
    alloc: Global,
    object: &O,
    parts: &[O::Part],
    names: &[u32],
) -> Result<Vec<O::Part>, Memory>
    requires within { All (λ n. n < length parts.now) names.now }
    ensures { IfOk result (λ named. named.items ≡ picked parts.now names.now) }
{
    let mut named = Vec::new(alloc);
    for name in names {
        named.push(object.copy_part(alloc, &parts[*name as usize])?)?;
    }
    Ok(named)
}

// Puts parts into the places with these numbers.
pub(crate) fn put_in<P: Drop>(parts: &mut Vec<P>, names: &[u32], named: Vec<P>)
    requires within { All (λ n. n < length parts.old.items) names.now }
    requires as_many { length named.items ≡ length names.now }
    ensures { parts.new.items ≡ put_back parts.old.items names.now named.items }
{
    let mut at = 0;
    for part in named {
        parts[names[at] as usize] = part;
        at += 1;
    }
}
