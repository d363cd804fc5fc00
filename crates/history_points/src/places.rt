// The parts of an object, each in its place, and taken out of it while a call changes them.
ghost use Rattle.std.specs.Prelude.{◌≡◌, ◌+◌, ◌<◌, ◌≤◌, ℕ, [], Some, All, IfOk, map, length};
ghost use Rattle.std.specs.Vec.{vec_len, vec_capacity};
ghost use Rattle.room_core.specs.Parts.{AscendBetween};
ghost use Rattle.room_core.specs.Whole.{picked, put_back};
ghost use Rattle.history_points.specs.Slots.{present, emptied, IsWhole};

use room_core::Memory;
use std::alloc::Global;
use std::marker::Model;

/// The parts of an object, each in its place. Contracts see them as a list.
#[derive(Drop)]
pub struct Places<P> {
    pub(crate) slots: Vec<Option<P>>,
}

impl<P> Model for Places<P> {
    ghost use Rattle.std.specs.Prelude.{List};
    ghost use Rattle.history_points.specs.Slots.{present, IsWhole};

    ghost Value = { List P };

    ghost view = { λ places. present places.slots.items };

    ghost invariant = { λ places. IsWhole places.slots.items };
}

impl<P: Drop> Places<P> {
    /// These parts, in their order.
    pub fn of(alloc: Global, parts: Vec<P>) -> Result<Places<P>, Memory>
        ensures { IfOk result (λ places. places ≡ parts.items) }
    {
        let mut slots = Vec::new(alloc);
        for part in parts {
            slots.push(Some(part))?;
        }
        Ok(Places { slots })
    }

    /// The parts, in their order, in a list that is made for them.
    pub fn into_vec(self, alloc: Global) -> Result<Vec<P>, Memory>
        ensures { IfOk result (λ parts. parts.items ≡ self) }
    {
        let slots = self.slots;
        let mut parts = Vec::new(alloc);
        for slot in slots {
            match slot {
                Some(part) => parts.push(part)?,
                None => unreachable!(),
            }
        }
        Ok(parts)
    }
}

/// Takes the parts with these numbers out of their places, which are empty until `put_in` fills them again.
pub(crate) fn take_out<P: Drop>(slots: &mut Vec<Option<P>>, names: &[u32], named: &mut Vec<P>)
    requires whole { IsWhole slots.old.items }
    requires names { AscendBetween 0 (length slots.old.items) names.now }
    requires room { vec_len named.old + length names.now ≤ vec_capacity named.old }
    requires empty { named.old.items ≡ [] }
    ensures named { named.new.items ≡ picked (present slots.old.items) names.now }
    ensures left { slots.new.items ≡ emptied slots.old.items names.now }
{
    for name in names {
        match slots[*name as usize].take() {
            Some(part) => named.push_reserved(part),
            None => unreachable!(),
        }
    }
}

/// Puts parts into the places with these numbers.
pub(crate) fn put_in<P: Drop>(slots: &mut Vec<Option<P>>, names: &[u32], named: Vec<P>)
    requires within { All (λ n. n < length slots.old.items) names.now }
    requires as_many { length named.items ≡ length names.now }
    ensures { slots.new.items ≡ put_back slots.old.items names.now (map Some named.items) }
{
    let mut at = 0;
    for part in named {
        slots[names[at] as usize] = Some(part);
        at += 1;
    }
}
