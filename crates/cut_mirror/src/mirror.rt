// A mirror: an object, the entries of a room that were taken so far, and the parts that they come to.
ghost use Rattle.std.specs.Prelude.{◌≡◌, ◌≢◌, ℕ, List, [], true, false, OnOk, length};
ghost use Rattle.cut_mirror.specs.Following.{GoesOn};
ghost use Rattle.cut_mirror.specs.Mirrors.{IsMirrorOf, Takes};

use crate::MirrorFault;
use crate::calls::apply;
use crate::numbers::is_above;
use room_core::{Entry, Fault, PartObject};
use std::alloc::Global;
use std::marker::Model;

// The most entries of a history.
const MOST_ENTRIES: u32 = 100_000;

/// A mirror of a room. Contracts see its object, its entries and its parts.
#[derive(Drop)]
pub struct Mirror<O: PartObject> {
    object: O,
    entries: Vec<Entry<O::Call>>,
    parts: Vec<O::Part>,
}

impl<O: PartObject> Model for Mirror<O> {
    ghost use Rattle.std.specs.Prelude.{List};
    ghost use Rattle.room_core.specs.Parts.{AreGood, numbers};
    ghost use Rattle.cut_mirror.specs.Mirrors.{Mirrored, IsMirrorOf};

    ghost Value = { Mirrored O O.Part O.Call };

    ghost view = { λ m.
        record { object = m.object; entries = m.entries.items; parts = m.parts.items } };

    ghost invariant = { λ m. AreGood (O.good m.object) (numbers 0 (O.count m.object)) m.parts.items
        × (opening : List O.Part) × IsMirrorOf O.meaning O.opens opening
        (record { object = m.object; entries = m.entries.items; parts = m.parts.items }) };
}

// Whether two entries have one station, one number and one call.
fn is_same<C: Eq>(a: &Entry<C>, b: &Entry<C>) -> bool
    requires equality { (x y : C) → C.PartialEq.eq x y ≡ true → x ≡ y }
    ensures same { result ≡ true → a.now ≡ b.now }
    ensures other { result ≡ false → a.now ≢ b.now }
{
    a.station == b.station && a.number == b.number && a.call == b.call
}

impl<O: PartObject + Drop> Mirror<O> {
    /// A mirror of a room with this opening, which has taken no entry yet.
    pub fn open(alloc: Global, object: O, parts: Vec<O::Part>) -> Mirror<O>
        requires opens { O.opens object parts.items }
        ensures object { result.object ≡ object }
        ensures entries { result.entries ≡ [] }
        ensures mirror { IsMirrorOf O.meaning O.opens parts.items result }
    {
        Mirror {
            object,
            entries: Vec::new(alloc),
            parts,
        }
    }

    /// How many entries it has taken, which is the place of the next one.
    pub fn point(&self) -> u32
        ensures point { result ≡ length self.now.entries }
        ensures mirror { (opening : List O.Part) × IsMirrorOf O.meaning O.opens opening self.now }
    {
        self.entries.len() as u32
    }

    /// The parts that the entries come to that it has taken.
    pub fn parts(&self) -> &[O::Part]
        ensures parts { result.now ≡ self.now.parts }
        ensures mirror { (opening : List O.Part) × IsMirrorOf O.meaning O.opens opening self.now }
    {
        &self.parts
    }

    /// Takes the entry at a place of the room's history. One that it has taken there before changes nothing. Two calls
    /// that are equal must be one call.
    pub fn take(
        &mut self,
        alloc: Global,
        place: u32,
        entry: Entry<O::Call>,
    ) -> Result<(), MirrorFault>
    where
        O::Call: Eq,
        requires equality { (x y : O.Call) → O.Call.PartialEq.eq x y ≡ true → x ≡ y }
        ensures takes { Takes (O.meaning self.old.object) self.old place entry self.new result }
        ensures goes_on { OnOk result (GoesOn self.old.entries place entry self.new.entries) }
        ensures object { self.new.object ≡ self.old.object }
        ensures mirror { (opening : List O.Part) → IsMirrorOf O.meaning O.opens opening self.old
            → IsMirrorOf O.meaning O.opens opening self.new }
    {
        let point = self.point();
        if place > point {
            return Err(MirrorFault::Gap(point));
        }
        if place == point {
            return self.add(alloc, entry);
        }
        if is_same(&self.entries[place as usize], &entry) {
            Ok(())
        } else {
            Err(MirrorFault::Differs(place))
        }
    }

    // Takes the entry at the point, which goes on with the history. Where it does not, nothing has changed.
    fn add(&mut self, alloc: Global, entry: Entry<O::Call>) -> Result<(), MirrorFault>
        ensures takes { Takes (O.meaning self.old.object) self.old (length self.old.entries) entry
            self.new result }
    {
        let place = self.point();
        if place == MOST_ENTRIES {
            return Err(MirrorFault::Full);
        }
        if !is_above(&self.entries, entry.station, entry.number) {
            return Err(MirrorFault::Late(place));
        }
        self.entries.reserve(1)?;
        match apply(alloc, &self.object, &mut self.parts, &entry.call) {
            Ok(_) => {}
            Err(Fault::Refused(_)) => return Err(MirrorFault::Refused(place)),
            Err(Fault::Memory) => return Err(MirrorFault::Memory),
        }
        self.entries.push_reserved(entry);
        Ok(())
    }
}
