// The locks of all parts.
ghost use Rattle.std.specs.Prelude.{◌≡◌, ◌≤◌, [], IfOk, Some, length, map, vec_capacity};
ghost use Rattle.std.specs.Int.RustNames.{count_ones};
ghost use Rattle.std.specs.List.{filter_map};
ghost use Rattle.edit_journal.specs.Turns.{AreFresh};
ghost use Rattle.track_locks.specs.Homes.{AreGoodAt, AreHomes, members};

use crate::held::Held;
use crate::home::{Home, Place};
use crate::room::{HeldHome, Room, room_for};
use edit_journal::{Naming, PartSeat};
use room_core::{Memory, PartObject};
use std::alloc::Global;
use std::marker::Model;
use std::sync::Wait;

/// The lock of each part, by its number. Contracts see how many there are.
#[derive(Drop)]
pub struct Tracks<O: PartObject, J: Naming<O, O::Part>> {
    // The lock of part n at index n.
    pub(crate) places: Vec<Place<O, J>>,
}

impl<O: PartObject, J: Naming<O, O::Part>> Model for Tracks<O, J> {
    ghost use Rattle.std.specs.Prelude.{◌≡◌, ℕ, ◌≤◌, vec_len};
    ghost use Rattle.room_core.specs.Parts.{numbers};

    ghost Value = { ℕ };

    ghost view = { λ t. vec_len t.places };

    ghost invariant = { λ t. (vec_len t.places ≤ 32)
        × (t.places.items ≡ numbers 0 (vec_len t.places)) };
}

impl<O: PartObject, J: Naming<O, O::Part>> Tracks<O, J> {
    /// A lock for each part of the journal's opening, with its part and its seat in it.
    pub fn new(
        alloc: Global,
        object: &O,
        parts: Vec<O::Part>,
        seats: Vec<PartSeat<O, J>>,
    ) -> Result<Tracks<O, J>, Memory>
        requires opening { J.opening ≡ Some (object.now, parts.items) }
        requires opens { O.opens object.now parts.items }
        requires seats { AreFresh J.opening (length parts.items) seats.items }
        ensures count { IfOk result (λ t. t ≡ length parts.items) }
    {
        let mut places = Vec::new(alloc);
        let mut left = parts.into_iter();
        for seat in seats {
            match left.next() {
                Some(part) => {
                    let home = Home {
                        part,
                        seat,
                        version: 0,
                    };
                    places.push(Place::new(home))?;
                }
                None => {}
            }
        }
        Ok(Tracks { places })
    }

    /// Waits for the locks of the parts of a set, bit n for the part n, and holds these parts, in ascending order. The memory
    /// is taken before the first lock, so that an `Err` holds none. No clause says that the locks are taken in this order.
    pub fn hold<R: Wait>(&self, rt: &R, alloc: Global, set: u32) -> Result<Held<'_, O, J>, Memory>
        ensures numbers { IfOk result (λ h. h.numbers ≡ members self.now set) }
        ensures few { IfOk result (λ h. length h.numbers ≤ 32) }
        ensures homes { IfOk result
            (λ h. AreHomes O.meaning O.opens J.opening h.numbers h.parts h.versions h.seats) }
        ensures good { IfOk result (λ h. AreGoodAt O.good J.opening h.numbers h.parts) }
    {
        let room = room_for(alloc, set.count_ones() as usize)?;
        Ok(self.take_in(rt, room, set))
    }

    // Takes the locks of the parts of a set, and holds what was in them. It is handed no allocator.
    fn take_in<R: Wait>(&self, rt: &R, room: Room<O, J>, set: u32) -> Held<'_, O, J>
        requires none { room.homes.items ≡ [] }
        requires room { vec_capacity room.homes ≡ count_ones set }
        ensures numbers { result.numbers ≡ members self.now set }
        ensures few { length result.numbers ≤ 32 }
        ensures homes { AreHomes O.meaning O.opens J.opening result.numbers result.parts
            result.versions result.seats }
        ensures good { AreGoodAt O.good J.opening result.numbers result.parts }
    {
        let mut room = room;
        take_each(rt, &self.places, set, &mut room);
        Held {
            tracks: self,
            homes: room.into_homes(),
        }
    }
}

// Takes the locks of the parts of a set, one after another, and each home into the room. Nothing that it is handed has an
// allocator to give, so it can't ask for memory while it holds a lock.
fn take_each<O: PartObject, J: Naming<O, O::Part>, R: Wait>(
    rt: &R,
    places: &[Place<O, J>],
    set: u32,
    room: &mut Room<O, J>,
)
    requires few { length places.now ≤ 32 }
    requires none { room.old.homes.items ≡ [] }
    requires room { vec_capacity room.old.homes ≡ count_ones set }
    ensures numbers { map (λ h. h.number) room.new.homes.items ≡ members (length places.now) set }
    ensures homes { AreHomes O.meaning O.opens J.opening (map (λ h. h.number) room.new.homes.items)
        (map (λ h. h.part) room.new.homes.items) (map (λ h. h.version) room.new.homes.items)
        (filter_map (λ h. h.seat) room.new.homes.items) }
    ensures good { AreGoodAt O.good J.opening (map (λ h. h.number) room.new.homes.items)
        (map (λ h. h.part) room.new.homes.items) }
{
    for (number, place) in places.iter().enumerate() {
        if (set >> number as u32) % 2 == 1 {
            let Home {
                part,
                seat,
                version,
            } = place.take(rt, number as u32);
            room.put(HeldHome {
                number: number as u32,
                part,
                version,
                seat: Some(seat),
            });
        }
    }
}
