// Parts whose locks were taken.
ghost use Rattle.std.specs.Prelude.{◌≡◌, ◌<◌, ◌≤◌, ◌+◌, ℕ, List, [], length, map, slice_get, All, IfOk, Some};
ghost use Rattle.std.specs.List.{filter_map};
ghost use Rattle.room_core.specs.Parts.{AscendBetween, numbers as numbers_from};
ghost use Rattle.edit_journal.specs.declared.name.Name.TheVariants.{Part};
ghost use Rattle.edit_journal.specs.Seats.{In};
ghost use Rattle.track_locks.specs.Homes.{AreGoodAt, AreHomes, CanGive, all_gathered, all_given};

use crate::home::{Home, Place};
use crate::room::HeldHome;
use crate::tracks::Tracks;
use edit_journal::{Naming, Turn};
use room_core::{Memory, PartObject};
use std::alloc::Global;
use std::marker::Model;
use std::sync::Wait;

/// Parts that are held. It has to be released, with its seats in it.
pub struct Held<'a, O: PartObject, J: Naming<O, O::Part>> {
    // The locks that they were taken from.
    pub(crate) tracks: &'a Tracks<O, J>,
    // In ascending order of their numbers.
    pub(crate) homes: Vec<HeldHome<O, J>>,
}

impl<'a, O: PartObject, J: Naming<O, O::Part>> Model for Held<'a, O, J> {
    ghost use Rattle.std.specs.Prelude.{map};
    ghost use Rattle.std.specs.List.{filter_map};
    ghost use Rattle.room_core.specs.Parts.{AscendBetween};
    ghost use Rattle.track_locks.specs.Homes.{HeldParts};

    ghost Value = { HeldParts O O.Part O.Call };

    ghost view = { λ h. record {
      numbers = map (λ e. e.number) h.homes.items;
      parts = map (λ e. e.part) h.homes.items;
      versions = map (λ e. e.version) h.homes.items;
      seats = filter_map (λ e. e.seat) h.homes.items;
    } };

    ghost invariant = { λ h. AscendBetween 0 h.tracks.now (map (λ e. e.number) h.homes.items) };
}

impl<'a, O: PartObject, J: Naming<O, O::Part>> Held<'a, O, J> {
    /// Copies of the parts, on which a call can be tried.
    pub fn copy(&self, alloc: Global, object: &O) -> Result<Vec<O::Part>, Memory>
        ensures { IfOk result (λ v. v.items ≡ self.now.parts) }
    {
        copied(alloc, object, &self.homes)
    }

    /// One of the parts, as it is held.
    pub fn part(&self, index: usize) -> &O::Part
        requires there { index < length self.now.parts }
        ensures value { slice_get self.now.parts index ≡ Some result.now }
    {
        &self.homes[index].part
    }

    /// Takes the seats to the journal, the last first.
    pub fn take_seats(&mut self, turn: &mut Turn<'_, O, J>)
        requires tokens { turn.old.tokens + length self.old.seats < 4294967296 }
        ensures seats { self.new ≡ record self.old { seats = [] } }
        ensures journal { turn.new.journal ≡ all_gathered self.old.seats turn.old.journal }
        ensures tokens { (turn.new.tokens ≡ turn.old.tokens + length self.old.seats)
            × (turn.new.room ≡ turn.old.room) }
    {
        gather_all(&mut self.homes, turn);
    }

    /// Takes the seats back, which were gathered. They know all entries that there are.
    pub fn give_seats(&mut self, turn: &mut Turn<'_, O, J>)
        requires taken { self.old.seats ≡ [] }
        requires names { All (λ n. In (Part n) turn.old.journal.names) self.old.numbers }
        requires tokens { length self.old.numbers ≤ turn.old.tokens }

        // The seats are out again, and nothing else of what is held has changed.
        ensures journal { turn.new.journal ≡ all_given self.old.numbers turn.old.journal }
        ensures tokens { (turn.new.tokens + length self.old.numbers ≡ turn.old.tokens)
            × (turn.new.room ≡ turn.old.room) }
        ensures seats { map (λ s. s.number) self.new.seats ≡ self.old.numbers }
        ensures know { All (λ s. (s.opening ≡ turn.old.journal.opening)
            × (s.entries ≡ turn.old.journal.entries)) self.new.seats }
        ensures same { (self.new.numbers ≡ self.old.numbers) × (self.new.parts ≡ self.old.parts)
            × (self.new.versions ≡ self.old.versions) }
    {
        give_all(&mut self.homes, turn);
    }

    /// Puts parts in the places of those that are held, after a commit, when the seats are back: each is what the entries
    /// that its seat knows come to, and one entry more names it.
    pub fn put(&mut self, parts: Vec<O::Part>)
        requires { AreHomes O.meaning O.opens J.opening self.old.numbers parts.items
            (map (λ v. v + 1) self.old.versions) self.old.seats }
        ensures { self.new ≡ record self.old {
          parts = parts.items;
          versions = map (λ v. v + 1) self.old.versions;
        } }
    {
        put_parts(&mut self.homes, parts);
    }

    /// Puts each part with its seat back into its lock. No clause says that it is found there again.
    pub fn release<R: Wait>(self, rt: &R)
        requires homes { AreHomes O.meaning O.opens J.opening self.numbers self.parts self.versions
            self.seats }
        requires good { AreGoodAt O.good J.opening self.numbers self.parts }
    {
        let Held { tracks, homes } = self;
        put_back(rt, &tracks.places, homes);
    }
}

// Equal parts, in their order.
fn copied<O: PartObject, J: Naming<O, O::Part>>(
    alloc: Global,
    object: &O,
    homes: &[HeldHome<O, J>],
) -> Result<Vec<O::Part>, Memory>
    ensures { IfOk result (λ v. v.items ≡ map (λ h. h.part) homes.now) }
{
    let mut all = Vec::with_capacity(alloc, homes.len())?;
    for home in homes {
        let part = object.copy_part(alloc, &home.part)?;
        all.push_reserved(part);
    }
    Ok(all)
}

// Takes the seats to the journal, the last first. Each home keeps its place.
fn gather_all<O: PartObject, J: Naming<O, O::Part>>(
    homes: &mut [HeldHome<O, J>],
    turn: &mut Turn<'_, O, J>,
)
    requires tokens { turn.old.tokens + length (filter_map (λ h. h.seat) homes.old) < 4294967296 }
    ensures seats { filter_map (λ h. h.seat) homes.new ≡ [] }
    ensures numbers { map (λ h. h.number) homes.new ≡ map (λ h. h.number) homes.old }
    ensures parts { map (λ h. h.part) homes.new ≡ map (λ h. h.part) homes.old }
    ensures versions { map (λ h. h.version) homes.new ≡ map (λ h. h.version) homes.old }
    ensures journal { turn.new.journal ≡ all_gathered (filter_map (λ h. h.seat) homes.old)
        turn.old.journal }
    ensures tokens { (turn.new.tokens
        ≡ turn.old.tokens + length (filter_map (λ h. h.seat) homes.old))
        × (turn.new.room ≡ turn.old.room) }
{
    for index in (0..homes.len()).rev() {
        match homes[index].take_seat() {
            Some(seat) => turn.gather_seat(seat),
            None => {}
        }
    }
}

// Takes from the journal the seat of each home, the first first.
fn give_all<O: PartObject, J: Naming<O, O::Part>>(
    homes: &mut [HeldHome<O, J>],
    turn: &mut Turn<'_, O, J>,
)
    requires empty { filter_map (λ h. h.seat) homes.old ≡ [] }
    requires names { CanGive (map (λ h. h.number) homes.old) turn.old.journal.names }
    requires tokens { length homes.old ≤ turn.old.tokens }
    ensures journal { turn.new.journal
        ≡ all_given (map (λ h. h.number) homes.old) turn.old.journal }
    ensures tokens { (turn.new.tokens + length homes.old ≡ turn.old.tokens)
        × (turn.new.room ≡ turn.old.room) }
    ensures seats { map (λ s. s.number) (filter_map (λ h. h.seat) homes.new)
        ≡ map (λ h. h.number) homes.old }
    ensures know { All (λ s. (s.opening ≡ turn.old.journal.opening)
        × (s.entries ≡ turn.old.journal.entries)) (filter_map (λ h. h.seat) homes.new) }
    ensures numbers { map (λ h. h.number) homes.new ≡ map (λ h. h.number) homes.old }
    ensures parts { map (λ h. h.part) homes.new ≡ map (λ h. h.part) homes.old }
    ensures versions { map (λ h. h.version) homes.new ≡ map (λ h. h.version) homes.old }
{
    for index in 0..homes.len() {
        let seat = turn.give_seat(homes[index].number);
        homes[index].put_seat(seat);
    }
}

// Puts parts in the places of those that are held, and raises each version by one, as by an entry that names all of them.
fn put_parts<O: PartObject, J: Naming<O, O::Part>>(
    homes: &mut [HeldHome<O, J>],
    mut parts: Vec<O::Part>,
)
    requires each { length parts.items ≡ length homes.old }
    requires few { All (λ v. v < 4294967295) (map (λ h. h.version) homes.old) }
    ensures parts { map (λ h. h.part) homes.new ≡ parts.items }
    ensures versions { map (λ h. h.version) homes.new
        ≡ map (λ v. v + 1) (map (λ h. h.version) homes.old) }
    ensures numbers { map (λ h. h.number) homes.new ≡ map (λ h. h.number) homes.old }
    ensures seats { filter_map (λ h. h.seat) homes.new ≡ filter_map (λ h. h.seat) homes.old }
{
    while let Some(part) = parts.pop() {
        homes[parts.len()].renew(part);
    }
}

// Puts each part with its seat and its version into its lock, the last first.
fn put_back<O: PartObject, J: Naming<O, O::Part>, R: Wait>(
    rt: &R,
    places: &[Place<O, J>],
    mut homes: Vec<HeldHome<O, J>>,
)
    requires places { places.now ≡ numbers_from 0 (length places.now) }
    requires within { All (λ n. n < length places.now) (map (λ h. h.number) homes.items) }
    requires homes { AreHomes O.meaning O.opens J.opening (map (λ h. h.number) homes.items)
        (map (λ h. h.part) homes.items) (map (λ h. h.version) homes.items)
        (filter_map (λ h. h.seat) homes.items) }
    requires good { AreGoodAt O.good J.opening (map (λ h. h.number) homes.items)
        (map (λ h. h.part) homes.items) }
{
    while let Some(held) = homes.pop() {
        let HeldHome {
            number,
            part,
            version,
            seat,
        } = held;
        match seat {
            Some(seat) => {
                let home = Home {
                    part,
                    seat,
                    version,
                };
                places[number as usize].give(rt, home);
            }
            None => unreachable!(),
        }
    }
}
