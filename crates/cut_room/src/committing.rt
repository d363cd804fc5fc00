// Held parts and a pass at the journal.
ghost use Rattle.std.specs.Prelude.{◌≡◌, ◌<◌, ◌≤◌, ◌+◌, [], All, length, map};
ghost use Rattle.edit_journal.specs.declared.name.Name.TheVariants.{Part, Station};
ghost use Rattle.edit_journal.specs.Seats.{In};
ghost use Rattle.edit_journal.specs.Turns.{Applies, HasNames, last_of};
ghost use Rattle.track_locks.specs.Homes.{AreGoodAt, AreHomes};
ghost use Rattle.cut_room.specs.Gathered.{Appends, IsGathered};

use edit_journal::{Naming, Pass, Turn};
use room_core::{Entry, PartObject};
use std::alloc::Global;
use std::sync::Wait;
use track_locks::Held;

// What became of an entry: it stands at a place, or the journal had no room, or there was no memory.
#[derive(Clone, Copy, Debug, PartialEq, Eq)]
pub enum Appended {
    // It is the entry at this place, counted from 0.
    At(u32),
    // The journal has its most entries.
    Full,
    // There was no memory for the entry.
    Memory,
}

// Takes a pass and the seats of what is held to the journal, and answers how many entries it has.
pub fn gather<O: PartObject, J: Naming<O, O::Part>>(
    turn: &mut Turn<'_, O, J>,
    held: &mut Held<'_, O, J>,
    pass: Pass<O, J>,
) -> u32
    requires tokens { turn.old.tokens ≡ 0 }
    requires few { length held.old.numbers ≤ 32 }
    requires homes { AreHomes O.meaning O.opens J.opening held.old.numbers held.old.parts
        held.old.versions held.old.seats }
    ensures gathered { IsGathered O.meaning O.opens J.opening turn.new held.old pass }
    ensures count { result ≡ length turn.new.journal.entries }
    ensures seats { held.new ≡ record held.old { seats = [] } }
{
    turn.gather_pass(pass);
    held.take_seats(turn);
    turn.look()
}

// Adds an entry, or says why it was not added. The tokens stay at the journal.
pub fn append<O: PartObject, J: Naming<O, O::Part>>(
    alloc: Global,
    turn: &mut Turn<'_, O, J>,
    entry: Entry<O::Call>,
) -> Appended
    requires names { HasNames O.meaning turn.old.journal entry }
    requires above { last_of entry.station turn.old.journal.entries < entry.number }
    requires applies { Applies O.meaning turn.old.journal entry }
    ensures appends { Appends entry turn.old turn.new result }
    ensures same { (turn.new.journal.names ≡ turn.old.journal.names)
        × (turn.new.journal.opening ≡ turn.old.journal.opening) }
    ensures tokens { turn.new.tokens ≡ turn.old.tokens }
{
    match turn.reserve(alloc) {
        Ok(()) => {}
        Err(_) => return Appended::Memory,
    }
    match turn.append(entry) {
        Ok(point) => Appended::At(point),
        Err(_) => Appended::Full,
    }
}

// Takes the seats and the pass back. They know all entries that there are.
pub fn give_back<O: PartObject, J: Naming<O, O::Part>>(
    turn: &mut Turn<'_, O, J>,
    held: &mut Held<'_, O, J>,
    station: u32,
) -> Pass<O, J>
    requires taken { held.old.seats ≡ [] }
    requires parts { All (λ n. In (Part n) turn.old.journal.names) held.old.numbers }
    requires station { In (Station station) turn.old.journal.names }
    requires tokens { turn.old.tokens ≡ length held.old.numbers + 1 }

    ensures pass { (result.number ≡ station) × (result.opening ≡ turn.old.journal.opening)
        × (result.entries ≡ turn.old.journal.entries) }
    ensures tokens { turn.new.tokens ≡ 0 }
    ensures seats { map (λ s. s.number) held.new.seats ≡ held.old.numbers }
    ensures know { All (λ s. (s.opening ≡ turn.old.journal.opening)
        × (s.entries ≡ turn.old.journal.entries)) held.new.seats }
    ensures same { (held.new.numbers ≡ held.old.numbers) × (held.new.parts ≡ held.old.parts)
        × (held.new.versions ≡ held.old.versions) }
{
    held.give_seats(turn);
    turn.give_pass(station)
}

// Puts the parts that a committed call left in the places of those that are held, and everything back into its lock.
pub fn settle<O: PartObject, J: Naming<O, O::Part>, R: Wait>(
    rt: &R,
    mut held: Held<'_, O, J>,
    parts: Vec<O::Part>,
)
    requires homes { AreHomes O.meaning O.opens J.opening held.numbers parts.items
        (map (λ v. v + 1) held.versions) held.seats }
    requires good { AreGoodAt O.good J.opening held.numbers parts.items }
{
    held.put(parts);
    held.release(rt);
}
