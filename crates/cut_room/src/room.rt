// A room of many stations: an object, the locks of its parts, and its journal.
ghost use Rattle.std.specs.Prelude.{◌≡◌, ◌≢◌, ◌<◌, ◌≤◌, [], ◌∷◌, ℕ, None, Some, Ok, All, IfOk, length, map};
ghost use Rattle.out_of_memory.specs.Answers.{Tells};
ghost use Rattle.room_core.specs.History.{IsLegal};
ghost use Rattle.room_core.specs.Parts.{AreGood, numbers};
ghost use Rattle.room_core.specs.Whole.{set_of, whole};
ghost use Rattle.edit_journal.specs.declared.name.Name.TheVariants.{Station};
ghost use Rattle.edit_journal.specs.Seats.{Agrees, In};
ghost use Rattle.edit_journal.specs.Turns.{AreFresh, last_of};
ghost use Rattle.track_locks.specs.Homes.{AreGoodAt, AreHomes};
ghost use Rattle.cut_room.specs.Gathered.{ComesTo};
ghost use Rattle.cut_room.specs.Rooms.{Edited, IsAtPoint, Looked, TakesAtMost, stood_before};

mod cuts;
mod excerpts;
mod standing;

use crate::committing::{Appended, append, gather, give_back, settle};
use crate::keeping::{Kept, without_last};
use crate::{Answer, Sight};
use edit_journal::{Beginning, Blank, Journal, MOST_ENTRIES, Naming, Pass};
use history_points::copy_parts;
use room_core::{Entry, Fault, Memory, PartObject};
use room_ports::Gate;
use std::alloc::Global;
use std::marker::Model;
use std::sync::ledger::Ledger;
use std::sync::{Mutex, Wait};
use step_count::Steps;
use track_locks::{Held, Tracks};

/// A room that is not open yet: its object, its parts, how many stations it is to have, and the table of its journal.
/// Contracts see the journal's table, opening and counts, and the room's count of stations.
#[derive(Drop)]
pub struct RoomBlank<O: PartObject> {
    object: O,
    parts: Vec<O::Part>,
    stations: u32,
    blank: Blank<O>,
}

impl<O: PartObject> Model for RoomBlank<O> {
    ghost use Rattle.std.specs.Prelude.{◌≡◌, ◌+◌, Some, length};
    ghost use Rattle.cut_room.specs.Opened.{Unopened};

    ghost Value = { Unopened O O.Part };

    ghost view = { λ b. record { journal = b.blank; stations = b.stations } };

    ghost invariant = { λ b. (b.blank.opening ≡ Some (b.object, b.parts.items))
        × O.opens b.object b.parts.items × (b.blank.parts ≡ length b.parts.items)
        × (b.blank.stations ≡ b.stations + 1) };
}

impl<O: PartObject + Drop> RoomBlank<O> {
    /// A room over these parts, for so many stations, that is not open yet. Its journal has a station more, which adds no
    /// entry: the room keeps its pass beside the cuts that it keeps.
    pub fn new(
        alloc: Global,
        object: O,
        parts: Vec<O::Part>,
        stations: u32,
    ) -> Result<RoomBlank<O>, Memory>
        requires opens { O.opens object parts.items }
        requires stations { (0 < stations) × (stations ≤ 64) }
        ensures opening { IfOk result (λ b. b.journal.opening ≡ Some (object, parts.items)) }
        ensures stations { IfOk result (λ b. b.stations ≡ stations) }
    {
        let beginning = Beginning {
            part_count: object.parts(),
            station_count: stations + 1,
            object,
            parts,
        };
        let blank = Blank::new(alloc, &beginning);
        let Beginning {
            object,
            parts,
            part_count: _,
            station_count: _,
        } = beginning;
        Ok(RoomBlank {
            object,
            parts,
            stations,
            blank: blank?,
        })
    }
}

/// A room of many stations. Contracts see the object's value, the parts that it opened with, and how many stations it has.
#[derive(Drop)]
pub struct Room<O: PartObject, J: Naming<O, O::Part>> {
    object: O,
    opening: Vec<O::Part>,
    stations: u32,
    journal: Journal<O, J>,
    tracks: Tracks<O, J>,
    kept: Mutex<Kept<O, J>>,
}

impl<O: PartObject, J: Naming<O, O::Part>> Model for Room<O, J> {
    ghost use Rattle.std.specs.Prelude.{◌≡◌, ◌+◌, Some, length};
    ghost use Rattle.cut_room.specs.Opened.{Opened};

    ghost Value = { Opened O O.Part };

    ghost view = { λ r. record {
      object = r.object;
      parts = r.opening.items;
      stations = r.stations;
    } };

    ghost invariant = { λ r. (J.opening ≡ Some (r.object, r.opening.items))
        × O.opens r.object r.opening.items
        × (r.tracks ≡ length r.opening.items)
        × (J.stations ≡ r.stations + 1) };
}

impl<O: PartObject + Drop, J: Naming<O, O::Part>> Room<O, J> {
    /// Opens a room, with a pass for each station, in ascending order.
    pub fn open(alloc: Global, blank: RoomBlank<O>) -> Result<(Room<O, J>, Vec<Pass<O, J>>), Memory>
        requires table { J.table ≡ blank.journal.table }
        requires opening { J.opening ≡ blank.journal.opening }
        requires stations { J.stations ≡ blank.journal.stations }
        ensures room { IfOk result (λ r. J.opening ≡ Some (r.0.object, r.0.parts)) }
        ensures stations { IfOk result (λ r. r.0.stations ≡ blank.stations) }
        ensures passes { IfOk result (λ r. AreFresh J.opening blank.stations r.1.items) }
    {
        let RoomBlank {
            object,
            parts,
            stations,
            blank,
        } = blank;
        let opening = copy_parts(alloc, &object, &parts)?;
        let (journal, seats, passes) = Journal::open(alloc, blank)?;
        let (passes, last) = without_last(passes);
        let tracks = Tracks::new(alloc, &object, parts, seats)?;
        let kept = Mutex::new(Kept::new(alloc, last));
        let room = Room {
            object,
            opening,
            stations,
            journal,
            tracks,
            kept,
        };
        Ok((room, passes))
    }

    /// The object that the room stands over.
    pub fn object(&self) -> &O
        ensures { result.now ≡ self.now.object }
    {
        &self.object
    }

    /// How many entries the journal has, all of which the pass knows then.
    pub fn point<R: Wait>(&self, rt: &R, pass: Pass<O, J>) -> (Pass<O, J>, u32)
        ensures at { IsAtPoint (O.meaning self.now.object) self.now.parts pass result.0 result.1 }
    {
        let station = pass.station();
        let mut turn = self.journal.lock(rt);
        turn.gather_pass(pass);
        let point = turn.look();
        let pass = turn.give_pass(station);
        turn.release();
        (pass, point)
    }

    /// Does a call of a station under a number above its last, and puts it into the journal. After each answer but `Done`
    /// the station has no entry more. The gate is called once where the call applies, before it is put into the journal; no
    /// clause speaks of it.
    pub fn edit<R: Wait, G: Gate, L: Ledger>(
        &self,
        rt: &R,
        alloc: Global,
        pass: Pass<O, J>,
        number: u32,
        call: O::Call,
        gate: &G,
        steps: &mut Steps<L>,
    ) -> (Pass<O, J>, Answer<O>)
        requires number { last_of pass.number pass.entries < number }
        ensures edited { Edited (O.meaning self.now.object) self.now.parts
            (record { station = pass.number; number = number; call = call }) pass result.0
            result.1 }
        ensures most { TakesAtMost (O.meaning self.now.object) self.now.parts O.size call
            (stood_before result.0.entries result.1) steps.old steps.new }
        ensures names { (O.meaning self.now.object).refuses call ≢ None → steps.new ≡ steps.old }
    {
        match self.object.refuse_names(&call) {
            Some(refusal) => {
                let (pass, point) = self.point(rt, pass);
                return (pass, Answer::Refused { point, refusal });
            }
            None => {}
        }
        let set = self.object.names(&call);
        let station = pass.station();
        let entry = Entry {
            station,
            number,
            call,
        };
        match self.tracks.hold(rt, alloc, set) {
            Ok(held) => self.edit_held(rt, alloc, held, pass, entry, gate, steps),
            Err(Memory) => (pass, Answer::Memory),
        }
    }

    // Does the call of an entry on copies of the parts that are held for it, commits it where it applies,
    // and lets the parts go.
    fn edit_held<R: Wait, G: Gate, L: Ledger>(
        &self,
        rt: &R,
        alloc: Global,
        mut held: Held<'_, O, J>,
        pass: Pass<O, J>,
        entry: Entry<O::Call>,
        gate: &G,
        steps: &mut Steps<L>,
    ) -> (Pass<O, J>, Answer<O>)
        requires named { (O.meaning self.now.object).refuses entry.call ≡ None }
        requires numbers { held.numbers ≡ (O.meaning self.now.object).names entry.call }
        requires homes { AreHomes O.meaning O.opens J.opening held.numbers held.parts held.versions
            held.seats }
        requires good { AreGoodAt O.good J.opening held.numbers held.parts }
        requires few { length held.numbers ≤ 32 }
        requires station { entry.station ≡ pass.number }
        requires number { last_of pass.number pass.entries < entry.number }
        ensures edited { Edited (O.meaning self.now.object) self.now.parts entry
            pass result.0 result.1 }
        ensures most { TakesAtMost (O.meaning self.now.object) self.now.parts O.size entry.call
            (stood_before result.0.entries result.1) steps.old steps.new }
    {
        let mut parts = match held.copy(alloc, &self.object) {
            Ok(parts) => parts,
            Err(Memory) => {
                held.release(rt);
                return (pass, Answer::Memory);
            }
        };
        match self.object.apply(alloc, &mut parts, &entry.call, steps) {
            Ok(done) => {
                gate.at_commit(entry.station);
                self.commit(rt, alloc, held, parts, pass, entry, done)
            }
            Err(fault) => {
                let (pass, point) = self.look(rt, &mut held, pass);
                held.release(rt);
                match fault {
                    Fault::Refused(refusal) => (pass, Answer::Refused { point, refusal }),
                    Fault::Memory => (pass, Answer::Memory),
                }
            }
        }
    }

    // Puts an entry into the journal whose call left these parts of those that are held. The call was done on what the
    // entries known to their seats come to; after all entries that stand at the turn it leaves and answers just that,
    // since no entry that came meanwhile has named these parts. It then puts the parts back as the call left them or,
    // where there is no room for the entry, as they were.
    fn commit<R: Wait>(
        &self,
        rt: &R,
        alloc: Global,
        mut held: Held<'_, O, J>,
        parts: Vec<O::Part>,
        pass: Pass<O, J>,
        entry: Entry<O::Call>,
        done: O::Done,
    ) -> (Pass<O, J>, Answer<O>)
        // The parts that the call names are held, as the entries come to them that their seats know.
        requires named { (O.meaning self.now.object).refuses entry.call ≡ None }
        requires numbers { held.numbers ≡ (O.meaning self.now.object).names entry.call }
        requires homes { AreHomes O.meaning O.opens J.opening held.numbers held.parts held.versions
            held.seats }
        requires good { AreGoodAt O.good J.opening held.numbers held.parts }
        requires few { length held.numbers ≤ 32 }

        // The entry is the next one of the pass's station.
        requires station { entry.station ≡ pass.number }
        requires number { last_of pass.number pass.entries < entry.number }

        // Its call, done on what is held, left these parts and this answer.
        requires applies { (O.meaning self.now.object).applied held.parts entry.call
            ≡ Ok (parts.items, done) }
        requires good_now { AreGood (O.good self.now.object) held.numbers parts.items }

        // The answer is that of an edit, and what was held is what the entries before its point come to.
        ensures edited { Edited (O.meaning self.now.object) self.now.parts entry
            pass result.0 result.1 }
        ensures parts { ComesTo (O.meaning self.now.object) self.now.parts
            (stood_before result.0.entries result.1) held.entry.numbers held.entry.parts }
    {
        let station = pass.station();
        let mut turn = self.journal.lock(rt);
        gather(&mut turn, &mut held, pass);
        let appended = append(alloc, &mut turn, entry);
        let pass = give_back(&mut turn, &mut held, station);
        turn.release();
        match appended {
            Appended::At(point) => {
                settle(rt, held, parts);
                (pass, Answer::Done { point, done })
            }
            Appended::Full => {
                held.release(rt);
                let point = MOST_ENTRIES;
                (pass, Answer::Full { point })
            }
            Appended::Memory => {
                held.release(rt);
                (pass, Answer::Memory)
            }
        }
    }

    // Looks at the journal with a pass and what is held, which stays held.
    fn look<R: Wait>(
        &self,
        rt: &R,
        held: &mut Held<'_, O, J>,
        pass: Pass<O, J>,
    ) -> (Pass<O, J>, u32)
        requires homes { AreHomes O.meaning O.opens J.opening held.old.numbers held.old.parts
            held.old.versions held.old.seats }
        requires few { length held.old.numbers ≤ 32 }
        ensures at { IsAtPoint (O.meaning self.now.object) self.now.parts pass result.0 result.1 }
        ensures parts { ComesTo (O.meaning self.now.object) self.now.parts result.0.entries
            held.new.numbers held.new.parts }
        ensures same { (held.new.numbers ≡ held.old.numbers)
            × (held.new.parts ≡ held.old.parts) }
        ensures homes { AreHomes O.meaning O.opens J.opening held.new.numbers held.new.parts
            held.new.versions held.new.seats }
    {
        let station = pass.station();
        let mut turn = self.journal.lock(rt);
        let point = gather(&mut turn, held, pass);
        let pass = give_back(&mut turn, held, station);
        turn.release();
        (pass, point)
    }

    /// What a question is answered by the part that it is about, as it is at the point. The part is not copied: its lock
    /// is held while the answer is made, and the journal's is not.
    pub fn see<R: Wait>(
        &self,
        rt: &R,
        alloc: Global,
        pass: Pass<O, J>,
        ask: &O::Ask,
    ) -> (Pass<O, J>, Sight<O>)
        ensures looked { Looked (O.meaning self.now.object) self.now.parts
            (O.asked self.now.object ask.now) (λ p. O.seen self.now.object p ask.now)
            pass result.0 result.1 }
    {
        let part = match self.object.ask_part(ask) {
            Ok(part) => part,
            Err(refusal) => {
                let (pass, point) = self.point(rt, pass);
                return (pass, Sight::Refused { point, refusal });
            }
        };
        let mut held = match self.hold_one(rt, alloc, part) {
            Ok(held) => held,
            Err(Memory) => return (pass, Sight::Memory),
        };
        let (pass, point) = self.look(rt, &mut held, pass);
        let seen = self.see_held(alloc, &held, ask);
        held.release(rt);
        match seen {
            Ok(seen) => (pass, Sight::Seen { point, seen }),
            Err(fault) => match fault {
                Fault::Refused(refusal) => (pass, Sight::Refused { point, refusal }),
                Fault::Memory => (pass, Sight::Memory),
            },
        }
    }

    // Waits for the lock of one part, and holds that part alone.
    fn hold_one<R: Wait>(&self, rt: &R, alloc: Global, part: u32) -> Result<Held<'_, O, J>, Memory>
        requires { part < O.count self.now.object }
        ensures numbers { IfOk result (λ h. h.numbers ≡ part ∷ []) }
        ensures homes { IfOk result (λ h. AreHomes O.meaning O.opens J.opening h.numbers h.parts
            h.versions h.seats) }
        ensures good { IfOk result (λ h. AreGoodAt O.good J.opening h.numbers h.parts) }
    {
        let held = self.tracks.hold(rt, alloc, set_of_one(part))?;
        Ok(held)
    }

    // What a question is answered by the part that is held for it.
    fn see_held(
        &self,
        alloc: Global,
        held: &Held<'_, O, J>,
        ask: &O::Ask,
    ) -> Result<O::Seen, Fault<O::AskRefusal>>
        requires { (n : ℕ) × (O.asked self.now.object ask.now ≡ Ok n)
            × AreGood (O.good self.now.object) (n ∷ []) held.now.parts }
        ensures { (p : O.Part) × (held.now.parts ≡ p ∷ []) × Tells
            (O.seen self.now.object p ask.now) result }
    {
        self.object.see(alloc, held.part(0), ask)
    }

    /// Ends the room, with the passes of all its stations, and gives the journal's entries.
    pub fn close(self, passes: Vec<Pass<O, J>>) -> Vec<Entry<O::Call>>
        requires all { (s : ℕ) → s < self.stations → In s (map (λ p. p.number) passes.items) }
        ensures legal { IsLegal (whole (O.meaning self.object)) self.parts result.items }
        ensures passes { All (λ p. Agrees (O.meaning self.object).names result.items
            (Station p.number) p.entries) passes.items }
        ensures stations { All (λ e. In e.station (map (λ p. p.number) passes.items)) result.items }
    {
        let Room {
            object: _,
            opening: _,
            stations: _,
            journal,
            tracks: _,
            kept,
        } = self;
        let last = kept.into_inner().into_pass();
        journal.close_with(passes, last)
    }
}

// The set of one part, bit n for the part n.
fn set_of_one(part: u32) -> u32
    ensures { result ≡ set_of (part ∷ []) }
{
    if part < 32 { 1 << part } else { 0 }
}
