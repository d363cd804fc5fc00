// What lies under the journal's lock.
ghost use Rattle.std.specs.Prelude.{◌≡◌, ◌<◌, ◌≤◌, ◌+◌, ℕ, List, Option, OnOk, OnErr, IfOk, IfErr, drop, take, length};
ghost use Rattle.room_core.specs.declared.entry.Entry.{Entry};
ghost use Rattle.edit_journal.specs.declared.name.Name.{Name};
ghost use Rattle.edit_journal.specs.declared.name.Name.TheVariants.{Part, Station};
ghost use Rattle.edit_journal.specs.Seats.{Opening, In};
ghost use Rattle.edit_journal.specs.Faults.{SaysNoPoint};
ghost use Rattle.edit_journal.specs.Turns.{Known, IsJournal, AllAgree, HasNames, Applies, StandsIn, gathered, given, entered, last_of};

use crate::seats::{Token, Words, append_entry, give_name, look, take};
use crate::{Name, Naming, PartSeat, Pass};
use room_core::{Entry, Memory, PartObject};
use std::alloc::Global;
use std::marker::{Model, PhantomData};

/// The most entries of a journal.
pub const MOST_ENTRIES: u32 = 100_000;

/// Why entries were not copied.
#[derive(Clone, Copy, Debug, PartialEq, Eq)]
pub enum CopyFault {
    /// There are fewer entries: so many.
    NoPoint(u32),
    /// There was no memory for the copies.
    Memory,
}

/// The entries, the last number of each station, and the seat of the journal.
#[derive(Drop)]
pub struct Log<O: PartObject, J: Naming<O, O::Part>> {
    pub(crate) entries: Vec<Entry<O::Call>>,
    // The greatest number of each station's entries, 0 before the first.
    pub(crate) lasts: Vec<u32>,
    // The journal's own seat, which has the names of all tokens that are not out.
    pub(crate) keeper: Token<O>,
    // Which journal it is of.
    pub(crate) of: PhantomData<J>,
}

impl<O: PartObject, J: Naming<O, O::Part>> Model for Log<O, J> {
    ghost use Rattle.std.specs.Prelude.{◌≡◌, ℕ, List, [], true, vec_capacity};
    ghost use Rattle.edit_journal.specs.Turns.{Open, open_of, IsKeptLog};

    ghost Value = { Open O O.Part O.Call × ℕ };

    ghost view = { λ l. (open_of l.keeper.me.0, vec_capacity l.entries) };

    ghost invariant = { λ l. (l.keeper.table_id ≡ J.table) × (l.keeper.me.0.keeps ≡ true)
        × (l.keeper.me.1 ≡ [])
        × (l.keeper.me.0.entries ≡ l.entries.items) × (l.keeper.me.0.opening ≡ J.opening)
        × IsKeptLog O.meaning O.opens J.stations (open_of l.keeper.me.0) l.lasts.items };
}

impl<O: PartObject, J: Naming<O, O::Part>> Log<O, J> {
    // Takes in the seat of a part: from then on entries may name the part.
    pub fn gather_seat(&mut self, words: &Words<O>, seat: PartSeat<O, J>)
        requires words { (words.now.shared.table_id ≡ J.table) × (J.table.words ≡ 1) }
        ensures at { self.new.0 ≡ gathered (Part seat.number) seat.opening seat.entries self.old.0 }
        ensures room { self.new.1 ≡ self.old.1 }
    {
        take(words, &mut self.keeper, seat.token);
    }

    // Takes in the pass of a station: from then on entries may be the station's.
    pub fn gather_pass(&mut self, words: &Words<O>, pass: Pass<O, J>)
        requires words { (words.now.shared.table_id ≡ J.table) × (J.table.words ≡ 1) }
        ensures at { self.new.0 ≡ gathered (Station pass.number) pass.opening pass.entries
            self.old.0 }
        ensures room { self.new.1 ≡ self.old.1 }
    {
        take(words, &mut self.keeper, pass.token);
    }

    // Takes a pass in for good. What it knew begins the journal, which has no entry more of its station.
    pub fn take_back(&mut self, words: &Words<O>, pass: Pass<O, J>)
        requires words { (words.now.shared.table_id ≡ J.table) × (J.table.words ≡ 1) }
        ensures agrees { StandsIn O.meaning J.opening self.old.0.entries
            (Station pass.number) pass.entries }
        ensures entries { self.new.0.entries ≡ self.old.0.entries }
    {
        self.gather_pass(words, pass);
        self.look(words);
    }

    // How many entries there are. They are a legal history of the opening, and what each gathered token knew begins
    // them and agrees with them on its name.
    pub fn look(&mut self, words: &Words<O>) -> u32
        requires words { (words.now.shared.table_id ≡ J.table) × (J.table.words ≡ 1) }
        ensures count { result ≡ length self.old.0.entries }
        ensures opening { self.old.0.opening ≡ J.opening }
        ensures journal { IsJournal O.meaning O.opens J.stations self.old.0.opening
            self.old.0.entries }
        ensures agree { AllAgree O.meaning self.old.0 }
        ensures same { self.new ≡ self.old }
    {
        look(words, &mut self.keeper);
        self.entries.len() as u32
    }

    // Gives out the seat of a part, which knows all entries that there are.
    pub fn give_seat(&mut self, words: &Words<O>, part: u32) -> PartSeat<O, J>
        requires words { (words.now.shared.table_id ≡ J.table) × (J.table.words ≡ 1) }
        requires has { In (Part part) self.old.0.names }
        ensures at { self.new.0 ≡ given (Part part) self.old.0 }
        ensures room { self.new.1 ≡ self.old.1 }
        ensures seat { (result.number ≡ part) × (result.opening ≡ self.old.0.opening)
            × (result.entries ≡ self.old.0.entries) }
    {
        let token = give_name(words, &mut self.keeper, Name::Part(part));
        PartSeat {
            part,
            token,
            of: PhantomData,
        }
    }

    // Gives out the pass of a station, which knows all entries that there are and its last number.
    pub fn give_pass(&mut self, words: &Words<O>, station: u32) -> Pass<O, J>
        requires words { (words.now.shared.table_id ≡ J.table) × (J.table.words ≡ 1) }
        requires has { In (Station station) self.old.0.names }
        ensures at { self.new.0 ≡ given (Station station) self.old.0 }
        ensures room { self.new.1 ≡ self.old.1 }
        ensures pass { (result.number ≡ station) × (result.opening ≡ self.old.0.opening)
            × (result.entries ≡ self.old.0.entries) }
    {
        let last = self.lasts[station as usize];
        let token = give_name(words, &mut self.keeper, Name::Station(station));
        Pass {
            station,
            last,
            token,
            of: PhantomData,
        }
    }

    // Makes room for one entry, so that adding it takes no memory.
    pub fn reserve(&mut self) -> Result<(), Memory>
        ensures at { self.new.0 ≡ self.old.0 }
        ensures ok { OnOk result (length self.new.0.entries < self.new.1) }
    {
        self.entries.reserve(1)?;
        Ok(())
    }

    // Adds an entry at the end, or hands it back where there are as many as there may be.
    pub fn append(&mut self, words: &Words<O>, entry: Entry<O::Call>) -> Result<u32, Entry<O::Call>>
        requires words { (words.now.shared.table_id ≡ J.table) × (J.table.words ≡ 1) }
        requires room { length self.old.0.entries < self.old.1 }
        requires names { HasNames O.meaning self.old.0 entry }
        requires above { last_of entry.station self.old.0.entries < entry.number }
        requires applies { Applies O.meaning self.old.0 entry }
        ensures ok { OnOk result (self.new ≡ (entered entry self.old.0, self.old.1)) }
        ensures place { IfOk result (λ n. (n ≡ length self.old.0.entries) × (n < 100000)) }
        ensures full { OnErr result (length self.old.0.entries ≡ 100000) }
        ensures back { IfErr result (λ e. e ≡ entry) }
        ensures err { OnErr result (self.new ≡ self.old) }
    {
        let place = self.entries.len() as u32;
        if place >= MOST_ENTRIES {
            return Err(entry);
        }
        append_entry(words, &mut self.keeper, place as u64, &entry);
        self.lasts[entry.station as usize] = entry.number;
        self.entries.push_reserved(entry);
        Ok(place)
    }

    // Copies of the entries from a place on, at most so many, or how many there are where that is past them.
    pub fn copy_from(
        &self,
        alloc: Global,
        object: &O,
        from: u32,
        most: u32,
    ) -> Result<Vec<Entry<O::Call>>, CopyFault>
        ensures ok { IfOk result (λ v. v.items ≡ take most (drop from self.now.0.entries)) }
        ensures within { OnOk result (from ≤ length self.now.0.entries) }
        ensures no_point { IfErr result (λ f. SaysNoPoint f from (length self.now.0.entries)) }
    {
        let count = self.entries.len() as u32;
        if from > count {
            return Err(CopyFault::NoPoint(count));
        }
        let (_, rest) = self.entries.split_at(from as usize);
        let wanted = most.min(count - from);
        Ok(copied(alloc, object, &rest[..wanted as usize])?)
    }

    // Copies of the first n entries, or how many there are where they are fewer.
    pub fn copy_to(
        &self,
        alloc: Global,
        object: &O,
        n: u32,
    ) -> Result<Vec<Entry<O::Call>>, CopyFault>
        ensures ok { IfOk result (λ v. v.items ≡ take n self.now.0.entries) }
        ensures within { OnOk result (n ≤ length self.now.0.entries) }
        ensures no_point { IfErr result (λ f. SaysNoPoint f n (length self.now.0.entries)) }
    {
        let count = self.entries.len() as u32;
        if n > count {
            return Err(CopyFault::NoPoint(count));
        }
        self.copy_from(alloc, object, 0, n)
    }
}

// Copies of these entries, in their order.
fn copied<O: PartObject>(
    alloc: Global,
    object: &O,
    entries: &[Entry<O::Call>],
) -> Result<Vec<Entry<O::Call>>, Memory>
    ensures { IfOk result (λ v. v.items ≡ entries.now) }
{
    let mut all = Vec::new(alloc);
    for entry in entries {
        let call = object.copy_call(alloc, &entry.call)?;
        all.push(Entry {
            station: entry.station,
            number: entry.number,
            call,
        })?;
    }
    Ok(all)
}

impl From<Memory> for CopyFault {
    ghost use Rattle.std.specs.Prelude.{◌≡◌};
    ghost use Rattle.edit_journal.specs.declared.log.CopyFault.TheVariants.{Memory as NoMemory};

    ghost from_gives = { λ _ e. e ≡ NoMemory };

    fn from(_: Memory) -> Self {
        CopyFault::Memory
    }
}
