// The journal's lock, and a turn at it.
ghost use Rattle.std.specs.Prelude.{◌≡◌, ◌<◌, ◌≤◌, ◌+◌, ℕ, List, OnOk, OnErr, IfOk, IfErr, drop, take, length};
ghost use Rattle.edit_journal.specs.declared.name.Name.TheVariants.{Part, Station};
ghost use Rattle.edit_journal.specs.Seats.{In};
ghost use Rattle.edit_journal.specs.Turns.{IsJournal, AllAgree, HasNames, Applies, gathered, given, entered, last_of};
ghost use Rattle.edit_journal.specs.Faults.{SaysNoPoint};

use crate::log::Log;
use crate::seats::Words;
use crate::{CopyFault, Naming, PartSeat, Pass};
use room_core::{Entry, Memory, PartObject};
use std::alloc::Global;
use std::marker::Model;
use std::sync::MutexGuard;

/// A turn at the journal. It has to be released, and as many tokens as it gathered have to be given back before.
pub struct Turn<'a, O: PartObject, J: Naming<O, O::Part>> {
    pub(crate) log: MutexGuard<'a, Log<O, J>>,
    pub(crate) words: &'a Words<O>,
    // How many tokens it has gathered and not given back.
    pub(crate) tokens: u32,
}

impl<'a, O: PartObject, J: Naming<O, O::Part>> Model for Turn<'a, O, J> {
    ghost use Rattle.std.specs.Prelude.{◌≡◌};
    ghost use Rattle.std.specs.Sync.Mutex.{mutex_guard_value};
    ghost use Rattle.edit_journal.specs.Turns.{AtJournal};

    ghost Value = { AtJournal O O.Part O.Call };

    ghost view = { λ t. record {
      journal = (mutex_guard_value t.log).0;
      room = (mutex_guard_value t.log).1;
      tokens = t.tokens;
    } };

    ghost invariant = { λ t. (t.words.now.shared.table_id ≡ J.table) × (J.table.words ≡ 1) };
}

impl<'a, O: PartObject, J: Naming<O, O::Part>> Turn<'a, O, J> {
    /// Takes in the seat of a part, so that entries may name the part in this turn.
    pub fn gather_seat(&mut self, seat: PartSeat<O, J>)
        requires tokens { self.old.tokens < 4294967295 }
        ensures at { self.new.journal ≡ gathered
            (Part seat.number) seat.opening seat.entries self.old.journal }
        ensures tokens { (self.new.tokens ≡ self.old.tokens + 1) × (self.new.room ≡ self.old.room) }
    {
        self.log.gather_seat(self.words, seat);
        self.tokens += 1;
    }

    /// Takes in the pass of a station, so that entries may be the station's in this turn.
    pub fn gather_pass(&mut self, pass: Pass<O, J>)
        requires tokens { self.old.tokens < 4294967295 }
        ensures at { self.new.journal ≡ gathered
            (Station pass.number) pass.opening pass.entries self.old.journal }
        ensures tokens { (self.new.tokens ≡ self.old.tokens + 1) × (self.new.room ≡ self.old.room) }
    {
        self.log.gather_pass(self.words, pass);
        self.tokens += 1;
    }

    /// How many entries there are. The journal is a legal history of its opening, and what each gathered token knew begins
    /// it and agrees with it on the token's name.
    pub fn look(&mut self) -> u32
        ensures count { result ≡ length self.old.journal.entries }
        ensures opening { self.old.journal.opening ≡ J.opening }
        ensures journal { IsJournal O.meaning O.opens J.stations self.old.journal.opening
            self.old.journal.entries }
        ensures agree { AllAgree O.meaning self.old.journal }
        ensures same { self.new ≡ self.old }
    {
        self.log.look(self.words)
    }

    /// Gives back the seat of a part that was gathered. It knows all entries that there are.
    pub fn give_seat(&mut self, part: u32) -> PartSeat<O, J>
        requires has { In (Part part) self.old.journal.names }
        requires tokens { 0 < self.old.tokens }
        ensures at { self.new.journal ≡ given (Part part) self.old.journal }
        ensures tokens { (self.new.tokens + 1 ≡ self.old.tokens) × (self.new.room ≡ self.old.room) }
        ensures seat { (result.number ≡ part) × (result.opening ≡ self.old.journal.opening)
            × (result.entries ≡ self.old.journal.entries) }
    {
        self.tokens -= 1;
        self.log.give_seat(self.words, part)
    }

    /// Gives back the pass of a station that was gathered. It knows all entries that there are.
    pub fn give_pass(&mut self, station: u32) -> Pass<O, J>
        requires has { In (Station station) self.old.journal.names }
        requires tokens { 0 < self.old.tokens }
        ensures at { self.new.journal ≡ given (Station station) self.old.journal }
        ensures tokens { (self.new.tokens + 1 ≡ self.old.tokens) × (self.new.room ≡ self.old.room) }
        ensures pass { (result.number ≡ station) × (result.opening ≡ self.old.journal.opening)
            × (result.entries ≡ self.old.journal.entries) }
    {
        self.tokens -= 1;
        self.log.give_pass(self.words, station)
    }

    /// Makes room for one entry, so that adding it takes no memory.
    pub fn reserve(&mut self, _alloc: Global) -> Result<(), Memory>
        ensures same { (self.new.journal ≡ self.old.journal) × (self.new.tokens ≡ self.old.tokens) }
        ensures ok { OnOk result (length self.new.journal.entries < self.new.room) }
    {
        self.log.reserve()
    }

    /// Adds an entry and answers its place. It is handed back where the journal has 100,000 entries.
    pub fn append(&mut self, entry: Entry<O::Call>) -> Result<u32, Entry<O::Call>>
        requires room { length self.old.journal.entries < self.old.room }
        requires names { HasNames O.meaning self.old.journal entry }
        requires above { last_of entry.station self.old.journal.entries < entry.number }
        requires applies { Applies O.meaning self.old.journal entry }

        // The entry is the last one, and its place is how many were there before.
        ensures ok { OnOk result (self.new.journal ≡ entered entry self.old.journal) }
        ensures place { IfOk result (λ n. (n ≡ length self.old.journal.entries) × (n < 100000)) }
        ensures tokens { self.new.tokens ≡ self.old.tokens }

        // A full journal takes none, and nothing has changed.
        ensures full { OnErr result (length self.old.journal.entries ≡ 100000) }
        ensures back { IfErr result (λ e. e ≡ entry) }
        ensures err { OnErr result (self.new ≡ self.old) }
    {
        self.log.append(self.words, entry)
    }

    /// Copies of the entries from `from` on, the first `most` where there are more, or how many there are where `from`
    /// is past them.
    pub fn entries(
        &self,
        alloc: Global,
        object: &O,
        from: u32,
        most: u32,
    ) -> Result<Vec<Entry<O::Call>>, CopyFault>
        ensures ok { IfOk result (λ v. v.items ≡ take most (drop from self.now.journal.entries)) }
        ensures within { OnOk result (from ≤ length self.now.journal.entries) }
        ensures no_point { IfErr result
            (λ f. SaysNoPoint f from (length self.now.journal.entries)) }
    {
        self.log.copy_from(alloc, object, from, most)
    }

    /// Copies of the first `n` entries, or how many there are where they are fewer.
    pub fn copy_to(
        &self,
        alloc: Global,
        object: &O,
        n: u32,
    ) -> Result<Vec<Entry<O::Call>>, CopyFault>
        ensures ok { IfOk result (λ v. v.items ≡ take n self.now.journal.entries) }
        ensures within { OnOk result (n ≤ length self.now.journal.entries) }
        ensures no_point { IfErr result (λ f. SaysNoPoint f n (length self.now.journal.entries)) }
    {
        self.log.copy_to(alloc, object, n)
    }

    /// Ends the turn, so that others get theirs. All that was gathered has been given back.
    pub fn release(self)
        requires { self.tokens ≡ 0 }
    {
        let Turn {
            log,
            words: _,
            tokens: _,
        } = self;
        drop(log);
    }
}
