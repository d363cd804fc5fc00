// The machine of many stations over counters, written out: it keeps what has been committed, the counters, and for each
// the station that holds it.
ghost use Rattle.std.specs.Prelude.{◌≡◌, ◌≤◌, ◌⊎◌, ℕ, [], ◌∷◌, None, Some, Ok, IfOk, IfSome, IsErr, OnOk, OnErr, slice_get, slice_set, if◌then◌else◌};
ghost use Rattle.room_core.specs.Machine.{Commit, committed, held_as, is_above, is_free, is_held_by, opened, step};
ghost use Rattle.room_core.specs.Totals.{both_more, counters};
ghost use Rattle.room_core.specs.Whole.{whole};
ghost use Rattle.test_counters.specs.Stations.{event_of, IsCommit};

use crate::Counters;
use room_core::{Entry, Memory, PartObject};
use std::alloc::Global;
use std::marker::Model;

// The most entries of a journal.
const MOST_ENTRIES: usize = 100_000;

/// What a station does: it takes a counter, commits a call under a number of its own, or gives a counter back.
#[derive(Clone, Copy, Debug, PartialEq, Eq)]
pub enum Event {
    /// Takes a counter that nobody holds.
    Take {
        station: u32,
        part: u32,
    },
    /// Does a call on counters that it holds, under a number above its last.
    Commit {
        station: u32,
        number: u32,
        call: (u32, u32),
    },
    /// Gives back a counter that it holds.
    Give {
        station: u32,
        part: u32,
    },
}

/// What stations have done to counters. Contracts see the machine.
#[derive(Drop)]
pub struct Stations {
    history: Vec<Entry<(u32, u32)>>,
    parts: Vec<u32>,
    holders: Vec<Option<u32>>,
}

impl Model for Stations {
    ghost use Rattle.std.specs.Prelude.{ℕ};
    ghost use Rattle.room_core.specs.Machine.{Machine};

    ghost Value = { Machine ℕ (ℕ × ℕ) };

    ghost view = { λ m. record {
      history = m.history.items;
      parts = m.parts.items;
      holders = m.holders.items;
    } };
}

impl Stations {
    /// The machine over these counters, of which nothing is committed and nothing is held.
    pub fn of(alloc: Global, parts: Vec<u32>) -> Result<Stations, Memory>
        ensures { IfOk result (λ m. m ≡ opened parts.items) }
    {
        let mut holders = Vec::new(alloc);
        for _ in &parts {
            holders.push(None)?;
        }
        Ok(Stations {
            history: Vec::new(alloc),
            parts,
            holders,
        })
    }

    /// What has been committed, in order.
    pub fn history(&self) -> &[Entry<(u32, u32)>]
        ensures { result.now ≡ self.now.history }
    {
        &self.history
    }

    /// The counters.
    pub fn parts(&self) -> &[u32]
        ensures { result.now ≡ self.now.parts }
    {
        &self.parts
    }

    /// For each counter the station that holds it.
    pub fn holders(&self) -> &[Option<u32>]
        ensures { result.now ≡ self.now.holders }
    {
        &self.holders
    }

    // Whether a counter is there and nobody holds it.
    fn is_free(&self, part: u32) -> bool
        ensures { result ≡ is_free (slice_get self.now.holders part) }
    {
        match self.holders.get(part as usize) {
            Some(Some(_)) => false,
            Some(None) => true,
            None => false,
        }
    }

    // Whether a counter is there and this station holds it.
    fn is_held_by(&self, station: u32, part: u32) -> bool
        ensures { result ≡ is_held_by station (slice_get self.now.holders part) }
    {
        match self.holders.get(part as usize) {
            Some(Some(holder)) => *holder == station,
            Some(None) => false,
            None => false,
        }
    }

    // Whether a number is above all that the station has used.
    fn is_above(&self, station: u32, number: u32) -> bool
        ensures { result ≡ is_above station number self.now.history }
    {
        self.history
            .iter()
            .all(|entry| entry.station != station || entry.number < number)
    }

    // Gives a counter that is free to a station; one that is not stays.
    fn take(&mut self, station: u32, part: u32)
        ensures { self.new ≡ (if is_free (slice_get self.old.holders part)
            then held_as self.old part (Some station) else self.old) }
    {
        if self.is_free(part) {
            self.holders[part as usize] = Some(station);
        }
    }

    // Frees a counter that the station holds; one that it does not hold stays.
    fn give(&mut self, station: u32, part: u32)
        ensures { self.new ≡ (if is_held_by station (slice_get self.old.holders part)
            then held_as self.old part None else self.old) }
    {
        if self.is_held_by(station, part) {
            self.holders[part as usize] = None;
        }
    }

    // Does a call on all counters and enters it, or changes nothing where it is refused.
    fn commit_held(&mut self, object: &Counters, entry: Entry<(u32, u32)>) -> Result<(), Memory>
        ensures ok { OnOk result (self.new ≡ committed self.old entry
            (whole (counters object.now.count object.now.most) self.old.parts entry.call)) }
        ensures err { OnErr result (self.new ≡ self.old) }
    {
        let counter = entry.call.0;
        match sums(object, &self.parts, &entry.call) {
            Some((total, sum)) => {
                self.history.push(entry)?;
                self.parts[0] = total;
                self.parts[counter as usize] = sum;
            }
            None => {}
        }
        Ok(())
    }

    // Commits an entry where its station holds both counters, its number is above the station's
    // last, and there is room.
    fn commit(&mut self, object: &Counters, entry: Entry<(u32, u32)>) -> Result<(), Memory>
        ensures ok { OnOk result (self.new ≡ step (counters object.now.count object.now.most)
            self.old (Commit entry.station entry.number entry.call)) }
        ensures err { OnErr result (self.new ≡ self.old) }
    {
        let (station, number) = (entry.station, entry.number);
        if self.is_held_by(station, 0)
            && self.is_held_by(station, entry.call.0)
            && self.is_above(station, number)
            && self.history.len() < MOST_ENTRIES
        {
            self.commit_held(object, entry)?;
        }
        Ok(())
    }

    /// Does one event. One that is not lawful changes nothing. Memory is wanted for a commit alone.
    pub fn step(&mut self, object: &Counters, event: Event) -> Result<(), Memory>
        ensures ok { OnOk result (self.new
            ≡ step (counters object.now.count object.now.most) self.old (event_of event)) }
        ensures err { OnErr result (self.new ≡ self.old) }
        ensures memory { OnErr result (IsCommit (event_of event)) }
    {
        match event {
            Event::Take { station, part } => self.take(station, part),
            Event::Give { station, part } => self.give(station, part),
            Event::Commit {
                station,
                number,
                call,
            } => {
                let entry = Entry {
                    station,
                    number,
                    call,
                };
                return self.commit(object, entry);
            }
        }
        Ok(())
    }
}

// Counter 0 and the other, where both are there.
fn named_sums(parts: &[u32], counter: u32) -> Option<(u32, u32)>
    ensures there { IfSome result (λ sums. (slice_get parts.now 0 ≡ Some sums.0)
        × (slice_get parts.now counter ≡ Some sums.1)) }
    ensures none { result ≡ None
        → (slice_get parts.now 0 ≡ None) ⊎ (slice_get parts.now counter ≡ None) }
{
    match parts.get(0) {
        Some(total) => match parts.get(counter as usize) {
            Some(sum) => Some((*total, *sum)),
            None => None,
        },
        None => None,
    }
}

// Both with the amount more, where neither passes the bound.
fn sums_after(most: u32, amount: u32, total: u32, sum: u32) -> Option<(u32, u32)>
    ensures done { IfSome result (λ sums. both_more most amount (total ∷ sum ∷ [])
        ≡ Ok (sums.0 ∷ sums.1 ∷ [], sums.0)) }
    ensures refused { result ≡ None → IsErr (both_more most amount (total ∷ sum ∷ [])) }
{
    if amount > most || total > most - amount || sum > most - amount {
        None
    } else {
        Some((total + amount, sum + amount))
    }
}

// Counter 0 and the other after a call, where it is done.
fn sums(object: &Counters, parts: &[u32], call: &(u32, u32)) -> Option<(u32, u32)>
    ensures done { IfSome result (λ sums.
        whole (counters object.now.count object.now.most) parts.now call.now
        ≡ Ok (slice_set (slice_set parts.now 0 sums.0) call.now.0 sums.1, sums.0)) }
    ensures refused { result ≡ None
        → IsErr (whole (counters object.now.count object.now.most) parts.now call.now) }
{
    match object.refuse_names(call) {
        Some(_) => return None,
        None => {}
    }
    match named_sums(parts, call.0) {
        Some((total, sum)) => sums_after(object.most, call.1, total, sum),
        None => None,
    }
}
