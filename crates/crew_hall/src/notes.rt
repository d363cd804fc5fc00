// What is noted of each station that was seated.
ghost use Rattle.std.specs.Prelude.{◌≡◌, ◌≤◌, ◌<◌, ◌+◌, [], ℕ, Some, OnOk, length, max, slice_set};
ghost use Rattle.room_halls.specs.Stations.{note_of};

use room_ports::Memory;
use std::alloc::Global;
use std::marker::Model;

/// How often a write to the line of each station has failed, where it was seated.
#[derive(Drop)]
pub(crate) struct Notes {
    notes: Vec<Option<u64>>,
}

impl Model for Notes {
    ghost use Rattle.std.specs.Prelude.{List, Option, ℕ};

    ghost Value = { List (Option ℕ) };

    ghost view = { λ s. s.notes.items };
}

impl Notes {
    /// Nothing is noted of any station.
    pub(crate) fn new(alloc: Global) -> Self
        ensures { result ≡ [] }
    {
        Notes {
            notes: Vec::new(alloc),
        }
    }

    /// The note of a station, or `None` where nothing is noted of it.
    pub(crate) fn get(&self, station: u32) -> Option<u64>
        ensures { result ≡ note_of self.now station }
    {
        match self.notes.get(station as usize) {
            Some(note) => *note,
            None => None,
        }
    }

    /// Takes the memory for a note of this station. No note changes.
    pub(crate) fn make_room(&mut self, station: u32) -> Result<(), Memory>
        ensures room { OnOk result (station < length self.new) }
        ensures within { length self.new ≤ max (length self.old) (station + 1) }
        ensures same { (s : ℕ) → note_of self.new s ≡ note_of self.old s }
    {
        while self.notes.len() <= station as usize {
            self.notes.push(None)?;
        }
        Ok(())
    }

    /// Notes this of the station, for which room was made. Of the others nothing changes.
    pub(crate) fn set(&mut self, station: u32, note: u64)
        requires { station < length self.old }
        ensures { self.new ≡ slice_set self.old station (Some note) }
    {
        self.notes[station as usize] = Some(note);
    }
}
