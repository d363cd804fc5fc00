// What is noted of each station that was seated.
ghost use Rattle.std.specs.Prelude.{◌≡◌, ◌≤◌, ◌<◌, ◌+◌, [], ℕ, Some, OnOk, length, max, slice_set};
ghost use Rattle.room_halls.specs.Stations.{note_of};

use room_ports::Memory;
use std::alloc::Global;
use std::marker::Model;

/// A note for each station by its number, where there is one.
#[derive(Drop)]
pub struct Seats<T: Copy> {
    notes: Vec<Option<T>>,
}

impl<T: Copy> Model for Seats<T> {
    ghost use Rattle.std.specs.Prelude.{List, Option};

    ghost Value = { List (Option T) };

    ghost view = { λ s. s.notes.items };
}

impl<T: Copy> Seats<T> {
    /// Nothing is noted of any station.
    pub fn new(alloc: Global) -> Self
        ensures { result ≡ [] }
    {
        Seats {
            notes: Vec::new(alloc),
        }
    }

    /// The note of a station, or `None` where nothing is noted of it.
    pub fn get(&self, station: u32) -> Option<T>
        ensures { result ≡ note_of self.now station }
    {
        match self.notes.get(station as usize) {
            Some(note) => *note,
            None => None,
        }
    }

    /// Takes the memory for a note of this station. No note changes.
    pub fn make_room(&mut self, station: u32) -> Result<(), Memory>
        ensures room { OnOk result (station < length self.new) }
        ensures within { length self.new ≤ max (length self.old) (station + 1) }
        ensures same { (s : ℕ) → note_of self.new s ≡ note_of self.old s }
    {
        while self.notes.len() <= station as usize {
            self.notes.push(None)?;
        }
        Ok(())
    }

    /// Notes this of the station, for which room was made. Of the others nothing changes.
    pub fn set(&mut self, station: u32, note: T)
        requires { station < length self.old }
        ensures { self.new ≡ slice_set self.old station (Some note) }
    {
        self.notes[station as usize] = Some(note);
    }
}
