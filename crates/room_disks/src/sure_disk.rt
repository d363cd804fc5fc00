// A disk over memory that never fails.
ghost use Rattle.std.specs.Prelude.{◌≡◌, ◌≤◌, ◌<◌, ◌↔◌, ℕ, [], length, take, drop};
ghost use Rattle.std.specs.Prelude.{Some, None, option_map, IfOk, IfSome, IsErr, IsOk, OnOk, OnErr};
ghost use Rattle.std.specs.Option.{option_copied};
ghost use Rattle.room_ports.specs.Counts.{HasRisen};
ghost use Rattle.room_disks.specs.Crashes.{Course, IsImage, Range, Cut, Told};
ghost use Rattle.room_disks.specs.Crashes.{Stays, Syncs as IsSync, Changes, Writes, Cuts};
ghost use Rattle.room_disks.specs.Tapes.{Tape, Looks, Puts, FailsToPut, CutsTo, FailsToCut, Syncs, Adds, course_of};
ghost use Rattle.room_disks.specs.TapeLaws.{reads_of};

use crate::Disk;
use crate::noting::{self, note_look, note_sync};
use crate::tape::TapeFile;
use room_ports::Failed;
use std::alloc::Global;
use std::marker::Model;

/// A disk over memory that never fails. It holds one file, which is open from the start, and tells how its file has
/// stood until memory is refused, of which no clause says when, or until the file is longer than a u32 tells.
#[derive(Drop)]
pub struct SureDisk {
    tape: Option<TapeFile>,
}

impl Model for SureDisk {
    ghost use Rattle.std.specs.Prelude.{Option};
    ghost use Rattle.room_disks.specs.Tapes.{Tape};

    ghost Value = { Option Tape };

    ghost view = { λ d. d.tape };
}

impl SureDisk {
    /// A disk whose file has these bytes, all of them on the disk.
    pub fn new(alloc: Global, bytes: Vec<u8>) -> SureDisk
        ensures { IfSome result (λ t. t ≡ record { start = bytes.items; done = [] }) }
    {
        SureDisk {
            tape: TapeFile::new(alloc, bytes),
        }
    }

    /// The file and the calls that were made on it; `None` where nothing is told any more.
    pub fn tape(&self) -> Option<&TapeFile>
        ensures { option_copied result ≡ self.now }
    {
        self.tape.as_ref()
    }
}

impl Disk for SureDisk {
    ghost course = { λ d. option_map course_of d };

    ghost file = { λ d _. option_map course_of d };

    ghost faults = { λ _. 0 };

    ghost reads_are_an_image = { λ d c told. reads_of d c told };

    /// Takes any name, and leaves the file as it is.
    fn open(&mut self, _name: &str) -> Result<(), Failed>
        ensures sure { IsOk result }
        ensures notes { Adds Looks self.old self.new }

        // What every disk promises.
        ensures stays { Told Stays (option_map course_of self.old) (option_map course_of self.new) }
    {
        note_look(&mut self.tape);
        Ok(())
    }

    /// How many bytes the file has, and 0 where nothing is told any more. A look is noted.
    fn len(&mut self) -> Result<u32, Failed>
        ensures sure { IsOk result }
        ensures notes { Adds Looks self.old self.new }

        // What every disk promises.
        ensures len { IfOk result (λ n. IfSome (option_map course_of self.old)
            (λ c. n ≡ length c.now.reads)) }
        ensures stays { Told Stays (option_map course_of self.old) (option_map course_of self.new) }
    {
        Ok(noting::len(&mut self.tape))
    }

    /// Reads from a place on, and nothing where nothing is told any more. A look is noted.
    fn read(&mut self, at: u32, into: &mut [u8]) -> Result<usize, Failed>
        ensures sure { IsOk result }
        ensures notes { Adds Looks self.old self.new }

        // What every disk promises.
        ensures within { IfOk result (λ n. n ≤ length into.old) }
        ensures gives { IfOk result (λ n. IfSome (option_map course_of self.old)
            (λ c. take n into.new ≡ take n (drop at c.now.reads))) }
        ensures end { IfOk result (λ n. 0 < length into.old → IfSome (option_map course_of self.old)
            (λ c. (n ≡ 0) ↔ (length c.now.reads ≤ at))) }
        ensures stays { Told Stays (option_map course_of self.old) (option_map course_of self.new) }
    {
        Ok(noting::read(&mut self.tape, at, into))
    }

    /// Writes all bytes at a place, which is noted.
    fn write_at(&mut self, at: u32, bytes: &[u8]) -> Result<(), Failed>
        ensures sure { IsOk result }
        ensures notes { Adds (Puts at bytes.now) self.old self.new }

        // What every disk promises.
        ensures writes { OnOk result (Told (Writes at bytes.now)
            (option_map course_of self.old) (option_map course_of self.new)) }
        ensures changes { Told (Changes (Range at (length bytes.now)))
            (option_map course_of self.old) (option_map course_of self.new) }
    {
        noting::write(&mut self.tape, at, bytes);
        Ok(())
    }

    /// Cuts the file to a length, which is noted.
    fn cut(&mut self, len: u32) -> Result<(), Failed>
        ensures sure { IsOk result }
        ensures notes { Adds (CutsTo len) self.old self.new }

        // What every disk promises.
        ensures cuts { OnOk result (Told (Cuts len)
            (option_map course_of self.old) (option_map course_of self.new)) }
        ensures changes { Told (Changes (Cut len))
            (option_map course_of self.old) (option_map course_of self.new) }
    {
        noting::cut(&mut self.tape, len);
        Ok(())
    }

    /// Syncs, which is noted: a crash leaves what a read gives.
    fn sync(&mut self) -> Result<(), Failed>
        ensures sure { IsOk result }
        ensures notes { Adds Syncs self.old self.new }

        // What every disk promises.
        ensures syncs { OnOk result (Told IsSync
            (option_map course_of self.old) (option_map course_of self.new)) }
    {
        note_sync(&mut self.tape);
        Ok(())
    }
}
