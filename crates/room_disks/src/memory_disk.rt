// A disk over memory that fails where it is told to.
ghost use Rattle.std.specs.Prelude.{◌≡◌, ◌≤◌, ◌<◌, ◌↔◌, ℕ, [], length, take, drop};
ghost use Rattle.std.specs.Prelude.{Some, None, option_map, IfOk, IfSome, IsErr, IsOk, OnOk, OnErr};
ghost use Rattle.std.specs.Option.{option_copied};
ghost use Rattle.room_ports.specs.Calls.{FailsNext, no_calls, passed, failed};
ghost use Rattle.room_ports.specs.Counts.{HasRisen};
ghost use Rattle.room_disks.specs.Crashes.{Course, IsImage, Range, Cut, Told};
ghost use Rattle.room_disks.specs.Crashes.{Stays, Syncs as IsSync, Changes, Writes, Cuts};
ghost use Rattle.room_disks.specs.Tapes.{Tape, Looks, Puts, FailsToPut, CutsTo, FailsToCut, Syncs, Adds, course_of};
ghost use Rattle.room_disks.specs.TapeLaws.{reads_of};

use crate::Disk;
use crate::noting::{self, note_failed_cut, note_failed_write, note_look, note_sync};
use crate::tape::TapeFile;
use room_ports::{Failed, FailingCalls};
use std::alloc::Global;
use std::marker::Model;

/// A disk over memory that fails where it is told to. It holds one file, which is open from the start, keeps a record
/// of its calls, and tells how its file has stood until memory is refused, of which no clause says when, or until the
/// file is longer than a u32 tells.
#[derive(Drop)]
pub struct MemDisk {
    tape: Option<TapeFile>,
    calls: FailingCalls,
}

impl Model for MemDisk {
    ghost use Rattle.room_disks.specs.Tapes.{MemDiskState};

    ghost Value = { MemDiskState };

    ghost view = { λ d. record { tape = d.tape; calls = d.calls } };
}

impl MemDisk {
    /// A disk whose file has these bytes, all of them on the disk. Its calls are numbered from 1, and those whose
    /// numbers are in `failing` fail; a write or a cut that fails leaves what a read gives.
    pub fn new(alloc: Global, bytes: Vec<u8>, failing: Vec<u32>) -> MemDisk
        ensures tape { IfSome result.tape (λ t. t ≡ record { start = bytes.items; done = [] }) }
        ensures calls { result.calls ≡ no_calls failing.items }
        ensures faults { ⟦<MemDisk as Disk>⟧.faults result ≡ 0 }
    {
        MemDisk {
            tape: TapeFile::new(alloc, bytes),
            calls: FailingCalls::new(failing),
        }
    }

    /// The file and the calls that were made on it; `None` where nothing is told any more.
    pub fn tape(&self) -> Option<&TapeFile>
        ensures { option_copied result ≡ self.now.tape }
    {
        self.tape.as_ref()
    }
}

impl Disk for MemDisk {
    ghost course = { λ d. option_map course_of d.tape };

    ghost file = { λ d _. option_map course_of d.tape };

    ghost faults = { λ d. d.calls.faults };

    ghost reads_are_an_image = { λ d c told. reads_of d.tape c told };

    /// Takes any name, and leaves the file as it is.
    fn open(&mut self, _name: &str) -> Result<(), Failed>
        ensures fails { IsErr result ↔ FailsNext self.old.calls }
        ensures notes { Adds Looks self.old.tape self.new.tape }
        ensures passed { OnOk result (self.new.calls ≡ passed self.old.calls) }
        ensures failed { OnErr result (self.new.calls ≡ failed self.old.calls) }

        // What every disk promises.
        ensures stays { Told Stays
            (option_map course_of self.old.tape) (option_map course_of self.new.tape) }
        ensures cause { OnErr result (HasRisen self.old.calls.faults self.new.calls.faults) }
        ensures quiet { OnOk result (self.new.calls.faults ≡ self.old.calls.faults) }
    {
        match self.calls.next() {
            Ok(()) => {
                note_look(&mut self.tape);
                Ok(())
            },
            Err(_) => {
                note_look(&mut self.tape);
                Err(Failed)
            }
        }
    }

    /// How many bytes the file has, and 0 where nothing is told any more. It fails exactly where the call's number is
    /// listed, and notes a look in both cases.
    fn len(&mut self) -> Result<u32, Failed>
        ensures fails { IsErr result ↔ FailsNext self.old.calls }
        ensures notes { Adds Looks self.old.tape self.new.tape }
        ensures passed { OnOk result (self.new.calls ≡ passed self.old.calls) }
        ensures failed { OnErr result (self.new.calls ≡ failed self.old.calls) }

        // What every disk promises.
        ensures len { IfOk result (λ n. IfSome (option_map course_of self.old.tape)
            (λ c. n ≡ length c.now.reads)) }
        ensures stays { Told Stays
            (option_map course_of self.old.tape) (option_map course_of self.new.tape) }
        ensures cause { OnErr result (HasRisen self.old.calls.faults self.new.calls.faults) }
        ensures quiet { OnOk result (self.new.calls.faults ≡ self.old.calls.faults) }
    {
        match self.calls.next() {
            Ok(()) => Ok(noting::len(&mut self.tape)),
            Err(_) => {
                note_look(&mut self.tape);
                Err(Failed)
            }
        }
    }

    /// Reads from a place on, and nothing where nothing is told any more. It fails exactly where the call's number is
    /// listed, and notes a look in both cases.
    fn read(&mut self, at: u32, into: &mut [u8]) -> Result<usize, Failed>
        ensures fails { IsErr result ↔ FailsNext self.old.calls }
        ensures notes { Adds Looks self.old.tape self.new.tape }
        ensures passed { OnOk result (self.new.calls ≡ passed self.old.calls) }
        ensures failed { OnErr result (self.new.calls ≡ failed self.old.calls) }

        // What every disk promises.
        ensures within { IfOk result (λ n. n ≤ length into.old) }
        ensures gives { IfOk result (λ n. IfSome (option_map course_of self.old.tape)
            (λ c. take n into.new ≡ take n (drop at c.now.reads))) }
        ensures end { IfOk result (λ n. 0 < length into.old
            → IfSome (option_map course_of self.old.tape)
            (λ c. (n ≡ 0) ↔ (length c.now.reads ≤ at))) }
        ensures stays { Told Stays
            (option_map course_of self.old.tape) (option_map course_of self.new.tape) }
        ensures cause { OnErr result (HasRisen self.old.calls.faults self.new.calls.faults) }
        ensures quiet { OnOk result (self.new.calls.faults ≡ self.old.calls.faults) }
    {
        match self.calls.next() {
            Ok(()) => Ok(noting::read(&mut self.tape, at, into)),
            Err(_) => {
                note_look(&mut self.tape);
                Err(Failed)
            }
        }
    }

    /// Writes all bytes at a place, or fails exactly where the call's number is listed and writes none of them. Which
    /// of both it was is noted.
    fn write_at(&mut self, at: u32, bytes: &[u8]) -> Result<(), Failed>
        ensures fails { IsErr result ↔ FailsNext self.old.calls }
        ensures notes { OnOk result (Adds (Puts at bytes.now) self.old.tape self.new.tape) }
        ensures notes_err { OnErr result (Adds (FailsToPut at (length bytes.now))
            self.old.tape self.new.tape) }
        ensures passed { OnOk result (self.new.calls ≡ passed self.old.calls) }
        ensures failed { OnErr result (self.new.calls ≡ failed self.old.calls) }

        // What every disk promises.
        ensures writes { OnOk result (Told (Writes at bytes.now)
            (option_map course_of self.old.tape) (option_map course_of self.new.tape)) }
        ensures changes { Told (Changes (Range at (length bytes.now)))
            (option_map course_of self.old.tape) (option_map course_of self.new.tape) }
        ensures cause { OnErr result (HasRisen self.old.calls.faults self.new.calls.faults) }
        ensures quiet { OnOk result (self.new.calls.faults ≡ self.old.calls.faults) }
    {
        match self.calls.next() {
            Ok(()) => {
                noting::write(&mut self.tape, at, bytes);
                Ok(())
            },
            Err(_) => {
                note_failed_write(&mut self.tape, at, bytes);
                Err(Failed)
            }
        }
    }

    /// Cuts the file to a length, or fails exactly where the call's number is listed and leaves it. Which of both it
    /// was is noted.
    fn cut(&mut self, len: u32) -> Result<(), Failed>
        ensures fails { IsErr result ↔ FailsNext self.old.calls }
        ensures notes { OnOk result (Adds (CutsTo len) self.old.tape self.new.tape) }
        ensures notes_err { OnErr result (Adds (FailsToCut len) self.old.tape self.new.tape) }
        ensures passed { OnOk result (self.new.calls ≡ passed self.old.calls) }
        ensures failed { OnErr result (self.new.calls ≡ failed self.old.calls) }

        // What every disk promises.
        ensures cuts { OnOk result (Told (Cuts len)
            (option_map course_of self.old.tape) (option_map course_of self.new.tape)) }
        ensures changes { Told (Changes (Cut len))
            (option_map course_of self.old.tape) (option_map course_of self.new.tape) }
        ensures cause { OnErr result (HasRisen self.old.calls.faults self.new.calls.faults) }
        ensures quiet { OnOk result (self.new.calls.faults ≡ self.old.calls.faults) }
    {
        match self.calls.next() {
            Ok(()) => {
                noting::cut(&mut self.tape, len);
                Ok(())
            },
            Err(_) => {
                note_failed_cut(&mut self.tape, len);
                Err(Failed)
            }
        }
    }

    /// Syncs, or fails exactly where the call's number is listed. A sync that failed is noted as a look.
    fn sync(&mut self) -> Result<(), Failed>
        ensures fails { IsErr result ↔ FailsNext self.old.calls }
        ensures notes { OnOk result (Adds Syncs self.old.tape self.new.tape) }
        ensures notes_err { OnErr result (Adds Looks self.old.tape self.new.tape) }
        ensures passed { OnOk result (self.new.calls ≡ passed self.old.calls) }
        ensures failed { OnErr result (self.new.calls ≡ failed self.old.calls) }

        // What every disk promises.
        ensures syncs { OnOk result (Told IsSync
            (option_map course_of self.old.tape) (option_map course_of self.new.tape)) }
        ensures stays { OnErr result (Told Stays
            (option_map course_of self.old.tape) (option_map course_of self.new.tape)) }
        ensures cause { OnErr result (HasRisen self.old.calls.faults self.new.calls.faults) }
        ensures quiet { OnOk result (self.new.calls.faults ≡ self.old.calls.faults) }
    {
        match self.calls.next() {
            Ok(()) => {
                note_sync(&mut self.tape);
                Ok(())
            },
            Err(_) => {
                note_look(&mut self.tape);
                Err(Failed)
            }
        }
    }
}
