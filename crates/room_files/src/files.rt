// Files, by their names.
ghost use Rattle.std.specs.Prelude.{◌≡◌, ◌≤◌, length, IfOk, IfErr, OnOk, OnErr};
ghost use Rattle.room_ports.specs.Counts.{HasRisen};
ghost use Rattle.room_files.specs.declared.files.FileFault.TheVariants as faults;
ghost use Rattle.room_files.specs.Files.{FilesTold, IsWhole, NoneChanged, OthersUnchanged, Refuses, CountsRead};

use room_ports::{Failed, Memory};
use std::alloc::{AllocError, AllocFailed, Global};
use std::error::Error;
use std::fmt;

/// Why a file was not read.
#[derive(Clone, Copy, Debug, PartialEq, Eq)]
pub enum FileFault {
    /// The read failed, or there is no such file. The object has counted the fault.
    Failed,
    /// The file has more bytes than were asked for.
    TooLarge,
    /// There was no memory for its bytes.
    Memory,
}

impl fmt::Display for FileFault {
    fn fmt<W: fmt::Write>(&self, f: &mut fmt::Formatter<W>) -> fmt::Result {
        f.write_str(match self {
            FileFault::Failed => "the file could not be read",
            FileFault::TooLarge => "the file is too large",
            FileFault::Memory => "out of memory",
        })
    }
}

impl Error for FileFault {}

impl From<Memory> for FileFault {
    ghost from_gives = { λ _ e. e ≡ faults.Memory };

    fn from(_: Memory) -> FileFault {
        FileFault::Memory
    }
}

impl From<AllocError> for FileFault {
    ghost from_gives = { λ _ e. e ≡ faults.Memory };

    fn from(_: AllocError) -> FileFault {
        FileFault::Memory
    }
}

impl<T: Drop> From<AllocFailed<T>> for FileFault {
    ghost from_gives = { λ _ e. e ≡ faults.Memory };

    fn from(_: AllocFailed<T>) -> FileFault {
        FileFault::Memory
    }
}

/// Files that stand outside. What they hold is told by some and not by others.
pub trait Files {
    /// What is told of them: what each file holds, by its name, and how often a read and a write have failed.
    ghost told: { Self → FilesTold };

    /// All bytes of a file, which are at most `limit`; a file that has more is too large, and one that is
    /// not there is a fault.
    fn read_file(&mut self, alloc: Global, name: &str, limit: u32) -> Result<Vec<u8>, FileFault>
        ensures whole { IfOk result (λ v. IsWhole ((told self.old).file name.now) v.items) }
        ensures within { IfOk result (λ v. length v.items ≤ limit) }
        ensures refuses { IfErr result (λ e. Refuses e ((told self.old).file name.now) limit) }

        // A read changes no file, and no count but its own where it failed.
        ensures same { NoneChanged (told self.old).file (told self.new).file }
        ensures counts { CountsRead result (told self.old).reads (told self.new).reads }
        ensures apart { (told self.new).writes ≡ (told self.old).writes };

    /// Puts these bytes in place of what the file holds, which need not be there.
    fn write_file(&mut self, name: &str, bytes: &[u8]) -> Result<(), Failed>
        ensures holds { OnOk result (IsWhole ((told self.new).file name.now) bytes.now) }

        // A write changes no other file, and no count but its own where it failed.
        ensures others { OthersUnchanged name.now (told self.old).file (told self.new).file }
        ensures cause { OnErr result (HasRisen (told self.old).writes (told self.new).writes) }
        ensures quiet { OnOk result ((told self.new).writes ≡ (told self.old).writes) }
        ensures apart { (told self.new).reads ≡ (told self.old).reads };
}
