// Why a kept file was not opened.
ghost use Rattle.std.specs.Prelude.{◌≡◌};
ghost use Rattle.journal_file.specs.declared.faults.OpenFault.TheVariants as faults;

use room_ports::{Failed, Memory};
use std::alloc::{AllocError, AllocFailed};
use std::error::Error;
use std::fmt;

/// Why a kept file was not opened. It is as it was, or has the records that it had.
#[derive(Clone, Copy, Debug, PartialEq, Eq)]
pub enum OpenFault {
    /// A call on the disk failed, and the disk has counted the fault.
    Failed,
    /// The file has more than 128 MiB.
    TooLarge,
    /// It is no kept file: place 0 where the header is wrong, else the place of the first `+` that begins no whole
    /// record, or the file's length where it ends after a record, without a gate.
    Damaged(u32),
    /// It has so many records, more than the 100,000 that a kept file takes.
    TooMany(u32),
    /// There was no memory for the file's bytes or its records.
    Memory,
}

impl fmt::Display for OpenFault {
    fn fmt<W: fmt::Write>(&self, f: &mut fmt::Formatter<W>) -> fmt::Result {
        match self {
            OpenFault::Failed => f.write_str("a call on the disk failed"),
            OpenFault::TooLarge => f.write_str("the file has more than 128 MiB"),
            OpenFault::Damaged(at) => write!(f, "the file is damaged at byte {at}"),
            OpenFault::TooMany(count) => {
                write!(f, "the file has {count} records, more than 100,000")
            }
            OpenFault::Memory => f.write_str("out of memory"),
        }
    }
}

impl Error for OpenFault {}

impl From<Failed> for OpenFault {
    ghost from_gives = { λ _ e. e ≡ faults.Failed };

    fn from(_: Failed) -> OpenFault {
        OpenFault::Failed
    }
}

impl From<Memory> for OpenFault {
    ghost from_gives = { λ _ e. e ≡ faults.Memory };

    fn from(_: Memory) -> OpenFault {
        OpenFault::Memory
    }
}

impl From<AllocError> for OpenFault {
    ghost from_gives = { λ _ e. e ≡ faults.Memory };

    fn from(_: AllocError) -> OpenFault {
        OpenFault::Memory
    }
}

impl<T: Drop> From<AllocFailed<T>> for OpenFault {
    ghost from_gives = { λ _ e. e ≡ faults.Memory };

    fn from(_: AllocFailed<T>) -> OpenFault {
        OpenFault::Memory
    }
}
