// Why the entries before a point were not kept.
ghost use Rattle.std.specs.Prelude.{◌≡◌};
ghost use Rattle.room_keepers.specs.declared.fault.KeepFault.TheVariants as faults;

use room_ports::Memory;
use std::alloc::{AllocError, AllocFailed};
use std::error::Error;
use std::fmt;

/// Why the entries before a point were not kept. What is kept stays, and the next call goes on.
#[derive(Clone, Copy, Debug, PartialEq, Eq)]
pub enum KeepFault {
    /// A call on a disk failed, and was counted.
    Disk,
    /// There was not memory enough.
    Memory,
}

impl fmt::Display for KeepFault {
    fn fmt<W: fmt::Write>(&self, f: &mut fmt::Formatter<W>) -> fmt::Result {
        match self {
            KeepFault::Disk => f.write_str("a call on the disk failed"),
            KeepFault::Memory => f.write_str("out of memory"),
        }
    }
}

impl Error for KeepFault {}

impl From<Memory> for KeepFault {
    ghost from_gives = { λ _ e. e ≡ faults.Memory };

    fn from(_: Memory) -> KeepFault {
        KeepFault::Memory
    }
}

impl From<AllocError> for KeepFault {
    ghost from_gives = { λ _ e. e ≡ faults.Memory };

    fn from(_: AllocError) -> KeepFault {
        KeepFault::Memory
    }
}

impl<T: Drop> From<AllocFailed<T>> for KeepFault {
    ghost from_gives = { λ _ e. e ≡ faults.Memory };

    fn from(_: AllocFailed<T>) -> KeepFault {
        KeepFault::Memory
    }
}
