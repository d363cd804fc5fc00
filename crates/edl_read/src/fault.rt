// Why a list is refused.
ghost use Rattle.std.specs.Prelude.{◌≡◌};
ghost use Rattle.edl_read.specs.declared.fault.ListReadFault.TheVariants.{Memory as NoMemory};

use crate::LineCode;
use out_of_memory::Memory;
use std::alloc::{AllocError, AllocFailed};

/// Why no list is read.
#[derive(Clone, Copy, Debug, PartialEq, Eq)]
pub enum ListReadFault {
    /// The first fault, with its line, from 1. `other` is of P10 alone, and else 0: the line of the first event that
    /// overlaps.
    Refused {
        code: LineCode,
        line: u32,
        other: u32,
    },
    /// Out of memory.
    Memory,
}

impl From<Memory> for ListReadFault {
    ghost from_gives = { λ _ fault. fault ≡ NoMemory };

    // A call of a lower crate found no memory.
    fn from(_: Memory) -> Self {
        ListReadFault::Memory
    }
}

impl From<AllocError> for ListReadFault {
    ghost from_gives = { λ _ fault. fault ≡ NoMemory };

    // A list could not be made or could not grow.
    fn from(_: AllocError) -> Self {
        ListReadFault::Memory
    }
}

impl<T: Drop> From<AllocFailed<T>> for ListReadFault {
    ghost from_gives = { λ _ fault. fault ≡ NoMemory };

    // There was no room for a value, which is dropped.
    fn from(_: AllocFailed<T>) -> Self {
        ListReadFault::Memory
    }
}
