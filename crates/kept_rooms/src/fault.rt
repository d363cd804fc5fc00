// Why the records of a kept file are not made a room's entries again.
ghost use Rattle.std.specs.Prelude.{◌≡◌};
ghost use Rattle.kept_rooms.specs.declared.fault.KeptFault.TheVariants.{Memory as NoMemory};

use composables::Memory;
use std::alloc::{AllocError, AllocFailed};

/// What is wrong with a record: the first of these that holds.
#[derive(Clone, Copy, Debug, PartialEq, Eq)]
pub enum RecordCode {
    /// It is not an entry's line.
    H1,
    /// Its number is not above those of its station before it, or is 0.
    H4,
    /// Its station is not in the room.
    H6,
    /// Its number is above `LAST_NUMBER`.
    H7,
}

/// Why a record is no entry that may come next.
#[derive(Clone, Copy, Debug, PartialEq, Eq)]
pub enum RecordFault {
    Refused(RecordCode),
    /// Out of memory.
    Memory,
}

/// Why the records of a kept file are not made a room's entries again.
#[derive(Clone, Copy, Debug, PartialEq, Eq)]
pub enum KeptFault {
    /// A record is refused. The number is the record's, from 1.
    Refused { code: RecordCode, number: u32 },
    /// The entry at this place, from 0, does not apply where it stands.
    NotApplied { place: u32 },
    /// The room did otherwise than the entries say, as where others edit it meanwhile. No clause
    /// says more of it.
    Strayed,
    /// Out of memory.
    Memory,
}

impl From<Memory> for KeptFault {
    ghost from_gives = { λ _ fault. fault ≡ NoMemory };

    fn from(_: Memory) -> Self {
        KeptFault::Memory
    }
}

impl From<AllocError> for KeptFault {
    ghost from_gives = { λ _ fault. fault ≡ NoMemory };

    fn from(_: AllocError) -> Self {
        KeptFault::Memory
    }
}

impl<T: Drop> From<AllocFailed<T>> for KeptFault {
    ghost from_gives = { λ _ fault. fault ≡ NoMemory };

    fn from(_: AllocFailed<T>) -> Self {
        KeptFault::Memory
    }
}
