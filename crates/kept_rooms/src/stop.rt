// Why the making of entries stops at a record.
ghost use Rattle.std.specs.Prelude.{◌≡◌};
ghost use Rattle.kept_rooms.specs.declared.stop.Stop.TheVariants.{Memory as NoMemory};

use crate::RecordCode;
use composables::Memory;
use std::alloc::AllocFailed;

// As it seems at the record. Where an entry before it does not apply, that is told in place of it.
#[derive(Clone, Copy, Debug, PartialEq, Eq)]
pub enum Stop {
    // The record is refused.
    Refused(RecordCode),
    // The room says that its entry does not apply.
    NotApplied,
    // The room did otherwise.
    Strayed,
    Memory,
}

impl From<Memory> for Stop {
    ghost from_gives = { λ _ stop. stop ≡ NoMemory };

    fn from(_: Memory) -> Self {
        Stop::Memory
    }
}

impl<T: Drop> From<AllocFailed<T>> for Stop {
    ghost from_gives = { λ _ stop. stop ≡ NoMemory };

    fn from(_: AllocFailed<T>) -> Self {
        Stop::Memory
    }
}
