// Why a replay gives no parts.
ghost use Rattle.std.specs.Prelude.{◌≡◌};
ghost use Rattle.history_points.specs.declared.fault.ReplayFault.TheVariants.{Memory as NoMemory};

use room_core::Memory;
use std::alloc::{AllocError, AllocFailed};

/// An entry does not apply, or there was no memory.
#[derive(Clone, Copy, Debug, PartialEq, Eq)]
pub enum ReplayFault {
    /// The first entry that does not apply, counted from 0.
    Refused(u32),
    /// There was no memory for the parts.
    Memory,
}

impl From<Memory> for ReplayFault {
    ghost from_gives = { λ _ e. e ≡ NoMemory };

    fn from(_: Memory) -> Self {
        ReplayFault::Memory
    }
}

impl From<AllocError> for ReplayFault {
    ghost from_gives = { λ _ e. e ≡ NoMemory };

    fn from(_: AllocError) -> Self {
        ReplayFault::Memory
    }
}
