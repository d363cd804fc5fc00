// Why a mirror does not take an entry.
ghost use Rattle.std.specs.Prelude.{◌≡◌};
ghost use Rattle.cut_mirror.specs.declared.fault.MirrorFault.TheVariants.{Memory as NoMemory};

use room_core::Memory;
use std::alloc::AllocError;

/// Why an entry is not taken; nothing has changed.
#[derive(Clone, Copy, Debug, PartialEq, Eq)]
pub enum MirrorFault {
    /// The place is above the point: this one.
    Gap(u32),
    /// Another entry was taken at this place.
    Differs(u32),
    /// The mirror has as many entries as a history can have.
    Full,
    /// The number of the entry at this place is not above the last one of its station.
    Late(u32),
    /// The entry at this place does not apply.
    Refused(u32),
    /// There was no memory for the entry or for what it leaves.
    Memory,
}

impl From<Memory> for MirrorFault {
    ghost from_gives = { λ _ e. e ≡ NoMemory };

    fn from(_: Memory) -> Self {
        MirrorFault::Memory
    }
}

impl From<AllocError> for MirrorFault {
    ghost from_gives = { λ _ e. e ≡ NoMemory };

    fn from(_: AllocError) -> Self {
        MirrorFault::Memory
    }
}
