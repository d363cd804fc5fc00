// Why a cut has no list.

use frame_meaning::Memory as OutOfMemory;

/// Why a cut has no list, in the order in which it is looked at, or out of memory.
#[derive(Clone, Copy, Debug, PartialEq, Eq)]
pub enum ListFault {
    /// It has more than two audio tracks; carries how many.
    Channels(u32),
    /// A part of a dissolve is not seen; carries the place of the first of the frames that are.
    PartialDissolve(u32),
    /// A dissolve has over 999 frames; carries the place of its first.
    DissolveTooLong(u32),
    /// It has over 999 events; carries how many.
    Events(u32),
    /// An in or an out is not below the day; carries the frame, counted as the labels are.
    PastDay(u32),
    /// The namer refuses a reel; carries its number in the table.
    Reel(u32),
    /// Out of memory.
    Memory,
}

impl From<OutOfMemory> for ListFault {
    ghost use Rattle.std.specs.Prelude.{◌≡◌};
    ghost use Rattle.edl_write.specs.declared.fault.ListFault.TheVariants.{Memory};

    ghost from_gives = { λ _ fault. fault ≡ Memory };

    // A call of a lower crate, or a list, found no memory.
    fn from(_: OutOfMemory) -> Self {
        ListFault::Memory
    }
}
