// Why a document is refused.
ghost use Rattle.std.specs.Prelude.{◌≡◌};
ghost use Rattle.otio_tracks.specs.declared.faults.DocFault.TheVariants as faults;

use composables::Memory;
use std::alloc::{AllocError, AllocFailed};

/// What is wrong with a document.
#[derive(Clone, Copy, Debug, PartialEq, Eq)]
pub enum DocCode {
    /// The text is not JSON.
    J1,
    /// More than 64 lists and objects stand in one another.
    J2,
    /// A number of a time has more digits than are kept.
    J3,
    /// A text is not UTF-8.
    J4,
    /// The text has more than 32 MiB.
    J5,
    /// A schema that is not read.
    O1,
    /// A member that must be there is missing.
    O2,
    /// A value is of another kind than asked, or a known schema stands in a wrong place.
    O3,
    /// A time is not a whole number of the sequence's frames, or is too far from 0.
    O4,
    /// A rate that no clip has.
    O5,
    /// A time effect.
    O6,
    /// An item or track that is not enabled.
    O7,
    /// A transition that has no item on each of its sides.
    O8,
    /// A dissolve that has no room.
    O9,
    /// No tracks, or more than a room has.
    O10,
    /// A track, a source frame or the start is past its limit.
    O11,
    /// A nest in an audio track.
    O12,
    /// A nest that stands in too many others.
    O13,
    /// Frames that are not there to be shown.
    O14,
    /// A transition next to a nest.
    O15,
    /// A trimmed track.
    O16,
}

/// The first fault of a document, with its place: how many bytes of the text stand before it.
#[derive(Clone, Copy, Debug, PartialEq, Eq)]
pub struct Fault {
    pub code: DocCode,
    pub at: u32,
}

/// Why no opening was read.
#[derive(Clone, Copy, Debug, PartialEq, Eq)]
pub enum DocFault {
    /// The first fault of the document, and how many bytes of the text stand before it.
    Refused { code: DocCode, at: u32 },
    /// There was not memory enough.
    Memory,
}

impl From<Fault> for DocFault {
    ghost from_gives = { λ f e. e ≡ faults.Refused f.code f.at };

    // The fault that refuses the document.
    fn from(fault: Fault) -> DocFault {
        DocFault::Refused {
            code: fault.code,
            at: fault.at,
        }
    }
}

impl From<Memory> for DocFault {
    ghost from_gives = { λ _ e. e ≡ faults.Memory };

    // A call of a lower crate found no memory.
    fn from(_: Memory) -> DocFault {
        DocFault::Memory
    }
}

impl From<AllocError> for DocFault {
    ghost from_gives = { λ _ e. e ≡ faults.Memory };

    // A list could not be made or could not grow.
    fn from(_: AllocError) -> DocFault {
        DocFault::Memory
    }
}

impl<T: Drop> From<AllocFailed<T>> for DocFault {
    ghost from_gives = { λ _ e. e ≡ faults.Memory };

    // There was no room for a value, which is dropped.
    fn from(_: AllocFailed<T>) -> DocFault {
        DocFault::Memory
    }
}
