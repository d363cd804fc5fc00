// Why a list makes no opening.
ghost use Rattle.std.specs.Prelude.{◌≡◌};
ghost use Rattle.list_import.specs.declared.fault.ImportFault.TheVariants.{Memory as NoMemory};

use out_of_memory::Memory;

/// Why a list makes no opening, in the order in which it is told: I1 and I2 of the first event that has one of them.
#[derive(Clone, Copy, Debug, PartialEq, Eq)]
pub enum ImportCode {
    /// A dissolve of one frame in an event of one frame, which has no cut within it. Told with the line of the event.
    I1,
    /// A dissolve from black to black. Told with the line of the event.
    I2,
    /// The first event begins after the day of the counting. Told with its record in, a frame of the day.
    I3,
    /// A track has more items and gaps than a room's may have. Told with the number of the track.
    I4,
}

/// Why there is no opening.
#[derive(Clone, Copy, Debug, PartialEq, Eq)]
pub enum ImportFault {
    /// The first reason, and its number.
    Refused { code: ImportCode, number: u32 },
    /// Out of memory.
    Memory,
}

impl From<Memory> for ImportFault {
    ghost from_gives = { λ _ fault. fault ≡ NoMemory };

    // A call of a lower crate, or a list, found no memory.
    fn from(_: Memory) -> Self {
        ImportFault::Memory
    }
}
