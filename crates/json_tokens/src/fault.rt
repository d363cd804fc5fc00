// Why bytes are no tree, or that there is no memory for it.
ghost use Rattle.std.specs.Prelude.{◌≡◌};
ghost use Rattle.json_tokens.specs.declared.fault.JsonFault.TheVariants as faults;

use out_of_memory::Memory;
use std::alloc::{AllocError, AllocFailed};
use std::error::Error;
use std::fmt;

/// The first fault of the bytes, from left to right, with its place: how many bytes stand before it.
#[derive(Clone, Copy, Debug, PartialEq, Eq)]
pub enum JsonFault {
    /// The first byte that cannot go on, or the length where the bytes end too early.
    Syntax(u32),
    /// The bracket that opens a level past the last one allowed.
    Depth(u32),
    /// The first byte of a sequence in a text that is not UTF-8.
    NotUtf8(u32),
    /// There are more bytes than are read.
    TooLarge,
    /// There was no memory for what was read.
    Memory,
}

impl fmt::Display for JsonFault {
    fn fmt<W: fmt::Write>(&self, f: &mut fmt::Formatter<W>) -> fmt::Result {
        match self {
            JsonFault::Syntax(at) => write!(f, "not JSON at byte {at}"),
            JsonFault::Depth(at) => write!(f, "nested too deep at byte {at}"),
            JsonFault::NotUtf8(at) => write!(f, "not UTF-8 at byte {at}"),
            JsonFault::TooLarge => f.write_str("too many bytes"),
            JsonFault::Memory => f.write_str("out of memory"),
        }
    }
}

impl Error for JsonFault {}

impl From<AllocError> for JsonFault {
    ghost from_gives = { λ _ e. e ≡ faults.Memory };

    fn from(_e: AllocError) -> JsonFault {
        JsonFault::Memory
    }
}

impl<T: Drop> From<AllocFailed<T>> for JsonFault {
    ghost from_gives = { λ _ e. e ≡ faults.Memory };

    fn from(_e: AllocFailed<T>) -> JsonFault {
        JsonFault::Memory
    }
}

impl From<Memory> for JsonFault {
    ghost from_gives = { λ _ e. e ≡ faults.Memory };

    fn from(_e: Memory) -> JsonFault {
        JsonFault::Memory
    }
}
