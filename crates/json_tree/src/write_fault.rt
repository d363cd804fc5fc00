// Why a text was not put after what is written.
ghost use Rattle.std.specs.Prelude.{◌≡◌};
ghost use Rattle.json_tree.specs.declared.write_fault.WriteFault.TheVariants as faults;

use json_tokens::Memory;
use std::alloc::AllocError;
use std::error::Error;
use std::fmt;

/// Why a text was not put after what is written. Nothing has changed.
#[derive(Clone, Copy, Debug, PartialEq, Eq)]
pub enum WriteFault {
    /// There would be more bytes than are allowed.
    TooLong,
    /// There was no memory for the text.
    Memory,
}

impl fmt::Display for WriteFault {
    fn fmt<W: fmt::Write>(&self, f: &mut fmt::Formatter<W>) -> fmt::Result {
        f.write_str(match self {
            WriteFault::TooLong => "there would be too many bytes",
            WriteFault::Memory => "out of memory",
        })
    }
}

impl Error for WriteFault {}

impl From<AllocError> for WriteFault {
    ghost from_gives = { λ _ e. e ≡ faults.Memory };

    fn from(_e: AllocError) -> WriteFault {
        WriteFault::Memory
    }
}

impl From<Memory> for WriteFault {
    ghost from_gives = { λ _ e. e ≡ faults.Memory };

    fn from(_e: Memory) -> WriteFault {
        WriteFault::Memory
    }
}
