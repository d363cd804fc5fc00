// Why a line is none of the table.
ghost use Rattle.std.specs.Prelude.{◌≡◌};
ghost use Rattle.protocol_parts.specs.LineFaults.{number_fault};
ghost use Rattle.protocol_parts.specs.declared.line_fault.LineFault.TheVariants.{Memory as NoMemory};

use line_words::NumberFault;
use std::alloc::{AllocError, AllocFailed};

/// Why a line is none of the table: the first of these that holds, in the order of `specs/Faults.antt`, where the words
/// are looked at from left to right.
#[derive(Clone, Copy, Debug, PartialEq, Eq)]
pub enum LineFault {
    /// The first word is not in the table, or a word that must be `head`, `tail`, `source` or `sequence` is another.
    B1,
    /// The line has no word, or not as many as any row with its first word, or a list of items has not as many numbers as
    /// the list of tracks before it.
    B2,
    /// A word is not spelled as its part of the row: a number that is not decimal digits, a delta that is not digits with
    /// or without one `-`, a thing without `@` or `#` and a number, a list with a track that is no number, a place that is
    /// no number and no label, or a label that the counting does not have or that names a frame before the start.
    B3,
    /// A number is past its bound: a track over 31, any number over 4,294,967,295, or a delta outside of 32 bits.
    B4,
    /// The line has more than 1,024 bytes before its line feed, its carriage return counted.
    B5,
    /// A list of tracks has one that is not above the one before.
    B6,
    /// Out of memory. Only a line whose first word is `link` takes memory.
    Memory,
}

impl From<NumberFault> for LineFault {
    ghost from_gives = { λ fault result. result ≡ number_fault fault };

    // A word that is no number is B3, and a number over 32 bits is B4.
    fn from(fault: NumberFault) -> Self {
        match fault {
            NumberFault::NotANumber => LineFault::B3,
            NumberFault::TooLarge => LineFault::B4,
        }
    }
}

impl From<AllocError> for LineFault {
    ghost from_gives = { λ _ fault. fault ≡ NoMemory };

    // The list of a link's items could not be made or could not grow.
    fn from(_: AllocError) -> Self {
        LineFault::Memory
    }
}

impl<T: Drop> From<AllocFailed<T>> for LineFault {
    ghost from_gives = { λ _ fault. fault ≡ NoMemory };

    // There was no room for one item more of a link.
    fn from(_: AllocFailed<T>) -> Self {
        LineFault::Memory
    }
}
