// Why a text is no journal's.
ghost use Rattle.std.specs.Prelude.{◌≡◌};
ghost use Rattle.journal_text.specs.declared.journal_fault.EntryFault.TheVariants.{Memory as NoEntryMemory};
ghost use Rattle.journal_text.specs.declared.journal_fault.JournalFault.TheVariants.{Memory as NoMemory};

use composables::Memory;
use std::alloc::{AllocError, AllocFailed};

/// What a text has wrong: the first of these that holds.
#[derive(Clone, Copy, Debug, PartialEq, Eq)]
pub enum JournalCode {
    /// A line is not as the text of a journal has it.
    H1,
    /// The count is not that of the entries, or is over 100,000; told at line 1.
    H2,
    /// An entry's number does not rise within its station.
    H4,
}

/// Why no entries are read of a text.
#[derive(Clone, Copy, Debug, PartialEq, Eq)]
pub enum JournalFault {
    /// The text is no journal's. The number is that of the line which tells it, from 1.
    Refused { code: JournalCode, number: u32 },
    /// Out of memory.
    Memory,
}

impl From<Memory> for JournalFault {
    ghost from_gives = { λ _ fault. fault ≡ NoMemory };

    // A call of a lower crate found no memory.
    fn from(_: Memory) -> Self {
        JournalFault::Memory
    }
}

impl From<AllocError> for JournalFault {
    ghost from_gives = { λ _ fault. fault ≡ NoMemory };

    // A list could not be made or could not grow.
    fn from(_: AllocError) -> Self {
        JournalFault::Memory
    }
}

impl<T: Drop> From<AllocFailed<T>> for JournalFault {
    ghost from_gives = { λ _ fault. fault ≡ NoMemory };

    // There was no room for an entry, which is dropped.
    fn from(_: AllocFailed<T>) -> Self {
        JournalFault::Memory
    }
}

/// Why no entry is read of a line.
#[derive(Clone, Copy, Debug, PartialEq, Eq)]
pub enum EntryFault {
    /// The line is no entry's.
    H1,
    /// Out of memory.
    Memory,
}

impl From<Memory> for EntryFault {
    ghost from_gives = { λ _ fault. fault ≡ NoEntryMemory };

    // A call of a lower crate found no memory.
    fn from(_: Memory) -> Self {
        EntryFault::Memory
    }
}
