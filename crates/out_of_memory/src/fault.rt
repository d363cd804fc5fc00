// Why a call has no answer.
ghost use Rattle.std.specs.Prelude.{◌≡◌};
ghost use Rattle.out_of_memory.specs.declared.fault.Fault.TheVariants.{Memory as NoMemory};

use std::alloc::{AllocError, AllocFailed};
use std::error::Error;
use std::fmt;

/// Why a call did nothing: it was refused, or found no memory. Nothing has changed.
#[derive(Debug, Drop, PartialEq, Eq)]
pub enum Fault<R> {
    /// The call's own refusal.
    Refused(R),
    /// There was no memory for what the call would make.
    Memory,
}

/// The answer of a call that found no memory; nothing has changed.
#[derive(Clone, Copy, Debug, PartialEq, Eq)]
pub struct Memory;

impl From<AllocError> for Memory {
    fn from(_: AllocError) -> Self {
        Memory
    }
}

impl<T: Drop> From<AllocFailed<T>> for Memory {
    fn from(_: AllocFailed<T>) -> Self {
        Memory
    }
}

impl<R> From<Memory> for Fault<R> {
    ghost from_gives = { λ _ e. e ≡ NoMemory };

    fn from(_: Memory) -> Self {
        Fault::Memory
    }
}

impl<R> From<AllocError> for Fault<R> {
    ghost from_gives = { λ _ e. e ≡ NoMemory };

    fn from(_: AllocError) -> Self {
        Fault::Memory
    }
}

impl<T: Drop, R> From<AllocFailed<T>> for Fault<R> {
    ghost from_gives = { λ _ e. e ≡ NoMemory };

    fn from(_: AllocFailed<T>) -> Self {
        Fault::Memory
    }
}

impl fmt::Display for Memory {
    fn fmt<W: fmt::Write>(&self, f: &mut fmt::Formatter<W>) -> fmt::Result {
        f.write_str("out of memory")
    }
}

impl Error for Memory {}
