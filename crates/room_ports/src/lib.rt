//! The outside of the cutting room: sources and sinks of bytes, as two traits, with objects over memory and
//! adapters over the readers and writers of std. A read gives the next bytes and a write takes a front of its
//! piece, where the object tells its bytes; a call answers `Failed` only where the object's count of faults
//! rose, and leaves the count as it was where it does not; `put` writes a whole piece, or a front of it and
//! fails. A `Line` is both in one: a read takes nothing of what is written to it, nor a write of what is left.
#![tactic(auto)]

mod calls;
mod failed;
mod gate;
pub mod laws;
mod line;
mod once;
mod pieces;
mod ports;
mod sink;
mod source;
mod standard;

pub use calls::FailingCalls;
pub use failed::Failed;
pub use gate::{Gate, OpenGate};
pub use line::{MemLine, Pair};
pub use once::{read_once, write_once};
pub use out_of_memory::Memory;
pub use ports::{Line, Sink, Source, put};
pub use sink::{MemSink, SureSink};
pub use source::{MemSource, SureSource};
pub use standard::{StdSink, StdSource};
