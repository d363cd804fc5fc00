//! Small objects of parts, to try on them whatever works for any object; used by tests alone. [`Counters`]: each part is a
//! number, and [`Stations`] is the machine of many stations over them, plain and slow. [`Registers`]: a call writes a
//! number into one. [`Watched`]: each call is seen as it is done.
//!
//! [`Stations::step`] is the main contract: one event changes the stations as the machine's definition says.
#![tactic(auto)]

mod object;
mod registers;
mod stations;
mod watched;

pub use object::Counters;
pub use registers::Registers;
pub use stations::{Event, Stations};
pub use watched::{Watch, Watched};
