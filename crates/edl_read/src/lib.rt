//! Edit decision lists after CMX 3600, read, and played on a tape.
//!
//! The main contract is that of [`read_list`]: of the bytes of a list it gives the events that they are, or the first fault
//! with its line. What the bytes are is defined line by line in `specs/Reading.antt`, and what a line says by itself in
//! `edl_lines`. A [`Tape`] says what each channel shows at each record frame of a list.
#![tactic(auto)]

mod fault;
mod laid;
mod line_text;
mod list;
mod pieces;
mod played;
mod reading;
mod starts;
mod tape;

pub use edl_events::{Channel, Event, FromLine};
pub use edl_lines::LineCode;
pub use fault::ListReadFault;
pub use list::{List, MAX_LIST, read_list};
pub use out_of_memory::Memory;
pub use reel_names::Name;
pub use tape::Tape;
