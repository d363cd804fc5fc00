//! What a line of an edit decision list says by itself, after CMX 3600.
//!
//! The main contract is that of [`line_says`]: of the bytes of a line, in the counting that holds there, it gives what
//! `specs/EventLines.antt` defines: nothing, a counting, or an event with its parts, or the first thing that is wrong with
//! it. [`first_line`] takes the lines of a list off one by one. What a list of such lines means is said above.
#![tactic(auto)]

mod code;
mod event_line;
mod labels;
mod lines;
mod parts;
mod said;
mod words;

pub use code::LineCode;
pub use event_line::EventLine;
pub use lines::first_line;
pub use parts::non_drop;
pub use said::{Said, line_says};
