//! The table of lines: what a line of a cutting room asks for, and its steps as text.
//!
//! The main contract is that of `read_line`: a line is read by the table, or refused by the first fault of it. What
//! `call_text` writes is read again as that step: the law `written_calls_are_read`.
#![tactic(auto)]

mod calls;
mod first_words;
mod labels;
mod laws;
mod lines;
mod part_texts;
mod parts;
mod reading;
pub mod reserved;
mod words;

pub use calls::{call_text, put_step, room_for};
pub use composables::Memory;
pub use first_words::FirstWord;
pub use laws::{
    labels_name_places, lines_are_those_of_the_table, lines_have_one_meaning,
    written_calls_are_read,
};
pub use lines::Line;
pub use parts::LAST_TRACK;
pub use protocol_parts::LineFault;
pub use reading::{read_line, table_line};
pub use take_back::{Deed, Step};
pub use words::first_word;
