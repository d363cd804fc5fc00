//! The call that the program makes: its words, the room that they ask for, the stations in it, and the journal.
//!
//! The main contract is that of `cut_main`: with status 0 the output is one reply to each line of the input, in whatever
//! pieces it came, and then the text of a journal that is one legal serial history and tells every one of the replies. The
//! history begins with a plain room, or with the room that a document describes, and linked items keep one offset at every
//! point of it. The list of a cut at a point of a journal, read again, shows what the cut shows.
#![tactic(auto)]

pub mod laws;
mod main_call;

pub use command_words::{RowFault, tabled_of, wants_numbers};
pub use main_call::cut_main;
