//! The words of the program's command line.
//!
//! The main contract is that of [`command_in`]: the words are the command that the table of words says, or none.
#![tactic(auto)]

mod command;
mod names;
mod records;
mod tables;
mod word_faults;

pub use command::{Command, command_in, wants_numbers};
pub use names::RowFault;
pub use records::{RecordNames, records_of};
pub use tables::tabled_of;
pub use word_faults::{Part, WordFault, word_fault};
