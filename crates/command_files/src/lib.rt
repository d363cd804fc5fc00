//! What a command reads out of files and how it ends: a document, a journal or an edit decision list, each with its limit
//! and refused for its first fault; the text that it puts on the output, and the status of the program.
//!
//! The main contracts are those of [`open_document`], [`open_journal`] and [`open_list`]: what is opened is what the file's
//! bytes are, and what is refused has that fault first; and of [`end_with`]: the text is put and the status is the one that
//! was asked for, or the write failed and the status says so.
#![tactic(auto)]

mod documents;
mod ending;
mod faults;
mod journals;
mod lists;
mod status;

pub use documents::{DocumentRefusal, open_document};
pub use ending::{end_with, refusal_line};
pub use faults::{InputFault, Refusal, end_unopened};
pub use journals::{JournalRefusal, open_journal};
pub use lists::{ListRefusal, open_list};
pub use status::Status;
