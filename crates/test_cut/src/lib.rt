//! A worked cut, as text: two tracks of picture with a dissolve and a title, and two of sound, in a day that begins at
//! 01:00:00:00, at 24 frames a second. Its document, its lists, the tape of a list, and the document that a list makes.
//! It is used by tests alone.
#![tactic(auto)]

mod documents;
mod lists;

pub use documents::{DOCUMENT, IMPORTED};
pub use lists::{LIST, NAMED, NUMBERED, TAPE};
