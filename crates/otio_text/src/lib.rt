//! A cut as a document in OpenTimelineIO's JSON.
//!
//! The main contract is that of `write_timeline`: it gives exactly the text of the cut, or says that the text has more
//! than 32 MiB. How many bytes it has is known before it is written, by `timeline_length`.
#![tactic(auto)]

mod document;
mod text;
mod writing;

pub use document::{timeline_length, write_timeline, write_timeline_after};
pub use writing::WriteFault;
