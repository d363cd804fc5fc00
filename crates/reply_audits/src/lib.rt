//! The judge of single replies: what a reply tells its station that was recorded, by the point of a journal that it names.
//!
//! The main contract is that of [`told_by`]: what it finds is all that there is to know of the reply, whatever its station
//! had been told of before. [`laws::sessions_are_transcripts`] carries what is known of each reply to whole sessions.
#![tactic(auto)]

mod asking;
mod documents;
mod edits;
mod judging;
pub mod laws;
mod meanings;
mod news;
mod points;
mod questions;
mod texts;

pub use asking::asks_for;
pub use judging::{RecordedReply, RecordedRoom, told_by};
