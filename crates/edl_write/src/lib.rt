//! Edit decision lists, after CMX 3600: the events of a cut in order, and their text.
//!
//! The main contract is that of [`write_list`]: the text of the cut's events with the names that a namer gives their
//! reels, or the first reason for which the cut has no list.
#![tactic(auto)]

mod checks;
mod cut_events;
mod fault;
mod laws;
mod lines;
mod list;
mod naming;
mod ordering;

pub use fault::ListFault;
pub use laws::{a_cut_has_one_answer, a_cut_has_one_list_of_events};
pub use list::{Written, write_list};
pub use ordering::ChannelSegment;
