//! Replies of a cutting room as text.
//!
//! The main contract is that of `answer_text`: the reply to an edit is a text that is defined case by case, in `specs/`,
//! has at most 128 bytes, and takes no memory. Replies to questions do take memory (`sight_text`).
#![tactic(auto)]

mod replies;
mod reply;
mod sights;

pub use composables::Memory;
pub use cut_steps::{CutCall, CutObject, CutPart};
pub use protocol_parts::{LineFault, MAX_SHORT, MAX_SHORT_LINE, Short, put, put_number, put_what};
pub use replies::{answer_text, fault_text, point_text};
pub use reply::Reply;
pub use sights::{items_text, sight_text};
