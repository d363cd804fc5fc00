//! Calls of any object taken back: a station takes back what it did last on some parts, where nothing has changed them
//! since. [`Backed`] makes such an object of any object of parts; nothing here knows what a part is.
//!
//! [`laws::what_is_left_is_a_history`] is the main contract: whatever is done and taken back, the parts are those that
//! the calls come to that are left, and each of these has the answer that it had. [`laws::taken_back_as_it_was`] says
//! that a call and its taking back leave the parts as they were.
#![tactic(auto)]

mod answers;
mod back;
mod backed;
mod doing;
mod kept;
pub mod laws;
mod step;

pub use answers::{BackDone, BackRefusal};
pub use backed::Backed;
pub use kept::{Former, Kept, fresh_parts, nows_of};
pub use step::{Deed, Step};
