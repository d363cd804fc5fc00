//! Whether a journal explains what was recorded of a station: the lines that it sent, and the replies that it got.
//!
//! The main contract is that of [`audit_session`]: by what is known of each reply, the session is explained, or stops
//! at its first reply, line or entry that is not. What explains a reply is said above this crate, by a trait.
#![tactic(auto)]

mod following;
mod naming;
mod session;
mod telling;
mod texts;

pub use naming::point_named;
pub use out_of_memory::Memory;
pub use session::{Explains, Heard, Stop, audit_session};
pub use telling::Told;
pub use texts::{lines_of, replies_of};
