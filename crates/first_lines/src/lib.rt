//! What a connection says before anybody sits over it: a first line, the head of a request, or the first message of a
//! WebSocket. A [`Newcomer`] is such a connection, which never blocks: it is asked again when more has come. A [`Link`] is
//! the connection once its station is known.
//!
//! What came so far is a line or a request by [`heard_in`], which has the main contract. What the bytes of a request mean is
//! of `web_lines`, and what a line asks for of `crew_words`. What a connection brings no clause says.
#![tactic(auto)]

mod heard;
mod link;
mod newcomer;
mod shared;

pub use heard::{Heard, LONGEST_LINE, heard_in, line_in};
pub use link::{Link, tells};
pub use newcomer::{Newcomer, Stage};
pub use shared::Shared;
