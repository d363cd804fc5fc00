//! What an edit decision list has, as data: channels, events, and the tape that they make when they are played.
//!
//! What a channel of the tape shows at a record frame is `tape_at` of `specs/Tape.antt`. [`tape_frame`] is a plain, slow
//! program whose contract is that definition, for tests to compare faster bodies with.
#![tactic(auto)]

mod channel;
mod event;
mod plain;

pub use channel::Channel;
pub use event::{Event, FromLine};
pub use plain::tape_frame;
