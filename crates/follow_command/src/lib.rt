//! The command `follow`: a mirror of a room, made of the replies that one of its stations was sent.
//!
//! The main contract is that of [`follow`]: what it writes is the cut that the entries of the stream come to, in whatever
//! pieces the stream came, or the first line of it that has a refusal, with which. `laws::mirrors_are_fronts` says what
//! this is where the stream is what a station of a room was told: the cut of that room, at a point of its history.
#![tactic(auto)]

mod follower;
mod following;
pub mod laws;
mod mirror_text;
mod refusal;

pub use following::follow;
pub use laws::accepted_streams_are_not_refused;
pub use refusal::StreamRefusal;
