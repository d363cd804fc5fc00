//! The session of one station in a room: its lines, in whatever pieces they come, each with its reply, and at most one
//! entry of the journal for each.
//!
//! The main contract is that of `serve_session`: what the station's pass knows at the end tells the reply to every line,
//! whatever other stations commit meanwhile. `laws::transcripts_stay` carries this to any legal history that goes on from
//! there without an entry of the station.
#![tactic(auto)]

mod beginning;
mod document_reply;
pub mod laws;
mod news_reply;
mod serve;
mod station;

pub use beginning::begin_room;
pub use serve::{End, Session, serve_session};
pub use station::Setting;
