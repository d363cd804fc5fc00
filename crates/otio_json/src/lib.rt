//! Documents in OpenTimelineIO's JSON: a timeline is read into an opening of a room, and a cut is written.
//!
//! The main contract is that of `read_timeline`: it gives exactly the opening that the document describes, or the
//! first fault of the document with its place.
#![tactic(auto)]

mod laws;
mod nests;
mod opening;
mod timeline;

pub use laws::{a_track_shows_its_items_one_after_another, limits_are_these};
pub use opening::Opening;
pub use otio_text::{WriteFault, timeline_length, write_timeline, write_timeline_after};
pub use otio_tracks::{DocCode, DocFault};
pub use timeline::{MAX_NESTS, MAX_TRACKS, read_timeline};
