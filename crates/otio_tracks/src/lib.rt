//! The tracks of a document in OpenTimelineIO's JSON: values and times, clips and gaps, the dissolves between them, and
//! the track that a list of them makes.
//!
//! The main contracts are those of `clip`, of `Row` and of `track_of`: each gives exactly what the document says, or the
//! first fault with its place.
#![tactic(auto)]

mod building;
mod clips;
mod entries;
mod faults;
mod parts;
mod rows;
mod times;
mod transitions;
mod values;

pub use building::track_of;
pub use clips::{Frames, clip};
pub use entries::Entries;
pub use faults::{DocCode, DocFault, Fault};
pub use parts::{Part, enabled, frames_within, head, trim};
pub use rows::Row;
pub use times::{Span, frame, gap_length};
pub use transitions::Waiting;
pub use values::{References, Schema, expect, fault_at, given, list, needed, schema_of, text};
