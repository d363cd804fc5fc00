//! What a cut is composed of: tracks of items and gaps, the table of reels, media and nests, and the calls that
//! edit it.
//!
//! The main contract is that of `Track`: contracts see its number, a list of cells, one for each frame, and its next
//! item and link numbers; the code keeps items and gaps and never makes a cell.
#![tactic(auto)]

mod calls;
mod cells;
mod facts;
mod item_reader;
mod items;
mod laws;
mod laying;
mod lists;
mod media;
mod named_tracks;
mod numbers;
mod places;
mod refusals;
mod tracks;

pub use calls::{
    Dissolve, End, Extract, Fill, FillLength, Insert, Link3, Numbers, Overwrite, Remove, Ripple,
    Roll, Slice, Slide, Slip, Trim, Undissolve, Unlink,
};
pub use facts::holds;
pub use item_reader::ItemReader;
pub use items::{ItemView, Place, key_of_link};
pub use laws::{
    a_dissolve_may_stand_at_a_cut, a_place_lies_in_one_item, a_track_is_kept, limits_are_these,
};
pub use lists::Listed;
pub use media::{Kind, Layer, Media, Nest, Table};
pub use named_tracks::{copies_of, has_track, own_index};
pub use numbers::{number_past, number_past_all};
pub use out_of_memory::{Fault, Memory};
pub use reel_table::Reels;
pub use refusals::{Done, EditFault, Refusal, Which};
pub use tracks::Track;

/// The most frames of a track.
pub const MAX_FRAMES: u32 = 2_592_000;

/// The most items of a track, gaps counted.
pub const MAX_ITEMS: u32 = 65_536;
