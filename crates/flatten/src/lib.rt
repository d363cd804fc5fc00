//! What a cut shows, reel by reel: the video tracks stacked into one channel, the audio tracks each by itself, and
//! nests looked through.
//!
//! The main contract is that of `flatten`: the maximal runs of the frames of each channel, which are defined place by
//! place. The code composes runs, track by track and nest by nest, and never goes over frames. `segments` cuts a
//! channel into what an edit decision list has as events, and `find_hiding_fades` finds the fades of a cut which hide a
//! picture.
#![tactic(auto)]

mod channels;
mod cutting;
mod finding;
mod hiding;
mod joins;
mod laws;
mod nests;
mod sights;
mod stacks;
mod strips;

pub use channels::{Shown, flatten};
pub use cutting::{Segment, SegmentFault, segments};
pub use hiding::{HidingFade, find_hiding_fades};
pub use laws::{
    a_channel_has_one_cutting, a_part_of_a_dissolve_has_no_cutting,
    the_runs_of_a_channel_are_its_frames,
};
