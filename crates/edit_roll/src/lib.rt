//! The edits that move a cut, or an item between its neighbours, and leave the length of the track as it is.
//!
//! The main contract is that each call leaves on its tracks, and answers, exactly what its meaning says as a list of
//! cells, by the delta that is used: the nearest to the one asked for of those that its limits allow. After a refusal,
//! and out of memory, all tracks are as they were.
#![tactic(auto)]

mod laws;
mod linked_slides;
mod neighbours;
mod rolling;
mod sliding;

pub use laws::{a_roll_keeps_the_length, a_slide_keeps_the_length};
pub use rolling::roll;
pub use sliding::slide;
