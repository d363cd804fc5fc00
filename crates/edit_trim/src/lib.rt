//! The edits that move an end of an item, or its source frames. `trim` and `slip` leave all items where they are, and
//! `slip` moves the source frames of all that has the item's link; `ripple` moves what is after the end by as much, on
//! all named tracks.
//!
//! The main contract is that each call leaves on its tracks, and answers, exactly what its meaning says as a list of
//! cells, by the delta that is used: the nearest to the one asked for of those that its limits allow. After a refusal,
//! and out of memory, all tracks are as they were.
#![tactic(auto)]

mod darkness;
mod linked_slips;
mod rippling;
mod slipping;
mod trimming;

pub use rippling::ripple;
pub use slipping::slip;
pub use trimming::trim;
