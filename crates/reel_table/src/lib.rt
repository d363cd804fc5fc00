//! Names in order of first occurrence, without repeats: the reels of a room, by their numbers.
//!
//! The main contract is that of [`Reels::add`]: a name that is there keeps its number, another goes last.
#![tactic(auto)]

mod reels;

pub use reels::Reels;
