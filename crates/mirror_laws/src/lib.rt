//! A mirror that follows the replies of a station has a front of the history of that station's room.
//!
//! The main contract is that of [`mirrors_are_fronts_of_their_room`]. It, [`only_gaps_are_refused`] and
//! [`stations_are_told_lines`] are laws, with nothing to run.
#![tactic(auto)]

mod laws;

pub use laws::{mirrors_are_fronts_of_their_room, only_gaps_are_refused, stations_are_told_lines};
