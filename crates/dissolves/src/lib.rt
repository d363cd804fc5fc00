//! What is shown in a range of a track, as maximal runs of frames, and the dissolves at its cuts.
//!
//! The main contract is that of `runs_in`: the runs of the frames that the track's cells show, cut to the range. The
//! code goes over the items and gaps of the range and never over frames. `dissolve` and `undissolve` set the mark of the
//! cell at a cut, exactly where its sides have room for it.
#![tactic(auto)]

mod cuts;
mod marking;
mod parts;
mod pieces;
mod shown;

pub use marking::{dissolve, undissolve};
pub use shown::runs_in;
