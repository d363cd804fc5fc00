//! The meaning of a cut, as plain data: what a frame shows, and the cells that a track is made of.
//!
//! A track is a list of cells, one for each frame. What is shown at a place, which runs go on, and what a splice
//! leaves are functions of that list, defined in `specs/`. The main contract is that of `goes_on`, on which runs
//! stand; `rendered` and `runs_of` are plain, slow programs whose contracts are the definitions, for tests to
//! compare faster bodies with.
#![tactic(auto)]

mod cells;
mod frames;
mod laws;
mod plain;

pub use cells::{Cell, Link, Mark, What, same_item};
pub use frames::{Frame, Run, Side, goes_on};
pub use laws::runs_are_maximal_and_all;
pub use out_of_memory::Memory;
pub use plain::{rendered, runs_of};
