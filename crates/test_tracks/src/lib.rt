//! Tracks laid from a list of items and gaps, with the facts that the edits ask for. They are made by tests alone.
//!
//! The main contract is that of [`laid_track`]: the track has exactly these items and gaps, and is good, roomy and without
//! links; where there is no such track there is none. [`linked_track`] lays items of which some may have links.
#![tactic(auto)]

mod laying;
mod roomy;
mod tables;
mod texts;

pub use laying::{clip, dissolve, gap, laid_track, linked, linked_track};
pub use roomy::all_roomy;
pub use tables::small_table;
pub use texts::told_all;
