//! The parts that a history comes to, and the cuts that are kept of one. Nothing here knows what a part is.
//!
//! [`replay`] is the main contract: it does the first entries of a list, one after another, each in place, on an
//! opening or on what entries of an opening came to, or says which is the first that does not apply. Each cut that
//! [`Points`] keeps is what the history comes to at its point, and the nearest one before a point is found, so that a
//! replay can begin there. It keeps 20 at most.
#![tactic(auto)]

mod calls;
mod fault;
mod naming;
mod places;
mod points;
mod replaying;

pub use calls::apply_in_place;
pub use fault::ReplayFault;
pub use places::Places;
pub use points::{MOST_KEPT, Points};
pub use replaying::{copy_parts, replay};
