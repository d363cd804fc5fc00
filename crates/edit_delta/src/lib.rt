//! The delta that an edit uses where it moves a head, a tail, a cut, an item or its source frames.
//!
//! The main contract is that of `nearest_within`: of the deltas that are allowed it is the one between 0 and the delta
//! asked for that is nearest to the latter. The set of those allowed is stated over cells and over the ranges of the
//! things that they show; the code has its two ends.
#![tactic(auto)]

mod deltas;
mod laws;
mod placing;
mod reaching;

pub use deltas::{Used, Way, nearest_within, used_within, way_of};
pub use laws::a_set_of_deltas_has_one_nearest;
pub use placing::place_parts;
pub use reaching::{frames_after, frames_before, going_on, reaching_back};
