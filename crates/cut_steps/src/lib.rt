//! What a room of cuts keeps, by the names under which all above speak of it: the tracks of a cut, each with what it was
//! before its last edit, and the steps that stations ask for, an edit or the taking back of one.
//!
//! The main contract is that of `cuts_are_what_is_left`: at any point of a room's history the tracks are those that the
//! edits come to which are left, one after another.
#![tactic(auto)]

mod cuts;
mod laws;

pub use cuts::{CutCall, CutObject, CutPart, cut_object};
pub use laws::cuts_are_what_is_left;
pub use take_back::{BackDone, BackRefusal, Deed, Kept, Step, fresh_parts, nows_of};
