//! What every call leaves of the tracks that it names.
//!
//! The main contract is that of `good_law`: what each call means for the tracks that it names leaves them good.
//! `shown_law` says which things they show then, and `kept_law` what each of them is in the words of an editor. These are
//! laws, with nothing to run.
#![tactic(auto)]

mod laws;

pub use laws::{good_law, kept_law, shown_law};
