//! A lock for each part of a room. Who holds a part has its home: the part, its seat at the journal, and its version. The
//! type of a home says that the part is what the entries known to its seat come to.
//!
//! [`Tracks::hold`] is the main contract: it gives exactly the parts of its set, in ascending order, each with its home.
//! [`laws::held_parts_stand`] says what a held part stands for once its seat was gathered.
#![tactic(auto)]

mod held;
mod home;
pub mod laws;
mod room;
mod tracks;

pub use held::Held;
pub use tracks::Tracks;
