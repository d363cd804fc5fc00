//! Links of items: made, taken away, and asked about where what is linked moves.
//!
//! The main contracts are that `link` and `unlink` leave on the named tracks, and answer, exactly what their meaning says
//! as a list of cells, and that `shift_linked` shifts all named tracks and gives new links to what it moves away from
//! others of its links, or is refused as `check` says. After a refusal all tracks are as they were.
#![tactic(auto)]

mod finding;
mod item_links;
mod key_marks;
mod link_marks;
mod linking;
mod meeting;
mod offsets;
mod outside;
mod passing;
mod renumbering;
mod shifting;
mod splits;
mod starts;
mod staying;
mod unlinking;

pub use finding::{FoundItem, item_on};
pub use item_links::{carried_outside, carries, item_with_link, link_of};
pub use linking::link;
pub use offsets::offset;
pub use outside::{check, outside_refusal};
pub use renumbering::renumber;
pub use shifting::shift_linked;
pub use unlinking::unlink;
