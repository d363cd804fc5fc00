//! Names of reels in an edit decision list, and what gives them. The main contract is that of the trait [`ReelNamer`].
#![tactic(auto)]

mod as_is;
mod digits;
mod given;
mod name;
mod namer;
mod numbered;
mod table;
mod tabled;

pub use as_is::AsIs;
pub use digits::three_digits;
pub use given::name_among;
pub use name::{MAX_NAME, Name};
pub use namer::{NameFault, ReelName, ReelNamer};
pub use numbered::{MAX_NUMBERED, Numbered};
pub use table::TableFault;
pub use tabled::Tabled;
