//! A list of items in pages that copies share. Each item spans some places, and the list finds the item that holds a
//! place page by page. A change makes the pages that it touches anew and shares the others, which are in blocks of some 32: it
//! copies those of a block or two, and of the others the blocks alone.
//!
//! The main contract is that of [`Pages`]: it is its list, whatever its pages are.
#![tactic(auto)]

mod block;
mod blocks;
mod cutting;
mod finding;
mod held;
mod list;
mod marks;
mod packing;
mod page;
mod page_list;
mod passing;
mod reading;
mod shared_pages;
mod spans;
mod spots;

pub use list::Pages;
pub use out_of_memory::Memory;
pub use reading::{Reader, Row};
pub use spans::{Found, Number, Passed, Spanned, Wanted};
