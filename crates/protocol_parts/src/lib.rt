//! What lines and replies are made of: numbers and things as bytes, short texts that take no memory, and why a line is
//! none of the table.
//!
//! The main contract is that of [`Short`]: it is the text of what was pushed, and never longer than it may be.
#![tactic(auto)]

mod bytes;
mod line_fault;
mod short_text;

pub use bytes::{put, put_number, put_what};
pub use line_fault::LineFault;
pub use out_of_memory::Memory;
pub use short_text::{MAX_SHORT, MAX_SHORT_LINE, Short};
