//! JSON (RFC 8259) as a tree of values, each with its place in the text. `read` gives exactly the tree
//! that the bytes spell, or the one fault that they have (`bytes_have_one_fault`), with its place;
//! `write` gives the canonical text of a tree, which spells that tree again.
#![tactic(auto)]

mod document;
mod laws;
mod lookup;
mod parts;
mod slack;
mod tree;
mod values;
mod writable;
mod write_fault;
mod writing;

pub use document::{MOST_BYTES, MOST_LEVELS, read};
pub use json_tokens::{JsonFault, Memory, Text, numeral};
pub use laws::{bytes_have_one_fault, limits_are_these};
pub use tree::{Items, Json, Member, Members, Value};
pub use writable::is_writable;
pub use write_fault::WriteFault;
pub use writing::{quote, write, write_behind};
