//! What a text in JSON (RFC 8259) is made of: blanks and literal words, texts in quotes, and numbers kept
//! exactly. A reader takes what stands at the front of the bytes that are left, and gives it with what is
//! left after it, or the first fault with its place. [`numeral`] reads a whole text that is one number:
//! its contract is by the grammar alone.
#![tactic(auto)]

mod characters;
mod fault;
mod numerals;
mod rest;
mod text;

pub use characters::text_behind_quote;
pub use fault::JsonFault;
pub use numerals::{numeral, numeral_value};
pub use out_of_memory::Memory;
pub use rest::{Rest, past_blanks, past_byte, word};
pub use text::Text;
