//! How a call answers that found no memory: alone, or beside its refusals. The crates above hand both on under their
//! own names, so that one call's answer is another's by `?`.
#![tactic(auto)]

mod fault;

pub use fault::{Fault, Memory};
