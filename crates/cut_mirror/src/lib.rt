//! A mirror of a room: a second program that follows a room takes its entries, each with its place, and has what they
//! come to. It works over any object of parts whose calls compare by equality.
//!
//! [`Mirror::take`] is the main contract: it goes on by one entry, or says which rule of the stream the entry breaks.
//! What a mirror has taken is a legal history of its opening, and its parts are those that this history comes to.
//! [`Walk`] goes along a history that is there already, and answers at each point what a room would answer there.
#![tactic(auto)]

mod calls;
mod fault;
pub mod laws;
mod mirror;
mod numbers;
mod parts;
mod walk;

pub use fault::MirrorFault;
pub use mirror::Mirror;
pub use walk::{Walk, WalkFault};
