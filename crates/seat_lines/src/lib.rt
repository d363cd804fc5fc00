//! A seat of a room, which outlives the connections over which a station sits on it.
//!
//! A [`Seat`] is a machine as data, with no thread and no socket in it: a connection comes, brings bytes and breaks;
//! the session reads lines and writes replies; replies go out. Each of its calls is a step of that machine. Over all
//! runs of it the session gets each line once and in order, where the client sends again from the line after LINES
//! on, whatever connections it had; and what went out over a connection is what the session wrote, from the reply
//! that its sitting down was answered with, without a gap. The main contract is that of
//! [`each_line_once_and_in_order`].
#![tactic(auto)]

mod cut;
mod laws;
mod line_bytes;
mod replies;
mod saying;
mod seat;

pub use laws::{
    each_line_once_and_in_order, long_lines_stay_long, replies_without_a_gap, two_are_one_client,
};
pub use out_of_memory::Memory;
pub use saying::{Saying, saying_of};
pub use seat::Seat;

/// The most bytes of replies that a seat keeps, where no single reply has more.
pub const MOST_KEPT: usize = 4_194_304;

/// What a seat keeps of its replies when it has to let go of some.
pub const HALF_KEPT: usize = 2_097_152;

/// The most bytes that a seat may have let go of and keep: past it a write is refused for want of memory.
pub const MOST_WRITTEN: u64 = 4_611_686_018_427_387_904;
