//! What is written as a document is read again as the same cut.
//!
//! The main contract is that of `a_written_cut_is_read_again`: the text of a sound cut, if it has at most 32 MiB, is
//! opened at the same counting as a cut that is the same as it. It is a law, with nothing to run. That a cut is a sound one
//! at any point of a history, with links or without, is `a_cut_at_any_point_is_read_again`.
#![tactic(auto)]

mod laws;

pub use laws::{
    a_cut_at_any_point_is_read_again, a_sound_opening_is_a_sound_cut, a_written_cut_is_read_again,
    a_written_line_is_read_again, what_is_written_is_spelled,
};
