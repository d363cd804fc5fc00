//! What is written as an edit decision list is read again, and plays as the cut.
//!
//! The main contract is that of `a_written_list_makes_the_round_trip`: the text that is written of a cut is read again,
//! at the cut's rate, as a list whose tape shows, on each channel and at each frame, what the cut shows. It is a law,
//! with nothing to run. It stands on two: `a_written_list_is_read_again` of the text, `a_list_plays_as_its_cut` of the
//! tape.
#![tactic(auto)]

mod laws;

pub use laws::{
    a_list_plays_as_its_cut, a_written_list_is_read_again, a_written_list_makes_the_round_trip,
};
