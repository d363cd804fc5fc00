//! A splice of a track with its dissolves: items in place of a range of record frames.
//!
//! The main contract is that of `splice`: the track has the cells of `spliced` of frame_meaning and the next item
//! number that goes with them; out of memory, it is as it was. `count_after` tells beforehand how many items and gaps
//! there will be. They work on the few items at the two ends of the range. The laws say what may be put in.
//!
//! Edits stand on `place` and `splice_within`, a splice of one track within its limits, and on `shift_tracks`, a splice
//! of several tracks by which what is after it moves on each: it changes all of them or none. `over_limits` and
//! `shifted` are its two halves, the refusal and the change.
#![tactic(auto)]

mod counting;
mod few;
mod laws;
mod parts;
mod placing;
mod seams;
mod shifting;
mod splicing;

pub use counting::count_after;
pub use few::Few;
pub use laws::{
    a_good_track_stays_good, a_good_track_takes_parts, a_place_lies_in_one_footprint_at_most,
    a_spliced_track_is_as_long_as_its_parts, an_unlinked_track_stays_unlinked,
    each_cell_has_its_place, new_items_may_be_put_in, next_numbers_rise_by_the_new_items,
};
pub use placing::{place, splice_within};
pub use shifting::{Shift, new_len, over_limits, shift_tracks, shifted};
pub use splicing::{splice, splice_keeping};
