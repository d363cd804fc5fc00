//! Labels of the frames of a day, by SMPTE ST 12-1, with and without drop-frame. The day is defined
//! as the ascending list of its labels, of which frame n has the n-th. The main contracts are those of
//! [`Counting::label_of`] and [`Counting::frame_of`], which are exact and inverse to each other over
//! the whole day; the second pair, [`read_label`] and [`label_text`], spells labels. No call here is
//! given an allocator.
#![tactic(auto)]

mod counting;
mod label;
mod laws;
mod rate;
mod spelling;
mod units;

pub use counting::{Counting, LabelFault, MAX_DAY_FRAMES, PastDay};
pub use label::Label;
pub use laws::{frames_and_labels, texts_and_labels};
pub use rate::SequenceRate;
pub use spelling::{label_text, read_label};
