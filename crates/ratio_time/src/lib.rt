//! Exact time, after OpenTimelineIO's `RationalTime`: decimal numbers, rates of so many a second, and
//! moments that are whole frames of a rate or are not. No float is used, and moments are compared by
//! whole numbers multiplied crosswise. The main contracts are those of [`RationalTime::frames_at`],
//! [`TimeRange::narrowed_at`] and [`rate_of`], each exact in both directions. No call here is given
//! an allocator.
#![tactic(auto)]

mod fraction;
mod laws;
mod numeral;
mod rate;
mod time;
mod usual_rates;

pub use laws::one_form;
pub use numeral::Numeral;
pub use rate::Rate;
pub use time::{RationalTime, TimeFault, TimeRange, TooFar};
pub use usual_rates::rate_of;
