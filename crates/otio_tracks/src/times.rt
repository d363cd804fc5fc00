// Times: moments and ranges, in frames of the sequence.
ghost use Rattle.std.specs.Prelude.{◌≡◌, ◌≤◌, unsigned_abs, IfOk};
ghost use Rattle.json_tree.specs.View.{tree_of};
ghost use Rattle.otio_tracks.specs.Reading.{Reads};
ghost use Rattle.otio_tracks.specs.Times.{rate_pair, moment_of, numeral_read, rate_read, moment_read, frame_read, length_read, span_read, gap_read};

use crate::faults::{DocCode, Fault};
use crate::values::{expect, fault_at, needed};
use json_tree::{Json, Value};
use ratio_time::{Numeral, Rate, RationalTime, rate_of};

/// A range of time in whole frames, and its place in the text.
#[derive(Clone, Copy, Debug, PartialEq, Eq)]
pub struct Span {
    pub at: u32,
    pub start: i64,
    pub len: u32,
}

// The number that a value is: J3 where it has too many digits, O3 where it is none.
fn numeral(json: &Json) -> Result<Numeral, Fault>
    ensures { Reads (λ n. (n.mantissa, n.places)) result (numeral_read (tree_of json.now)) }
{
    match &json.value {
        Value::Numeral(number) => Ok(*number),
        Value::Wide => Err(fault_at(DocCode::J3, json)),
        _ => Err(fault_at(DocCode::O3, json)),
    }
}

// The rate that a number stands for, or O5 where it stands for none.
fn rate(json: &Json) -> Result<Rate, Fault>
    ensures { Reads rate_pair result (rate_read (tree_of json.now)) }
{
    let number = numeral(json)?;
    match rate_of(&number) {
        Some(rate) => Ok(rate),
        None => Err(fault_at(DocCode::O5, json)),
    }
}

/// A moment, at whatever rate.
#[tactic(auto, unfolding(crate::specs::Times::moment_read))]
pub(crate) fn moment(json: &Json) -> Result<RationalTime, Fault>
    ensures { Reads moment_of result (moment_read (tree_of json.now)) }
{
    expect(json, "RationalTime.1")?;
    let rate = rate(needed(json, "rate")?)?;
    let value = numeral(needed(json, "value")?)?;
    Ok(RationalTime { value, rate })
}

/// A moment that is a whole number of frames of the sequence, or O4.
#[tactic(auto, unfolding(crate::specs::Times::frame_read))]
pub fn frame(rate: &Rate, json: &Json) -> Result<i64, Fault>
    ensures frame { result ≡ frame_read (rate_pair rate.now) (tree_of json.now) }
    ensures near { IfOk result (λ f. unsigned_abs f ≤ 2147483647) }
{
    match moment(json)?.frames_at(rate) {
        Ok(frame) => Ok(frame),
        Err(_) => Err(fault_at(DocCode::O4, json)),
    }
}

/// The frames of a range's `duration`, which are O14 below 0.
#[tactic(auto, unfolding(crate::specs::Times::length_read))]
fn length(rate: &Rate, range: &Json) -> Result<u32, Fault>
    ensures length { result ≡ length_read (rate_pair rate.now) (tree_of range.now) }
    ensures near { IfOk result (λ n. n ≤ 2147483647) }
{
    let duration = needed(range, "duration")?;
    let frames = frame(rate, duration)?;
    if frames < 0 {
        return Err(fault_at(DocCode::O14, duration));
    }
    Ok(frames as u32)
}

/// A range of whole frames.
#[tactic(auto, unfolding(crate::specs::Times::span_read))]
pub(crate) fn whole_span(rate: &Rate, range: &Json) -> Result<Span, Fault>
    ensures span { result ≡ span_read (rate_pair rate.now) (tree_of range.now) }
    ensures near { IfOk result (λ s. (unsigned_abs s.start ≤ 2147483647) × (s.len ≤ 2147483647)) }
{
    expect(range, "TimeRange.1")?;
    let start = frame(rate, needed(range, "start_time")?)?;
    let len = length(rate, range)?;
    Ok(Span {
        at: range.at,
        start,
        len,
    })
}

/// The frames of a gap, whose start is not looked at.
#[tactic(auto, unfolding(crate::specs::Times::gap_read))]
pub fn gap_length(rate: &Rate, range: &Json) -> Result<u32, Fault>
    ensures length { result ≡ gap_read (rate_pair rate.now) (tree_of range.now) }
    ensures near { IfOk result (λ n. n ≤ 2147483647) }
{
    expect(range, "TimeRange.1")?;
    length(rate, range)
}
