// How the frames of a sequence are counted, with or without drop-frame.
ghost use Rattle.std.specs.Prelude.{◌≡◌, ℕ, ◌<◌, ◌≤◌, ◌↔◌, length, IsTrue, IsNone, IfSome, IsErr, IfOk, Ok, Err, if◌then◌else◌};
ghost use Rattle.timecode12.specs.Numbers.{numbers_a_second};
ghost use Rattle.timecode12.specs.Labels.{day_of, IsLabelOf, HasLargeField, is_dropped, IsDropped};
ghost use Rattle.timecode12.specs.Places.{large_field, frame_value};

use crate::label::Label;
use crate::rate::SequenceRate;
use crate::units::Units;
use std::error::Error;
use std::fmt;
use std::marker::Model;

/// The most frames of a day: 24 hours at 30 frames a second.
pub const MAX_DAY_FRAMES: u32 = 2_592_000;

/// A way to number the frames of a day. Drop-frame counting, at 30000/1001 alone, leaves out the
/// numbers 0 and 1 at the start of each minute that is no multiple of ten.
#[derive(Clone, Copy, Debug, PartialEq, Eq)]
pub struct Counting {
    rate: SequenceRate,
    drop: bool,
}

impl Model for Counting {
    ghost use Rattle.std.specs.Prelude.{◌≡◌, IsTrue};
    ghost use Rattle.timecode12.specs.Numbers.{Counted};
    ghost use Rattle.timecode12.specs.declared.rate.SequenceRate.{SequenceRate};

    ghost Value = { Counted };

    ghost view = { λ c. record { rate = c.rate; drop_frame = c.drop } };

    ghost invariant = { λ c. IsTrue c.drop → c.rate ≡ SequenceRate.F2997 };

    ghost inverse = { λ v. record { rate = v.rate; drop = v.drop_frame } };
}

/// A frame that is not in the day.
#[derive(Clone, Copy, Debug, PartialEq, Eq)]
pub struct PastDay;

/// Why a label is no label of the day.
#[derive(Clone, Copy, Debug, PartialEq, Eq)]
pub enum LabelFault {
    /// Hours over 23, minutes or seconds over 59, or a frame number that no second has.
    FieldTooLarge,
    /// A number that drop-frame counting leaves out.
    DroppedNumber,
}

impl fmt::Display for PastDay {
    fn fmt<W: fmt::Write>(&self, f: &mut fmt::Formatter<W>) -> fmt::Result {
        f.write_str("the frame is past the end of the day")
    }
}

impl Error for PastDay {}

impl fmt::Display for LabelFault {
    fn fmt<W: fmt::Write>(&self, f: &mut fmt::Formatter<W>) -> fmt::Result {
        f.write_str(match self {
            LabelFault::FieldTooLarge => "a field of the label is too large",
            LabelFault::DroppedNumber => "drop-frame counting leaves this number out",
        })
    }
}

impl Error for LabelFault {}

impl Counting {
    /// Counts at a rate, by drop-frame or not: `None` where drop-frame is asked for at another rate than
    /// 30000/1001.
    pub fn new(rate: SequenceRate, drop: bool) -> Option<Counting>
        ensures none { IsNone result ↔ (IsTrue drop × (rate ≡ SequenceRate.F2997 → ⊥)) }
        ensures some { IfSome result (λ c. (c.rate ≡ rate) × (c.drop_frame ≡ drop)) }
    {
        if drop && rate != SequenceRate::F2997 {
            return None;
        }
        Some(Counting { rate, drop })
    }

    /// The rate that is counted.
    pub fn rate(&self) -> SequenceRate
        ensures { result ≡ self.now.rate }
    {
        self.rate
    }

    /// Whether it is drop-frame counting.
    pub fn drop_frame(&self) -> bool
        ensures value { result ≡ self.now.drop_frame }
        ensures only { IsTrue result → self.now.rate ≡ SequenceRate.F2997 }
    {
        self.drop
    }

    /// How many frames a day has.
    pub fn day(&self) -> u32
        ensures length { result ≡ length (day_of self.now) }
        ensures some { 0 < result }
        ensures most { result ≤ MAX_DAY_FRAMES }
    {
        self.units().day()
    }

    /// The label of a frame of the day, counted from 0.
    pub fn label_of(&self, frame: u32) -> Result<Label, PastDay>
        ensures label { IfOk result (IsLabelOf self.now frame) }
        ensures past_day { IsErr result ↔ (length (day_of self.now) ≤ frame) }
    {
        if frame >= self.day() {
            return Err(PastDay);
        }
        Ok(self.units().label_at(frame))
    }

    /// The frame of a label. Too large a field is told before a dropped number.
    pub fn frame_of(&self, label: &Label) -> Result<u32, LabelFault>
        ensures ok { (frame : ℕ) → (result ≡ Ok frame) ↔ IsLabelOf self.now frame label.now }
        ensures field_too_large { (result ≡ Err LabelFault.FieldTooLarge)
            ↔ HasLargeField self.now label.now }
        ensures dropped_number { (result ≡ Err LabelFault.DroppedNumber)
            ↔ ((HasLargeField self.now label.now → ⊥) × IsDropped self.now label.now) }

        // The answer as a function of the label, for definitions that compute.
        ensures value { result ≡ frame_value self.now label.now }
    {
        if self.has_large_field(label) {
            return Err(LabelFault::FieldTooLarge);
        }
        if self.is_dropped(label) {
            return Err(LabelFault::DroppedNumber);
        }
        Ok(self.units().frame_at(label))
    }

    /// Whether hours, minutes or seconds are too large, or no second has this frame number.
    fn has_large_field(&self, label: &Label) -> bool
        ensures fact { IsTrue result ↔ HasLargeField self.now label.now }
        ensures test { result ≡ large_field self.now label.now }
    {
        label.hours > 23
            || label.minutes > 59
            || label.seconds > 59
            || u32::from(label.frames) >= self.rate.numbers()
    }

    /// Whether the counting leaves the label out, as drop-frame does with the first two of most minutes.
    fn is_dropped(&self, label: &Label) -> bool
        ensures fact { IsTrue result ↔ IsDropped self.now label.now }
        ensures test { result ≡ is_dropped self.now.drop_frame label.now }
    {
        self.drop && label.minutes % 10 != 0 && label.seconds == 0 && label.frames < 2
    }

    /// How many numbers a second has, and how many a minute lacks.
    fn units(&self) -> Units
        ensures numbers { result.numbers ≡ numbers_a_second self.now.rate }
        ensures dropped { result.dropped ≡ (if self.now.drop_frame then 2 else 0) }
    {
        Units {
            numbers: self.rate.numbers(),
            dropped: if self.drop { 2 } else { 0 },
        }
    }
}
