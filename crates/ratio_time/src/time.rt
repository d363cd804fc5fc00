// Moments and ranges of time, exact at every rate.
ghost use Rattle.std.specs.Prelude.{◌≡◌, ℤ, ◌≤◌, ◌*◌, ◌^◌, pos, unsigned_abs, OnErr, IfOk, IsErr, ◌↔◌, Ok, Err};
ghost use Rattle.ratio_time.specs.Division.{frames_of, IsNarrowedValue};
ghost use Rattle.ratio_time.specs.Moments.{over, under, OnFrame, IsRoundedDown, IsRoundedUp, IsBetweenFrames, IsOnFarFrame, IsNarrowedNear, IsNarrowedFar, IsNear};

use crate::fraction::Fraction;
use crate::numeral::Numeral;
use crate::rate::Rate;
use std::error::Error;
use std::fmt;

/// The moment `value`/`rate` seconds.
#[derive(Clone, Copy, Debug, PartialEq, Eq)]
pub struct RationalTime {
    pub value: Numeral,
    pub rate: Rate,
}

/// The moments from `start` on, `duration` long, without the last.
#[derive(Clone, Copy, Debug, PartialEq, Eq)]
pub struct TimeRange {
    pub start: RationalTime,
    pub duration: RationalTime,
}

/// Why a moment has no counted frame.
#[derive(Clone, Copy, Debug, PartialEq, Eq)]
pub enum TimeFault {
    /// The moment is between two frames.
    NotOnFrame,
    /// The frame is more than 2,147,483,647 from 0.
    TooFar,
}

/// A frame that is more than 2,147,483,647 from 0.
#[derive(Clone, Copy, Debug, PartialEq, Eq)]
pub struct TooFar;

impl fmt::Display for TimeFault {
    fn fmt<W: fmt::Write>(&self, f: &mut fmt::Formatter<W>) -> fmt::Result {
        f.write_str(match self {
            TimeFault::NotOnFrame => "the moment is between two frames",
            TimeFault::TooFar => "the frame is more than 2147483647 from 0",
        })
    }
}

impl Error for TimeFault {}

impl fmt::Display for TooFar {
    fn fmt<W: fmt::Write>(&self, f: &mut fmt::Formatter<W>) -> fmt::Result {
        f.write_str("the frame is more than 2147483647 from 0")
    }
}

impl Error for TooFar {}

impl RationalTime {
    /// The frame of `rate` that names this very moment, counted from the moment 0.
    pub fn frames_at(&self, rate: &Rate) -> Result<i64, TimeFault>
        ensures ok { (f : ℤ) → (result ≡ Ok f) ↔ (OnFrame self.now rate.now f × IsNear f) }
        ensures not_on_frame { (result ≡ Err TimeFault.NotOnFrame)
            ↔ IsBetweenFrames self.now rate.now }
        ensures too_far { (result ≡ Err TimeFault.TooFar) ↔ IsOnFarFrame self.now rate.now }

        // The answer as a function of the moment and the rate, for definitions that compute.
        ensures value { result ≡ frames_of self.now rate.now }
    {
        let frame = self.floor_at(rate);
        if self.ceiling_at(rate) != frame {
            return Err(TimeFault::NotOnFrame);
        }
        match near(frame) {
            Ok(frame) => Ok(frame),
            Err(TooFar) => Err(TimeFault::TooFar),
        }
    }

    /// The moment rounded down to a frame of the rate.
    fn floor_at(&self, rate: &Rate) -> i128
        ensures rounded { IsRoundedDown self.now rate.now result }
        ensures size { unsigned_abs result ≤ 10 ^ 36 }
    {
        self.in_frames(rate).floor()
    }

    /// The moment rounded up to a frame of the rate.
    fn ceiling_at(&self, rate: &Rate) -> i128
        ensures { IsRoundedUp self.now rate.now result }
    {
        self.in_frames(rate).ceiling()
    }

    /// The moment counted in frames of the rate, most often no whole number of them.
    fn in_frames(&self, rate: &Rate) -> Fraction
        ensures over { result.over ≡ over self.now rate.now }
        ensures under { result.under ≡ pos (under self.now rate.now) }
    {
        Fraction {
            over: self.over(rate),
            under: self.under(rate),
        }
    }

    /// The upper number of the moment counted in frames of the rate.
    fn over(&self, rate: &Rate) -> i128
        ensures value { result ≡ over self.now rate.now }
        ensures size { unsigned_abs result ≤ 10 ^ 36 }
    {
        let factor = u128::from(self.rate.den) * u128::from(rate.num);
        i128::from(self.value.mantissa) * factor as i128
    }

    /// The lower number of the moment counted in frames of the rate.
    fn under(&self, rate: &Rate) -> i128
        ensures value { result ≡ pos (under self.now rate.now) }
        ensures positive { 1 ≤ under self.now rate.now }
        ensures size { under self.now rate.now ≤ 10 ^ 36 }
    {
        let under = self.value.denominator() * u128::from(self.rate.num) * u128::from(rate.den);
        under as i128
    }
}

impl TimeRange {
    /// The range's frames of `rate`: from its start rounded up, to before its start and its duration, each
    /// rounded down, together. Where the second number is not the greater one the range has no frame.
    pub fn narrowed_at(&self, rate: &Rate) -> Result<(i64, i64), TooFar>
        ensures ok { (from to : ℤ) → (result ≡ Ok (from, to))
            ↔ IsNarrowedNear self.now rate.now from to }
        ensures too_far { IsErr result ↔ IsNarrowedFar self.now rate.now }

        // The answer as a function of the range and the rate, for definitions that compute.
        ensures value { IsNarrowedValue self.now rate.now result }
    {
        let from = self.start.ceiling_at(rate);
        let to = self.start.floor_at(rate) + self.duration.floor_at(rate);
        Ok((near(from)?, near(to)?))
    }
}

/// The frame, where it is within 2,147,483,647 of 0, so that 32 bits hold it.
fn near(frame: i128) -> Result<i64, TooFar>
    ensures near { IfOk result (λ f. (f ≡ frame) × IsNear f) }
    ensures too_far { OnErr result (IsNear frame → ⊥) }
{
    if frame.unsigned_abs() > 2_147_483_647 {
        return Err(TooFar);
    }
    Ok(frame as i64)
}
