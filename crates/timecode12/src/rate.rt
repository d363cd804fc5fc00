// The rates of a sequence.
ghost use Rattle.std.specs.Prelude.{◌≡◌};
ghost use Rattle.timecode12.specs.Numbers.{rate_num, rate_den, sequence_rate, numbers_a_second};

use ratio_time::Rate;

/// How many frames a second a sequence has.
#[derive(Clone, Copy, Debug, PartialEq, Eq)]
pub enum SequenceRate {
    /// 24000/1001 frames a second, numbered 0 to 23.
    F23976,
    /// 24 frames a second.
    F24,
    /// 25 frames a second.
    F25,
    /// 30000/1001 frames a second, numbered 0 to 29.
    F2997,
    /// 30 frames a second.
    F30,
}

impl SequenceRate {
    /// The rate of a sequence that has this numerator and denominator, or `None` where none has them:
    /// 24/1 is one, and 48/2 is none.
    pub fn of(rate: &Rate) -> Option<SequenceRate>
        ensures { result ≡ sequence_rate rate.now.num rate.now.den }
    {
        match (rate.num, rate.den) {
            (24_000, 1_001) => Some(SequenceRate::F23976),
            (24, 1) => Some(SequenceRate::F24),
            (25, 1) => Some(SequenceRate::F25),
            (30_000, 1_001) => Some(SequenceRate::F2997),
            (30, 1) => Some(SequenceRate::F30),
            _ => None,
        }
    }

    /// The exact rate, in frames a second.
    pub fn rate(self) -> Rate
        ensures num { result.num ≡ rate_num self }
        ensures den { result.den ≡ rate_den self }
    {
        let (num, den) = match self {
            SequenceRate::F23976 => (24_000, 1_001),
            SequenceRate::F24 => (24, 1),
            SequenceRate::F25 => (25, 1),
            SequenceRate::F2997 => (30_000, 1_001),
            SequenceRate::F30 => (30, 1),
        };
        Rate { num, den }
    }

    /// How many frame numbers a second has.
    pub fn numbers(self) -> u32
        ensures { result ≡ numbers_a_second self }
    {
        match self {
            SequenceRate::F23976 | SequenceRate::F24 => 24,
            SequenceRate::F25 => 25,
            SequenceRate::F2997 | SequenceRate::F30 => 30,
        }
    }
}
