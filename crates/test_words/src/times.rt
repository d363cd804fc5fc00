// Worked values: the numbers come from the definitions, by hand.
use ratio_time::{Numeral, Rate, RationalTime, TimeFault, TimeRange, TooFar, rate_of};
use std::process::Abort;

/// The number `mantissa`/10^`places`.
fn number(rt: &impl Abort, mantissa: i64, places: u8) -> Numeral {
    assert!(rt; mantissa.unsigned_abs() < 1_000_000_000_000_000_000);
    assert!(rt; places <= 18);
    Numeral::least(mantissa, places)
}

/// The rate `num`/`den`.
fn rate(rt: &impl Abort, num: u64, den: u64) -> Rate {
    assert!(rt; 1 <= num);
    assert!(rt; num <= 1_000_000_000_000);
    assert!(rt; 1 <= den);
    assert!(rt; den <= 1_000_000);
    Rate { num, den }
}

/// The moment `mantissa`/10^`places` at a rate.
fn time(rt: &impl Abort, mantissa: i64, places: u8, rate: Rate) -> RationalTime {
    RationalTime {
        value: number(rt, mantissa, places),
        rate,
    }
}

// Numbers as a mantissa and its places, and each number in its shortest form.
const SHORT_FORMS: [(i64, u8, i64, u8); 8] = [
    (1_500, 3, 15, 1),
    (-1_500, 3, -15, 1),
    (1_500, 1, 150, 0),
    (0, 18, 0, 0),
    (7, 18, 7, 18),
    (100_000_000_000_000_000, 17, 1, 0),
    (999_999_999_999_999_999, 18, 999_999_999_999_999_999, 18),
    (-999_999_999_999_999_999, 0, -999_999_999_999_999_999, 0),
];

#[test]
fn a_number_has_one_shortest_form(rt: HostRuntime) {
    for (mantissa, places, short, few) in SHORT_FORMS {
        let got = number(&rt, mantissa, places);
        assert!(rt; got.mantissa == short, "{mantissa} {places}");
        assert!(rt; got.places == few, "{mantissa} {places}");
    }
}

#[test]
fn digits_are_a_number(rt: HostRuntime) {
    assert!(rt; Numeral::of_digits(true, 250, 1) == number(&rt, -25, 0));
    assert!(rt; Numeral::of_digits(true, 0, 2) == number(&rt, 0, 0));
    assert!(rt; Numeral::of_digits(false, 2_997, 2) == number(&rt, 2_997, 2));
    assert!(rt; number(&rt, 125, 2).denominator() == 100);
}

// Whether a number stands for this rate, or for none.
fn is_rate(number: &Numeral, rate: Option<Rate>) -> bool {
    rate_of(number) == rate
}

#[test]
fn a_number_stands_for_a_rate(rt: HostRuntime) {
    for (mantissa, places, num, den) in [
        (23_976, 3, 24_000, 1_001),
        (2_398, 2, 24_000, 1_001),
        (239_760_239_760_239_760, 16, 24_000, 1_001),
        (240, 1, 24, 1),
        (25, 0, 25, 1),
        (2_997, 2, 30_000, 1_001),
        (300, 1, 30, 1),
        (4_795, 2, 48_000, 1_001),
        (5_994, 2, 60_000, 1_001),
        // 1/200 off, and just past it
        (24_005, 3, 24, 1),
        (23_995, 3, 24, 1),
        (240_051, 4, 240_051, 10_000),
        (239_949, 4, 239_949, 10_000),
        (24_995, 3, 25, 1),
        (30_005, 3, 30, 1),
        (300_051, 4, 300_051, 10_000),
        // 24000/1001 and 1/200 are 23.981023976023976023..
        (23_981_023_976_023_976, 15, 24_000, 1_001),
        (23_981_024, 6, 23_981_024, 1_000_000),
        (23_971, 3, 23_971, 1_000),
        (239_711, 4, 24_000, 1_001),
        // no rate of film and television
        (239, 1, 239, 10),
        (48_000, 0, 48_000, 1),
        (96_000, 0, 96_000, 1),
        (125, 1, 125, 10),
        (1, 6, 1, 1_000_000),
        (999_999_999_999, 0, 999_999_999_999, 1),
        (999_999_999_999, 6, 999_999_999_999, 1_000_000),
    ] {
        let is = is_rate(&number(&rt, mantissa, places), Some(rate(&rt, num, den)));
        assert!(rt; is, "{mantissa} {places}");
    }
}

#[test]
fn other_numbers_stand_for_no_rate(rt: HostRuntime) {
    for (mantissa, places) in [
        (0, 0),
        (-24, 0),
        (-23_976, 3),
        (1_000_000_000_000, 0),
        (1_000_000_000_001, 6),
        (1, 7),
        (12_345_678, 7),
        (1, 18),
        (999_999_999_999_999_999, 0),
        (23_981_023_976_023_977, 15),
    ] {
        assert!(rt;
            is_rate(&number(&rt, mantissa, places), None),
            "{mantissa} {places}"
        );
    }
}

// Whether a moment is this frame of a rate, or none for this fault.
fn is_frame(moment: &RationalTime, rate: &Rate, frame: Result<i64, TimeFault>) -> bool {
    moment.frames_at(rate) == frame
}

#[test]
fn a_moment_is_a_frame_of_a_rate(rt: HostRuntime) {
    for (mantissa, places, (num, den), (at_num, at_den), frame) in [
        (96_000, 0, (48_000, 1), (24, 1), 48),
        (-96_000, 0, (48_000, 1), (24, 1), -48),
        (48, 0, (24_000, 1_001), (24_000, 1_001), 48),
        (1_001, 0, (24, 1), (24_000, 1_001), 1_000),
        (25, 1, (1, 1), (24, 1), 60),
        (0, 0, (48, 1), (25, 1), 0),
        (2_147_483_647, 0, (1, 1), (1, 1), 2_147_483_647),
        (-2_147_483_647, 0, (1, 1), (1, 1), -2_147_483_647),
        (1, 18, (1, 1_000_000), (1_000_000_000_000, 1), 1),
    ] {
        let moment = time(&rt, mantissa, places, rate(&rt, num, den));
        let is = is_frame(&moment, &rate(&rt, at_num, at_den), Ok(frame));
        assert!(rt; is, "{mantissa} {places}");
    }
}

#[test]
fn a_moment_may_have_no_counted_frame(rt: HostRuntime) {
    for (mantissa, places, (num, den), (at_num, at_den), fault) in [
        (15, 1, (24, 1), (24, 1), TimeFault::NotOnFrame),
        (-15, 1, (24, 1), (24, 1), TimeFault::NotOnFrame),
        (48, 0, (24, 1), (24_000, 1_001), TimeFault::NotOnFrame),
        (1, 18, (1, 1), (1, 1), TimeFault::NotOnFrame),
        (2_147_483_648, 0, (1, 1), (1, 1), TimeFault::TooFar),
        (-2_147_483_648, 0, (1, 1), (1, 1), TimeFault::TooFar),
        (21_474_836_475, 1, (1, 1), (1, 1), TimeFault::NotOnFrame),
        (
            999_999_999_999_999_999,
            1,
            (1, 1),
            (1, 1),
            TimeFault::NotOnFrame,
        ),
        (
            999_999_999_999_999_999,
            0,
            (1, 1),
            (1, 1),
            TimeFault::TooFar,
        ),
        (
            999_999_999_999_999_999,
            0,
            (1, 1_000_000),
            (1_000_000_000_000, 1),
            TimeFault::TooFar,
        ),
        (
            -999_999_999_999_999_999,
            0,
            (1, 1_000_000),
            (1_000_000_000_000, 1),
            TimeFault::TooFar,
        ),
    ] {
        let moment = time(&rt, mantissa, places, rate(&rt, num, den));
        let is = is_frame(&moment, &rate(&rt, at_num, at_den), Err(fault));
        assert!(rt; is, "{mantissa} {places}");
    }
}

// The first frame of a range and the one after its last.
type Narrowed = Result<(i64, i64), TooFar>;

// Whether a range has these frames of a rate, or one of the two is too far.
fn is_narrowed(range: &TimeRange, rate: &Rate, narrowed: Narrowed) -> bool {
    range.narrowed_at(rate) == narrowed
}

// Starts and durations in tenths of a frame.
const RANGES: [(i64, i64, Narrowed); 17] = [
    (5, 20, Ok((1, 2))),
    (0, 20, Ok((0, 2))),
    (5, 29, Ok((1, 2))),
    (-5, 20, Ok((0, 1))),
    (-15, 27, Ok((-1, 0))),
    (-20, 20, Ok((-2, 0))),
    (5, 9, Ok((1, 0))),
    (30, -5, Ok((3, 2))),
    (21_474_836_470, 0, Ok((2_147_483_647, 2_147_483_647))),
    (21_474_836_465, 10, Ok((2_147_483_647, 2_147_483_647))),
    (21_474_836_465, 20, Err(TooFar)),
    (21_474_836_470, 10, Err(TooFar)),
    (21_474_836_471, 0, Err(TooFar)),
    (21_474_836_480, -10, Err(TooFar)),
    (-21_474_836_475, 10, Ok((-2_147_483_647, -2_147_483_647))),
    (-21_474_836_475, 9, Err(TooFar)),
    (-21_474_836_480, 100, Err(TooFar)),
];

#[test]
fn a_range_is_narrowed_to_whole_frames(rt: HostRuntime) {
    let film = rate(&rt, 24, 1);
    for (start, duration, narrowed) in RANGES {
        let range = TimeRange {
            start: time(&rt, start, 1, film),
            duration: time(&rt, duration, 1, film),
        };
        assert!(rt; is_narrowed(&range, &film, narrowed), "{start} {duration}");
    }
}

#[test]
fn a_range_at_two_rates_is_narrowed(rt: HostRuntime) {
    // one second of film from 1/48 of a second on, in frames of video: 0.52.. to 0.52.. + 25
    let range = TimeRange {
        start: time(&rt, 1, 0, rate(&rt, 48, 1)),
        duration: time(&rt, 24, 0, rate(&rt, 24, 1)),
    };
    assert!(rt; is_narrowed(&range, &rate(&rt, 25, 1), Ok((1, 25))));
}
