// Worked labels: the numbers come from the rule of drop-frame counting, by hand.
use std::process::Abort;
use timecode12::{Counting, Label, LabelFault, PastDay, SequenceRate, label_text, read_label};

/// The countings and how many frames their days have.
const COUNTINGS: [(SequenceRate, bool, u32); 6] = [
    (SequenceRate::F23976, false, 2_073_600),
    (SequenceRate::F24, false, 2_073_600),
    (SequenceRate::F25, false, 2_160_000),
    (SequenceRate::F2997, false, 2_592_000),
    (SequenceRate::F2997, true, 2_589_408),
    (SequenceRate::F30, false, 2_592_000),
];

/// The first frames of the minutes of drop-frame counting: 1,800 frames are in the first of ten
/// minutes, 1,798 in each of the others.
const MINUTES: [u32; 21] = [
    0, 1_800, 3_598, 5_396, 7_194, 8_992, 10_790, 12_588, 14_386, 16_184, 17_982, 19_782, 21_580,
    23_378, 25_176, 26_974, 28_772, 30_570, 32_368, 34_166, 35_964,
];

/// The rates as fractions, and how many frames are numbered in each of their seconds.
const RATES: [(SequenceRate, u64, u64, u8); 5] = [
    (SequenceRate::F23976, 24_000, 1_001, 24),
    (SequenceRate::F24, 24, 1, 24),
    (SequenceRate::F25, 25, 1, 25),
    (SequenceRate::F2997, 30_000, 1_001, 30),
    (SequenceRate::F30, 30, 1, 30),
];

/// The hours, minutes, seconds and frames of a label.
type Fields = (u8, u8, u8, u8);

/// Frames of drop-frame counting and their labels.
const DROP_LABELS: [(u32, Fields); 16] = [
    (0, (0, 0, 0, 0)),
    (29, (0, 0, 0, 29)),
    (30, (0, 0, 1, 0)),
    (59, (0, 0, 1, 29)),
    (1_799, (0, 0, 59, 29)),
    (1_800, (0, 1, 0, 2)),
    (1_827, (0, 1, 0, 29)),
    (1_828, (0, 1, 1, 0)),
    (3_597, (0, 1, 59, 29)),
    (3_598, (0, 2, 0, 2)),
    (17_981, (0, 9, 59, 29)),
    (17_982, (0, 10, 0, 0)),
    (19_782, (0, 11, 0, 2)),
    (107_891, (0, 59, 59, 29)),
    (107_892, (1, 0, 0, 0)),
    (2_589_407, (23, 59, 59, 29)),
];

/// Frames of the other countings and their labels.
const PLAIN_LABELS: [(SequenceRate, u32, Fields); 9] = [
    (SequenceRate::F23976, 1_440, (0, 1, 0, 0)),
    (SequenceRate::F24, 86_400, (1, 0, 0, 0)),
    (SequenceRate::F24, 2_073_599, (23, 59, 59, 23)),
    (SequenceRate::F25, 1_501, (0, 1, 0, 1)),
    (SequenceRate::F25, 2_159_999, (23, 59, 59, 24)),
    (SequenceRate::F2997, 1_800, (0, 1, 0, 0)),
    (SequenceRate::F2997, 2_591_999, (23, 59, 59, 29)),
    (SequenceRate::F30, 1_801, (0, 1, 0, 1)),
    (SequenceRate::F30, 108_000, (1, 0, 0, 0)),
];

/// Labels that drop-frame counting leaves out.
const DROPPED: [Fields; 3] = [(0, 1, 0, 0), (0, 1, 0, 1), (23, 59, 0, 1)];

/// Labels with a field that is too large for drop-frame counting.
const TOO_LARGE: [Fields; 6] = [
    (0, 0, 60, 0),
    (0, 1, 60, 0),
    (24, 1, 0, 0),
    (0, 61, 0, 0),
    (0, 0, 0, 30),
    (255, 255, 255, 255),
];

/// Texts of labels.
const SPELLED: [(&str, Fields); 4] = [
    ("01:23:45:06", (1, 23, 45, 6)),
    ("01:23:45;06", (1, 23, 45, 6)),
    ("99:99:99;99", (99, 99, 99, 99)),
    ("00:00:60;00", (0, 0, 60, 0)),
];

/// Texts of no label.
const MISSPELLED: [&str; 11] = [
    "",
    "01:23:45:0",
    "01:23:45:067",
    "01;23:45:06",
    "01:23;45:06",
    "01:23:45.06",
    "1:23:45:06 ",
    "0a:23:45:06",
    "01:23:45:0/",
    "01:23:4::06",
    "-1:23:45:06",
];

/// The counting at this rate, by drop-frame or not; the test ends where there is none.
fn counting(rt: &impl Abort, rate: SequenceRate, drop: bool) -> Counting {
    let Some(counting) = Counting::new(rate, drop) else {
        panic!(rt; "no counting");
    };
    counting
}

/// The label with these fields.
fn label_of((hours, minutes, seconds, frames): Fields) -> Label {
    label(hours, minutes, seconds, frames)
}

/// The label with these fields, each by itself.
fn label(hours: u8, minutes: u8, seconds: u8, frames: u8) -> Label {
    Label {
        hours,
        minutes,
        seconds,
        frames,
    }
}

/// The text of a label with fields below 100, as drop-frame counting writes it or as the others do.
fn written(rt: &impl Abort, found: &Label, drop: bool) -> [u8; 11] {
    assert!(rt; found.hours < 100);
    assert!(rt; found.minutes < 100);
    assert!(rt; found.seconds < 100);
    assert!(rt; found.frames < 100);
    label_text(found, if drop { b';' } else { b':' })
}

/// Whether a label is written so, as drop-frame counting writes it or as the others do.
fn is_written(rt: &impl Abort, found: &Label, drop: bool, text: &str) -> bool {
    written(rt, found, drop).as_slice() == text.as_bytes()
}

/// Whether a frame has that label, and the label that frame.
fn has_label(counting: &Counting, frame: u32, found: &Label) -> bool {
    counting.label_of(frame) == Ok(*found) && counting.frame_of(found) == Ok(frame)
}

/// Whether the label with these fields has no frame, for this fault.
fn is_refused(counting: &Counting, fields: Fields, fault: LabelFault) -> bool {
    counting.frame_of(&label_of(fields)) == Err(fault)
}

/// Whether a text is read as this label, or as none.
fn is_read(text: &str, want: Option<Label>) -> bool {
    read_label(text.as_bytes()) == want
}

/// The frame's label has that frame, and its text is read as that label.
fn goes_there_and_back(rt: &impl Abort, counting: &Counting, frame: u32) {
    let Ok(found) = counting.label_of(frame) else {
        panic!(rt; "no label of {frame}");
    };
    assert!(rt; counting.frame_of(&found) == Ok(frame));
    assert!(rt;
        read_label(&written(rt, &found, false)) == Some(found),
        "at {frame}"
    );
    assert!(rt;
        read_label(&written(rt, &found, true)) == Some(found),
        "at {frame}"
    );
}

/// Whether a rate is this fraction, and is found by it again.
fn is_exact(rate: SequenceRate, num: u64, den: u64) -> bool {
    let found = rate.rate();
    found.num == num && found.den == den && SequenceRate::of(&found) == Some(rate)
}

/// Whether drop-frame counting is there at this rate.
fn may_drop(rate: SequenceRate) -> bool {
    Counting::new(rate, true).is_some()
}

#[test]
fn rates_are_exact(rt: HostRuntime) {
    for (rate, num, den, _) in RATES {
        assert!(rt; is_exact(rate, num, den), "{rate:?}");
        assert!(rt; may_drop(rate) == (rate == SequenceRate::F2997), "{rate:?}");
        let plain = counting(&rt, rate, false);
        assert!(rt; plain.rate() == rate, "{rate:?}");
        assert!(rt; !plain.drop_frame(), "{rate:?}");
    }
    assert!(rt; counting(&rt, SequenceRate::F2997, true).drop_frame());
}

#[test]
fn a_day_ends(rt: HostRuntime) {
    for (rate, drop, day) in COUNTINGS {
        let counting = counting(&rt, rate, drop);
        assert!(rt; counting.day() == day, "{rate:?}");
        assert!(rt; counting.label_of(day) == Err(PastDay), "{rate:?}");
        assert!(rt; counting.label_of(u32::MAX) == Err(PastDay), "{rate:?}");
        let last = match counting.label_of(day.saturating_sub(1)) {
            Ok(last) => (last.hours, last.minutes, last.seconds),
            Err(PastDay) => (0, 0, 0),
        };
        assert!(rt; last == (23, 59, 59), "{rate:?}");
    }
}

#[test]
fn drop_frame_leaves_out_numbers(rt: HostRuntime) {
    let counting = counting(&rt, SequenceRate::F2997, true);
    for (frame, fields) in DROP_LABELS {
        assert!(rt; has_label(&counting, frame, &label_of(fields)), "{frame}");
    }
    assert!(rt; counting.label_of(2_589_408) == Err(PastDay));
}

#[test]
fn a_dropping_minute_begins_at_number_two(rt: HostRuntime) {
    let counting = counting(&rt, SequenceRate::F2997, true);
    for (minute, edge) in MINUTES.iter().enumerate() {
        let minute = u8::try_from(minute).unwrap_or(255);
        let first = if minute % 10 == 0 { 0 } else { 2 };
        assert!(rt;
            counting.label_of(*edge) == Ok(label(0, minute, 0, first)),
            "{minute}"
        );
        let before = match counting.label_of(edge.saturating_sub(1)) {
            Ok(before) => (before.seconds, before.frames),
            Err(PastDay) => (0, 0),
        };
        assert!(rt;
            before == if minute == 0 { (0, 0) } else { (59, 29) },
            "{minute}"
        );
    }
}

#[test]
fn other_countings_leave_out_none(rt: HostRuntime) {
    for (rate, frame, fields) in PLAIN_LABELS {
        let counting = counting(&rt, rate, false);
        let has = has_label(&counting, frame, &label_of(fields));
        assert!(rt; has, "{rate:?} {frame}");
    }
}

#[test]
fn labels_are_refused(rt: HostRuntime) {
    let drop = counting(&rt, SequenceRate::F2997, true);
    for fields in DROPPED {
        let refused = is_refused(&drop, fields, LabelFault::DroppedNumber);
        assert!(rt; refused, "{fields:?}");
    }
    for fields in TOO_LARGE {
        let refused = is_refused(&drop, fields, LabelFault::FieldTooLarge);
        assert!(rt; refused, "{fields:?}");
    }
    assert!(rt; has_label(&drop, 17_982, &label(0, 10, 0, 0)));
    assert!(rt; has_label(&drop, 1_828, &label(0, 1, 1, 0)));
}

#[test]
fn frames_end_with_the_rate(rt: HostRuntime) {
    for (rate, _, _, frames) in RATES {
        let plain = counting(&rt, rate, false);
        let refused = is_refused(&plain, (0, 1, 0, frames), LabelFault::FieldTooLarge);
        assert!(rt; refused, "{rate:?}");
        assert!(rt; plain.frame_of(&label(0, 1, 0, 0)).is_ok(), "{rate:?}");
    }
}

#[test]
fn frames_go_to_labels_and_back(rt: HostRuntime) {
    for (rate, drop, day) in COUNTINGS {
        let counting = counting(&rt, rate, drop);
        let minute = if drop { 1_798 } else { rate.numbers() * 60 };
        for edge in MINUTES {
            for frame in [edge.saturating_sub(1), edge, edge.saturating_add(1)] {
                goes_there_and_back(&rt, &counting, frame);
            }
        }
        for edge in [
            minute,
            2 * minute,
            9 * minute,
            10 * minute,
            11 * minute,
            20 * minute,
            60 * minute,
        ] {
            for frame in [edge.saturating_sub(1), edge, edge.saturating_add(1)] {
                goes_there_and_back(&rt, &counting, frame);
            }
        }
        goes_there_and_back(&rt, &counting, day / 2);
        goes_there_and_back(&rt, &counting, day.saturating_sub(1));
    }
}

#[test]
fn labels_are_spelled(rt: HostRuntime) {
    let found = label(1, 23, 45, 6);
    assert!(rt; is_written(&rt, &found, false, "01:23:45:06"));
    assert!(rt; is_written(&rt, &found, true, "01:23:45;06"));
    assert!(rt; is_written(&rt, &label(99, 0, 9, 10), true, "99:00:09;10"));
    for (text, fields) in SPELLED {
        assert!(rt; is_read(text, Some(label_of(fields))), "{text}");
    }
    for text in MISSPELLED {
        assert!(rt; is_read(text, None), "{text}");
    }
}
