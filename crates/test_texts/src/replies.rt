// Replies.

use composables::{Done, ItemView, Listed, Refusal, Which};
use cut_room::{Answer, Sight};
use cut_steps::{BackDone, BackRefusal};
use edit_apply::{AskRefusal, Seen};
use frame_meaning::{Frame, Link, Mark, Run, Side, What};
use reply_text::{
    CutObject, LineFault, MAX_SHORT, Short, answer_text, fault_text, point_text, sight_text,
};
use std::test::Fail;

// Faults of lines.
fn faulty(row: u32) -> Option<(LineFault, &'static str)> {
    match row {
        0 => Some((LineFault::B1, "bad B1")),
        1 => Some((LineFault::B2, "bad B2")),
        2 => Some((LineFault::B3, "bad B3")),
        3 => Some((LineFault::B4, "bad B4")),
        4 => Some((LineFault::B5, "bad B5")),
        5 => Some((LineFault::B6, "bad B6")),
        6 => Some((LineFault::Memory, "memory")),
        _ => None,
    }
}

#[test]
fn faults_of_lines_are_replied(rt: HostRuntime) -> Result<(), Fail> {
    for row in 0..7u32 {
        let (fault, want) = faulty(row).ok_or("a row")?;
        assert_eq!(rt; fault_text(&fault).as_bytes(), want.as_bytes(), "row {row}");
    }
    Ok(())
}

// Edits that are done, after 7 entries.
fn done(row: u32) -> Option<(Done, &'static str)> {
    match row {
        0 => Some((Done::Plain, "ok 7")),
        1 => Some((Done::Item(0), "ok 7 item 0")),
        2 => Some((Done::By(-12), "ok 7 by -12")),
        3 => Some((Done::By(0), "ok 7 by 0")),
        4 => Some((
            Done::Linked {
                home: 3,
                number: 14,
            },
            "ok 7 link 3.14",
        )),
        _ => None,
    }
}

#[test]
fn edits_are_replied(rt: HostRuntime) -> Result<(), Fail> {
    for row in 0..5u32 {
        let (done, want) = done(row).ok_or("a row")?;
        let answer = Answer::Done {
            point: 7,
            done: BackDone::Own(done),
        };
        assert_eq!(rt;
            answer_text(&answer).as_bytes(),
            want.as_bytes(),
            "row {row}"
        );
    }
    Ok(())
}

// Edits that are refused, after 10 entries.
fn refused(row: u32) -> Option<(Refusal, &'static str)> {
    match row {
        0 => Some((Refusal::NoTrack(9), "no 10 E1 9")),
        1 => Some((Refusal::NoItem, "no 10 E2")),
        2 => Some((Refusal::NoMedia, "no 10 E3")),
        3 => Some((Refusal::EmptyRange, "no 10 E4")),
        4 => Some((Refusal::MediaEnds, "no 10 E5")),
        5 => Some((Refusal::NotAGap(86400), "no 10 E6 86400")),
        6 => Some((Refusal::NotACut(5), "no 10 E7 5")),
        7 => Some((Refusal::DissolveRoom(Which::Left), "no 10 E8 left")),
        8 => Some((Refusal::DissolveRoom(Which::Right), "no 10 E8 right")),
        9 => Some((Refusal::OffsetsDiffer(-3, 4), "no 10 E9 -3 4")),
        10 => Some((
            Refusal::AlreadyLinked { track: 1, item: 20 },
            "no 10 E10 1 20",
        )),
        11 => Some((
            Refusal::LinkOutside {
                home: 1,
                number: 2,
                track: 3,
            },
            "no 10 E11 1.2 3",
        )),
        12 => Some((
            Refusal::LinkBroken {
                home: 4294967295,
                number: 4294967295,
                old: i64::MIN,
                new: i64::MAX,
            },
            "no 10 E12 4294967295.4294967295 -9223372036854775808 9223372036854775807",
        )),
        13 => Some((Refusal::TooLong(31), "no 10 E13 31")),
        14 => Some((Refusal::TooManyItems(0), "no 10 E14 0")),
        _ => None,
    }
}

#[test]
fn refused_edits_are_replied(rt: HostRuntime) -> Result<(), Fail> {
    for row in 0..15u32 {
        let (refusal, want) = refused(row).ok_or("a row")?;
        let answer = Answer::Refused {
            point: 10,
            refusal: BackRefusal::Own(refusal),
        };
        assert_eq!(rt;
            answer_text(&answer).as_bytes(),
            want.as_bytes(),
            "row {row}"
        );
    }
    Ok(())
}

// Takings back, after 10 entries.
fn taken_back(row: u32) -> Option<(Answer<CutObject>, &'static str)> {
    let refused = |refusal: BackRefusal<Refusal>| Answer::Refused { point: 10, refusal };
    match row {
        0 => Some((
            Answer::Done {
                point: 10,
                done: BackDone::Plain,
            },
            "ok 10",
        )),
        1 => Some((refused(BackRefusal::NoPart(2)), "no 10 E1 2")),
        2 => Some((refused(BackRefusal::NotYours(0)), "no 10 E16 0")),
        3 => Some((refused(BackRefusal::OtherTracks(31)), "no 10 E17 31")),
        _ => None,
    }
}

#[test]
fn takings_back_are_replied(rt: HostRuntime) -> Result<(), Fail> {
    for row in 0..4u32 {
        let (answer, want) = taken_back(row).ok_or("a row")?;
        assert_eq!(rt;
            answer_text(&answer).as_bytes(),
            want.as_bytes(),
            "row {row}"
        );
    }
    Ok(())
}

// The longest reply of each form that numbers can make longer: they are as long as they can be.
fn longest(row: u32) -> Option<(Answer<CutObject>, &'static str)> {
    let point = 4294967295;
    match row {
        0 => Some((
            Answer::Done {
                point,
                done: BackDone::Own(Done::By(i32::MIN)),
            },
            "ok 4294967295 by -2147483648",
        )),
        1 => Some((
            Answer::Done {
                point,
                done: BackDone::Own(Done::Linked {
                    home: 4294967295,
                    number: 4294967295,
                }),
            },
            "ok 4294967295 link 4294967295.4294967295",
        )),
        2 => Some((
            Answer::Refused {
                point,
                refusal: BackRefusal::Own(Refusal::OffsetsDiffer(i64::MIN, i64::MIN)),
            },
            "no 4294967295 E9 -9223372036854775808 -9223372036854775808",
        )),
        3 => Some((
            Answer::Refused {
                point,
                refusal: BackRefusal::Own(Refusal::LinkOutside {
                    home: 4294967295,
                    number: 4294967295,
                    track: 4294967295,
                }),
            },
            "no 4294967295 E11 4294967295.4294967295 4294967295",
        )),
        4 => Some((
            Answer::Refused {
                point,
                refusal: BackRefusal::Own(Refusal::LinkBroken {
                    home: 4294967295,
                    number: 4294967295,
                    old: i64::MIN,
                    new: i64::MIN,
                }),
            },
            "no 4294967295 E12 4294967295.4294967295 -9223372036854775808 -9223372036854775808",
        )),
        5 => Some((
            Answer::Refused {
                point,
                refusal: BackRefusal::OtherTracks(4294967295),
            },
            "no 4294967295 E17 4294967295",
        )),
        _ => None,
    }
}

#[test]
fn the_longest_replies_to_edits_are_short(rt: HostRuntime) -> Result<(), Fail> {
    for row in 0..6u32 {
        let (answer, want) = longest(row).ok_or("a row")?;
        let text = answer_text(&answer);
        assert_eq!(rt; text.as_bytes(), want.as_bytes(), "row {row}");
        assert!(rt; text.as_bytes().len() <= MAX_SHORT, "row {row}");
    }
    Ok(())
}

#[test]
fn a_full_journal_and_want_of_memory_are_replied(rt: HostRuntime) {
    let full = Answer::Full { point: 100000 };
    assert_eq!(rt; answer_text(&full).as_bytes(), b"no 100000 E15".as_slice());
    assert_eq!(rt;
        answer_text(&Answer::Memory).as_bytes(),
        b"memory".as_slice()
    );
}

#[test]
fn a_short_text_has_room_for_its_line_feed(rt: HostRuntime) {
    let mut text = point_text(4294967295);
    text.push(b"\n");
    assert_eq!(rt; text.as_bytes(), b"point 4294967295\n".as_slice());
    let mut full = Short::new();
    full.push(&[b'x'; 128]);
    full.push(b"\n");
    assert_eq!(rt; full.as_bytes().len(), 129);
}

#[test]
fn views_are_replied(rt: HostRuntime) -> Result<(), Fail> {
    let alloc = rt.alloc();
    let frames = [
        Frame::Dark,
        Frame::Pic {
            what: What::Media(0),
            source: 86396,
        },
        Frame::Pic {
            what: What::Nest(12),
            source: 0,
        },
        Frame::Mix {
            left: Side::Dark,
            right: Side::Pic {
                what: What::Media(2),
                source: 5,
            },
            num: 1,
            den: 4,
        },
    ];
    let mut runs = Listed::new(alloc);
    let none = Seen::Runs(Listed::new(alloc));
    let none = sight_text(
        alloc,
        &Sight::Seen {
            point: 4,
            seen: none,
        },
    )?;
    assert_eq!(rt; none.as_slice(), b"seen 4".as_slice());
    for (frame, len) in frames.into_iter().zip(2..) {
        runs.push(Run { frame, len })?;
    }
    let seen = Seen::Runs(runs);
    let text = sight_text(alloc, &Sight::Seen { point: 10, seen })?;
    assert_eq!(rt;
        text.as_slice(),
        b"seen 10 dark 2 @0 86396 3 #12 0 4 mix dark @2 5 1 4 5".as_slice()
    );
    Ok(())
}

#[test]
fn items_are_replied(rt: HostRuntime) -> Result<(), Fail> {
    let alloc = rt.alloc();
    let gap = ItemView {
        item: None,
        first: Side::Dark,
        len: 24,
        mark: None,
        link: None,
    };
    let item = ItemView {
        item: Some(3),
        first: Side::Pic {
            what: What::Media(1),
            source: 100,
        },
        len: 6,
        mark: Some(Mark { a: 2, b: 3 }),
        link: Some(Link {
            home: 1,
            number: 40,
            tracks: 3,
        }),
    };
    let ends = ItemView {
        mark: Some(Mark { a: 1, b: 0 }),
        len: 1,
        ..gap
    };
    let mut items = Listed::new(alloc);
    let none = Seen::Items(Listed::new(alloc));
    let none = sight_text(
        alloc,
        &Sight::Seen {
            point: 0,
            seen: none,
        },
    )?;
    assert_eq!(rt; none.as_slice(), b"items 0".as_slice());
    for view in [gap, item, ends] {
        items.push(view)?;
    }
    let seen = Seen::Items(items);
    let text = sight_text(alloc, &Sight::Seen { point: 8, seen })?;
    assert_eq!(rt;
        text.as_slice(),
        b"items 8 dark 24 mark 2 3 3 @1 100 6 link 1.40 mark 1 0 dark 1".as_slice()
    );
    Ok(())
}

// Questions that are refused, after 3 entries, and one for which there is no memory.
fn unseen(row: u32) -> Option<(Sight<CutObject>, &'static str)> {
    match row {
        0 => Some((
            Sight::Refused {
                point: 3,
                refusal: AskRefusal::NoTrack(5),
            },
            "no 3 V1 5",
        )),
        1 => Some((
            Sight::Refused {
                point: 3,
                refusal: AskRefusal::Range(24),
            },
            "no 3 V2 24",
        )),
        2 => Some((Sight::Memory, "memory")),
        _ => None,
    }
}

#[test]
fn refused_questions_are_replied(rt: HostRuntime) -> Result<(), Fail> {
    for row in 0..3u32 {
        let (sight, want) = unseen(row).ok_or("a row")?;
        let text = sight_text(rt.alloc(), &sight)?;
        assert_eq!(rt; text.as_slice(), want.as_bytes(), "row {row}");
    }
    Ok(())
}
