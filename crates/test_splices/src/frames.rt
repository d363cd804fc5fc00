// Worked frames: which goes on from which, and the runs of a few.
use frame_meaning::{Frame, Run, Side, What, goes_on, runs_of, same_item};
use std::test::Fail;

const REEL: What = What::Media(0);

const OTHER: What = What::Media(1);

const NEST: What = What::Nest(0);

fn pic(what: What, source: u32) -> Frame<What> {
    Frame::Pic { what, source }
}

// A frame of a dissolve from `REEL` to `OTHER`, with the weight `num` of `den`.
fn mix(left: u32, right: u32, num: u32, den: u32) -> Frame<What> {
    Frame::Mix {
        left: Side::Pic {
            what: REEL,
            source: left,
        },
        right: Side::Pic {
            what: OTHER,
            source: right,
        },
        num,
        den,
    }
}

// A frame of a fade from dark to `REEL`, with the weight `num` of `den`.
fn fade(right: u32, num: u32, den: u32) -> Frame<What> {
    Frame::Mix {
        left: Side::Dark,
        right: Side::Pic {
            what: REEL,
            source: right,
        },
        num,
        den,
    }
}

#[test]
fn a_frame_goes_on_from_the_one_before(rt: HostRuntime) {
    for (before, after, want) in [
        (Frame::Dark, Frame::Dark, true),
        (Frame::Dark, pic(REEL, 0), false),
        (pic(REEL, 0), Frame::Dark, false),
        (pic(REEL, 7), pic(REEL, 8), true),
        (pic(REEL, 7), pic(REEL, 7), false),
        (pic(REEL, 7), pic(REEL, 9), false),
        (pic(REEL, 7), pic(OTHER, 8), false),
        (pic(REEL, 7), pic(NEST, 8), false),
        (pic(NEST, 7), pic(NEST, 8), true),
        (pic(REEL, 4_294_967_295), pic(REEL, 0), false),
        (mix(7, 3, 1, 4), mix(8, 4, 2, 4), true),
        (mix(7, 3, 1, 4), mix(8, 4, 3, 4), false),
        (mix(7, 3, 1, 4), mix(8, 4, 2, 5), false),
        (mix(7, 3, 1, 4), mix(7, 4, 2, 4), false),
        (mix(7, 3, 1, 4), mix(8, 3, 2, 4), false),
        (mix(7, 3, 3, 4), pic(OTHER, 4), false),
        (pic(REEL, 7), mix(8, 4, 1, 4), false),
        (fade(3, 1, 3), fade(4, 2, 3), true),
        (fade(3, 1, 3), mix(1, 4, 2, 3), false),
        (mix(4_294_967_295, 3, 1, 4), mix(0, 4, 2, 4), false),
    ] {
        assert_eq!(rt; goes_on(&before, &after), want, "{before:?} {after:?}");
    }
}

#[test]
fn runs_end_where_a_frame_does_not_go_on(rt: HostRuntime) -> Result<(), Fail> {
    let frames = [
        Frame::Dark,
        Frame::Dark,
        pic(REEL, 5),
        pic(REEL, 6),
        pic(REEL, 8),
        mix(9, 1, 1, 3),
        mix(10, 2, 2, 3),
        pic(OTHER, 3),
    ];
    let want = [
        Run {
            frame: Frame::Dark,
            len: 2,
        },
        Run {
            frame: pic(REEL, 5),
            len: 2,
        },
        Run {
            frame: pic(REEL, 8),
            len: 1,
        },
        Run {
            frame: mix(9, 1, 1, 3),
            len: 2,
        },
        Run {
            frame: pic(OTHER, 3),
            len: 1,
        },
    ];
    assert_eq!(rt; runs_of(rt.alloc(), &frames)?.as_slice(), want.as_slice());
    assert_eq!(rt; runs_of(rt.alloc(), &[])?.len(), 0);
    Ok(())
}

#[test]
fn sides_go_on_and_numbers_are_compared(rt: HostRuntime) {
    let side = Side::Pic {
        what: REEL,
        source: 7,
    };
    let later = Side::Pic {
        what: REEL,
        source: 9,
    };
    assert_eq!(rt; side.later(2), later);
    assert_eq!(rt; Side::<What>::Dark.later(2), Side::Dark);
    for (first, second, want) in [
        (None, None, true),
        (Some(1), None, false),
        (Some(1), Some(1), true),
        (Some(1), Some(2), false),
    ] {
        assert_eq!(rt; same_item(first, second), want, "{first:?} {second:?}");
    }
}
