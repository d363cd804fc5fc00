// What a station sends and what it is answered, over each kind of line.
use crate::answered::is_answered;
use std::test::Fail;

/// An item with dark before it.
const SEEN: &str = "\
> overwrite 0 10 @0 100 5
ok 0 item 0
> view 0 0 15
seen 1 dark 10 @0 100 5
journal 1
0 1 overwrite 0 10 @0 100 5
";

/// What is past the end, of a track or of the media.
const PAST_THE_END: &str = "\
> overwrite 0 10 @0 100 5
ok 0 item 0
> view 0 0 16
no 1 V2 15
> view 2 0 0
no 1 V1 2
> overwrite 0 0 @0 86396 5
no 1 E5
> jump
bad B1
journal 1
0 1 overwrite 0 10 @0 100 5
";

/// An item over a part of another.
const OVER_AN_ITEM: &str = "\
> overwrite 0 10 @0 100 5
ok 0 item 0
> overwrite 0 12 @0 500 1
ok 1 item 1
> items 0
items 2 dark 10 0 @0 100 2 1 @0 500 1 2 @0 103 2
journal 2
0 1 overwrite 0 10 @0 100 5
0 2 overwrite 0 12 @0 500 1
";

/// Places as timecode labels.
const LABELS: &str = "\
> overwrite 0 00:00:01:00 @0 0 1
ok 0 item 0
> view 0 0 00:00:01:01
seen 1 dark 24 @0 0 1
> view 0 0 00:00:00:24
bad B3
> items 0
items 1 dark 24 0 @0 0 1
journal 1
0 1 overwrite 0 24 @0 0 1
";

/// Overwrites that are refused.
const REFUSED_OVERWRITES: &str = "\
> overwrite 2 0 @0 0 1
no 0 E1 2
> overwrite 0 0 @1 0 1
no 0 E3
> overwrite 0 0 #0 0 1
no 0 E3
> overwrite 0 0 @0 0 0
no 0 E4
> overwrite 0 2591999 @0 0 2
no 0 E13 0
journal 0
";

/// Lines that are none of the table.
const NO_LINES: &str = "\
> 
bad B2
>  \t
bad B2
> view
bad B2
> view 32 0 0
bad B4
> view 0 4294967296 0
bad B4
> view x 99999999999 0
bad B3
> point 1
bad B2
> items 1,0
bad B3
journal 0
";

/// The ends of the media.
const MEDIA_ENDS: &str = "\
> overwrite 0 0 @0 86399 1
ok 0 item 0
> overwrite 0 0 @0 86400 1
no 1 E5
> overwrite 0 0 @0 86399 2
no 1 E5
> overwrite 0 0 @0 4294967295 4294967295
no 1 E5
journal 1
0 1 overwrite 0 0 @0 86399 1
";

/// Overwrites that are no lines of the table.
const BAD_OVERWRITES: &str = "\
> overwrite 0 -1 @0 0 1
bad B3
> overwrite 0 0 0 0 1
bad B3
> overwrite 0 0 @ 0 1
bad B3
> overwrite 0 0 @0 x 1
bad B3
> overwrite 0 0 @0 0 4294967296
bad B4
> overwrite 0 0 @0 0
bad B2
> overwrite 0 00:00:00:24 @0 0 1
bad B3
> overwrite 0 0 @0 00:00:00:01 1
bad B3
journal 0
";

/// The second track.
const ANOTHER_TRACK: &str = "\
> items 1
items 0
> view 1 0 0
seen 0
> view 1 1 0
no 0 V2 0
journal 0
";

/// The last frames of a track.
const LAST_FRAMES: &str = "\
> overwrite 0 2591998 @0 0 2
ok 0 item 0
> point
point 1
journal 1
0 1 overwrite 0 2591998 @0 0 2
";

#[test]
fn overwrites_and_questions_are_answered(rt: HostRuntime) -> Result<(), Fail> {
    let alloc = rt.alloc();
    for talk in [
        SEEN,
        PAST_THE_END,
        OVER_AN_ITEM,
        LABELS,
        REFUSED_OVERWRITES,
        NO_LINES,
        MEDIA_ENDS,
        BAD_OVERWRITES,
        ANOTHER_TRACK,
        LAST_FRAMES,
    ] {
        assert!(rt; is_answered(&rt, alloc, "run 2 1", talk)?, "{talk}");
    }
    Ok(())
}

/// A dissolve, made and taken away.
const DISSOLVE: &str = "\
> overwrite 0 0 @0 100 10
ok 0 item 0
> overwrite 0 10 @0 200 10
ok 1 item 1
> dissolve 0 10 1 2
ok 2
> view 0 0 20
seen 3 @0 100 9 mix @0 109 @0 199 1 4 3 @0 202 8
> undissolve 0 10
ok 3
> view 0 8 13
seen 4 @0 108 2 @0 200 3
> undissolve 0 10
no 4 E7 10
journal 4
0 1 overwrite 0 0 @0 100 10
0 2 overwrite 0 10 @0 200 10
0 3 dissolve 0 10 1 2
0 5 undissolve 0 10
";

/// A dissolve between two long items, after the place 1,000.
const LONG_ITEMS: &str = "\
> overwrite 0 0 @0 100 2000
ok 0 item 0
> overwrite 0 2000 @0 5000 2000
ok 1 item 1
> dissolve 0 2000 3 4
ok 2
> view 0 1990 2010
seen 3 @0 2090 7 mix @0 2097 @0 4997 1 8 7 @0 5004 6
> undissolve 0 2000
ok 3
> overwrite 0 500 @0 9000 1500
ok 4 item 2
> items 0
items 5 0 @0 100 500 2 @0 9000 1500 1 @0 5000 2000
journal 5
0 1 overwrite 0 0 @0 100 2000
0 2 overwrite 0 2000 @0 5000 2000
0 3 dissolve 0 2000 3 4
0 5 undissolve 0 2000
0 6 overwrite 0 500 @0 9000 1500
";

/// A slice beside a dissolve, and one in it.
const CUT_DISSOLVE: &str = "\
> overwrite 0 0 @0 100 10
ok 0 item 0
> overwrite 0 10 @0 200 10
ok 1 item 1
> dissolve 0 00:00:00:10 1 2
ok 2
> slice 0 12
ok 3
> items 0
items 4 0 @0 100 10 mark 1 2 1 @0 200 2 2 @0 202 8
> slice 0 11
ok 4
> items 0
items 5 0 @0 100 10 1 @0 200 1 3 @0 201 1 2 @0 202 8
journal 5
0 1 overwrite 0 0 @0 100 10
0 2 overwrite 0 10 @0 200 10
0 3 dissolve 0 10 1 2
0 4 slice 0 12
0 6 slice 0 11
";

/// A dissolve that is kept beside a cut, as far as there is room for it.
const KEPT_DISSOLVE: &str = "\
> overwrite 0 0 @0 100 10
ok 0 item 0
> overwrite 0 10 @1 200 10
ok 1 item 1
> dissolve 0 10 1 2
ok 2
> slice 0 11 kept
bad B1
> slice 0 11 keep keep
bad B2
> slice 0 11 keep
ok 3
> view 0 8 13
seen 4 @0 108 1 mix @0 109 @1 199 1 3 2 @1 201 2
> items 0
items 4 0 @0 100 10 mark 1 1 1 @1 200 1 2 @1 201 9
> slice 0 10 keep
ok 4
> view 0 8 12
seen 5 @0 108 2 @1 200 2
journal 5
0 1 overwrite 0 0 @0 100 10
0 2 overwrite 0 10 @1 200 10
0 3 dissolve 0 10 1 2
0 6 slice 0 11 keep
0 9 slice 0 10 keep
";

/// Dissolves that are refused.
const REFUSED_DISSOLVES: &str = "\
> overwrite 0 0 @0 100 10
ok 0 item 0
> overwrite 0 10 @0 300 10
ok 1 item 1
> dissolve 0 10 11 0
no 2 E8 left
> dissolve 0 10 0 11
no 2 E8 right
> dissolve 0 5 0 0
no 2 E4
> dissolve 0 5 1 1
no 2 E7 5
> dissolve 0 10 1
bad B2
> dissolve 2 10 1 1
no 2 E1 2
> undissolve 0 10
no 2 E7 10
journal 2
0 1 overwrite 0 0 @0 100 10
0 2 overwrite 0 10 @0 300 10
";

#[test]
fn dissolves_are_answered(rt: HostRuntime) -> Result<(), Fail> {
    let alloc = rt.alloc();
    for talk in [DISSOLVE, LONG_ITEMS, CUT_DISSOLVE, REFUSED_DISSOLVES] {
        assert!(rt; is_answered(&rt, alloc, "run 2 1", talk)?, "{talk}");
    }
    assert!(rt; is_answered(&rt, alloc, "run 1 2", KEPT_DISSOLVE)?);
    Ok(())
}

/// A slip up to the ends of the media.
const SLIP: &str = "\
> overwrite 0 0 @0 86388 5
ok 0 item 0
> slip 0 0 0 100
ok 1 by 7
> slip 0 0 0 100
ok 2 by 0
> slip 0 0 0 -5
ok 3 by -5
> items 0
items 4 0 @0 86390 5
> slip 0 1 0 1
no 4 E1 1
> slip 2 2 0 1
no 4 E1 2
journal 4
0 1 overwrite 0 0 @0 86388 5
0 2 slip 0 0 0 100
0 3 slip 0 0 0 100
0 4 slip 0 0 0 -5
";

/// Trims up to what gives way.
const TRIM: &str = "\
> overwrite 0 3 @0 100 5
ok 0 item 0
> trim 0 0 head -10
ok 1 by -3
> trim 0 0 tail -100
ok 2 by -7
> trim 0 0 tail 4
ok 3 by 4
> items 0
items 4 0 @0 97 5 dark 3
> trim 0 1 tail 1
no 4 E2
> trim 0 0 Tail 1
bad B1
> trim 0 0 tail x
bad B3
> trim 0 0 tail 2147483648
bad B4
journal 4
0 1 overwrite 0 3 @0 100 5
0 2 trim 0 0 head -10
0 3 trim 0 0 tail -100
0 4 trim 0 0 tail 4
";

#[test]
fn edits_by_a_delta_are_answered(rt: HostRuntime) -> Result<(), Fail> {
    let alloc = rt.alloc();
    for talk in [SLIP, TRIM] {
        assert!(rt; is_answered(&rt, alloc, "run 2 1", talk)?, "{talk}");
    }
    Ok(())
}

/// A slide up to its neighbours.
const SLIDE: &str = "\
> overwrite 0 0 @0 0 5
ok 0 item 0
> overwrite 0 5 @0 105 5
ok 1 item 1
> overwrite 0 10 @0 210 5
ok 2 item 2
> slide 0 0 1 2
ok 3 by 2
> items 0
items 4 0 @0 0 7 1 @0 105 5 2 @0 212 3
> slide 0 0 1 -100
ok 4 by -6
> items 0
items 5 0 @0 0 1 1 @0 105 5 2 @0 206 9
> slide 0 0 0 3
ok 5 by 0
> slide 0 0 5 1
no 6 E2
journal 6
0 1 overwrite 0 0 @0 0 5
0 2 overwrite 0 5 @0 105 5
0 3 overwrite 0 10 @0 210 5
0 4 slide 0 0 1 2
0 6 slide 0 0 1 -100
0 8 slide 0 0 0 3
";

/// A roll up to its neighbours.
const ROLL: &str = "\
> overwrite 0 0 @0 100 5
ok 0 item 0
> overwrite 0 5 @0 200 5
ok 1 item 1
> roll 0 00:00:00:05 2
ok 2 by 2
> roll 0 7 -100
ok 3 by -6
> items 0
items 4 0 @0 100 1 1 @0 196 9
> roll 0 4 1
no 4 E7 4
> roll 0 0 1
no 4 E7 0
> roll 0 1 -
bad B3
> roll 0 1 -0
ok 4 by 0
journal 5
0 1 overwrite 0 0 @0 100 5
0 2 overwrite 0 5 @0 200 5
0 3 roll 0 5 2
0 4 roll 0 7 -100
0 9 roll 0 1 0
";

/// Gaps that are filled.
const FILL: &str = "\
> overwrite 0 3 @0 100 5
ok 0 item 0
> fill 0 0 @0 500 source 2
ok 1 item 1
> fill 0 2 @0 600 sequence
ok 2 item 2
> items 0
items 3 1 @0 500 2 2 @0 600 1 0 @0 100 5
> fill 0 3 @0 0 sequence
no 3 E6 3
> fill 0 3 @0 86399 source 2
no 3 E5
> fill 0 9 @1 0 sequence
no 3 E3
> fill 0 0 @0 0 source
bad B1
> fill 0 0 @0 0 sequence 1
bad B1
journal 3
0 1 overwrite 0 3 @0 100 5
0 2 fill 0 0 @0 500 source 2
0 3 fill 0 2 @0 600 sequence
";

#[test]
fn moved_cuts_and_filled_gaps_are_answered(rt: HostRuntime) -> Result<(), Fail> {
    let alloc = rt.alloc();
    for talk in [SLIDE, ROLL, FILL] {
        assert!(rt; is_answered(&rt, alloc, "run 1 1", talk)?, "{talk}");
    }
    Ok(())
}

/// Every edit by a delta in turn.
const RIPPLE: &str = "\
> overwrite 0 3 @0 100 5
ok 0 item 0
> trim 0 0 head -10
ok 1 by -3
> trim 0 0 tail -100
ok 2 by -7
> trim 0 0 tail 4
ok 3 by 4
> ripple 0 0 0 head 2
ok 4 by 2
> ripple 0 0 0 tail 1
ok 5 by 1
> items 0
items 6 0 @0 99 4 dark 3
> roll 0 4 -10
ok 6 by -3
> fill 0 3 @0 500 source 2
ok 7 item 1
> fill 0 5 @0 600 sequence
ok 8 item 2
> extract 0 0 1
ok 9
> remove 0 0
ok 10
> items 0
items 11 dark 1 2 @0 600 4
journal 11
0 1 overwrite 0 3 @0 100 5
0 2 trim 0 0 head -10
0 3 trim 0 0 tail -100
0 4 trim 0 0 tail 4
0 5 ripple 0 0 0 head 2
0 6 ripple 0 0 0 tail 1
0 8 roll 0 4 -10
0 9 fill 0 3 @0 500 source 2
0 10 fill 0 5 @0 600 sequence
0 11 extract 0 0 1
0 12 remove 0 0
";

/// A ripple of two tracks.
const RIPPLE_OF_TWO: &str = "\
> overwrite 0 0 @0 100 10
ok 0 item 0
> overwrite 1 0 @0 100 10
ok 1 item 0
> ripple 0,1 0 0 tail 3
ok 2 by 3
> items 1
items 3 0 @0 100 10
> ripple 0,1 0 0 head -200
ok 3 by -100
> ripple 0,1 0 0 head 4
ok 4 by 4
> items 0
items 5 0 @0 4 109
> items 1
items 5 dark 96 0 @0 100 10
> ripple 0 1 0 head 1
no 5 E1 1
> ripple 0 0 0 heads 1
bad B1
journal 5
0 1 overwrite 0 0 @0 100 10
0 2 overwrite 1 0 @0 100 10
0 3 ripple 0,1 0 0 tail 3
0 5 ripple 0,1 0 0 head -200
0 6 ripple 0,1 0 0 head 4
";

#[test]
fn ripples_are_answered(rt: HostRuntime) -> Result<(), Fail> {
    let alloc = rt.alloc();
    for talk in [RIPPLE, RIPPLE_OF_TWO] {
        assert!(rt; is_answered(&rt, alloc, "run 2 1", talk)?, "{talk}");
    }
    Ok(())
}

/// Inserts into an empty track, an item, past the end and at the front.
const INSERTS: &str = "\
> insert 0 0 0 @0 0 4
ok 0 item 0
> insert 0 0 2 @0 50 1
ok 1 item 1
> insert 0 0 5 @0 60 1
ok 2 item 3
> insert 0 0 0 @0 70 1
ok 3 item 4
> items 0
items 4 4 @0 70 1 0 @0 0 2 1 @0 50 1 2 @0 2 2 3 @0 60 1
journal 4
0 1 insert 0 0 0 @0 0 4
0 2 insert 0 0 2 @0 50 1
0 3 insert 0 0 5 @0 60 1
0 4 insert 0 0 0 @0 70 1
";

/// An insert and an extract that move two tracks.
const INSERT_AND_EXTRACT_OF_TWO: &str = "\
> overwrite 0 0 @0 0 4
ok 0 item 0
> overwrite 1 0 @0 10 4
ok 1 item 0
> insert 0,1 0 2 @0 50 3
ok 2 item 1
> items 0
items 3 0 @0 0 2 1 @0 50 3 2 @0 2 2
> items 1
items 3 0 @0 10 2 dark 3 1 @0 12 2
> extract 0,1 0 1
ok 3
> items 1
items 4 0 @0 10 2 1 @0 12 2
journal 4
0 1 overwrite 0 0 @0 0 4
0 2 overwrite 1 0 @0 10 4
0 3 insert 0,1 0 2 @0 50 3
0 6 extract 0,1 0 1
";

#[test]
fn inserts_are_answered(rt: HostRuntime) -> Result<(), Fail> {
    let alloc = rt.alloc();
    for (words, talk) in [("run 1 1", INSERTS), ("run 2 1", INSERT_AND_EXTRACT_OF_TWO)] {
        assert!(rt; is_answered(&rt, alloc, words, talk)?, "{talk}");
    }
    Ok(())
}
