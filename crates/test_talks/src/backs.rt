// What a station is answered that takes edits back, and that asks for entries.
use crate::answered::is_answered;
use std::test::Fail;

/// An edit is taken back where its station has changed these tracks last, and no others with them.
const TAKEN_BACK: &str = "\
> overwrite 0 0 @0 0 5
ok 0 item 0
> overwrite 1 0 @0 50 3
ok 1 item 0
> back 0
ok 2
> view 0 0 0
seen 3
> back 0
no 3 E16 0
> insert 0,1 0 0 @0 9 2
ok 3 item 0
> back 1
no 4 E17 1
> back 0,1
ok 4
> items 1
items 5 0 @0 50 3
> back 2
no 5 E1 2
> news 0
news 0 5 0 1 overwrite 0 0 @0 0 5
> news 5
news 5 5
> news 6
no 5 V3
journal 5
0 1 overwrite 0 0 @0 0 5
0 2 overwrite 1 0 @0 50 3
0 3 back 0
0 6 insert 0,1 0 0 @0 9 2
0 8 back 0,1
";

/// A link, and what was done to linked items, is taken back on all of its tracks at once; a number may be given again.
const LINKS_TAKEN_BACK: &str = "\
> overwrite 0 0 @0 0 10
ok 0 item 0
> overwrite 1 0 @0 0 10
ok 1 item 0
> link 0,1 0,0
ok 2 link 0.0
> back 0,1
ok 3
> items 0
items 4 0 @0 0 10
> link 0,1 0,0
ok 4 link 0.0
> slip 0,1 0 0 5
ok 5 by 5
> back 0
no 6 E17 0
> back 0,1,2
no 6 E16 2
> back 0,1
ok 6
> items 0
items 7 0 @0 0 10 link 0.0
> items 1
items 7 0 @0 0 10 link 0.0
> back 0,1
no 7 E16 0
> overwrite 2 0 @0 0 10
ok 7 item 0
> link 0,1 0,0
no 8 E10 0 0
> back 0,1
no 8 E16 0
> items 1
items 8 0 @0 0 10 link 0.0
> link 1,2 0,0
no 8 E10 1 0
> slip 1,2 1 0 -9
no 8 E11 0.0 0
> back 1,2
no 8 E16 1
> items 2
items 8 0 @0 0 10
> items 1
items 8 0 @0 0 10 link 0.0
journal 8
0 1 overwrite 0 0 @0 0 10
0 2 overwrite 1 0 @0 0 10
0 3 link 0,1 0,0
0 4 back 0,1
0 6 link 0,1 0,0
0 7 slip 0,1 0 0 5
0 10 back 0,1
0 14 overwrite 2 0 @0 0 10
";

/// One edit of a track can be taken back: not a second one, nor the taking back. An edit that changes nothing counts, one
/// that is refused does not.
const ONE_LEVEL: &str = "\
> overwrite 0 20 @0 50 2
ok 0 item 0
> overwrite 0 30 @0 60 2
ok 1 item 1
> back 0
ok 2
> back 0
no 3 E16 0
> overwrite 0 30 @0 60 2
ok 3 item 1
> slip 0 0 1 0
ok 4 by 0
> back 0
ok 5
> back 0
no 6 E16 0
> overwrite 0 40 @0 70 2
ok 6 item 2
> overwrite 0 40 @0 70 0
no 7 E4
> undissolve 0 3
no 7 E7 3
> back 0
ok 7
> items 0
items 8 dark 20 0 @0 50 2 dark 8 1 @0 60 2
> dissolve 0 22 1 1
ok 8
> overwrite 0 22 @0 50 4
ok 9 item 2
> dissolve 0 22 1 1
ok 10
> back 0
ok 11
> back 0
no 12 E16 0
> items 0
items 12 dark 20 0 @0 50 2 2 @0 50 4 dark 4 1 @0 60 2
journal 12
0 1 overwrite 0 20 @0 50 2
0 2 overwrite 0 30 @0 60 2
0 3 back 0
0 5 overwrite 0 30 @0 60 2
0 6 slip 0 0 1 0
0 7 back 0
0 9 overwrite 0 40 @0 70 2
0 12 back 0
0 14 dissolve 0 22 1 1
0 15 overwrite 0 22 @0 50 4
0 16 dissolve 0 22 1 1
0 17 back 0
";

/// Lines that take back nothing, or ask for no entry.
const NO_BACKS: &str = "\
> back
bad B2
> back 0 1
bad B2
> back 0,0
bad B6
> back 1,0
bad B6
> back 32
bad B4
> back x
bad B3
> back 0,
bad B3
> back 31
no 0 E1 31
> back 0
no 0 E16 0
> news
bad B2
> news 0 0
bad B2
> news x
bad B3
> news 4294967296
bad B4
> news 4294967295
no 0 V3
> news 00
news 0 0
> back 0,1,31
no 0 E1 31
journal 0
";

#[test]
fn edits_are_taken_back(rt: HostRuntime) -> Result<(), Fail> {
    let alloc = rt.alloc();
    for (words, talk) in [
        ("run 2 1", TAKEN_BACK),
        ("run 3 1", LINKS_TAKEN_BACK),
        ("run 1 1", ONE_LEVEL),
        ("run 2 1", NO_BACKS),
    ] {
        assert!(rt; is_answered(&rt, alloc, words, talk)?, "{talk}");
    }
    Ok(())
}
