// What a station is answered about links.
use crate::answered::is_answered;
use std::test::Fail;

/// The least of several links, and the least of its tracks, is told.
const LEAST_LINK: &str = "\
> overwrite 0 10 @0 10 4
ok 0 item 0
> overwrite 0 20 @0 20 4
ok 1 item 1
> overwrite 1 10 @0 10 4
ok 2 item 0
> overwrite 2 20 @0 20 4
ok 3 item 0
> overwrite 3 10 @0 10 4
ok 4 item 0
> overwrite 3 20 @0 20 4
ok 5 item 1
> link 1,3 0,0
ok 6 link 1.0
> link 0,2,3 1,0,1
ok 7 link 0.0
> insert 0,1 1 0 @0 0 1
no 8 E11 0.0 2
> insert 1,2 1 0 @0 0 1
no 8 E11 0.0 0
> extract 0,1 0 0
no 8 E11 0.0 2
> ripple 0,1 1 0 head -1
no 8 E11 0.0 2
> slip 1,2 1 0 1
no 8 E11 1.0 3
> slide 0,3 0 1 1
no 8 E11 0.0 2
> insert 0,1,2,3 1 0 @0 0 1
ok 8 item 1
journal 9
0 1 overwrite 0 10 @0 10 4
0 2 overwrite 0 20 @0 20 4
0 3 overwrite 1 10 @0 10 4
0 4 overwrite 2 20 @0 20 4
0 5 overwrite 3 10 @0 10 4
0 6 overwrite 3 20 @0 20 4
0 7 link 1,3 0,0
0 8 link 0,2,3 1,0,1
0 15 insert 0,1,2,3 1 0 @0 0 1
";

/// Several links split by one insert get their new numbers in order.
const MANY_SPLITS: &str = "\
> overwrite 0 0 @0 0 4
ok 0 item 0
> overwrite 0 4 @0 50 8
ok 1 item 1
> overwrite 1 6 @0 6 4
ok 2 item 0
> overwrite 2 2 @0 48 10
ok 3 item 0
> overwrite 1 0 @0 300 5
ok 4 item 1
> overwrite 2 12 @0 312 5
ok 5 item 1
> link 0,2 1,0
ok 6 link 0.0
> link 0,1 0,0
ok 7 link 0.1
> link 1,2 1,1
ok 8 link 1.0
> insert 0,1,2 1 5 @0 0 2
ok 9 item 2
> items 0
items 10 0 @0 0 4 link 0.1 1 @0 50 1 link 0.0 dark 2 2 @0 51 7 link 0.2
> items 1
items 10 1 @0 300 5 link 1.0 2 @0 0 2 dark 1 0 @0 6 4 link 0.3
> items 2
items 10 dark 2 0 @0 48 3 link 0.0 dark 2 2 @0 51 7 link 0.2 1 @0 312 5 link 1.1
journal 10
0 1 overwrite 0 0 @0 0 4
0 2 overwrite 0 4 @0 50 8
0 3 overwrite 1 6 @0 6 4
0 4 overwrite 2 2 @0 48 10
0 5 overwrite 1 0 @0 300 5
0 6 overwrite 2 12 @0 312 5
0 7 link 0,2 1,0
0 8 link 0,1 0,0
0 9 link 1,2 1,1
0 10 insert 0,1,2 1 5 @0 0 2
";

/// What is left of a linked item stays with what else has its link, and is split with it.
const HALF_OVERWRITTEN: &str = "\
> overwrite 0 0 @0 100 8
ok 0 item 0
> overwrite 1 0 @0 100 8
ok 1 item 0
> link 0,1 0,0
ok 2 link 0.0
> overwrite 0 4 @0 50 4
ok 3 item 1
> overwrite 1 2 @0 60 2
ok 4 item 1
> items 0
items 5 0 @0 100 4 link 0.0 1 @0 50 4
> items 1
items 5 0 @0 100 2 link 0.0 1 @0 60 2 2 @0 104 4 link 0.0
> slip 0,1 1 2 3
ok 5 by 3
> items 0
items 6 0 @0 103 4 link 0.0 1 @0 50 4
> items 1
items 6 0 @0 103 2 link 0.0 1 @0 60 2 2 @0 107 4 link 0.0
> insert 0,1 0 4 @0 0 2
ok 6 item 2
> items 0
items 7 0 @0 103 4 link 0.0 2 @0 0 2 1 @0 50 4
> items 1
items 7 0 @0 103 2 link 0.0 1 @0 60 2 dark 2 2 @0 107 4 link 0.1
journal 7
0 1 overwrite 0 0 @0 100 8
0 2 overwrite 1 0 @0 100 8
0 3 link 0,1 0,0
0 4 overwrite 0 4 @0 50 4
0 5 overwrite 1 2 @0 60 2
0 8 slip 0,1 1 2 3
0 11 insert 0,1 0 4 @0 0 2
";

/// A link has all its tracks named, also those that have none of it left.
const WIDER_THAN_ITS_ITEMS: &str = "\
> overwrite 0 0 @0 5 4
ok 0 item 0
> overwrite 1 0 @0 5 4
ok 1 item 0
> overwrite 2 0 @0 5 4
ok 2 item 0
> link 0,1,2 0,0,0
ok 3 link 0.0
> remove 2 0
ok 4
> slip 0,1 0 0 -9
no 5 E11 0.0 2
> insert 0,1 0 0 @0 0 1
no 5 E11 0.0 2
> slip 0,1,2 0 0 -9
ok 5 by -5
> unlink 0 0
ok 6
> slip 0 0 0 1
ok 7 by 1
> slip 1,2 1 0 1
no 8 E11 0.0 0
journal 8
0 1 overwrite 0 0 @0 5 4
0 2 overwrite 1 0 @0 5 4
0 3 overwrite 2 0 @0 5 4
0 4 link 0,1,2 0,0,0
0 5 remove 2 0
0 8 slip 0,1,2 0 0 -9
0 9 unlink 0 0
0 10 slip 0 0 0 1
";

/// A link over three tracks of different starts, split by an insert at each place.
const EACH_PLACE: &str = "\
> overwrite 0 2 @0 100 6
ok 0 item 0
> overwrite 1 0 @0 98 4
ok 1 item 0
> overwrite 2 5 @0 103 9
ok 2 item 0
> link 0,1,2 0,0,0
ok 3 link 0.0
> insert 0,1,2 0 14 @0 0 1
ok 4 item 1
> insert 0,1,2 0 8 @0 0 1
ok 5 item 2
> insert 0,1,2 0 6 @0 0 1
ok 6 item 3
> insert 0,1,2 0 5 @0 0 1
ok 7 item 5
> insert 0,1,2 0 4 @0 0 1
ok 8 item 7
> insert 0,1,2 0 3 @0 0 1
ok 9 item 9
> insert 0,1,2 0 2 @0 0 1
ok 10 item 11
> insert 0,1,2 0 1 @0 0 1
ok 11 item 12
> insert 0,1,2 0 0 @0 0 1
ok 12 item 13
> items 0
items 13 13 @0 0 1 dark 1 12 @0 0 1 dark 1 11 @0 0 1 0 @0 100 1 link 0.6 9 @0 0 1 10 @0 101 1 link 0.5 7 @0 0 1 8 @0 102 1 link 0.4 5 @0 0 1 6 @0 103 1 link 0.3 3 @0 0 1 4 @0 104 2 link 0.2 2 @0 0 1 dark 6 1 @0 0 1
> items 1
items 13 dark 1 0 @0 98 1 link 0.0 dark 1 3 @0 99 1 link 0.7 dark 1 2 @0 100 1 link 0.6 dark 1 1 @0 101 1 link 0.5
> items 2
items 13 dark 11 0 @0 103 1 link 0.3 dark 1 2 @0 104 2 link 0.2 dark 1 1 @0 106 6 link 0.1
journal 13
0 1 overwrite 0 2 @0 100 6
0 2 overwrite 1 0 @0 98 4
0 3 overwrite 2 5 @0 103 9
0 4 link 0,1,2 0,0,0
0 5 insert 0,1,2 0 14 @0 0 1
0 6 insert 0,1,2 0 8 @0 0 1
0 7 insert 0,1,2 0 6 @0 0 1
0 8 insert 0,1,2 0 5 @0 0 1
0 9 insert 0,1,2 0 4 @0 0 1
0 10 insert 0,1,2 0 3 @0 0 1
0 11 insert 0,1,2 0 2 @0 0 1
0 12 insert 0,1,2 0 1 @0 0 1
0 13 insert 0,1,2 0 0 @0 0 1
";

/// Why items get no link: their offsets, a link before it, an item that is not there.
const NO_LINK: &str = "\
> overwrite 0 0 @0 50 4
ok 0 item 0
> overwrite 1 1 @0 50 4
ok 1 item 0
> overwrite 1 9 @0 59 2
ok 2 item 1
> link 0,1 0,0
no 3 E9 -50 -49
> link 0,1 0,1
ok 3 link 0.0
> link 0,1 0,1
no 4 E10 0 0
> link 0 0
no 4 E10 0 0
> link 0,1 0,0
no 4 E9 -50 -49
> link 0,1 0,7
no 4 E2
journal 4
0 1 overwrite 0 0 @0 50 4
0 2 overwrite 1 1 @0 50 4
0 3 overwrite 1 9 @0 59 2
0 5 link 0,1 0,1
";

/// An insert that names all tracks of a link splits it.
const SPLIT: &str = "\
> overwrite 0 0 @0 100 10
ok 0 item 0
> overwrite 2 0 @1 100 10
ok 1 item 0
> link 0,2 0,0
ok 2 link 0.0
> insert 0 0 4 @0 500 3
no 3 E11 0.0 2
> insert 0,2 0 4 @0 500 3
ok 3 item 1
> items 0
items 4 0 @0 100 4 link 0.0 1 @0 500 3 2 @0 104 6 link 0.1
> items 2
items 4 0 @1 100 4 link 0.0 dark 3 1 @1 104 6 link 0.1
journal 4
0 1 overwrite 0 0 @0 100 10
0 2 overwrite 2 0 @1 100 10
0 3 link 0,2 0,0
0 5 insert 0,2 0 4 @0 500 3
";

/// Linked items slip together, as far as each can.
const SLIP_OF_TWO: &str = "\
> overwrite 0 0 @0 86385 10
ok 0 item 0
> overwrite 1 2 @1 86387 10
ok 1 item 0
> link 0,1 0,0
ok 2 link 0.0
> slip 0,1 0 0 100
ok 3 by 3
> items 1
items 4 dark 2 0 @1 86390 10 link 0.0
> slip 0 0 0 1
no 4 E11 0.0 1
journal 4
0 1 overwrite 0 0 @0 86385 10
0 2 overwrite 1 2 @1 86387 10
0 3 link 0,1 0,0
0 4 slip 0,1 0 0 100
";

/// No slide moves a linked item alone.
const SLIDE_OF_ONE: &str = "\
> overwrite 0 0 @0 0 5
ok 0 item 0
> overwrite 0 5 @0 105 5
ok 1 item 1
> overwrite 0 10 @0 210 5
ok 2 item 2
> overwrite 1 5 @0 105 5
ok 3 item 0
> link 0,1 1,0
ok 4 link 0.0
> slide 0,1 0 1 2
no 5 E12 0.0 -100 -98
> unlink 1 0
ok 5
> slide 0,1 0 1 2
ok 6 by 2
> items 0
items 7 0 @0 0 7 1 @0 105 5 link 0.0 2 @0 212 3
journal 7
0 1 overwrite 0 0 @0 0 5
0 2 overwrite 0 5 @0 105 5
0 3 overwrite 0 10 @0 210 5
0 4 overwrite 1 5 @0 105 5
0 5 link 0,1 1,0
0 7 unlink 1 0
0 8 slide 0,1 0 1 2
";

#[test]
fn links_are_answered(rt: HostRuntime) -> Result<(), Fail> {
    let alloc = rt.alloc();
    for (words, talk) in [
        ("run 4 1", LEAST_LINK),
        ("run 3 1", MANY_SPLITS),
        ("run 2 1", HALF_OVERWRITTEN),
        ("run 3 1", WIDER_THAN_ITS_ITEMS),
        ("run 3 1", EACH_PLACE),
        ("run 2 1", NO_LINK),
        ("run 3 2", SPLIT),
        ("run 2 2", SLIP_OF_TWO),
        ("run 2 1", SLIDE_OF_ONE),
    ] {
        assert!(rt; is_answered(&rt, alloc, words, talk)?, "{talk}");
    }
    Ok(())
}
