// Lines that are read, and lines that are none.

use crate::lines::{film, told};
use std::alloc::Global;
use std::process::Abort;
use std::test::Fail;
use timecode12::{Counting, SequenceRate};

// Each row is a line, ` | `, and what it says.
const LINES: &str = "\
point | point
 \tpoint\t | point
otio 007 | otio 7
news 0 | news 0
news\t 4294967295  | news 4294967295
back 0 | back 0
back 00,031 | back 0,31
back 0,1,2,3,4,5,6,7,8,9,10,11,12,13,14,15,16,17,18,19,20,21,22,23,24,25,26,27,28,29,30,31 | back 0,1,2,3,4,5,6,7,8,9,10,11,12,13,14,15,16,17,18,19,20,21,22,23,24,25,26,27,28,29,30,31
items 0 | items 0
items\t 031  | items 31
view 2 7 5 | view 2 7 5
view 2 00:00:01:00 00:00:00;05 | view 2 24 5
overwrite 1 20 @3 400 5000 | overwrite 1 20 @3 400 5000
overwrite 001 0020 @03 0400 005000 | overwrite 1 20 @3 400 5000
overwrite 31 4294967295 #4294967295 4294967295 4294967295 | overwrite 31 4294967295 #4294967295 4294967295 4294967295
insert 0,2 2 24 #7 5 6 | insert 0,2 2 24 #7 5 6
insert 00,02 2 00:00:01:00 #7 5 6 | insert 0,2 2 24 #7 5 6
insert 0,1,31 2 24 #7 5 6 | insert 0,1,31 2 24 #7 5 6
remove 31 4294967295 | remove 31 4294967295
extract 30,31 0 9 | extract 30,31 0 9
extract 0,1,2,3,4,5,6,7,8,9,10,11,12,13,14,15,16,17,18,19,20,21,22,23,24,25,26,27,28,29,30,31 31 0 | extract 0,1,2,3,4,5,6,7,8,9,10,11,12,13,14,15,16,17,18,19,20,21,22,23,24,25,26,27,28,29,30,31 31 0
slice 1 00:00:01:01 | slice 1 25
dissolve 1 00:00:01:01 3 4 | dissolve 1 25 3 4
dissolve 3 10 0 4294967295 | dissolve 3 10 0 4294967295
undissolve 1 7 | undissolve 1 7
trim 1 7 head -3 | trim 1 7 head -3
trim 1 7 tail 2147483647 | trim 1 7 tail 2147483647
slip 0,2 2 7 -2147483648 | slip 0,2 2 7 -2147483648
roll 1 7 -0 | roll 1 7 0
slide 0,2 2 7 003 | slide 0,2 2 7 3
fill 1 20 @3 400 sequence | fill 1 20 @3 400 sequence
fill 1 20 @3 400 source 4294967295 | fill 1 20 @3 400 source 4294967295
ripple 0,2 2 7 tail -1 | ripple 0,2 2 7 tail -1
link 0,2 007,4294967295 | link 0,2 7,4294967295
link 31 0 | link 31 0
unlink 3 010 | unlink 3 10
overwrite 1 20 @3 400 5000 keep | overwrite 1 20 @3 400 5000 keep
overwrite 001 00:00:01:00 #03 0400 005000\t keep  | overwrite 1 24 #3 400 5000 keep
insert 0,2 2 24 #7 5 6 keep | insert 0,2 2 24 #7 5 6 keep
remove 31 4294967295 keep | remove 31 4294967295 keep
extract 30,31 0 9 keep | extract 30,31 0 9 keep
slice 1 00:00:01:01 keep | slice 1 25 keep
fill 1 20 @3 400 sequence keep | fill 1 20 @3 400 sequence keep
fill 1 20 @3 400 source 07 keep | fill 1 20 @3 400 source 7 keep
";

// Each row is a line that is none, ` | `, and the reply to it.
const FAULTS: &str = "\
jump | bad B1
 | bad B2
 \t  | bad B2
Point | bad B1
point\r | bad B1
overwrit 0 0 @0 0 1 | bad B1
point 0 | bad B2
items | bad B2
items 0 0 | bad B2
items x | bad B3
items -1 | bad B3
items 32 | bad B4
items 4294967296 | bad B4
view 0 0 | bad B2
view 0 0 0 0 | bad B2
view 0 x 0 | bad B3
view 0 0 4294967296 | bad B4
view 32 x 0 | bad B4
view x 4294967296 0 | bad B3
view 0 4294967296 x | bad B4
overwrite 0 0 @0 0 | bad B2
overwrite 0 0 @0 0 1 1 | bad B1
overwrite x 0 0 0 4294967296 | bad B3
overwrite 32 0 0 0 x | bad B4
overwrite 0 0 0 0 1 | bad B3
overwrite 0 0 @ 0 1 | bad B3
overwrite 0 0 @-1 0 1 | bad B3
overwrite 0 0 #4294967296 x 1 | bad B4
overwrite 0 0 @0 00:00:00:01 1 | bad B3
overwrite 0 0 @0 4294967296 x | bad B4
overwrite 0 0 @0 0 -1 | bad B3
overwrite 1 2 3 4 5 6 7 8 | bad B2
overwrite 1 2 3 4 5 6 7 8 9 10 | bad B2
jump 1 2 3 4 5 6 7 8 9 10 | bad B1
insert 0 0 0 @0 0 | bad B2
insert 0 0 0 @0 0 1 1 | bad B1
insert 2,1 1 0 @0 0 1 | bad B6
insert 1,1 1 0 @0 0 1 | bad B6
insert 2,1,x 1 0 @0 0 1 | bad B6
insert 2,x 1 0 @0 0 1 | bad B3
insert 2,40,1 1 0 @0 0 1 | bad B4
insert 0, 0 0 @0 0 1 | bad B3
insert ,0 0 0 @0 0 1 | bad B3
insert 0,,1 0 0 @0 0 1 | bad B3
insert , 0 0 @0 0 1 | bad B3
insert 0 32 x x x x | bad B4
insert 0 x 4294967296 x x x | bad B3
insert 0 0 0 @0 0 x | bad B3
remove 0 | bad B2
remove 0 0 0 | bad B1
remove 0 x | bad B3
remove 0,1 0 | bad B3
remove 32 x | bad B4
extract 0 0 | bad B2
extract 0,32 x x | bad B4
extract 0 0 00:00:00:01 | bad B3
slice 0 | bad B2
slice 0 0 0 | bad B1
slice 0 4294967296 | bad B4
slice x 4294967296 | bad B3
dissolve 0 0 0 | bad B2
dissolve 0 0 x 4294967296 | bad B3
dissolve 0 0 0 4294967296 | bad B4
undissolve 0 0 0 | bad B2
trim 0 0 head | bad B2
trim 0 0 Head x | bad B1
trim 0 0 tail --1 | bad B3
trim 0 0 tail 2147483648 | bad B4
slip 0 0 0 -2147483649 | bad B4
slip 0 0 0 - | bad B3
otio | bad B2
otio -1 | bad B3
news | bad B2
news 0 0 | bad B2
news -1 | bad B3
news 00:00:00:01 | bad B3
news 4294967296 | bad B4
New 0 | bad B1
newt 0 | bad B1
back | bad B2
back 0 0 | bad B2
back 0 keep | bad B2
back x | bad B3
back , | bad B3
back 0, | bad B3
back @0 | bad B3
back 32 | bad B4
back 4294967296 | bad B4
back 0,0 | bad B6
back 1,0,x | bad B6
back 0,x,32 | bad B3
back 0,32,x | bad B4
bach 0 | bad B1
Back 0 | bad B1
roll 0 0 | bad B2
roll 0 4294967296 x | bad B4
slide 0 0 0 1- | bad B3
fill 0 0 @0 0 | bad B2
fill 0 0 @0 0 sequence 1 1 | bad B1
fill 0 0 @0 0 source | bad B1
fill 0 0 @0 0 sequence x | bad B1
fill 0 0 @0 x sequenc | bad B3
fill 0 0 @0 0 source x | bad B3
fill 0 0 @0 0 source 4294967296 | bad B4
ripple 0 0 0 head | bad B2
ripple 0 0 0 tai x | bad B1
link | bad B2
link 0 | bad B2
link 0 0 0 | bad B2
link 0 0,1 | bad B2
link 0,1 0 | bad B2
link 0 0,x | bad B3
link 0 0,4294967296 | bad B4
link 0 4294967296,x | bad B4
link 0 , | bad B3
link 0,1 0, | bad B3
link 1,0 0,0 | bad B6
link 0,32 x | bad B4
link x 4294967296 | bad B3
unlink 0 | bad B2
unlink 0 0 0 | bad B2
unlink 32 x | bad B4
unlink 0 0,1 | bad B3
";

// Lines that are none of the table, which end with a word more.
const KEPT_FAULTS: &str = "\
keep | bad B1
slice 0 5 kept | bad B1
slice 0 5 keep keep | bad B2
slice 0 5 Keep | bad B1
slice 0 5 kee | bad B1
slice 0 keep | bad B3
slice keep | bad B2
slice 32 5 kept | bad B4
slice 0 4294967296 kept | bad B4
slice 32 x keep keep | bad B2
slice keep 0 5 | bad B3
overwrite 1 20 @3 400 5000 kept | bad B1
overwrite 1 20 @3 400 5000 keep keep | bad B2
overwrite 1 20 @3 400 keep | bad B3
overwrite 1 20 @3 400 4294967296 kept | bad B4
overwrite 1 20 @3 400 5000 6 keep | bad B2
overwrite 32 x 3 x x kept keep | bad B2
insert 0,2 2 24 #7 5 6 kept | bad B1
insert 0,2 2 24 #7 5 6 keep keep | bad B2
insert 2,1 2 24 #7 5 6 kept | bad B6
insert 0,2 2 24 #7 5 x kept | bad B3
insert 2,1 2 24 #7 5 6 keep 1 | bad B2
insert 2,1 2 24 #7 5 6 keep 1 2 | bad B2
remove 3 4 kept | bad B1
remove 3 4 keep keep | bad B2
remove 3 keep | bad B3
remove 32 4 kept | bad B4
extract 0,3 3 4 kept | bad B1
extract 0,3 3 4 keep keep | bad B2
extract 3,0 3 4 kept | bad B6
extract 0,3 3 keep | bad B3
fill keep | bad B2
fill 1 20 @3 400 keep | bad B1
fill 1 20 @3 400 sequence kept | bad B1
fill 1 20 @3 400 sequence keep keep | bad B1
fill 1 20 @3 400 sequence keep keep keep | bad B2
fill 1 20 @3 400 source keep | bad B3
fill 1 20 @3 400 source 7 kept | bad B1
fill 1 20 @3 400 source 4294967296 kept | bad B4
fill 1 20 @3 400 source 7 keep keep | bad B2
dissolve 3 10 1 2 keep | bad B2
undissolve 3 10 keep | bad B2
trim 3 10 tail 1 keep | bad B2
slip 3 3 10 1 keep | bad B2
roll 3 10 1 keep | bad B2
slide 3 3 10 1 keep | bad B2
ripple 3 3 10 tail 1 keep | bad B2
link 0 0 keep | bad B2
unlink 3 10 keep | bad B2
view 0 0 0 keep | bad B2
";

// Each count of words after `fill`, and each wrong word of it.
const FILLS: &str = "\
fill | bad B2
fill 0 | bad B2
fill 0 0 | bad B2
fill 0 0 @0 | bad B2
fill 0 0 @0 0 | bad B2
fill 0 0 @0 0 sequence | fill 0 0 @0 0 sequence
fill 32 0 @0 0 sequence | bad B4
fill 0 x @0 0 sequence | bad B3
fill 0 0 0 0 sequence | bad B3
fill 0 0 @0 x sequence | bad B3
fill 0 0 @0 0 sequenc | bad B1
fill 0 0 @0 0 source | bad B1
fill 0 0 @0 0 sequence keep | fill 0 0 @0 0 sequence keep
fill 32 0 @0 0 sequence kept | bad B4
fill 0 x @0 0 sequence kept | bad B3
fill 0 0 0 0 sequence kept | bad B3
fill 0 0 @0 x sequence kept | bad B3
fill 0 0 @0 0 sequence 1 | bad B1
fill 0 0 @0 0 sequence source | bad B1
fill 0 0 @0 0 source 1 | fill 0 0 @0 0 source 1
fill 32 0 @0 0 sourc x | bad B4
fill 0 x @0 0 sourc x | bad B3
fill 0 0 0 0 sourc x | bad B3
fill 0 0 @0 x sourc x | bad B3
fill 0 0 @0 0 sourc x | bad B1
fill 0 0 @0 0 sourc keep | bad B1
fill 0 0 @0 0 1 source | bad B1
fill 0 0 @0 0 source x | bad B3
fill 0 0 @0 0 source 4294967296 | bad B4
fill 0 0 @0 0 source 1 keep | fill 0 0 @0 0 source 1 keep
fill 32 0 @0 0 sourc x kept | bad B4
fill 0 x @0 0 sourc x kept | bad B3
fill 0 0 0 0 sourc x kept | bad B3
fill 0 0 @0 x sourc x kept | bad B3
fill 0 0 @0 0 sourc x kept | bad B1
fill 0 0 @0 0 sequence 1 keep | bad B1
fill 0 0 @0 0 source x kept | bad B3
fill 0 0 @0 0 source 4294967296 kept | bad B4
fill 0 0 @0 0 source 1 sequence | bad B1
fill 0 0 @0 0 source 1 keep 1 | bad B2
fill 0 0 @0 0 source 1 keep 1 2 | bad B2
fill x x x x x x x x | bad B2
";

#[test]
fn lines_say_what_the_table_says(rt: HostRuntime) -> Result<(), Fail> {
    let film = film().ok_or("no such counting")?;
    say(&rt, rt.alloc(), LINES, &film, 0)
}

#[test]
fn the_first_fault_of_a_line_is_told(rt: HostRuntime) -> Result<(), Fail> {
    let film = film().ok_or("no such counting")?;
    say(&rt, rt.alloc(), FAULTS, &film, 0)?;
    say(&rt, rt.alloc(), KEPT_FAULTS, &film, 0)
}

#[test]
fn each_count_of_words_of_a_fill_has_its_row(rt: HostRuntime) -> Result<(), Fail> {
    let film = film().ok_or("no such counting")?;
    say(&rt, rt.alloc(), FILLS, &film, 0)
}

// Each line of these rows says what stands beside it.
fn say(
    rt: &impl Abort,
    alloc: Global,
    rows: &str,
    counting: &Counting,
    start: u32,
) -> Result<(), Fail> {
    for (row, text) in rows.lines().enumerate() {
        let (line, want) = text.split_once(" | ").ok_or("no row")?;
        let said = told(alloc, line.as_bytes(), counting, start)?;
        assert_eq!(rt; said.as_slice(), want.as_bytes(), "from {start}, row {row}");
    }
    Ok(())
}

// Each row is a line with a label, ` | `, and what it says.
const FILM: &str = "\
view 0 0 00:00:00:00 | view 0 0 0
view 0 0 00:00:01:00 | view 0 0 24
view 0 0 00:00:00;23 | view 0 0 23
view 0 0 00:00:00:24 | bad B3
view 0 0 23:59:59:23 | view 0 0 2073599
view 0 0 24:00:00:00 | bad B3
view 0 0 00:60:00:00 | bad B3
view 0 0 00:00;00:00 | bad B3
view 0 0 0:00:00:00 | bad B3
view 0 0 00:00:00:000 | bad B3
view 0 0 4294967296 | bad B4
";

const VIDEO: &str = "\
view 0 0 00:00:00:24 | view 0 0 24
";

const FILM_FROM_A_SECOND: &str = "\
view 0 0 00:00:01:00 | view 0 0 0
view 0 0 00:00:00:23 | bad B3
view 0 0 24 | view 0 0 24
";

const FILM_FROM_AN_HOUR: &str = "\
view 0 0 01:00:01:00 | view 0 0 24
";

const DROP_FRAME: &str = "\
view 0 0 00:01:00;00 | bad B3
view 0 0 00:01:00:02 | view 0 0 1800
view 0 0 00:10:00;00 | view 0 0 17982
";

const NON_DROP: &str = "\
view 0 0 00:01:00;00 | view 0 0 1800
";

#[test]
fn labels_name_places_from_the_start(rt: HostRuntime) -> Result<(), Fail> {
    say_at(&rt, rt.alloc(), FILM, SequenceRate::F24, 0)?;
    say_at(&rt, rt.alloc(), FILM_FROM_A_SECOND, SequenceRate::F24, 24)?;
    say_at(&rt, rt.alloc(), FILM_FROM_AN_HOUR, SequenceRate::F24, 86400)?;
    say_at(&rt, rt.alloc(), VIDEO, SequenceRate::F25, 0)?;
    say_at(&rt, rt.alloc(), NON_DROP, SequenceRate::F2997, 0)?;
    let dropping = Counting::new(SequenceRate::F2997, true).ok_or("no such counting")?;
    say(&rt, rt.alloc(), DROP_FRAME, &dropping, 0)
}

// Sees what lines say at a rate, without drop-frame.
fn say_at(
    rt: &impl Abort,
    alloc: Global,
    rows: &str,
    rate: SequenceRate,
    start: u32,
) -> Result<(), Fail> {
    let counting = Counting::new(rate, false).ok_or("no such counting")?;
    say(rt, alloc, rows, &counting, start)
}

#[test]
fn a_line_has_at_most_1024_bytes(rt: HostRuntime) -> Result<(), Fail> {
    let film = film().ok_or("no such counting")?;
    let mut line = Vec::from_slice(rt.alloc(), b"point")?;
    for _ in line.len()..1024 {
        line.push(b' ')?;
    }
    let most = told(rt.alloc(), line.as_slice(), &film, 0)?;
    assert_eq!(rt; most.as_slice(), b"point".as_slice());
    line.push(b' ')?;
    let more = told(rt.alloc(), line.as_slice(), &film, 0)?;
    assert_eq!(rt; more.as_slice(), b"bad B5".as_slice());
    Ok(())
}
