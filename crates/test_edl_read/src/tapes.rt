// Lists, and the text of their tapes.
use crate::sample::tape_text;
use std::test::Fail;
use timecode12::SequenceRate;

// Lists at 24 frames a second.
const AT_24: [(&str, &str); 17] = [
    ("", ""),
    // blank lines as editors of Windows leave them
    ("\r\n", ""),
    ("\r\n \r\n\t\r\n", ""),
    ("TITLE: X\r\n* a note\n \t\n", ""),
    // the seven channels, blanks, and both ends of lines
    (
        "1\tR1 V C 00:00:00:00 00:00:00:01 00:00:00:00 00:00:00:01\r
  2 R2\t\tA C 00:00:00:00 00:00:00:01 00:00:00:01 00:00:00:02
3 R3 A2 C 00:00:00:00 00:00:00:01 00:00:00:02 00:00:00:03 \t\r
4 R4 B C 00:00:00;00 00:00:00;01 00:00:00;03 00:00:00;04
5 R5 AA C 00:00:00:00 00:00:00:01 00:00:00:04 00:00:00:05
6 R6 A2/V C 00:00:00:00 00:00:00:01 00:00:00:05 00:00:00:06
7 R7 AA/V C 00:00:00:00 00:00:00:01 00:00:00:06 00:00:00:07",
        "V 0 1 R1 0
V 3 1 R4 0
V 5 1 R6 0
V 6 1 R7 0
A 1 1 R2 0
A 3 1 R4 0
A 4 1 R5 0
A 6 1 R7 0
A2 2 1 R3 0
A2 4 1 R5 0
A2 5 1 R6 0
A2 6 1 R7 0
",
    ),
    // black is dark, and no other reel is
    (
        "1 BL V C 00:00:00:00 00:00:00:04 00:00:00:00 00:00:00:04",
        "",
    ),
    (
        "1 BLX V C 00:00:00:00 00:00:00:04 00:00:00:00 00:00:00:04",
        "V 0 4 BLX 0\n",
    ),
    (
        "1 BLACK V C 00:00:00:00 00:00:00:04 00:00:00:00 00:00:00:04",
        "V 0 4 BLACK 0\n",
    ),
    // two that touch, not in order, are one run where the source goes on
    (
        "999 R V C 00:00:00:14 00:00:00:18 00:00:01:00 00:00:01:04
000001 R V C 00:00:00:10 00:00:00:14 00:00:00:20 00:00:01:00",
        "V 20 8 R 10\n",
    ),
    (
        "1 R V C 00:00:00:10 00:00:00:14 00:00:00:20 00:00:01:00
2 R V C 00:00:00:15 00:00:00:19 00:00:01:00 00:00:01:04",
        "V 20 4 R 10\nV 24 4 R 15\n",
    ),
    (
        "1 R V C 00:00:00:10 00:00:00:14 00:00:00:20 00:00:01:00
2 S V C 00:00:00:14 00:00:00:18 00:00:01:00 00:00:01:04",
        "V 20 4 R 10\nV 24 4 S 14\n",
    ),
    (
        "1 R V C 00:00:00:10 00:00:00:14 00:00:00:20 00:00:01:00
2 R V C 00:00:00:15 00:00:00:19 00:00:01:01 00:00:01:05",
        "V 20 4 R 10\nV 25 4 R 15\n",
    ),
    // a dissolve as long as its event, then one with frames after it, and a cut that goes on from those
    (
        "1 BL V C 00:00:00:00 00:00:00:00 00:00:00:00 00:00:00:00
* what may stand between
TITLE: between

001 R1 V D 003 00:00:00:05 00:00:00:08 00:00:00:00 00:00:00:03
2 R1 V C 00:00:00:08 00:00:00:08 00:00:00:03 00:00:00:03
2 R2 V D 2 00:00:00:00 00:00:00:04 00:00:00:03 00:00:00:07
3 R2 V C 00:00:00:04 00:00:00:06 00:00:00:07 00:00:00:09",
        "V 0 3 mix BL R1 5 1 4
V 3 2 mix R1 8 R2 0 1 3
V 5 4 R2 2
",
    ),
    // a dissolve of black with black shows mixes, and then nothing
    (
        "1 BL AA C 00:00:00:00 00:00:00:00 00:00:00:02 00:00:00:02
1 BL AA D 3 00:00:00:00 00:00:00:04 00:00:00:02 00:00:00:06",
        "A 2 3 mix BL BL 1 4\nA2 2 3 mix BL BL 1 4\n",
    ),
    // the longest reel, and the last frame of the day
    (
        "1 ABCDEFGHIJKLMNOPQRSTUVWXYZ012345 V C 00:00:00:00 00:00:00:01 23:59:59:22 23:59:59:23",
        "V 2073598 1 ABCDEFGHIJKLMNOPQRSTUVWXYZ012345 0\n",
    ),
    // no two channels overlap
    (
        "1 R V C 00:00:00:00 00:00:00:10 00:00:00:00 00:00:00:10
2 R A C 00:00:00:00 00:00:00:10 00:00:00:00 00:00:00:10",
        "V 0 10 R 0\nA 0 10 R 0\n",
    ),
    // one that lies between two
    (
        "1 R V C 00:00:00:00 00:00:00:02 00:00:00:00 00:00:00:02
2 R V C 00:00:00:04 00:00:00:06 00:00:00:04 00:00:00:06
3 R V C 00:00:00:02 00:00:00:04 00:00:00:02 00:00:00:04",
        "V 0 6 R 0\n",
    ),
];

// Lists at 30000/1001, which begin as non-drop.
const AT_2997: [(&str, &str); 2] = [
    (
        "FCM: DROP FRAME\n1 R V C 00:00:59;28 00:01:00;02 00:00:59:29 00:01:00:03",
        "V 1799 2 R 1798\n",
    ),
    (
        "1 R V C 00:01:00:00 00:01:00:01 00:01:00:00 00:01:00:01
FCM: DROP FRAME
2 R V C 00:01:00:03 00:01:00:04 00:01:00:03 00:01:00:04
FCM: NON-DROP FRAME
FCM: NON-DROP FRAME
3 R V C 00:01:00:02 00:01:00:03 00:01:00:02 00:01:00:03",
        "V 1800 3 R 1800\n",
    ),
];

#[test]
fn lists_have_their_tapes(rt: HostRuntime) -> Result<(), Fail> {
    let alloc = rt.alloc();
    for (list, want) in AT_24 {
        let text = tape_text(alloc, list.as_bytes(), SequenceRate::F24)?;
        assert!(rt; text.as_slice() == want.as_bytes());
    }
    for (list, want) in AT_2997 {
        let text = tape_text(alloc, list.as_bytes(), SequenceRate::F2997)?;
        assert!(rt; text.as_slice() == want.as_bytes());
    }
    Ok(())
}
