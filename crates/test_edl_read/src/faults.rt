// Each code of a fault at its border.
use crate::sample::fault_of;
use edl_read::{LineCode, ListReadFault};
use std::test::Fail;
use timecode12::SequenceRate;

// Lists of one fault at 24 frames a second, with its code, its line, and the line of the other event.
const AT_24: [(&str, LineCode, u32, u32); 63] = [
    // a counting
    ("FCM: DROP FRAME", LineCode::P12, 1, 0),
    ("FCM:", LineCode::P12, 1, 0),
    ("FCM: NON-DROP", LineCode::P12, 1, 0),
    ("FCM: NON-DROP FRAME X", LineCode::P12, 1, 0),
    (
        "FCM: NON-DROP FRAME\n\nfcm: NON-DROP FRAME",
        LineCode::P2,
        3,
        0,
    ),
    // a change of speed, before the rest of its line
    ("M2", LineCode::P7, 1, 0),
    ("M2 R 024.0 00:00:00:00", LineCode::P7, 1, 0),
    ("M2X", LineCode::P2, 1, 0),
    // lines that are notes to who wrote them, and the end of a file of DOS
    ("FROM CLIP NAME: x", LineCode::P2, 1, 0),
    (
        "1 R V C 00:00:00:00 00:00:00:01 00:00:00:00 00:00:00:01\n\x1a",
        LineCode::P2,
        2,
        0,
    ),
    ("\x1a\n\n", LineCode::P2, 1, 0),
    ("\r\r\n", LineCode::P2, 1, 0),
    // a number, of one to six digits, up to 999
    (
        "1234567 R V C 00:00:00:00 00:00:00:01 00:00:00:00 00:00:00:01",
        LineCode::P2,
        1,
        0,
    ),
    (
        "0000001 R V C 00:00:00:00 00:00:00:01 00:00:00:00 00:00:00:01",
        LineCode::P2,
        1,
        0,
    ),
    (
        "+1 R V C 00:00:00:00 00:00:00:01 00:00:00:00 00:00:00:01",
        LineCode::P2,
        1,
        0,
    ),
    ("1a R V W1", LineCode::P2, 1, 0),
    ("1000 R V W1", LineCode::P11, 1, 0),
    (
        "001000 R V C 00:00:00:00 00:00:00:01 00:00:00:00 00:00:00:01",
        LineCode::P11,
        1,
        0,
    ),
    // a wipe and a key, before the layout
    ("1 R V W", LineCode::P5, 1, 0),
    ("1 R V W001 a b", LineCode::P5, 1, 0),
    ("1 R V K", LineCode::P6, 1, 0),
    ("1 R V KB", LineCode::P6, 1, 0),
    // a layout
    ("1", LineCode::P1, 1, 0),
    (
        "1 R X c 00:00:00:00 00:00:00:01 00:00:00:00 00:00:00:01",
        LineCode::P1,
        1,
        0,
    ),
    (
        "1 R X C 00:00:00:00 00:00:00:01 00:00:00:00",
        LineCode::P1,
        1,
        0,
    ),
    (
        "1 R X C 00:00:00:00 00:00:00:01 00:00:00:00 00:00:00:01 x",
        LineCode::P1,
        1,
        0,
    ),
    (
        "1 R X D 00:00:00:00 00:00:00:01 00:00:00:00 00:00:00:01",
        LineCode::P1,
        1,
        0,
    ),
    (
        "1 R X D 1 00:00:00:00 00:00:00:01 00:00:00:00 00:00:00:01 x",
        LineCode::P1,
        1,
        0,
    ),
    (
        "1 R X D 0001 00:00:00:00 00:00:00:01 00:00:00:00 00:00:00:01",
        LineCode::P1,
        1,
        0,
    ),
    (
        "1 R X D x 00:00:00:00 00:00:00:01 00:00:00:00 00:00:00:01",
        LineCode::P1,
        1,
        0,
    ),
    (
        "1 ABCDEFGHIJKLMNOPQRSTUVWXYZ0123456 X C 00:00:00:00 00:00:00:01 00:00:00:00 00:00:00:01",
        LineCode::P1,
        1,
        0,
    ),
    (
        "1 R\x7f X C 00:00:00:00 00:00:00:01 00:00:00:00 00:00:00:01",
        LineCode::P1,
        1,
        0,
    ),
    // a channel
    ("1 R X C 0 0 0 0", LineCode::P8, 1, 0),
    ("1 R v C 0 0 0 0", LineCode::P8, 1, 0),
    ("1 R A1 C 0 0 0 0", LineCode::P8, 1, 0),
    ("1 R V/A2 C 0 0 0 0", LineCode::P8, 1, 0),
    // a timecode
    (
        "1 R V C 00:00:00:24 00:00:00:00 00:00:00:00 00:00:00:00",
        LineCode::P3,
        1,
        0,
    ),
    (
        "1 R V C 00:00:00:00 0:00:00:01 00:00:00:00 00:00:00:01",
        LineCode::P3,
        1,
        0,
    ),
    (
        "1 R V C 00:00:00:00 00:00:00:01 00:00:60:00 00:00:00:01",
        LineCode::P3,
        1,
        0,
    ),
    (
        "1 R V C 00:00:00:00 00:00:00:01 23:59:59:23 24:00:00:00",
        LineCode::P3,
        1,
        0,
    ),
    (
        "1 R V C 00:00:00:00 00:00:00:01 00:00:00:00 00:00;00:01",
        LineCode::P3,
        1,
        0,
    ),
    (
        "1 R V C 00:00:00:00 00:00:00:01 00:00:00:00 00:00:00:01\r",
        LineCode::P3,
        1,
        0,
    ),
    // lengths
    (
        "1 R V C 00:00:00:01 00:00:00:00 00:00:00:00 00:00:00:01",
        LineCode::P4,
        1,
        0,
    ),
    (
        "1 R V C 00:00:00:00 00:00:00:01 00:00:00:01 00:00:00:00",
        LineCode::P4,
        1,
        0,
    ),
    (
        "1 R V C 00:00:00:00 00:00:00:05 00:00:00:00 00:00:00:04",
        LineCode::P4,
        1,
        0,
    ),
    (
        "1 R V C 00:00:00:00 00:00:00:04 00:00:00:00 00:00:00:05",
        LineCode::P4,
        1,
        0,
    ),
    (
        "1 R V D 0 00:00:00:00 00:00:00:04 00:00:00:00 00:00:00:04",
        LineCode::P4,
        1,
        0,
    ),
    (
        "1 R V D 5 00:00:00:00 00:00:00:04 00:00:00:00 00:00:00:04",
        LineCode::P4,
        1,
        0,
    ),
    // a dissolve and its cut
    (
        "1 R V D 4 00:00:00:00 00:00:00:04 00:00:00:00 00:00:00:04",
        LineCode::P9,
        1,
        0,
    ),
    (
        "1 R V C 00:00:00:00 00:00:00:00 00:00:00:00 00:00:00:00\n",
        LineCode::P9,
        1,
        0,
    ),
    (
        "1 R V C 00:00:00:00 00:00:00:00 00:00:00:00 00:00:00:00
2 R V D 1 00:00:00:00 00:00:00:01 00:00:00:00 00:00:00:01",
        LineCode::P9,
        2,
        0,
    ),
    (
        "1 R V C 00:00:00:00 00:00:00:00 00:00:00:00 00:00:00:00
1 R B D 1 00:00:00:00 00:00:00:01 00:00:00:00 00:00:00:01",
        LineCode::P9,
        2,
        0,
    ),
    (
        "1 R V C 00:00:00:00 00:00:00:00 00:00:00:00 00:00:00:00
1 R V D 1 00:00:00:00 00:00:00:01 00:00:00:01 00:00:00:02",
        LineCode::P9,
        2,
        0,
    ),
    (
        "1 R V C 00:00:00:00 00:00:00:00 00:00:00:00 00:00:00:00
1 R V C 00:00:00:00 00:00:00:01 00:00:00:00 00:00:00:01",
        LineCode::P9,
        1,
        0,
    ),
    // of two cuts of zero length the first has no dissolve, though the second has one
    (
        "1 R V C 00:00:00:00 00:00:00:00 00:00:00:00 00:00:00:00
2 S V C 00:00:00:00 00:00:00:00 00:00:00:00 00:00:00:00
2 R V D 1 00:00:00:00 00:00:00:01 00:00:00:00 00:00:00:01",
        LineCode::P9,
        1,
        0,
    ),
    (
        "1 R V C 00:00:00:00 00:00:00:00 00:00:00:00 00:00:00:00\nFCM: NON-DROP FRAME",
        LineCode::P9,
        1,
        0,
    ),
    (
        "1 R V C 00:00:00:00 00:00:00:00 00:00:00:00 00:00:00:00\n1 R V K",
        LineCode::P6,
        2,
        0,
    ),
    // overlaps, of which the least line is told
    (
        "1 R V C 00:00:00:00 00:00:00:10 00:00:00:00 00:00:00:10
2 R V C 00:00:00:00 00:00:00:10 00:00:00:09 00:00:00:19",
        LineCode::P10,
        2,
        1,
    ),
    (
        "1 R V C 00:00:00:00 00:00:00:10 00:00:00:10 00:00:00:20
2 R B C 00:00:00:00 00:00:00:10 00:00:00:00 00:00:00:10
3 R AA/V C 00:00:00:00 00:00:00:10 00:00:00:05 00:00:00:15",
        LineCode::P10,
        3,
        1,
    ),
    (
        "1 R V C 00:00:00:00 00:00:00:10 00:00:00:00 00:00:00:10
2 R V C 00:00:00:00 00:00:00:10 00:00:00:10 00:00:00:20
3 R V C 00:00:00:00 00:00:00:10 00:00:00:05 00:00:00:15",
        LineCode::P10,
        3,
        1,
    ),
    (
        "1 R AA C 00:00:00:00 00:00:00:10 00:00:00:00 00:00:00:10
2 R A2/V C 00:00:00:00 00:00:00:01 00:00:00:04 00:00:00:05",
        LineCode::P10,
        2,
        1,
    ),
    (
        "1 R V C 00:00:00:00 00:00:00:00 00:00:00:00 00:00:00:00
1 R V D 1 00:00:00:00 00:00:00:03 00:00:00:00 00:00:00:03
2 R V C 00:00:00:00 00:00:00:02 00:00:00:02 00:00:00:04",
        LineCode::P10,
        3,
        2,
    ),
    (
        "1 R V C 00:00:00:00 00:00:00:10 00:00:00:00 00:00:00:10
2 R V C 00:00:00:00 00:00:00:00 00:00:00:05 00:00:00:05
2 R V D 1 00:00:00:00 00:00:00:03 00:00:00:05 00:00:00:08",
        LineCode::P10,
        3,
        1,
    ),
];

// Lists at 30000/1001, each with its fault.
const AT_2997: [(&str, LineCode, u32, u32); 3] = [
    ("FCM: DROP FRAMES", LineCode::P12, 1, 0),
    (
        "FCM: DROP FRAME\n1 R V C 00:01:00;00 00:01:00;03 00:01:00;03 00:01:00;04",
        LineCode::P3,
        2,
        0,
    ),
    (
        "1 R V C 00:00:00:30 00:01:00:03 00:01:00:03 00:01:00:04",
        LineCode::P3,
        1,
        0,
    ),
];

#[test]
fn each_code_has_its_border(rt: HostRuntime) -> Result<(), Fail> {
    let alloc = rt.alloc();
    for (list, code, line, other) in AT_24 {
        let want = ListReadFault::Refused { code, line, other };
        assert_eq!(rt;
            fault_of(alloc, list.as_bytes(), SequenceRate::F24),
            Some(want)
        );
    }
    Ok(())
}

#[test]
fn labels_that_are_dropped_are_none(rt: HostRuntime) -> Result<(), Fail> {
    let alloc = rt.alloc();
    for (list, code, line, other) in AT_2997 {
        let want = ListReadFault::Refused { code, line, other };
        assert_eq!(rt;
            fault_of(alloc, list.as_bytes(), SequenceRate::F2997),
            Some(want)
        );
    }
    Ok(())
}
