// A worked list, its tape and its faults, and what a list is read as.
use edl_events::tape_frame;
use edl_read::{Channel, LineCode, List, ListReadFault, MAX_LIST, Memory, Tape, read_list};
use std::alloc::Global;
use std::test::Fail;
use timecode12::SequenceRate;

// A list of a cut that begins at 01:00:00:00, at 24 frames a second.
const LINES: [&str; 9] = [
    "TITLE: CUT",
    "FCM: NON-DROP FRAME",
    "001  TAPE1    V     C        00:02:30:00 00:02:31:23 01:00:00:00 01:00:01:23",
    "002  TAPE1    A     C        00:02:30:00 00:02:33:00 01:00:00:00 01:00:03:00",
    "003  TAPE1    V     C        00:02:31:23 00:02:31:23 01:00:01:23 01:00:01:23",
    "003  TAPE2    V     D    003 00:00:04:03 00:00:04:16 01:00:01:23 01:00:02:12",
    "004  TAPE2    A2    C        00:00:04:04 00:00:05:04 01:00:02:00 01:00:03:00",
    "005  GFX1     V     C        00:00:00:00 00:00:00:06 01:00:02:12 01:00:02:18",
    "006  TAPE2    V     C        00:00:04:22 00:00:05:04 01:00:02:18 01:00:03:00",
];

const TAPE: &str = "V 86400 47 TAPE1 3600
V 86447 3 mix TAPE1 3647 TAPE2 99 1 4
V 86450 10 TAPE2 102
V 86460 6 GFX1 0
V 86466 6 TAPE2 118
A 86400 72 TAPE1 3600
A2 86448 24 TAPE2 100
";

// A line, what stands there in its place, and the fault: its code, its line, and the line of the other event.
const FAULTS: [(usize, Option<&str>, LineCode, u32, u32); 13] = [
    (
        3,
        Some("001 TAPE1 V C 00:02:30:00 00:02:31:23 01:00:00:00 01:00:01:24"),
        LineCode::P3,
        3,
        0,
    ),
    (
        3,
        Some("001 TAPE1 V C 00:02:30:00 00:02:31:23 01:00:00:00 01:00:01:22"),
        LineCode::P4,
        3,
        0,
    ),
    (6, None, LineCode::P9, 5, 0),
    (
        9,
        Some("006 TAPE2 V C 00:00:04:21 00:00:05:04 01:00:02:17 01:00:03:00"),
        LineCode::P10,
        9,
        8,
    ),
    (2, Some("FCM: DROP FRAME"), LineCode::P12, 2, 0),
    (
        8,
        Some("M2 GFX1 V C 00:00:00:00 00:00:00:06 01:00:02:12 01:00:02:18"),
        LineCode::P7,
        8,
        0,
    ),
    (
        4,
        Some("002 TAPE1 A W001 00:02:30:00 00:02:33:00 01:00:00:00 01:00:03:00"),
        LineCode::P5,
        4,
        0,
    ),
    (
        4,
        Some("002 TAPE1 A K 00:02:30:00 00:02:33:00 01:00:00:00 01:00:03:00"),
        LineCode::P6,
        4,
        0,
    ),
    (
        4,
        Some("002 TAPE1 X C 00:02:30:00 00:02:33:00 01:00:00:00 01:00:03:00"),
        LineCode::P8,
        4,
        0,
    ),
    (
        4,
        Some("1000 TAPE1 A C 00:02:30:00 00:02:33:00 01:00:00:00 01:00:03:00"),
        LineCode::P11,
        4,
        0,
    ),
    (
        4,
        Some("AUD TAPE1 A C 00:02:30:00 00:02:33:00 01:00:00:00 01:00:03:00"),
        LineCode::P2,
        4,
        0,
    ),
    (
        4,
        Some("002 TAPE1 A C 00:02:30:00 00:02:33:00 01:00:00:00"),
        LineCode::P1,
        4,
        0,
    ),
    (5, None, LineCode::P9, 5, 0),
];

/// What a list is read as. It has no contract, so that a test is proved without that of the call.
pub fn reading(alloc: Global, bytes: &[u8], rate: SequenceRate) -> Result<List, ListReadFault> {
    if bytes.len() > MAX_LIST {
        return Err(ListReadFault::Memory);
    }
    read_list(alloc, bytes, rate)
}

/// Why a list is refused; nothing where it is read.
pub fn fault_of(alloc: Global, bytes: &[u8], rate: SequenceRate) -> Option<ListReadFault> {
    match reading(alloc, bytes, rate) {
        Ok(_) => None,
        Err(fault) => Some(fault),
    }
}

/// The text of the tape of a list.
pub fn tape_text(
    alloc: Global,
    bytes: &[u8],
    rate: SequenceRate,
) -> Result<Vec<u8>, ListReadFault> {
    if bytes.len() > MAX_LIST {
        return Err(ListReadFault::Memory);
    }
    let list = read_list(alloc, bytes, rate)?;
    let tape = Tape::play(alloc, &list)?;
    let text = tape.text(alloc)?;
    Ok(text)
}

// The lines of the worked list, of which one, counted from 1, has another in its place, or is taken away.
fn changed(alloc: Global, line: usize, new: Option<&str>) -> Result<Vec<u8>, Memory> {
    let mut text = Vec::new(alloc);
    for (index, old) in LINES.iter().enumerate() {
        if index + 1 != line {
            add_line(&mut text, old)?;
            continue;
        }
        match new {
            Some(new) => add_line(&mut text, new)?,
            None => {}
        }
    }
    Ok(text)
}

fn add_line(text: &mut Vec<u8>, line: &str) -> Result<(), Memory> {
    text.extend_from_slice(line.as_bytes())?;
    text.push(b'\n')?;
    Ok(())
}

#[test]
fn the_worked_list_has_its_tape(rt: HostRuntime) -> Result<(), Fail> {
    let alloc = rt.alloc();
    let bytes = changed(alloc, 0, None)?;
    let text = tape_text(alloc, bytes.as_slice(), SequenceRate::F24)?;
    assert!(rt; text.as_slice() == TAPE.as_bytes());
    Ok(())
}

// Whether the tape of a list shows on a channel what the plain program does, at record frames from 86,390 to 86,479.
fn shows_its_frames(alloc: Global, bytes: &[u8], channel: Channel) -> Result<bool, ListReadFault> {
    if bytes.len() > MAX_LIST {
        return Err(ListReadFault::Memory);
    }
    let list = read_list(alloc, bytes, SequenceRate::F24)?;
    let tape = Tape::play(alloc, &list)?;
    for frame in 86_390..86_480 {
        if tape.at(channel, frame) != tape_frame(list.as_slice(), channel, frame) {
            return Ok(false);
        }
    }
    Ok(true)
}

#[test]
fn the_tape_shows_the_frames_of_the_list(rt: HostRuntime) -> Result<(), Fail> {
    let alloc = rt.alloc();
    let bytes = changed(alloc, 0, None)?;
    for channel in [Channel::V, Channel::A, Channel::A2] {
        assert!(rt; shows_its_frames(alloc, bytes.as_slice(), channel)?);
    }
    Ok(())
}

#[test]
fn the_worked_list_has_its_faults(rt: HostRuntime) -> Result<(), Fail> {
    let alloc = rt.alloc();
    for (at, new, code, line, other) in FAULTS {
        let bytes = changed(alloc, at, new)?;
        let want = ListReadFault::Refused { code, line, other };
        assert_eq!(rt;
            fault_of(alloc, bytes.as_slice(), SequenceRate::F24),
            Some(want)
        );
    }
    Ok(())
}

// Whether the events of a list are the first of another's.
fn begins(list: &List, whole: &List) -> bool {
    let events = list.as_slice();
    let all = whole.as_slice();
    events.len() <= all.len() && events == &all[..events.len()]
}

// A list that ends early has the events of the lines that it has, or a fault.
fn ends_early(alloc: Global, bytes: &[u8], count: usize, whole: &List) -> bool {
    match reading(alloc, &bytes[..count.min(bytes.len())], SequenceRate::F24) {
        Ok(list) => begins(&list, whole),
        Err(fault) => fault != ListReadFault::Memory,
    }
}

#[test]
fn a_list_may_end_at_each_byte(rt: HostRuntime) -> Result<(), Fail> {
    let alloc = rt.alloc();
    let bytes = changed(alloc, 0, None)?;
    let whole = reading(alloc, bytes.as_slice(), SequenceRate::F24)?;
    for count in 0..=bytes.len() {
        assert!(rt; ends_early(alloc, bytes.as_slice(), count, &whole));
    }
    Ok(())
}
