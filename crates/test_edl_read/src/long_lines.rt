// Lines of 1,024 bytes and of one more, with what stands before their line feeds.
use crate::sample::fault_of;
use edl_read::{LineCode, ListReadFault, Memory};
use std::alloc::Global;
use std::test::Fail;
use timecode12::SequenceRate;

const EVENT: &str = "1 R V C 00:00:00:00 00:00:00:01 00:00:00:00 00:00:00:01";

// A line, with spaces after it up to a length, how the list ends, and the code of its fault, if it has one.
const LINES: [(&str, usize, &str, Option<LineCode>); 13] = [
    (EVENT, 1024, "", None),
    (EVENT, 1025, "", Some(LineCode::P1)),
    (EVENT, 1024, "\n", None),
    (EVENT, 1025, "\n", Some(LineCode::P1)),
    (EVENT, 1023, "\r\n", None),
    (EVENT, 1024, "\r\n", Some(LineCode::P1)),
    ("FCM: NON-DROP FRAME", 1024, "\n", None),
    ("FCM: NON-DROP FRAME", 1025, "\n", Some(LineCode::P1)),
    ("FCM: DROP FRAME", 1025, "\n", Some(LineCode::P12)),
    ("1 R V W", 1025, "\n", Some(LineCode::P5)),
    ("1 R X C", 1025, "\n", Some(LineCode::P1)),
    ("* a note", 5000, "\r\n", None),
    ("", 5000, "\n", None),
];

// A line with spaces after it up to a length, and the end of the list.
fn padded(alloc: Global, line: &str, len: usize, end: &str) -> Result<Vec<u8>, Memory> {
    let mut text = Vec::from_slice(alloc, line.as_bytes())?;
    for _ in line.len()..len {
        text.push(b' ')?;
    }
    text.extend_from_slice(end.as_bytes())?;
    Ok(text)
}

#[test]
fn a_line_has_1024_bytes_at_most(rt: HostRuntime) -> Result<(), Fail> {
    let alloc = rt.alloc();
    for (line, len, end, code) in LINES {
        let text = padded(alloc, line, len, end)?;
        let fault = fault_of(alloc, text.as_slice(), SequenceRate::F24);
        match code {
            None => assert_eq!(rt; fault, None),
            Some(code) => {
                let want = ListReadFault::Refused {
                    code,
                    line: 1,
                    other: 0,
                };
                assert_eq!(rt; fault, Some(want));
            }
        }
    }
    Ok(())
}
