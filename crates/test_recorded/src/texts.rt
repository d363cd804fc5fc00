// Lines and replies of what was recorded, and the points that replies name.
use recorded_sessions::{Memory, lines_of, point_named, replies_of};
use std::alloc::Global;

// A reply, and the point that it names.
const NAMED: [(&[u8], Option<u32>); 14] = [
    (b"ok 12 item 3", Some(12)),
    (b"no 7 E2", Some(7)),
    (b"point 0", Some(0)),
    (b"seen 5 @0 1 2", Some(5)),
    (b"news 3 9 0 1 slice 0 1", Some(9)),
    (b"news 3", None),
    (b"otio 4 {}", Some(4)),
    (b" \tok\t012 ", Some(12)),
    (b"ok 4294967296", None),
    (b"bad B1", None),
    (b"memory", None),
    (b"ok", None),
    (b"7 8", Some(8)),
    (b"", None),
];

#[test]
fn replies_name_their_points(rt: HostRuntime) {
    for (reply, point) in NAMED {
        assert_eq!(rt; point_named(reply), point, "{reply:?}");
    }
}

// The lines or replies of a text, each in brackets; `-` for a line that is too long.
fn bracketed(alloc: Global, parts: &[Option<&[u8]>]) -> Result<Vec<u8>, Memory> {
    let mut all = Vec::new(alloc);
    for part in parts {
        all.push(b'[')?;
        match part {
            Some(text) => all.extend_from_slice(text)?,
            None => all.push(b'-')?,
        }
        all.push(b']')?;
    }
    Ok(all)
}

fn lines_in(alloc: Global, text: &[u8]) -> Result<Vec<u8>, Memory> {
    bracketed(alloc, &lines_of(alloc, text)?)
}

fn replies_in(alloc: Global, text: &[u8]) -> Result<Vec<u8>, Memory> {
    let mut parts = Vec::new(alloc);
    for reply in replies_of(alloc, text)? {
        parts.push(Some(reply))?;
    }
    bracketed(alloc, &parts)
}

// A text, its lines, and its replies.
const TEXTS: [(&[u8], &[u8], &[u8]); 7] = [
    (b"", b"", b""),
    (b"\n", b"[]", b"[]"),
    (b"a\nb\n", b"[a][b]", b"[a][b]"),
    (b"a\nb", b"[a][b]", b"[a]"),
    (b"a\r\nb\r", b"[a][b\r]", b"[a\r]"),
    (b"\n\na", b"[][][a]", b"[][]"),
    (b"a", b"[a]", b""),
];

#[test]
fn texts_have_lines_and_replies(rt: HostRuntime) {
    let alloc = rt.alloc();
    for (text, lines, replies) in TEXTS {
        let found = lines_in(alloc, text);
        assert!(rt;
            found.is_ok_and(|found| found.as_slice() == lines),
            "{text:?}"
        );
        assert!(rt;
            replies_in(alloc, text).is_ok_and(|found| found.as_slice() == replies),
            "{text:?}"
        );
    }
}

// A text of so many bytes, and a line feed.
fn long_text(alloc: Global, length: usize) -> Result<Vec<u8>, Memory> {
    let mut text = Vec::new(alloc);
    for _ in 0..length {
        text.push(b'?')?;
    }
    text.push(b'\n')?;
    Ok(text)
}

fn is_too_long(alloc: Global, length: usize) -> Result<bool, Memory> {
    let text = long_text(alloc, length)?;
    let lines = lines_of(alloc, &text)?;
    Ok(lines.first() == Some(&None))
}

#[test]
fn a_line_has_at_most_1024_bytes(rt: HostRuntime) {
    let alloc = rt.alloc();
    assert_eq!(rt; is_too_long(alloc, 1_024), Ok(false));
    assert_eq!(rt; is_too_long(alloc, 1_025), Ok(true));
}
