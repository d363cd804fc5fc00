// A WebSocket as lines: what is read of frames that come, and what is sent.
use std::alloc::Global;
use std::io::{self, ErrorKind, Read, Write};
use std::test::Fail;
use web_lines::WebStream;

// A connection over memory. It gives so many bytes a read, and where it blocks nothing at each other read.
#[derive(Drop)]
struct Connection {
    came: Vec<u8>,
    at: usize,
    step: usize,
    blocks: bool,
    has_blocked: bool,
    sent: Vec<u8>,
}

impl Read for Connection {
    fn read(&mut self, into: &mut [u8]) -> io::Result<usize> {
        if self.blocks && !self.has_blocked {
            self.has_blocked = true;
            return Err(io::Error::from(ErrorKind::WouldBlock));
        }
        self.has_blocked = false;
        let rest = self.came.get(self.at..).unwrap_or(&[]);
        let n = rest.len().min(into.len()).min(self.step);
        into[..n].copy_from_slice(&rest[..n]);
        self.at = self.at.saturating_add(n);
        Ok(n)
    }
}

impl Write for Connection {
    fn write(&mut self, piece: &[u8]) -> io::Result<usize> {
        self.sent.extend_from_slice(piece)?;
        Ok(piece.len())
    }

    fn flush(&mut self) -> io::Result<()> {
        Ok(())
    }
}

// A WebSocket over which these bytes come, of which some came with the head.
fn opened(
    alloc: Global,
    ahead: &[u8],
    came: &[u8],
    step: usize,
    blocks: bool,
) -> io::Result<WebStream<Connection>> {
    let connection = Connection {
        came: Vec::from_slice(alloc, came)?,
        at: 0,
        step,
        blocks,
        has_blocked: false,
        sent: Vec::new(alloc),
    };
    Ok(WebStream::new(alloc, connection, Vec::from_slice(alloc, ahead)?))
}

// How the lines of a WebSocket end.
#[derive(Clone, Copy, Debug, PartialEq, Eq)]
enum End {
    // It was closed.
    Closed,
    // It broke the protocol, or something came that is no line.
    Refused,
    // The connection has ended.
    Gone,
    // It has not ended yet.
    Open,
}

// Reads so often at most, into a buffer of so many bytes, and keeps what was read.
fn read_all(
    web: &mut WebStream<Connection>,
    room: usize,
    reads: u32,
    read: &mut Vec<u8>,
) -> io::Result<End> {
    let mut piece = [0u8; 64];
    let room = room.min(64);
    for _ in 0..reads {
        match web.read(&mut piece[..room]) {
            Ok(n) if n > 0 => read.extend_from_slice(&piece[..n.min(64)])?,
            Ok(_) => return Ok(End::Closed),
            Err(error) => match error.kind() {
                ErrorKind::WouldBlock | ErrorKind::Interrupted => {}
                ErrorKind::InvalidData => return Ok(End::Refused),
                ErrorKind::BrokenPipe => return Ok(End::Gone),
                _ => return Err(error),
            },
        }
    }
    Ok(End::Open)
}

// Frames that come, the lines that are read, how they end, and what is sent.
const FRAMES: [(&[u8], &[u8], End, &[u8]); 23] = [
    (b"", b"", End::Gone, b""),
    (b"\x81\x82\0\0\0\0hi", b"hi\n", End::Gone, b""),
    (
        b"\x81\x82\x01\x02\x03\x04ik\x81\x80\x09\x09\x09\x09",
        b"hi\n\n",
        End::Gone,
        b"",
    ),
    (
        b"\x81\x82\0\0\0\0hi\x81\x83\0\0\0\0a b",
        b"hi\na b\n",
        End::Gone,
        b"",
    ),
    // in fragments, with a ping between
    (
        b"\x01\x81\0\0\0\0h\x80\x81\0\0\0\0i",
        b"hi\n",
        End::Gone,
        b"",
    ),
    (
        b"\x01\x81\0\0\0\0h\x89\x81\0\0\0\0p\x00\x80\0\0\0\0\x80\x81\0\0\0\0i",
        b"hi\n",
        End::Gone,
        b"\x8a\x01p",
    ),
    (b"\x8a\x80\0\0\0\0\x81\x81\0\0\0\0a", b"a\n", End::Gone, b""),
    // closed by the peer, with a code and without
    (
        b"\x81\x81\0\0\0\0a\x88\x82\0\0\0\0\x03\xe8",
        b"a\n",
        End::Closed,
        b"\x88\x02\x03\xe8",
    ),
    (
        b"\x88\x80\0\0\0\0\x81\x81\0\0\0\0a",
        b"",
        End::Closed,
        b"\x88\x00",
    ),
    // what is no line: binary, no UTF-8, with a line feed
    (b"\x82\x81\0\0\0\0a", b"", End::Refused, b"\x88\x02\x03\xeb"),
    (
        b"\x81\x82\0\0\0\0\xc3\x28",
        b"",
        End::Refused,
        b"\x88\x02\x03\xef",
    ),
    (
        b"\x81\x81\0\0\0\0\xff",
        b"",
        End::Refused,
        b"\x88\x02\x03\xef",
    ),
    (
        b"\x81\x83\0\0\0\0a\nb",
        b"",
        End::Refused,
        b"\x88\x02\x03\xf0",
    ),
    (
        b"\x81\x81\0\0\0\0a\x81\x81\0\0\0\0\n",
        b"a\n",
        End::Refused,
        b"\x88\x02\x03\xf0",
    ),
    // what breaks the protocol: no mask, a bit that is kept free, an opcode that is none, a fragment of nothing, a text
    // within another one, a ping in fragments
    (b"\x81\x02hi", b"", End::Refused, b"\x88\x02\x03\xea"),
    (
        b"\xc1\x82\0\0\0\0hi",
        b"",
        End::Refused,
        b"\x88\x02\x03\xea",
    ),
    (b"\x83\x80\0\0\0\0", b"", End::Refused, b"\x88\x02\x03\xea"),
    (b"\x80\x81\0\0\0\0a", b"", End::Refused, b"\x88\x02\x03\xea"),
    (
        b"\x01\x81\0\0\0\0a\x81\x81\0\0\0\0b",
        b"",
        End::Refused,
        b"\x88\x02\x03\xea",
    ),
    (b"\x09\x80\0\0\0\0", b"", End::Refused, b"\x88\x02\x03\xea"),
    // a frame of 2^63 bytes, which no frame has; one of 2^62; two bytes of length where one says it
    (
        b"\x81\xff\x80\0\0\0\0\0\0\0\0\0\0\0",
        b"",
        End::Refused,
        b"\x88\x02\x03\xea",
    ),
    (
        b"\x81\xff\x40\0\0\0\0\0\0\0\0\0\0\0",
        b"",
        End::Refused,
        b"\x88\x02\x03\xf1",
    ),
    (
        b"\x81\xfe\0\x01\0\0\0\0a",
        b"",
        End::Refused,
        b"\x88\x02\x03\xea",
    ),
];

// Bytes at a time, whether each other read blocks, and the room for what is read.
const WAYS: [(usize, bool, usize); 4] = [
    (4_096, false, 64),
    (1, false, 1),
    (1, true, 64),
    (3, true, 2),
];

#[test]
fn frames_are_read_as_lines(rt: HostRuntime) -> Result<(), Fail> {
    for (frames, wanted, end, sent) in FRAMES {
        for (step, blocks, room) in WAYS {
            let mut web = opened(rt.alloc(), b"", frames, step, blocks)?;
            let mut read = Vec::new(rt.alloc());
            let ended = read_all(&mut web, room, 200, &mut read)?;
            assert_eq!(rt; ended, end, "{frames:?} {step}");
            assert_eq!(rt; read.as_slice(), wanted, "{frames:?} {step}");
            assert_eq!(rt; web.get_ref().sent.as_slice(), sent, "{frames:?} {step}");
        }
    }
    Ok(())
}

// What came with the head comes first, wherever that ended.
#[test]
fn what_came_with_the_head_is_read_first(rt: HostRuntime) -> Result<(), Fail> {
    let frames = b"\x81\x82\0\0\0\0hi\x81\x83\0\0\0\0a b".as_slice();
    for count in 0..=frames.len() {
        let (ahead, came) = frames.split_at(count);
        let mut web = opened(rt.alloc(), ahead, came, 5, false)?;
        let mut read = Vec::new(rt.alloc());
        let ended = read_all(&mut web, 64, 200, &mut read)?;
        assert_eq!(rt; ended, End::Gone, "{count}");
        assert_eq!(rt; read.as_slice(), b"hi\na b\n".as_slice(), "{count}");
    }
    Ok(())
}

// A frame with this first byte, of so many bytes `a`.
fn put_frame(first: u8, len: u32, to: &mut Vec<u8>) -> io::Result<()> {
    match u16::try_from(len) {
        Ok(short) => {
            to.extend_from_slice(&[first, 0xfe])?;
            to.extend_from_slice(&short.to_be_bytes())?;
        }
        Err(_) => {
            to.extend_from_slice(&[first, 0xff, 0, 0, 0, 0])?;
            to.extend_from_slice(&len.to_be_bytes())?;
        }
    }
    to.extend_from_slice(&[0, 0, 0, 0])?;
    for _ in 0..len {
        to.push(b'a')?;
    }
    Ok(())
}

#[test]
fn messages_have_a_limit(rt: HostRuntime) -> Result<(), Fail> {
    // frames by their first byte and their length, how much is read, how it ends, and what is sent
    let cases: [(&[(u8, u32)], usize, End, &[u8]); 6] = [
        (&[(0x81, 65_536)], 65_537, End::Gone, b""),
        (&[(0x81, 65_537)], 0, End::Refused, b"\x88\x02\x03\xf1"),
        (&[(0x01, 40_000), (0x80, 25_536)], 65_537, End::Gone, b""),
        (
            &[(0x01, 40_000), (0x80, 25_537)],
            0,
            End::Refused,
            b"\x88\x02\x03\xf1",
        ),
        (&[(0x89, 126)], 0, End::Refused, b"\x88\x02\x03\xea"),
        (&[(0x88, 126)], 0, End::Refused, b"\x88\x02\x03\xea"),
    ];
    for (frames, len, end, sent) in cases {
        let mut came = Vec::new(rt.alloc());
        for (first, len) in frames {
            put_frame(*first, *len, &mut came)?;
        }
        let mut web = opened(rt.alloc(), b"", &came, 4_096, false)?;
        let mut read = Vec::new(rt.alloc());
        let ended = read_all(&mut web, 64, 2_000, &mut read)?;
        assert_eq!(rt; ended, end, "{frames:?}");
        assert_eq!(rt; read.len(), len, "{frames:?}");
        assert_eq!(rt; web.get_ref().sent.as_slice(), sent, "{frames:?}");
    }
    Ok(())
}

// Who sends pings alone interrupts a read from time to time.
#[test]
fn pings_alone_interrupt_a_read(rt: HostRuntime) -> Result<(), Fail> {
    let mut frames = Vec::new(rt.alloc());
    for _ in 0..40u32 {
        frames.extend_from_slice(b"\x89\x80\0\0\0\0")?;
    }
    let mut web = opened(rt.alloc(), b"", &frames, 4_096, false)?;
    let mut piece = [0u8; 8];
    for _ in 0..2u32 {
        match web.read(&mut piece) {
            Ok(_) => assert!(rt; false),
            Err(error) => assert_eq!(rt; error.kind(), ErrorKind::Interrupted),
        }
    }
    match web.read(&mut piece) {
        Ok(_) => assert!(rt; false),
        Err(error) => assert_eq!(rt; error.kind(), ErrorKind::BrokenPipe),
    }
    Ok(())
}

// Pieces that are written, and what is sent.
const PIECES: [(&[&[u8]], &[u8]); 7] = [
    (&[b""], b""),
    (&[b"ab"], b""),
    (&[b"\n"], b"\x81\x00"),
    (&[b"ab\n"], b"\x81\x02ab"),
    (&[b"a", b"b", b"\n"], b"\x81\x02ab"),
    (&[b"ab\ncd", b"e\n", b"f"], b"\x81\x02ab\x81\x03cde"),
    (&[b"caf\xc3", b"\xa9\n\n"], b"\x81\x05caf\xc3\xa9\x81\x00"),
];

// Writes these pieces one after another.
fn write_each(web: &mut WebStream<Connection>, pieces: &[&[u8]]) -> io::Result<()> {
    for piece in pieces {
        web.write_all(piece)?;
    }
    Ok(())
}

#[test]
fn lines_are_sent_as_texts(rt: HostRuntime) -> Result<(), Fail> {
    for (pieces, wanted) in PIECES {
        let mut web = opened(rt.alloc(), b"", b"", 1, false)?;
        write_each(&mut web, pieces)?;
        assert_eq!(rt; web.get_ref().sent.as_slice(), wanted);
    }
    Ok(())
}

// A line that is no text is not sent, and nothing after it.
#[test]
fn bytes_that_are_no_text_are_not_sent(rt: HostRuntime) -> Result<(), Fail> {
    let mut web = opened(rt.alloc(), b"", b"\x81\x81\0\0\0\0a", 1, false)?;
    assert!(rt; web.write_all(b"a\n\xff\nb\n").is_err());
    assert!(rt; web.write_all(b"c\n").is_err());
    let mut piece = [0u8; 8];
    assert!(rt; web.read(&mut piece).is_err());
    assert_eq!(rt; web.get_ref().sent.as_slice(), b"\x81\x01a".as_slice());
    Ok(())
}

#[test]
fn nothing_is_sent_after_a_close(rt: HostRuntime) -> Result<(), Fail> {
    let mut web = opened(rt.alloc(), b"", b"\x81\x81\0\0\0\0a", 1, false)?;
    web.write_all(b"a\n")?;
    web.close();
    assert!(rt; web.write_all(b"b\n").is_err());
    assert_eq!(rt;
        web.get_ref().sent.as_slice(),
        b"\x81\x01a\x88\x02\x03\xe8".as_slice()
    );
    assert!(rt; !web.into_inner().sent.is_empty());
    Ok(())
}
