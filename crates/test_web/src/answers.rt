// What answers are as bytes, and how they go out.
use std::alloc::Global;
use std::io::{self, ErrorKind, Write};
use std::test::Fail;
use web_lines::{Answer, Outgoing, Page, response};

const PAGE: Page<'static> = Page {
    pieces: &["<p>", "", "caf\u{e9}</p>\n"],
    policy: "default-src 'none'",
};

const ANSWERS: [(Answer, &str); 9] = [
    (
        Answer::Page,
        "HTTP/1.1 200 OK\r\ncache-control: no-store\r\nconnection: close\r\nx-content-type-options: nosniff\r\ncontent-length: 13\r\ncontent-type: text/html; charset=utf-8\r\ncontent-security-policy: default-src 'none'\r\nreferrer-policy: no-referrer\r\n\r\n<p>caf\u{e9}</p>\n",
    ),
    (
        Answer::PageHead,
        "HTTP/1.1 200 OK\r\ncache-control: no-store\r\nconnection: close\r\nx-content-type-options: nosniff\r\ncontent-length: 13\r\ncontent-type: text/html; charset=utf-8\r\ncontent-security-policy: default-src 'none'\r\nreferrer-policy: no-referrer\r\n\r\n",
    ),
    (
        Answer::Health,
        "HTTP/1.1 200 OK\r\ncache-control: no-store\r\nconnection: close\r\nx-content-type-options: nosniff\r\ncontent-length: 0\r\n\r\n",
    ),
    (
        Answer::Station(*b"s3pPLMBiTxaQ9kYGzzhZRbK+xOo="),
        "HTTP/1.1 101 Switching Protocols\r\nconnection: Upgrade\r\nupgrade: websocket\r\nsec-websocket-accept: s3pPLMBiTxaQ9kYGzzhZRbK+xOo=\r\n\r\n",
    ),
    (
        Answer::Bad,
        "HTTP/1.1 400 Bad Request\r\ncache-control: no-store\r\nconnection: close\r\nx-content-type-options: nosniff\r\ncontent-length: 0\r\n\r\n",
    ),
    (
        Answer::Missing,
        "HTTP/1.1 404 Not Found\r\ncache-control: no-store\r\nconnection: close\r\nx-content-type-options: nosniff\r\ncontent-length: 0\r\n\r\n",
    ),
    (
        Answer::WrongMethod,
        "HTTP/1.1 405 Method Not Allowed\r\ncache-control: no-store\r\nconnection: close\r\nx-content-type-options: nosniff\r\ncontent-length: 0\r\nallow: GET, HEAD\r\n\r\n",
    ),
    (
        Answer::NeedsUpgrade,
        "HTTP/1.1 426 Upgrade Required\r\ncache-control: no-store\r\nconnection: close\r\nx-content-type-options: nosniff\r\ncontent-length: 0\r\nconnection: upgrade\r\nupgrade: websocket\r\nsec-websocket-version: 13\r\n\r\n",
    ),
    (
        Answer::TooLong,
        "HTTP/1.1 431 Request Header Fields Too Large\r\ncache-control: no-store\r\nconnection: close\r\nx-content-type-options: nosniff\r\ncontent-length: 0\r\n\r\n",
    ),
];

#[test]
fn answers_are_written_so(rt: HostRuntime) -> Result<(), Fail> {
    for (answer, text) in ANSWERS {
        let bytes = response(rt.alloc(), answer, PAGE)?;
        assert_eq!(rt; bytes.as_slice(), text.as_bytes(), "{answer:?}");
    }
    Ok(())
}

#[test]
fn a_policy_that_is_no_field_is_refused(rt: HostRuntime) {
    let page = Page {
        pieces: &[],
        policy: "default-src 'none'\r\nset-cookie: a",
    };
    assert!(rt; response(rt.alloc(), Answer::Page, page).is_err());
    assert!(rt; response(rt.alloc(), Answer::Health, page).is_ok());
}

// A stream that takes so many bytes at a time, and none at each third write.
#[derive(Drop)]
struct Slow {
    taken: Vec<u8>,
    most: usize,
    writes: u32,
}

impl Write for Slow {
    fn write(&mut self, piece: &[u8]) -> io::Result<usize> {
        self.writes = self.writes.saturating_add(1);
        if self.writes % 3 == 0 {
            return Err(io::Error::from(ErrorKind::WouldBlock));
        }
        let (front, _) = piece.split_at(piece.len().min(self.most));
        self.taken.extend_from_slice(front)?;
        Ok(front.len())
    }

    fn flush(&mut self) -> io::Result<()> {
        Ok(())
    }
}

// What a stream took that takes so many bytes at a time, after so many writes, and whether that was all.
fn went_out(alloc: Global, text: &[u8], most: usize, writes: u32) -> io::Result<(Vec<u8>, bool)> {
    let mut outgoing = Outgoing::new(Vec::from_slice(alloc, text)?);
    let mut stream = Slow {
        taken: Vec::new(alloc),
        most,
        writes: 0,
    };
    for _ in 0..writes {
        match outgoing.go_on(&mut stream) {
            Ok(()) => {}
            Err(error) => {
                if error.kind() != ErrorKind::WouldBlock {
                    return Err(error);
                }
            }
        }
    }
    let is_out = outgoing.is_out();
    let Slow {
        taken,
        most: _,
        writes: _,
    } = stream;
    Ok((taken, is_out))
}

#[test]
fn answers_go_out_piece_by_piece(rt: HostRuntime) -> Result<(), Fail> {
    // at a time, writes, what went out, whether that was all
    let cases: [(usize, u32, &[u8], bool); 6] = [
        (100, 0, b"", false),
        (100, 1, b"abcdefgh", true),
        (100, 9, b"abcdefgh", true),
        (3, 2, b"abcdef", false),
        (3, 3, b"abcdef", false),
        (3, 4, b"abcdefgh", true),
    ];
    for (most, writes, wanted, all) in cases {
        let (taken, is_out) = went_out(rt.alloc(), b"abcdefgh", most, writes)?;
        assert_eq!(rt; taken.as_slice(), wanted, "{most} {writes}");
        assert_eq!(rt; is_out, all, "{most} {writes}");
    }
    Ok(())
}
