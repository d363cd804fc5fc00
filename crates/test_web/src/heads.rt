// What first bytes talk, and what heads are answered.
use std::alloc::{AllocError, Global};
use web_lines::{Answer, MOST_HEAD, Talk, after_head, hear, talk_of};

const TALKS: [(&[u8], Option<Talk>); 18] = [
    (b"", None),
    (b"G", None),
    (b"GET", None),
    (b"GET ", Some(Talk::Http)),
    (b"GET / HTTP/1.1\r\n", Some(Talk::Http)),
    (b"M-SEARCH *", Some(Talk::Http)),
    (b"GET\t/", Some(Talk::Plain)),
    (b"GET/ ", Some(Talk::Plain)),
    (b" GET /", Some(Talk::Plain)),
    (b"\r\nGET /", Some(Talk::Plain)),
    (b"get /", Some(Talk::Plain)),
    (b"sit anna", Some(Talk::Plain)),
    (b"ping\n", Some(Talk::Plain)),
    (b"PING\n", Some(Talk::Plain)),
    (b"\x16\x03\x01", Some(Talk::Plain)),
    (b"ABCDEFGHIJKLMNOPQRST", None),
    (b"ABCDEFGHIJKLMNOPQRST ", Some(Talk::Http)),
    (b"ABCDEFGHIJKLMNOPQRSTU", Some(Talk::Plain)),
];

#[test]
fn first_bytes_tell_what_is_talked(rt: HostRuntime) {
    for (front, talk) in TALKS {
        assert_eq!(rt; talk_of(front), talk, "{front:?}");
    }
}

const ACCEPTED: Option<Answer> = Some(Answer::Station(*b"s3pPLMBiTxaQ9kYGzzhZRbK+xOo="));

// A head, and what it is answered.
const HEADS: [(&[u8], Option<Answer>); 46] = [
    // what is there
    (b"GET / HTTP/1.1\r\nHost: a\r\n\r\n", Some(Answer::Page)),
    (
        b"GET / HTTP/1.1\r\nhOST:a:80\r\nAccept: */*\r\n\r\n",
        Some(Answer::Page),
    ),
    (b"GET / HTTP/1.0\r\n\r\n", Some(Answer::Page)),
    (b"GET / HTTP/1.0\r\nHost: a\r\n\r\n", Some(Answer::Page)),
    (b"GET / HTTP/1.1\nHost: a\n\n", Some(Answer::Page)),
    (
        b"HEAD / HTTP/1.1\r\nHost: a\r\n\r\n",
        Some(Answer::PageHead),
    ),
    (
        b"GET /health HTTP/1.1\r\nHost: a\r\n\r\n",
        Some(Answer::Health),
    ),
    (
        b"HEAD /health HTTP/1.1\r\nHost: a\r\n\r\n",
        Some(Answer::Health),
    ),
    // what is not
    (
        b"GET /nothing HTTP/1.1\r\nHost: a\r\n\r\n",
        Some(Answer::Missing),
    ),
    (
        b"GET /?key=key-of-anna HTTP/1.1\r\nHost: a\r\n\r\n",
        Some(Answer::Missing),
    ),
    (
        b"GET /station?key=k HTTP/1.1\r\nHost: a\r\n\r\n",
        Some(Answer::Missing),
    ),
    (
        b"GET /../health HTTP/1.1\r\nHost: a\r\n\r\n",
        Some(Answer::Missing),
    ),
    (
        b"GET /Health HTTP/1.1\r\nHost: a\r\n\r\n",
        Some(Answer::Missing),
    ),
    (
        b"OPTIONS * HTTP/1.1\r\nHost: a\r\n\r\n",
        Some(Answer::Missing),
    ),
    (
        b"POST / HTTP/1.1\r\nHost: a\r\n\r\n",
        Some(Answer::WrongMethod),
    ),
    (
        b"DELETE /station HTTP/1.1\r\nHost: a\r\n\r\n",
        Some(Answer::WrongMethod),
    ),
    (
        b"get / HTTP/1.1\r\nHost: a\r\n\r\n",
        Some(Answer::WrongMethod),
    ),
    // heads that are none
    (b"GET /\r\n\r\n", Some(Answer::Bad)),
    (b"GET / HTTP/2.0\r\nHost: a\r\n\r\n", Some(Answer::Bad)),
    (b"GET / HTTP/1.1\r\nHost : a\r\n\r\n", Some(Answer::Bad)),
    (
        b"GET / HTTP/1.1\r\nHost: a\r\n: b\r\n\r\n",
        Some(Answer::Bad),
    ),
    (
        b"GET / HTTP/1.1\r\nHost: a\r\nA: \x01\r\n\r\n",
        Some(Answer::Bad),
    ),
    (b"GET \x00 HTTP/1.1\r\nHost: a\r\n\r\n", Some(Answer::Bad)),
    // hosts
    (b"GET / HTTP/1.1\r\n\r\n", Some(Answer::Bad)),
    (
        b"GET / HTTP/1.1\r\nHost: a\r\nHost: a\r\n\r\n",
        Some(Answer::Bad),
    ),
    (
        b"GET / HTTP/1.0\r\nHost: a\r\nHost: b\r\n\r\n",
        Some(Answer::Bad),
    ),
    // bodies
    (
        b"GET / HTTP/1.1\r\nHost: a\r\nContent-Length: 0\r\n\r\n",
        Some(Answer::Page),
    ),
    (
        b"GET / HTTP/1.1\r\nHost: a\r\nContent-Length: 5\r\n\r\nhello",
        Some(Answer::Bad),
    ),
    (
        b"GET / HTTP/1.1\r\nHost: a\r\nContent-Length: -1\r\n\r\n",
        Some(Answer::Bad),
    ),
    (
        b"GET / HTTP/1.1\r\nHost: a\r\nContent-Length: 0\r\nContent-Length: 0\r\n\r\n",
        Some(Answer::Bad),
    ),
    (
        b"GET / HTTP/1.1\r\nHost: a\r\nContent-Length: 0\r\nContent-Length: 9\r\n\r\n",
        Some(Answer::Bad),
    ),
    (
        b"GET / HTTP/1.1\r\nHost: a\r\nTransfer-Encoding: chunked\r\n\r\n0\r\n\r\n",
        Some(Answer::Bad),
    ),
    (
        b"GET / HTTP/1.1\r\nHost: a\r\nTransfer-Encoding: gzip\r\n\r\n",
        Some(Answer::Bad),
    ),
    (
        b"GET / HTTP/1.1\r\nHost: a\r\nContent-Length: 0\r\nTransfer-Encoding: chunked\r\n\r\n",
        Some(Answer::Bad),
    ),
    // WebSockets
    (
        b"GET /station HTTP/1.1\r\nHost: a\r\nUpgrade: websocket\r\nConnection: Upgrade\r\nSec-WebSocket-Key: dGhlIHNhbXBsZSBub25jZQ==\r\nSec-WebSocket-Version: 13\r\n\r\n",
        ACCEPTED,
    ),
    (
        b"GET /station HTTP/1.1\r\nHost: a\r\nupgrade: WebSocket\r\nconnection: keep-alive, upgrade\r\nsec-websocket-key: dGhlIHNhbXBsZSBub25jZQ==\r\nsec-websocket-version: 13\r\n\r\n",
        ACCEPTED,
    ),
    (
        b"GET /station HTTP/1.1\r\nHost: a\r\n\r\n",
        Some(Answer::NeedsUpgrade),
    ),
    (
        b"HEAD /station HTTP/1.1\r\nHost: a\r\n\r\n",
        Some(Answer::NeedsUpgrade),
    ),
    (
        b"GET /station HTTP/1.1\r\nHost: a\r\nUpgrade: h2c\r\nConnection: Upgrade\r\nSec-WebSocket-Key: dGhlIHNhbXBsZSBub25jZQ==\r\nSec-WebSocket-Version: 13\r\n\r\n",
        Some(Answer::NeedsUpgrade),
    ),
    (
        b"GET /station HTTP/1.1\r\nHost: a\r\nUpgrade: websocket\r\nConnection: Upgrade\r\nSec-WebSocket-Key: dGhlIHNhbXBsZSBub25jZQ==\r\nSec-WebSocket-Version: 8\r\n\r\n",
        Some(Answer::NeedsUpgrade),
    ),
    (
        b"GET /station HTTP/1.0\r\nHost: a\r\nUpgrade: websocket\r\nConnection: Upgrade\r\nSec-WebSocket-Key: dGhlIHNhbXBsZSBub25jZQ==\r\nSec-WebSocket-Version: 13\r\n\r\n",
        Some(Answer::NeedsUpgrade),
    ),
    (
        b"GET /station HTTP/1.1\r\nHost: a\r\nUpgrade: websocket\r\nConnection: Upgrade\r\nSec-WebSocket-Version: 13\r\n\r\n",
        Some(Answer::Bad),
    ),
    (
        b"POST /station HTTP/1.1\r\nHost: a\r\nUpgrade: websocket\r\nConnection: Upgrade\r\nSec-WebSocket-Key: dGhlIHNhbXBsZSBub25jZQ==\r\nSec-WebSocket-Version: 13\r\n\r\n",
        Some(Answer::WrongMethod),
    ),
    // what has not ended
    (b"GET / HTTP/1.1\r\nHost: a\r\n", None),
    (b"GET / HT", None),
    (b"", None),
];

// What the front of these bytes is answered, and how many of them its head has.
fn answer_to(bytes: &[u8]) -> Option<(Answer, usize)> {
    let (front, _) = bytes.split_at(bytes.len().min(MOST_HEAD));
    match hear(front) {
        Some(heard) => Some((heard.answer, heard.len)),
        None => None,
    }
}

#[test]
fn heads_get_their_answers(rt: HostRuntime) {
    for (bytes, wanted) in HEADS {
        let told = match answer_to(bytes) {
            Some((answer, _)) => Some(answer),
            None => None,
        };
        assert_eq!(rt; told, wanted, "{bytes:?}");
    }
}

// A head gets its answer once its last byte has come, and none before.
#[test]
fn a_head_is_answered_at_its_end(rt: HostRuntime) {
    let bytes = b"GET /health HTTP/1.1\r\nHost: a\r\n\r\nGET / HTTP/1.1\r\n".as_slice();
    for count in 0..bytes.len() {
        let (front, _) = bytes.split_at(count);
        let wanted = if count < 33 {
            None
        } else {
            Some((Answer::Health, 33))
        };
        assert_eq!(rt; answer_to(front), wanted, "{count}");
    }
}

#[test]
fn what_came_after_a_head_is_kept(rt: HostRuntime) -> Result<(), AllocError> {
    let bytes = Vec::from_slice(rt.alloc(), b"abcdef")?;
    assert_eq!(rt; after_head(bytes, 4).as_slice(), b"ef".as_slice());
    Ok(())
}

// A head with so many fields more than its host, and then a field that fills it up to so many bytes.
fn long_head(alloc: Global, fields: u32, len: usize) -> Result<Vec<u8>, AllocError> {
    let mut bytes = Vec::from_slice(alloc, b"GET / HTTP/1.1\r\nHost: a\r\n")?;
    for _ in 0..fields {
        bytes.extend_from_slice(b"X: y\r\n")?;
    }
    bytes.extend_from_slice(b"Z: ")?;
    for _ in bytes.len()..len.saturating_sub(4) {
        bytes.push(b'a')?;
    }
    bytes.extend_from_slice(b"\r\n\r\n")?;
    Ok(bytes)
}

#[test]
fn long_heads_are_refused(rt: HostRuntime) -> Result<(), AllocError> {
    // fields, bytes, the answer
    let cases: [(u32, usize, Answer); 7] = [
        (62, 0, Answer::Page),
        (63, 0, Answer::TooLong),
        (10_000, 0, Answer::TooLong),
        (0, 8_191, Answer::Page),
        (0, 8_192, Answer::Page),
        (0, 8_193, Answer::TooLong),
        (0, 100_000, Answer::TooLong),
    ];
    for (fields, len, wanted) in cases {
        let bytes = long_head(rt.alloc(), fields, len)?;
        let told = match answer_to(&bytes) {
            Some((answer, _)) => Some(answer),
            None => None,
        };
        assert_eq!(rt; told, Some(wanted), "{fields} {len}");
    }
    Ok(())
}
