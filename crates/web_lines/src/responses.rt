// What an answer is as bytes.
ghost use Rattle.std.specs.Prelude.{◌≡◌, ◌++◌, [], length, IfOk, OnOk};
ghost use Rattle.http1.specs.Head.{pairs, response_text};
ghost use Rattle.websocket.specs.Handshake.{response_bytes};
ghost use Rattle.web_lines.specs.Responses.{common_fields, page_bytes, page_head, plain_response, response_of};

use crate::answer::Answer;
use http1::Header;
use http1::head::write_response;
use itoa::Buffer;
use std::alloc::Global;
use std::io::{self, ErrorKind};
use websocket::handshake::server;

/// A page, as a browser gets it.
#[derive(Clone, Copy, Debug)]
pub struct Page<'a> {
    /// Its bytes in pieces, which are UTF-8: one text of HTML.
    pub pieces: &'a [&'a str],
    /// What the browser lets it do: a Content-Security-Policy.
    pub policy: &'a str,
}

/// An answer as the bytes of a response. It fails where there is no memory, and where the page's policy is none that
/// may stand in a field.
pub fn response(alloc: Global, answer: Answer, page: Page<'_>) -> io::Result<Vec<u8>>
    ensures { IfOk result (λ bytes. bytes.items ≡ response_of answer page.entry) }
{
    match answer {
        Answer::Page => {
            let mut out = page_head(alloc, page)?;
            add_page(&mut out, page.pieces)?;
            Ok(out)
        }
        Answer::PageHead => page_head(alloc, page),
        Answer::Health => plain(alloc, 200, b"OK", &[]),
        Answer::Station(key) => accepting(alloc, &key),
        Answer::Bad => plain(alloc, 400, b"Bad Request", &[]),
        Answer::Missing => plain(alloc, 404, b"Not Found", &[]),
        Answer::WrongMethod => plain(
            alloc,
            405,
            b"Method Not Allowed",
            &[Header {
                name: b"allow",
                value: b"GET, HEAD",
            }],
        ),
        Answer::NeedsUpgrade => plain(
            alloc,
            426,
            b"Upgrade Required",
            &[
                Header {
                    name: b"connection",
                    value: b"upgrade",
                },
                Header {
                    name: b"upgrade",
                    value: b"websocket",
                },
                Header {
                    name: b"sec-websocket-version",
                    value: b"13",
                },
            ],
        ),
        Answer::TooLong => plain(alloc, 431, b"Request Header Fields Too Large", &[]),
    }
}

// A response without a body.
fn plain(alloc: Global, status: u16, reason: &[u8], extra: &[Header<'_>]) -> io::Result<Vec<u8>>
    ensures { IfOk result (λ bytes. bytes.items
        ≡ plain_response status reason.now (pairs extra.now)) }
{
    let mut out = Vec::new(alloc);
    put_head(&mut out, status, reason, b"0", extra)?;
    Ok(out)
}

// The head of the response with the page.
fn page_head(alloc: Global, page: Page<'_>) -> io::Result<Vec<u8>>
    ensures { IfOk result (λ bytes. bytes.items ≡ page_head page.entry) }
{
    let mut buffer = Buffer::new();
    let length = buffer.format(page_len(page.pieces)?);
    let mut out = Vec::new(alloc);
    put_head(
        &mut out,
        200,
        b"OK",
        length.as_bytes(),
        &[
            Header {
                name: b"content-type",
                value: b"text/html; charset=utf-8",
            },
            Header {
                name: b"content-security-policy",
                value: page.policy.as_bytes(),
            },
            Header {
                name: b"referrer-policy",
                value: b"no-referrer",
            },
        ],
    )?;
    Ok(out)
}

// How many bytes a page has.
fn page_len(pieces: &[&str]) -> io::Result<usize>
    ensures { IfOk result (λ n. n ≡ length (page_bytes pieces.now)) }
{
    let mut len: usize = 0;
    for piece in pieces {
        match len.checked_add(piece.len()) {
            Some(more) => len = more,
            None => return Err(io::Error::from(ErrorKind::OutOfMemory)),
        }
    }
    Ok(len)
}

// Adds the bytes of a page.
fn add_page(out: &mut Vec<u8>, pieces: &[&str]) -> io::Result<()>
    ensures { OnOk result (out.new.items ≡ out.old.items ++ page_bytes pieces.now) }
{
    for piece in pieces {
        out.extend_from_slice(piece.as_bytes())?;
    }
    Ok(())
}

// Adds a head of HTTP/1.1: the fields that each response has, and these.
fn put_head(
    out: &mut Vec<u8>,
    status: u16,
    reason: &[u8],
    length: &[u8],
    extra: &[Header<'_>],
) -> io::Result<()>
    ensures { OnOk result (out.new.items ≡ out.old.items
        ++ response_text 1 status reason.now (common_fields length.now ++ pairs extra.now)) }
{
    let common = [
        Header {
            name: b"cache-control",
            value: b"no-store",
        },
        Header {
            name: b"connection",
            value: b"close",
        },
        Header {
            name: b"x-content-type-options",
            value: b"nosniff",
        },
        Header {
            name: b"content-length",
            value: length,
        },
    ];
    match write_response(out, 1, status, reason, &common, extra) {
        Ok(()) => Ok(()),
        Err(_) => Err(io::Error::from(ErrorKind::InvalidInput)),
    }
}

// What accepts a WebSocket.
fn accepting(alloc: Global, key: &[u8; 28]) -> io::Result<Vec<u8>>
    ensures { IfOk result (λ bytes. bytes.items ≡ response_bytes key.now []) }
{
    let mut out = Vec::new(alloc);
    match server::write_response(key, &[], &mut out) {
        Ok(()) => Ok(out),
        Err(_) => Err(io::Error::from(ErrorKind::OutOfMemory)),
    }
}
