// The messages of a WebSocket that are lines.
ghost use Rattle.std.specs.Prelude.{◌≡◌, ◌<◌, IfNone, IfOk, IfSome, OnOk, length, position};
ghost use Rattle.web_lines.specs.Lines.{IsOneLine, ReadsText, SendsLine, SkipsToEnd, TellsKind, as_line, is_line_feed};

use bytes::{ByteStr, Bytes};
use std::alloc::Global;
use std::io::{self, ErrorKind, Read, Write};
use tungstenite::error::Error;
use tungstenite::{Message, NoMask, WebSocket};

/// The most messages that are no lines which a read takes one after another.
pub const MOST_QUIET: u32 = 16;

/// What a message is to a stream of lines.
#[derive(Drop)]
pub enum Kind {
    /// A line, unless it has a line feed.
    Text(ByteStr),
    /// Nothing: a ping, a pong, or a close, whose answers the socket has made.
    Quiet,
    /// What no line is: a binary message.
    Binary,
}

/// Why no text came.
#[derive(Drop)]
pub enum Stop {
    /// A binary message came.
    Binary,
    /// The socket failed, or the stream below it.
    Socket(Error),
}

/// Reads the next text, or finds that the peer has closed. After `MOST_QUIET` messages that are no lines it fails as
/// interrupted, so that who sends such ones alone keeps nobody waiting, and may be called again.
pub fn next_text<S: Read + Write + Drop>(
    socket: &mut WebSocket<S, NoMask>,
) -> Result<Option<ByteStr>, Stop>
    ensures text { IfOk result (λ told. IfSome told (λ text.
        ReadsText S.remaining socket.old text socket.new)) }
    ensures end { IfOk result (λ told. IfNone told
        (SkipsToEnd S.remaining socket.old socket.new)) }
{
    for _ in 0..MOST_QUIET {
        match socket.read() {
            Ok(message) => match kind_of(message) {
                Kind::Text(text) => return Ok(Some(text)),
                Kind::Quiet => {}
                Kind::Binary => return Err(Stop::Binary),
            },
            Err(Error::ConnectionClosed) => return Ok(None),
            Err(error) => return Err(Stop::Socket(error)),
        }
    }
    Err(Stop::Socket(Error::Io(io::Error::from(ErrorKind::Interrupted))))
}

// What this message is.
fn kind_of(message: Message) -> Kind
    ensures { TellsKind message result }
{
    match message {
        Message::Text(text) => Kind::Text(text),
        Message::Binary(_) => Kind::Binary,
        Message::Ping(_) => Kind::Quiet,
        Message::Pong(_) => Kind::Quiet,
        Message::Close(_) => Kind::Quiet,
    }
}

/// Sends a line, given without its line feed, as a text whose bytes are not copied for it.
pub fn send_line<S: Read + Write + Drop>(
    socket: &mut WebSocket<S, NoMask>,
    line: Vec<u8>,
) -> io::Result<()>
    ensures { OnOk result (SendsLine S.contents socket.old line.items socket.new) }
{
    match text_of(line) {
        Ok(text) => match socket.send(Message::Text(text)) {
            Ok(()) => Ok(()),
            Err(error) => Err(as_io(error)),
        },
        Err(error) => Err(error),
    }
}

// A line as a text.
fn text_of(line: Vec<u8>) -> io::Result<ByteStr>
    ensures { IfOk result (λ text. text ≡ line.items) }
{
    let bytes = Bytes::from_vec(line)?;
    match ByteStr::from_utf8(bytes) {
        Ok(text) => Ok(text),
        Err(_) => Err(io::Error::from(ErrorKind::InvalidData)),
    }
}

/// A text as a line, which it is where no line feed stands in it.
pub fn line_of(alloc: Global, text: &[u8]) -> io::Result<Option<Vec<u8>>>
    ensures { IfOk result (λ told. IfSome told (λ line.
        (line.items ≡ as_line text.now) × IsOneLine text.now)) }
{
    match lf_at(text) {
        Some(_) => Ok(None),
        None => {
            let mut line = Vec::from_slice(alloc, text)?;
            line.push(b'\n')?;
            Ok(Some(line))
        }
    }
}

/// Where the first line feed is.
pub fn lf_at(piece: &[u8]) -> Option<usize>
    ensures at { result ≡ position is_line_feed piece.now }
    ensures within { IfSome result (λ i. i < length piece.now) }
{
    piece.iter().position(|byte| *byte == b'\n')
}

/// An error of a socket as one of a stream.
pub fn as_io(error: Error) -> io::Error {
    match error {
        Error::Io(error) => error,
        Error::OutOfMemory => io::Error::from(ErrorKind::OutOfMemory),
        _ => io::Error::from(ErrorKind::BrokenPipe),
    }
}
