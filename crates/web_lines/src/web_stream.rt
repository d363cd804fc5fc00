// A WebSocket as a stream of lines.
ghost use Rattle.std.specs.Prelude.{◌≡◌, ◌⊎◌, ◌<◌, ◌≤◌, ◌++◌, [], length, take, IfOk, IsFalse, IsTrue, OnOk, OnErr};
ghost use Rattle.std.specs.Io.{ReadsAtMost, WritesAtMost};
ghost use Rattle.web_lines.specs.Lines.{ComesLine, EndsLines, GivesLines, IsOneLine, SendsLine, StartsLines, TakesLines, as_line};
ghost use Rattle.web_lines.specs.declared.web_stream.Doing.TheVariants.{Broken};

use crate::messages::{Stop, as_io, lf_at, line_of, next_text, send_line};
use bytes::ByteStr;
use std::alloc::Global;
use std::io::{self, ErrorKind, Read, Write};
use std::marker::Model;
use std::mem;
use tungstenite::error::Error;
use tungstenite::{CloseCode, CloseFrame, NoMask, Role, WebSocket, WebSocketConfig};
use websocket::error::ProtocolError;

/// The most bytes of a message that comes, its fragments put together.
pub const MOST_MESSAGE: usize = 65536;

/// How a WebSocket stands.
#[derive(Clone, Copy, Debug, PartialEq, Eq)]
pub enum Doing {
    /// Lines come and go.
    Open,
    /// The peer has closed: its lines are at their end.
    Closed,
    /// Something failed: nothing is read or written any more.
    Broken,
}

/// A WebSocket over a stream, as a stream of lines. Each text message that comes is read as its bytes and a line feed;
/// each line that is written is sent, once its line feed has come, as one text message without it. Pings are answered
/// as they are read. A close is the end of the input. A message that is binary, is no UTF-8, has a line feed in it or
/// is too long, and a frame that breaks the protocol, end the connection with a close that says why: 1003, 1007, 1008,
/// 1009 or 1002.
///
/// A read that fails because the stream did, as where nothing came in time, may be made again, and goes on where it
/// was. So may one that was interrupted, which it is by many messages in a row that are no lines. After any other failure, and after any write that fails but for memory, all reads and writes fail.
#[derive(Drop)]
pub struct WebStream<S> {
    alloc: Global,
    socket: WebSocket<S, NoMask>,
    // A line that came, with its line feed, from `given` on.
    line: Vec<u8>,
    given: usize,
    // What was written of a line whose line feed is still to come.
    begun: Vec<u8>,
    state: Doing,
}

impl<S> Model for WebStream<S> {
    ghost use Rattle.std.specs.Prelude.{◌≤◌, length, drop};
    ghost use Rattle.web_lines.specs.Lines.{WebState};

    ghost Value = { WebState S };

    ghost view = { λ w. record {
      socket = w.socket;
      left = drop w.given w.line.items;
      begun = w.begun.items;
      state = w.state;
    } };

    ghost invariant = { λ w. w.given ≤ length w.line.items };
}

impl<S: Drop> WebStream<S> {
    /// A WebSocket over this stream, whose handshake is done and after whose head these bytes have come.
    pub fn new(alloc: Global, stream: S, after: Vec<u8>) -> WebStream<S>
        ensures { StartsLines result stream after.items }
    {
        let config = WebSocketConfig::default()
            .read_buffer_size(4096)
            .max_message_size(Some(MOST_MESSAGE))
            .max_frame_size(Some(MOST_MESSAGE));
        WebStream {
            alloc,
            socket: WebSocket::from_partially_read(
                alloc,
                stream,
                NoMask,
                after,
                Role::Server,
                Some(config),
            ),
            line: Vec::new(alloc),
            given: 0,
            begun: Vec::new(alloc),
            state: Doing::Open,
        }
    }

    /// The stream below.
    pub fn get_ref(&self) -> &S
        ensures { result.now ≡ self.now.socket.stream }
    {
        self.socket.get_ref()
    }

    /// The stream below. What was begun of a line either way is let go.
    pub fn into_inner(self) -> S
        ensures { result ≡ self.socket.stream }
    {
        let WebStream {
            alloc: _,
            socket,
            line: _,
            given: _,
            begun: _,
            state: _,
        } = self;
        socket.into_inner()
    }

    // Whether all of the line that came was given.
    fn is_drained(&self) -> bool
        ensures drained { IsTrue result → self.now.left ≡ [] }
        ensures left { IsFalse result → 0 < length self.now.left }
    {
        self.given >= self.line.len()
    }

    // Gives as much of the line that came as there is room for.
    fn give(&mut self, into: &mut [u8]) -> usize
        ensures within { result ≤ length into.new }
        ensures gives { self.old.left ≡ take result into.new ++ self.new.left }
        ensures stays { self.new ≡ record self.old { left = self.new.left } }
        ensures some { 0 < length into.old → 0 < length self.old.left → 0 < result }
        ensures none { self.old.left ≡ [] → result ≡ 0 }
    {
        let (_, rest) = self.line.split_at(self.given);
        let count = rest.len().min(into.len());
        into[..count].copy_from_slice(&rest[..count]);
        self.given += count;
        count
    }
}

impl<S: Read + Write + Drop> WebStream<S> {
    // Reads of the next line, where there is one.
    fn read_next(&mut self, into: &mut [u8]) -> io::Result<usize>
        requires left { self.old.left ≡ [] }
        requires room { 0 < length into.old }
        ensures lines { IfOk result (λ n. 0 < n
            → GivesLines S.remaining self.old self.new (take n into.new)) }
        ensures end { IfOk result (λ n. n ≡ 0 → EndsLines S.remaining self.old self.new) }
        ensures err { OnErr result (self.new.left ≡ []) }
        ensures begun { self.new.begun ≡ self.old.begun }
        ensures bound { ReadsAtMost result into.new }
    {
        self.fetch()?;
        Ok(self.give(into))
    }

    // Gets the next line, or finds that there is none.
    fn fetch(&mut self) -> io::Result<()>
        requires { self.old.left ≡ [] }
        ensures ok { OnOk result (ComesLine S.remaining self.old self.new
            ⊎ EndsLines S.remaining self.old self.new) }
        ensures err { OnErr result (self.new.left ≡ []) }
        ensures begun { self.new.begun ≡ self.old.begun }
    {
        match self.state {
            Doing::Open => self.fetch_open(),
            Doing::Closed => Ok(()),
            Doing::Broken => Err(io::Error::from(ErrorKind::NotConnected)),
        }
    }

    // The same, of a socket that is open.
    fn fetch_open(&mut self) -> io::Result<()>
        requires { self.old.left ≡ [] }
        ensures ok { OnOk result (ComesLine S.remaining self.old self.new
            ⊎ EndsLines S.remaining self.old self.new) }
        ensures err { OnErr result (self.new.left ≡ []) }
        ensures begun { self.new.begun ≡ self.old.begun }
    {
        match next_text(&mut self.socket) {
            Ok(Some(text)) => self.keep(text),
            Ok(None) => {
                self.state = Doing::Closed;
                Ok(())
            }
            Err(stop) => Err(self.fail(stop)),
        }
    }

    // Keeps a text that came as a line, unless it has a line feed.
    fn keep(&mut self, text: ByteStr) -> io::Result<()>
        ensures ok { OnOk result ((self.new.socket ≡ self.old.socket)
            × (self.new.left ≡ as_line text) × IsOneLine text) }
        ensures err { OnErr result (self.new.left ≡ self.old.left) }
        ensures begun { self.new.begun ≡ self.old.begun }
    {
        match line_of(self.alloc, text.as_bytes().as_slice()) {
            Ok(Some(line)) => {
                self.line = line;
                self.given = 0;
                Ok(())
            }
            Ok(None) => Err(self.refuse(CloseCode::Policy)),
            Err(error) => {
                self.state = Doing::Broken;
                Err(error)
            }
        }
    }

    /// Ends the connection as one that is done with: nothing is read or written after it. No clause says that the peer
    /// gets to know.
    pub fn close(&mut self)
        ensures state { self.new.state ≡ Broken }
        ensures left { self.new.left ≡ self.old.left }
        ensures begun { self.new.begun ≡ self.old.begun }
    {
        self.refuse(CloseCode::Normal);
    }

    // Ends the connection, and says why.
    fn refuse(&mut self, code: CloseCode) -> io::Error
        ensures state { self.new.state ≡ Broken }
        ensures left { self.new.left ≡ self.old.left }
        ensures begun { self.new.begun ≡ self.old.begun }
    {
        self.state = Doing::Broken;
        let reason = ByteStr::new();
        match self.socket.close(Some(CloseFrame { code, reason })) {
            Ok(()) => io::Error::from(ErrorKind::InvalidData),
            Err(_) => io::Error::from(ErrorKind::BrokenPipe),
        }
    }

    // What it comes to that no text came.
    fn fail(&mut self, stop: Stop) -> io::Error
        ensures left { self.new.left ≡ self.old.left }
        ensures begun { self.new.begun ≡ self.old.begun }
    {
        match stop {
            Stop::Binary => self.refuse(CloseCode::Unsupported),
            Stop::Socket(Error::Io(error)) => error,
            Stop::Socket(error) => match code_of(&error) {
                Some(code) => self.refuse(code),
                None => {
                    self.state = Doing::Broken;
                    as_io(error)
                }
            },
        }
    }
}

impl<S: Read + Write + Drop> Read for WebStream<S> {
    /// Gives the next bytes of the line that came last, or of the next one. No clause says that a read that fails read
    /// nothing of the stream: pings are read, and part of a frame.
    fn read(&mut self, into: &mut [u8]) -> io::Result<usize>
        ensures lines { IfOk result (λ n. 0 < n
            → GivesLines S.remaining self.old self.new (take n into.new)) }
        ensures end { IfOk result (λ n. n ≡ 0 → 0 < length into.old
            → EndsLines S.remaining self.old self.new) }
        ensures err { OnErr result ((self.old.left ≡ []) × (self.new.left ≡ [])) }
        ensures begun { self.new.begun ≡ self.old.begun }

        // What every reader promises.
        ensures bound { ReadsAtMost result into.new }
    {
        if into.is_empty() {
            return Ok(0);
        }
        if self.is_drained() {
            self.read_next(into)
        } else {
            Ok(self.give(into))
        }
    }
}

impl<S: Read + Write + Drop> Write for WebStream<S> {
    /// Takes bytes up to the next line feed, and sends the line that it ends.
    fn write(&mut self, piece: &[u8]) -> io::Result<usize>
        ensures lines { IfOk result (λ n.
            TakesLines S.contents self.old self.new (take n piece.now)) }
        ensures err { OnErr result ((self.new.begun ≡ self.old.begun) ⊎ (self.new.state ≡ Broken)) }
        ensures left { self.new.left ≡ self.old.left }

        // What every writer promises.
        ensures bound { WritesAtMost result piece.now }
    {
        if self.state == Doing::Broken {
            return Err(io::Error::from(ErrorKind::NotConnected));
        }
        match lf_at(piece) {
            None => {
                self.begun.extend_from_slice(piece)?;
                Ok(piece.len())
            }
            Some(at) => {
                let (last, _) = piece.split_at(at);
                self.end_line(last)?;
                Ok(at + 1)
            }
        }
    }

    /// Sends what waits, as the answer to a ping.
    fn flush(&mut self) -> io::Result<()> {
        match self.socket.flush() {
            Ok(()) => Ok(()),
            Err(error) => Err(as_io(error)),
        }
    }
}

impl<S: Read + Write + Drop> WebStream<S> {
    // Sends the line that these bytes end.
    fn end_line(&mut self, last: &[u8]) -> io::Result<()>
        ensures ok { OnOk result (SendsLine S.contents self.old.socket
            (self.old.begun ++ last.now) self.new.socket) }
        ensures begun { OnOk result (self.new.begun ≡ []) }
        ensures err { OnErr result ((self.new.begun ≡ self.old.begun) ⊎ (self.new.state ≡ Broken)) }
        ensures left { self.new.left ≡ self.old.left }
    {
        self.begun.extend_from_slice(last)?;
        let line = mem::replace(&mut self.begun, Vec::new(self.alloc));
        match send_line(&mut self.socket, line) {
            Ok(()) => Ok(()),
            Err(error) => {
                self.state = Doing::Broken;
                Err(error)
            }
        }
    }
}

// With which code a socket is closed that failed so, where it has not closed and is not gone.
fn code_of(error: &Error) -> Option<CloseCode> {
    match error {
        Error::Protocol(ProtocolError::ResetWithoutClosingHandshake) => None,
        Error::Protocol(_) => Some(CloseCode::Protocol),
        Error::Utf8 => Some(CloseCode::Invalid),
        Error::Capacity(_) => Some(CloseCode::Size),
        _ => None,
    }
}
