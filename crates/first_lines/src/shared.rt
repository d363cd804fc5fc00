// The stream of a WebSocket.
use std::io::{self, ErrorKind, Read, Write};
use std::net::TcpStream;
use std::sync::Arc;
use std::sync::atomic::{AtomicBool, Ordering};

// The most bytes that are read before somebody sits down: a first message, with pings and fragments to spare.
const MOST_BEFORE: usize = 16_384;

/// A connection that others can cut off. Until somebody sits down over it only so many bytes of it are read, so that who
/// never ends a first message keeps nobody waiting.
#[derive(Drop)]
pub struct Shared {
    stream: Arc<TcpStream>,
    read: usize,
    is_seated: AtomicBool,
}

impl Shared {
    /// The stream of this connection, over which nobody sits yet.
    pub fn new(stream: Arc<TcpStream>) -> Shared {
        Shared {
            stream,
            read: 0,
            is_seated: AtomicBool::new(false),
        }
    }

    /// Somebody sits over it.
    pub fn seat(&self) {
        self.is_seated.store(true, Ordering::SeqCst);
    }

    // How many of so many bytes may be read.
    fn room(&self, wanted: usize) -> usize {
        if self.is_seated.load(Ordering::SeqCst) {
            wanted
        } else {
            wanted.min(MOST_BEFORE.saturating_sub(self.read))
        }
    }
}

impl Read for Shared {
    /// Reads once. Where no more bytes may be read nothing has come.
    fn read(&mut self, into: &mut [u8]) -> io::Result<usize> {
        let room = self.room(into.len()).min(into.len());
        if room == 0 && !into.is_empty() {
            return Err(io::Error::from(ErrorKind::WouldBlock));
        }
        let mut from = &*self.stream;
        let n = from.read(&mut into[..room])?;
        self.read = self.read.saturating_add(n);
        Ok(n)
    }
}

impl Write for Shared {
    /// Passes the call on.
    fn write(&mut self, piece: &[u8]) -> io::Result<usize> {
        let mut to = &*self.stream;
        to.write(piece)
    }

    /// Passes the call on.
    fn flush(&mut self) -> io::Result<()> {
        let mut to = &*self.stream;
        to.flush()
    }
}
