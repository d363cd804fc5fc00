// A stream whose reads may have a limit of time.
ghost use Rattle.std.specs.Prelude.{◌≡◌};

use std::io::{self, ErrorKind, Read, Write};

/// A stream that passes on each call, and notes whether its last read ended because nothing came in the time that the
/// stream waits. No clause says what is noted.
#[derive(Drop)]
pub struct Timed<T> {
    inner: T,
    is_late: bool,
}

impl<T> Timed<T> {
    /// This stream, which has not been read yet.
    pub(crate) fn new(inner: T) -> Timed<T>
        ensures { result.inner ≡ inner }
    {
        Timed {
            inner,
            is_late: false,
        }
    }

    /// The stream itself, without a call being noted.
    pub(crate) fn inner(&self) -> &T {
        &self.inner
    }

    /// Whether its last read ended because nothing came in time.
    pub(crate) fn is_late(&self) -> bool {
        self.is_late
    }
}

impl<T: Read> Read for Timed<T> {
    ghost remaining = { λ t. T.remaining t.inner };

    /// Reads once, and notes whether it failed because nothing came in time.
    fn read(&mut self, into: &mut [u8]) -> io::Result<usize> {
        match self.inner.read(into) {
            Ok(n) => {
                self.is_late = false;
                Ok(n)
            }
            Err(error) => {
                self.is_late = error.kind() == ErrorKind::WouldBlock;
                Err(error)
            }
        }
    }
}

impl<T: Write> Write for Timed<T> {
    ghost contents = { λ t. T.contents t.inner };

    /// Passes the call on.
    fn write(&mut self, piece: &[u8]) -> io::Result<usize> {
        self.inner.write(piece)
    }

    /// Passes the call on.
    fn flush(&mut self) -> io::Result<()> {
        self.inner.flush()
    }

    /// Passes the call on.
    fn write_all(&mut self, bytes: &[u8]) -> io::Result<()> {
        self.inner.write_all(bytes)
    }
}
