// Readers and writers that tell of each call that fails.
ghost use Rattle.std.specs.Prelude.{◌≡◌};

use crate::Report;
use std::io::{self, Read, Write};

/// A reader or a writer with a name, which passes on each call and tells a report of those that fail, and of a write that
/// takes nothing of a piece that is not empty. No clause says what is told.
#[derive(Drop)]
pub struct Reported<'a, T, W> {
    inner: T,
    name: &'a str,
    report: Report<W>,
}

impl<'a, T, W> Reported<'a, T, W> {
    /// This reader or writer, by this name.
    pub fn new(inner: T, name: &'a str, report: Report<W>) -> Self
        ensures { result.inner ≡ inner }
    {
        Reported {
            inner,
            name,
            report,
        }
    }
}

impl<T: Read, W: Write + Copy> Read for Reported<'_, T, W> {
    ghost remaining = { λ r. T.remaining r.inner };

    /// Reads once, and tells the report where that fails.
    fn read(&mut self, into: &mut [u8]) -> io::Result<usize> {
        match self.inner.read(into) {
            Ok(n) => Ok(n),
            Err(error) => {
                self.report.unread(self.name, &error);
                Err(error)
            }
        }
    }
}

impl<T: Write, W: Write + Copy> Write for Reported<'_, T, W> {
    ghost contents = { λ w. T.contents w.inner };

    /// Writes once, and tells the report where that fails or takes nothing of a piece that is not empty.
    fn write(&mut self, piece: &[u8]) -> io::Result<usize> {
        match self.inner.write(piece) {
            Ok(0) if !piece.is_empty() => {
                self.report
                    .unwritten(self.name, &io::Error::from(io::ErrorKind::WriteZero));
                Ok(0)
            }
            Ok(n) => Ok(n),
            Err(error) => {
                self.report.unwritten(self.name, &error);
                Err(error)
            }
        }
    }

    /// Flushes, and tells the report where that fails.
    fn flush(&mut self) -> io::Result<()> {
        match self.inner.flush() {
            Ok(()) => Ok(()),
            Err(error) => {
                self.report.unwritten(self.name, &error);
                Err(error)
            }
        }
    }

    /// Writes the whole piece, and tells the report once where that fails.
    fn write_all(&mut self, bytes: &[u8]) -> io::Result<()> {
        match self.inner.write_all(bytes) {
            Ok(()) => Ok(()),
            Err(error) => {
                self.report.unwritten(self.name, &error);
                Err(error)
            }
        }
    }
}
