// A line over a TCP connection.
ghost use Rattle.std.specs.Prelude.{◌≡◌, ◌<◌, ◌≤◌, None, length, refl, IfOk, OnOk, OnErr};
ghost use Rattle.std.specs.Io.KnownBytes.{ReadConsumes, WriteAppends};
ghost use Rattle.room_ports.specs.Counts.{HasRisen, counted};
ghost use Rattle.room_ports.specs.Sides.{owned};

use crate::HallLine;
use crate::report::Report;
use crate::timed::Timed;
use room_ports::{Failed, Line, Sink, Source, read_once, write_once};
use std::io::{Read, Write};
use std::marker::Model;
use std::net::{Shutdown, TcpStream};

/// How often reads and writes of a line have failed.
#[derive(Clone, Copy, Debug, PartialEq, Eq)]
pub struct LineFaults {
    reads: u64,
    writes: u64,
}

impl LineFaults {
    /// No read and no write has failed.
    pub fn none() -> LineFaults
        ensures reads { result.reads ≡ 0 }
        ensures writes { result.writes ≡ 0 }
    {
        LineFaults {
            reads: 0,
            writes: 0,
        }
    }
}

/// What came of the last read or write of a line that is worth telling.
#[derive(Clone, Copy, Debug, PartialEq, Eq)]
enum Came {
    /// A read gave bytes, or nothing was read yet.
    Bytes,
    /// A read was at the end of the input.
    End,
    /// A read failed.
    ReadFault,
    /// A write failed.
    WriteFault,
}

impl Came {
    // How a session over the line ended, in words that go on after the station's number. One whose last read gave bytes
    // ended before the end of its input: it passed the limit, or its last reply could not be told of a kept journal.
    fn text(self) -> &'static str {
        match self {
            Came::Bytes => "left before its lines were read to their end",
            Came::End => "left, its lines are read to their end",
            Came::ReadFault => "left, a read of its line failed",
            Came::WriteFault => "left, a write to its line failed",
        }
    }
}

/// A line over a stream, which tells no bytes as a line; what its reads and writes do to a stream that tells its bytes their
/// own clauses say. Each read and each write that fails is counted as a fault, and so is a write that takes nothing of a
/// piece that is not empty.
#[derive(Drop)]
pub struct Connection<T, W> {
    stream: T,
    faults: LineFaults,
    station: u32,
    came: Came,
    report: Report<W>,
}

/// A line over a TCP connection. A read that waits longer than the connection's limit, where it has one, fails.
pub type TcpLine<W> = Connection<Timed<TcpStream>, W>;

impl<T, W> Model for Connection<T, W> {
    ghost use Rattle.room_halls.specs.Connections.{ConnectionState};

    ghost Value = { ConnectionState T };

    ghost view = { λ l. record { stream = l.stream; faults = l.faults } };
}

impl<T, W> Connection<T, W> {
    /// The line of a station over this stream, with these faults so far.
    pub(crate) fn new(
        stream: T,
        faults: LineFaults,
        station: u32,
        report: Report<W>,
    ) -> Connection<T, W>
        ensures { result.faults ≡ faults }
    {
        Connection {
            stream,
            faults,
            station,
            came: Came::Bytes,
            report,
        }
    }

    /// How often its reads and writes have failed.
    pub(crate) fn faults(&self) -> LineFaults
        ensures { result ≡ self.now.faults }
    {
        self.faults
    }
}

impl<T: Read, W> Source for Connection<T, W> {
    ghost left = { λ _. None };

    ghost read_faults = { λ l. l.faults.reads };

    ghost as_sink = { λ l. record { taken = None; faults = l.faults.writes; lent = owned } };

    /// Reads from the stream. That it does so once no clause says.
    fn read(&mut self, into: &mut [u8]) -> Result<usize, Failed>
        ensures reads { ReadConsumes
            (T.remaining self.old.stream) (T.remaining self.new.stream) result into.new }
        ensures counted { OnErr result (self.new.faults.reads ≡ counted self.old.faults.reads) }

        // What every source promises.
        ensures within { IfOk result (λ n. n ≤ length into.old) }
        ensures cause { OnErr result (HasRisen self.old.faults.reads self.new.faults.reads) }
        ensures quiet { OnOk result (self.new.faults.reads ≡ self.old.faults.reads) }
        ensures count { self.old.faults.reads ≤ self.new.faults.reads }
        ensures writes { self.new.faults.writes ≡ self.old.faults.writes }
    {
        match read_once(&mut self.stream, into, &mut self.faults.reads) {
            Ok(n) => {
                self.came = if n == 0 { Came::End } else { Came::Bytes };
                Ok(n)
            }
            Err(_) => {
                self.came = Came::ReadFault;
                Err(Failed)
            }
        }
    }
}

impl<T: Write, W> Sink for Connection<T, W> {
    ghost taken = { λ _. None };

    ghost write_faults = { λ l. l.faults.writes };

    ghost as_source = { λ l. record { left = None; faults = l.faults.reads; lent = owned } };

    /// Writes to the stream. That it does so once no clause says.
    fn write(&mut self, piece: &[u8]) -> Result<usize, Failed>
        ensures writes { WriteAppends
            (T.contents self.old.stream) (T.contents self.new.stream) result piece.now }
        ensures counted { OnErr result (self.new.faults.writes ≡ counted self.old.faults.writes) }

        // What every sink promises.
        ensures within { IfOk result (λ n. n ≤ length piece.now) }
        ensures some { IfOk result (λ n. 0 < length piece.now → 0 < n) }
        ensures cause { OnErr result (HasRisen self.old.faults.writes self.new.faults.writes) }
        ensures quiet { OnOk result (self.new.faults.writes ≡ self.old.faults.writes) }
        ensures count { self.old.faults.writes ≤ self.new.faults.writes }
        ensures reads { self.new.faults.reads ≡ self.old.faults.reads }
    {
        match write_once(&mut self.stream, piece, &mut self.faults.writes) {
            Ok(n) => Ok(n),
            Err(_) => {
                self.came = Came::WriteFault;
                Err(Failed)
            }
        }
    }
}

impl<T: Read + Write, W> Line for Connection<T, W> {
    ghost lent = { λ _. owned };

    ghost source_side = { λ line. refl };

    ghost sink_side = { λ line. refl };
}

impl<W> Connection<Timed<TcpStream>, W> {
    /// Whether what is written is sent at once, however little it is. No clause says it.
    pub fn sends_at_once(&self) -> bool {
        self.stream.inner().nodelay().unwrap_or(false)
    }
}

impl<W: Write + Copy> HallLine for Connection<Timed<TcpStream>, W> {
    /// Tells how the session ended, and lets the peer read to the end of the replies. No clause says either.
    fn leave(&mut self) {
        let text = match self.came {
            Came::ReadFault if self.stream.is_late() => "left, nothing came over its line in time",
            came => came.text(),
        };
        self.report.station(self.station, text);
        let _ = self.stream.inner().shutdown(Shutdown::Both);
    }
}
