// What a hall with a crew tells of itself while it waits and serves.
use std::alloc::Global;
use std::io::{self, Write};
use std::net::SocketAddr;

/// Where a hall tells of itself, a line at a time. What can't be told is left out.
#[derive(Clone, Copy, Debug)]
pub struct Report<W> {
    alloc: Global,
    to: W,
}

impl<W> Report<W> {
    /// A report that tells this writer, and makes its lines in this memory.
    pub(crate) fn new(alloc: Global, to: W) -> Report<W> {
        Report { alloc, to }
    }
}

impl<W: Write + Copy> Report<W> {
    /// The hall listens at this address.
    pub(crate) fn listens(&self, address: SocketAddr) {
        match format!(in self.alloc; "cutroom: listening at {address}\n") {
            Ok(line) => self.tell(line.as_str()),
            Err(_) => {}
        }
    }

    /// The hall can't listen at this address, for the system's reason.
    pub(crate) fn refuses(&self, address: &str, error: &io::Error) {
        match format!(in self.alloc; "cutroom: {address}: {error}\n") {
            Ok(line) => self.tell(line.as_str()),
            Err(_) => {}
        }
    }

    /// A station sat down, over a connection from this peer.
    pub(crate) fn sits(&self, station: usize, peer: SocketAddr) {
        match format!(in self.alloc; "cutroom: station {station} sat down, from {peer}\n") {
            Ok(line) => self.tell(line.as_str()),
            Err(_) => {}
        }
    }

    /// A connection from this peer gets no seat.
    pub(crate) fn turns_away(&self, peer: SocketAddr, why: &str) {
        match format!(in self.alloc; "cutroom: no seat for {peer}: {why}\n") {
            Ok(line) => self.tell(line.as_str()),
            Err(_) => {}
        }
    }

    /// What came of a station, in words that go on after its number.
    pub(crate) fn station(&self, station: u32, text: &str) {
        match format!(in self.alloc; "cutroom: station {station} {text}\n") {
            Ok(line) => self.tell(line.as_str()),
            Err(_) => {}
        }
    }

    // One write a line, so that the lines of two threads stay whole.
    fn tell(&self, line: &str) {
        let mut to = self.to;
        let _ = to.write(line.as_bytes());
    }
}
