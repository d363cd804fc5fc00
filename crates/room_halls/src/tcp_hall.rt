// A hall whose stations are connections over TCP.
ghost use Rattle.std.specs.Prelude.{◌≡◌, ◌<◌, ◌≤◌, [], None, Some, length, refl, true, IfOk, OnOk, OnErr};
ghost use Rattle.room_ports.specs.Counts.{HasRisen, counted};
ghost use Rattle.room_halls.specs.Connections.{tcp_hall_tells};
ghost use Rattle.room_halls.specs.Stations.{CountsSeat, NoneMoves, OpensAt, OthersStay, hall_told, line_told};

use crate::addresses::Addresses;
use crate::report::Report;
use crate::seats::Seats;
use crate::tcp_line::{LineFaults, TcpLine};
use crate::timed::Timed;
use crate::{Hall, HallFault};
use room_ports::Failed;
use std::alloc::Global;
use std::io::{self, Write};
use std::marker::Model;
use std::net::{Net, SocketAddr, TcpListener, TcpStream};
use std::time::Duration;

/// A hall that listens at an address. Each seat takes the next connection that comes, whoever makes it. It tells its
/// writer where it listens, and of each station who sits down and how it leaves. No clause says what connections bring
/// nor what the writer is told.
#[derive(Drop)]
pub struct TcpHall<'a, R: Net, W> {
    alloc: Global,
    net: &'a R,
    report: Report<W>,
    idle: Option<Duration>,
    listener: Option<TcpListener>,
    seated: Seats<LineFaults>,
    faults: u64,
    addresses: Addresses,
}

impl<'a, R: Net, W> Model for TcpHall<'a, R, W> {
    ghost use Rattle.room_halls.specs.Connections.{TcpHallState};

    ghost Value = { TcpHallState };

    ghost view = { λ h. record { seated = h.seated; faults = h.faults; opened = h.addresses } };
}

impl<'a, R: Net<Listener = TcpListener, Stream = TcpStream>, W> TcpHall<'a, R, W> {
    /// A hall that is not open yet, without a fault so far, which tells of itself to this writer. A station of which
    /// nothing comes in the time given is cut off by a fault of its line; where none is given nobody is.
    pub fn new(alloc: Global, net: &'a R, to: W, idle: Option<Duration>) -> Self
        ensures seated { result.seated ≡ [] }
        ensures faults { result.faults ≡ 0 }
        ensures opened { result.opened ≡ Some [] }
    {
        TcpHall {
            alloc,
            net,
            report: Report::new(alloc, to),
            idle,
            listener: None,
            seated: Seats::new(alloc),
            faults: 0,
            addresses: Addresses::none(alloc),
        }
    }

    /// The address at which it listens, with the port that the system gave where port 0 was asked for. No clause says
    /// which that is.
    pub fn address(&self) -> Option<SocketAddr> {
        match &self.listener {
            Some(listener) => listener.local_addr().ok(),
            None => None,
        }
    }
}

impl<R: Net<Listener = TcpListener, Stream = TcpStream>, W: Write + Copy + Send> Hall
    for TcpHall<'_, R, W> {
    /// A connection over TCP, which tells no bytes.
    type Line = TcpLine<W>;

    ghost told = { λ h. hall_told (tcp_hall_tells h) h.faults h.opened };

    /// Listens at the address. It fails where the system refuses it, of which no clause says when.
    fn open(&mut self, address: &str) -> Result<(), Failed> {
        match TcpListener::bind(self.net, address) {
            Ok(listener) => {
                tell_address(self.report, &listener);
                self.listener = Some(listener);
                self.addresses.add(self.alloc, address);
                Ok(())
            }
            Err(error) => {
                self.report.refuses(address, &error);
                self.faults = self.faults.saturating_add(1);
                Err(Failed)
            }
        }
    }

    /// Waits for the next connection, and sends what is written to it without delay. It fails where the hall is not
    /// open or the system refuses it, of which no clause says when.
    fn seat_station(&mut self, _alloc: Global, station: u32) -> Result<TcpLine<W>, HallFault> {
        self.seated.make_room(station)?;
        let faults = match self.seated.get(station) {
            Some(faults) => faults,
            None => LineFaults::none(),
        };
        match next_connection(&self.listener, self.idle) {
            Ok((stream, peer)) => {
                self.report.seats(station, peer);
                self.seated.set(station, faults);
                Ok(TcpLine::new(Timed::new(stream), faults, station, self.report))
            }
            Err(_) => {
                self.report.station(station, "got no connection");
                self.faults = self.faults.saturating_add(1);
                Err(HallFault::Failed)
            }
        }
    }

    /// Keeps the line's counts and closes it.
    fn stand_up(&mut self, station: u32, line: TcpLine<W>) {
        self.seated.set(station, line.faults());
    }
}

// The next connection, which sends without delay, and of which a read waits for so long, or for ever. An error where
// the hall is not open or the system gives none.
fn next_connection(
    listener: &Option<TcpListener>,
    idle: Option<Duration>,
) -> io::Result<(TcpStream, SocketAddr)> {
    let Some(listener) = listener else {
        return Err(io::Error::from(io::ErrorKind::NotConnected));
    };
    let (stream, peer) = listener.accept()?;
    let _ = stream.set_nodelay(true);
    stream.set_read_timeout(idle)?;
    Ok((stream, peer))
}

// Tells where a hall listens, with the port that the system gave where port 0 was asked for.
fn tell_address<W: Write + Copy>(report: Report<W>, listener: &TcpListener) {
    match listener.local_addr() {
        Ok(address) => report.listens(address),
        Err(_) => {}
    }
}
