// The line of a station, whatever connections it has.
ghost use Rattle.std.specs.Prelude.{◌≡◌, ◌<◌, ◌≤◌, None, length, take, refl, IfOk, OnOk, OnErr};
ghost use Rattle.room_ports.specs.Bytes.{Takes, TakesFront};
ghost use Rattle.room_ports.specs.Counts.{HasRisen, counted};
ghost use Rattle.room_ports.specs.Sides.{owned};

use crate::place::Place;
use crate::report::Report;
use crate::seat_port::{PIECE, SeatPort};
use room_halls::HallLine;
use room_ports::{Failed, Line, Sink, Source};
use std::io::Write;
use std::marker::Model;
use std::sync::Wait;

/// The line of a station over its seat, which tells no bytes. A read waits while the station is away, and gives the end
/// once it has left; no read fails. A write that finds no memory for the reply is counted as a fault.
#[derive(Drop)]
pub struct CrewLine<'a, R, W> {
    faults: u64,
    port: SeatPort<'a, R, W>,
}

impl<'a, R, W> Model for CrewLine<'a, R, W> {
    ghost use Rattle.std.specs.Prelude.{ℕ};

    ghost Value = { ℕ };

    ghost view = { λ l. l.faults };
}

impl<'a, R: Wait, W: Write + Copy> CrewLine<'a, R, W> {
    /// The line of a station over its place, with these faults so far.
    pub(crate) fn new(
        rt: &'a R,
        place: &'a Place,
        station: u32,
        faults: u64,
        report: Report<W>,
    ) -> Self
        ensures { result ≡ faults }
    {
        CrewLine {
            faults,
            port: SeatPort::new(rt, place, station, report),
        }
    }

    /// How often a write of it has failed.
    pub(crate) fn faults(&self) -> u64
        ensures { result ≡ self.now }
    {
        self.faults
    }
}

impl<R: Wait, W: Write + Copy> Source for CrewLine<'_, R, W> {
    ghost left = { λ _. None };

    ghost read_faults = { λ _. 0 };

    ghost as_sink = { λ l. record { taken = None; faults = l; lent = owned } };

    /// Gives the next bytes of the lines that the seat took, and waits while there are none. No read fails.
    fn read(&mut self, into: &mut [u8]) -> Result<usize, Failed> {
        let most = into.len();
        let n = self.port.read(into);
        Ok(n.min(most))
    }
}

impl<R: Wait, W: Write + Copy> Sink for CrewLine<'_, R, W> {
    ghost taken = { λ _. None };

    ghost write_faults = { λ l. l };

    ghost as_source = { λ _. record { left = None; faults = 0; lent = owned } };

    /// Keeps a piece of a reply, and has it go out where the station is there.
    fn write(&mut self, piece: &[u8]) -> Result<usize, Failed>
        ensures counted { OnErr result (self.new ≡ counted self.old) }

        // What every sink promises.
        ensures within { IfOk result (λ n. n ≤ length piece.now) }
        ensures some { IfOk result (λ n. 0 < length piece.now → 0 < n) }
        ensures ok { IfOk result (λ n. Takes None None (take n piece.now)) }
        ensures err { OnErr result (TakesFront None None piece.now) }
        ensures cause { OnErr result (HasRisen self.old self.new) }
        ensures quiet { OnOk result (self.new ≡ self.old) }
        ensures count { self.old ≤ self.new }
    {
        let n = piece.len().min(PIECE);
        let (front, _) = piece.split_at(n);
        if self.port.write(front) {
            return Ok(n);
        }
        self.faults = self.faults.saturating_add(1);
        Err(Failed)
    }
}

impl<R: Wait, W: Write + Copy> Line for CrewLine<'_, R, W> {
    ghost lent = { λ _. owned };

    ghost source_side = { λ line. refl };

    ghost sink_side = { λ line. refl };
}

impl<R: Wait, W: Write + Copy> HallLine for CrewLine<'_, R, W> {
    /// Ends the seat: nobody sits on it any more. The peer may read to the end of the replies. No clause says either.
    fn leave(&mut self) {
        self.port.leave();
    }
}
