// A hall whose seats belong to a crew.
ghost use Rattle.std.specs.Prelude.{◌≡◌, ◌<◌, ◌≤◌, [], None, Some, length, refl, true, IfOk, OnOk, OnErr};
ghost use Rattle.room_ports.specs.Counts.{HasRisen, counted};
ghost use Rattle.room_halls.specs.Stations.{CountsSeat, NoneMoves, OpensAt, OthersStay, hall_told, line_told};
ghost use Rattle.crew_hall.specs.Halls.{crew_hall_tells};

use crate::crew_line::CrewLine;
use crate::door::Door;
use crate::notes::Notes;
use crate::place::Place;
use crate::report::Report;
use crew_words::address_in;
use room_halls::{Hall, HallFault};
use room_ports::Failed;
use std::alloc::Global;
use std::io::Write;
use std::marker::Model;
use std::net::{Net, TcpListener, TcpStream};
use std::sync::Wait;

/// How many stations a room has at most.
pub const MOST_STATIONS: usize = 16;

/// Who knows the number of each station's last line so far, when a hall is opened.
pub trait Bases {
    /// These numbers, by station; 0 where there is none. It fails where they can't be known.
    fn numbers(&self) -> Result<[u32; MOST_STATIONS], Failed>;
}

/// A hall that listens at an address, with a place for each station, which is handed out at once: a session waits for its
/// own station alone. Who may sit down on which place the thread at the door knows. No clause says what connections bring.
#[derive(Drop)]
pub struct CrewHall<'a, R, W, B> {
    alloc: Global,
    rt: &'a R,
    report: Report<W>,
    door: &'a Door,
    places: &'a [Place],
    bases: &'a B,
    seated: Notes,
    faults: u64,
}

impl<'a, R, W, B> Model for CrewHall<'a, R, W, B> {
    ghost use Rattle.crew_hall.specs.Halls.{CrewHallState};

    ghost Value = { CrewHallState };

    ghost view = { λ h. record { seated = h.seated; faults = h.faults } };
}

impl<'a, R, W, B> CrewHall<'a, R, W, B> {
    /// A hall that is not open yet, without a fault so far, which hands its listener in at this door and tells of itself to
    /// this writer.
    pub fn new(
        alloc: Global,
        rt: &'a R,
        door: &'a Door,
        places: &'a [Place],
        bases: &'a B,
        to: W,
    ) -> Self
        ensures seated { result.seated ≡ [] }
        ensures faults { result.faults ≡ 0 }
    {
        CrewHall {
            alloc,
            rt,
            report: Report::new(alloc, to),
            door,
            places,
            bases,
            seated: Notes::new(alloc),
            faults: 0,
        }
    }
}

impl<'a, R: Wait, W, B: Bases> CrewHall<'a, R, W, B> {
    // Has each seat begin where the lines of its station end.
    fn begin_all(&self) -> Result<(), Failed> {
        let bases = self.bases.numbers()?;
        for (place, base) in self.places.iter().zip(bases.iter()) {
            place.begin(self.rt, self.alloc, *base);
        }
        Ok(())
    }
}

impl<
    'a,
    R: Net<Listener = TcpListener, Stream = TcpStream> + Wait + Sync,
    W: Write + Copy + Send,
    B: Bases,
> Hall for CrewHall<'a, R, W, B> {
    /// A seat, which tells no bytes.
    type Line = CrewLine<'a, R, W>;

    ghost told = { λ h. hall_told (crew_hall_tells h) h.faults None };

    /// Listens at what stands after the last `@` of the address, once it is known how many lines each station has sent. It
    /// fails where that can't be known or the system refuses it, of which no clause says when.
    fn open(&mut self, address: &str) -> Result<(), Failed> {
        let (_, host) = address_in(address);
        if self.begin_all().is_err() {
            self.faults = self.faults.saturating_add(1);
            return Err(Failed);
        }
        match TcpListener::bind(self.rt, host) {
            Ok(listener) => {
                let _ = listener.set_nonblocking(true);
                match listener.local_addr() {
                    Ok(address) => self.report.listens(address),
                    Err(_) => {}
                }
                self.door.open(self.rt, listener);
                Ok(())
            }
            Err(error) => {
                self.report.refuses(host, &error);
                self.faults = self.faults.saturating_add(1);
                Err(Failed)
            }
        }
    }

    /// Hands out the station's place at once. It fails where there is none.
    fn seat_station(
        &mut self,
        _alloc: Global,
        station: u32,
    ) -> Result<CrewLine<'a, R, W>, HallFault> {
        self.seated.make_room(station)?;
        let faults = match self.seated.get(station) {
            Some(faults) => faults,
            None => 0,
        };
        match self.places.get(station as usize) {
            Some(place) => {
                self.seated.set(station, faults);
                Ok(CrewLine::new(self.rt, place, station, faults, self.report))
            }
            None => {
                self.report.station(station, "has no place");
                self.faults = self.faults.saturating_add(1);
                Err(HallFault::Failed)
            }
        }
    }

    /// Keeps the line's counts.
    fn stand_up(&mut self, station: u32, line: CrewLine<'a, R, W>) {
        self.seated.set(station, line.faults());
    }
}
