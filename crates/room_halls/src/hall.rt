// A hall: a line for each station of a room.
ghost use Rattle.std.specs.Prelude.{◌≡◌, true, IfOk, OnOk, OnErr};
ghost use Rattle.room_ports.specs.Counts.{HasRisen};
ghost use Rattle.room_halls.specs.declared.hall.HallFault.TheVariants as faults;
ghost use Rattle.room_halls.specs.Stations.{CountsSeat, HallTold, NoneMoves, OpensAt, OthersStay, line_told};

use room_ports::{Failed, Line, MemLine, Memory};
use std::alloc::{AllocError, AllocFailed, Global};
use std::error::Error;
use std::fmt;

/// Why a station was not seated.
#[derive(Clone, Copy, Debug, PartialEq, Eq)]
pub enum HallFault {
    /// No line came, or there is none for this station. The hall has counted the fault.
    Failed,
    /// There was no memory for the line.
    Memory,
}

impl fmt::Display for HallFault {
    fn fmt<W: fmt::Write>(&self, f: &mut fmt::Formatter<W>) -> fmt::Result {
        f.write_str(match self {
            HallFault::Failed => "the station could not be seated",
            HallFault::Memory => "out of memory",
        })
    }
}

impl Error for HallFault {}

impl From<Memory> for HallFault {
    ghost from_gives = { λ _ e. e ≡ faults.Memory };

    fn from(_: Memory) -> HallFault {
        HallFault::Memory
    }
}

impl From<AllocError> for HallFault {
    ghost from_gives = { λ _ e. e ≡ faults.Memory };

    fn from(_: AllocError) -> HallFault {
        HallFault::Memory
    }
}

impl<T: Drop> From<AllocFailed<T>> for HallFault {
    ghost from_gives = { λ _ e. e ≡ faults.Memory };

    fn from(_: AllocFailed<T>) -> HallFault {
        HallFault::Memory
    }
}

/// The line of a station of a hall.
pub trait HallLine: Line {
    /// To be called when the session over the line has ended; no clause says that nothing is read of it or written to it
    /// after that. What is told of the line stays.
    fn leave(&mut self)
        ensures read { (Self.left self.new ≡ Self.left self.old)
            × (Self.read_faults self.new ≡ Self.read_faults self.old) }
        ensures written { (Self.taken self.new ≡ Self.taken self.old)
            × (Self.write_faults self.new ≡ Self.write_faults self.old) };
}

// Over memory nobody waits for the end of a session.
impl HallLine for MemLine {
    /// Does nothing.
    fn leave(&mut self) {}
}

/// A line for each station, by the station's number from 0 on.
pub trait Hall {
    /// What a station speaks over.
    type Line: HallLine + Send + Drop;

    /// What is told of it: of each station, how often an `open` or a `seat_station` has failed, and the addresses at
    /// which it was opened.
    ghost told: { Self → HallTold };

    /// Opens the hall at an address, as `localhost:7000`. Nothing that is told of a station changes.
    fn open(&mut self, address: &str) -> Result<(), Failed>
        ensures opened { OnOk result (OpensAt (told self.old).opened (told self.new).opened
            address.now) }
        ensures unopened { OnErr result ((told self.new).opened ≡ (told self.old).opened) }
        ensures same { NoneMoves (told self.old).station (told self.new).station }
        ensures cause { OnErr result (HasRisen (told self.old).faults (told self.new).faults) }
        ensures quiet { OnOk result ((told self.new).faults ≡ (told self.old).faults) };

    /// Hands out the line of a station. It may wait for one. Where it hands out none, nothing that is
    /// told of a station changes.
    fn seat_station(&mut self, alloc: Global, station: u32) -> Result<Self::Line, HallFault>
        // The line stands as the hall told of it.
        ensures line { IfOk result (λ l. ((told self.old).station station).line
            ≡ line_told (Self.Line.left l) (Self.Line.taken l) (Self.Line.read_faults l)
            (Self.Line.write_faults l)) }
        ensures seated { OnOk result (((told self.new).station station).seated ≡ true) }
        ensures others { OnOk result (OthersStay station (told self.old).station
            (told self.new).station) }
        ensures stays { OnErr result (NoneMoves (told self.old).station (told self.new).station) }
        ensures counts { CountsSeat result (told self.old).faults (told self.new).faults }
        ensures opened { (told self.new).opened ≡ (told self.old).opened };

    /// Takes the line of a station back that was seated, and keeps what it took, has left and counted.
    fn stand_up(&mut self, station: u32, line: Self::Line)
        requires { ((told self.old).station station).seated ≡ true }
        ensures line { ((told self.new).station station).line
            ≡ line_told (Self.Line.left line) (Self.Line.taken line) (Self.Line.read_faults line)
            (Self.Line.write_faults line) }
        ensures seated { ((told self.new).station station).seated ≡ true }
        ensures others { OthersStay station (told self.old).station (told self.new).station }
        ensures quiet { (told self.new).faults ≡ (told self.old).faults }
        ensures opened { (told self.new).opened ≡ (told self.old).opened };
}
