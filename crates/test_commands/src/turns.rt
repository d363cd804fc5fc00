// Lines and a gate that wait until others have done something: by turns, and not by time.
ghost use Rattle.room_ports.specs.Sides.{owned};
ghost use Rattle.std.specs.Prelude.{refl};

use room_halls::{Hall, HallFault, HallLine, MemHall};
use room_ports::{Failed, Gate, Line, MemLine, Sink, Source};
use std::alloc::Global;
use std::sync::Arc;
use std::sync::atomic::{AtomicBool, AtomicU32, Ordering};

// How often one that waits looks, before it goes on even so.
const MOST_LOOKS: u32 = 1_000_000_000;

/// What the stations have done: of each whether an edit has come to the gate and whether a reply was written, by the
/// bit of its number.
#[derive(Drop)]
pub(crate) struct Deeds {
    came: AtomicU32,
    replied: AtomicU32,
    left: AtomicU32,
    opened: AtomicU32,
    misused: AtomicBool,
    gave_up: AtomicBool,
}

/// What is waited for: an edit of a station at the gate, its first reply, or the ends of so many sessions.
#[derive(Clone, Copy)]
pub(crate) enum Until {
    Comes(u32),
    Replied(u32),
    Left(u32),
}

/// A station that waits.
#[derive(Clone, Copy)]
pub(crate) struct Hold {
    pub(crate) station: u32,
    pub(crate) until: Until,
}

impl Deeds {
    /// Nothing was done yet.
    pub(crate) fn none() -> Deeds {
        Deeds {
            came: AtomicU32::new(0),
            replied: AtomicU32::new(0),
            left: AtomicU32::new(0),
            opened: AtomicU32::new(0),
            misused: AtomicBool::new(false),
            gave_up: AtomicBool::new(false),
        }
    }

    /// Whether one that waited went on before it had come.
    pub(crate) fn gave_up(&self) -> bool {
        self.gave_up.load(Ordering::SeqCst)
    }

    /// Whether the hall was opened twice, or at another address than the one that the words name, or a line was read or
    /// written after it was left.
    pub(crate) fn misused(&self) -> bool {
        self.misused.load(Ordering::SeqCst) || self.opened.load(Ordering::SeqCst) > 1
    }

    // Whether what is waited for has been done.
    fn has_come(&self, until: Until) -> bool {
        match until {
            Until::Comes(station) => is_noted(&self.came, station),
            Until::Replied(station) => is_noted(&self.replied, station),
            Until::Left(count) => self.left.load(Ordering::SeqCst) >= count,
        }
    }

    // Waits until something has been done, or until it has looked often enough.
    fn wait(&self, until: Until) {
        for _ in 0..MOST_LOOKS {
            if self.has_come(until) {
                return;
            }
        }
        self.gave_up.store(true, Ordering::SeqCst);
    }

    // Waits for what this station is held for, if anything.
    fn wait_for(&self, station: u32, holds: &[Hold]) {
        for hold in holds {
            if hold.station == station {
                self.wait(hold.until);
            }
        }
    }
}

// The bit of a station, of the first 16.
fn bit(station: u32) -> u32 {
    match station < 16 {
        true => 1 << station,
        false => 0,
    }
}

// Whether a station is noted.
fn is_noted(notes: &AtomicU32, station: u32) -> bool {
    notes.load(Ordering::SeqCst) & bit(station) != 0
}

// Notes a station.
fn note(notes: &AtomicU32, station: u32) {
    notes.fetch_or(bit(station), Ordering::SeqCst);
}

/// A gate at which some stations wait.
#[derive(Clone, Copy)]
pub(crate) struct HoldingGate<'a> {
    pub(crate) deeds: &'a Deeds,
    pub(crate) holds: &'a [Hold],
}

impl Gate for HoldingGate<'_> {
    // Notes that an edit has come, and holds it as long as it is to be held.
    fn at_commit(&self, station: u32) {
        note(&self.deeds.came, station);
        self.deeds.wait_for(station, self.holds);
    }
}

/// A line over memory, whose station may wait before its first read.
#[derive(Drop)]
pub(crate) struct HeldLine {
    pub(crate) line: MemLine,
    station: u32,
    hold: Option<Until>,
    has_left: bool,
    deeds: Arc<Deeds, Global>,
}

impl Source for HeldLine {
    ghost left = { λ l. ⟦<MemLine as Source>⟧.left l.line };

    ghost read_faults = { λ l. ⟦<MemLine as Source>⟧.read_faults l.line };

    ghost as_sink = { λ l. ⟦<MemLine as Source>⟧.as_sink l.line };

    // Waits where the station is held, and then reads.
    fn read(&mut self, into: &mut [u8]) -> Result<usize, Failed> {
        if self.has_left {
            self.deeds.misused.store(true, Ordering::SeqCst);
        }
        match self.hold {
            Some(until) => self.deeds.wait(until),
            None => {}
        }
        self.line.read(into)
    }
}

impl Sink for HeldLine {
    ghost taken = { λ l. ⟦<MemLine as Sink>⟧.taken l.line };

    ghost write_faults = { λ l. ⟦<MemLine as Sink>⟧.write_faults l.line };

    ghost as_source = { λ l. ⟦<MemLine as Sink>⟧.as_source l.line };

    // Writes, and notes that a reply was written.
    fn write(&mut self, piece: &[u8]) -> Result<usize, Failed> {
        if self.has_left {
            self.deeds.misused.store(true, Ordering::SeqCst);
        }
        let written = self.line.write(piece);
        note(&self.deeds.replied, self.station);
        written
    }
}

impl Line for HeldLine {
    ghost lent = { λ _. owned };

    ghost source_side = { λ line. refl };

    ghost sink_side = { λ line. refl };
}

impl HallLine for HeldLine {
    // Counts the station that has ended.
    fn leave(&mut self) {
        self.has_left = true;
        self.deeds.left.fetch_add(1, Ordering::SeqCst);
    }
}

/// A hall over memory, at whose lines some stations wait.
#[derive(Drop)]
pub(crate) struct HeldHall {
    pub(crate) hall: MemHall,
    pub(crate) holds: Vec<Hold>,
    pub(crate) deeds: Arc<Deeds, Global>,
}

impl HeldHall {
    // What a station waits for before it reads, if it is held.
    fn hold_of(&self, station: u32) -> Option<Until> {
        for hold in &self.holds {
            if hold.station == station {
                return Some(hold.until);
            }
        }
        None
    }
}

impl Hall for HeldHall {
    type Line = HeldLine;

    ghost told = { λ h. ⟦<MemHall as Hall>⟧.told h.hall };

    // Opens the hall, and notes a second opening or another address.
    fn open(&mut self, address: &str) -> Result<(), Failed> {
        self.deeds.opened.fetch_add(1, Ordering::SeqCst);
        if address != "hall" {
            self.deeds.misused.store(true, Ordering::SeqCst);
        }
        self.hall.open(address)
    }

    // Seats a station over a line that may be held.
    fn seat_station(&mut self, alloc: Global, station: u32) -> Result<HeldLine, HallFault> {
        let deeds = match Arc::try_clone(&self.deeds) {
            Ok(deeds) => deeds,
            Err(_) => return Err(HallFault::Memory),
        };
        let hold = self.hold_of(station);
        match self.hall.seat_station(alloc, station) {
            Ok(line) => Ok(HeldLine {
                line,
                station,
                hold,
                has_left: false,
                deeds,
            }),
            Err(fault) => Err(fault),
        }
    }

    // Gives the line back to the hall over memory.
    fn stand_up(&mut self, station: u32, line: HeldLine) {
        self.hall.stand_up(station, line.line)
    }
}
