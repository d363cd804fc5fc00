// A hall over memory that never fails.
ghost use Rattle.std.specs.Prelude.{◌≡◌, ◌≢◌, ◌≤◌, ◌<◌, ℕ, [], true, Some, IfOk, IfErr, IsOk, OnOk, OnErr, slice_get, vec_len};
ghost use Rattle.room_halls.specs.declared.hall.HallFault.TheVariants as faults;
ghost use Rattle.room_halls.specs.Stations.{CountsSeat, NoneMoves, OpensAt, OthersStay, hall_told, note_of};
ghost use Rattle.room_halls.specs.Lines.{sure_hall_tells, sure_line_told, told_or_blank};

use crate::addresses::Addresses;
use crate::seats::Seats;
use crate::sure_line::blank_line;
use crate::{Hall, HallFault, SurePair};
use room_ports::{Failed, Memory};
use std::alloc::Global;
use std::marker::Model;
use std::mem;

/// A hall of lines over memory that never fail. It never answers `Failed`: a station without a line gets one whose
/// input is at its end and whose output tells nothing.
#[derive(Drop)]
pub struct SureHall {
    alloc: Global,
    lines: Vec<SurePair>,
    seated: Seats<()>,
    addresses: Addresses,
}

impl Model for SureHall {
    ghost use Rattle.std.specs.Prelude.{◌≤◌, length, vec_len};
    ghost use Rattle.room_halls.specs.Lines.{SureHallState};

    ghost Value = { SureHallState };

    ghost view = { λ h. record { lines = h.lines.items; seated = h.seated; opened = h.addresses } };

    ghost invariant = { λ h. length h.seated ≤ vec_len h.lines };
}

impl SureHall {
    /// A hall that gives station s the line s of these.
    pub fn new(alloc: Global, lines: Vec<SurePair>) -> SureHall
        ensures lines { result.lines ≡ lines.items }
        ensures seated { result.seated ≡ [] }
        ensures opened { result.opened ≡ Some [] }
    {
        SureHall {
            alloc,
            lines,
            seated: Seats::new(alloc),
            addresses: Addresses::none(alloc),
        }
    }
}

impl Hall for SureHall {
    /// A source and a sink over memory that never fail.
    type Line = SurePair;

    ghost told = { λ h. hall_told (sure_hall_tells h) 0 h.opened };

    /// Opens, and no line changes.
    fn open(&mut self, address: &str) -> Result<(), Failed>
        ensures sure { IsOk result }
        ensures stays { (self.new.lines ≡ self.old.lines) × (self.new.seated ≡ self.old.seated) }

        // What every hall promises.
        ensures opened { OpensAt self.old.opened self.new.opened address.now }
    {
        self.addresses.add(self.alloc, address);
        Ok(())
    }

    /// Seats a station, whether it has a line or not. Where memory is refused nothing that is told changes.
    fn seat_station(&mut self, alloc: Global, station: u32) -> Result<SurePair, HallFault>
        ensures sure { IfErr result (λ e. e ≡ faults.Memory) }
        ensures stays { OnErr result (NoneMoves (sure_hall_tells self.old)
            (sure_hall_tells self.new)) }
        ensures here { (s : ℕ) → s ≢ station
            → note_of self.new.seated s ≡ note_of self.old.seated s }

        // What every hall promises.
        ensures line { IfOk result (λ l. (sure_hall_tells self.old station).line
            ≡ sure_line_told l) }
        ensures seated { OnOk result ((sure_hall_tells self.new station).seated ≡ true) }
        ensures others { OnOk result (OthersStay station (sure_hall_tells self.old)
            (sure_hall_tells self.new)) }
        ensures counts { CountsSeat result 0 0 }
        ensures opened { self.new.opened ≡ self.old.opened }
    {
        make_lines(alloc, &mut self.lines, station)?;
        self.seated.make_room(station)?;
        self.seated.set(station, ());
        let place = &mut self.lines[station as usize];
        Ok(mem::replace(place, blank_line(alloc)))
    }

    /// Takes back the station's line, which the next `seat_station` hands out again.
    fn stand_up(&mut self, station: u32, line: SurePair) {
        self.lines[station as usize] = line;
    }
}

// Makes blank lines for the stations up to this one that have none. What is told of a station does not change.
fn make_lines(alloc: Global, lines: &mut Vec<SurePair>, station: u32) -> Result<(), Memory>
    ensures room { OnOk result (station < vec_len lines.new) }
    ensures grows { vec_len lines.old ≤ vec_len lines.new }
    ensures same { (s : ℕ) → told_or_blank sure_line_told (slice_get lines.new.items s)
        ≡ told_or_blank sure_line_told (slice_get lines.old.items s) }
{
    while lines.len() <= station as usize {
        lines.push(blank_line(alloc))?;
    }
    Ok(())
}
