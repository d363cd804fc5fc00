// A hall over memory.
ghost use Rattle.std.specs.Prelude.{◌≡◌, ◌≢◌, ◌≤◌, ◌<◌, ◌↔◌, ◌⊎◌, [], ℕ, true, false, Some, slice_set, Err, IfOk, IsErr, OnOk, OnErr};
ghost use Rattle.room_ports.specs.Calls.{FailsNext, no_calls, passed, failed};
ghost use Rattle.room_ports.specs.Counts.{HasRisen, counted};
ghost use Rattle.room_halls.specs.declared.hall.HallFault.TheVariants as faults;
ghost use Rattle.room_halls.specs.Lines.{HasLine, mem_hall_tells, mem_line_told};
ghost use Rattle.room_halls.specs.Stations.{CountsSeat, NoneMoves, OpensAt, OthersStay, hall_told, note_of};

use crate::addresses::Addresses;
use crate::seats::Seats;
use crate::{Hall, HallFault};
use room_ports::{Failed, FailingCalls, MemLine, MemSink, MemSource};
use std::alloc::Global;
use std::marker::Model;
use std::mem;

/// A hall of lines over memory, which fails where it is told to.
#[derive(Drop)]
pub struct MemHall {
    alloc: Global,
    lines: Vec<MemLine>,
    away: Seats<bool>,
    calls: FailingCalls,
    faults: u64,
    addresses: Addresses,
}

impl Model for MemHall {
    ghost use Rattle.std.specs.Prelude.{◌≤◌, length, vec_len};
    ghost use Rattle.room_halls.specs.Lines.{HallState};

    ghost Value = { HallState };

    ghost view = { λ h. record {
      lines = h.lines.items;
      away = h.away;
      calls = h.calls;
      faults = h.faults;
      opened = h.addresses;
    } };

    ghost invariant = { λ h. length h.away ≤ vec_len h.lines };
}

impl MemHall {
    /// A hall that gives station s the line s of these. Its calls of `open` and `seat_station` are numbered from 1 in
    /// one sequence, and those whose numbers are in `failing` fail.
    pub fn new(alloc: Global, lines: Vec<MemLine>, failing: Vec<u32>) -> MemHall
        ensures lines { result.lines ≡ lines.items }
        ensures calls { result.calls ≡ no_calls failing.items }
        ensures away { result.away ≡ [] }
        ensures faults { (⟦<MemHall as Hall>⟧.told result).faults ≡ 0 }
        ensures opened { result.opened ≡ Some [] }
    {
        MemHall {
            alloc,
            lines,
            away: Seats::new(alloc),
            calls: FailingCalls::new(failing),
            faults: 0,
            addresses: Addresses::none(alloc),
        }
    }
}

impl Hall for MemHall {
    /// A source and a sink over memory, which fail where they are told to.
    type Line = MemLine;

    ghost told = { λ h. hall_told (mem_hall_tells h) h.faults h.opened };

    /// Fails exactly where the number of the call is listed.
    fn open(&mut self, address: &str) -> Result<(), Failed>
        ensures fails { IsErr result ↔ FailsNext self.old.calls }
        ensures passed { OnOk result (self.new.calls ≡ passed self.old.calls) }
        ensures failed { OnErr result (self.new.calls ≡ failed self.old.calls) }
        ensures stays { (self.new.lines ≡ self.old.lines) × (self.new.away ≡ self.old.away) }

        // What every hall promises.
        ensures opened { OnOk result (OpensAt self.old.opened self.new.opened address.now) }
        ensures unopened { OnErr result (self.new.opened ≡ self.old.opened) }
        ensures cause { OnErr result (HasRisen self.old.faults self.new.faults) }
        ensures quiet { OnOk result (self.new.faults ≡ self.old.faults) }
    {
        match self.calls.next() {
            Ok(()) => {
                self.addresses.add(self.alloc, address);
                Ok(())
            }
            Err(_) => {
                self.faults = self.faults.saturating_add(1);
                Err(Failed)
            }
        }
    }

    /// Fails exactly where the number of the call is listed, or the station has no line or its line is away.
    fn seat_station(&mut self, alloc: Global, station: u32) -> Result<MemLine, HallFault>
        // Which calls fail, and how they are counted.
        ensures fails { (result ≡ Err faults.Failed)
            ↔ (FailsNext self.old.calls ⊎ (HasLine self.old station → ⊥)) }
        ensures listed { FailsNext self.old.calls → self.new.calls ≡ failed self.old.calls }
        ensures passed { FailsNext self.old.calls ⊎ (self.new.calls ≡ passed self.old.calls) }

        // Of the station alone it is noted that its line is away; where none was handed out, of none.
        ensures away { OnOk result (note_of self.new.away station ≡ Some true) }
        ensures here { OnOk result ((s : ℕ) → s ≢ station
            → note_of self.new.away s ≡ note_of self.old.away s) }
        ensures unmoved { OnErr result ((s : ℕ)
            → note_of self.new.away s ≡ note_of self.old.away s) }
        ensures stays { OnErr result (NoneMoves (mem_hall_tells self.old)
            (mem_hall_tells self.new)) }

        // What every hall promises.
        ensures line { IfOk result (λ l. (mem_hall_tells self.old station).line ≡ mem_line_told l) }
        ensures seated { OnOk result ((mem_hall_tells self.new station).seated ≡ true) }
        ensures others { OnOk result (OthersStay station (mem_hall_tells self.old)
            (mem_hall_tells self.new)) }
        ensures counts { CountsSeat result self.old.faults self.new.faults }
        ensures opened { self.new.opened ≡ self.old.opened }
    {
        match self.calls.next() {
            Ok(()) => {}
            Err(_) => {
                self.faults = self.faults.saturating_add(1);
                return Err(HallFault::Failed);
            }
        }
        if station as usize >= self.lines.len() || self.away.get(station) == Some(true) {
            self.faults = self.faults.saturating_add(1);
            return Err(HallFault::Failed);
        }
        self.away.make_room(station)?;
        self.away.set(station, true);
        let place = &mut self.lines[station as usize];
        Ok(mem::replace(place, blank(alloc)))
    }

    /// Takes back the station's line, which the next `seat_station` hands out again.
    fn stand_up(&mut self, station: u32, line: MemLine)
        requires { (mem_hall_tells self.old station).seated ≡ true }
        ensures back { HasLine self.new station }
        ensures away { self.new.away ≡ slice_set self.old.away station (Some false) }
        ensures calls { self.new.calls ≡ self.old.calls }

        // What every hall promises.
        ensures line { (mem_hall_tells self.new station).line ≡ mem_line_told line }
        ensures seated { (mem_hall_tells self.new station).seated ≡ true }
        ensures others { OthersStay station (mem_hall_tells self.old) (mem_hall_tells self.new) }
        ensures quiet { self.new.faults ≡ self.old.faults }
        ensures opened { self.new.opened ≡ self.old.opened }
    {
        self.away.set(station, false);
        self.lines[station as usize] = line;
    }
}

// What stands in the place of a line that is away.
fn blank(alloc: Global) -> MemLine {
    MemLine {
        input: MemSource::new(Vec::new(alloc), Vec::new(alloc)),
        output: MemSink::new(alloc, Vec::new(alloc)),
    }
}
