// The sessions of several stations of one room, each over a line of its own and in a thread of its own.
ghost use Rattle.std.specs.Prelude.{◌≡◌, ℕ, None, Some, length, slice_get};
ghost use Rattle.served_rooms.specs.Seated.{IsReady, IsServedIn, SeatedState};

use cut_room::Room;
use cut_steps::{CutObject, CutPart};
use edit_journal::{Naming, Pass};
use room_halls::HallLine;
use room_keepers::Keeping;
use room_ports::{Gate, Line};
use station_sessions::{End, Session, Setting, serve_session};
use std::alloc::Global;
use std::marker::Model;
use std::sync::Wait;
use std::thread;
use std::thread::Threads;

/// A station with its pass and its line, how its session ended, and what it took when it last asked for entries to be
/// kept. Contracts see what the pass knows, what the line tells, and what is known to be kept.
#[derive(Drop)]
pub(crate) struct SeatedStation<L: Line, J: Naming<CutObject, CutPart>, P: Keeping<CutObject, J>> {
    pub(crate) pass: Option<Pass<CutObject, J>>,
    line: L,
    end: End,
    taken: Option<P::Taken>,
}

impl<L: Line, J: Naming<CutObject, CutPart>, P: Keeping<CutObject, J>> Model
    for SeatedStation<L, J, P> {
    ghost use Rattle.station_sessions.specs.Outside.{outside};
    ghost use Rattle.served_rooms.specs.Seated.{SeatedState};

    ghost Value = { SeatedState };

    ghost view = { λ s. record {
      pass = s.pass;
      line = outside (L.left s.line) (L.read_faults s.line) (L.taken s.line)
          (L.write_faults s.line);
      end = s.end;
      holding = record { held = P.upto s.taken; failures = P.failures s.taken };
    } };
}

/// What is left of a station when its session has ended. Contracts see what its pass knows, how the session ended, and
/// what is known to be kept.
#[derive(Drop)]
pub struct Left<J: Naming<CutObject, CutPart>, P: Keeping<CutObject, J>> {
    pass: Pass<CutObject, J>,
    end: End,
    taken: Option<P::Taken>,
}

impl<J: Naming<CutObject, CutPart>, P: Keeping<CutObject, J>> Model for Left<J, P> {
    ghost use Rattle.served_rooms.specs.Seated.{LeftState};

    ghost Value = { LeftState };

    ghost view = { λ l. record {
      pass = l.pass;
      end = l.end;
      holding = record { held = P.upto l.taken; failures = P.failures l.taken };
    } };
}

impl<J: Naming<CutObject, CutPart>, P: Keeping<CutObject, J>> Left<J, P> {
    ghost use Rattle.std.specs.Prelude.{◌≡◌};

    /// The station's number.
    pub(crate) fn station(&self) -> u32
        ensures { result ≡ self.now.pass.number }
    {
        self.pass.station()
    }

    /// How the session ended.
    pub(crate) fn end(&self) -> End
        ensures { result ≡ self.now.end }
    {
        self.end
    }

    /// The station's pass, and what it took when it last asked for entries to be kept.
    pub fn into_parts(self) -> (Pass<CutObject, J>, Option<P::Taken>)
        ensures pass { result.0 ≡ self.pass }
        ensures held { P.upto result.1 ≡ self.holding.held }
        ensures failures { P.failures result.1 ≡ self.holding.failures }
    {
        let Left {
            pass,
            end: _,
            taken,
        } = self;
        (pass, taken)
    }
}

impl<L: Line, J: Naming<CutObject, CutPart>, P: Keeping<CutObject, J>> SeatedStation<L, J, P> {
    ghost use Rattle.std.specs.Prelude.{◌≡◌, Some, IsSome};
    ghost use Rattle.station_sessions.specs.Outside.{outside};

    /// A station before its session.
    pub(crate) fn new(pass: Pass<CutObject, J>, line: L) -> SeatedStation<L, J, P>
        ensures pass { result.pass ≡ Some pass }
        ensures line { result.line
            ≡ outside (L.left line) (L.read_faults line) (L.taken line) (L.write_faults line) }
    {
        SeatedStation {
            pass: Some(pass),
            line,
            end: End::Ended,
            taken: None,
        }
    }

    /// Its line, and what is left of it.
    pub(crate) fn into_parts(self) -> (L, Left<J, P>)
        requires pass { IsSome self.pass }
        ensures line { self.line ≡ outside (L.left result.0) (L.read_faults result.0)
            (L.taken result.0) (L.write_faults result.0) }
        ensures pass { self.pass ≡ Some result.1.pass }
        ensures end { result.1.end ≡ self.end }
        ensures holding { result.1.holding ≡ self.holding }
    {
        let SeatedStation {
            pass,
            line,
            end,
            taken,
        } = self;
        match pass {
            Some(pass) => (line, Left { pass, end, taken }),
            None => unreachable!(),
        }
    }
}

impl<L: HallLine, J: Naming<CutObject, CutPart>, P: Keeping<CutObject, J>> SeatedStation<L, J, P> {
    ghost use Rattle.std.specs.Prelude.{◌≡◌, None, Some};

    /// Serves the session of the station.
    fn serve<R: Wait, G: Gate>(
        &mut self,
        rt: &R,
        alloc: Global,
        room: &Room<CutObject, J>,
        gate: &G,
        keeper: &P,
        setting: Setting,
    )
        requires room { J.opening ≡ Some (room.now.object, room.now.parts) }
        requires ready { IsReady room.now self.old.pass }
        ensures { IsServedIn room.now setting.counting setting.start (P.upto None) P.may_fail
            self.old self.new }
    {
        let pass = match self.pass.take() {
            Some(pass) => pass,
            None => unreachable!(),
        };
        let Session { pass, end, taken } = serve_session(
            rt,
            alloc,
            room,
            gate,
            keeper,
            pass,
            setting,
            &mut self.line,
        );
        self.pass = Some(pass);
        self.end = end;
        self.taken = taken;
        self.line.leave();
    }
}

/// Serves the sessions of these stations, all at once.
pub(crate) fn serve_all<
    R: Threads + Wait + Sync,
    G: Gate + Sync,
    J: Naming<CutObject, CutPart> + Send + Sync,
    P: Keeping<CutObject, J> + Sync,
    L: HallLine + Send,
>(
    rt: &R,
    alloc: Global,
    room: &Room<CutObject, J>,
    gate: &G,
    keeper: &P,
    setting: Setting,
    stations: &mut [SeatedStation<L, J, P>],
)
    requires room { J.opening ≡ Some (room.now.object, room.now.parts) }
    requires ready { (k : ℕ) (s : SeatedState) → slice_get stations.old k ≡ Some s
        → IsReady room.now s.pass }
    ensures served { (k : ℕ) (s t : SeatedState) → slice_get stations.old k ≡ Some s
        → slice_get stations.new k ≡ Some t
        → IsServedIn room.now setting.counting setting.start (P.upto None) P.may_fail s t }
    ensures all { length stations.new ≡ length stations.old }
{
    let threads = stations.len().max(1);
    let served = |_: usize, station: &mut SeatedStation<L, J, P>|
        requires { (J.opening ≡ Some (room.now.object, room.now.parts))
            × IsReady room.now station.old.pass }
        ensures { IsServedIn room.entry.now setting.counting setting.start
            (P.upto None) P.may_fail station.old station.new }
    { station.serve(rt, alloc, room, gate, keeper, setting) };
    thread::for_each_mut(rt, stations, threads, &served);
}
