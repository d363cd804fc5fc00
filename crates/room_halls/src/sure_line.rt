// A line over memory that never fails.
ghost use Rattle.std.specs.Prelude.{◌≡◌, ◌<◌, ◌≤◌, ◌↔◌, [], None, length, take, refl, Some, IfOk, IsOk, OnOk};
ghost use Rattle.room_ports.specs.Bytes.{Gives, Takes};
ghost use Rattle.room_ports.specs.Pieces.{Reads, joined};
ghost use Rattle.room_ports.specs.Sides.{owned};
ghost use Rattle.room_ports.specs.States.{kept};

use crate::HallLine;
use room_ports::{Failed, Line, Sink, Source, SureSink, SureSource};
use std::alloc::Global;

/// One line of a source and a sink over memory that never fail.
#[derive(Drop)]
pub struct SurePair {
    /// What reads of the line come from.
    pub input: SureSource,
    /// What writes to the line go to.
    pub output: SureSink,
}

// A line whose input is at its end and whose output tells nothing.
pub(crate) fn blank_line(alloc: Global) -> SurePair
    ensures input { result.input ≡ [] }
    ensures output { result.output.bytes ≡ None }
{
    SurePair {
        input: SureSource::new(Vec::new(alloc)),
        output: SureSink::untold(),
    }
}

impl Source for SurePair {
    ghost left = { λ line. ⟦<SureSource as Source>⟧.left line.input };

    ghost read_faults = { λ _. 0 };

    ghost as_sink = { λ line. record {
      taken = ⟦<SureSink as Sink>⟧.taken line.output;
      faults = 0;
      lent = owned;
    } };

    /// Reads from its source, which never fails.
    fn read(&mut self, into: &mut [u8]) -> Result<usize, Failed>
        ensures sure { IsOk result }
        ensures reads { IfOk result (λ n. Reads self.old.input self.new.input into.old into.new n) }
        ensures output { self.new.output ≡ self.old.output }

        // What every source promises.
        ensures within { IfOk result (λ n. n ≤ length into.old) }
        ensures front { IfOk result (λ n.
            Gives (Some (joined self.old.input)) (Some (joined self.new.input)) (take n into.new)) }
        ensures end { IfOk result (λ n. 0 < length into.old → (n ≡ 0)
            ↔ (joined self.old.input ≡ [])) }
    {
        self.input.read(into)
    }
}

impl Sink for SurePair {
    ghost taken = { λ line. ⟦<SureSink as Sink>⟧.taken line.output };

    ghost write_faults = { λ _. 0 };

    ghost as_source = { λ line. record {
      left = ⟦<SureSource as Source>⟧.left line.input;
      faults = 0;
      lent = owned;
    } };

    /// Writes to its sink, which takes the whole piece and never fails.
    fn write(&mut self, piece: &[u8]) -> Result<usize, Failed>
        ensures sure { IsOk result }
        ensures whole { IfOk result (λ n. n ≡ length piece.now) }
        ensures kept { self.new.output.bytes ≡ kept self.old.output.room self.old.output.bytes
            piece.now }
        ensures input { self.new.input ≡ self.old.input }

        // What every sink promises.
        ensures takes { OnOk result (Takes self.old.output.bytes self.new.output.bytes piece.now) }
    {
        self.output.write(piece)
    }
}

impl Line for SurePair {
    ghost lent = { λ _. owned };

    ghost source_side = { λ line. refl };

    ghost sink_side = { λ line. refl };
}

// Over memory nobody waits for the end of a session.
impl HallLine for SurePair {
    /// Does nothing.
    fn leave(&mut self) {}
}
