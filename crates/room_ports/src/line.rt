// Lines that are made of a source and a sink.
ghost use Rattle.std.specs.Prelude.{◌≡◌, ◌<◌, ◌≤◌, ◌↔◌, [], length, take, refl, Some, IfOk, IsErr, OnOk, OnErr};
ghost use Rattle.room_ports.specs.Bytes.{Gives, Takes};
ghost use Rattle.room_ports.specs.Calls.{FailsNext, passed, failed};
ghost use Rattle.room_ports.specs.Counts.{HasRisen};
ghost use Rattle.room_ports.specs.Pieces.{Reads, joined};
ghost use Rattle.room_ports.specs.Sides.{owned};

use crate::{Failed, Line, MemSink, MemSource, Sink, Source};

/// One line of a source and a sink that are lent.
#[derive(Drop)]
pub struct Pair<'a, S, K> {
    /// What reads of the line come from.
    pub input: &'a mut S,
    /// What writes to the line go to.
    pub output: &'a mut K,
}

impl<S: Source, K: Sink> Source for Pair<'_, S, K> {
    ghost left = { λ line. S.left line.input.now };

    ghost read_faults = { λ line. S.read_faults line.input.now };

    ghost as_sink = { λ line. record {
      taken = K.taken line.output.now;
      faults = K.write_faults line.output.now;
      lent = record { input = line.input.ghost_name; output = line.output.ghost_name };
    } };

    /// Reads from the source that is lent; the sink is as it was.
    fn read(&mut self, into: &mut [u8]) -> Result<usize, Failed> {
        self.input.read(into)
    }
}

impl<S: Source, K: Sink> Sink for Pair<'_, S, K> {
    ghost taken = { λ line. K.taken line.output.now };

    ghost write_faults = { λ line. K.write_faults line.output.now };

    ghost as_source = { λ line. record {
      left = S.left line.input.now;
      faults = S.read_faults line.input.now;
      lent = record { input = line.input.ghost_name; output = line.output.ghost_name };
    } };

    /// Writes to the sink that is lent; the source is as it was.
    fn write(&mut self, piece: &[u8]) -> Result<usize, Failed> {
        self.output.write(piece)
    }
}

impl<S: Source, K: Sink> Line for Pair<'_, S, K> {
    ghost lent = { λ line. record {
      input = line.input.ghost_name;
      output = line.output.ghost_name;
    } };

    ghost source_side = { λ line. refl };

    ghost sink_side = { λ line. refl };
}

/// One line of a source and a sink over memory.
#[derive(Drop)]
pub struct MemLine {
    /// What reads of the line come from.
    pub input: MemSource,
    /// What writes to the line go to.
    pub output: MemSink,
}

impl Source for MemLine {
    ghost left = { λ line. ⟦<MemSource as Source>⟧.left line.input };

    ghost read_faults = { λ line. ⟦<MemSource as Source>⟧.read_faults line.input };

    ghost as_sink = { λ line. record {
      taken = ⟦<MemSink as Sink>⟧.taken line.output;
      faults = ⟦<MemSink as Sink>⟧.write_faults line.output;
      lent = owned;
    } };

    /// Reads from its source, and fails exactly where the number of the read is listed there.
    fn read(&mut self, into: &mut [u8]) -> Result<usize, Failed>
        // Which reads fail, what the others give, and that the sink stays.
        ensures fails { IsErr result ↔ FailsNext self.old.input.calls }
        ensures reads { IfOk result
            (λ n. Reads self.old.input.pieces self.new.input.pieces into.old into.new n) }
        ensures passed { OnOk result (self.new.input.calls ≡ passed self.old.input.calls) }
        ensures failed { OnErr result (self.new.input.calls ≡ failed self.old.input.calls) }
        ensures stays { OnErr result (self.new.input.pieces ≡ self.old.input.pieces) }
        ensures output { self.new.output ≡ self.old.output }

        // What every source promises.
        ensures within { IfOk result (λ n. n ≤ length into.old) }
        ensures front { IfOk result (λ n.
            Gives (Some (joined self.old.input.pieces)) (Some (joined self.new.input.pieces))
            (take n into.new)) }
        ensures end { IfOk result (λ n.
            0 < length into.old → (n ≡ 0) ↔ (joined self.old.input.pieces ≡ [])) }
        ensures cause { OnErr result (HasRisen self.old.input.calls.faults
            self.new.input.calls.faults) }
        ensures count { self.old.input.calls.faults ≤ self.new.input.calls.faults }
    {
        self.input.read(into)
    }
}

impl Sink for MemLine {
    ghost taken = { λ line. ⟦<MemSink as Sink>⟧.taken line.output };

    ghost write_faults = { λ line. ⟦<MemSink as Sink>⟧.write_faults line.output };

    ghost as_source = { λ line. record {
      left = ⟦<MemSource as Source>⟧.left line.input;
      faults = ⟦<MemSource as Source>⟧.read_faults line.input;
      lent = owned;
    } };

    /// Writes to its sink, and fails exactly where the number of the write is listed there.
    fn write(&mut self, piece: &[u8]) -> Result<usize, Failed>
        // Which writes fail, that the others take the whole piece, and that the source stays.
        ensures fails { IsErr result ↔ FailsNext self.old.output.calls }
        ensures whole { IfOk result (λ n. n ≡ length piece.now) }
        ensures takes { OnOk result (Takes self.old.output.bytes self.new.output.bytes piece.now) }
        ensures passed { OnOk result (self.new.output.calls ≡ passed self.old.output.calls) }
        ensures failed { OnErr result (self.new.output.calls ≡ failed self.old.output.calls) }
        ensures stays { OnErr result (self.new.output.bytes ≡ self.old.output.bytes) }
        ensures input { self.new.input ≡ self.old.input }

        // What every sink promises.
        ensures cause { OnErr result (HasRisen self.old.output.calls.faults
            self.new.output.calls.faults) }
        ensures count { self.old.output.calls.faults ≤ self.new.output.calls.faults }
    {
        self.output.write(piece)
    }
}

impl Line for MemLine {
    ghost lent = { λ _. owned };

    ghost source_side = { λ line. refl };

    ghost sink_side = { λ line. refl };
}
