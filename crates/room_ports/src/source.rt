// Sources over memory.
ghost use Rattle.std.specs.Prelude.{◌≡◌, ◌<◌, ◌≤◌, ◌↔◌, [], length, take, Some, IfSome, IfOk, IsOk, IsErr, OnOk, OnErr};
ghost use Rattle.room_ports.specs.Bytes.{Gives};
ghost use Rattle.room_ports.specs.Calls.{no_calls, FailsNext, passed, failed};
ghost use Rattle.room_ports.specs.Counts.{HasRisen};
ghost use Rattle.room_ports.specs.Pieces.{Reads, contents_of, joined};
ghost use Rattle.room_ports.specs.Sides.{no_sink};

use crate::calls::FailingCalls;
use crate::pieces::PieceReader;
use crate::{Failed, Source};
use std::marker::Model;

/// Gives pieces from memory, at most the rest of one piece a read, and fails where it is told to.
#[derive(Drop)]
pub struct MemSource {
    pieces: PieceReader,
    calls: FailingCalls,
}

impl Model for MemSource {
    ghost use Rattle.room_ports.specs.States.{SourceState};

    ghost Value = { SourceState };

    ghost view = { λ s. record { pieces = s.pieces; calls = s.calls } };
}

impl MemSource {
    /// A source of these pieces. Its reads are numbered from 1, and those whose numbers are in `failing` fail.
    pub fn new(pieces: Vec<Vec<u8>>, failing: Vec<u32>) -> Self
        ensures pieces { result.pieces ≡ contents_of pieces.items }
        ensures calls { result.calls ≡ no_calls failing.items }
        ensures left { ⟦<MemSource as Source>⟧.left result
            ≡ Some (joined (contents_of pieces.items)) }
        ensures faults { ⟦<MemSource as Source>⟧.read_faults result ≡ 0 }
    {
        MemSource {
            pieces: PieceReader::new(pieces),
            calls: FailingCalls::new(failing),
        }
    }
}

impl Source for MemSource {
    ghost left = { λ s. Some (joined s.pieces) };

    ghost read_faults = { λ s. s.calls.faults };

    ghost as_sink = { λ _. no_sink };

    /// Fails exactly where the number of the call is listed, and gives else the rest of the next piece that is not
    /// empty, or as much of it as `into` has room for.
    fn read(&mut self, into: &mut [u8]) -> Result<usize, Failed>
        ensures fails { IsErr result ↔ FailsNext self.old.calls }
        ensures reads { IfOk result
            (λ n. Reads self.old.pieces self.new.pieces into.old into.new n) }
        ensures passed { OnOk result (self.new.calls ≡ passed self.old.calls) }
        ensures failed { OnErr result (self.new.calls ≡ failed self.old.calls) }
        ensures stays { OnErr result (self.new.pieces ≡ self.old.pieces) }

        // What every source promises.
        ensures within { IfOk result (λ n. n ≤ length into.old) }
        ensures front { IfOk result (λ n.
            Gives (Some (joined self.old.pieces)) (Some (joined self.new.pieces))
            (take n into.new)) }
        ensures end { IfOk result (λ n. 0 < length into.old → (n ≡ 0)
            ↔ (joined self.old.pieces ≡ [])) }
        ensures cause { OnErr result (HasRisen self.old.calls.faults self.new.calls.faults) }
        ensures count { self.old.calls.faults ≤ self.new.calls.faults }
    {
        self.calls.next()?;
        Ok(self.pieces.read(into))
    }
}

/// Gives pieces from memory, at most the rest of one piece a read, and never fails.
#[derive(Drop)]
pub struct SureSource {
    pieces: PieceReader,
}

impl Model for SureSource {
    ghost use Rattle.std.specs.Prelude.{List, ℕ};

    ghost Value = { List (List ℕ) };

    ghost view = { λ s. s.pieces };
}

impl SureSource {
    /// A source of these pieces.
    pub fn new(pieces: Vec<Vec<u8>>) -> Self
        ensures pieces { result ≡ contents_of pieces.items }
        ensures left { ⟦<SureSource as Source>⟧.left result
            ≡ Some (joined (contents_of pieces.items)) }
    {
        SureSource {
            pieces: PieceReader::new(pieces),
        }
    }
}

impl Source for SureSource {
    ghost left = { λ pieces. Some (joined pieces) };

    ghost read_faults = { λ _. 0 };

    ghost as_sink = { λ _. no_sink };

    /// Gives the rest of the next piece that is not empty, or as much of it as `into` has room for.
    fn read(&mut self, into: &mut [u8]) -> Result<usize, Failed>
        ensures sure { IsOk result }
        ensures reads { IfOk result (λ n. Reads self.old self.new into.old into.new n) }

        // What every source promises.
        ensures within { IfOk result (λ n. n ≤ length into.old) }
        ensures front { IfOk result (λ n.
            Gives (Some (joined self.old)) (Some (joined self.new)) (take n into.new)) }
        ensures end { IfOk result (λ n. 0 < length into.old → (n ≡ 0) ↔ (joined self.old ≡ [])) }
    {
        Ok(self.pieces.read(into))
    }
}
