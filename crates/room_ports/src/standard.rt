// Adapters over readers and writers of std, which tell no bytes.
ghost use Rattle.std.specs.Prelude.{◌≡◌, ◌≤◌, ◌<◌, None, length, IfOk, OnOk, OnErr};
ghost use Rattle.std.specs.Io.KnownBytes.{ReadConsumes, WriteAppends};
ghost use Rattle.room_ports.specs.Counts.{HasRisen, counted};
ghost use Rattle.room_ports.specs.Sides.{no_sink, no_source};

use crate::once::{read_once, write_once};
use crate::{Failed, Sink, Source};
use std::io::{Read, Write};
use std::marker::Model;

/// A source over a reader. Each read that the reader fails is counted as a fault.
#[derive(Drop)]
pub struct StdSource<R: Read + Drop> {
    inner: R,
    faults: u64,
}

impl<R: Read + Drop> Model for StdSource<R> {
    ghost use Rattle.room_ports.specs.States.{AdapterState};

    ghost Value = { AdapterState R };

    ghost view = { λ s. record { inner = s.inner; faults = s.faults } };
}

impl<R: Read + Drop> StdSource<R> {
    /// A source over this reader, without a fault so far.
    pub fn new(inner: R) -> Self
        ensures inner { result.inner ≡ inner }
        ensures faults { result.faults ≡ 0 }
    {
        StdSource { inner, faults: 0 }
    }
}

impl<R: Read + Drop> Source for StdSource<R> {
    ghost left = { λ _. None };

    ghost read_faults = { λ s. s.faults };

    ghost as_sink = { λ _. no_sink };

    /// Reads from the reader. That it does so once is tested, and no clause says it.
    fn read(&mut self, into: &mut [u8]) -> Result<usize, Failed>
        ensures reads { ReadConsumes
            (R.remaining self.old.inner) (R.remaining self.new.inner) result into.new }
        ensures same { OnOk result (self.new.faults ≡ self.old.faults) }
        ensures counted { OnErr result (self.new.faults ≡ counted self.old.faults) }

        // What every source promises.
        ensures within { IfOk result (λ n. n ≤ length into.old) }
        ensures cause { OnErr result (HasRisen self.old.faults self.new.faults) }
        ensures count { self.old.faults ≤ self.new.faults }
    {
        read_once(&mut self.inner, into, &mut self.faults)
    }
}

/// A sink over a writer. Each write that the writer fails is counted as a fault, and so is one that takes nothing
/// of a piece that is not empty.
#[derive(Drop)]
pub struct StdSink<W: Write + Drop> {
    inner: W,
    faults: u64,
}

impl<W: Write + Drop> Model for StdSink<W> {
    ghost use Rattle.room_ports.specs.States.{AdapterState};

    ghost Value = { AdapterState W };

    ghost view = { λ s. record { inner = s.inner; faults = s.faults } };
}

impl<W: Write + Drop> StdSink<W> {
    /// A sink over this writer, without a fault so far.
    pub fn new(inner: W) -> Self
        ensures inner { result.inner ≡ inner }
        ensures faults { result.faults ≡ 0 }
    {
        StdSink { inner, faults: 0 }
    }
}

impl<W: Write + Drop> Sink for StdSink<W> {
    ghost taken = { λ _. None };

    ghost write_faults = { λ s. s.faults };

    ghost as_source = { λ _. no_source };

    /// Writes to the writer. That it does so once is tested, and no clause says it.
    fn write(&mut self, piece: &[u8]) -> Result<usize, Failed>
        ensures writes { WriteAppends
            (W.contents self.old.inner) (W.contents self.new.inner) result piece.now }
        ensures same { OnOk result (self.new.faults ≡ self.old.faults) }
        ensures counted { OnErr result (self.new.faults ≡ counted self.old.faults) }

        // What every sink promises.
        ensures within { IfOk result (λ n. n ≤ length piece.now) }
        ensures some { IfOk result (λ n. 0 < length piece.now → 0 < n) }
        ensures cause { OnErr result (HasRisen self.old.faults self.new.faults) }
        ensures count { self.old.faults ≤ self.new.faults }
    {
        write_once(&mut self.inner, piece, &mut self.faults)
    }
}
