// A source and a sink of bytes, and a line, which is both. What they hold is told by some and not by others.
ghost use Rattle.std.specs.Prelude.{◌≡◌, ◌<◌, ◌≤◌, ◌↔◌, List, ℕ, [], length, take, Option, IfSome, IfOk, OnOk, OnErr};
ghost use Rattle.room_ports.specs.Bytes.{Gives, Takes, TakesFront};
ghost use Rattle.room_ports.specs.Counts.{HasRisen};
ghost use Rattle.room_ports.specs.Sides.{Lent, SourceSide, SinkSide};

use crate::Failed;

/// Bytes that come from outside, as from a file, a terminal or a line.
pub trait Source {
    /// The bytes that are left, where the source tells them.
    ghost left: { Self → Option (List ℕ) };

    /// How often a read has failed.
    ghost read_faults: { Self → ℕ };

    /// What it has taken as a sink, where it is one too.
    ghost as_sink: { Self → SinkSide };

    /// Reads the next bytes into the head of `into` and answers how many; 0 is the end where there was room.
    fn read(&mut self, into: &mut [u8]) -> Result<usize, Failed>
        ensures within { IfOk result (λ n. n ≤ length into.old) }
        ensures front { IfOk result (λ n. Gives (left self.old) (left self.new) (take n into.new)) }
        ensures end { IfOk result (λ n.
            0 < length into.old → IfSome (left self.old) (λ bytes. (n ≡ 0) ↔ (bytes ≡ []))) }

        // A read that fails uses up no bytes.
        ensures err { OnErr result (left self.new ≡ left self.old) }
        ensures cause { OnErr result (HasRisen (read_faults self.old) (read_faults self.new)) }
        ensures quiet { OnOk result (read_faults self.new ≡ read_faults self.old) }
        ensures count { read_faults self.old ≤ read_faults self.new }

        // A read takes nothing.
        ensures apart { as_sink self.new ≡ as_sink self.old };
}

/// Bytes that go outside, as to a file, a terminal or a line.
pub trait Sink {
    /// The bytes that it has taken, where the sink tells them.
    ghost taken: { Self → Option (List ℕ) };

    /// How often a write has failed.
    ghost write_faults: { Self → ℕ };

    /// What is left of it as a source, where it is one too.
    ghost as_source: { Self → SourceSide };

    /// Takes a front of the piece and answers how many bytes; at least one of a piece that is not empty.
    fn write(&mut self, piece: &[u8]) -> Result<usize, Failed>
        ensures within { IfOk result (λ n. n ≤ length piece.now) }
        ensures some { IfOk result (λ n. 0 < length piece.now → 0 < n) }
        ensures ok { IfOk result (λ n. Takes (taken self.old) (taken self.new) (take n piece.now)) }
        ensures err { OnErr result (TakesFront (taken self.old) (taken self.new) piece.now) }
        ensures cause { OnErr result (HasRisen (write_faults self.old) (write_faults self.new)) }
        ensures quiet { OnOk result (write_faults self.new ≡ write_faults self.old) }
        ensures count { write_faults self.old ≤ write_faults self.new }

        // A write reads nothing.
        ensures apart { as_source self.new ≡ as_source self.old };
}

/// A source and a sink in one, as a connection: what is read of it and what is written to it stay apart.
pub trait Line: Source + Sink {
    /// What it stands over, where that is lent.
    ghost lent: { Self → Lent };

    /// What it tells of its source as a sink is what it tells as a source.
    ghost source_side: { (line : Self) → Self.as_source line
        ≡ record { left = Self.left line; faults = Self.read_faults line; lent = lent line } };

    /// What it tells of its sink as a source is what it tells as a sink.
    ghost sink_side: { (line : Self) → Self.as_sink line
        ≡ record { taken = Self.taken line; faults = Self.write_faults line; lent = lent line } };
}

/// Writes all bytes, in as many writes as the sink needs. After `Failed` the sink has taken a front of them.
pub fn put<K: Sink>(sink: &mut K, bytes: &[u8]) -> Result<(), Failed>
    ensures ok { OnOk result (Takes (K.taken sink.old) (K.taken sink.new) bytes.now) }
    ensures err { OnErr result (TakesFront (K.taken sink.old) (K.taken sink.new) bytes.now) }
    ensures cause { OnErr result (HasRisen (K.write_faults sink.old) (K.write_faults sink.new)) }
    ensures quiet { OnOk result (K.write_faults sink.new ≡ K.write_faults sink.old) }
    ensures count { K.write_faults sink.old ≤ K.write_faults sink.new }
    ensures apart { K.as_source sink.new ≡ K.as_source sink.old }

    // No bytes are no write.
    ensures none { bytes.now ≡ [] → sink.new ≡ sink.old }
{
    let mut done = 0;
    while done < bytes.len() {
        let (_, rest) = bytes.split_at(done);
        done += sink.write(rest)?;
    }
    Ok(())
}
