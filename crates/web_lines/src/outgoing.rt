// An answer on its way out.
ghost use Rattle.std.specs.Prelude.{◌≡◌, ◌<◌, [], length, IsFalse, IsTrue, OnErr, OnOk};
ghost use Rattle.std.specs.Io.KnownBytes.{Keeps};
ghost use Rattle.web_lines.specs.Outgoing.{GoesOut};

use std::io::{self, Write};
use std::marker::Model;

/// Bytes that go out in their order, as far as their stream takes them at a time.
#[derive(Drop)]
pub struct Outgoing {
    bytes: Vec<u8>,
    sent: usize,
}

impl Model for Outgoing {
    ghost use Rattle.std.specs.Prelude.{◌≤◌, List, ℕ, drop, length};

    ghost Value = { List ℕ };

    ghost view = { λ o. drop o.sent o.bytes.items };

    ghost invariant = { λ o. o.sent ≤ length o.bytes.items };
}

impl Outgoing {
    /// These bytes, of which none has gone out.
    pub fn new(bytes: Vec<u8>) -> Outgoing
        ensures { result ≡ bytes.items }
    {
        Outgoing { bytes, sent: 0 }
    }

    /// Whether all of them have gone out.
    pub fn is_out(&self) -> bool
        ensures out { IsTrue result → self.now ≡ [] }
        ensures left { IsFalse result → 0 < length self.now }
    {
        self.sent >= self.bytes.len()
    }

    /// Writes once to a stream. Where that fails all stays to be written.
    pub fn go_on<S: Write>(&mut self, stream: &mut S) -> io::Result<()>
        ensures goes { OnOk result (GoesOut (S.contents stream.old) (S.contents stream.new)
            self.old self.new) }
        ensures stays { OnErr result (self.new ≡ self.old) }
        ensures kept { OnErr result (Keeps (S.contents stream.old) (S.contents stream.new)) }
    {
        let (_, rest) = self.bytes.split_at(self.sent);
        let count = stream.write(rest)?;
        self.sent += count;
        Ok(())
    }
}
