// What was put first on an output, remembered.
ghost use Rattle.std.specs.Prelude.{◌≡◌, ◌≤◌, ◌<◌, ◌+◌, ◌++◌, [], length, take, IfOk, OnOk, OnErr};
ghost use Rattle.room_ports.specs.Bytes.{Takes, TakesFront};
ghost use Rattle.room_ports.specs.Counts.{HasRisen};

use room_ports::{Failed, Sink};
use std::marker::Model;

/// How many bytes of an output are remembered.
pub const REMEMBERED: usize = 64;

/// The first bytes of a text, at most [`REMEMBERED`].
#[derive(Drop)]
pub struct Beginning {
    bytes: [u8; REMEMBERED],
    len: usize,
}

impl Model for Beginning {
    ghost use Rattle.std.specs.Prelude.{◌≤◌, List, ℕ, take};

    ghost Value = { List ℕ };

    ghost view = { λ b. take b.len b.bytes };

    ghost invariant = { λ b. b.len ≤ 64 };
}

impl Beginning {
    /// Of nothing yet.
    pub fn new() -> Self
        ensures { result ≡ [] }
    {
        Beginning {
            bytes: [0; REMEMBERED],
            len: 0,
        }
    }

    /// The bytes.
    pub fn as_slice(&self) -> &[u8]
        ensures bytes { result.now ≡ self.now }
        ensures within { length result.now ≤ 64 }
    {
        &self.bytes[..self.len]
    }

    /// Adds what comes next, as far as there is room.
    pub fn add(&mut self, piece: &[u8])
        ensures { self.new ≡ take 64 (self.old ++ piece.now) }
    {
        let room = REMEMBERED - self.as_slice().len();
        if piece.len() <= room {
            self.push(piece);
        } else {
            self.push(&piece[..room]);
        }
    }

    // Adds what there is room for.
    fn push(&mut self, piece: &[u8])
        requires { length self.old + length piece.now ≤ 64 }
        ensures { self.new ≡ self.old ++ piece.now }
    {
        self.bytes[self.len..self.len + piece.len()].copy_from_slice(piece);
        self.len += piece.len();
    }
}

/// A sink that passes everything to another one, and remembers the first bytes that this one took. What it tells is what
/// the other one tells.
#[derive(Drop)]
pub struct Heard<K: Sink + Drop> {
    pub inner: K,
    pub beginning: Beginning,
}

impl<K: Sink + Drop> Heard<K> {
    /// Over this sink, with nothing remembered.
    pub fn new(inner: K) -> Self
        ensures inner { result.inner ≡ inner }
        ensures beginning { result.beginning ≡ [] }
    {
        Heard {
            inner,
            beginning: Beginning::new(),
        }
    }
}

impl<K: Sink + Drop> Sink for Heard<K> {
    ghost taken = { λ h. K.taken h.inner };

    ghost write_faults = { λ h. K.write_faults h.inner };

    ghost as_source = { λ h. K.as_source h.inner };

    /// What the other sink does; and what it took is remembered.
    fn write(&mut self, piece: &[u8]) -> Result<usize, Failed>
        ensures heard { IfOk result (λ n. self.new.beginning
            ≡ take 64 (self.old.beginning ++ take n piece.now)) }
        ensures unheard { OnErr result (self.new.beginning ≡ self.old.beginning) }

        // What every sink promises.
        ensures within { IfOk result (λ n. n ≤ length piece.now) }
        ensures some { IfOk result (λ n. 0 < length piece.now → 0 < n) }
        ensures ok { IfOk result (λ n. Takes (K.taken self.old.inner) (K.taken self.new.inner)
            (take n piece.now)) }
        ensures err { OnErr result (TakesFront (K.taken self.old.inner) (K.taken self.new.inner)
            piece.now) }
        ensures cause { OnErr result (HasRisen (K.write_faults self.old.inner)
            (K.write_faults self.new.inner)) }
        ensures quiet { OnOk result (K.write_faults self.new.inner
            ≡ K.write_faults self.old.inner) }
        ensures count { K.write_faults self.old.inner ≤ K.write_faults self.new.inner }
        ensures apart { K.as_source self.new.inner ≡ K.as_source self.old.inner }
    {
        let n = self.inner.write(piece)?;
        self.beginning.add(&piece[..n]);
        Ok(n)
    }
}
