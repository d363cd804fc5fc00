// Room for the bytes of one line.
ghost use Rattle.std.specs.Prelude.{◌≡◌, ◌+◌, ◌≤◌, ◌++◌, [], length};
ghost use Rattle.line_words.specs.Lines.{without_cr};

use crate::MAX_LINE;
use std::marker::Model;

// At most `MAX_LINE` bytes, in place: no call takes memory.
#[derive(Drop)]
pub struct LineBuffer {
    bytes: [u8; MAX_LINE],
    len: usize,
}

impl Model for LineBuffer {
    ghost use Rattle.std.specs.Prelude.{◌≤◌, List, ℕ, take};
    ghost use Rattle.line_words.specs.declared.TheConstants.{MAX_LINE};

    ghost Value = { List ℕ };

    ghost view = { λ b. take b.len b.bytes };

    ghost invariant = { λ b. b.len ≤ MAX_LINE };
}

impl LineBuffer {
    // No bytes.
    pub fn new() -> Self
        ensures { result ≡ [] }
    {
        LineBuffer {
            bytes: [0; MAX_LINE],
            len: 0,
        }
    }

    // How many bytes it holds.
    pub fn len(&self) -> usize
        ensures length { result ≡ length self.now }
        ensures within { result ≤ MAX_LINE }
    {
        self.len
    }

    // The bytes that it holds.
    pub fn as_slice(&self) -> &[u8]
        ensures bytes { result.now ≡ self.now }
        ensures within { length result.now ≤ MAX_LINE }
    {
        &self.bytes[..self.len]
    }

    // Adds these bytes at the end. They have to fit.
    pub fn push_all(&mut self, more: &[u8])
        requires { length self.old + length more.now ≤ MAX_LINE }
        ensures { self.new ≡ self.old ++ more.now }
    {
        self.bytes[self.len..self.len + more.len()].copy_from_slice(more);
        self.len += more.len();
    }

    // Drops a carriage return at the end.
    pub fn drop_cr(&mut self)
        ensures { self.new ≡ without_cr self.old }
    {
        if self.len > 0 && self.bytes[self.len - 1] == b'\r' {
            self.len -= 1;
        }
    }

    // Forgets its bytes.
    pub fn clear(&mut self)
        ensures { self.new ≡ [] }
    {
        self.len = 0;
    }
}
