// A short text, built without memory.
ghost use Rattle.std.specs.Prelude.{◌≡◌, ◌+◌, ◌≤◌, ◌++◌, [], length, decimal};
ghost use Rattle.std.specs.Fmt.{signed_decimal};

use itoa::Buffer;
use std::marker::Model;

/// The most bytes of a short text before its line feed.
pub const MAX_SHORT: usize = 128;

/// The most bytes of a short text with its line feed.
pub const MAX_SHORT_LINE: usize = 129;

/// A text of at most 128 bytes and a line feed, which takes no memory. Contracts see its bytes. `push(b"\n")` ends it.
#[derive(Drop)]
pub struct Short {
    bytes: [u8; MAX_SHORT_LINE],
    len: usize,
}

impl Model for Short {
    ghost use Rattle.std.specs.Prelude.{◌≤◌, List, ℕ, take};
    ghost use Rattle.protocol_parts.specs.declared.short_text.TheConstants.{MAX_SHORT_LINE};

    ghost Value = { List ℕ };

    ghost view = { λ s. take s.len s.bytes };

    ghost invariant = { λ s. s.len ≤ MAX_SHORT_LINE };
}

impl Short {
    /// The empty text.
    pub fn new() -> Self
        ensures { result ≡ [] }
    {
        Short {
            bytes: [0; MAX_SHORT_LINE],
            len: 0,
        }
    }

    /// Its bytes.
    pub fn as_bytes(&self) -> &[u8]
        ensures text { result.now ≡ self.now }
        ensures short { length self.now ≤ MAX_SHORT_LINE }
    {
        &self.bytes[..self.len]
    }

    /// Adds a text at the end.
    pub fn push(&mut self, text: &[u8])
        requires { length self.old + length text.now ≤ MAX_SHORT_LINE }
        ensures text { self.new ≡ self.old ++ text.now }
        ensures length { length self.new ≡ length self.old + length text.now }
    {
        self.bytes[self.len..self.len + text.len()].copy_from_slice(text);
        self.len += text.len();
    }

    /// Adds a number, in decimal digits without leading zeros.
    pub fn push_number(&mut self, number: u32)
        requires { length self.old + 10 ≤ MAX_SHORT_LINE }
        ensures text { self.new ≡ self.old ++ decimal number }
        ensures length { length self.new ≤ length self.old + 10 }
    {
        let mut buffer = Buffer::new();
        self.push(buffer.format(number).as_bytes());
    }

    /// Adds a signed number, with a `-` before its digits where it is negative.
    pub fn push_signed(&mut self, number: i64)
        requires { length self.old + 20 ≤ MAX_SHORT_LINE }
        ensures text { self.new ≡ self.old ++ signed_decimal number }
        ensures length { length self.new ≤ length self.old + 20 }
    {
        let mut buffer = Buffer::new();
        self.push(buffer.format(number).as_bytes());
    }
}
