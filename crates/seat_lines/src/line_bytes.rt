// Room for the bytes of one line, with its line feed.
ghost use Rattle.std.specs.Prelude.{◌≡◌, ◌+◌, ◌≤◌, ◌∷◌, ◌++◌, [], length};
ghost use Rattle.seat_lines.specs.Texts.{shortened};

use std::marker::Model;

// One byte more than a line may have, and one for its line feed.
const ROOM: usize = 1_026;

/// Bytes in place: no call takes memory. At most those of a line as it is kept, and its line feed.
#[derive(Drop)]
pub(crate) struct LineBytes {
    bytes: [u8; ROOM],
    len: usize,
}

impl Model for LineBytes {
    ghost use Rattle.std.specs.Prelude.{◌≤◌, List, ℕ, take};
    ghost use Rattle.seat_lines.specs.declared.line_bytes.TheConstants.{ROOM};

    ghost Value = { List ℕ };

    ghost view = { λ b. take b.len b.bytes };

    ghost invariant = { λ b. b.len ≤ ROOM };
}

impl LineBytes {
    // No bytes.
    pub(crate) fn new() -> Self
        ensures { result ≡ [] }
    {
        LineBytes {
            bytes: [0; ROOM],
            len: 0,
        }
    }

    // The bytes that it holds.
    pub(crate) fn as_slice(&self) -> &[u8]
        ensures bytes { result.now ≡ self.now }
        ensures within { length result.now ≤ ROOM }
    {
        &self.bytes[..self.len]
    }

    // How many bytes it holds.
    fn len(&self) -> usize
        ensures { result ≡ length self.now }
    {
        self.len
    }

    // Adds as many of these bytes as a line is kept with.
    pub(crate) fn keep(&mut self, more: &[u8])
        requires { length self.old + 1 ≤ ROOM }
        ensures bytes { self.new ≡ shortened (self.old ++ more.now) }
        ensures within { length self.new + 1 ≤ ROOM }
    {
        let room = ROOM - 1 - self.len();
        let n = more.len().min(room);
        self.push_all(&more[..n]);
    }

    // Adds these bytes at the end. They have to fit.
    fn push_all(&mut self, more: &[u8])
        requires { length self.old + length more.now ≤ ROOM }
        ensures { self.new ≡ self.old ++ more.now }
    {
        self.bytes[self.len..self.len + more.len()].copy_from_slice(more);
        self.len += more.len();
    }

    // Becomes this line, with a line feed at its end.
    pub(crate) fn hold(&mut self, line: &[u8])
        requires { length line.now + 1 ≤ ROOM }
        ensures { self.new ≡ line.now ++ 10 ∷ [] }
    {
        self.bytes[..line.len()].copy_from_slice(line);
        self.bytes[line.len()] = b'\n';
        self.len = line.len() + 1;
    }

    // Forgets its bytes.
    pub(crate) fn clear(&mut self)
        ensures { self.new ≡ [] }
    {
        self.len = 0;
    }
}
