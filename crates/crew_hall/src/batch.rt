// Short replies that go out together.
ghost use Rattle.std.specs.Prelude.{◌≡◌, ◌+◌, ◌*◌, ◌<◌, ◌≤◌, length, false, true};

use std::marker::Model;

/// How many bytes short replies that go out together have at most.
pub(crate) const FEW: usize = 1_032;

/// How many replies go out together at most.
pub(crate) const MOST: usize = 8;

/// The most bytes of a short reply, with its line feed.
pub(crate) const SHORT: usize = 129;

/// The lines that a session was given and has not answered yet, and the short replies that wait to go out with the next one.
/// A reply waits only where there is such a line, so none waits for a line that has yet to come.
#[derive(Drop)]
pub(crate) struct Batch {
    lines: usize,
    replies: usize,
    bytes: usize,
}

impl Model for Batch {
    ghost use Rattle.std.specs.Prelude.{◌<◌, ◌≤◌, ◌*◌};
    ghost use Rattle.crew_hall.specs.Batches.{BatchState};
    ghost use Rattle.crew_hall.specs.declared.batch.TheConstants.{MOST, SHORT};

    ghost Value = { BatchState };

    ghost view = { λ b. record { lines = b.lines; replies = b.replies; bytes = b.bytes } };

    ghost invariant = { λ b. (b.replies < MOST) × (b.bytes ≤ b.replies * SHORT) };
}

impl Batch {
    /// No line was given, and no reply waits.
    pub(crate) fn new() -> Batch
        ensures { result ≡ record { lines = 0; replies = 0; bytes = 0 } }
    {
        Batch {
            lines: 0,
            replies: 0,
            bytes: 0,
        }
    }

    /// The session was given these bytes, at the end of which a line may have ended.
    pub(crate) fn is_given(&mut self, bytes: &[u8])
        ensures lines { self.new.lines ≤ self.old.lines + 1 }
        ensures replies { self.new.replies ≡ self.old.replies }
        ensures bytes { self.new.bytes ≡ self.old.bytes }
    {
        if ends_line(bytes) {
            self.lines = self.lines.saturating_add(1);
        }
    }

    /// Whether a piece may wait with the replies that wait, where so many bytes do: none else does, and it is short.
    pub(crate) fn is_joined_by(&self, piece: &[u8], waiting: usize) -> bool
        ensures waiting { result ≡ true → waiting ≡ self.now.bytes }
        ensures short { result ≡ true → length piece.now ≤ SHORT }
        ensures few { result ≡ true → waiting + length piece.now ≤ FEW }
    {
        let _ = self.replies;
        piece.len() <= SHORT && waiting == self.bytes
    }

    /// A piece of a reply was kept, at the end of which the reply may have ended.
    pub(crate) fn is_answered(&mut self, piece: &[u8])
        ensures lines { self.new.lines ≤ self.old.lines }
        ensures replies { self.new.replies ≡ self.old.replies }
        ensures bytes { self.new.bytes ≡ self.old.bytes }
    {
        if ends_line(piece) {
            self.lines = self.lines.saturating_sub(1);
        }
    }

    /// Has a piece that was kept wait, where it is short and one of few and ends a reply, and the session has another line
    /// to answer. It says whether the piece waits.
    pub(crate) fn takes(&mut self, piece: &[u8]) -> bool
        ensures line { result ≡ true → 0 < self.new.lines }
        ensures waits { result ≡ true → self.new ≡ record {
          lines = self.old.lines;
          replies = self.old.replies + 1;
          bytes = self.old.bytes + length piece.now;
        } }
        ensures not { result ≡ false → self.new ≡ self.old }
        ensures few { self.new.replies < MOST }
        ensures short { self.new.bytes ≤ self.new.replies * SHORT }
    {
        if self.lines == 0 || self.replies + 1 >= MOST {
            return false;
        }
        if piece.len() > SHORT || !ends_line(piece) {
            return false;
        }
        self.replies += 1;
        self.bytes += piece.len();
        true
    }

    /// All that waited goes out.
    pub(crate) fn goes(&mut self)
        ensures { self.new ≡ record { lines = self.old.lines; replies = 0; bytes = 0 } }
    {
        self.replies = 0;
        self.bytes = 0;
    }
}

// Whether a line ends where these bytes do.
fn ends_line(bytes: &[u8]) -> bool {
    matches!(bytes.last(), Some(b'\n'))
}
