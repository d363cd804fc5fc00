// The reader of lines.
ghost use Rattle.std.specs.Prelude.{◌≡◌, ◌≢◌, ◌+◌, ◌<◌, ◌≤◌, ◌↔◌, ◌++◌, ◌∷◌, [], length, take, Some, None, IfSome, IfNone, IsSome, IsNone, MatchOption, position};
ghost use Rattle.line_words.specs.Lines.{is_lf, ended_line, last_line};
ghost use Rattle.line_words.specs.Pieces.{grown, ended, pending_after};
ghost use Rattle.line_words.specs.Told.{line_told, lines_told};

use crate::MAX_LINE;
use crate::buffer::LineBuffer;
use crate::line::{Fed, LineEnd};
use std::marker::Model;

/// A reader of lines from a text that comes in pieces. It keeps the line that ended last, and what has come of the next.
#[derive(Drop)]
pub struct LineReader {
    pending: LineBuffer,
    is_too_long: bool,
    last: LineBuffer,
}

impl Model for LineReader {
    ghost use Rattle.std.specs.Prelude.{◌≤◌, Some, None, length, if◌then◌else◌};
    ghost use Rattle.line_words.specs.Pieces.{Reading};
    ghost use Rattle.line_words.specs.declared.TheConstants.{MAX_LINE};

    ghost Value = { Reading };

    ghost view = { λ r. record {
      pending = if r.is_too_long then None else Some r.pending;
      last = r.last;
    } };

    ghost invariant = { λ r. length r.pending ≤ MAX_LINE };
}

impl LineReader {
    /// A reader at the start of a text.
    pub fn new() -> Self
        ensures pending { result.pending ≡ Some [] }
        ensures last { result.last ≡ [] }
    {
        LineReader {
            pending: LineBuffer::new(),
            is_too_long: false,
            last: LineBuffer::new(),
        }
    }

    /// Takes the bytes of a piece up to and with its first line feed, or all of them.
    ///
    /// `line` tells how the line ended that the line feed ends. The bytes that were not taken are to be fed next.
    pub fn feed(&mut self, piece: &[u8]) -> Fed
        ensures taken { MatchOption (position is_lf piece.now)
            (result.taken ≡ length piece.now) (λ at. result.taken ≡ at + 1) }
        ensures within { result.taken ≤ length piece.now }
        ensures some { 0 < length piece.now → 0 < result.taken }

        ensures line { IsSome result.line ↔ IsSome (position is_lf piece.now) }
        ensures lines { lines_told result.line self.new.last
            ≡ ended self.old.pending (take result.taken piece.now) }
        ensures too_long { result.line ≡ Some LineEnd.TooLong → self.new.last ≡ [] }
        ensures last { IfNone result.line (self.new.last ≡ self.old.last) }

        ensures pending { self.new.pending
            ≡ pending_after self.old.pending (take result.taken piece.now) }
    {
        // What is pending is no longer than a line, which a read of a field tells the proof.
        let _ = &self.pending;
        match first_lf(piece) {
            None => {
                self.keep(piece);
                Fed {
                    taken: piece.len(),
                    line: None,
                }
            }
            Some(at) => {
                self.keep(&piece[..at]);
                self.drop_cr();
                Fed {
                    taken: at + 1,
                    line: Some(self.end()),
                }
            }
        }
    }

    /// Ends a last line, after which no line feed stands: `None` where it has no byte.
    ///
    /// The reader then stands at the start of a text.
    pub fn finish(&mut self) -> Option<LineEnd>
        ensures none { IsNone result ↔ (self.old.pending ≡ Some []) }
        ensures lines { lines_told result self.new.last ≡ last_line self.old.pending }
        ensures too_long { result ≡ Some LineEnd.TooLong → self.new.last ≡ [] }
        ensures last { IfNone result (self.new.last ≡ self.old.last) }

        ensures pending { self.new.pending ≡ Some [] }
    {
        if self.pending.len() == 0 && !self.is_too_long {
            return None;
        }
        Some(self.end())
    }

    /// The bytes of the line that ended last, without its line feed and without one carriage return before that.
    ///
    /// There are none where no line has ended, and none where that line was too long.
    pub fn line(&self) -> &[u8]
        ensures { result.now ≡ self.now.last }
    {
        self.last.as_slice()
    }

    // Adds bytes to what is pending of the next line, or marks that line as too long where they do not fit.
    fn keep(&mut self, more: &[u8])
        ensures pending { self.new.pending ≡ grown self.old.pending more.now }
        ensures last { self.new.last ≡ self.old.last }
    {
        if self.is_too_long {
            return;
        }
        if more.len() > MAX_LINE - self.pending.len() {
            self.is_too_long = true;
            return;
        }
        self.pending.push_all(more);
    }

    // Drops one carriage return at the end of what is pending.
    fn drop_cr(&mut self)
        ensures pending { self.new.pending ≡ ended_line self.old.pending }
        ensures last { self.new.last ≡ self.old.last }
    {
        self.pending.drop_cr();
    }

    // Makes what is pending the line that ended last, empty where it was too long, and begins the next line.
    fn end(&mut self) -> LineEnd
        ensures line { line_told result self.new.last ≡ self.old.pending }
        ensures too_long { result ≡ LineEnd.TooLong → self.new.last ≡ [] }
        ensures pending { self.new.pending ≡ Some [] }
    {
        self.last.clear();
        let end = if self.is_too_long {
            LineEnd::TooLong
        } else {
            self.last.push_all(self.pending.as_slice());
            LineEnd::Whole
        };
        self.pending.clear();
        self.is_too_long = false;
        end
    }
}

// Where the first line feed of a piece stands; `None` where there is none.
fn first_lf(piece: &[u8]) -> Option<usize>
    ensures at { result ≡ position is_lf piece.now }
    ensures within { IfSome result (λ at. at < length piece.now) }
{
    piece.iter().position(|byte| *byte == b'\n')
}
