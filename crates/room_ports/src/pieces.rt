// Bytes in memory, given piece by piece.
ghost use Rattle.std.specs.Prelude.{◌≡◌};
ghost use Rattle.room_ports.specs.Pieces.{Reads, contents_of};

use std::marker::Model;

/// Pieces, and the place of the next byte.
#[derive(Drop)]
pub struct PieceReader {
    pieces: Vec<Vec<u8>>,
    piece: usize,
    at: usize,
}

impl Model for PieceReader {
    ghost use Rattle.std.specs.Prelude.{List, ℕ};
    ghost use Rattle.room_ports.specs.Pieces.{left_from};

    ghost Value = { List (List ℕ) };

    ghost view = { λ r. left_from r.pieces.items r.piece r.at };
}

impl PieceReader {
    /// These pieces, of which nothing was read so far.
    pub fn new(pieces: Vec<Vec<u8>>) -> Self
        ensures { result ≡ contents_of pieces.items }
    {
        PieceReader {
            pieces,
            piece: 0,
            at: 0,
        }
    }

    /// Reads into the head of `into`, at most to the end of a piece; 0 at the end of all.
    pub fn read(&mut self, into: &mut [u8]) -> usize
        ensures { Reads self.old self.new into.old into.new result }
    {
        while self.piece < self.pieces.len() {
            let piece = self.pieces[self.piece].as_slice();
            if self.at < piece.len() {
                let (_, rest) = piece.split_at(self.at);
                let n = rest.len().min(into.len());
                into[..n].copy_from_slice(&rest[..n]);
                self.at += n;
                return n;
            }
            self.piece += 1;
            self.at = 0;
        }
        0
    }
}
