// What an open file holds of an append, begun or to be begun.
ghost use Rattle.std.specs.Prelude.{◌≡◌, ◌<◌, length};
ghost use Rattle.journal_file.specs.Batches.{piece_of};
ghost use Rattle.journal_file.specs.Stages.{held_by};

use crate::Batch;
use crate::line::GateLine;

/// The line or the lines of an append.
#[derive(Drop)]
pub enum Held {
    /// The line of `append`.
    Line(GateLine),
    /// The lines of `append_batch`.
    Lines(Batch),
}

impl Held {
    /// What is written after the gate.
    #[tactic(auto, using(crate::proofs::Pushes::line_piece, crate::proofs::Pushes::kept_piece))]
    pub fn piece(&self) -> &[u8]
        requires { 0 < length (held_by self.now) }
        ensures { result.now ≡ piece_of (held_by self.now) }
    {
        match self {
            Held::Line(line) => line.piece(),
            Held::Lines(batch) => batch.piece(),
        }
    }

    /// How many lines it has.
    pub fn count(&self) -> u32
        ensures { result ≡ length (held_by self.now) }
    {
        match self {
            Held::Line(_) => 1,
            Held::Lines(batch) => batch.count(),
        }
    }
}
