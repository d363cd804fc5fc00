// Lines that are appended at once.
ghost use Rattle.std.specs.Prelude.{◌≡◌, ◌<◌, ◌≤◌, ◌++◌, ◌∷◌, List, ℕ, [], length, OnOk, OnErr};
ghost use Rattle.std.specs.List.{AllByRecursion};
ghost use Rattle.journal_file.specs.Layout.{IsLine};
ghost use Rattle.journal_file.specs.Batches.{bytes_of};

use crate::line::GateLine;
use room_ports::Memory;
use std::alloc::Global;
use std::marker::Model;

/// The most lines of a batch.
pub const MOST_LINES: u32 = 1024;

/// Lines that are appended at once, with the memory that this takes: at most 1,024 of them. Contracts see the lines, in
/// order.
#[derive(Drop)]
pub struct Batch {
    bytes: Vec<u8>,
    count: u32,
}

impl Model for Batch {
    ghost use Rattle.std.specs.Prelude.{◌≡◌, ◌≤◌, List, ℕ, length};
    ghost use Rattle.std.specs.List.{AllByRecursion};
    ghost use Rattle.journal_file.specs.Layout.{IsLine};
    ghost use Rattle.journal_file.specs.Batches.{lines_in, bytes_of};

    ghost Value = { List (List ℕ) };

    ghost view = { λ b. lines_in b.bytes.items };

    ghost invariant = { λ b. AllByRecursion IsLine (lines_in b.bytes.items)
        × (b.bytes.items ≡ bytes_of (lines_in b.bytes.items))
        × (length (lines_in b.bytes.items) ≡ b.count) × (b.count ≤ 1024) };
}

impl Batch {
    /// No lines. It takes no memory.
    pub fn new(alloc: Global) -> Batch
        ensures { result ≡ [] }
    {
        Batch {
            bytes: Vec::new(alloc),
            count: 0,
        }
    }

    /// Adds a line at the end: 1 to 1,024 bytes without a line feed.
    #[tactic(auto, using(crate::proofs::Pushes::pushed))]
    pub fn push(&mut self, line: &[u8]) -> Result<(), Memory>
        requires room { length self.old < 1024 }
        requires line { IsLine line.now }
        ensures ok { OnOk result (self.new ≡ self.old ++ line.now ∷ []) }
        ensures err { OnErr result (self.new ≡ self.old) }
    {
        let line = GateLine::of(line);
        extend(&mut self.bytes, &line)?;
        self.count += 1;
        Ok(())
    }

    /// How many lines it has.
    pub fn count(&self) -> u32
        ensures count { result ≡ length self.now }
        ensures most { result ≤ 1024 }
    {
        self.count
    }

    // Tells that each of them is a line. Nothing is done.
    pub(crate) fn are_lines(&self)
        ensures { AllByRecursion IsLine self.now }
    {
        let _ = &self.count;
    }

    /// What is written for them after a gate: each line with its line feed, an open gate between two and a closed one
    /// at the end.
    pub(crate) fn piece(&self) -> &[u8]
        ensures { result.now ≡ bytes_of self.now }
    {
        self.bytes.as_slice()
    }
}

// Puts a line after the others: what was the gate after them comes to stand between, open.
#[tactic(auto, using(crate::proofs::Pushes::first_push, crate::proofs::Pushes::next_push))]
fn extend(bytes: &mut Vec<u8>, line: &GateLine) -> Result<(), Memory>
    ensures ok { OnOk result ((lines : List (List ℕ)) → bytes.old.items ≡ bytes_of lines
        → bytes.new.items ≡ bytes_of (lines ++ line.now ∷ [])) }
    ensures err { OnErr result (bytes.new.items ≡ bytes.old.items) }
{
    let gate = bytes.len();
    bytes.extend_from_slice(line.piece())?;
    if gate == 0 {
        return Ok(());
    }
    bytes[gate - 1] = b'+';
    Ok(())
}
