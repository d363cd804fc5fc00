// A whole text in JSON.
ghost use Rattle.std.specs.Prelude.{◌≤◌, length, IfOk, IfErr, Ok};
ghost use Rattle.json_tree.specs.Faults.{IsPlaced};
ghost use Rattle.json_tree.specs.Grammar.{Spells};
ghost use Rattle.json_tokens.specs.Reading.{Gives};
ghost use Rattle.json_tree.specs.ReadingValues.{document_at};
ghost use Rattle.json_tree.specs.Size.{tree_size};
ghost use Rattle.json_tree.specs.Tree.{Tree};
ghost use Rattle.json_tree.specs.View.{tree_of};

use crate::tree::Json;
use crate::values::item;
use json_tokens::{JsonFault, Rest};
use std::alloc::Global;

/// The most bytes that are read: 32 MiB.
pub const MOST_BYTES: usize = 33_554_432;

/// The most levels of lists and objects in one another.
pub const MOST_LEVELS: u32 = 64;

/// The value that the bytes spell, with blanks around it; or the first fault, from left to right. Bytes that
/// are too many are not looked into.
pub fn read(alloc: Global, bytes: &[u8]) -> Result<Json, JsonFault>
    // What is read is spelled so, with its places.
    ensures found { IfOk result (λ tree. (length bytes.now ≤ MOST_BYTES)
        × Spells MOST_LEVELS bytes.now (tree_of tree)) }
    // What is spelled so is read, unless memory runs out.
    ensures only { (tree : Tree) → length bytes.now ≤ MOST_BYTES → Spells MOST_LEVELS bytes.now tree
        → Gives tree_of result (Ok tree) }
    // Where the fault stands: up to it the bytes are lawful, and with the byte there they are not. No bytes have two
    // faults: `bytes_have_one_fault`.
    ensures placed { IfErr result (λ fault. IsPlaced bytes.now fault) }
    // It has at most as many lists and objects as the text has bytes.
    ensures few { IfOk result (λ tree. tree_size (tree_of tree) ≤ length bytes.now) }
    // What it answers is what a reading from left to right gives, which definitions can compute.
    ensures exact { Gives tree_of result (document_at bytes.now) }
{
    document(alloc, bytes)
}

/// The value that the bytes spell, with blanks around it and nothing after; or the first fault.
#[tactic(auto, unfolding(crate::specs::ReadingValues::document_at))]
fn document(alloc: Global, bytes: &[u8]) -> Result<Json, JsonFault>
    ensures { Gives tree_of result (document_at bytes.now) }
{
    if bytes.len() > MOST_BYTES {
        return Err(JsonFault::TooLarge);
    }
    let (tree, rest) = item(alloc, MOST_LEVELS, Rest { at: 0, bytes })?;
    if !rest.bytes.is_empty() {
        return Err(JsonFault::Syntax(rest.at));
    }
    Ok(tree)
}
