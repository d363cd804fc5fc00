// What a fault is, whoever reads, and the numbers of the limits, with nothing to run.
ghost use Rattle.std.specs.Prelude.{◌≡◌, ◌≢◌, ◌≤◌, ℕ, List, length};
ghost use Rattle.json_tree.specs.Faults.{IsPlaced};
ghost use Rattle.json_tree.specs.Grammar.{Spells};
ghost use Rattle.json_tree.specs.Tree.{Tree};

use crate::document::{MOST_BYTES, MOST_LEVELS};
use json_tokens::JsonFault;

/// No bytes have two faults, and bytes that spell a text have none.
pub fn bytes_have_one_fault()
    ensures one { (bytes : List ℕ) (e f : JsonFault) → IsPlaced bytes e → IsPlaced bytes f
        → e ≢ JsonFault.Memory → f ≢ JsonFault.Memory → e ≡ f }
    ensures none { (bytes : List ℕ) (e : JsonFault) (t : Tree) → IsPlaced bytes e
        → e ≢ JsonFault.Memory → length bytes ≤ MOST_BYTES → Spells MOST_LEVELS bytes t → ⊥ }
{}

/// The limits: a text of at most 32 MiB, with at most 64 lists and objects in one another.
pub fn limits_are_these()
    ensures bytes { MOST_BYTES ≡ 33554432 }
    ensures levels { MOST_LEVELS ≡ 64 }
{}
