// A small object whose calls name one part each: two numbers, of which an even call is written over the first and an
// odd one over the second.
ghost use Rattle.std.proofs.Common.{arith};
ghost use Rattle.std.specs.Prelude.{◌≡◌, ◌%◌, ◌<◌, Ok, true};
ghost use Rattle.test_parts.specs.Sides.{sides, is_any, AreTwo};

use room_core::{Fault, Memory, PartObject};
use std::alloc::Global;
use std::sync::ledger::Ledger;
use step_count::Steps;

/// The two numbers. A call answers the number that it wrote, and none is refused.
#[derive(Clone, Copy)]
pub struct Sides;

impl PartObject for Sides {
    type Part = u32;

    type Call = u32;

    type Done = u32;

    type Refusal = u32;

    type Ask = u32;

    type Seen = u32;

    type AskRefusal = u32;

    ghost meaning = { λ o. sides };

    ghost refuses_first = { λ o. true };

    ghost count = { λ o. 2 };

    ghost good = { λ o. is_any };

    ghost roomy = { λ o p. Unit {0} };

    ghost opens = { λ o ps. AreTwo ps };

    ghost size = { λ p. 0 };

    ghost asked = { λ o n. Ok (n % 2) };

    ghost seen = { λ o p n. Ok p };

    /// Two parts.
    fn parts(&self) -> u32 {
        2
    }

    /// The first side for an even number, the second for an odd one.
    fn names(&self, call: &u32) -> u32 {
        1 << (*call % 2)
    }

    /// Refuses no call.
    fn refuse_names(&self, _call: &u32) -> Option<u32> {
        None
    }

    /// The first side for an even question, the second for an odd one.
    fn ask_part(&self, ask: &u32) -> Result<u32, u32> {
        Ok(*ask % 2)
    }

    /// Writes the number over its side and answers it. It takes no memory.
    fn apply<L: Ledger>(
        &self,
        _alloc: Global,
        parts: &mut Vec<u32>,
        call: &u32,
        steps: &mut Steps<L>,
    ) -> Result<u32, Fault<u32>> {
        steps.tick();
        parts[0] = *call;
        Ok(*call)
    }

    /// The side as it is.
    fn see(&self, _alloc: Global, part: &u32, _ask: &u32) -> Result<u32, Fault<u32>> {
        Ok(*part)
    }

    fn copy_part(&self, _alloc: Global, part: &u32) -> Result<u32, Memory> {
        Ok(*part)
    }

    fn copy_call(&self, _alloc: Global, call: &u32) -> Result<u32, Memory> {
        Ok(*call)
    }

    ghost named = { λ o c e. record {
      some = omega arith;
      ascend = (omega arith, omega arith, tt);
    } };

    ghost opening = { λ o ps h. (omega arith, omega arith, h) };

    ghost stays_roomy = { λ o ps qs entries opens legal comes. λ k d inside. tt };
}
