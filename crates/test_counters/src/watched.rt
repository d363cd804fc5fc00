// An object whose calls are seen as they are done: for tests of when, and how often, a room does a call.
ghost use Rattle.std.proofs.Common.{arith};
ghost use Rattle.std.specs.Prelude.{◌%◌, [], ◌∷◌, Ok, None, true};
ghost use Rattle.room_core.specs.Parts.{AreGood, numbers};

use room_core::{Fault, Memory, PartObject};
use std::alloc::Global;
use std::sync::ledger::Ledger;
use step_count::Steps;

/// What sees each call as it is done. No clause speaks of it, and what a call answers does not depend on it.
pub trait Watch {
    /// Sees a call, and may take its time.
    fn sees(&self, call: u32);
}

/// Two parts, of which an even call names the first and an odd one the second. A call changes nothing and answers 0; each
/// time that it is done the watch sees it.
#[derive(Drop)]
pub struct Watched<W: Watch> {
    /// What sees the calls.
    pub watch: W,
}

impl<W: Watch> PartObject for Watched<W> {
    type Part = u32;

    type Call = u32;

    type Done = u32;

    type Refusal = u32;

    type Ask = u32;

    type Seen = u32;

    type AskRefusal = u32;

    ghost meaning = { λ o. record {
      names = λ c. c % 2 ∷ [];
      refuses = λ c. None;
      applied = λ ps c. Ok (ps, 0);
    } };

    ghost refuses_first = { λ o. true };

    ghost count = { λ o. 2 };

    ghost good = { λ o n p. Unit {0} };

    ghost roomy = { λ o p. Unit {0} };

    ghost opens = { λ o ps. AreGood (λ n p. Unit {0}) (numbers 0 2) ps };

    ghost size = { λ p. 0 };

    ghost asked = { λ o n. Ok (n % 2) };

    ghost seen = { λ o p n. Ok p };

    /// Two parts.
    fn parts(&self) -> u32 {
        2
    }

    /// The first part for an even call, the second for an odd one.
    fn names(&self, call: &u32) -> u32 {
        1 << (*call % 2)
    }

    /// Refuses no call.
    fn refuse_names(&self, _call: &u32) -> Option<u32> {
        None
    }

    /// The first part for an even question, the second for an odd one.
    fn ask_part(&self, ask: &u32) -> Result<u32, u32> {
        Ok(*ask % 2)
    }

    /// Shows the call to the watch, changes nothing and answers 0.
    fn apply<L: Ledger>(
        &self,
        _alloc: Global,
        _parts: &mut Vec<u32>,
        call: &u32,
        steps: &mut Steps<L>,
    ) -> Result<u32, Fault<u32>> {
        steps.tick();
        self.watch.sees(*call);
        Ok(0)
    }

    /// The part as it stands.
    fn see(&self, _alloc: Global, part: &u32, _ask: &u32) -> Result<u32, Fault<u32>> {
        Ok(*part)
    }

    fn copy_part(&self, _alloc: Global, part: &u32) -> Result<u32, Memory> {
        Ok(*part)
    }

    fn copy_call(&self, _alloc: Global, call: &u32) -> Result<u32, Memory> {
        Ok(*call)
    }

    ghost named = { λ o c e. record {
      some = omega arith;
      ascend = (omega arith, omega arith, tt);
    } };

    ghost opening = { λ o ps h. (omega arith, omega arith, h) };

    ghost stays_roomy = { λ o ps qs entries opens legal comes. λ k d inside. tt };
}
