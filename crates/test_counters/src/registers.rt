// Registers: an object to try a journal and a room on, of which each part is a number that a call writes.
ghost use Rattle.std.specs.Prelude.{None, Some, Ok, Err, true, nat_lt, if◌then◌else◌};
ghost use Rattle.test_counters.specs.Registers.{registers, is_any, CanOpen};
ghost use Rattle.test_counters.specs.RegisterLaws.{registers-named};

use room_core::{Fault, Memory, PartObject};
use std::alloc::Global;
use std::sync::ledger::Ledger;
use step_count::Steps;

/// So many registers. One that holds the greatest number is never copied: it answers out of memory.
#[derive(Clone, Copy, Debug)]
pub struct Registers {
    /// How many, from 1 to 32.
    pub count: u32,
}

impl PartObject for Registers {
    type Part = u32;

    // The number of the register, and what is written.
    type Call = (u32, u32);

    type Done = u32;

    type Refusal = u32;

    type Ask = u32;

    type Seen = u32;

    type AskRefusal = u32;

    ghost meaning = { λ o. registers o.count };

    ghost refuses_first = { λ o. true };

    ghost count = { λ o. o.count };

    ghost good = { λ o. is_any };

    ghost roomy = { λ o p. Unit {0} };

    ghost opens = { λ o ps. CanOpen o.count ps };

    ghost size = { λ p. 0 };

    ghost asked = { λ o n. if nat_lt n o.count then Ok n else Err n };

    ghost seen = { λ o p n. Ok p };

    /// As many parts as registers.
    fn parts(&self) -> u32 {
        self.count
    }

    /// The register that is written; none from 32 on.
    fn names(&self, call: &(u32, u32)) -> u32 {
        if call.0 < 32 { 1 << call.0 } else { 0 }
    }

    /// Refuses a call with the number of a register that is not there.
    fn refuse_names(&self, call: &(u32, u32)) -> Option<u32> {
        if call.0 < self.count {
            None
        } else {
            Some(call.0)
        }
    }

    /// The register that is asked for, or its number where there is none.
    fn ask_part(&self, ask: &u32) -> Result<u32, u32> {
        if *ask < self.count {
            Ok(*ask)
        } else {
            Err(*ask)
        }
    }

    /// Writes the number and answers it. It takes no memory.
    fn apply<L: Ledger>(
        &self,
        _alloc: Global,
        parts: &mut Vec<u32>,
        call: &(u32, u32),
        steps: &mut Steps<L>,
    ) -> Result<u32, Fault<u32>> {
        steps.tick();
        parts[0] = call.1;
        Ok(call.1)
    }

    /// The register as it stands.
    fn see(&self, _alloc: Global, part: &u32, _ask: &u32) -> Result<u32, Fault<u32>> {
        Ok(*part)
    }

    /// An equal register, or out of memory where it holds the greatest number.
    fn copy_part(&self, _alloc: Global, part: &u32) -> Result<u32, Memory> {
        if *part == u32::MAX {
            return Err(Memory);
        }
        Ok(*part)
    }

    fn copy_call(&self, _alloc: Global, call: &(u32, u32)) -> Result<(u32, u32), Memory> {
        Ok(*call)
    }

    ghost named = { λ o c e. registers-named o.count c e };

    ghost opening = { λ o ps h. h };

    ghost stays_roomy = { λ o ps qs entries opens legal comes. λ k d inside. tt };
}
