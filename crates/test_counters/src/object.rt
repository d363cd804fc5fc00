// Counters as an object: each part is a number up to a bound, and a call adds an amount to counter 0 and another.
ghost use Rattle.std.specs.Prelude.{◌≡◌, ◌≤◌, ◌+◌, ◌^◌, Ok, Err, true, nat_lt, if◌then◌else◌};
ghost use Rattle.room_core.specs.Totals.{counters, at_most, CanOpen};
ghost use Rattle.room_core.specs.TotalLaws.{counters-named};

use room_core::{Fault, Memory, PartObject};
use std::alloc::Global;
use std::sync::ledger::Ledger;
use step_count::Steps;

/// So many counters, each at most as great as this.
///
/// A call is the number of another counter than 0, and an amount that is added to both. It answers the sum of counter 0.
/// A call that names no other counter is refused with the number that it names, one that passes the bound with the first
/// counter that would pass it, as it stands. A question is the number of a counter.
#[derive(Clone, Copy, Debug)]
pub struct Counters {
    /// How many counters there are.
    pub count: u32,
    /// The greatest number that a counter may come to.
    pub most: u32,
}

// The set of one part, bit n for the part n; no part from 32 on.
fn bit(number: u32) -> u32
    ensures bit { result ≡ (if nat_lt number 32 then 2 ^ number else 0) }
    ensures most { result ≤ 2 ^ 31 }
{
    if number < 32 { 1 << number } else { 0 }
}

impl PartObject for Counters {
    type Part = u32;

    // The number of the other counter, and the amount.
    type Call = (u32, u32);

    type Done = u32;

    type Refusal = u32;

    type Ask = u32;

    type Seen = u32;

    type AskRefusal = u32;

    ghost meaning = { λ o. counters o.count o.most };

    ghost refuses_first = { λ o. true };

    ghost count = { λ o. o.count };

    ghost good = { λ o. at_most o.most };

    ghost roomy = { λ o p. Unit {0} };

    ghost opens = { λ o ps. CanOpen o.count o.most ps };

    ghost size = { λ p. 0 };

    ghost asked = { λ o n. if nat_lt n o.count then Ok n else Err n };

    ghost seen = { λ o p n. Ok p };

    /// As many parts as counters.
    fn parts(&self) -> u32 {
        self.count
    }

    /// Counter 0, and the other one that the call names.
    fn names(&self, call: &(u32, u32)) -> u32 {
        1 + bit(call.0)
    }

    /// Refuses a call with the number that it names, where that is no other counter.
    fn refuse_names(&self, call: &(u32, u32)) -> Option<u32> {
        if call.0 > 0 && call.0 < self.count {
            None
        } else {
            Some(call.0)
        }
    }

    /// The counter that is asked for, or its number where there is none.
    fn ask_part(&self, ask: &u32) -> Result<u32, u32> {
        if *ask < self.count {
            Ok(*ask)
        } else {
            Err(*ask)
        }
    }

    /// Adds the amount to both counters, or refuses with the first of them that would pass the
    /// bound. It takes no memory.
    fn apply<L: Ledger>(
        &self,
        _alloc: Global,
        parts: &mut Vec<u32>,
        call: &(u32, u32),
        steps: &mut Steps<L>,
    ) -> Result<u32, Fault<u32>> {
        steps.tick();
        let (most, amount) = (self.most, call.1);
        let (total, counter) = (parts[0], parts[1]);
        if amount > most || total > most - amount {
            return Err(Fault::Refused(total));
        }
        if counter > most - amount {
            return Err(Fault::Refused(counter));
        }
        parts[0] = total + amount;
        parts[1] = counter + amount;
        Ok(total + amount)
    }

    /// The counter as it stands.
    fn see(&self, _alloc: Global, part: &u32, _ask: &u32) -> Result<u32, Fault<u32>> {
        Ok(*part)
    }

    fn copy_part(&self, _alloc: Global, part: &u32) -> Result<u32, Memory> {
        Ok(*part)
    }

    fn copy_call(&self, _alloc: Global, call: &(u32, u32)) -> Result<(u32, u32), Memory> {
        Ok(*call)
    }

    ghost named = { λ o c e. counters-named o.count o.most c e };

    ghost opening = { λ o ps h. h };

    ghost stays_roomy = { λ o ps qs entries opens legal comes. λ k d inside. tt };
}
