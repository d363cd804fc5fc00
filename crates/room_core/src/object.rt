// What a room can keep: an object over parts. A part is taken, changed and given back by itself, and a call changes the
// parts that it names.
ghost use Rattle.std.specs.Prelude.{◌≡◌, ◌≤◌, ◌<◌, ◌+◌, ◌*◌, ℕ, Bool, List, Option, None, Some, Result, Ok, IfOk, OnOk, All, sum_by};
ghost use Rattle.out_of_memory.specs.Answers.{Tells};
ghost use Rattle.room_core.specs.declared.entry.Entry.{Entry};
ghost use Rattle.room_core.specs.Calls.{AnswersCall};
ghost use Rattle.room_core.specs.History.{replay, IsLegal};
ghost use Rattle.room_core.specs.Parts.{AreGood, IsNaming, numbers};
ghost use Rattle.room_core.specs.Whole.{Meaning, set_of, whole};

use crate::{Fault, Memory};
use std::alloc::Global;
use std::sync::ledger::Ledger;
use step_count::Steps;

/// An object over parts, numbered from 0. What its calls and questions mean depends on the object's value, the parts that
/// the call names and the call alone.
pub trait PartObject {
    /// What a call takes, changes and gives back by itself, as a track of a cut.
    type Part: Drop;

    /// What changes parts, as an edit.
    type Call: Drop;

    /// What a call answers that was done.
    type Done: Drop;

    /// Why a call was not done.
    type Refusal: Drop;

    /// A question about one part.
    type Ask: Drop;

    /// What a question is answered.
    type Seen: Drop;

    /// Why a question has no answer.
    type AskRefusal: Drop;

    /// What its calls mean.
    ghost meaning: { Self → Meaning Self.Part Self.Call Self.Done Self.Refusal };

    /// Whether a call that is to be refused is refused whatever memory there is.
    ghost refuses_first: { Self → Bool };

    /// How many parts it has.
    ghost count: { Self → ℕ };

    /// A part that can stand at a number.
    ghost good: { Self → ℕ → Self.Part → Type 0 };

    /// A part that has room for one call more.
    ghost roomy: { Self → Self.Part → Type 0 };

    /// Parts that a history can begin with.
    ghost opens: { Self → List Self.Part → Type 0 };

    /// How large a part is, for the count of steps.
    ghost size: { Self.Part → ℕ };

    /// The number of the part that a question is about, or why it is about none.
    ghost asked: { Self → Self.Ask → Result ℕ Self.AskRefusal };

    /// What a question about a part is answered.
    ghost seen: { Self → Self.Part → Self.Ask → Result Self.Seen Self.AskRefusal };

    /// How many parts it has, as a number of the program.
    fn parts(&self) -> u32
        ensures { result ≡ count self.now };

    /// The parts that a call names, as a set: bit n for the part n.
    fn names(&self, call: &Self::Call) -> u32
        ensures { result ≡ set_of ((meaning self.now).names call.now) };

    /// Why a call is refused for the parts that it names, before one is looked at; `None` where they are there.
    fn refuse_names(&self, call: &Self::Call) -> Option<Self::Refusal>
        ensures { result ≡ (meaning self.now).refuses call.now };

    /// The number of the part that a question is about, or why it is about none.
    fn ask_part(&self, ask: &Self::Ask) -> Result<u32, Self::AskRefusal>
        ensures asked { result ≡ asked self.now ask.now }
        ensures within { IfOk result (λ n. n < count self.now) };

    /// Does a call on the parts that it names, handed in in ascending order, or refuses it, or finds no memory. It changes
    /// nothing where it does not do the call. It leaves as many parts, in their order, each good at its number.
    fn apply<L: Ledger>(
        &self,
        alloc: Global,
        parts: &mut Vec<Self::Part>,
        call: &Self::Call,
        steps: &mut Steps<L>,
    ) -> Result<Self::Done, Fault<Self::Refusal>>
        requires named { (meaning self.now).refuses call.now ≡ None }
        requires good { AreGood (good self.now)
            ((meaning self.now).names call.now) parts.old.items }
        requires roomy { All (roomy self.now) parts.old.items }
        ensures meant { AnswersCall (refuses_first self.now)
            ((meaning self.now).applied parts.old.items call.now)
            parts.old.items parts.new.items result }
        ensures good { AreGood (good self.now) ((meaning self.now).names call.now) parts.new.items }

        ensures least { steps.old + 1 ≤ steps.new }
        ensures most { steps.new ≤ steps.old + 32 * sum_by (λ p. size p + 64) parts.old.items };

    /// Answers a question from the part that it is about, or refuses it, or finds no memory.
    fn see(
        &self,
        alloc: Global,
        part: &Self::Part,
        ask: &Self::Ask,
    ) -> Result<Self::Seen, Fault<Self::AskRefusal>>
        requires good { (n : ℕ) × (asked self.now ask.now ≡ Ok n) × good self.now n part.now }
        ensures { Tells (seen self.now part.now ask.now) result };

    /// An equal part.
    fn copy_part(&self, alloc: Global, part: &Self::Part) -> Result<Self::Part, Memory>
        ensures { IfOk result (λ copy. copy ≡ part.now) };

    /// An equal call.
    fn copy_call(&self, alloc: Global, call: &Self::Call) -> Result<Self::Call, Memory>
        ensures { IfOk result (λ copy. copy ≡ call.now) };

    /// A call that is not refused for its names names parts that are there, in ascending order.
    ghost named: { (o : Self) (c : Self.Call) → (meaning o).refuses c ≡ None
        → IsNaming (count o) ((meaning o).names c) };

    /// An opening has from 1 to 32 parts, as many as the object, each good at its number.
    ghost opening: { (o : Self) (ps : List Self.Part) → opens o ps
        → (0 < count o) × (count o ≤ 32) × AreGood (good o) (numbers 0 (count o)) ps };

    /// The parts that a legal history comes to have room for one call more.
    ghost stays_roomy: { (o : Self) (ps qs : List Self.Part) (entries : List (Entry Self.Call))
        → opens o ps
        → IsLegal (whole (meaning o)) ps entries → replay (whole (meaning o)) ps entries ≡ Some qs
        → All (roomy o) qs };
}
