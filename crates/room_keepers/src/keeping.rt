// What keeps the journal of a room.
ghost use Rattle.std.specs.Prelude.{◌≡◌, ◌≤◌, true, Some, IfErr, IfSome, OnOk};
ghost use Rattle.room_keepers.specs.Faults.{IsCounted};

use crate::KeepFault;
use cut_room::Room;
use edit_journal::Naming;
use room_core::PartObject;
use std::alloc::Global;
use std::sync::Wait;

/// Keeps the journal of a room whose name is `J`. Many stations ask it at once.
pub trait Keeping<O: PartObject, J: Naming<O, O::Part>> {
    ghost use Rattle.std.specs.Prelude.{ℕ, Option};
    ghost use Rattle.room_keepers.specs.declared.fault.KeepFault.{KeepFault};

    /// What who asked goes away with, and hands in when it asks again.
    type Taken: Send + Drop;

    /// How many entries are known to be kept by who asked so, or has not asked yet. They stay kept.
    ghost upto: { Option Self.Taken → ℕ };

    /// How many failures of a disk are known to have been counted by who asked so.
    ghost failures: { Option Self.Taken → ℕ };

    /// Whether it may fail so at all.
    ghost may_fail: { KeepFault → Type 0 };

    /// Whether the entries before a point are known to be kept. It waits for nobody.
    fn is_kept(&self, last: &Option<Self::Taken>, n: u32) -> bool
        requires { n ≤ 100000 }
        ensures { result ≡ true → n ≤ upto last.now };

    /// Looks how many entries are kept by now, which who asked so knows from then on. It waits for nobody, and answers
    /// `None` where that is not told.
    fn look(&self, taken: &mut Option<Self::Taken>) -> Option<u64>
        ensures stays { upto taken.old ≤ upto taken.new }
        ensures known { IfSome result (λ kept. kept ≡ upto taken.new) };

    /// Has the entries before a point kept, which the room has told somebody of. What was taken when it was asked last is
    /// handed in, and what is taken now stands in its place.
    fn keep<R: Wait>(
        &self,
        rt: &R,
        alloc: Global,
        room: &Room<O, J>,
        n: u32,
        taken: &mut Option<Self::Taken>,
    ) -> Result<(), KeepFault>
        requires room { J.opening ≡ Some (room.now.object, room.now.parts) }
        requires within { n ≤ 100000 }
        ensures kept { OnOk result (n ≤ upto taken.new) }
        ensures stays { upto taken.old ≤ upto taken.new }
        ensures fault { IfErr result
            (λ f. may_fail f × IsCounted f (failures taken.new)) };
}
