// What keeps nothing.
ghost use Rattle.std.specs.Prelude.{◌≡◌, ◌≤◌, Some, IfErr};
ghost use Rattle.room_keepers.specs.Faults.{IsCounted};

use crate::{KeepFault, Keeping};
use cut_room::Room;
use edit_journal::Naming;
use room_core::PartObject;
use std::alloc::Global;
use std::sync::Wait;

/// Keeps nothing while the room is open: nobody waits, and nothing fails.
#[derive(Clone, Copy, Debug)]
pub struct KeepsNothing;

/// What who asked it goes away with: nothing.
#[derive(Debug, Drop)]
pub struct Nothing;

impl<O: PartObject, J: Naming<O, O::Part>> Keeping<O, J> for KeepsNothing {
    type Taken = Nothing;

    // It promises no entry, so each counts as kept; a journal has at most so many.
    ghost upto = { λ last. 100000 };

    ghost failures = { λ last. 0 };

    ghost may_fail = { λ fault. ⊥ };

    fn is_kept(&self, _: &Option<Nothing>, n: u32) -> bool
        requires { n ≤ 100000 }
    {
        true
    }

    fn look(&self, _: &mut Option<Nothing>) -> Option<u64> {
        None
    }

    fn keep<R: Wait>(
        &self,
        _: &R,
        _: Global,
        _: &Room<O, J>,
        n: u32,
        _: &mut Option<Nothing>,
    ) -> Result<(), KeepFault>
        requires within { n ≤ 100000 }
        ensures fault { IfErr result (λ f. ⊥ × IsCounted f 0) }
    {
        Ok(())
    }
}
