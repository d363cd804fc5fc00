// A desk as what keeps its room's journal.
ghost use Rattle.std.specs.Prelude.{◌≡◌, ◌≤◌, Some, IfErr, IfSome, OnOk, length};
ghost use Rattle.kept_desk.specs.Desks.{failures, upto};
ghost use Rattle.room_keepers.specs.Faults.{IsCounted};

use crate::{EntryLines, Filing, KeptDesk, Taken};
use cut_room::Room;
use edit_journal::Naming;
use room_core::PartObject;
use room_disks::Disk;
use room_keepers::{KeepFault, Keeping};
use std::alloc::Global;
use std::sync::Wait;

impl<
    D: Disk,
    O: PartObject<Call: Send> + Drop,
    J: Naming<O, O::Part>,
    K: Filing<O::Call> + Send,
    T: EntryLines<O> + Drop,
> Keeping<O, J> for KeptDesk<D, O, J, K, T> {
    type Taken = Taken<O::Call, K>;

    ghost upto = { λ last. upto (length K.kept) last };

    ghost failures = { λ last. failures last };

    ghost may_fail = { λ fault. Unit {0} };

    // Who has not asked yet asks for any point.
    fn is_kept(&self, last: &Option<Taken<O::Call, K>>, n: u32) -> bool {
        match last {
            Some(taken) => u64::from(n) <= taken.kept(),
            None => false,
        }
    }

    // Who has not asked yet is told nothing.
    fn look(&self, taken: &mut Option<Taken<O::Call, K>>) -> Option<u64>
        ensures stays { upto (length K.kept) taken.old ≤ upto (length K.kept) taken.new }
        ensures known { IfSome result (λ kept. kept ≡ upto (length K.kept) taken.new) }
    {
        match taken.take() {
            Some(last) => {
                let now = match last.look() {
                    Ok(now) | Err(now) => now,
                };
                let kept = now.kept();
                *taken = Some(now);
                Some(kept)
            }
            None => None,
        }
    }

    fn keep<R: Wait>(
        &self,
        rt: &R,
        alloc: Global,
        room: &Room<O, J>,
        n: u32,
        taken: &mut Option<Taken<O::Call, K>>,
    ) -> Result<(), KeepFault>
        requires room { J.opening ≡ Some (room.now.object, room.now.parts) }
        ensures kept { OnOk result (n ≤ upto (length K.kept) taken.new) }
        ensures stays { upto (length K.kept) taken.old ≤ upto (length K.kept) taken.new }
        ensures fault { IfErr result (λ f. Unit {0} × IsCounted f (failures taken.new)) }
    {
        let last = taken.take();
        let (kept, now) = self.keep(rt, alloc, room, n, last);
        *taken = Some(now);
        kept
    }
}
