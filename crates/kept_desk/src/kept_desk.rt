// A desk behind its lock.
ghost use Rattle.std.specs.Prelude.{◌≡◌, ◌≤◌, Some, IfErr, IfOk, IfSome, IsSomeAnd, OnOk, length};
ghost use Rattle.kept_desk.specs.Faults.{IsCountedFault};

use crate::turns::Turns;
use crate::{Desk, EntryLines, Filing, Taken};
use cut_room::Room;
use edit_journal::Naming;
use room_core::PartObject;
use room_disks::Disk;
use room_keepers::KeepFault;
use std::alloc::Global;
use std::sync::{Mutex, Wait};

/// A desk that many stations share. One of them appends for all who wait.
#[derive(Drop)]
pub struct KeptDesk<
    D: Disk,
    O: PartObject,
    J: Naming<O, O::Part>,
    K: Filing<O::Call>,
    T: EntryLines<O>,
> {
    desk: Mutex<Desk<D, O, J, K, T>>,
    turns: Turns,
}

impl<D: Disk, O: PartObject, J: Naming<O, O::Part>, K: Filing<O::Call>, T: EntryLines<O>> KeptDesk<
    D,
    O,
    J,
    K,
    T,
> {
    /// Puts a desk behind a lock.
    pub fn new(desk: Desk<D, O, J, K, T>) -> KeptDesk<D, O, J, K, T> {
        let turns = Turns::new(desk.count());
        KeptDesk {
            desk: Mutex::new(desk),
            turns,
        }
    }

    /// Takes the desk out of its lock.
    pub fn close(self) -> Desk<D, O, J, K, T> {
        let KeptDesk { desk, turns: _ } = self;
        desk.into_inner()
    }
}

// Receipts that tell that the file has so many records, by a look at the table; else the last ones, which may be newer.
fn looked<C, K: Filing<C>>(
    n: u32,
    last: Option<Taken<C, K>>,
) -> Result<Taken<C, K>, Option<Taken<C, K>>>
    ensures kept { IfOk result (λ t. (n ≤ t.after.kept) × (t.after.failed ≡ t.before.failed)
        × (t.before.kept ≤ t.after.kept) × (length K.kept ≤ t.before.kept)) }
    ensures last { IfOk result (λ t. IfSome last (λ l. (l.after.kept ≤ t.before.kept)
        × (l.after.failed ≤ t.before.failed))) }
    ensures newer { IfErr result (λ newer. IfSome last (λ l. IsSomeAnd newer (λ t.
        (l.after.kept ≤ t.after.kept) × (l.after.failed ≤ t.after.failed)))) }
{
    let Some(last) = last else {
        return Err(None);
    };
    match last.look() {
        Ok(taken) if u64::from(n) <= taken.kept() => Ok(taken),
        Ok(taken) | Err(taken) => Err(Some(taken)),
    }
}

impl<
    D: Disk,
    O: PartObject + Drop,
    J: Naming<O, O::Part>,
    K: Filing<O::Call>,
    T: EntryLines<O> + Drop,
> KeptDesk<D, O, J, K, T> {
    /// Has the file hold the room's entries before a point, and tells by receipts what it counted as it began and as it
    /// ended. The receipts of the last taking are handed in, and are taken back. A point that the room has told somebody
    /// is one that it has.
    pub fn keep<R: Wait>(
        &self,
        rt: &R,
        alloc: Global,
        room: &Room<O, J>,
        n: u32,
        last: Option<Taken<O::Call, K>>,
    ) -> (Result<(), KeepFault>, Taken<O::Call, K>)
        requires room { J.opening ≡ Some (room.now.object, room.now.parts) }

        // Kept: the file has at least so many records, which are the lines of the first entries of the journal.
        ensures kept { OnOk result.0 (n ≤ result.1.after.kept) }
        ensures ok { OnOk result.0 (result.1.after.failed ≡ result.1.before.failed) }

        // The counts only rise, from the start and from one taking to the next too.
        ensures least { length K.kept ≤ result.1.before.kept }
        ensures rises { result.1.before.kept ≤ result.1.after.kept }
        ensures last { IfSome last (λ t. (t.after.kept ≤ result.1.before.kept)
            × (t.after.failed ≤ result.1.before.failed)) }

        // A fault of the disk was counted; that there was no memory was not.
        ensures fault { IfErr result.0
            (λ f. IsCountedFault f result.1.before.failed result.1.after.failed) }
    {
        let last = match looked(n, last) {
            Ok(taken) => return (Ok(()), taken),
            Err(last) => last,
        };
        match self.turns.come(rt, n) {
            true => {
                let (kept, taken) = self.keep_now(rt, alloc, room, n, last);
                self.turns.leave(rt, taken.kept());
                (kept, taken)
            }
            false => match looked(n, last) {
                Ok(taken) => (Ok(()), taken),
                Err(last) => self.keep_now(rt, alloc, room, n, last),
            },
        }
    }

    // The same out of turn.
    fn keep_now<R: Wait>(
        &self,
        rt: &R,
        alloc: Global,
        room: &Room<O, J>,
        n: u32,
        last: Option<Taken<O::Call, K>>,
    ) -> (Result<(), KeepFault>, Taken<O::Call, K>)
        requires room { J.opening ≡ Some (room.now.object, room.now.parts) }
        ensures kept { OnOk result.0 (n ≤ result.1.after.kept) }
        ensures ok { OnOk result.0 (result.1.after.failed ≡ result.1.before.failed) }
        ensures least { length K.kept ≤ result.1.before.kept }
        ensures rises { result.1.before.kept ≤ result.1.after.kept }
        ensures last { IfSome last (λ t. (t.after.kept ≤ result.1.before.kept)
            × (t.after.failed ≤ result.1.before.failed)) }
        ensures fault { IfErr result.0
            (λ f. IsCountedFault f result.1.before.failed result.1.after.failed) }
    {
        let mut desk = self.desk.lock(rt);
        desk.keep(rt, alloc, room, n, last)
    }
}
