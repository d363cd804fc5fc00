// A desk: an open kept file, the pass that reads the room's journal for it, and its counts.
ghost use Rattle.std.specs.Prelude.{◌≡◌, ◌<◌, ◌≤◌, None, Some, IfOk, IfErr, IfSome, IsSome, OnOk, true, false, length, map, take, drop};
ghost use Rattle.room_core.specs.History.{IsLegal};
ghost use Rattle.room_core.specs.Whole.{whole};
ghost use Rattle.journal_file.specs.Standing.{StandsFor};
ghost use Rattle.edit_journal.specs.Seats.{Begins};
ghost use Rattle.room_keepers.specs.declared.fault.KeepFault.TheVariants as faults;
ghost use Rattle.kept_desk.specs.Desks.{IsDesk, IsReader};
ghost use Rattle.kept_desk.specs.Faults.{IsCountedFault};

use crate::batches::batch_of;
use crate::counting::Counting;
use crate::held_pass::HeldPass;
use crate::{EntryLines, Filing, Taken};
use append_receipts::{Clerk, Receipts};
use cut_room::Room;
use edit_journal::{Naming, Pass};
use journal_file::{Batch, JournalFile, MOST_LINES};
use room_core::{Entry, PartObject};
use room_disks::Disk;
use room_keepers::KeepFault;
use room_ports::Memory;
use std::alloc::Global;
use std::marker::{Model, PhantomData};
use std::sync::Wait;

/// What lies behind the lock of a kept file. `J` names the room's journal, `K` the file, and `T` writes entries as lines.
#[derive(Drop)]
pub struct Desk<
    D: Disk,
    O: PartObject,
    J: Naming<O, O::Part>,
    K: Filing<O::Call>,
    T: EntryLines<O>,
> {
    file: JournalFile<D>,
    pass: HeldPass<O, J>,
    counts: Counting,
    lines: T,
    of: PhantomData<K>,
}

impl<D: Disk, O: PartObject, J: Naming<O, O::Part>, K: Filing<O::Call>, T: EntryLines<O>> Model
    for Desk<D, O, J, K, T> {
    ghost use Rattle.kept_desk.specs.Desks.{DeskState, IsDesk};

    ghost Value = { DeskState D O O.Part O.Call };

    ghost view = { λ d. record { file = d.file; pass = d.pass; counts = d.counts } };

    ghost invariant = { λ d. IsDesk O.meaning J.opening T.line_of D.course D.faults
        K.table K.reader K.kept K.begun K.faults
        (record { file = d.file; pass = d.pass; counts = d.counts }) };
}

impl<D: Disk, O: PartObject, J: Naming<O, O::Part>, K: Filing<O::Call>, T: EntryLines<O>> Desk<
    D,
    O,
    J,
    K,
    T,
> {
    // How many records the file has.
    pub(crate) fn count(&self) -> u32
        ensures { result ≡ self.now.file.count }
    {
        self.file.count()
    }
}

impl<
    D: Disk,
    O: PartObject + Drop,
    J: Naming<O, O::Part>,
    K: Filing<O::Call>,
    T: EntryLines<O> + Drop,
> Desk<D, O, J, K, T> {
    /// A desk over a file that was opened just now, and over a pass that knows the entries of its records.
    pub fn new(
        file: JournalFile<D>,
        pass: Pass<O, J>,
        receipts: Receipts,
        clerk: Clerk,
        lines: T,
    ) -> Desk<D, O, J, K, T>
        requires reader { IsReader O.meaning J.opening pass }
        requires number { K.reader ≡ pass.number }
        requires begins { Begins pass.entries K.kept }
        requires stands { StandsFor D.course file (map T.line_of K.kept) }
        requires settled { file.pending ≡ None }
        requires begun { K.begun ≡ D.course file.disk }
        requires faults { K.faults ≡ D.faults file.disk }
        requires table { K.table ≡ receipts }
        requires clerk { clerk ≡ record { table = receipts; kept = file.count; failed = 0 } }
        ensures { result ≡ record { file = file; pass = pass; counts = clerk } }
    {
        Desk {
            file,
            pass: HeldPass::new(pass),
            counts: Counting::new(receipts, clerk),
            lines,
            of: PhantomData,
        }
    }

    // Whether lines are pending.
    fn is_pending(&self) -> bool
        ensures pending { result ≡ true → IsSome self.now.file.pending }
        ensures settled { result ≡ false → self.now.file.pending ≡ None }
    {
        self.file.pending()
    }

    // Goes on with the append that failed.
    fn put_pending(&mut self) -> Result<(), KeepFault>
        requires { IsSome self.old.file.pending }
        ensures more { OnOk result (self.old.file.count < self.new.file.count) }
        ensures ok { OnOk result (self.new.counts.failed ≡ self.old.counts.failed) }
        ensures least { self.old.file.count ≤ self.new.file.count }
        ensures fault { IfErr result
            (λ f. IsCountedFault f self.old.counts.failed self.new.counts.failed) }
    {
        let before = self.file.count();
        match self.file.retry() {
            Ok(()) => {
                self.counts.add_kept(self.file.count() - before);
                Ok(())
            }
            Err(_) => {
                self.counts.add_failed();
                Err(KeepFault::Disk)
            }
        }
    }

    // Makes room in the file for these lines and for those that come next, where it lacks it.
    fn make_room(&mut self, batch: &Batch) -> Result<(), KeepFault>
        requires settled { self.old.file.pending ≡ None }
        ensures settled { self.new.file.pending ≡ None }
        ensures same { self.new.file.count ≡ self.old.file.count }
        ensures pass { self.new.pass ≡ self.old.pass }
        ensures ok { OnOk result (self.new.counts.failed ≡ self.old.counts.failed) }
        ensures fault { IfErr result
            (λ f. IsCountedFault f self.old.counts.failed self.new.counts.failed) }
    {
        if !self.file.lacks_room(batch) {
            return Ok(());
        }
        match self.file.make_room() {
            Ok(()) => Ok(()),
            Err(_) => {
                self.counts.add_failed();
                Err(KeepFault::Disk)
            }
        }
    }

    // Appends the lines of the entries after those of the file.
    fn put_batch(&mut self, batch: Batch) -> Result<(), KeepFault>
        requires settled { self.old.file.pending ≡ None }
        requires some { 0 < length batch }
        requires next { batch ≡ map T.line_of
            (take (length batch) (drop self.old.file.count self.old.pass.entries)) }
        ensures more { OnOk result (self.old.file.count < self.new.file.count) }
        ensures ok { OnOk result (self.new.counts.failed ≡ self.old.counts.failed) }
        ensures least { self.old.file.count ≤ self.new.file.count }
        ensures fault { IfErr result
            (λ f. IsCountedFault f self.old.counts.failed self.new.counts.failed) }
    {
        let count = batch.count();
        match self.file.append_batch(batch) {
            Ok(()) => {
                self.counts.add_kept(count);
                Ok(())
            }
            Err(_) => {
                self.counts.add_failed();
                Err(KeepFault::Disk)
            }
        }
    }

    /// Takes the receipts of a taking back. What they tell is at most what stands here.
    pub fn settle(&mut self, taken: Taken<O::Call, K>)
        ensures kept { (taken.before.kept ≤ self.new.file.count)
            × (taken.after.kept ≤ self.new.file.count) }
        ensures failed { (taken.before.failed ≤ self.new.counts.failed)
            × (taken.after.failed ≤ self.new.counts.failed) }
        ensures same { self.new ≡ self.old }
    {
        let _ = self.settle_all(taken);
    }

    // The same, and gives the share of the table that was with them.
    fn settle_all(&mut self, taken: Taken<O::Call, K>) -> Option<Receipts>
        ensures kept { (taken.before.kept ≤ self.new.file.count)
            × (taken.after.kept ≤ self.new.file.count) }
        ensures failed { (taken.before.failed ≤ self.new.counts.failed)
            × (taken.after.failed ≤ self.new.counts.failed) }
        ensures table { IfSome result (λ table. table ≡ K.table) }
        ensures same { self.new ≡ self.old }
    {
        let Taken {
            before,
            after,
            kept: _,
            table,
            of: _,
        } = taken;
        self.counts.settle(before);
        self.counts.settle(after);
        table
    }

    // The same, where there are any receipts; else a share is made.
    fn settle_last(&mut self, last: Option<Taken<O::Call, K>>) -> Option<Receipts>
        ensures kept { IfSome last (λ t. t.after.kept ≤ self.new.counts.kept) }
        ensures failed { IfSome last (λ t. t.after.failed ≤ self.new.counts.failed) }
        ensures table { IfSome result (λ table. table ≡ K.table) }
        ensures same { self.new ≡ self.old }
    {
        let _ = &self.file;
        match last {
            Some(taken) => self.settle_all(taken),
            None => self.counts.share(),
        }
    }

    /// Ends the desk, of which all that its type says holds, and gives its file and its pass.
    pub fn close(self) -> (JournalFile<D>, Pass<O, J>)
        ensures file { result.0 ≡ self.file }
        ensures pass { result.1 ≡ self.pass }
        ensures desk { IsDesk O.meaning J.opening T.line_of D.course D.faults
            K.table K.reader K.kept K.begun K.faults self }
    {
        let Desk {
            file,
            pass,
            counts: _,
            lines: _,
            of: _,
        } = self;
        (file, pass.into_pass())
    }

    // All entries that the room has after those of the file, or the first of them.
    fn read<R: Wait>(
        &mut self,
        rt: &R,
        alloc: Global,
        room: &Room<O, J>,
    ) -> Result<Vec<Entry<O::Call>>, KeepFault>
        requires room { J.opening ≡ Some (room.now.object, room.now.parts) }
        ensures some { IfOk result (λ v. 0 < length v.items) }
        ensures next { IfOk result (λ v. v.items
            ≡ take 1024 (drop self.new.file.count self.new.pass.entries)) }
        ensures legal { IsLegal (whole (O.meaning room.now.object)) room.now.parts
            self.new.pass.entries }
        ensures file { self.new.file ≡ self.old.file }
        ensures counts { self.new.counts ≡ self.old.counts }
        ensures fault { IfErr result (λ f. f ≡ faults.Memory) }
    {
        let from = self.file.count();
        self.pass.entries(rt, alloc, room, from, MOST_LINES)
    }

    // The lines of these entries, which come after those of the file.
    fn lines_of(
        &self,
        alloc: Global,
        room: &Room<O, J>,
        entries: &[Entry<O::Call>],
    ) -> Result<Batch, Memory>
        requires some { 0 < length entries.now }
        requires next { entries.now ≡ take 1024 (drop self.now.file.count self.now.pass.entries) }
        requires legal { IsLegal (whole (O.meaning room.now.object)) room.now.parts
            self.now.pass.entries }
        ensures some { IfOk result (λ batch. 0 < length batch) }
        ensures next { IfOk result (λ batch. batch ≡ map T.line_of
            (take (length batch) (drop self.now.file.count self.now.pass.entries))) }
    {
        batch_of(alloc, &self.lines, room.object(), entries)
    }

    // A batch of the lines of the entries that come next.
    fn next_batch<R: Wait>(
        &mut self,
        rt: &R,
        alloc: Global,
        room: &Room<O, J>,
    ) -> Result<Batch, KeepFault>
        requires room { J.opening ≡ Some (room.now.object, room.now.parts) }
        ensures some { IfOk result (λ batch. 0 < length batch) }
        ensures next { IfOk result (λ batch. batch ≡ map T.line_of
            (take (length batch) (drop self.new.file.count self.new.pass.entries))) }
        ensures file { self.new.file ≡ self.old.file }
        ensures counts { self.new.counts ≡ self.old.counts }
        ensures fault { IfErr result (λ f. f ≡ faults.Memory) }
    {
        let entries = self.read(rt, alloc, room)?;
        let batch = self.lines_of(alloc, room, &entries)?;
        Ok(batch)
    }

    // Puts what is pending into the file, or else the lines of the entries after those of the file.
    fn keep_more<R: Wait>(
        &mut self,
        rt: &R,
        alloc: Global,
        room: &Room<O, J>,
    ) -> Result<(), KeepFault>
        requires room { J.opening ≡ Some (room.now.object, room.now.parts) }
        ensures more { OnOk result (self.old.file.count < self.new.file.count) }
        ensures ok { OnOk result (self.new.counts.failed ≡ self.old.counts.failed) }
        ensures least { self.old.file.count ≤ self.new.file.count }
        ensures fault { IfErr result
            (λ f. IsCountedFault f self.old.counts.failed self.new.counts.failed) }
    {
        if self.is_pending() {
            return self.put_pending();
        }
        let batch = self.next_batch(rt, alloc, room)?;
        self.make_room(&batch)?;
        self.put_batch(batch)
    }

    /// Brings the file up to a point, and on to all entries that the room has when it looks. What is pending comes first.
    pub fn keep_up_to<R: Wait>(
        &mut self,
        rt: &R,
        alloc: Global,
        room: &Room<O, J>,
        n: u32,
    ) -> Result<(), KeepFault>
        requires room { J.opening ≡ Some (room.now.object, room.now.parts) }
        ensures kept { OnOk result (n ≤ self.new.file.count) }
        ensures ok { OnOk result (self.new.counts.failed ≡ self.old.counts.failed) }
        ensures least { self.old.file.count ≤ self.new.file.count }
        ensures fault { IfErr result
            (λ f. IsCountedFault f self.old.counts.failed self.new.counts.failed) }
    {
        while self.count() < n {
            self.keep_more(rt, alloc, room)?;
        }
        Ok(())
    }

    /// The same between two receipts. Those of the taking before are taken back.
    pub fn keep<R: Wait>(
        &mut self,
        rt: &R,
        alloc: Global,
        room: &Room<O, J>,
        n: u32,
        last: Option<Taken<O::Call, K>>,
    ) -> (Result<(), KeepFault>, Taken<O::Call, K>)
        requires room { J.opening ≡ Some (room.now.object, room.now.parts) }
        ensures kept { OnOk result.0 (n ≤ result.1.after.kept) }
        ensures ok { OnOk result.0 (result.1.after.failed ≡ result.1.before.failed) }
        ensures least { length K.kept ≤ result.1.before.kept }
        ensures rises { result.1.before.kept ≤ result.1.after.kept }
        ensures last { IfSome last (λ t. (t.after.kept ≤ result.1.before.kept)
            × (t.after.failed ≤ result.1.before.failed)) }
        ensures fault { IfErr result.0
            (λ f. IsCountedFault f result.1.before.failed result.1.after.failed) }
    {
        let table = self.settle_last(last);
        let before = self.counts.give();
        let kept = self.keep_up_to(rt, alloc, room, n);
        let after = self.counts.give();
        let taken = Taken {
            before,
            after,
            kept: u64::from(self.file.count()),
            table,
            of: PhantomData,
        };
        (kept, taken)
    }
}
