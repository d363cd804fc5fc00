// An open kept file, and an append to it.
ghost use Rattle.std.specs.Prelude.{◌≡◌, ◌≢◌, ◌<◌, ◌≤◌, ◌+◌, ◌^◌, ◌++◌, ◌∷◌, ◌↔◌, List, ℕ, [], length, None, Some, Ok};
ghost use Rattle.std.specs.Prelude.{IfOk, IfErr, IfSome, IsSome, IsTrue, OnOk, OnErr};
ghost use Rattle.room_ports.specs.Counts.{HasRisen};
ghost use Rattle.journal_file.specs.declared.faults.OpenFault.TheVariants as faults;
ghost use Rattle.journal_file.specs.declared.stage.Stage.TheVariants as stages;
ghost use Rattle.room_disks.specs.Crashes.{Told, Since, AtMost, Within};
ghost use Rattle.journal_file.specs.Layout.{Kept, IsLine, front_of};
ghost use Rattle.journal_file.specs.Stages.{Stands, IsEither, held_by};
ghost use Rattle.journal_file.specs.Standing.{StandsFor, HoldsLines, Explains, HarmsNothing};

use crate::held::Held;
use crate::line::GateLine;
use crate::opening::opened;
use crate::pending::put_held;
use crate::stage::Stage;
use crate::zeros::{ZEROS, put_zeros};
use crate::{Batch, OpenFault, Record};
use room_disks::Disk;
use room_ports::Failed;
use std::alloc::Global;
use std::marker::Model;

/// The most records of a kept file.
pub const MOST_RECORDS: u32 = 100_000;

// A file of fewer bytes gets no zeros after its gate.
const SMALL: u32 = 4096;

/// A kept file on a disk, open for appends.
#[derive(Drop)]
pub struct JournalFile<D: Disk> {
    disk: D,
    count: u32,
    gate: u32,
    // The place of the last of the zeros that were put after a gate; before there were any, that of the gate.
    end: u32,
    stage: Stage,
    held: Held,
}

impl<D: Disk> Model for JournalFile<D> {
    ghost use Rattle.std.specs.Prelude.{List, ℕ};
    ghost use Rattle.journal_file.specs.Standing.{JournalState};
    ghost use Rattle.journal_file.specs.Stages.{IsFiled, held_by, pending_of};

    ghost Value = { JournalState D };

    ghost view = { λ j. record {
      disk = j.disk;
      count = j.count;
      pending = pending_of j.stage (held_by j.held);
    } };

    ghost invariant = { λ j. (lines : List (List ℕ))
        × IsFiled (D.course j.disk) lines j.count j.gate j.stage (held_by j.held) };
}

impl<D: Disk> JournalFile<D> {
    /// Opens the file of a disk and gives its records, or hands the disk back with the fault. A new file is written; of
    /// any other what follows its gate is cut.
    pub fn open(alloc: Global, disk: D) -> Result<(JournalFile<D>, Vec<Record>), (OpenFault, D)>
        ensures records { IfOk result (λ r. Told (λ o n. Kept o.now.reads r.1.items)
            (D.course disk) (D.course r.0.disk)) }
        ensures within { IfOk result (λ r. Told (λ o n. length o.now.reads ≤ 2 ^ 27)
            (D.course disk) (D.course r.0.disk)) }
        ensures stands { IfOk result (λ r. StandsFor D.course r.0 r.1.items) }
        ensures settled { IfOk result (λ r. r.0.pending ≡ None) }
        ensures few { IfOk result (λ r. r.0.count ≤ 100000) }

        // Once the first sync has succeeded, each crash leaves these records, no more and no fewer.
        ensures moments { IfOk result (λ r. Told (Since (λ bytes. Kept bytes r.1.items))
            (D.course disk) (D.course r.0.disk)) }

        ensures fault { IfErr result (λ e. Explains e.0 (D.course disk) (D.course e.1)) }
        ensures harmless { IfErr result (λ e. Told HarmsNothing (D.course disk) (D.course e.1)) }
        ensures cause { IfErr result (λ e. e.0 ≡ faults.Failed
            → HasRisen (D.faults disk) (D.faults e.1)) }
        ensures quiet { IfOk result (λ r. D.faults r.0.disk ≡ D.faults disk) }
    {
        let mut disk = disk;
        match opened(alloc, &mut disk) {
            Ok((records, gate)) => {
                let file = JournalFile {
                    disk,
                    count: records.len() as u32,
                    gate,
                    end: gate,
                    stage: Stage::Settled,
                    held: Held::Lines(Batch::new(alloc)),
                };
                Ok((file, records))
            }
            Err(fault) => Err((fault, disk)),
        }
    }

    /// Adds a record. After `Failed` the same call goes on: it is to be called with the same line again.
    pub fn append(&mut self, line: &[u8]) -> Result<(), Failed>
        requires room { self.old.count < 100000 }
        requires line { IsLine line.now }
        requires again { IfSome self.old.pending (λ pending. pending ≡ line.now ∷ []) }

        // Acknowledged: from then on every crash leaves the record.
        ensures ok { OnOk result ((lines : List (List ℕ)) → StandsFor D.course self.old lines
            → StandsFor D.course self.new (lines ++ line.now ∷ [])) }
        ensures settled { OnOk result (self.new.pending ≡ None) }
        ensures counted { OnOk result (self.new.count ≡ self.old.count + 1) }

        // Every crash leaves the records from before, or these and the new one.
        ensures err { OnErr result ((lines : List (List ℕ)) → StandsFor D.course self.old lines
            → StandsFor D.course self.new lines) }
        ensures pending { OnErr result (self.new.pending ≡ Some (line.now ∷ [])) }
        ensures same { OnErr result (self.new.count ≡ self.old.count) }

        // So does a crash at any moment of the call.
        ensures moments { (lines : List (List ℕ)) → StandsFor D.course self.old lines
            → Told (Since (HoldsLines (Some (line.now ∷ [])) lines))
            (D.course self.old.disk) (D.course self.new.disk) }
        ensures calls { Told (AtMost 4) (D.course self.old.disk) (D.course self.new.disk) }

        ensures cause { OnErr result (HasRisen
            (D.faults self.old.disk) (D.faults self.new.disk)) }
        ensures quiet { OnOk result (D.faults self.new.disk ≡ D.faults self.old.disk) }
    {
        self.held = Held::Line(GateLine::of(line));
        put_held(
            &mut self.disk,
            &mut self.stage,
            &mut self.gate,
            &mut self.count,
            &self.held,
        )?;
        Ok(())
    }

    /// Adds the records of all these lines, in order. It takes no memory, and syncs no more often than for one. After
    /// `Failed` the file holds the lines, and `retry` goes on with them.
    pub fn append_batch(&mut self, batch: Batch) -> Result<(), Failed>
        requires settled { self.old.pending ≡ None }
        requires some { 0 < length batch }
        requires room { self.old.count + length batch ≤ 100000 }

        // Acknowledged: from then on every crash leaves all the records.
        ensures ok { OnOk result ((lines : List (List ℕ)) → StandsFor D.course self.old lines
            → StandsFor D.course self.new (lines ++ batch)) }
        ensures settled { OnOk result (self.new.pending ≡ None) }
        ensures counted { OnOk result (self.new.count ≡ self.old.count + length batch) }

        // Every crash leaves the records from before, or these and all the new ones.
        ensures err { OnErr result ((lines : List (List ℕ)) → StandsFor D.course self.old lines
            → StandsFor D.course self.new lines) }
        ensures pending { OnErr result (self.new.pending ≡ Some batch) }
        ensures same { OnErr result (self.new.count ≡ self.old.count) }

        // So does a crash at any moment of the call.
        ensures moments { (lines : List (List ℕ)) → StandsFor D.course self.old lines
            → Told (Since (HoldsLines (Some batch) lines))
            (D.course self.old.disk) (D.course self.new.disk) }
        ensures calls { Told (AtMost 4) (D.course self.old.disk) (D.course self.new.disk) }

        ensures cause { OnErr result (HasRisen
            (D.faults self.old.disk) (D.faults self.new.disk)) }
        ensures quiet { OnOk result (D.faults self.new.disk ≡ D.faults self.old.disk) }
    {
        batch.are_lines();
        self.held = Held::Lines(batch);
        put_held(
            &mut self.disk,
            &mut self.stage,
            &mut self.gate,
            &mut self.count,
            &self.held,
        )?;
        Ok(())
    }

    /// Goes on with the append that failed: with its lines and no others.
    pub fn retry(&mut self) -> Result<(), Failed>
        requires pending { IsSome self.old.pending }

        // Acknowledged: from then on every crash leaves all the records.
        ensures ok { OnOk result ((lines batch : List (List ℕ)) → self.old.pending ≡ Some batch
            → StandsFor D.course self.old lines → StandsFor D.course self.new (lines ++ batch)) }
        ensures settled { OnOk result (self.new.pending ≡ None) }
        ensures counted { OnOk result ((batch : List (List ℕ)) → self.old.pending ≡ Some batch
            → self.new.count ≡ self.old.count + length batch) }

        // Every crash leaves the records from before, or these and all the new ones.
        ensures err { OnErr result ((lines : List (List ℕ)) → StandsFor D.course self.old lines
            → StandsFor D.course self.new lines) }
        ensures pending { OnErr result (self.new.pending ≡ self.old.pending) }
        ensures same { OnErr result (self.new.count ≡ self.old.count) }

        // So does a crash at any moment of the call.
        ensures moments { (lines : List (List ℕ)) → StandsFor D.course self.old lines
            → Told (Since (HoldsLines self.old.pending lines))
            (D.course self.old.disk) (D.course self.new.disk) }
        ensures calls { Told (AtMost 4) (D.course self.old.disk) (D.course self.new.disk) }

        ensures cause { OnErr result (HasRisen
            (D.faults self.old.disk) (D.faults self.new.disk)) }
        ensures quiet { OnOk result (D.faults self.new.disk ≡ D.faults self.old.disk) }
    {
        put_held(
            &mut self.disk,
            &mut self.stage,
            &mut self.gate,
            &mut self.count,
            &self.held,
        )?;
        Ok(())
    }

    /// Whether an append of these lines would end past the zeros after the gate, and `make_room` is worth its sync: a small
    /// file is left as it is.
    pub fn lacks_room(&self, batch: &Batch) -> bool {
        let last = u64::from(self.gate) + batch.piece().len() as u64;
        self.gate >= SMALL && last > u64::from(self.end)
    }

    /// Puts zeros after the gate, which do not count, so that the appends that come next are written within the file: a
    /// sync of these need not write its length. Where it fails the file is as good, and no room is lacking for a while.
    pub fn make_room(&mut self) -> Result<(), Failed>
        requires settled { self.old.pending ≡ None }
        requires few { self.old.count ≤ 100000 }

        // Whatever comes of it, every crash leaves the records from before, no more and no fewer.
        ensures stands { (lines : List (List ℕ)) → StandsFor D.course self.old lines
            → StandsFor D.course self.new lines }
        ensures settled { self.new.pending ≡ None }
        ensures same { self.new.count ≡ self.old.count }

        // So does a crash at any moment of the call.
        ensures moments { (lines : List (List ℕ)) → StandsFor D.course self.old lines
            → Told (Since (λ bytes. Kept bytes lines))
            (D.course self.old.disk) (D.course self.new.disk) }
        ensures calls { Told (AtMost 2) (D.course self.old.disk) (D.course self.new.disk) }

        ensures cause { OnErr result (HasRisen
            (D.faults self.old.disk) (D.faults self.new.disk)) }
        ensures quiet { OnOk result (D.faults self.new.disk ≡ D.faults self.old.disk) }
    {
        self.end = self.gate.saturating_add(ZEROS.len() as u32);
        put_zeros(&mut self.disk, self.gate, ZEROS.as_slice())
    }

    /// How many records the file has.
    pub fn count(&self) -> u32
        ensures { result ≡ self.now.count }
    {
        self.count
    }

    /// Whether the last append failed, and its lines are held for `retry`.
    pub fn pending(&self) -> bool
        ensures { IsTrue result ↔ IsSome self.now.pending }
    {
        match self.stage {
            Stage::Settled => false,
            Stage::Staging | Stage::Opening => true,
        }
    }

    /// Gives the disk as it is. Of lines that are pending no more is written.
    pub fn close(self) -> D
        ensures { result ≡ self.disk }
    {
        let JournalFile { disk, .. } = self;
        disk
    }
}
