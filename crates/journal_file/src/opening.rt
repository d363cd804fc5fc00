// A kept file is read, and its end is settled.
ghost use Rattle.std.specs.Prelude.{◌≡◌, ◌<◌, ◌≤◌, ◌+◌, ◌^◌, [], length, IfOk, IfErr, IfSome, Err};
ghost use Rattle.room_ports.specs.Counts.{HasRisen};
ghost use Rattle.journal_file.specs.declared.faults.OpenFault.TheVariants as faults;
ghost use Rattle.room_disks.specs.Crashes.{Told, Stays, Since, settled};
ghost use Rattle.journal_file.specs.Layout.{Kept};
ghost use Rattle.journal_file.specs.Stages.{HasRead, IsOpened};
ghost use Rattle.journal_file.specs.Standing.{Explains, HarmsNothing, KeepsRecords};

use crate::reading::{HEADER, records_in};
use crate::syncing::{cut_and_sync, write_and_sync};
use crate::{OpenFault, Record};
use room_disks::Disk;
use std::alloc::Global;

/// The most bytes of a kept file.
pub const MOST_BYTES: u32 = 1 << 27;

/// The most bytes of a file that counts as new.
const MOST_NEW: usize = 19;

// Reads the file, and settles its end: the records, and the place of the gate. It syncs first, so that what it reads is
// what a crash leaves.
pub fn opened<D: Disk>(alloc: Global, disk: &mut D) -> Result<(Vec<Record>, u32), OpenFault>
    ensures kept { IfOk result (λ r. Told (λ o n. Kept o.now.reads r.0.items)
        (D.course disk.old) (D.course disk.new)) }
    ensures within { IfOk result (λ _. Told (λ o n. length o.now.reads ≤ 2 ^ 27)
        (D.course disk.old) (D.course disk.new)) }
    ensures opened { IfOk result (λ r. IsOpened (D.course disk.new) r.0.items r.1) }
    ensures few { IfOk result (λ r. length r.0.items ≤ 100000) }
    ensures moments { IfOk result (λ r. Told (Since (λ bytes. Kept bytes r.0.items))
        (D.course disk.old) (D.course disk.new)) }
    ensures fault { IfErr result (λ e. Explains e (D.course disk.old) (D.course disk.new)) }
    ensures harmless { IfErr result (λ _. Told HarmsNothing
        (D.course disk.old) (D.course disk.new)) }
    ensures cause { (result ≡ Err faults.Failed)
        → HasRisen (D.faults disk.old) (D.faults disk.new) }
    ensures quiet { IfOk result (λ _. D.faults disk.new ≡ D.faults disk.old) }
{
    disk.sync()?;
    let bytes = whole_file(alloc, disk)?;
    let (records, gate) = settle(alloc, disk, bytes.as_slice())?;
    Ok((records, gate))
}

// All bytes of the file, which are at most 128 MiB.
fn whole_file<D: Disk>(alloc: Global, disk: &mut D) -> Result<Vec<u8>, OpenFault>
    ensures whole { IfOk result (λ v. Told (λ o n. v.items ≡ o.now.reads)
        (D.course disk.old) (D.course disk.new)) }
    ensures within { IfOk result (λ v. length v.items ≤ 2 ^ 27) }
    ensures looks { Told (HasRead []) (D.course disk.old) (D.course disk.new) }
    ensures fault { IfErr result (λ e. Explains e (D.course disk.old) (D.course disk.new)) }
    ensures cause { (result ≡ Err faults.Failed)
        → HasRisen (D.faults disk.old) (D.faults disk.new) }
    ensures quiet { IfOk result (λ _. D.faults disk.new ≡ D.faults disk.old) }
{
    if disk.len()? > MOST_BYTES {
        return Err(OpenFault::TooLarge);
    }
    let mut bytes = Vec::new(alloc);
    let mut piece = [0; 16384];
    while bytes.len() <= MOST_BYTES as usize {
        let count = disk.read(bytes.len() as u32, &mut piece)?;
        if count == 0 {
            return Ok(bytes);
        }
        bytes.extend_from_slice(&piece[..count])?;
    }
    Err(OpenFault::TooLarge)
}

// Writes a new file, and cuts any other after its gate. It gives the records of these bytes and the place of the gate.
fn settle<D: Disk>(
    alloc: Global,
    disk: &mut D,
    bytes: &[u8],
) -> Result<(Vec<Record>, u32), OpenFault>
    requires settled { IfSome (D.course disk.old) (λ c. c.now ≡ settled bytes.now) }
    requires within { length bytes.now ≤ 2 ^ 27 }
    ensures kept { IfOk result (λ r. Kept bytes.now r.0.items) }
    ensures opened { IfOk result (λ r. IsOpened (D.course disk.new) r.0.items r.1) }
    ensures few { IfOk result (λ r. length r.0.items ≤ 100000) }
    ensures moments { IfOk result (λ r. Told (Since (λ image. Kept image r.0.items))
        (D.course disk.old) (D.course disk.new)) }
    ensures fault { IfErr result (λ e. Explains e (D.course disk.old) (D.course disk.new)) }
    ensures harmless { IfErr result (λ _. Told (Since (KeepsRecords bytes.now))
        (D.course disk.old) (D.course disk.new)) }
    ensures cause { (result ≡ Err faults.Failed)
        → HasRisen (D.faults disk.old) (D.faults disk.new) }
    ensures quiet { IfOk result (λ _. D.faults disk.new ≡ D.faults disk.old) }
{
    if bytes.len() <= MOST_NEW {
        write_and_sync(disk, 0, NEW_FILE.as_slice())?;
        return Ok((Vec::new(alloc), HEADER.len() as u32));
    }
    let (records, gate) = records_in(alloc, bytes)?;
    let gate = gate as u32;
    cut_and_sync(disk, gate + 1)?;
    Ok((records, gate))
}

// What a new file is written with: the header and a closed gate.
const NEW_FILE: [u8; 19] = *b"cutroom journal 1\n-";
