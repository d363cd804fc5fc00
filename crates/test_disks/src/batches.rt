// Batches of lines, on disks of which each call fails in turn.
ghost use Rattle.std.specs.Prelude.{◌≡◌, ◌<◌, ◌≤◌, ◌+◌, None, length};

use crate::texts::has_done;
use journal_file::{Batch, JournalFile, MOST_LINES, MOST_RECORDS, is_line};
use room_disks::{Disk, MemDisk, SureDisk};
use std::alloc::{AllocError, Global};

// The batch of these lines; `None` where one of them is none, they are too many, or there is no memory.
pub fn batch_of(alloc: Global, lines: &[&str]) -> Option<Batch> {
    let mut batch = Batch::new(alloc);
    for line in lines {
        if !is_pushed(&mut batch, line.as_bytes()) {
            return None;
        }
    }
    Some(batch)
}

// Adds a line to a batch, where it is one and there is room: whether it was added.
fn is_pushed(batch: &mut Batch, line: &[u8]) -> bool {
    if batch.count() >= MOST_LINES || !is_line(line) {
        return false;
    }
    batch.push(line).is_ok()
}

// Appends a batch, and goes on with it up to twice where that fails: after how many failures it was done.
fn append_thrice<D: Disk>(file: &mut JournalFile<D>, batch: Batch) -> Option<u32>
    requires settled { file.old.pending ≡ None }
    requires some { 0 < length batch }
    requires room { file.old.count + length batch ≤ 100000 }
{
    match file.append_batch(batch) {
        Ok(()) => return Some(0),
        Err(_) => {}
    }
    match file.retry() {
        Ok(()) => return Some(1),
        Err(_) => {}
    }
    match file.retry() {
        Ok(()) => Some(2),
        Err(_) => None,
    }
}

// Appends a batch, and goes on with it up to twice, if the file takes it: after how many failures it was done.
pub fn append<D: Disk>(file: &mut JournalFile<D>, batch: Batch) -> Option<u32> {
    let count = batch.count();
    if file.pending() || count == 0 || file.count() > MOST_RECORDS - count {
        return None;
    }
    append_thrice(file, batch)
}

// Opens the file of a disk, appends a batch, and gives the disk back: after how many failures it was done, and how many
// records the file has.
fn grown<D: Disk>(alloc: Global, disk: D, batch: Batch) -> (Option<u32>, u32, D) {
    match JournalFile::open(alloc, disk) {
        Ok((file, _)) => {
            let mut file = file;
            let came = append(&mut file, batch);
            let count = file.count();
            (came, count, file.close())
        }
        Err((_, disk)) => (None, 0, disk),
    }
}

// A file with one record.
const ONE: &str = "cutroom journal 1\n+one\n-";

// That file with two more records after it.
const THREE: &str = "cutroom journal 1\n+one\n+two\n+three\n-";

// Whether two lines are appended at once to a file of one, on a disk with these failing calls, after so many failures,
// by these calls, and what the file holds then.
fn comes_to(
    alloc: Global,
    failing: &[u32],
    came: Option<u32>,
    calls: &str,
    bytes: &str,
) -> Result<bool, AllocError> {
    let held = Vec::from_slice(alloc, ONE.as_bytes())?;
    let disk = MemDisk::new(alloc, held, Vec::from_slice(alloc, failing)?);
    let Some(batch) = batch_of(alloc, &["two", "three"]) else {
        return Ok(false);
    };
    let (answer, count, disk) = grown(alloc, disk, batch);
    let counted = match came {
        Some(_) => 3,
        None => 1,
    };
    Ok(answer == came && count == counted && has_done(alloc, disk.tape(), calls, bytes)?)
}

#[test]
fn a_batch_is_appended_as_one_whatever_fails(rt: HostRuntime) -> Result<(), AllocError> {
    let alloc = rt.alloc();
    // failing calls, after how many failures it was done, which calls were made, what the file holds
    let cases: [(&[u32], Option<u32>, &str, &str); 8] = [
        (&[], Some(0), "s...cswsws", THREE),
        (&[7], Some(1), "s...csWwsws", THREE),
        (&[8], Some(1), "s...csw.wsws", THREE),
        // once the lines are on the disk, only the gate is written again
        (&[9], Some(1), "s...cswsWws", THREE),
        (&[10], Some(1), "s...cswsw.ws", THREE),
        (&[7, 8], Some(2), "s...csWWwsws", THREE),
        (&[7, 8, 9], None, "s...csWWW", ONE),
        (
            &[8, 10, 12],
            None,
            "s...csw.w.w.",
            "cutroom journal 1\n+one\n-two\n+three\n-",
        ),
    ];
    for (failing, came, calls, bytes) in cases {
        assert!(rt; comes_to(alloc, failing, came, calls, bytes)?, "{calls}");
    }
    Ok(())
}

// A batch of so many lines, each of 1,024 bytes, as far as it takes them.
pub fn long_batch(alloc: Global, lines: u32) -> Result<Batch, AllocError> {
    let line = vec![in alloc; b'x'; 1024]?;
    let mut batch = Batch::new(alloc);
    for _ in 0..lines {
        is_pushed(&mut batch, &line);
    }
    Ok(batch)
}

#[test]
fn a_batch_has_from_1_to_1024_lines(rt: HostRuntime) -> Result<(), AllocError> {
    let alloc = rt.alloc();
    // lines, how many records the file has
    for (lines, count) in [(0u32, 1u32), (1, 2), (1_024, 1_025), (1_025, 1_025)] {
        let held = Vec::from_slice(alloc, ONE.as_bytes())?;
        let disk = SureDisk::new(alloc, held);
        let (_, now, disk) = grown(alloc, disk, long_batch(alloc, lines)?);
        assert!(rt; now == count, "{lines}");
        let again = grown(alloc, disk, Batch::new(alloc));
        assert!(rt; again.1 == count, "{lines}");
    }
    Ok(())
}
