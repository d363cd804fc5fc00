// Zeros after the gate, within which lines are appended.
use crate::appends::ONE;
use crate::batches::{append, batch_of, long_batch};
use crate::crashes::opens_with;
use crate::texts::calls_of;
use journal_file::{JournalFile, MOST_RECORDS, OpenFault};
use room_disks::{Disk, MemDisk, SureDisk};
use std::alloc::{AllocError, Global};

// That file with another record after it.
const TWO: &str = "cutroom journal 1\n+one\n+two\n-";

// So many zeros are put at once.
const ZEROS: usize = 65_536;

// Makes room in a file of which nothing is pending: whether that was done.
fn make_room<D: Disk>(file: &mut JournalFile<D>) -> bool {
    if file.pending() || file.count() > MOST_RECORDS {
        return false;
    }
    file.make_room().is_ok()
}

// Opens a file of one record on a disk with these failing calls, makes room, and appends another: whether room was made,
// after how many failures the record was appended, and the disk.
fn grown_within(
    alloc: Global,
    failing: &[u32],
) -> Result<(bool, Option<u32>, MemDisk), AllocError> {
    let held = Vec::from_slice(alloc, ONE.as_bytes())?;
    let disk = MemDisk::new(alloc, held, Vec::from_slice(alloc, failing)?);
    let Some(batch) = batch_of(alloc, &["two"]) else {
        return Ok((false, None, disk));
    };
    match JournalFile::open(alloc, disk) {
        Ok((file, _)) => {
            let mut file = file;
            let made = make_room(&mut file);
            let came = append(&mut file, batch);
            Ok((made, came, file.close()))
        }
        Err((_, disk)) => Ok((false, None, disk)),
    }
}

// Whether these bytes are a text and then zeros, so many in all.
fn is_before_zeros(bytes: &[u8], text: &str, len: usize) -> bool {
    if bytes.len() != len || len < text.len() {
        return false;
    }
    let (front, rest) = bytes.split_at(text.len());
    for byte in rest {
        if *byte != 0 {
            return false;
        }
    }
    front == text.as_bytes()
}

#[test]
fn lines_are_appended_within_the_zeros(rt: HostRuntime) -> Result<(), AllocError> {
    let alloc = rt.alloc();
    let long = ONE.len() + ZEROS;
    // failing calls, whether room was made, which calls were made, how long the file is
    let cases: [(&[u32], bool, &str, usize); 5] = [
        (&[], true, "s...cswswsws", long),
        (&[7], false, "s...csWwsws", TWO.len()),
        (&[8], false, "s...csw.wsws", long),
        (&[9], true, "s...cswsWwsws", long),
        (&[12], true, "s...cswswsw.ws", long),
    ];
    for (failing, made, calls, len) in cases {
        let (came, _, disk) = grown_within(alloc, failing)?;
        assert!(rt; came == made, "{calls}");
        let Some(file) = disk.tape() else {
            return Ok(());
        };
        assert!(rt;
            calls_of(alloc, file)?.as_slice() == calls.as_bytes(),
            "{calls}"
        );
        assert!(rt; is_before_zeros(file.bytes(), TWO, len), "{calls}");
    }
    Ok(())
}

#[test]
fn a_crash_leaves_the_records_while_room_is_made(rt: HostRuntime) -> Result<(), OpenFault> {
    let alloc = rt.alloc();
    let (_, _, disk) = grown_within(alloc, &[])?;
    let Some(file) = disk.tape() else {
        return Ok(());
    };
    // calls by then, from the opening on: the zeros, their sync, the line, its sync, the gate
    for calls in 6..=11 {
        let lines = if calls < 11 {
            ("one/", "one/")
        } else {
            ("one/", "one/two/")
        };
        assert!(rt; opens_with(alloc, file, calls, 1, lines)?, "{calls}");
    }
    Ok(())
}

// Whether a file lacks room for a batch of so many lines of 1,024 bytes, before they are appended.
fn lacks<D: Disk>(
    alloc: Global,
    file: &mut JournalFile<D>,
    lines: u32,
) -> Result<bool, AllocError> {
    let batch = long_batch(alloc, lines)?;
    let lacking = file.lacks_room(&batch);
    append(file, batch);
    Ok(lacking)
}

#[test]
fn room_is_lacking_past_the_zeros_of_a_file_that_is_not_small(
    rt: HostRuntime,
) -> Result<(), AllocError> {
    let alloc = rt.alloc();
    let disk = SureDisk::new(alloc, Vec::from_slice(alloc, ONE.as_bytes())?);
    let (file, _) = match JournalFile::open(alloc, disk) {
        Ok(opened) => opened,
        Err(_) => return Ok(()),
    };
    let mut file = file;
    // lines of the next append, whether room is lacking for them
    for (lines, lacking) in [(3u32, false), (1, false), (1, true), (1, true)] {
        assert!(rt; lacks(alloc, &mut file, lines)? == lacking, "{lines}");
    }
    assert!(rt; make_room(&mut file));
    for (lines, lacking) in [(63u32, false), (1, true), (1, true)] {
        assert!(rt; lacks(alloc, &mut file, lines)? == lacking, "{lines}");
    }
    Ok(())
}
