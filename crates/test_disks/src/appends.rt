// Appends, on disks of which each call fails in turn, and to files that are opened again.
ghost use Rattle.std.specs.Prelude.{◌≡◌, ◌<◌, None};
ghost use Rattle.journal_file.specs.Layout.{IsLine};

use crate::texts::{has_done, opens_as};
use journal_file::{JournalFile, MOST_RECORDS, OpenFault, is_line};
use room_disks::{Disk, MemDisk, StdDisk, SureDisk};
use std::alloc::{AllocError, Global};
use std::fs;
use std::test::Fail;

// What came of a file that was opened for an append.
#[derive(Clone, Copy, Debug, PartialEq, Eq)]
pub enum Came {
    // The file was not opened, for this fault.
    NotOpened(OpenFault),
    // It has a pending append, or as many records as it takes, or the bytes are no line.
    NotTaken,
    // The append was done after so many failures, of one or two tries.
    Done(u32),
    // Both tries failed.
    Failed,
}

// Appends a line, and once more where that fails.
fn append_twice<D: Disk>(file: &mut JournalFile<D>, line: &[u8]) -> Came
    requires room { file.old.count < 100000 }
    requires line { IsLine line.now }
    requires settled { file.old.pending ≡ None }
{
    match file.append(line) {
        Ok(()) => return Came::Done(0),
        Err(_) => {}
    }
    match file.append(line) {
        Ok(()) => Came::Done(1),
        Err(_) => Came::Failed,
    }
}

// Appends a line, and once more where that fails, if the file takes the line.
fn append<D: Disk>(file: &mut JournalFile<D>, line: &[u8]) -> Came {
    if file.pending() || file.count() >= MOST_RECORDS || !is_line(line) {
        return Came::NotTaken;
    }
    append_twice(file, line)
}

// Opens the file of a disk, appends a line to it, and gives the disk back.
pub fn grown<D: Disk>(alloc: Global, disk: D, line: &str) -> (Came, D) {
    match JournalFile::open(alloc, disk) {
        Ok((file, _)) => {
            let mut file = file;
            let came = append(&mut file, line.as_bytes());
            (came, file.close())
        }
        Err((fault, disk)) => (Came::NotOpened(fault), disk),
    }
}

// Opens the file of a disk over memory that holds these bytes, with these failing calls, and appends a line
// to it, as `grown` does.
pub fn grown_in_memory(
    alloc: Global,
    bytes: &str,
    failing: &[u32],
    line: &str,
) -> Result<(Came, MemDisk), AllocError> {
    let held = Vec::from_slice(alloc, bytes.as_bytes())?;
    let disk = MemDisk::new(alloc, held, Vec::from_slice(alloc, failing)?);
    Ok(grown(alloc, disk, line))
}

// A file with one record.
pub const ONE: &str = "cutroom journal 1\n+one\n-";

// That file with another record after it.
const TWO: &str = "cutroom journal 1\n+one\n+two\n-";

#[test]
fn each_call_fails_in_turn(rt: HostRuntime) -> Result<(), AllocError> {
    use Came::{Done, Failed, NotOpened};
    let alloc = rt.alloc();
    let fault = NotOpened(OpenFault::Failed);
    // failing calls, what came, which calls were made, what the file holds
    let cases: [(&[u32], Came, &str, &str); 14] = [
        (&[], Done(0), "s...cswsws", TWO),
        (&[1], fault, ".", ONE),
        (&[2], fault, "s.", ONE),
        (&[3], fault, "s..", ONE),
        (&[4], fault, "s...", ONE),
        (&[5], fault, "s...C", ONE),
        (&[6], fault, "s...c.", ONE),
        (&[7], Done(1), "s...csWwsws", TWO),
        (&[8], Done(1), "s...csw.wsws", TWO),
        // once the line is on the disk, only the gate is written again
        (&[9], Done(1), "s...cswsWws", TWO),
        (&[10], Done(1), "s...cswsw.ws", TWO),
        (&[7, 8], Failed, "s...csWW", ONE),
        (
            &[8, 10],
            Failed,
            "s...csw.w.",
            "cutroom journal 1\n+one\n-two\n-",
        ),
        (&[10, 12], Failed, "s...cswsw.w.", TWO),
    ];
    for (failing, came, calls, bytes) in cases {
        let (answer, disk) = grown_in_memory(alloc, ONE, failing, "two")?;
        assert!(rt; answer == came, "{calls}");
        assert!(rt; has_done(alloc, disk.tape(), calls, bytes)?, "{calls}");
    }
    Ok(())
}

#[test]
fn each_call_on_a_new_file_fails_in_turn(rt: HostRuntime) -> Result<(), AllocError> {
    use Came::{Done, NotOpened};
    let alloc = rt.alloc();
    let fault = NotOpened(OpenFault::Failed);
    let new = "cutroom journal 1\n-";
    let cases: [(&[u32], Came, &str, &str); 5] = [
        (&[], Done(0), "s..wswsws", "cutroom journal 1\n+two\n-"),
        (&[3], fault, "s..", ""),
        (&[4], fault, "s..W", ""),
        (&[5], fault, "s..w.", new),
        (&[6], Done(1), "s..wsWwsws", "cutroom journal 1\n+two\n-"),
    ];
    for (failing, came, calls, bytes) in cases {
        let (answer, disk) = grown_in_memory(alloc, "", failing, "two")?;
        assert!(rt; answer == came, "{calls}");
        assert!(rt; has_done(alloc, disk.tape(), calls, bytes)?, "{calls}");
    }
    Ok(())
}

#[test]
fn a_file_takes_lines_alone(rt: HostRuntime) -> Result<(), AllocError> {
    let alloc = rt.alloc();
    let long = vec![in alloc; b'x'; 1024]?;
    for (line, came) in [
        (b"".as_slice(), Came::NotTaken),
        (b"a\nb".as_slice(), Came::NotTaken),
        (b"\n".as_slice(), Came::NotTaken),
        (b"+".as_slice(), Came::Done(0)),
        (long.as_slice(), Came::Done(0)),
    ] {
        let disk = SureDisk::new(alloc, Vec::from_slice(alloc, ONE.as_bytes())?);
        assert!(rt; appended(alloc, disk, line) == came);
    }
    Ok(())
}

// Opens the file of a disk and appends these bytes: what came.
fn appended<D: Disk + Drop>(alloc: Global, disk: D, line: &[u8]) -> Came {
    match JournalFile::open(alloc, disk) {
        Ok((file, _)) => {
            let mut file = file;
            append(&mut file, line)
        }
        Err((fault, _)) => Came::NotOpened(fault),
    }
}

// Appends these lines to the file of a disk, which is opened anew for each, and gives the disk back; `None` where one
// is not appended at once.
fn grown_by_each<D: Disk + Drop>(alloc: Global, disk: D, lines: &[&str]) -> Option<D> {
    let mut disk = disk;
    for line in lines {
        let (came, now) = grown(alloc, disk, line);
        if came != Came::Done(0) {
            return None;
        }
        disk = now;
    }
    Some(disk)
}

#[test]
fn a_file_that_is_opened_again_has_what_was_appended(rt: HostRuntime) -> Result<(), Fail> {
    let alloc = rt.alloc();
    let lines = ["0 1 slice 0 10", "0 2 slice 0 20", "+"];
    let want = "cutroom journal 1\n+0 1 slice 0 10\n+0 2 slice 0 20\n++\n-";
    let disk = SureDisk::new(alloc, Vec::new(alloc));
    let disk = grown_by_each(alloc, disk, &lines).ok_or("appends")?;
    let tape = disk.tape().ok_or("a tape")?;
    assert!(rt; tape.bytes() == want.as_bytes());
    assert!(rt; opens_as(alloc, tape.bytes(), Ok("0 1 slice 0 10/0 2 slice 0 20/+/")));

    let mut disk = StdDisk::new(alloc, &rt, rt.stderr());
    assert!(rt; disk.open("kept").is_ok());
    assert!(rt; grown_by_each(alloc, disk, &lines).is_some());
    assert_eq!(rt; fs::read_to_string(&rt, "kept")?.as_str(), want);
    Ok(())
}

#[test]
fn a_torn_last_line_is_cut_and_written_over(rt: HostRuntime) -> Result<(), AllocError> {
    let alloc = rt.alloc();
    // what a crash left of a file with the record `one`
    for left in [
        "cutroom journal 1\n+one\n-",
        "cutroom journal 1\n+one\n-t",
        "cutroom journal 1\n+one\n-two\n",
        "cutroom journal 1\n+one\n-two\n-",
        "cutroom journal 1\n+one\n-three\n-",
        "cutroom journal 1\n+one\n-\n+a\n-",
    ] {
        let (came, disk) = grown_in_memory(alloc, left, &[], "two")?;
        assert!(rt; came == Came::Done(0), "{left}");
        assert!(rt; has_done(alloc, disk.tape(), "s...cswsws", TWO)?, "{left}");
    }
    Ok(())
}

// A file with so many records of one byte.
fn file_of(alloc: Global, count: u32) -> Result<Vec<u8>, AllocError> {
    let mut bytes = Vec::from_slice(alloc, b"cutroom journal 1\n")?;
    for _ in 0..count {
        bytes.extend_from_slice(b"+a\n")?;
    }
    bytes.push(b'-')?;
    Ok(bytes)
}

// What an append to such a file comes to, and how many records it has then.
fn counted(alloc: Global, count: u32) -> Result<Option<(Came, u32)>, AllocError> {
    let disk = SureDisk::new(alloc, file_of(alloc, count)?);
    match JournalFile::open(alloc, disk) {
        Ok((file, _)) => {
            let mut file = file;
            let came = append(&mut file, b"b");
            Ok(Some((came, file.count())))
        }
        Err(_) => Ok(None),
    }
}

#[test]
fn a_file_takes_100000_records(rt: HostRuntime) -> Result<(), AllocError> {
    let alloc = rt.alloc();
    for (count, came, now) in [
        (0, Came::Done(0), 1),
        (99_999, Came::Done(0), 100_000),
        (100_000, Came::NotTaken, 100_000),
    ] {
        assert!(rt; counted(alloc, count)? == Some((came, now)), "{count}");
    }
    // more are told, and not opened
    for count in [100_001, 300_000] {
        let file = file_of(alloc, count)?;
        assert!(rt;
            opens_as(alloc, &file, Err(OpenFault::TooMany(count))),
            "{count}"
        );
    }
    Ok(())
}
