// What each disk answers, call by call.
use crate::texts::has_done;
use room_disks::{Disk, MemDisk, StdDisk, SureDisk};
use room_ports::Failed;
use std::alloc::{AllocError, Global};
use std::fs::{self, File};
use std::test::Fail;

/// A call of a disk.
#[derive(Clone, Copy)]
enum Step {
    /// Of a file by its name.
    Open(&'static str),
    Len,
    /// From this place on, up to so many bytes.
    Read(u32, usize),
    /// At this place, these bytes.
    Write(u32, &'static str),
    /// To this length.
    Cut(u32),
    Sync,
}

// `.` where the call was done, `!` for a fault.
fn push_done(answer: Result<(), Failed>, log: &mut Vec<u8>) -> Result<(), AllocError> {
    match answer {
        Ok(()) => log.push(b'.')?,
        Err(_) => log.push(b'!')?,
    }
    Ok(())
}

// The last digit of the length, `!` for a fault.
fn push_len(answer: Result<u32, Failed>, log: &mut Vec<u8>) -> Result<(), AllocError> {
    match answer {
        Ok(len) => log.push(b'0' + (len % 10) as u8)?,
        Err(_) => log.push(b'!')?,
    }
    Ok(())
}

// The bytes of a read with `/` after them, `!` for a fault.
fn push_read<D: Disk>(
    disk: &mut D,
    at: u32,
    room: usize,
    log: &mut Vec<u8>,
) -> Result<(), AllocError> {
    let mut buffer = [0u8; 16];
    match disk.read(at, &mut buffer[..room.min(16)]) {
        Ok(count) => {
            log.extend_from_slice(&buffer[..count])?;
            log.push(b'/')?;
        }
        Err(_) => log.push(b'!')?,
    }
    Ok(())
}

// A call: `.` where it is done, the last digit of a length, the bytes of a read with `/` after them, `!` for a fault.
fn push_step<D: Disk>(disk: &mut D, step: Step, log: &mut Vec<u8>) -> Result<(), AllocError> {
    match step {
        Step::Open(name) => push_done(disk.open(name), log),
        Step::Len => push_len(disk.len(), log),
        Step::Read(at, room) => push_read(disk, at, room, log),
        Step::Write(at, text) => push_done(disk.write_at(at, text.as_bytes()), log),
        Step::Cut(len) => push_done(disk.cut(len), log),
        Step::Sync => push_done(disk.sync(), log),
    }
}

// What these calls answer, one after the other.
fn disk_log<D: Disk>(alloc: Global, disk: &mut D, steps: &[Step]) -> Result<Vec<u8>, AllocError> {
    let mut log = Vec::new(alloc);
    for step in steps {
        push_step(disk, *step, &mut log)?;
    }
    Ok(log)
}

// Calls on a file without bytes.
const CALLS: [Step; 22] = [
    Step::Open("first"),
    Step::Len,
    Step::Read(0, 9),
    Step::Write(0, "abc"),
    Step::Len,
    Step::Read(0, 9),
    Step::Read(1, 1),
    Step::Read(1, 0),
    Step::Read(3, 1),
    Step::Read(9, 1),
    // the bytes between the end and the place are zeros
    Step::Write(5, "x"),
    Step::Len,
    Step::Read(2, 9),
    Step::Write(1, "BC"),
    Step::Sync,
    Step::Read(0, 4),
    Step::Cut(9),
    Step::Len,
    Step::Cut(2),
    Step::Len,
    Step::Sync,
    Step::Read(0, 9),
];

// What each of these calls answers.
const ANSWERS: &str = ".0/.3abc/b////.6c\0\0x/..aBC\0/.6.2.aB/";

#[test]
fn disks_over_memory_hold_what_was_written(rt: HostRuntime) -> Result<(), AllocError> {
    let alloc = rt.alloc();
    let mut disk = SureDisk::new(alloc, Vec::new(alloc));
    let log = disk_log(alloc, &mut disk, &CALLS)?;
    assert!(rt; log.as_slice() == ANSWERS.as_bytes());
    assert!(rt; has_done(alloc, disk.tape(), "...w......w..ws.c.c.s.", "aB")?);
    let mut disk = MemDisk::new(alloc, Vec::new(alloc), Vec::new(alloc));
    let log = disk_log(alloc, &mut disk, &CALLS)?;
    assert!(rt; log.as_slice() == ANSWERS.as_bytes());
    assert!(rt; has_done(alloc, disk.tape(), "...w......w..ws.c.c.s.", "aB")?);
    Ok(())
}

#[test]
fn a_disk_of_the_system_holds_what_was_written(rt: HostRuntime) -> Result<(), AllocError> {
    let alloc = rt.alloc();
    let mut disk = StdDisk::new(alloc, &rt, rt.stderr());
    let log = disk_log(alloc, &mut disk, &CALLS)?;
    assert!(rt; log.as_slice() == ANSWERS.as_bytes());
    drop(disk);
    // the file outlives the disk, and another can be opened beside it
    let mut disk = StdDisk::new(alloc, &rt, rt.stderr());
    let steps = [
        Step::Open("./first"),
        Step::Read(0, 9),
        Step::Open("second"),
        Step::Len,
        Step::Open("first"),
        Step::Len,
    ];
    let log = disk_log(alloc, &mut disk, &steps)?;
    assert!(rt; log.as_slice() == b".aB/.0.2".as_slice());
    Ok(())
}

#[test]
fn a_disk_of_the_system_without_an_open_file_fails(rt: HostRuntime) -> Result<(), AllocError> {
    let alloc = rt.alloc();
    let mut disk = StdDisk::new(alloc, &rt, rt.stderr());
    let steps = [
        Step::Len,
        Step::Read(0, 1),
        Step::Write(0, "a"),
        Step::Cut(0),
        Step::Sync,
        Step::Open("none/third"),
        Step::Len,
        Step::Open("third"),
        Step::Len,
        // the file that is open stays open
        Step::Open("none/third"),
        Step::Write(0, "a"),
        Step::Len,
    ];
    let log = disk_log(alloc, &mut disk, &steps)?;
    assert!(rt; log.as_slice() == b"!!!!!!!.0!.1".as_slice());
    Ok(())
}

#[test]
fn a_file_of_the_system_is_open_once(rt: HostRuntime) -> Result<(), AllocError> {
    let alloc = rt.alloc();
    let mut first = StdDisk::new(alloc, &rt, rt.stderr());
    let mut second = StdDisk::new(alloc, &rt, rt.stderr());
    let log = disk_log(alloc, &mut first, &[Step::Open("one"), Step::Write(0, "a")])?;
    assert!(rt; log.as_slice() == b"..".as_slice());
    // neither another disk opens it nor the one that has it open, which goes on with it
    let log = disk_log(alloc, &mut second, &[Step::Open("./one"), Step::Len])?;
    assert!(rt; log.as_slice() == b"!!".as_slice());
    let log = disk_log(alloc, &mut first, &[Step::Open("one"), Step::Len])?;
    assert!(rt; log.as_slice() == b"!1".as_slice());
    // once it is closed, another does
    drop(first);
    let log = disk_log(alloc, &mut second, &[Step::Open("one"), Step::Len])?;
    assert!(rt; log.as_slice() == b".1".as_slice());
    Ok(())
}

// Opens these files, one after the other, whatever comes of it.
fn open_each<D: Disk>(disk: &mut D, names: &[&str]) {
    for name in names {
        let _ = disk.open(*name);
    }
}

// What a disk of the system tells while these files are opened.
fn told_of(rt: &HostRuntime, names: &[&str]) -> Result<String, Fail> {
    let told = File::create(rt, "told")?;
    let mut disk = StdDisk::new(rt.alloc(), rt, &told);
    open_each(&mut disk, names);
    Ok(fs::read_to_string(rt, "told")?)
}

#[test]
fn a_disk_of_the_system_tells_what_failed_and_why(rt: HostRuntime) -> Result<(), Fail> {
    fs::write(&rt, "notes", "a text of a user")?;
    fs::write(&rt, "begun", "cutroom jour")?;
    let names = ["none/a", ".", "begun", "notes", "notes", "new", "new"];
    let told = told_of(&rt, &names)?;
    assert_eq!(rt;
        told.as_str(),
        "cutroom: none/a could not be opened: No such file or directory (os error 2)\n\
         cutroom: . could not be opened: Is a directory (os error 21)\n\
         cutroom: notes has 16 bytes and no header, and counts as new\n\
         cutroom: notes is in use, by another program or by this one\n\
         cutroom: new is in use, by another program or by this one\n"
    );
    Ok(())
}

// What these calls answer on a disk over memory that holds `abc`, with these failing calls; which calls were made, and
// what the file holds then.
fn failing_answers(
    alloc: Global,
    failing: &[u32],
    answers: &str,
    calls: &str,
    bytes: &str,
) -> Result<bool, AllocError> {
    let held = Vec::from_slice(alloc, b"abc")?;
    let mut disk = MemDisk::new(alloc, held, Vec::from_slice(alloc, failing)?);
    let steps = [
        Step::Open("a"),
        Step::Len,
        Step::Read(1, 9),
        Step::Write(2, "de"),
        Step::Cut(1),
        Step::Sync,
        Step::Read(0, 9),
    ];
    let log = disk_log(alloc, &mut disk, &steps)?;
    let has_answered = log.as_slice() == answers.as_bytes();
    Ok(has_answered && has_done(alloc, disk.tape(), calls, bytes)?)
}

#[test]
fn a_disk_over_memory_fails_where_it_is_told_to(rt: HostRuntime) -> Result<(), AllocError> {
    let alloc = rt.alloc();
    // failing calls, what the calls answer, which calls were made, what the file holds
    let cases: [(&[u32], &str, &str, &str); 10] = [
        (&[], ".3bc/...a/", "...wcs.", "a"),
        (&[1], "!3bc/...a/", "...wcs.", "a"),
        (&[2], ".!bc/...a/", "...wcs.", "a"),
        (&[3], ".3!...a/", "...wcs.", "a"),
        (&[4], ".3bc/!..a/", "...Wcs.", "a"),
        (&[5], ".3bc/.!.abde/", "...wCs.", "abde"),
        (&[6], ".3bc/..!a/", "...wc..", "a"),
        (&[7], ".3bc/...!", "...wcs.", "a"),
        (&[4, 5, 6], ".3bc/!!!abc/", "...WC..", "abc"),
        (&[0, 8], ".3bc/...a/", "...wcs.", "a"),
    ];
    for (failing, answers, calls, bytes) in cases {
        assert!(rt;
            failing_answers(alloc, failing, answers, calls, bytes)?,
            "{answers}"
        );
    }
    Ok(())
}
