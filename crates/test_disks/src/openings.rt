// What files are opened as: their records, or the place where they are damaged; and what an opening leaves.
ghost use Rattle.std.proofs.lemmas.Option.{none-some};
ghost use Rattle.std.specs.Prelude.{None};

use crate::texts::{has_done, opens_as};
use journal_file::laws::{a_damaged_file_has_none, a_file_has_one_list_of_records};
use journal_file::{JournalFile, MOST_BYTES, OpenFault, is_line};
use room_disks::{Disk, MemDisk};
use room_ports::Failed;
use std::alloc::{AllocError, Global};

#[test]
fn a_file_has_records_or_is_damaged_at_a_place(rt: HostRuntime) {
    use OpenFault::Damaged;
    let alloc = rt.alloc();
    // bytes, and the lines or the fault
    let cases: [(&str, Result<&str, OpenFault>); 19] = [
        // 19 bytes or fewer are a new file, whatever they are
        ("", Ok("")),
        ("cutroom", Ok("")),
        ("no journal but 19 !", Ok("")),
        ("cutroom journal 1\n-", Ok("")),
        ("cutroom journal 1\n+", Ok("")),
        ("no journal of 20 by.", Err(Damaged(0))),
        ("cutroom journal 2\n--", Err(Damaged(0))),
        ("cutroom journal 1\n-+", Ok("")),
        ("cutroom journal 1\n\n\n", Ok("")),
        ("cutroom journal 1\n++", Err(Damaged(18))),
        ("cutroom journal 1\n+0 1 sli", Err(Damaged(18))),
        ("cutroom journal 1\n+\n-", Err(Damaged(18))),
        ("cutroom journal 1\n+one\n", Err(Damaged(23))),
        ("cutroom journal 1\n+one\n-", Ok("one/")),
        ("cutroom journal 1\n+one\n+two\n?", Ok("one/two/")),
        // what follows the gate does not count
        ("cutroom journal 1\n+one\n-two\n-", Ok("one/")),
        ("cutroom journal 1\n+one\n-tw", Ok("one/")),
        ("cutroom journal 1\n+one\n+tw", Err(Damaged(23))),
        ("cutroom journal 1\n+one\n+two\n++-\n+", Err(Damaged(32))),
    ];
    for (bytes, want) in cases {
        assert!(rt; opens_as(alloc, bytes.as_bytes(), want), "{bytes}");
    }
    a_file_has_one_list_of_records();
    a_damaged_file_has_none();
}

// A file with one record of so many bytes.
fn long_record(alloc: Global, len: usize) -> Result<Vec<u8>, AllocError> {
    let mut bytes = Vec::from_slice(alloc, b"cutroom journal 1\n+")?;
    let line = vec![in alloc; b'x'; len]?;
    bytes.extend_from_slice(&line)?;
    bytes.extend_from_slice(b"\n-")?;
    Ok(bytes)
}

#[test]
fn a_line_has_from_1_to_1024_bytes(rt: HostRuntime) -> Result<(), AllocError> {
    let alloc = rt.alloc();
    for (text, is) in [
        ("", false),
        ("a", true),
        ("\n", false),
        ("a\n", false),
        ("+-", true),
    ] {
        assert!(rt; is_line(text.as_bytes()) == is, "{text}");
    }
    for (len, is) in [
        (0usize, false),
        (1, true),
        (1023, true),
        (1024, true),
        (1025, false),
    ] {
        let line = vec![in alloc; b'x'; len]?;
        assert!(rt; is_line(&line) == is, "{len}");
        let file = long_record(alloc, len)?;
        let fault = opens_as(alloc, &file, Err(OpenFault::Damaged(18)));
        assert!(rt; fault != is, "{len}");
    }
    Ok(())
}

// Opens the file of a disk, and gives the disk back.
fn opened_once(alloc: Global, disk: MemDisk) -> MemDisk {
    match JournalFile::open(alloc, disk) {
        Ok((file, _)) => file.close(),
        Err((_, disk)) => disk,
    }
}

// What an opening of these bytes leaves: which calls it made, and what the file holds then.
fn leaves(alloc: Global, bytes: &str, calls: &str, left: &str) -> Result<bool, AllocError> {
    let held = Vec::from_slice(alloc, bytes.as_bytes())?;
    let disk = opened_once(alloc, MemDisk::new(alloc, held, Vec::new(alloc)));
    has_done(alloc, disk.tape(), calls, left)
}

#[test]
fn an_opening_writes_a_new_file_and_cuts_behind_the_gate(
    rt: HostRuntime,
) -> Result<(), AllocError> {
    let alloc = rt.alloc();
    // what the file holds, which calls are made, and what it holds then
    let cases: [(&str, &str, &str); 9] = [
        ("", "s..ws", "cutroom journal 1\n-"),
        ("cut", "s...ws", "cutroom journal 1\n-"),
        ("no journal but 19 !", "s...ws", "cutroom journal 1\n-"),
        ("cutroom journal 1\n-x", "s...cs", "cutroom journal 1\n-"),
        ("cutroom journal 1\n?x", "s...cs", "cutroom journal 1\n?"),
        (
            "cutroom journal 1\n+one\n-",
            "s...cs",
            "cutroom journal 1\n+one\n-",
        ),
        (
            "cutroom journal 1\n+one\n-two\n-",
            "s...cs",
            "cutroom journal 1\n+one\n-",
        ),
        // a damaged file is only looked at
        (
            "cutroom journal 1\n+one\n+",
            "s...",
            "cutroom journal 1\n+one\n+",
        ),
        ("no journal of 20 by.", "s...", "no journal of 20 by."),
    ];
    for (bytes, calls, left) in cases {
        assert!(rt; leaves(alloc, bytes, calls, left)?, "{bytes}");
    }
    Ok(())
}

// A disk that tells a length and has no bytes.
#[derive(Drop)]
struct LongDisk {
    len: u32,
}

impl Disk for LongDisk {
    ghost course = { λ _. None };

    ghost file = { λ _ _. None };

    ghost faults = { λ _. 0 };

    ghost reads_are_an_image = { λ d c told. absurd (none-some c told) };

    fn open(&mut self, _name: &str) -> Result<(), Failed> {
        Ok(())
    }

    fn len(&mut self) -> Result<u32, Failed> {
        Ok(self.len)
    }

    fn read(&mut self, _at: u32, _into: &mut [u8]) -> Result<usize, Failed> {
        Ok(0)
    }

    fn write_at(&mut self, _at: u32, _bytes: &[u8]) -> Result<(), Failed> {
        Ok(())
    }

    fn cut(&mut self, _len: u32) -> Result<(), Failed> {
        Ok(())
    }

    fn sync(&mut self) -> Result<(), Failed> {
        Ok(())
    }
}

// Why a file of this length is not opened; `None` where it is.
fn fault_of(alloc: Global, len: u32) -> Option<OpenFault> {
    match JournalFile::open(alloc, LongDisk { len }) {
        Ok(_) => None,
        Err((fault, _)) => Some(fault),
    }
}

#[test]
fn a_file_of_more_than_128_mib_is_too_large(rt: HostRuntime) {
    // the length that is told, the fault
    for (len, fault) in [
        (MOST_BYTES, None),
        (MOST_BYTES + 1, Some(OpenFault::TooLarge)),
        (u32::MAX, Some(OpenFault::TooLarge)),
    ] {
        assert!(rt; fault_of(rt.alloc(), len) == fault, "{len}");
    }
}
