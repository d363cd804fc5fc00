// Kept files as texts: the lines that one opens with, and the calls that were made on one over memory.
use journal_file::{JournalFile, Record};
use room_disks::{DiskCall, SureDisk, TapeFile};
use std::alloc::{AllocError, Global};

// The lines of records, each with `/` after it.
fn lines_of(alloc: Global, records: &[Record]) -> Result<Vec<u8>, AllocError> {
    let mut text = Vec::new(alloc);
    for record in records {
        text.extend_from_slice(record.line())?;
        text.push(b'/')?;
    }
    Ok(text)
}

// Whether a file of these bytes opens with these lines, each with `/` after it.
pub fn opens_with(alloc: Global, bytes: &[u8], lines: &str) -> Result<bool, AllocError> {
    let disk = SureDisk::new(alloc, Vec::from_slice(alloc, bytes)?);
    match JournalFile::open(alloc, disk) {
        Ok((_, records)) => {
            let now = lines_of(alloc, &records)?;
            Ok(now.as_slice() == lines.as_bytes())
        }
        Err(_) => Ok(false),
    }
}

// `s` for a sync and `w` for a write, `W` for one that failed, `.` where nothing changed, and `c` for a cut.
fn letter(call: &DiskCall) -> u8 {
    match call {
        DiskCall::Looked => b'.',
        DiskCall::Wrote(_, _) => b'w',
        DiskCall::FailedToWrite(_, _) => b'W',
        DiskCall::Cut(_) | DiskCall::FailedToCut(_) => b'c',
        DiskCall::Synced => b's',
    }
}

// Whether these calls were made on a file, a letter each.
pub fn has_called(alloc: Global, file: &TapeFile, calls: &str) -> Result<bool, AllocError> {
    let mut letters = Vec::new(alloc);
    for call in file.calls() {
        letters.push(letter(call))?;
    }
    Ok(letters.as_slice() == calls.as_bytes())
}
