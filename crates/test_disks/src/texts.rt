// Kept files as texts: what a file of some bytes is opened as, and which calls were made on one over memory.
use crate::images::opened;
use journal_file::OpenFault;
use room_disks::{DiskCall, TapeFile};
use std::alloc::{AllocError, Global};

// Whether a file of these bytes has these lines, each with `/` after it, or is not opened for this fault.
pub fn opens_as(alloc: Global, bytes: &[u8], want: Result<&str, OpenFault>) -> bool {
    match opened(alloc, bytes) {
        Ok(lines) => match want {
            Ok(text) => lines.as_slice() == text.as_bytes(),
            Err(_) => false,
        },
        Err(fault) => match want {
            Ok(_) => false,
            Err(wanted) => fault == wanted,
        },
    }
}

// `s` for a sync, `w` for a write and `c` for a cut, `W` and `C` for those that failed, `.` where nothing changed.
fn letter(call: &DiskCall) -> u8 {
    match call {
        DiskCall::Looked => b'.',
        DiskCall::Wrote(_, _) => b'w',
        DiskCall::FailedToWrite(_, _) => b'W',
        DiskCall::Cut(_) => b'c',
        DiskCall::FailedToCut(_) => b'C',
        DiskCall::Synced => b's',
    }
}

// A letter for each call that was made on a file over memory, in order.
pub fn calls_of(alloc: Global, file: &TapeFile) -> Result<Vec<u8>, AllocError> {
    letters_of(alloc, file.calls())
}

// A letter for each call, in order.
fn letters_of(alloc: Global, calls: &[DiskCall]) -> Result<Vec<u8>, AllocError> {
    let mut letters = Vec::new(alloc);
    for call in calls {
        letters.push(letter(call))?;
    }
    Ok(letters)
}

// Whether these calls were made on a file over memory, a letter each, and whether it holds these bytes.
pub fn has_done(
    alloc: Global,
    tape: Option<&TapeFile>,
    calls: &str,
    bytes: &str,
) -> Result<bool, AllocError> {
    match tape {
        Some(file) => {
            let letters = calls_of(alloc, file)?;
            Ok(letters.as_slice() == calls.as_bytes() && file.bytes() == bytes.as_bytes())
        }
        None => Ok(false),
    }
}
