// The records of kept files.
use journal_file::{JournalFile, Record};
use room_disks::SureDisk;
use std::alloc::{AllocError, Global};

// The records of a file with these lines, each after `+`; none where it is not opened.
pub fn records_of(alloc: Global, lines: &[&str]) -> Result<Vec<Record>, AllocError> {
    let mut bytes = Vec::from_slice(alloc, b"cutroom journal 1\n")?;
    for line in lines {
        bytes.push(b'+')?;
        bytes.extend_from_slice(line.as_bytes())?;
        bytes.push(b'\n')?;
    }
    bytes.push(b'-')?;
    match JournalFile::open(alloc, SureDisk::new(alloc, bytes)) {
        Ok((_, records)) => Ok(records),
        Err(_) => Ok(Vec::new(alloc)),
    }
}
