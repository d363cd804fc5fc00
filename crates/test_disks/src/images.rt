// What a crash may leave of a file over memory, and which records that has.
use journal_file::{JournalFile, OpenFault, Record};
use room_disks::{DiskCall, SureDisk, TapeFile};
use std::alloc::{AllocError, Global};

/// How much of a write a crash leaves: so many of its bytes, and then another byte up to a length; and whether it leaves
/// a cut.
#[derive(Clone, Copy)]
pub struct Torn {
    pub kept: usize,
    pub fill: u8,
    pub len: usize,
    pub is_cut: bool,
}

// Bytes with a piece written over them, at a place within them or at their end.
fn with_piece(alloc: Global, bytes: &[u8], at: usize, piece: &[u8]) -> Result<Vec<u8>, AllocError> {
    let mut next = Vec::from_slice(alloc, &bytes[..at.min(bytes.len())])?;
    next.extend_from_slice(piece)?;
    let end = next.len();
    if end < bytes.len() {
        next.extend_from_slice(&bytes[end..])?;
    }
    Ok(next)
}

// What a crash leaves of a piece that was written.
fn torn_piece(alloc: Global, piece: &[u8], torn: Torn) -> Result<Vec<u8>, AllocError> {
    let mut left = Vec::new(alloc);
    for at in 0..piece.len() {
        if at < torn.kept {
            left.push(piece[at])?;
        } else if at < torn.len {
            left.push(torn.fill)?;
        }
    }
    Ok(left)
}

// What a read gives, and what a crash leaves, since the last sync with torn writes.
#[derive(Drop)]
struct Held {
    reads: Vec<u8>,
    image: Vec<u8>,
}

// A read gives the piece, and a crash leaves of it what is torn off so.
fn after_write(
    alloc: Global,
    held: Held,
    at: usize,
    piece: &[u8],
    torn: Torn,
) -> Result<Held, AllocError> {
    let left = torn_piece(alloc, piece, torn)?;
    let Held { reads, image } = held;
    Ok(Held {
        reads: with_piece(alloc, &reads, at, piece)?,
        image: with_piece(alloc, &image, at, &left)?,
    })
}

// After a write that failed: a read gives what it gave, and a crash leaves no known byte where it was to write.
fn after_failed_write(
    alloc: Global,
    held: Held,
    at: usize,
    count: usize,
    torn: Torn,
) -> Result<Held, AllocError> {
    let left = vec![in alloc; torn.fill; count.min(torn.len)]?;
    let Held { reads, image } = held;
    let image = with_piece(alloc, &image, at, &left)?;
    Ok(Held { reads, image })
}

// A read gives what is left of the file, and a crash leaves it with the cut or without.
fn after_cut(held: Held, len: usize, torn: Torn) -> Held {
    let Held {
        mut reads,
        mut image,
    } = held;
    reads.truncate(len);
    if torn.is_cut {
        image.truncate(len);
    }
    Held { reads, image }
}

// A crash leaves what a read gives.
fn after_sync(alloc: Global, held: Held) -> Result<Held, AllocError> {
    let Held { reads, image: _ } = held;
    let image = Vec::from_slice(alloc, &reads)?;
    Ok(Held { reads, image })
}

// What a read gives and what a crash leaves after one call more.
fn after_call(alloc: Global, held: Held, call: &DiskCall, torn: Torn) -> Result<Held, AllocError> {
    match call {
        DiskCall::Looked | DiskCall::FailedToCut(_) => Ok(held),
        DiskCall::Wrote(at, piece) => after_write(alloc, held, *at as usize, piece, torn),
        DiskCall::FailedToWrite(at, count) => {
            after_failed_write(alloc, held, *at as usize, *count, torn)
        }
        DiskCall::Cut(len) => Ok(after_cut(held, *len as usize, torn)),
        DiskCall::Synced => after_sync(alloc, held),
    }
}

/// What a crash leaves of a file after so many calls, if it tears each write so.
pub fn image(
    alloc: Global,
    file: &TapeFile,
    calls: usize,
    torn: Torn,
) -> Result<Vec<u8>, AllocError> {
    let mut held = Held {
        reads: Vec::from_slice(alloc, file.start())?,
        image: Vec::from_slice(alloc, file.start())?,
    };
    let made = file.calls();
    for at in 0..calls.min(made.len()) {
        held = after_call(alloc, held, &made[at], torn)?;
    }
    Ok(held.image)
}

/// The lines of records, each with `/` after it.
pub fn lines_of(alloc: Global, records: &[Record]) -> Result<Vec<u8>, AllocError> {
    let mut text = Vec::new(alloc);
    for record in records {
        text.extend_from_slice(record.line())?;
        text.push(b'/')?;
    }
    Ok(text)
}

/// The lines of a file of these bytes, or why it is not opened.
pub fn opened(alloc: Global, bytes: &[u8]) -> Result<Vec<u8>, OpenFault> {
    let disk = SureDisk::new(alloc, Vec::from_slice(alloc, bytes)?);
    match JournalFile::open(alloc, disk) {
        Ok((_, records)) => Ok(lines_of(alloc, &records)?),
        Err((fault, _)) => Err(fault),
    }
}
