// Documents by example.

mod faults;
mod limits;
mod opened;
mod short;
mod spoiled;

use otio_json::{DocFault, Opening, read_timeline};
use std::alloc::{AllocError, Global};
use timecode12::{Counting, SequenceRate};

// 24 frames a second, without drop-frame.
fn at_24() -> Counting {
    Counting::new(SequenceRate::F24, false).unwrap()
}

// What reading a document answers at 24 frames a second. It has no contract, so that a test is proved without that of
// the call.
fn reading(alloc: Global, text: &[u8]) -> Result<Opening, DocFault> {
    read_timeline(alloc, text, &at_24())
}

// Why a document is refused; nothing where it opens.
fn refused(alloc: Global, text: &[u8]) -> Option<DocFault> {
    match reading(alloc, text) {
        Ok(_) => None,
        Err(fault) => Some(fault),
    }
}

// The code of a fault, and its place after it.
fn placed(alloc: Global, code: &str, at: usize) -> Result<String, AllocError> {
    let mut out = String::from_str(alloc, code)?;
    out.push_str(format!(in alloc; " {at}")?.as_str())?;
    Ok(out)
}

// What reading a document says: that it opens, or the fault and its place.
fn said(alloc: Global, text: &[u8]) -> Result<String, AllocError> {
    match refused(alloc, text) {
        None => String::from_str(alloc, "opens"),
        Some(DocFault::Refused { code, at }) => format!(in alloc; "{code:?} {at}"),
        Some(DocFault::Memory) => String::from_str(alloc, "memory"),
    }
}
