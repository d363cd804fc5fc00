// The command over objects in memory.
use command_files::Status;
use follow_command::follow;
use room_files::MemFiles;
use room_ports::{MemSink, MemSource};
use std::alloc::Global;
use std::test::Fail;
use test_cut::DOCUMENT;
use timecode12::{Counting, SequenceRate};

/// The calls that fail, by their numbers from 1: of the files, of the input and of the output.
#[derive(Clone, Copy)]
pub(crate) struct Failing<'a> {
    pub files: &'a [u32],
    pub reads: &'a [u32],
    pub writes: &'a [u32],
}

/// No call fails.
pub(crate) const NONE: Failing<'static> = Failing {
    files: &[],
    reads: &[],
    writes: &[],
};

// A text in pieces of so many bytes, and at least one.
fn pieces_of(alloc: Global, text: &str, each: usize) -> Result<Vec<Vec<u8>>, Fail> {
    let mut pieces = Vec::new(alloc);
    for piece in text.as_bytes().chunks(each.max(1)) {
        pieces.push(piece.to_vec(alloc)?)?;
    }
    Ok(pieces)
}

/// Whether following a stream in the worked document's room ends with this status, and with this text on the output. The
/// stream comes in pieces of so many bytes.
pub(crate) fn follows_so(
    alloc: Global,
    stream: &str,
    each: usize,
    failing: &Failing<'_>,
    wanted: Status,
    text: &str,
) -> Result<bool, Fail> {
    let mut files = MemFiles::new(alloc, failing.files.to_vec(alloc)?);
    files.put("cut", DOCUMENT.as_bytes())?;
    let mut input = MemSource::new(
        pieces_of(alloc, stream, each)?,
        failing.reads.to_vec(alloc)?,
    );
    let mut output = MemSink::new(alloc, failing.writes.to_vec(alloc)?);
    let counting = Counting::new(SequenceRate::F24, false).ok_or("counting")?;
    let status = follow(alloc, &mut files, "cut", &counting, &mut input, &mut output);
    let bytes = output.bytes().ok_or("told")?;
    Ok(status == wanted && bytes == text.as_bytes())
}
