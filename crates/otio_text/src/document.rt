// The document of a cut: how many bytes it has, and its text.
ghost use Rattle.otio_text.specs.Documents.{timeline_text, Counts, Writes, WritesAfter};

use crate::text::DocText;
use crate::writing::{WriteFault, put_timeline};
use composables::{Table, Track};
use json_tree::MOST_BYTES;
use std::alloc::Global;
use timecode12::Counting;

/// How many bytes the document of a cut has, in one line without blanks, or `TooLarge` where these are more than 32 MiB.
/// Nothing of it is written: what it takes is a walk over the tracks, up to the limit.
pub fn timeline_length(
    table: &Table,
    tracks: &[Track],
    counting: &Counting,
    start: u32,
) -> Result<usize, WriteFault>
    ensures { Counts (timeline_text table.now tracks.now counting.now start) result }
{
    let mut out = DocText::counted();
    put_timeline(&mut out, table, tracks, counting, start)?;
    match out.left() {
        Some(left) => Ok(MOST_BYTES - left),
        None => Err(WriteFault::TooLarge),
    }
}

/// The document of a cut after these bytes, in one line without blanks, or `TooLarge` where it would have more than 32 MiB.
/// It is counted first, so its memory is taken at once, with room for one byte more; and none where it is too long.
pub fn write_timeline_after(
    alloc: Global,
    head: &[u8],
    table: &Table,
    tracks: &[Track],
    counting: &Counting,
    start: u32,
) -> Result<Vec<u8>, WriteFault>
    ensures { WritesAfter head.now (timeline_text table.now tracks.now counting.now start) result }
{
    let len = timeline_length(table, tracks, counting, start)?;
    let mut out = DocText::after(alloc, head, len)?;
    put_timeline(&mut out, table, tracks, counting, start)?;
    match out.finish() {
        Some(text) => Ok(text),
        None => unreachable!(),
    }
}

/// The document of a cut, in one line without blanks, or `TooLarge` where it would have more than 32 MiB.
pub fn write_timeline(
    alloc: Global,
    table: &Table,
    tracks: &[Track],
    counting: &Counting,
    start: u32,
) -> Result<Vec<u8>, WriteFault>
    ensures { Writes (timeline_text table.now tracks.now counting.now start) result }
{
    write_timeline_after(alloc, b"", table, tracks, counting, start)
}
