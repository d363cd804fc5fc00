// The commands over objects in memory.
use command_files::Status;
use list_commands::{CutPlace, import_file, list_cut, play_list};
use reel_names::ReelNamer;
use room_files::MemFiles;
use room_ports::MemSink;
use std::alloc::Global;
use std::test::Fail;
use test_cut::DOCUMENT;
use timecode12::{Counting, SequenceRate};

/// The files of a room, `cut` and `cut.journal`, and the calls of files and of the output that fail.
#[derive(Clone, Copy)]
pub(crate) struct Outside<'a> {
    pub document: &'a str,
    pub journal: &'a [u8],
    pub reads: &'a [u32],
    pub writes: &'a [u32],
}

/// The worked document with a journal, where no call fails.
pub(crate) fn with_journal(journal: &str) -> Outside<'_> {
    Outside {
        document: DOCUMENT,
        journal: journal.as_bytes(),
        reads: &[],
        writes: &[],
    }
}

// Whether a command ended with this status and put this text.
fn ended(status: Status, output: &MemSink, wanted: Status, text: &str) -> bool {
    match output.bytes() {
        Some(bytes) => status == wanted && bytes == text.as_bytes(),
        None => false,
    }
}

/// Whether the list of the cut at a point ends with this status, and with this text on the output.
pub(crate) fn lists_so(
    alloc: Global,
    outside: &Outside<'_>,
    point: u32,
    namer: Box<dyn ReelNamer>,
    wanted: Status,
    text: &str,
) -> Result<bool, Fail> {
    let mut files = MemFiles::new(alloc, outside.reads.to_vec(alloc)?);
    files.put("cut", outside.document.as_bytes())?;
    files.put("cut.journal", outside.journal)?;
    let mut output = MemSink::new(alloc, outside.writes.to_vec(alloc)?);
    let counting = Counting::new(SequenceRate::F24, false).ok_or("counting")?;
    let place = CutPlace {
        document: "cut",
        counting,
        journal: "cut.journal",
        point,
    };
    let status = list_cut(alloc, &mut files, &place, namer, &mut output);
    Ok(ended(status, &output, wanted, text))
}

/// Whether the tape of a list at 24 frames a second ends with this status, and with this text on the output.
pub(crate) fn plays_so(
    alloc: Global,
    list: &str,
    reads: &[u32],
    writes: &[u32],
    wanted: Status,
    text: &str,
) -> Result<bool, Fail> {
    let mut files = MemFiles::new(alloc, reads.to_vec(alloc)?);
    files.put("cut.edl", list.as_bytes())?;
    let mut output = MemSink::new(alloc, writes.to_vec(alloc)?);
    let status = play_list(alloc, &mut files, "cut.edl", SequenceRate::F24, &mut output);
    Ok(ended(status, &output, wanted, text))
}

/// How the tape of these bytes as a list at 24 frames a second ends, and what is put on the output.
pub(crate) fn played(alloc: Global, list: &[u8]) -> Result<(Status, Vec<u8>), Fail> {
    let mut files = MemFiles::new(alloc, Vec::new(alloc));
    files.put("cut.edl", list)?;
    let mut output = MemSink::new(alloc, Vec::new(alloc));
    let status = play_list(alloc, &mut files, "cut.edl", SequenceRate::F24, &mut output);
    let bytes = output.bytes().ok_or("told")?;
    Ok((status, bytes.to_vec(alloc)?))
}

/// How the document of these bytes as a list at 24 frames a second ends, and what is put on the output.
pub(crate) fn imported(alloc: Global, list: &[u8]) -> Result<(Status, Vec<u8>), Fail> {
    let mut files = MemFiles::new(alloc, Vec::new(alloc));
    files.put("cut.edl", list)?;
    let mut output = MemSink::new(alloc, Vec::new(alloc));
    let counting = Counting::new(SequenceRate::F24, false).ok_or("counting")?;
    let status = import_file(alloc, &mut files, "cut.edl", &counting, &mut output);
    let bytes = output.bytes().ok_or("told")?;
    Ok((status, bytes.to_vec(alloc)?))
}

/// Whether the document of a list whose frames are counted so ends with this status, and with this text on the output.
pub(crate) fn imports_so(
    alloc: Global,
    list: &str,
    counting: &Counting,
    reads: &[u32],
    writes: &[u32],
    wanted: Status,
    text: &str,
) -> Result<bool, Fail> {
    let mut files = MemFiles::new(alloc, reads.to_vec(alloc)?);
    files.put("cut.edl", list.as_bytes())?;
    let mut output = MemSink::new(alloc, writes.to_vec(alloc)?);
    let status = import_file(alloc, &mut files, "cut.edl", counting, &mut output);
    Ok(ended(status, &output, wanted, text))
}
