// The program's call over objects in memory.
use cut_server::cut_main;
use line_words::Words;
use reel_names::{AsIs, ReelNamer};
use room_disks::{Disk, SureDisk};
use room_files::MemFiles;
use room_halls::{Hall, MemHall};
use room_ports::{Gate, MemSink, MemSource, OpenGate};
use std::alloc::Global;
use std::sync::Wait;
use std::test::Fail;
use std::thread::Threads;

/// The words of a text, parted by single spaces, ten at most.
pub fn words_in(alloc: Global, text: &str) -> Result<Words, Fail> {
    let mut words = Words::new(alloc);
    for word in text.split(' ') {
        if words.count() < 10 {
            words.push(word)?;
        }
    }
    Ok(words)
}

// The status of the program's call over these objects, and the disk. What its contract says is not told to the tests,
// which hold what they want against it.
fn status_of<R: Threads + Wait + Sync, D: Disk + Drop + Send, H: Hall, G: Gate + Sync>(
    rt: &R,
    alloc: Global,
    words: &Words,
    files: &mut MemFiles,
    disk: D,
    input: &mut MemSource,
    output: &mut MemSink,
    hall: &mut H,
    gate: &G,
    namer: Box<dyn ReelNamer>,
) -> (u8, D) {
    cut_main(
        rt, alloc, words, files, disk, input, output, hall, gate, namer,
    )
}

/// What came of the program's call: the status, what was put on the output, and the disk.
#[derive(Drop)]
pub struct Stored<D> {
    pub status: u8,
    pub output: Vec<u8>,
    pub disk: D,
}

/// What comes of the program's call with a hall that seats stations, over these files and this disk, with nothing on the
/// input, where reels have their own names.
pub fn stored_over<R: Threads + Wait + Sync, D: Disk + Drop + Send, H: Hall, G: Gate + Sync>(
    rt: &R,
    alloc: Global,
    words: &str,
    files: &mut MemFiles,
    disk: D,
    hall: &mut H,
    gate: &G,
) -> Result<Stored<D>, Fail> {
    let words = words_in(alloc, words)?;
    let mut input = MemSource::new(Vec::new(alloc), Vec::new(alloc));
    let mut output = MemSink::new(alloc, Vec::new(alloc));
    let namer = Box::new(alloc, AsIs::new(alloc))?;
    let (status, disk) = status_of(
        rt,
        alloc,
        &words,
        files,
        disk,
        &mut input,
        &mut output,
        hall,
        gate,
        namer,
    );
    let output = match output.bytes() {
        Some(bytes) => bytes.to_vec(alloc)?,
        None => Vec::new(alloc),
    };
    Ok(Stored {
        status,
        output,
        disk,
    })
}

/// The same status with an empty disk.
pub fn served_over<R: Threads + Wait + Sync, H: Hall, G: Gate + Sync>(
    rt: &R,
    alloc: Global,
    words: &str,
    files: &mut MemFiles,
    hall: &mut H,
    gate: &G,
) -> Result<u8, Fail> {
    let disk = SureDisk::new(alloc, Vec::new(alloc));
    let Stored {
        status,
        output: _,
        disk: _,
    } = stored_over(rt, alloc, words, files, disk, hall, gate)?;
    Ok(status)
}

/// The status of the program's call over these files and this input and output, with an empty disk and no hall, where
/// nobody waits and reels have their own names.
pub fn run_over<R: Threads + Wait + Sync>(
    rt: &R,
    alloc: Global,
    words: &Words,
    files: &mut MemFiles,
    input: &mut MemSource,
    output: &mut MemSink,
) -> Result<u8, Fail> {
    let mut hall = MemHall::new(alloc, Vec::new(alloc), Vec::new(alloc));
    let namer = Box::new(alloc, AsIs::new(alloc))?;
    let disk = SureDisk::new(alloc, Vec::new(alloc));
    let (status, _) = status_of(
        rt, alloc, words, files, disk, input, output, &mut hall, &OpenGate, namer,
    );
    Ok(status)
}

/// The status and the output of a run with the words of a text, with no file, over these pieces of input and where these
/// reads and writes fail.
pub fn ended<R: Threads + Wait + Sync>(
    rt: &R,
    alloc: Global,
    words: &str,
    pieces: &[&[u8]],
    reads: &[u32],
    writes: &[u32],
) -> Result<(u8, Vec<u8>), Fail> {
    let mut files = MemFiles::new(alloc, Vec::new(alloc));
    ended_over(rt, alloc, words, &mut files, pieces, reads, writes)
}

/// The status and the output of a run as `ended` gives them, over these files.
pub fn ended_over<R: Threads + Wait + Sync>(
    rt: &R,
    alloc: Global,
    words: &str,
    files: &mut MemFiles,
    pieces: &[&[u8]],
    reads: &[u32],
    writes: &[u32],
) -> Result<(u8, Vec<u8>), Fail> {
    let mut input = Vec::new(alloc);
    for piece in pieces {
        input.push(piece.to_vec(alloc)?)?;
    }
    let mut input = MemSource::new(input, reads.to_vec(alloc)?);
    let mut output = MemSink::new(alloc, writes.to_vec(alloc)?);
    let words = words_in(alloc, words)?;
    let status = run_over(rt, alloc, &words, files, &mut input, &mut output)?;
    let bytes = match output.bytes() {
        Some(bytes) => bytes.to_vec(alloc)?,
        None => Vec::new(alloc),
    };
    Ok((status, bytes))
}
