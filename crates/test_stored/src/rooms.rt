// A room of stations over memory, whose journal is kept on a disk over memory.
use room_disks::MemDisk;
use room_files::MemFiles;
use room_halls::{Hall, MemHall};
use room_ports::{MemLine, MemSink, MemSource, OpenGate};
use std::alloc::Global;
use std::sync::Wait;
use std::test::Fail;
use std::thread::Threads;
use test_cut::IMPORTED;
use test_runs::{Stored, stored_over};

/// What is stored: what the file holds, which calls of the disk fail, the words after the document's, what each station
/// sends, and which reads of each line fail.
#[derive(Clone, Copy)]
pub struct Storing<'a> {
    pub file: &'a [u8],
    pub failing: &'a [u32],
    pub words: &'a str,
    pub sent: &'a [&'a str],
    pub writes: &'a [u32],
}

/// What comes of it: the status, what was put on the output, what each station's line took, and the disk.
#[derive(Drop)]
pub struct Ended {
    pub status: u8,
    pub output: String,
    pub taken: Vec<String>,
    pub disk: MemDisk,
}

impl Ended {
    /// What the file holds, where the disk tells it.
    pub fn bytes(&self) -> &[u8] {
        match self.disk.tape() {
            Some(tape) => tape.bytes(),
            None => &[],
        }
    }
}

// The line of a station that sends this.
fn line_of(alloc: Global, sent: &str, writes: &[u32]) -> Result<MemLine, Fail> {
    let mut pieces = Vec::new(alloc);
    for line in sent.split_inclusive('\n') {
        pieces.push(line.as_bytes().to_vec(alloc)?)?;
    }
    Ok(MemLine {
        input: MemSource::new(pieces, Vec::new(alloc)),
        output: MemSink::new(alloc, writes.to_vec(alloc)?),
    })
}

// The hall of stations that send this.
fn hall_of(alloc: Global, sent: &[&str], writes: &[u32]) -> Result<MemHall, Fail> {
    let mut lines = Vec::new(alloc);
    for text in sent {
        lines.push(line_of(alloc, text, writes)?)?;
    }
    Ok(MemHall::new(alloc, lines, Vec::new(alloc)))
}

// What the lines of a hall took that has all of them.
fn taken_of(alloc: Global, hall: &mut MemHall, stations: usize) -> Result<Vec<String>, Fail> {
    let mut taken = Vec::new(alloc);
    let mut station = 0u32;
    for _ in 0..stations {
        match hall.seat_station(alloc, station) {
            Ok(line) => {
                let bytes = line.output.bytes().ok_or("told")?;
                taken.push(String::from_utf8_lossy(alloc, bytes)?)?;
            }
            Err(_) => {}
        }
        station = station.saturating_add(1);
    }
    Ok(taken)
}

/// Stores what is to be stored, in the room of the document of a cut.
pub fn stored<R: Threads + Wait + Sync>(
    rt: &R,
    alloc: Global,
    storing: &Storing<'_>,
) -> Result<Ended, Fail> {
    let mut files = MemFiles::new(alloc, Vec::new(alloc));
    files.put("cut", IMPORTED.as_bytes())?;
    let mut hall = hall_of(alloc, storing.sent, storing.writes)?;
    let disk = MemDisk::new(
        alloc,
        storing.file.to_vec(alloc)?,
        storing.failing.to_vec(alloc)?,
    );
    let Stored {
        status,
        output,
        disk,
    } = stored_over(
        rt,
        alloc,
        storing.words,
        &mut files,
        disk,
        &mut hall,
        &OpenGate,
    )?;
    Ok(Ended {
        status,
        output: String::from_utf8_lossy(alloc, &output)?,
        taken: taken_of(alloc, &mut hall, storing.sent.len())?,
        disk,
    })
}

/// The words for one station, and for two.
pub const ALONE: &str = "store cut 24 ndf 1 hall kept";

pub const TWO: &str = "store cut 24 ndf 2 hall kept";
