// A hall whose seats belong to a crew: where ADDRESS is FILE@HOST:PORT.
use crate::answer::answer_words;
use crate::numbers::Told;
use command_words::{Command, command_in};
use crew_hall::{Bases, CrewHall, Door, MOST_STATIONS, Place, places_of, tend};
use crew_words::{Crew, MOST_BYTES, address_in, crew_of};
use kept_numbers::last_numbers;
use line_words::Words;
use room_disks::Disk;
use room_files::Files;
use room_page::{page_of, page_parts};
use room_ports::{Failed, Sink, Source};
use std::alloc::Global;
use std::fs::File;
use std::io::{self, Read, Write};
use std::net::{Net, TcpListener, TcpStream};
use std::os::unix::fs::PermissionsExt;
use std::rt::{Clock, Files as System};
use std::sync::Wait;
use std::thread::{self, Threads};
use std::time::Duration;

// The rights of a file by which others than its owner can read it.
const READ_BY_OTHERS: u32 = 0o044;

// The most bytes of a kept file.
const LONGEST_JOURNAL: u64 = 134_217_728;

/// A crew, a place for each station, and the name of the kept file whose numbers its lines go on from.
#[derive(Drop)]
pub struct Muster<'a> {
    crew: Crew,
    places: Vec<Place>,
    kept: Option<&'a str>,
}

/// Why a crew that is asked for has no room.
#[derive(Clone, Copy, Debug, PartialEq, Eq)]
pub struct NoCrew;

/// The crew of a hall that these words ask for, if they ask for one that has a crew. Why there is none is told.
pub fn mustered<'a, R: System<File = File>, W: Write + Copy>(
    system: &R,
    alloc: Global,
    words: &'a Words,
    to: W,
) -> Result<Option<Muster<'a>>, NoCrew> {
    let (address, stations, kept) = match command_in(words) {
        Some(
            Command::Serve {
                address,
                stations,
                ..
            },
        ) => (address, stations, None),
        Some(
            Command::Store {
                address,
                stations,
                journal,
                ..
            },
        ) => (address, stations, Some(journal)),
        _ => return Ok(None),
    };
    let (Some(name), _) = address_in(address) else {
        return Ok(None);
    };
    let crew = crew_in(system, alloc, name, stations, to)?;
    let places = match places_of(alloc, stations) {
        Ok(places) => places,
        Err(_) => return Err(NoCrew),
    };
    Ok(Some(Muster { crew, places, kept }))
}

// The crew in the file of this name. Why there is none is told.
fn crew_in<R: System<File = File>, W: Write + Copy>(
    system: &R,
    alloc: Global,
    name: &str,
    stations: u32,
    mut to: W,
) -> Result<Crew, NoCrew> {
    let told = match text_in(system, alloc, name, MOST_BYTES as u64 + 1) {
        Ok((text, mode)) => {
            if mode & READ_BY_OTHERS != 0 {
                format!(in alloc; "cutroom: {name}: others can read it: it has keys, chmod 600\n")
            } else {
                match crew_of(alloc, &text, stations) {
                    Ok(crew) => return Ok(crew),
                    Err(why) => format!(in alloc; "cutroom: {name}: {why}\n"),
                }
            }
        }
        Err(error) => format!(in alloc; "cutroom: {name} could not be read: {error}\n"),
    };
    match told {
        Ok(line) => {
            let _ = to.write(line.as_bytes());
        }
        Err(_) => {}
    }
    Err(NoCrew)
}

// What a file holds, as far as so many bytes, and the rights that it has.
fn text_in<R: System<File = File>>(
    system: &R,
    alloc: Global,
    name: &str,
    most: u64,
) -> io::Result<(Vec<u8>, u32)> {
    let file = File::open(system, name)?;
    let mode = file.metadata()?.permissions().mode();
    let mut text = Vec::new(alloc);
    file.take(most).read_to_end(&mut text)?;
    Ok((text, mode))
}

// The numbers of the stations' last lines are those of their last entries in the kept file, where there is one. They are
// asked for once the file is open and locked, so nobody adds to it meanwhile.
#[derive(Drop)]
struct Kept<'a, R, W> {
    system: &'a R,
    alloc: Global,
    name: Option<&'a str>,
    to: W,
}

impl<R: System<File = File>, W: Write + Copy> Bases for Kept<'_, R, W> {
    fn numbers(&self) -> Result<[u32; MOST_STATIONS], Failed> {
        let Some(name) = self.name else {
            return Ok([0; MOST_STATIONS]);
        };
        match text_in(self.system, self.alloc, name, LONGEST_JOURNAL) {
            Ok((text, _)) => Ok(last_numbers(&text)),
            Err(error) => {
                match format!(in self.alloc; "cutroom: {name} could not be read: {error}\n") {
                    Ok(line) => {
                        let mut to = self.to;
                        let _ = to.write(line.as_bytes());
                    }
                    Err(_) => {}
                }
                Err(Failed)
            }
        }
    }
}

/// Answers words over a hall with this crew: the status that the program ends with, and none where the system gives no
/// thread for the door.
pub fn answer_with_crew<
    R: Threads
        + Wait
        + Sync
        + Clock
        + System<File = File>
        + Net<Listener = TcpListener, Stream = TcpStream>,
    F: Files,
    D: Disk + Drop + Send,
    S: Source,
    K: Sink,
    W: Write + Copy + Send,
>(
    rt: &R,
    alloc: Global,
    words: &Words,
    files: &mut F,
    disk: D,
    input: &mut S,
    output: &mut K,
    to: W,
    idle: Option<Duration>,
    muster: &Muster<'_>,
    told: &Told,
) -> Option<u8> {
    let parts = page_parts();
    let page = page_of(&parts);
    let door = Door::new();
    let (door, crew, places) = (&door, &muster.crew, muster.places.as_slice());
    let bases = Kept {
        system: rt,
        alloc,
        name: muster.kept,
        to,
    };
    thread::scope(thread::scope_env(), rt, |scope| {
        match scope.spawn(move || tend(rt, alloc, door, crew, places, to, idle, page)) {
            Ok(_) => {
                let mut hall = CrewHall::new(alloc, rt, door, places, &bases, to);
                let (status, _) = answer_words(
                    rt, alloc, words, files, disk, input, output, &mut hall, told,
                );
                door.end(rt);
                Some(status)
            }
            Err(_) => None,
        }
    })
}
