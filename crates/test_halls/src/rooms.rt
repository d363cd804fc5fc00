// A room whose seats belong to a crew of two, and the hall of it.
use crew_hall::{Bases, CrewHall, Door, MOST_STATIONS, Place, places_of, tend};
use crew_words::{Crew, crew_of};
use room_halls::Hall;
use room_ports::Failed;
use std::fs::{self, File};
use std::net::SocketAddr;
use std::rt::Clock;
use std::sync::Wait;
use std::thread::{self, Threads};
use web_lines::Page;

// The stations.
const CREW: &[u8] = b"ann 0123456789abcdef\nbo fedcba9876543210\n";

// How many lines bo has sent before, where that is known. Ann has sent none.
#[derive(Drop)]
pub(crate) struct Before {
    bo: Option<u32>,
}

impl Bases for Before {
    fn numbers(&self) -> Result<[u32; MOST_STATIONS], Failed> {
        match self.bo {
            Some(lines) => {
                let mut numbers = [0; MOST_STATIONS];
                numbers[1] = lines;
                Ok(numbers)
            }
            None => Err(Failed),
        }
    }
}

/// A door, a crew of two, and a place for each.
#[derive(Drop)]
pub(crate) struct Room {
    door: Door,
    crew: Crew,
    places: Vec<Place>,
    before: Before,
}

impl Room {
    /// A room for ann, who has sent no line before, and for bo, who has sent so many; `None` where that can't be known.
    pub fn new(rt: &HostRuntime, bo: Option<u32>) -> Option<Room> {
        Some(Room {
            door: Door::new(),
            crew: crew_of(rt.alloc(), CREW, 2).ok()?,
            places: places_of(rt.alloc(), 2).ok()?,
            before: Before { bo },
        })
    }

    /// Its hall, which is not open yet and tells of itself in this file.
    pub fn hall<'a>(
        &'a self,
        rt: &'a HostRuntime,
        told: &'a File,
    ) -> CrewHall<'a, HostRuntime, &'a File, Before> {
        CrewHall::new(
            rt.alloc(),
            rt,
            &self.door,
            self.places.as_slice(),
            &self.before,
            told,
        )
    }

    /// What a talk comes to while the door is tended.
    pub fn while_tended<
        R: Threads + Wait + Sync + Clock + AllocGlobal,
        F: FnOnce() -> Option<bool>,
    >(&self, rt: &R, told: &File, talk: F) -> Option<bool>
        requires { F.pre talk }
    {
        let page = Page {
            pieces: &[],
            policy: "",
        };
        let (door, crew, places) = (&self.door, &self.crew, self.places.as_slice());
        let (_, came) = thread::join(
            rt,
            || tend(rt, rt.alloc(), door, crew, places, told, None, page),
            || -> Option<bool>
                requires { F.pre talk }
            {
                let came = talk();
                door.end(rt);
                came
            },
        );
        came
    }
}

/// Opens a hall that tells of itself in the file `told`: where it says that it listens.
pub(crate) fn opened<H: Hall>(rt: &HostRuntime, hall: &mut H, address: &str) -> Option<SocketAddr> {
    hall.open(address).ok()?;
    let told = fs::read_to_string(rt, "told").ok()?;
    let at = told
        .as_str()
        .strip_prefix("cutroom: listening at ")?
        .strip_suffix("\n")?;
    at.parse().ok()
}

/// How many lines with this a hall has told that tells of itself in the file `told`.
pub(crate) fn told_lines(rt: &HostRuntime, text: &str) -> usize {
    match fs::read_to_string(rt, "told") {
        Ok(told) => told
            .as_str()
            .lines()
            .filter(|line| line.contains(text))
            .count(),
        Err(_) => 0,
    }
}
