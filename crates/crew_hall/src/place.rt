// A seat behind its lock, and the connection that is there.
use first_lines::Link;
use room_ports::Memory;
use seat_lines::Seat;
use std::alloc::{AllocError, Global};
use std::io::Write;
use std::net::Shutdown;
use std::sync::{Condvar, Mutex, Wait};

// The most bytes of the answer to who sits down: `seat`, a place and two numbers.
const LONGEST_ANSWER: usize = 80;

/// What a lock holds: the seat, the connection that is there, how many were there so far, and whether its session is over.
#[derive(Drop)]
pub(crate) struct Held {
    pub seat: Seat,
    pub link: Option<Link>,
    pub links: u64,
    pub is_over: bool,
}

/// A seat that a session and the thread which lets people in share. Its lock is held for no call that may wait.
#[derive(Drop)]
pub struct Place {
    pub(crate) held: Mutex<Held>,
    pub(crate) changed: Condvar,
}

/// Why nobody sat down who has the right key.
#[derive(Clone, Copy, Debug, PartialEq, Eq)]
pub(crate) enum NotSat {
    /// The station has left.
    Over,
    /// The connection took no answer, or there was no memory for it.
    Untold,
}

impl From<AllocError> for NotSat {
    fn from(_: AllocError) -> NotSat {
        NotSat::Untold
    }
}

/// A place for each of so many stations.
pub fn places_of(alloc: Global, stations: u32) -> Result<Vec<Place>, Memory> {
    let mut places = Vec::with_capacity(alloc, stations as usize)?;
    for _ in 0..stations {
        places.push(Place::new(alloc))?;
    }
    Ok(places)
}

impl Place {
    // A place on which nobody sat yet, of a station that had no line so far.
    fn new(alloc: Global) -> Place {
        Place {
            held: Mutex::new(Held {
                seat: Seat::new(alloc, 0),
                link: None,
                links: 0,
                is_over: false,
            }),
            changed: Condvar::new(),
        }
    }

    /// The station's last line so far had this number. To be called before anybody sits down.
    pub(crate) fn begin<R: Wait>(&self, rt: &R, alloc: Global, base: u32) {
        let mut guard = self.held.lock(rt);
        let held = &mut *guard;
        held.seat = Seat::new(alloc, base);
    }

    /// Has somebody sit down over this connection, who has got so many replies, and answers it. Whoever was there is cut
    /// off. The connection does not block yet.
    pub(crate) fn sit<R: Wait>(
        &self,
        rt: &R,
        alloc: Global,
        station: usize,
        mut link: Link,
        got: u32,
    ) -> Result<(), NotSat> {
        let mut answer = Vec::with_capacity(alloc, LONGEST_ANSWER)?;
        let mut guard = self.held.lock(rt);
        let held = &mut *guard;
        if held.is_over {
            drop(guard);
            link.tells(b"no seat\n");
            return Err(NotSat::Over);
        }
        let lines = held.seat.lines();
        let from = held.seat.sit(u64::from(got)).saturating_add(1);
        cut_off(&held.link);
        let is_told = writeln!(answer, "seat {station} {lines} {from}").is_ok()
            && link.tells(&answer);
        link.is_seated();
        held.links = held.links.wrapping_add(1);
        held.link = Some(link);
        if !is_told {
            held.breaks();
        }
        self.changed.notify_all();
        if is_told { Ok(()) } else { Err(NotSat::Untold) }
    }
}

impl Held {
    /// The connection is gone.
    pub(crate) fn breaks(&mut self) {
        cut_off(&self.link);
        self.link = None;
        self.seat.breaks();
    }
}

// Ends a connection, so that who reads of it or writes to it goes on.
fn cut_off(link: &Option<Link>) {
    match link {
        Some(link) => {
            let _ = link.stream.shutdown(Shutdown::Both);
        }
        None => {}
    }
}
