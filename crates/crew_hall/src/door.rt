// The thread that lets people in.
use crate::place::{NotSat, Place};
use crate::report::Report;
use crew_words::{Crew, Entry, entry_in};
use first_lines::{Heard, Newcomer, Stage};
use libc::net::{POLLIN, POLLOUT, poll};
use libc::types::pollfd;
use room_ports::Memory;
use std::alloc::Global;
use std::io::{ErrorKind, Write};
use std::net::{Net, SocketAddr, TcpListener, TcpStream};
use std::os::fd::AsRawFd;
use std::rt::Clock;
use std::sync::{Arc, Condvar, Mutex, Wait};
use std::thread;
use std::time::{Duration, Instant};
use web_lines::{Answer, Outgoing, Page, response};

// How long a first line or a head may take, how long who gets no seat waits, how long an answer of HTTP may take, how long
// is waited for the end of a connection over which all is said, and how long nobody looks whether the hall has ended, in
// milliseconds.
const FIRST_LINE: u64 = 5_000;

const REFUSAL: u64 = 1_000;

const ANSWER: u64 = 20_000;

const PARTING: u64 = 1_000;

const LOOK: i32 = 250;

// How many connections may wait before they have sat down. The oldest gives way to the next.
const MOST_GUESTS: usize = 512;

// What the door is.
#[derive(Drop)]
enum State {
    // The hall is not open yet.
    Closed,
    // The hall listens here.
    Open(TcpListener),
    // The listener was taken.
    Tended,
    // The hall has ended.
    Ended,
}

/// Where a hall that is opened hands its listener to the thread that lets people in.
#[derive(Drop)]
pub struct Door {
    state: Mutex<State>,
    changed: Condvar,
}

impl Door {
    /// The door of a hall that is not open.
    pub fn new() -> Door {
        Door {
            state: Mutex::new(State::Closed),
            changed: Condvar::new(),
        }
    }

    /// The hall listens.
    pub(crate) fn open<R: Wait>(&self, rt: &R, listener: TcpListener) {
        let mut guard = self.state.lock(rt);
        *guard = State::Open(listener);
        self.changed.notify_all();
    }

    /// The hall has ended: nobody is let in any more.
    pub fn end<R: Wait>(&self, rt: &R) {
        let mut guard = self.state.lock(rt);
        *guard = State::Ended;
        self.changed.notify_all();
    }

    // Waits until the hall listens, and answers its listener; none where it has ended.
    fn listener<R: Wait>(&self, rt: &R) -> Option<TcpListener> {
        let mut guard = self.state.lock(rt);
        for _ in rt.forever() {
            let state = std::mem::replace(&mut *guard, State::Tended);
            match state {
                State::Open(listener) => return Some(listener),
                State::Ended => {
                    *guard = State::Ended;
                    return None;
                }
                State::Closed => *guard = State::Closed,
                State::Tended => {}
            }
            guard = self.changed.wait(rt, guard);
        }
        unreachable!()
    }

    // Whether the hall has ended.
    fn has_ended<R: Wait>(&self, rt: &R) -> bool {
        let guard = self.state.lock(rt);
        matches!(&*guard, State::Ended)
    }
}

// What the thread works with.
#[derive(Drop)]
struct Porter<'a, R, W> {
    rt: &'a R,
    alloc: Global,
    crew: &'a Crew,
    places: &'a [Place],
    report: Report<W>,
    idle: Option<Duration>,
    page: Page<'a>,
    guests: Vec<Newcomer>,
}

/// Lets people in until the hall has ended. It waits for nobody in particular: a connection that says nothing, or that has a
/// wrong key, keeps no other from its seat. `idle` is how long a station may send nothing, or take nothing, before its
/// connection is cut off. A browser gets this page.
pub fn tend<R: Wait + Clock, W: Write + Copy>(
    rt: &R,
    alloc: Global,
    door: &Door,
    crew: &Crew,
    places: &[Place],
    to: W,
    idle: Option<Duration>,
    page: Page<'_>,
) {
    let Some(listener) = door.listener(rt) else {
        return;
    };
    let mut porter = Porter {
        rt,
        alloc,
        crew,
        places,
        report: Report::new(alloc, to),
        idle,
        page,
        guests: Vec::new(alloc),
    };
    for _ in rt.forever() {
        if door.has_ended(rt) {
            return;
        }
        porter.turn(&listener);
    }
}

impl<R: Wait + Clock, W: Write + Copy> Porter<'_, R, W> {
    // Waits until somebody comes or speaks, and sees to all who did.
    fn turn(&mut self, listener: &TcpListener) {
        let Ok(mut asked) = self.asked(listener) else {
            thread::sleep(self.rt, Duration::from_millis(10));
            return;
        };
        poll(&mut asked, LOOK);
        let Ok(now) = Instant::now(self.rt) else {
            return;
        };
        let mut at = 0;
        for one in asked.iter().skip(1) {
            if at < self.guests.len() && self.see_to(at, one.revents != 0, now) {
                at = at.saturating_add(1);
            }
        }
        if matches!(asked.first(), Some(one) if one.revents != 0) {
            self.accept_all(listener, now);
        }
    }

    // What is asked of the system: the listener, and each guest in order.
    fn asked(&self, listener: &TcpListener) -> Result<Vec<pollfd>, Memory> {
        let mut asked = Vec::with_capacity(self.alloc, self.guests.len().saturating_add(1))?;
        asked.push(asking(listener.as_raw_fd(), POLLIN))?;
        for guest in &self.guests {
            let events = match &guest.stage {
                Stage::Comes | Stage::Parts => POLLIN,
                Stage::Refused => 0,
                Stage::Answers(_) => POLLOUT,
            };
            asked.push(asking(guest.stream.as_raw_fd(), events))?;
        }
        Ok(asked)
    }

    // Takes all who have come.
    fn accept_all(&mut self, listener: &TcpListener, now: Instant) {
        for _ in 0..64u32 {
            match listener.accept() {
                Ok((stream, peer)) => self.take(stream, peer, now),
                Err(error) if error.kind() == ErrorKind::WouldBlock => return,
                Err(error) if error.kind() == ErrorKind::ConnectionAborted => {}
                Err(_) => {
                    self.let_go(0);
                    thread::sleep(self.rt, Duration::from_millis(10));
                    return;
                }
            }
        }
    }

    // Takes a connection that has come. Where many wait the one that has waited longest gives way.
    fn take(&mut self, stream: TcpStream, peer: SocketAddr, now: Instant) {
        if stream.set_nonblocking(true).is_err() {
            return;
        }
        let _ = stream.set_nodelay(true);
        let Ok(stream) = Arc::new(self.alloc, stream) else {
            return;
        };
        if self.guests.len() >= MOST_GUESTS {
            drop(self.guests.remove(0));
        }
        let _ = self
            .guests
            .push(Newcomer::new(self.alloc, stream, peer, now));
    }

    // Sees to the guest at a place, and ends its time where that is over. It answers whether the guest still waits.
    fn see_to(&mut self, at: usize, is_ready: bool, now: Instant) -> bool {
        let guests = self.guests.len();
        let Some(guest) = self.guests.get_mut(at) else {
            return false;
        };
        match &guest.stage {
            Stage::Comes => self.listen(at, is_ready, now),
            Stage::Refused => {
                if is_ready || guest.has_waited(now, Duration::from_millis(REFUSAL)) {
                    self.dismiss(at, b"no seat\n", now);
                }
            }
            Stage::Answers(_) => {
                let goes_on = !is_ready || guest.go_on(now);
                if !goes_on || guest.has_waited(now, Duration::from_millis(ANSWER)) {
                    drop(self.let_go(at));
                }
            }
            Stage::Parts => {
                let goes_on = !is_ready || guest.pass_over();
                if !goes_on || guest.has_waited(now, Duration::from_millis(PARTING)) {
                    drop(self.let_go(at));
                }
            }
        }
        self.guests.len() == guests
    }

    // Hears the guest at a place where it has spoken.
    fn listen(&mut self, at: usize, has_spoken: bool, now: Instant) {
        let Some(guest) = self.guests.get_mut(at) else {
            return;
        };
        let heard = if has_spoken {
            guest.hear()
        } else {
            Heard::More
        };
        match heard {
            Heard::Line(end) => self.answer(at, end, now),
            Heard::Request(heard) => self.respond(at, heard, now),
            Heard::Gone => drop(self.let_go(at)),
            Heard::TooLong => self.turn_away(at, "its first line is too long", now),
            Heard::More => {
                if guest.has_waited(now, Duration::from_millis(FIRST_LINE)) {
                    self.give_up(at, now);
                }
            }
        }
    }

    // Lets a guest go that did not say in time what it wants.
    fn give_up(&mut self, at: usize, now: Instant) {
        match self.guests.get(at) {
            Some(guest) if guest.is_http() => drop(self.let_go(at)),
            _ => self.turn_away(at, "no first line came in time", now),
        }
    }

    // Answers the request of a guest that talks HTTP. A WebSocket is heard at once, since its first message may have come
    // with the request.
    fn respond(&mut self, at: usize, heard: web_lines::Heard, now: Instant) {
        let answer = response(self.alloc, heard.answer, self.page);
        let Some(guest) = self.guests.get_mut(at) else {
            return;
        };
        let goes_on = match (answer, heard.answer) {
            (Ok(bytes), Answer::Station(_)) => {
                let is_up = guest.upgrade(self.alloc, bytes.as_slice(), heard.len, now);
                if is_up {
                    self.listen_on(at, now);
                    return;
                }
                is_up
            }
            (Ok(bytes), _) => {
                guest.stage = Stage::Answers(Outgoing::new(bytes));
                guest.since = now;
                guest.go_on(now)
            }
            (Err(_), _) => false,
        };
        if !goes_on {
            drop(self.let_go(at));
        }
    }

    // Hears the WebSocket of a guest, of which something may have come already.
    fn listen_on(&mut self, at: usize, now: Instant) {
        let Some(guest) = self.guests.get_mut(at) else {
            return;
        };
        match guest.hear() {
            Heard::Line(end) => self.answer(at, end, now),
            Heard::Gone => drop(self.let_go(at)),
            Heard::TooLong => self.turn_away(at, "its first line is too long", now),
            Heard::Request(_) | Heard::More => {}
        }
    }

    // Tells a guest this, and nothing more.
    fn dismiss(&mut self, at: usize, text: &[u8], now: Instant) {
        match self.guests.get_mut(at) {
            Some(guest) => guest.part_with(text, now),
            None => {}
        }
    }

    // Takes the guest at a place out; none where none is there.
    fn let_go(&mut self, at: usize) -> Option<Newcomer> {
        if at < self.guests.len() {
            Some(self.guests.remove(at))
        } else {
            None
        }
    }

    // Lets a guest go at once that has said nothing of use.
    fn turn_away(&mut self, at: usize, why: &str, now: Instant) {
        match self.guests.get(at) {
            Some(guest) => self.report.turns_away(guest.peer, why),
            None => {}
        }
        self.dismiss(at, b"no seat\n", now);
    }

    // Has a guest wait until it is told that it gets no seat.
    fn refuse(&mut self, at: usize, why: &str, now: Instant) {
        let Some(guest) = self.guests.get_mut(at) else {
            return;
        };
        guest.stage = Stage::Refused;
        guest.since = now;
        self.report.turns_away(guest.peer, why);
    }

    // Answers the first line of a guest, which ends before this place.
    fn answer(&mut self, at: usize, end: usize, now: Instant) {
        let Some(guest) = self.guests.get(at) else {
            return;
        };
        let line = guest.text.as_slice().get(..end).unwrap_or(&[]);
        match entry_in(line) {
            Entry::Ping => self.dismiss(at, b"cutroom\n", now),
            Entry::Nothing => self.refuse(at, "its first line is no `sit NAME KEY GOT`", now),
            Entry::Sit(name, key, got) => match self.crew.station(name, key) {
                Some(station) => self.seat(at, end, station, got, now),
                None => self.refuse(at, "a wrong name or key", now),
            },
        }
    }

    // Has a guest sit down at the station's seat, with what it sent after its first line.
    fn seat(&mut self, at: usize, end: usize, station: usize, got: u32, now: Instant) {
        let places = self.places;
        let Some(place) = places.get(station) else {
            self.refuse(at, "its station has no seat in this room", now);
            return;
        };
        let Some(guest) = self.let_go(at) else {
            return;
        };
        let peer = guest.peer;
        let Some(link) = guest.into_link(self.alloc, end) else {
            self.report.turns_away(peer, "out of memory");
            return;
        };
        let _ = link.stream.set_read_timeout(self.idle);
        let _ = link.stream.set_write_timeout(self.idle);
        match place.sit(self.rt, self.alloc, station, link, got) {
            Ok(()) => self.report.sits(station, peer),
            Err(NotSat::Over) => self.report.turns_away(peer, "its station has left"),
            Err(NotSat::Untold) => self.report.turns_away(peer, "it took no answer"),
        }
    }
}

// The events that are asked for of a descriptor.
fn asking(fd: i32, events: i16) -> pollfd {
    pollfd {
        fd,
        events,
        revents: 0,
    }
}
