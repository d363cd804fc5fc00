// How a station's line comes to its bytes, and how they go out, over whatever connection is there.
use crate::batch::{Batch, FEW};
use crate::place::{Held, Place};
use crate::report::Report;
use first_lines::{Link, Shared};
use seat_lines::Seat;
use std::io::{ErrorKind, Read, Write};
use std::net::{Shutdown, TcpStream};
use std::sync::{Arc, Wait};
use web_lines::WebStream;

/// The most bytes that are read of a connection at once, and that are written to it.
pub(crate) const PIECE: usize = 8_192;

/// A station's side of its place: the connection that was there when its lock was last held, what came over it and was not
/// taken yet, and how many bytes went out over it of which the seat does not know yet. It learns of them when its lock is next
/// held, so a reply that goes out at once takes the lock once. Short replies to lines that came together go out together, some
/// at a time.
#[derive(Drop)]
pub(crate) struct SeatPort<'a, R, W> {
    rt: &'a R,
    place: &'a Place,
    station: u32,
    report: Report<W>,
    came: [u8; PIECE],
    at: usize,
    end: usize,
    out: usize,
    batch: Batch,
    stream: Option<Arc<TcpStream>>,
    web: Option<WebStream<Shared>>,
    of: u64,
}

// What a read of a seat comes to.
enum Step {
    // The session gets so many bytes.
    Given(usize),
    // Something changed; look again.
    Again,
    // What is to be written goes out first.
    Send,
    // More has to come over the connection.
    Read,
    // Nobody is there.
    Wait,
}

// What a write to a seat comes to.
enum Put {
    // It is kept, and nothing before it waits: it may go out over the connection.
    Goes,
    // It is kept, and goes out with the short ones that wait before it.
    Joins,
    // It is kept.
    Kept,
    // There was no memory for it.
    Lost,
    // Something waits to be sent before it.
    Waits,
}

impl<'a, R: Wait, W: Write + Copy> SeatPort<'a, R, W> {
    /// The station's side of its place, over which nothing came yet.
    pub(crate) fn new(rt: &'a R, place: &'a Place, station: u32, report: Report<W>) -> Self {
        SeatPort {
            rt,
            place,
            station,
            report,
            came: [0; PIECE],
            at: 0,
            end: 0,
            out: 0,
            batch: Batch::new(),
            stream: None,
            web: None,
            of: 0,
        }
    }

    /// Gives the next bytes of the lines that the seat took, and how many they are. It waits while there are none, and
    /// gives none once the station has left.
    pub(crate) fn read(&mut self, into: &mut [u8]) -> usize {
        for _ in self.rt.forever() {
            match self.look(into) {
                Step::Given(n) => return n,
                Step::Send => {
                    self.send_on();
                }
                Step::Read => self.read_on(),
                Step::Again | Step::Wait => {}
            }
        }
        unreachable!()
    }

    /// Keeps a piece of a reply, and has it go out where the station is there. It says whether there was memory for it.
    pub(crate) fn write(&mut self, piece: &[u8]) -> bool {
        for _ in self.rt.forever() {
            match self.put(piece) {
                Put::Goes => {
                    self.write_on(piece);
                    if self.out < piece.len() {
                        self.send_all();
                    }
                    return true;
                }
                Put::Joins => {
                    self.send_few();
                    return true;
                }
                Put::Kept => return true,
                Put::Lost => return false,
                Put::Waits => self.send_all(),
            }
        }
        unreachable!()
    }

    /// Ends the seat, once what is to be written has gone out: nobody sits on it any more.
    pub(crate) fn leave(&mut self) {
        self.send_all();
        match &mut self.web {
            Some(web) => web.close(),
            None => {}
        }
        let mut guard = self.place.held.lock(self.rt);
        let held = &mut *guard;
        held.is_over = true;
        match &held.link {
            Some(link) => {
                let _ = link.stream.shutdown(Shutdown::Both);
            }
            None => {}
        }
        held.link = None;
        held.seat.breaks();
        drop(guard);
        self.stream = None;
        self.report.station(self.station, "left");
    }

    // Turns to the connection that is there, and has the seat learn what went out over it. What came and went over another
    // counts no more.
    fn turn_to(&mut self, held: &mut Held) {
        if self.of == held.links {
            let sent = self.out.min(held.seat.unsent().len());
            held.seat.send(sent);
        } else {
            self.of = held.links;
            self.at = 0;
            self.end = 0;
            self.stream = None;
            self.web = None;
            self.batch.goes();
            self.take_ahead(&mut held.link);
        }
        self.out = 0;
        self.take_stream(&held.link);
    }

    // Takes a share of the connection, where it has none yet. Where nobody is there it keeps none.
    fn take_stream(&mut self, link: &Option<Link>) {
        match link {
            None => self.stream = None,
            Some(link) if self.stream.is_none() => match Arc::try_clone(&link.stream) {
                Ok(stream) => self.stream = Some(stream),
                Err(_) => {}
            },
            Some(_) => {}
        }
    }

    // Has the seat take what came over the connection that is there, as far as it does.
    fn feed(&mut self, held: &mut Held) {
        self.turn_to(held);
        let end = self.end.min(PIECE);
        self.at = fed(&mut held.seat, &self.came[..end], self.at);
    }

    // Has the seat take line after line, as far as there is room for them, and gives how many bytes they are.
    fn fill(&mut self, held: &mut Held, into: &mut [u8]) -> usize {
        let mut n = 0;
        for _ in 0..into.len() {
            self.feed(held);
            let more = match into.get_mut(n..) {
                Some(room) => held.seat.read(room),
                None => 0,
            };
            if more == 0 {
                break;
            }
            n = n.saturating_add(more);
            self.batch.is_given(into.get(..n).unwrap_or(&[]));
        }
        n
    }

    // Takes what came with the first line of a connection, and its WebSocket.
    fn take_ahead(&mut self, link: &mut Option<Link>) {
        let Some(link) = link else {
            return;
        };
        self.web = link.web.take();
        match link.ahead.take() {
            Some(ahead) => {
                let n = ahead.len().min(PIECE);
                self.came[..n].copy_from_slice(&ahead[..n]);
                self.end = n;
            }
            None => {}
        }
    }

    // What a read comes to now. The lock is held for that alone.
    fn look(&mut self, into: &mut [u8]) -> Step {
        let place = self.place;
        let mut guard = place.held.lock(self.rt);
        let held = &mut *guard;
        let n = self.fill(held, into);
        if n > 0 || into.is_empty() {
            return Step::Given(n);
        }
        if !held.seat.unsent().is_empty() && held.link.is_some() {
            return Step::Send;
        }
        if held.seat.has_left() || (held.seat.is_here() && !held.seat.may_take()) {
            return Step::Given(0);
        }
        if held.link.is_none() {
            drop(place.changed.wait(self.rt, guard));
            return Step::Wait;
        }
        if self.stream.is_some() {
            Step::Read
        } else {
            Step::Again
        }
    }

    // Reads of the connection, without the lock. Where another came meanwhile the next look finds that out.
    fn read_on(&mut self) {
        let Some(stream) = self.stream.take() else {
            return;
        };
        let answer = match &mut self.web {
            Some(web) => web.read(&mut self.came),
            None => {
                let mut from = &*stream;
                from.read(&mut self.came)
            }
        };
        self.stream = Some(stream);
        match answer {
            Ok(n) if n > 0 => {
                self.at = 0;
                self.end = n;
            }
            Ok(_) => self.lose("is away, its connection has ended"),
            Err(error) => match error.kind() {
                ErrorKind::Interrupted => {}
                ErrorKind::WouldBlock => {
                    self.lose("is away, nothing came over its connection in time");
                }
                _ => self.lose("is away, its connection has broken"),
            },
        }
    }

    // Writes bytes to the connection that are the next to go out, without the lock.
    fn write_on(&mut self, bytes: &[u8]) {
        let Some(stream) = self.stream.take() else {
            return;
        };
        let answer = match &mut self.web {
            Some(web) => web.write(bytes),
            None => {
                let mut to = &*stream;
                to.write(bytes)
            }
        };
        self.stream = Some(stream);
        match answer {
            Ok(sent) if sent > 0 => self.out = sent,
            _ => self.lose("is away, a write to its connection failed"),
        }
    }

    // The connection is gone, for a reason that is told. Where another has come since, nothing is.
    fn lose(&mut self, why: &str) {
        let place = self.place;
        let mut guard = place.held.lock(self.rt);
        let held = &mut *guard;
        if self.of != held.links || held.link.is_none() {
            return;
        }
        held.breaks();
        self.stream = None;
        self.web = None;
        self.out = 0;
        drop(guard);
        self.report.station(self.station, why);
    }

    // Has as much of what is to be written go out as there is room for, and says whether more may be there.
    fn send_by(&mut self, room: &mut [u8]) -> bool {
        let place = self.place;
        let mut guard = place.held.lock(self.rt);
        self.turn_to(&mut guard);
        let rest = guard.seat.unsent();
        let n = rest.len().min(room.len());
        let is_all = n == rest.len();
        room[..n].copy_from_slice(&rest[..n]);
        drop(guard);
        if n == 0 || self.stream.is_none() {
            return false;
        }
        self.batch.goes();
        self.write_on(&room[..n]);
        !is_all || self.out < n
    }

    // Has a piece of what is to be written go out, and says whether more may be there.
    fn send_on(&mut self) -> bool {
        let mut piece = [0u8; PIECE];
        self.send_by(&mut piece)
    }

    // Has the short replies that wait go out.
    fn send_few(&mut self) {
        let mut piece = [0u8; FEW];
        if self.send_by(&mut piece) {
            self.send_all();
        }
    }

    // Has all that is to be written go out over the connection that is there.
    fn send_all(&mut self) {
        for _ in self.rt.forever() {
            if !self.send_on() {
                return;
            }
        }
    }

    // Puts a piece, unless something waits to be sent before it that it may not wait with.
    fn put(&mut self, piece: &[u8]) -> Put {
        let place = self.place;
        let mut guard = place.held.lock(self.rt);
        let held = &mut *guard;
        self.turn_to(held);
        let waiting = held.seat.unsent().len();
        if held.link.is_some() && waiting > 0 && !self.batch.is_joined_by(piece, waiting) {
            return Put::Waits;
        }
        held.seat.make_room(piece.len());
        if held.seat.put(piece).is_err() {
            return Put::Lost;
        }
        self.batch.is_answered(piece);
        if self.stream.is_none() || piece.is_empty() {
            Put::Kept
        } else if self.web.is_none() && self.batch.takes(piece) {
            Put::Kept
        } else if waiting > 0 {
            Put::Joins
        } else {
            Put::Goes
        }
    }
}

// Has a seat take these bytes from a place on, as far as it does, and answers the place after what it took.
fn fed(seat: &mut Seat, bytes: &[u8], from: usize) -> usize {
    let mut at = from;
    for _ in 0..bytes.len() {
        let rest = bytes.get(at..).unwrap_or(&[]);
        if rest.is_empty() {
            return at;
        }
        if seat.may_take() {
            at = at.saturating_add(seat.take_in(rest));
        } else {
            return at;
        }
    }
    at
}
