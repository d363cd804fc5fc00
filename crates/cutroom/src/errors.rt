// Standard error, which nobody waits for.
use libc::net::{POLLOUT, poll};
use libc::types::pollfd;
use std::io::{self, Write};
use std::os::fd::AsRawFd;
use std::sync::{Mutex, Wait};

// A pipe that takes anything at all takes so many bytes at once.
const PIECE: usize = 4096;

/// A writer over standard error that never waits for its reader: what can't be written at once is dropped, and is told
/// as written. So a room goes on where a pipe is full that nobody reads, or a terminal is held. One thread writes at a
/// time; another program that writes to the same pipe may still fill it between the look and the write.
#[derive(Clone, Copy)]
pub struct Errors<'a, R, E> {
    rt: &'a R,
    turn: &'a Mutex<()>,
    to: E,
}

impl<'a, R, E> Errors<'a, R, E> {
    /// Over this stream, for which threads take turns.
    pub fn new(rt: &'a R, turn: &'a Mutex<()>, to: E) -> Self {
        Errors { rt, turn, to }
    }
}

impl<R: Wait, E: Write + AsRawFd + Copy> Write for Errors<'_, R, E> {
    // Writes as much as the stream takes at once, and tells that all was written.
    fn write(&mut self, told: &[u8]) -> io::Result<usize> {
        let turn = self.turn.lock(self.rt);
        let mut to = self.to;
        for piece in told.chunks(PIECE) {
            if takes_at_once(&to) {
                let _ = to.write(piece);
            }
        }
        drop(turn);
        Ok(told.len())
    }

    // There is nothing to flush: no byte is held back.
    fn flush(&mut self) -> io::Result<()> {
        Ok(())
    }
}

// Whether a write to this stream would not wait now. A plain file always takes it.
fn takes_at_once<E: AsRawFd>(stream: &E) -> bool {
    let mut asked = [pollfd {
        fd: stream.as_raw_fd(),
        events: POLLOUT,
        revents: 0,
    }];
    let ready = poll(&mut asked, 0);
    ready == 1 && asked[0].revents & POLLOUT != 0
}
