// What standard error gets of a disk whose calls fail.
use std::alloc::Global;
use std::io::{self, ErrorKind, Write};

/// Where a disk tells which of its calls failed and why, a line at a time. What can't be told is left out.
#[derive(Clone, Copy, Debug)]
pub struct Report<W> {
    alloc: Global,
    to: W,
}

impl<W> Report<W> {
    /// A report that tells this writer, and makes its lines in this memory.
    pub(crate) fn new(alloc: Global, to: W) -> Report<W> {
        Report { alloc, to }
    }
}

impl<W: Write + Copy> Report<W> {
    /// A file of this name could not be opened.
    pub(crate) fn unopened(&self, name: &str, error: &io::Error) {
        match error.kind() {
            ErrorKind::WouldBlock => self.in_use(name),
            _ => self.failed(name, "opened", error),
        }
    }

    // A file of this name is locked, by another program or by this one.
    fn in_use(&self, name: &str) {
        match format!(in self.alloc;
            "cutroom: {name} is in use, by another program or by this one\n"
        ) {
            Ok(line) => self.tell(line.as_str()),
            Err(_) => self.tell("cutroom: a file is in use\n"),
        }
    }

    /// What a call was to do with a file could not be done: `done` is `read`, `written`, `cut` and the like.
    pub(crate) fn failed(&self, name: &str, done: &str, error: &io::Error) {
        match format!(in self.alloc; "cutroom: {name} could not be {done}: {error}\n") {
            Ok(line) => self.tell(line.as_str()),
            Err(_) => self.tell("cutroom: a call on a disk failed\n"),
        }
    }

    /// A file is there with so many bytes, and counts as new.
    pub(crate) fn taken_as_new(&self, name: &str, len: usize) {
        match format!(in self.alloc;
            "cutroom: {name} has {len} bytes and no header, and counts as new\n"
        ) {
            Ok(line) => self.tell(line.as_str()),
            Err(_) => self.tell("cutroom: a file without a header counts as new\n"),
        }
    }

    // One write a line, so that the lines of two threads stay whole.
    fn tell(&self, line: &str) {
        let mut to = self.to;
        let _ = to.write(line.as_bytes());
    }
}
