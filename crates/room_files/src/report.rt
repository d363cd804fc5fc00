// What standard error gets of files and streams that fail.
use std::alloc::Global;
use std::io::{self, Write};

/// Where it is told what failed and why, a line at a time. No clause says what is told.
#[derive(Clone, Copy, Debug)]
pub struct Report<W> {
    alloc: Global,
    to: W,
}

impl<W> Report<W> {
    /// A report that tells this writer, and makes its lines in this memory.
    pub fn new(alloc: Global, to: W) -> Report<W> {
        Report { alloc, to }
    }

    /// Where the memory of its lines is from.
    pub(crate) fn alloc(&self) -> Global {
        self.alloc
    }
}

impl<W: Write + Copy> Report<W> {
    /// What has this name could not be read.
    pub(crate) fn unread(&self, name: &str, error: &io::Error) {
        match format!(in self.alloc; "cutroom: {name} could not be read: {error}\n") {
            Ok(line) => self.tell(line.as_str()),
            Err(_) => self.tell("cutroom: a read failed\n"),
        }
    }

    /// What has this name could not be written.
    pub(crate) fn unwritten(&self, name: &str, error: &io::Error) {
        match format!(in self.alloc; "cutroom: {name} could not be written: {error}\n") {
            Ok(line) => self.tell(line.as_str()),
            Err(_) => self.tell("cutroom: a write failed\n"),
        }
    }

    /// What has this name is to be written later, and can't be written now.
    pub(crate) fn unwritable(&self, name: &str, error: &io::Error) {
        match format!(in self.alloc; "cutroom: {name} can't be written yet: {error}\n") {
            Ok(line) => self.tell(line.as_str()),
            Err(_) => self.tell("cutroom: a file can't be written yet\n"),
        }
    }

    /// What has this name is to be written later, and holds something now.
    pub(crate) fn replaces(&self, name: &str) {
        match format!(in self.alloc; "cutroom: {name} is there and will be replaced at the end\n") {
            Ok(line) => self.tell(line.as_str()),
            Err(_) => self.tell("cutroom: a file is there and will be replaced at the end\n"),
        }
    }

    // One write a line, so that the lines of two threads stay whole.
    fn tell(&self, line: &str) {
        let mut to = self.to;
        let _ = to.write(line.as_bytes());
    }
}
