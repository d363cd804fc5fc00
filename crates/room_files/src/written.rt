// All that was written to files, in memory that is there from the beginning.
ghost use Rattle.std.specs.Prelude.{◌≡◌, ◌≤◌, ◌↔◌, [], IfOk, IsOk, IsTrue, ℕ, length, bytes_eq, if◌then◌else◌};
ghost use Rattle.room_files.specs.Files.{Bytes, content_in, or_empty, with_file};
ghost use Rattle.room_files.specs.WrittenInside.{HasRoom, IsKept, cut, files_of, names_length, bytes_length};

use room_ports::Memory;
use std::alloc::Global;

/// The most writes that are told.
pub const MAX_WRITES: usize = 64;

/// The most bytes that the names of all writes may have together.
pub const MAX_NAMES: usize = 4096;

/// The lengths of a name and of what was written under it.
#[derive(Clone, Copy)]
struct Lengths {
    name: usize,
    bytes: usize,
}

/// The names of all writes, the bytes that they wrote, and the lengths of each.
#[derive(Drop)]
pub struct Written {
    names: Vec<u8>,
    bytes: Vec<u8>,
    lengths: Vec<Lengths>,
}

impl Written {
    /// Nothing was written, and there is memory for so many bytes.
    pub fn new(alloc: Global, room: usize) -> Result<Written, Memory>
        ensures kept { IfOk result (λ w. IsKept room w) }
        ensures none { IfOk result (λ w. files_of w ≡ []) }
    {
        Ok(Written {
            names: Vec::with_capacity(alloc, MAX_NAMES)?,
            bytes: Vec::with_capacity(alloc, room)?,
            lengths: Vec::with_capacity(alloc, MAX_WRITES)?,
        })
    }

    /// Whether there is memory for one write more.
    pub fn has_room(&self, room: usize, name: &str, bytes: &[u8]) -> bool
        requires { IsKept room self.now }
        ensures { IsTrue result ↔ HasRoom room self.now name.now bytes.now }
    {
        self.lengths.len() < MAX_WRITES
            && name.len() <= MAX_NAMES - self.names.len()
            && bytes.len() <= room - self.bytes.len()
    }

    /// Puts a write after the others, in the memory that there is room for.
    pub fn add(&mut self, room: usize, name: &str, bytes: &[u8]) -> Result<(), Memory>
        requires kept { IsKept room self.old }
        requires room { HasRoom room self.old name.now bytes.now }
        ensures sure { IsOk result }
        ensures kept { IsKept room self.new }
        ensures added { files_of self.new ≡ with_file name.now bytes.now (files_of self.old) }
    {
        self.names.extend_from_slice(name.as_bytes())?;
        self.bytes.extend_from_slice(bytes)?;
        self.lengths.push(Lengths {
            name: name.len(),
            bytes: bytes.len(),
        })?;
        Ok(())
    }

    /// What was written last under this name, or nothing.
    pub fn find(&self, name: &str) -> &[u8]
        requires { (room : ℕ) × IsKept room self.now }
        ensures { Bytes result.now ≡ or_empty (content_in (files_of self.now) name.now) }
    {
        last_of(&self.lengths, &self.names, &self.bytes, name)
    }
}

// What the last of these writes under this name wrote, or nothing. They have these lengths, and their names and what
// they wrote stand one after another.
fn last_of<'a>(lengths: &[Lengths], names: &[u8], bytes: &'a [u8], name: &str) -> &'a [u8]
    requires names { names_length lengths.now ≤ length names.now }
    requires bytes { bytes_length lengths.now ≤ length bytes.now }
    ensures { Bytes result.now ≡ or_empty (content_in
        (cut names.now bytes.now lengths.now) name.now) }
{
    let mut names = names;
    let mut bytes = bytes;
    let mut found: &[u8] = &[];
    for each in lengths {
        let (this_name, later_names) = names.split_at(each.name);
        let (these_bytes, later_bytes) = bytes.split_at(each.bytes);
        found = latest(this_name, these_bytes, name, found);
        names = later_names;
        bytes = later_bytes;
    }
    found
}

// What was found so far, where a write of these bytes under `this_name` comes after it.
fn latest<'a>(this_name: &[u8], bytes: &'a [u8], name: &str, found: &'a [u8]) -> &'a [u8]
    ensures { Bytes result.now
        ≡ (if bytes_eq this_name.now name.now then Bytes bytes.now else Bytes found.now) }
{
    if this_name == name.as_bytes() {
        return bytes;
    }
    found
}
