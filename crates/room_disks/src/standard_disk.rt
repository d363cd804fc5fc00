// The disk of the system, which tells contracts nothing.
ghost use Rattle.std.specs.Prelude.{◌≡◌, ◌≤◌, None, Ok, length, IfOk, IsErr, OnOk, OnErr};
ghost use Rattle.room_ports.specs.Counts.{counted};
ghost use Rattle.std.proofs.lemmas.Option.{none-some};

use crate::Disk;
use crate::report::Report;
use room_ports::Failed;
use std::alloc::Global;
use std::fs::{File, OpenOptions};
use std::io::{self, Write};
use std::marker::Model;
use std::os::unix::fs::FileExt;
use std::rt::Files;

/// What a kept file begins with. A file that is no longer than this counts as new.
const NEW_FILE: [u8; 19] = *b"cutroom journal 1\n-";

/// The files of the system, by their paths, of which one is open and no other program's. Each call that fails is counted
/// as a fault, and told with the file's name and the system's reason. No clause says what is told.
#[derive(Drop)]
pub struct StdDisk<'a, R: Files<File = File>, W> {
    alloc: Global,
    system: &'a R,
    report: Report<W>,
    name: Option<String>,
    file: Option<File>,
    faults: u64,
}

impl<'a, R: Files<File = File>, W: Write + Copy> StdDisk<'a, R, W> {
    /// A disk of this system, of which no file is open, without a fault so far. It tells a writer what fails.
    pub fn new(alloc: Global, system: &'a R, to: W) -> Self
        ensures { (⟦<StdDisk<'a, R, W> as Disk>⟧.faults result) ≡ 0 }
    {
        StdDisk {
            alloc,
            system,
            report: Report::new(alloc, to),
            name: None,
            file: None,
            faults: 0,
        }
    }

    // Tells of a call that failed what it was to do with the open file: `done` is `read`,
    // `written`, `cut` and the like.
    fn tell<T>(&self, answer: &io::Result<T>, done: &str) {
        match answer {
            Ok(_) => {}
            Err(error) => self.report.failed(name_of(&self.name), done, error),
        }
    }
}

impl<R: Files<File = File>, W: Write + Copy> Disk for StdDisk<'_, R, W> {
    ghost course = { λ _. None };

    ghost file = { λ _ _. None };

    ghost faults = { λ d. d.faults };

    ghost reads_are_an_image = { λ d c told. absurd (none-some c told) };

    /// Opens a file for reading and writing, or makes it, and syncs it and its folder, so that a crash leaves the file
    /// where it is. Its lock is taken, which goes with this disk or with the program: a file that is open already, by
    /// another program or by a disk of this one, is not opened. One that counts as new though it has other bytes than a
    /// kept file begins with is told.
    fn open(&mut self, name: &str) -> Result<(), Failed> {
        let answer = open_file(self.system, name);
        tell_opened(self.report, &answer, name);
        let file = count_fault(answer, &mut self.faults)?;
        self.name = copied(self.alloc, name);
        self.file = Some(file);
        Ok(())
    }

    /// The length that the system tells, or a fault where it is more than a u32 tells or no file is open.
    fn len(&mut self) -> Result<u32, Failed> {
        let answer = len_of(&self.file);
        self.tell(&answer, "looked at");
        count_fault(answer, &mut self.faults)
    }

    /// Reads once at a place, which may give less than there is room for.
    fn read(&mut self, at: u32, into: &mut [u8]) -> Result<usize, Failed> {
        let answer = read_from(&self.file, at, into);
        self.tell(&answer, "read");
        count_fault(answer, &mut self.faults)
    }

    /// Writes all bytes; where it fails, a part of them may be written.
    fn write_at(&mut self, at: u32, bytes: &[u8]) -> Result<(), Failed> {
        let answer = write_to(&self.file, at, bytes);
        self.tell(&answer, "written");
        count_fault(answer, &mut self.faults)
    }

    /// Cuts the file to a length. It looks at the file first, so that one that is no longer than
    /// that is not made longer.
    fn cut(&mut self, len: u32) -> Result<(), Failed> {
        let answer = cut_to(&self.file, len);
        self.tell(&answer, "cut");
        count_fault(answer, &mut self.faults)
    }

    /// Waits until the file's bytes and its length are on the disk, as `fdatasync` does.
    fn sync(&mut self) -> Result<(), Failed> {
        let answer = sync_of(&self.file);
        self.tell(&answer, "synced");
        count_fault(answer, &mut self.faults)
    }
}

// The name that a file was opened by, for what is told of it; `a file` where there was no memory for its name.
fn name_of(name: &Option<String>) -> &str {
    match name {
        Some(name) => name.as_str(),
        None => "a file",
    }
}

// A copy of a name; `None` where there is no memory, since a name is wanted only for what is told.
fn copied(alloc: Global, name: &str) -> Option<String> {
    match String::from_str(alloc, name) {
        Ok(name) => Some(name),
        Err(_) => None,
    }
}

// What a call answered, or a fault more.
fn count_fault<T: Drop>(answer: io::Result<T>, faults: &mut u64) -> Result<T, Failed>
    ensures ok { IfOk answer (λ value. result ≡ Ok value) }
    ensures quiet { OnOk answer (faults.new ≡ faults.old) }
    ensures err { OnErr answer (IsErr result) }
    ensures counted { OnErr answer (faults.new ≡ counted faults.old) }
{
    match answer {
        Ok(value) => Ok(value),
        Err(_) => {
            *faults = faults.saturating_add(1);
            Err(Failed)
        }
    }
}

// A file opened or made, locked for this disk alone, and on the disk with its folder.
fn open_file<R: Files<File = File>>(system: &R, name: &str) -> io::Result<File> {
    let file = OpenOptions::new()
        .read(true)
        .write(true)
        .create(true)
        .open(system, name)?;
    file.try_lock()?;
    file.sync_all()?;
    let folder = File::open(system, folder_of(name))?;
    folder.sync_all()?;
    Ok(file)
}

// Why a file was not opened, or that it is opened and counts as new.
fn tell_opened<W: Write + Copy>(report: Report<W>, answer: &io::Result<File>, name: &str) {
    match answer {
        Ok(file) => match foreign_bytes(file) {
            Ok(0) | Err(_) => {}
            Ok(len) => report.taken_as_new(name, len),
        },
        Err(error) => report.unopened(name, error),
    }
}

// How many bytes a file has that counts as new, though it begins otherwise; 0 of any other.
fn foreign_bytes(file: &File) -> io::Result<usize> {
    let mut head = [0; 20];
    let len = file.read_at(&mut head, 0)?;
    if len > NEW_FILE.len() {
        return Ok(0);
    }
    let (begun, _) = head.split_at(len);
    let (wanted, _) = NEW_FILE.split_at(len);
    if begun == wanted {
        return Ok(0);
    }
    Ok(len)
}

// The folder that a path names a file in, `.` where it names none.
fn folder_of(name: &str) -> &str {
    match name.rfind('/') {
        Some(0) => "/",
        Some(end) => &name[..end],
        None => ".",
    }
}

// The file that is open, or an error where none is.
fn opened(file: &Option<File>) -> io::Result<&File> {
    match file {
        Some(file) => Ok(file),
        None => Err(io::Error::from(io::ErrorKind::NotFound)),
    }
}

// The file's length in bytes, or an error where it is more than a u32 tells.
fn len_of(file: &Option<File>) -> io::Result<u32> {
    let len = opened(file)?.metadata()?.len();
    match u32::try_from(len) {
        Ok(len) => Ok(len),
        Err(_) => Err(io::Error::from(io::ErrorKind::FileTooLarge)),
    }
}

// One read at a place, and how many bytes it gave.
fn read_from(file: &Option<File>, at: u32, into: &mut [u8]) -> io::Result<usize>
    ensures { IfOk result (λ n. n ≤ length into.old) }
{
    opened(file)?.read_at(into, u64::from(at))
}

// Writes all bytes at a place.
fn write_to(file: &Option<File>, at: u32, bytes: &[u8]) -> io::Result<()> {
    opened(file)?.write_all_at(bytes, u64::from(at))
}

// Cuts the file to a length; one that is no longer stays.
fn cut_to(file: &Option<File>, len: u32) -> io::Result<()> {
    let file = opened(file)?;
    let len = u64::from(len);
    if len < file.metadata()?.len() {
        file.set_len(len)?;
    }
    Ok(())
}

// Waits until the file's bytes and its length are on the disk.
fn sync_of(file: &Option<File>) -> io::Result<()> {
    opened(file)?.sync_data()
}
