// Files of the system, which tell nothing.
ghost use Rattle.std.specs.Prelude.{◌≡◌, ◌≤◌, None, Err, length, IfOk, OnErr, OnOk};
ghost use Rattle.std.specs.Io.KnownBytes.{Appends, Consumes, IsAtEnd};
ghost use Rattle.room_ports.specs.Counts.{counted};
ghost use Rattle.room_files.specs.FilesInside.{HasMore};
ghost use Rattle.room_files.specs.declared.files.FileFault.TheVariants as faults;
ghost use Rattle.room_files.specs.Files.{Untold, files_told};

use crate::beside::{Beside, write_beside};
use crate::places::{Place, are_one_file, place_of};
use crate::{FileFault, Files, Report, Reported};
use room_ports::Failed;
use std::alloc::Global;
use std::fs::{self, File, Metadata, OpenOptions};
use std::io::{self, ErrorKind, Read, Write};
use std::rt::Files as System;

// Linux's number of the error of a file that is longer than the process may make one.
const FILE_TOO_LARGE: i32 = 27;

/// The files of the system, by their paths. Each read and each write that fails is counted as a fault, and its report
/// tells of it, with the path as given and the system's reason. No clause says what is told.
#[derive(Drop)]
pub struct StdFiles<'a, R: System, W> {
    system: &'a R,
    report: Report<W>,
    longest: u64,
    read_faults: u64,
    write_faults: u64,
}

impl<'a, R: System, W: Write + Copy> StdFiles<'a, R, W> {
    /// The files of this system, without a fault so far, which tell this report. No file is made longer than so many
    /// bytes, since the system may end a process that tries to write past a limit of its own.
    pub fn new(system: &'a R, report: Report<W>, longest: u64) -> Self
        ensures reads { (⟦<StdFiles<'a, R, W> as Files>⟧.told result).reads ≡ 0 }
        ensures writes { (⟦<StdFiles<'a, R, W> as Files>⟧.told result).writes ≡ 0 }
    {
        StdFiles {
            system,
            report,
            longest,
            read_faults: 0,
            write_faults: 0,
        }
    }

    /// Tells its report where a file of this name can't be written as things stand, and where one is there that holds
    /// something, which a write would replace. It changes no file, and leaves no new one: one that is there is opened
    /// and closed; of one that is not there only making it shows whether it can be made, so it is made empty and removed
    /// at once. A pipe or a device is not looked at. No clause says any of it.
    pub fn look(&self, name: &str) {
        match place_of(self.system, self.report.alloc(), name) {
            Place::There(target, there) => match is_writable(self.system, target.as_str()) {
                Ok(()) if there.len() > 0 => self.report.replaces(name),
                Ok(()) => {}
                Err(error) => self.report.unwritable(name, &error),
            },
            Place::Free(target) => match is_makeable(self.system, target.as_str()) {
                Ok(()) => {}
                Err(error) => self.report.unwritable(name, &error),
            },
            Place::Other => match is_no_place(self.system, name) {
                Ok(()) => {}
                Err(error) => self.report.unwritable(name, &error),
            },
        }
    }

    /// Whether both names lead to one file, of whatever kind, that is there. No clause says it.
    pub fn are_one(&self, first: &str, second: &str) -> bool {
        are_one_file(self.system, first, second)
    }
}

impl<R: System, W: Write + Copy> Files for StdFiles<'_, R, W> {
    ghost told = { λ f. files_told (λ _. Untold) f.read_faults f.write_faults };

    /// Reads the file piece by piece, to its end or until it has more bytes than the limit. What is read of a file of the
    /// system no clause says; what is read of a reader that tells its bytes the clauses of `read_all` say.
    fn read_file(&mut self, alloc: Global, name: &str, limit: u32) -> Result<Vec<u8>, FileFault> {
        match read_whole(self.system, alloc, name, limit, self.report) {
            Err(FileFault::Failed) => {
                self.read_faults = self.read_faults.saturating_add(1);
                Err(FileFault::Failed)
            }
            Err(fault) => Err(fault),
            Ok(bytes) => Ok(bytes),
        }
    }

    /// Writes the bytes to a file beside the one that the name leads to, and gives it its name. Where none can be made there
    /// that would be as the old one was, it empties the old one and writes to it; so it does with a pipe or a device.
    /// What a file of the system holds then no clause says; what a writer holds that tells its bytes the clauses of
    /// `write_all` say.
    fn write_file(&mut self, name: &str, bytes: &[u8]) -> Result<(), Failed> {
        match write_whole(self.system, name, bytes, self.longest, self.report) {
            Ok(()) => Ok(()),
            Err(Failed) => {
                self.write_faults = self.write_faults.saturating_add(1);
                Err(Failed)
            }
        }
    }
}

// The bytes of a file, or `Failed` where it can't be opened or a read of it fails.
fn read_whole<R: System, W: Write + Copy>(
    system: &R,
    alloc: Global,
    name: &str,
    limit: u32,
    report: Report<W>,
) -> Result<Vec<u8>, FileFault>
    ensures { IfOk result (λ v. length v.items ≤ limit) }
{
    let file = match File::open(system, name) {
        Ok(file) => file,
        Err(error) => {
            report.unread(name, &error);
            return Err(FileFault::Failed);
        }
    };
    read_all(&mut Reported::new(file, name, report), alloc, limit)
}

/// All that a reader gives to its end. It is `Failed` where a read fails, and too large where more than the limit was read.
/// It reads up to 16,384 bytes at a time; how many it asks for no clause says.
pub fn read_all<R: Read>(reader: &mut R, alloc: Global, limit: u32) -> Result<Vec<u8>, FileFault>
    ensures within { IfOk result (λ v. length v.items ≤ limit) }
    ensures all { IfOk result (λ v. Consumes
        (R.remaining reader.old) (R.remaining reader.new) v.items) }
    ensures end { OnOk result (IsAtEnd (R.remaining reader.new)) }
    ensures large { (result ≡ Err faults.TooLarge)
        → HasMore (R.remaining reader.old) (R.remaining reader.new) limit }
{
    let limit = limit as usize;
    let mut bytes = Vec::new(alloc);
    let mut piece = [0; 16384];
    while bytes.len() <= limit {
        let count = match reader.read(&mut piece) {
            Ok(count) => count,
            Err(_) => return Err(FileFault::Failed),
        };
        if count == 0 {
            return Ok(bytes);
        }
        bytes.extend_from_slice(&piece[..count])?;
    }
    Err(FileFault::TooLarge)
}

// Writes these bytes to where the name leads. Where that fails the report is told.
fn write_whole<R: System, W: Write + Copy>(
    system: &R,
    name: &str,
    bytes: &[u8],
    longest: u64,
    report: Report<W>,
) -> Result<(), Failed> {
    match place_of(system, report.alloc(), name) {
        Place::There(target, there) => match is_writable(system, target.as_str()) {
            Ok(()) => {
                let target = target.as_str();
                replace(system, name, target, Some(&there), bytes, longest, report)
            }
            Err(error) => {
                report.unwritten(name, &error);
                Err(Failed)
            }
        },
        Place::Free(target) => {
            replace(system, name, target.as_str(), None, bytes, longest, report)
        }
        Place::Other => write_in_place(system, name, bytes, report),
    }
}

// Puts these bytes in place of what a plain file holds, or makes the file.
fn replace<R: System, W: Write + Copy>(
    system: &R,
    name: &str,
    target: &str,
    old: Option<&Metadata>,
    bytes: &[u8],
    longest: u64,
    report: Report<W>,
) -> Result<(), Failed> {
    if bytes.len() as u64 > longest {
        report.unwritten(name, &io::Error::from_raw_os_error(FILE_TOO_LARGE));
        return Err(Failed);
    }
    let alloc = report.alloc();
    match write_beside(system, alloc, name, target, old, bytes, report) {
        Beside::Done => Ok(()),
        Beside::Failed => Err(Failed),
        Beside::Unable => write_in_place(system, name, bytes, report),
    }
}

// Makes a file, or empties it, and writes these bytes to it. A write that fails, or a kill, leaves a piece of them.
fn write_in_place<R: System, W: Write + Copy>(
    system: &R,
    name: &str,
    bytes: &[u8],
    report: Report<W>,
) -> Result<(), Failed> {
    let file = match File::create(system, name) {
        Ok(file) => file,
        Err(error) => {
            report.unwritten(name, &error);
            return Err(Failed);
        }
    };
    write_all(&mut Reported::new(file, name, report), bytes)
}

// Writes all of these bytes and flushes, or fails.
pub(crate) fn write_all<W: Write>(writer: &mut W, bytes: &[u8]) -> Result<(), Failed>
    ensures { OnOk result (Appends (W.contents writer.old) (W.contents writer.new) bytes.now) }
{
    match writer.write_all(bytes) {
        Ok(()) => {}
        Err(_) => return Err(Failed),
    }
    match writer.flush() {
        Ok(()) => Ok(()),
        Err(_) => Err(Failed),
    }
}

// Whether a plain file can be written as things stand, or the system's reason why not. The file is left as it is.
fn is_writable<R: System>(system: &R, target: &str) -> io::Result<()> {
    let _ = OpenOptions::new().write(true).open(system, target)?;
    Ok(())
}

// Whether a file can be made that is not there, or the system's reason why not. The one that was made is removed; what
// came meanwhile stays.
fn is_makeable<R: System>(system: &R, target: &str) -> io::Result<()> {
    let made = OpenOptions::new()
        .write(true)
        .create_new(true)
        .open(system, target);
    match made {
        Ok(_) => {
            let _ = fs::remove_file(system, target);
            Ok(())
        }
        Err(error) if error.kind() == ErrorKind::AlreadyExists => Ok(()),
        Err(error) => Err(error),
    }
}

// Whether it is told at once that nothing can be written to this name. A folder is opened, which fails; nothing else is,
// since an opening of a pipe waits for its reader.
fn is_no_place<R: System>(system: &R, name: &str) -> io::Result<()> {
    let there = fs::metadata(system, name)?;
    if there.is_dir() {
        return is_writable(system, name);
    }
    Ok(())
}
