// A file of the system that is written beside another, and then takes its place.
use crate::places::Place;
use crate::standard_files::write_all;
use crate::{Report, Reported};
use room_ports::Failed;
use std::alloc::Global;
use std::fs::{self, File, Metadata, OpenFile, OpenOptions};
use std::io::{self, ErrorKind, Write};
use std::os::unix::fs::MetadataExt;
use std::path::Path;
use std::rt::Files as System;

// How many names beside a file are tried.
const NAMES: u32 = 100;

/// What came of a write beside a file.
#[derive(Clone, Copy, Debug, PartialEq, Eq)]
pub(crate) enum Beside {
    /// The name leads to the new bytes, all of them.
    Done,
    /// The name leads to what it led to before. The report was told why.
    Failed,
    /// The name leads to what it led to before, and nothing was told: no file can be made there, or none that would
    /// have the old one's owner and rights.
    Unable,
}

/// Puts bytes in place of what a file holds, or makes the file, so that at each moment the name leads to what it led to
/// before or to all of the new bytes: they are written to a file of their own in the same folder, which is given the
/// name once the system has stored them. That file is gone after a failure, but not after a kill. Another name of the
/// same file (a hard link) goes on leading to the old bytes. No clause says any of it.
pub(crate) fn write_beside<R: System, W: Write + Copy>(
    system: &R,
    alloc: Global,
    name: &str,
    target: &str,
    old: Option<&Metadata>,
    bytes: &[u8],
    report: Report<W>,
) -> Beside {
    let Some((temporary, file)) = made_beside(system, alloc, target) else {
        return Beside::Unable;
    };
    let mut file = file;
    let came = match is_as_before(&file, old) {
        Ok(true) => filled(&mut file, name, bytes, report),
        _ => Beside::Unable,
    };
    let came = match came {
        Beside::Done => given_the_name(system, temporary.as_str(), target),
        other => other,
    };
    if came != Beside::Done {
        let _ = fs::remove_file(system, temporary.as_str());
    }
    came
}

// A new file in the folder of this one: its name with `.new` at the end, and a number where that is taken. `None` where
// none can be made there, or each of 100 names is taken.
fn made_beside<R: System>(system: &R, alloc: Global, target: &str) -> Option<(String, R::File)> {
    for number in 0..NAMES {
        let name = match number {
            0 => format!(in alloc; "{target}.new").ok()?,
            _ => format!(in alloc; "{target}.new{number}").ok()?,
        };
        let made = OpenOptions::new()
            .write(true)
            .create_new(true)
            .open(system, name.as_str());
        match made {
            Ok(file) => return Some((name, file)),
            Err(error) if error.kind() == ErrorKind::AlreadyExists => {}
            Err(_) => return None,
        }
    }
    None
}

// Whether the new file belongs to whom the old one belongs to. It is given the old one's rights.
fn is_as_before<F: OpenFile>(file: &F, old: Option<&Metadata>) -> io::Result<bool> {
    match old {
        Some(old) => {
            let made = file.metadata()?;
            file.set_permissions(old.permissions())?;
            Ok(made.uid() == old.uid() && made.gid() == old.gid())
        }
        None => Ok(true),
    }
}

// Writes all bytes, and waits until the system has stored them. Where that fails the report is told.
fn filled<F: Write + OpenFile, W: Write + Copy>(
    file: &mut F,
    name: &str,
    bytes: &[u8],
    report: Report<W>,
) -> Beside {
    match write_all(&mut Reported::new(&mut *file, name, report), bytes) {
        Ok(()) => {}
        Err(Failed) => return Beside::Failed,
    }
    match file.sync_all() {
        Ok(()) => Beside::Done,
        Err(error) => {
            report.unwritten(name, &error);
            Beside::Failed
        }
    }
}

// Gives the new file the old one's name. A file that is mounted by itself keeps its name.
fn given_the_name<R: System>(system: &R, temporary: &str, target: &str) -> Beside {
    match fs::rename(system, temporary, target) {
        Ok(()) => {
            sync_folder(system, target);
            Beside::Done
        }
        Err(_) => Beside::Unable,
    }
}

// Has the system store the names of the folder that a file stands in, where it can: some folders may be written and not
// read, and some systems of files store no folder by itself.
fn sync_folder<R: System>(system: &R, target: &str) {
    let folder = match Path::new(target).parent() {
        Some(folder) => folder,
        None => return,
    };
    let folder = if folder.as_str().is_empty() {
        Path::new(".")
    } else {
        folder
    };
    match File::open(system, folder) {
        Ok(opened) => {
            let _ = opened.sync_all();
        }
        Err(_) => {}
    }
}
