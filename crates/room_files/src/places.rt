// Where the files of the system stand that names lead to.
use std::alloc::Global;
use std::fs::{self, Metadata};
use std::io::{self, ErrorKind};
use std::os::unix::fs::MetadataExt;
use std::path::PathBuf;
use std::rt::Files as System;

// As many links one after the other as Linux follows.
const LINKS: u32 = 40;

// Linux's number of the error of a name that has more.
const TOO_MANY_LINKS: i32 = 40;

/// What a write to a name has to do with.
#[derive(Drop)]
pub(crate) enum Place {
    /// A plain file that is there, by a name that is no link.
    There(PathBuf, Metadata),
    /// No file yet. This name, which is no link, is free.
    Free(PathBuf),
    /// A pipe, a device, a folder, or a name that leads nowhere that a file can be told of.
    Other,
}

/// Where this name leads to as things stand.
pub(crate) fn place_of<R: System>(system: &R, alloc: Global, name: &str) -> Place {
    let there = match fs::metadata(system, name) {
        Ok(there) if there.is_file() => Some(there),
        Ok(_) => return Place::Other,
        Err(error) if error.kind() == ErrorKind::NotFound => None,
        Err(_) => return Place::Other,
    };
    match followed(system, alloc, name) {
        Ok(target) => place_at(system, target, there),
        Err(_) => Place::Other,
    }
}

// What a write to this name, which no link leads on from, has to do with. The links of /proc lead to files that may
// stand under another name or under none, so it is looked whether the file that was found stands there.
fn place_at<R: System>(system: &R, target: PathBuf, there: Option<Metadata>) -> Place {
    match (fs::symlink_metadata(system, &target), there) {
        (Ok(found), Some(there)) if is_one(&found, &there) => Place::There(target, there),
        (Err(error), None) if error.kind() == ErrorKind::NotFound => Place::Free(target),
        _ => Place::Other,
    }
}

/// Whether both names lead to one file that is there, by the file's own number.
pub(crate) fn are_one_file<R: System>(system: &R, first: &str, second: &str) -> bool {
    match (fs::metadata(system, first), fs::metadata(system, second)) {
        (Ok(first), Ok(second)) => is_one(&first, &second),
        _ => false,
    }
}

/// Whether these are told of one file.
pub(crate) fn is_one(first: &Metadata, second: &Metadata) -> bool {
    first.dev() == second.dev() && first.ino() == second.ino()
}

// The name that the links lead to from this one; nothing needs to stand there.
fn followed<R: System>(system: &R, alloc: Global, name: &str) -> io::Result<PathBuf> {
    let mut path = PathBuf::from_str(alloc, name)?;
    for _ in 0..LINKS {
        match fs::symlink_metadata(system, &path) {
            Ok(there) if there.is_symlink() => {
                let link = system.read_link(alloc, path.as_str())?;
                path.set_file_name(link.as_str())?;
            }
            _ => return Ok(path),
        }
    }
    Err(io::Error::from_raw_os_error(TOO_MANY_LINKS))
}
