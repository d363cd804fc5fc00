// What the program sees to before it reads a word: that the numbers of its standard streams are taken.
use std::fs::{File, OpenOptions};
use std::os::fd::{AsRawFd, IntoRawFd};
use std::rt::Files;

// Reads of it end at once, and writes to it are lost.
const NOTHING: &str = "/dev/null";

/// Opens a file in place of each standard stream that was closed when the program was started, so that no connection
/// and no other file gets its number: what is told on standard error would go to a station. Each is opened so that it
/// can't be used, the input for writing and the others for reading: a session on a closed stream goes on being told as a
/// read or a write that failed. They stay open for the life of the program.
pub fn fill_closed_streams<R: Files<File = File>>(system: &R) {
    // A new file gets the lowest number that is free, and the one after the third stream is none of theirs.
    for _ in 0..4u32 {
        match File::open(system, NOTHING) {
            Ok(file) => match file.as_raw_fd() {
                0 => {
                    drop(file);
                    fill_input(system);
                }
                1 | 2 => {
                    let _ = file.into_raw_fd();
                }
                _ => return,
            },
            Err(_) => return,
        }
    }
}

// Opens a file that is written only in place of the input.
fn fill_input<R: Files<File = File>>(system: &R) {
    match OpenOptions::new().write(true).open(system, NOTHING) {
        Ok(file) => {
            let _ = file.into_raw_fd();
        }
        Err(_) => {}
    }
}
