// Which hall the words are answered over.
use crate::answer::answer_words;
use crate::crew::{Muster, answer_with_crew};
use crate::numbers::Told;
use line_words::Words;
use room_disks::Disk;
use room_files::Files;
use room_halls::TcpHall;
use room_ports::{Sink, Source};
use std::alloc::Global;
use std::fs::File;
use std::io::Write;
use std::net::{Net, TcpListener, TcpStream};
use std::rt::{Clock, Files as System};
use std::sync::Wait;
use std::thread::Threads;
use std::time::Duration;

/// The status of a hall that was not opened, or in which a station was not seated.
pub const NOT_SEATED: u8 = 5;

/// Answers words over a hall that tells of itself to this writer: one whose seats belong to this crew, or one where who
/// comes first sits down first. It answers the status that the program ends with.
pub fn answer_over_tcp<
    R: Threads
        + Wait
        + Sync
        + Clock
        + System<File = File>
        + Net<Listener = TcpListener, Stream = TcpStream>,
    F: Files,
    D: Disk + Drop + Send,
    S: Source,
    K: Sink,
    W: Write + Copy + Send,
>(
    rt: &R,
    alloc: Global,
    words: &Words,
    files: &mut F,
    disk: D,
    input: &mut S,
    output: &mut K,
    to: W,
    idle: Option<Duration>,
    muster: Option<&Muster<'_>>,
    told: &Told,
) -> u8 {
    match muster {
        Some(muster) => {
            let ended = answer_with_crew(
                rt, alloc, words, files, disk, input, output, to, idle, muster, told,
            );
            ended.unwrap_or(NOT_SEATED)
        }
        None => {
            let mut hall = TcpHall::new(alloc, rt, to, idle);
            let (status, _) = answer_words(
                rt, alloc, words, files, disk, input, output, &mut hall, told,
            );
            status
        }
    }
}
