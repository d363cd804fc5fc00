// What a hall needs is looked at before anybody works for it.
use command_words::{Command, command_in};
use line_words::Words;
use program_words::Hindrance;
use room_files::StdFiles;
use std::alloc::Global;
use std::env::FillError;
use std::io::Write;
use std::rt::{Env, Files};
use std::sync::{Barrier, Mutex, Wait};
use std::thread::{self, Threads};
use std::time::Duration;

// The variable by which an operator has silent stations cut off.
const IDLE_SECONDS: &str = "CUTROOM_IDLE_SECONDS";

// A little more than 11 days.
const MOST_SECONDS: u32 = 1_000_000;

// Linux's number of the limit of the bytes that the process may give a file.
const FILE_SIZE: i32 = 1;

/// The most bytes that the process may give a file. The system ends a process that writes past them by a signal, which
/// this one can't have ignored.
pub fn longest_file() -> u64 {
    let mut limit = libc::types::rlimit {
        rlim_cur: u64::MAX,
        rlim_max: u64::MAX,
    };
    match libc::getrlimit(FILE_SIZE, &mut limit) {
        0 => limit.rlim_cur,
        _ => u64::MAX,
    }
}

/// Looks at what a hall needs that these words ask for: a journal that is not the document, which is refused before
/// either is opened; threads; and a journal that can be written at the end, of which only standard error is told. A
/// journal that is kept as it grows is not looked at: nothing is made of it ahead. It answers after how long a silent
/// station is to be cut off, and nothing where no hall is asked for.
pub fn look_ahead<'a, R: Env + Files + Threads + Wait + Sync, W: Write + Copy>(
    rt: &R,
    alloc: Global,
    files: &StdFiles<'_, R, W>,
    words: &'a Words,
) -> Result<Option<Duration>, Hindrance<'a>> {
    match command_in(words) {
        Some(
            Command::Serve {
                document,
                stations,
                journal,
                ..
            },
        ) => {
            let idle = look_at_hall(rt, alloc, files, document, stations, journal)?;
            files.look(journal);
            Ok(idle)
        }
        Some(
            Command::Store {
                document,
                stations,
                journal,
                ..
            },
        ) => look_at_hall(rt, alloc, files, document, stations, journal),
        _ => Ok(None),
    }
}

// Looks at the names of a hall's files and at its threads, and answers after how long a silent station is to be cut off.
fn look_at_hall<'a, R: Env + Files + Threads + Wait + Sync, W: Write + Copy>(
    rt: &R,
    alloc: Global,
    files: &StdFiles<'_, R, W>,
    document: &str,
    stations: u32,
    journal: &'a str,
) -> Result<Option<Duration>, Hindrance<'a>> {
    if files.are_one(document, journal) {
        return Err(Hindrance::OneFile(journal));
    }
    let idle = idle_time(rt)?;
    if !gives_threads(rt, alloc, stations) {
        return Err(Hindrance::FewThreads);
    }
    Ok(idle)
}

// How long a station may be silent, where the variable says it. It takes no memory.
fn idle_time<'a, R: Env>(rt: &R) -> Result<Option<Duration>, Hindrance<'a>> {
    let mut buffer = [0u8; 16];
    match rt.var(IDLE_SECONDS, &mut buffer) {
        Ok(len) => match seconds_in(buffer.get(..len)) {
            Some(seconds) => Ok(Some(Duration::from_secs(u64::from(seconds)))),
            None => Err(Hindrance::NoTime),
        },
        Err(FillError::NotPresent) => Ok(None),
        Err(FillError::TooLong) => Err(Hindrance::NoTime),
    }
}

// The number of seconds that this text says, where it is one that is allowed.
fn seconds_in(text: Option<&[u8]>) -> Option<u32> {
    let seconds = str::from_utf8(text?).ok()?.parse::<u32>().ok()?;
    if 1 <= seconds && seconds <= MOST_SECONDS {
        Some(seconds)
    } else {
        None
    }
}

// Whether the system gives a thread for each station but one, whose session the first thread holds. Where it gives none
// a session waits until another has ended, and nobody is told. This is a probe: the threads are all there at once, each
// with a block of memory, and are gone before the hall is opened; what the system gives then it may have given to others.
fn gives_threads<R: Threads + Wait + Sync>(rt: &R, alloc: Global, stations: u32) -> bool {
    let turn = Mutex::new(());
    let here = Barrier::new(2);
    let (turn, here) = (&turn, &here);
    thread::scope(thread::scope_env(), rt, |scope| {
        let all_wait = turn.lock(rt);
        let mut are_given = true;
        for _ in 1..stations {
            if are_given {
                match scope.spawn(move || take_a_turn(rt, alloc, turn, here)) {
                    Ok(_) => {
                        here.wait(rt);
                    }
                    Err(_) => are_given = false,
                }
            }
        }
        drop(all_wait);
        are_given
    })
}

// Says that it is here once it has a block of memory, and waits for its turn.
fn take_a_turn<R: Wait>(rt: &R, alloc: Global, turn: &Mutex<()>, here: &Barrier) {
    let block = Vec::<u8>::with_capacity(alloc, 1);
    here.wait(rt);
    drop(turn.lock(rt));
    drop(block);
}
