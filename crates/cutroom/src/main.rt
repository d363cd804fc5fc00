//! The program of the cutting room. It hands its arguments, the files of the system, a disk of it, its standard input, its
//! standard output and a hall over TCP to `answer`, which has the main contract, and ends with the status. Files, the disk,
//! streams and the hall tell standard error what failed and why; `main` puts a line more there where the status does not
//! say enough. Before that it sees to its standard streams, and to what a hall needs.
#![tactic(auto)]

mod ahead;
mod answer;
mod crew;
mod cures;
mod errors;
mod halls;
mod lists;
mod memory;
mod numbers;
mod start;
#[cfg(test)]
mod tests;

use ahead::{longest_file, look_ahead};
use answer::OUT_OF_MEMORY;
use command_words::{Command, command_in};
use crew::mustered;
use cures::{tell, tell_refusal};
use errors::Errors;
use halls::{NOT_SEATED, answer_over_tcp};
use line_words::Words;
use lists::tell_of_list;
use memory::keep_freed_memory;
use numbers::nothing_told;
use program_words::{Heard, Message, complaint, hindrance_text, program_arguments};
use room_disks::StdDisk;
use room_files::{Report, Reported, StdFiles};
use room_ports::{StdSink, StdSource, put};
use start::fill_closed_streams;
use std::io::{IsTerminal, Write};
use std::process::ExitCode;
use std::sync::Mutex;

// The statuses of a command that did all, of a file that is refused, and of a cut that has no list.
const DONE: u8 = 0;

const REFUSED: u8 = 4;

const NO_LIST: u8 = 8;

// What somebody at a terminal is told before the first line.
const BY_HAND: &str =
    "cutroom: send lines, such as items 0; Ctrl-D ends and writes the journal, Ctrl-C loses it\n";

// Does what the arguments ask for, and ends with the status.
fn main(rt: HostRuntime) -> ExitCode {
    fill_closed_streams(&rt);
    let alloc = rt.alloc();
    keep_freed_memory(alloc);
    let Ok(words) = program_arguments(&rt, alloc) else {
        return ExitCode::from(OUT_OF_MEMORY);
    };
    let Ok(told) = nothing_told(alloc) else {
        return ExitCode::from(OUT_OF_MEMORY);
    };
    let turn = Mutex::new(());
    let errors = Errors::new(&rt, &turn, rt.stderr());
    let report = Report::new(alloc, errors);
    let mut files = StdFiles::new(&rt, report, longest_file());
    let idle = match look_ahead(&rt, alloc, &files, &words) {
        Ok(idle) => idle,
        Err(why) => {
            tell_message(errors, hindrance_text(why));
            return ExitCode::from(NOT_SEATED);
        }
    };
    let Ok(muster) = mustered(&rt, alloc, &words, errors) else {
        return ExitCode::from(NOT_SEATED);
    };
    let disk = StdDisk::new(alloc, &rt, errors);
    let mut input = StdSource::new(Reported::new(rt.stdin(), "standard input", report));
    let mut output = Heard::new(StdSink::new(Reported::new(
        rt.stdout(),
        "standard output",
        report,
    )));
    if rt.stdin().is_terminal() && reads_lines(&words) {
        tell(BY_HAND, errors);
    }
    let status = answer_over_tcp(
        &rt,
        alloc,
        &words,
        &mut files,
        disk,
        &mut input,
        &mut output,
        errors,
        idle,
        muster.as_ref(),
        &told,
    );
    let names = told.replace(Vec::new(alloc));
    let _ = put(&mut StdSink::new(errors), &names);
    let line = output.beginning.as_slice();
    tell_message(errors, complaint(&words, status));
    match status {
        REFUSED => tell_refusal(alloc, &mut files, &words, line, errors),
        NO_LIST => tell_refusal(alloc, &mut files, &words, line, errors),
        DONE => {
            tell_of_list(&rt, alloc, &mut files, &words, line.is_empty(), errors);
        }
        _ => {}
    }
    ExitCode::from(status)
}

// Whether words ask for a session over standard input.
fn reads_lines(words: &Words) -> bool {
    match command_in(words) {
        Some(Command::Run { .. }) => true,
        Some(Command::RunDocument { .. }) => true,
        _ => false,
    }
}

// Writes a message to a stream, or a front of it.
fn tell_message<W: Write + Drop + Copy>(stream: W, told: Message<'_>) {
    tell(told.before, stream);
    tell(told.word, stream);
    tell(told.after, stream);
    tell(told.usage, stream);
}
