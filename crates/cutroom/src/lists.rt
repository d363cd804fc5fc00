// What standard error gets of lists with which all is done: one that was read and shows nothing, or is counted otherwise than
// its document, and fades of one that was written which hide a picture.
use crate::cures::tell;
use command_files::open_list;
use command_words::{Command, command_in};
use line_words::Words;
use list_commands::{CutPlace, HidingFades, event_counted_otherwise, hiding_fades};
use room_files::Files;
use std::alloc::Global;
use std::fs;
use std::io::Write;
use std::rt::Files as System;
use timecode12::{Counting, SequenceRate};

// What is told of a list that shows nothing, and of one that has no event.
const NOTHING_SHOWN: &str =
    "cutroom: the list shows nothing: it has no event, or black alone; its lines have to end with line feeds\n";

const NO_EVENT: &str =
    "cutroom: the list has no event, so its document shows nothing; its lines have to end with line feeds\n";

// How many fades are told, each in a line.
const MOST_FADES: usize = 20;

/// Tells that a list that was read shows nothing, or which event of one that was imported is counted otherwise than its
/// document, and which fades of one that was written hide a picture. A list that was imported is read from its file once more,
/// and so are the document and the journal of a cut.
pub fn tell_of_list<R: System, F: Files, W: Write + Drop + Copy>(
    rt: &R,
    alloc: Global,
    files: &mut F,
    words: &Words,
    is_silent: bool,
    to: W,
) {
    let Some(command) = command_in(words) else {
        return;
    };
    match &command {
        Command::PlayList { .. } => {
            if is_silent {
                tell(NOTHING_SHOWN, to);
            }
        }
        Command::Import { name, counting } => {
            if is_plain(rt, name) {
                tell_of_import(alloc, files, name, counting, to);
            }
        }
        Command::ListCut {
            document,
            counting,
            journal,
            point,
        } => {
            if is_plain(rt, document) && is_plain(rt, journal) {
                tell_hiding_fades(alloc, files, document, counting, journal, *point, to);
            }
        }
        _ => {}
    }
}

// Tells that a list that was imported has no event, or which of its events is counted otherwise than its document.
fn tell_of_import<F: Files, W: Write + Drop + Copy>(
    alloc: Global,
    files: &mut F,
    name: &str,
    counting: &Counting,
    to: W,
) {
    if has_no_event(alloc, files, name, counting.rate()) {
        tell(NO_EVENT, to);
    }
    match event_counted_otherwise(alloc, files, name, counting) {
        Some(line) => tell_counting(alloc, name, line, counting.drop_frame(), to),
        None => {}
    }
}

// Tells the line of the first event that is counted otherwise than the document, and which DROP keeps its timecode.
fn tell_counting<W: Write + Drop + Copy>(
    alloc: Global,
    name: &str,
    line: u32,
    is_drop: bool,
    to: W,
) {
    let (how, given, other) = if is_drop {
        ("without", "drop", "ndf")
    } else {
        ("with", "ndf", "drop")
    };
    match format!(in alloc;
        "cutroom: line {line} of {name} counts {how} drop-frame, and DROP is {given}: its frames are kept, and its timecode changes; import it with {other} to keep both\n"
    ) {
        Ok(text) => tell(text.as_str(), to),
        Err(_) => {}
    }
}

// Tells the fades that hide a picture in a cut.
fn tell_hiding_fades<F: Files, W: Write + Drop + Copy>(
    alloc: Global,
    files: &mut F,
    document: &str,
    counting: &Counting,
    journal: &str,
    point: u32,
    to: W,
) {
    let place = CutPlace {
        document,
        counting: *counting,
        journal,
        point,
    };
    match hiding_fades(alloc, files, &place) {
        Some(found) => tell_fades(alloc, counting, &found, to),
        None => {}
    }
}

// Tells each fade that hides a picture, as far as there are not too many.
fn tell_fades<W: Write + Drop + Copy>(
    alloc: Global,
    counting: &Counting,
    found: &HidingFades,
    to: W,
) {
    let fades = found.fades.as_slice();
    for fade in fades.iter().take(MOST_FADES) {
        let from = found.start.saturating_add(fade.from);
        let end = found.start.saturating_add(fade.to);
        tell_fade(alloc, counting, from, end, to);
    }
    let more = fades.len().saturating_sub(MOST_FADES);
    if more > 0 {
        match format!(in alloc; "cutroom: and {more} more\n") {
            Ok(text) => tell(text.as_str(), to),
            Err(_) => {}
        }
    }
}

// Tells a fade over these frames of the day, [first, last), by its record times.
fn tell_fade<W: Write + Drop + Copy>(
    alloc: Global,
    counting: &Counting,
    first: u32,
    last: u32,
    to: W,
) {
    let Some(from) = label_in(alloc, counting, first) else {
        return;
    };
    let Some(end) = label_in(alloc, counting, last) else {
        return;
    };
    match format!(in alloc;
        "cutroom: from {from} up to {end} a fade hides the picture below it\n"
    ) {
        Ok(text) => tell(text.as_str(), to),
        Err(_) => {}
    }
}

// The label of a frame of the day, as a list has it.
fn label_in(alloc: Global, counting: &Counting, frame: u32) -> Option<String> {
    let label = counting.label_of(frame).ok()?;
    let (hours, minutes) = (label.hours, label.minutes);
    let (seconds, frames) = (label.seconds, label.frames);
    format!(in alloc; "{hours:02}:{minutes:02}:{seconds:02}:{frames:02}").ok()
}

// Whether a file can be read again from its beginning.
fn is_plain<R: System>(rt: &R, name: &str) -> bool {
    match fs::metadata(rt, name) {
        Ok(there) => there.is_file(),
        Err(_) => false,
    }
}

// Whether the list in a file can be read and has no event.
fn has_no_event<F: Files>(alloc: Global, files: &mut F, name: &str, rate: SequenceRate) -> bool {
    match open_list(alloc, files, name, rate) {
        Ok(list) => list.as_slice().is_empty(),
        Err(_) => false,
    }
}
