// What standard error gets of a refusal: where it is, what its code means, and what to do.
use code_texts::code_text;
use command_files::open_document;
use command_words::{Command, command_in, records_of};
use line_words::{Words, number};
use room_files::Files;
use room_ports::{StdSink, put};
use std::alloc::Global;
use std::io::Write;

// The most bytes of a file whose lines are counted.
const MOST_BYTES: u32 = 33_554_432;

/// Tells what a refusal means whose line was put on standard output. A file that has its place is read once more.
pub fn tell_refusal<F: Files, W: Write + Drop + Copy>(
    alloc: Global,
    files: &mut F,
    words: &Words,
    line: &[u8],
    to: W,
) {
    match refusal_in(line) {
        Some((code, number, rest)) => {
            tell_place(alloc, files, words, code, number, to);
            tell_record(alloc, words, code, number, rest, to);
            match code_text(code) {
                Some(text) => tell(text, to),
                None => {}
            }
        }
        None => {}
    }
}

// The code of a refusal, the number after it, and what stands after that, of its line.
fn refusal_in(line: &[u8]) -> Option<(&str, u32, &[u8])> {
    let text = str::from_utf8(line).ok()?;
    let (_, told) = text.split_once("refused ")?;
    let (code, rest) = told.split_once(' ')?;
    let (number, after) = number_before(rest.as_bytes())?;
    Some((code, number, after))
}

// The number that a text begins with, and what stands after it.
fn number_before(text: &[u8]) -> Option<(u32, &[u8])> {
    let end = text.iter().position(|byte| !byte.is_ascii_digit())?;
    let number = number(text.get(..end)?).ok()?;
    Some((number, text.get(end..)?))
}

// Where a refusal is, in words, where its number says it: a byte or a line of a file, or a reel.
fn tell_place<F: Files, W: Write + Drop + Copy>(
    alloc: Global,
    files: &mut F,
    words: &Words,
    code: &str,
    number: u32,
    to: W,
) {
    let Some(command) = command_in(words) else {
        return;
    };
    match kind_of(code) {
        Kind::Document => {
            if let Some(name) = document_of(&command) {
                tell_byte(alloc, files, name, number, to);
            }
        }
        Kind::ListLine => {
            if let Some(name) = list_of(&command) {
                tell_line(alloc, name, number, to);
            }
        }
        Kind::JournalLine => {
            if let Some(name) = journal_of(&command) {
                tell_line(alloc, name, number, to);
            }
        }
        Kind::Reel => tell_reel(alloc, files, &command, number, to),
        Kind::Other => {}
    }
}

// What the number after a code is.
#[derive(Clone, Copy, Debug, PartialEq, Eq)]
enum Kind {
    Document,
    ListLine,
    JournalLine,
    Reel,
    Other,
}

fn kind_of(code: &str) -> Kind {
    match code {
        "J5" => Kind::Other,
        "I1" => Kind::ListLine,
        "I2" => Kind::ListLine,
        "H1" => Kind::JournalLine,
        "H4" => Kind::JournalLine,
        "L4" => Kind::Reel,
        _ => match code.as_bytes() {
            [b'J', ..] => Kind::Document,
            [b'O', ..] => Kind::Document,
            [b'P', ..] => Kind::ListLine,
            _ => Kind::Other,
        },
    }
}

// The document that a command names.
fn document_of<'a>(command: &Command<'a>) -> Option<&'a str> {
    match command {
        Command::RunDocument { document, .. } => Some(*document),
        Command::Serve { document, .. } => Some(*document),
        Command::Store { document, .. } => Some(*document),
        Command::ListCut { document, .. } => Some(*document),
        Command::Follow { document, .. } => Some(*document),
        Command::Audit { document, .. } => Some(*document),
        _ => None,
    }
}

// The list that a command reads.
fn list_of<'a>(command: &Command<'a>) -> Option<&'a str> {
    match command {
        Command::PlayList { name, .. } => Some(*name),
        Command::Import { name, .. } => Some(*name),
        _ => None,
    }
}

// The journal that a command reads.
fn journal_of<'a>(command: &Command<'a>) -> Option<&'a str> {
    match command {
        Command::ListCut { journal, .. } => Some(*journal),
        Command::Audit { journal, .. } => Some(*journal),
        _ => None,
    }
}

// Tells the line and the column of a byte of a file, both counted from 1.
fn tell_byte<F: Files, W: Write + Drop + Copy>(
    alloc: Global,
    files: &mut F,
    name: &str,
    at: u32,
    to: W,
) {
    let bytes = match files.read_file(alloc, name, MOST_BYTES) {
        Ok(bytes) => bytes,
        Err(_) => return,
    };
    let (mut line, mut column) = (1u32, 1u32);
    for byte in bytes.as_slice().iter().take(at as usize) {
        if *byte == b'\n' {
            line = line.wrapping_add(1);
            column = 1;
        } else {
            column = column.wrapping_add(1);
        }
    }
    match format!(in alloc; "cutroom: line {line}, column {column} of {name}\n") {
        Ok(text) => tell(text.as_str(), to),
        Err(_) => {}
    }
}

// Tells the line of a file; 0 is none.
fn tell_line<W: Write + Drop + Copy>(alloc: Global, name: &str, line: u32, to: W) {
    if line == 0 {
        return;
    }
    match format!(in alloc; "cutroom: line {line} of {name}\n") {
        Ok(text) => tell(text.as_str(), to),
        Err(_) => {}
    }
}

// Tells which line of which file the reply is, where recorded sessions are refused for it: after the code stand its station
// and its line.
fn tell_record<W: Write + Drop + Copy>(
    alloc: Global,
    words: &Words,
    code: &str,
    station: u32,
    rest: &[u8],
    to: W,
) {
    if !matches!(code, "A1" | "A2" | "A3") {
        return;
    }
    let Some((line, _)) = rest.strip_prefix(b" ").and_then(number_before) else {
        return;
    };
    let Some(Command::Audit { words, .. }) = command_in(words) else {
        return;
    };
    match records_of(words).as_slice().get(station as usize) {
        Some(record) => tell_line(alloc, record.replies, line, to),
        None => {}
    }
}

// Tells what the document of a command calls a reel.
fn tell_reel<F: Files, W: Write + Drop + Copy>(
    alloc: Global,
    files: &mut F,
    command: &Command<'_>,
    reel: u32,
    to: W,
) {
    let Command::ListCut {
        document,
        counting,
        ..
    } = command
    else {
        return;
    };
    let opening = match open_document(alloc, files, document, counting) {
        Ok(opening) => opening,
        Err(_) => return,
    };
    let name = match opening.table.reels.name(reel) {
        Some(name) => name,
        None => return,
    };
    match format!(in alloc; "cutroom: reel {reel} of {document} is {name}\n") {
        Ok(text) => tell(text.as_str(), to),
        Err(_) => {}
    }
}

/// Writes a text to a stream, or a front of it.
pub fn tell<W: Write + Drop>(text: &str, to: W) {
    let mut errors = StdSink::new(to);
    let _ = put(&mut errors, text.as_bytes());
}
