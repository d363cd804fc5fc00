// What a line says, and whether it may find no memory.
ghost use Rattle.std.specs.Prelude.{◌≡◌, ◌||◌, IfOk};
ghost use Rattle.protocol_parts.specs.declared.line_fault.LineFault.TheVariants.{Memory as NoMemory};
ghost use Rattle.recorded_sessions.specs.Places.{Says};
ghost use Rattle.recorded_sessions.specs.Recordings.{line_seen};
ghost use Rattle.reply_audits.specs.Judging.{setting_in};
ghost use Rattle.station_sessions.specs.Rooms.{finds_memory, is_linking, meaning_of, wish_in};

use crate::judging::RecordedRoom;
use cut_steps::CutObject;
use line_table::{Line, LineFault, first_word, read_line};
use out_of_memory::Memory;
use room_core::PartObject;
use std::alloc::Global;

// Whether there was no memory to read a line.
fn is_unread(read: &Result<Line, LineFault>) -> bool
    ensures { Says result (read.now ≡ Err NoMemory) }
{
    match read {
        Err(LineFault::Memory) => true,
        _ => false,
    }
}

/// What a line says, or its fault. One that is `None` was too long.
pub(crate) fn meaning_of(
    alloc: Global,
    room: &RecordedRoom,
    line: Option<&[u8]>,
) -> Result<Result<Line, LineFault>, Memory>
    ensures { IfOk result (λ read. read ≡ meaning_of (setting_in room.now) (line_seen line.entry)) }
{
    let text = match line {
        Some(text) => text,
        None => return Ok(Err(LineFault::B5)),
    };
    let read = read_line(alloc, text, &room.counting, room.start);
    if is_unread(&read) {
        return Err(Memory);
    }
    Ok(read)
}

// Whether the first word of a line is `link`.
fn is_linking(line: Option<&[u8]>) -> bool
    ensures { result ≡ is_linking (line_seen line.entry) }
{
    match line {
        Some(text) => match first_word(text) {
            Ok((word, _)) => word == b"link".as_slice(),
            Err(_) => false,
        },
        None => false,
    }
}

// Whether what a line asks for may find no memory.
fn finds_memory(object: &CutObject, read: &Result<Line, LineFault>) -> bool
    ensures { result ≡ finds_memory object.now.object.table (wish_in 0 read.now) }
{
    match read {
        Ok(line) => match line {
            Line::Edit(step) => object.refuse_names(step).is_none(),
            Line::Ask(_) => true,
            Line::Point => false,
            Line::Otio(_) => true,
            Line::News(_) => true,
        },
        Err(_) => false,
    }
}

/// Whether a line that says this may find no memory.
pub(crate) fn takes_memory(
    object: &CutObject,
    line: Option<&[u8]>,
    read: &Result<Line, LineFault>,
) -> bool
    ensures { result ≡ (finds_memory object.now.object.table (wish_in 0 read.now)
        || is_linking (line_seen line.entry)) }
{
    finds_memory(object, read) || is_linking(line)
}
