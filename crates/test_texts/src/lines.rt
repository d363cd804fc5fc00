// Texts of lines and journals.

mod calls;
mod journals;
mod reading;

use call_text::{Line, call_text, fault_text, read_line};
use edit_apply::Ask;
use reply_text::{Memory, put, put_number};
use std::alloc::Global;
use timecode12::{Counting, SequenceRate};

// 24 frames a second.
pub(crate) fn film() -> Option<Counting> {
    Counting::new(SequenceRate::F24, false)
}

// What a line says: the text of its edit, its question with its numbers, or the reply to its fault.
pub(crate) fn told(
    alloc: Global,
    line: &[u8],
    counting: &Counting,
    start: u32,
) -> Result<Vec<u8>, Memory> {
    let mut said = Vec::new(alloc);
    match read_line(alloc, line, counting, start) {
        Ok(Line::Edit(step)) => return call_text(alloc, &step),
        Ok(Line::Ask(ask)) => put_ask(&mut said, ask)?,
        Ok(Line::Point) => put(&mut said, b"point")?,
        Ok(Line::Otio(point)) => put_number(&mut said, b"otio ", point)?,
        Ok(Line::News(place)) => put_number(&mut said, b"news ", place)?,
        Err(fault) => put(&mut said, fault_text(&fault).as_bytes())?,
    }
    Ok(said)
}

// Adds a question as a line asks it.
fn put_ask(said: &mut Vec<u8>, ask: Ask) -> Result<(), Memory> {
    match ask {
        Ask::View { track, a, b } => {
            put_number(said, b"view ", track)?;
            put_number(said, b" ", a)?;
            put_number(said, b" ", b)
        }
        Ask::Items { track } => put_number(said, b"items ", track),
    }
}
