// A journal as text.
ghost use Rattle.std.specs.Prelude.{◌≡◌, ◌+◌, ◌*◌, ◌≤◌, ◌++◌, IfOk, length, vec_len, vec_capacity};
ghost use Rattle.line_table.specs.CallTexts.{linked_in};
ghost use Rattle.journal_text.specs.Journals.{count_line, entry_line, entry_text, journal_text_of, HasRoomForText, HasText};

use crate::Entry;
use composables::Memory;
use edit_calls::Call;
use edit_journal::MOST_ENTRIES;
use itoa::Buffer;
use line_table::reserved::{put, put_number};
use line_table::{put_step, room_for};
use std::alloc::Global;
use take_back::Step;

/// The most bytes of the line with the count of a journal's entries.
const MAX_COUNT_LINE: usize = 29;

/// The most bytes of an entry's line, with its line feed.
pub const MAX_ENTRY_LINE: usize = 480;

/// The most bytes of the text of a journal that can be written.
pub const MAX_JOURNAL_TEXT: usize = MAX_COUNT_LINE + MOST_ENTRIES as usize * MAX_ENTRY_LINE;

/// The text of a journal: a line with the count of its entries, and a line for each entry, in order. Each line ends with
/// a line feed.
pub fn journal_text(alloc: Global, entries: &[Entry<Step<Call>>]) -> Result<Vec<u8>, Memory>
    ensures { IfOk result (λ text. text.items ≡ journal_text_of entries.now) }
{
    let mut out = Vec::with_capacity(alloc, MAX_COUNT_LINE)?;
    put_count(&mut out, entries.len());
    for entry in entries {
        out.reserve(room_for(&entry.call)?)?;
        put_entry_text(&mut out, entry);
        out.push(b'\n')?;
    }
    Ok(out)
}

/// Memory for the text of any journal that can be written, to be taken before there are entries.
pub fn journal_room(alloc: Global) -> Result<Vec<u8>, Memory>
    ensures { IfOk result HasRoomForText }
{
    Ok(Vec::with_capacity(alloc, MAX_JOURNAL_TEXT)?)
}

/// Puts the text of a journal into memory that was taken for it. It takes no more, so it can't fail.
pub fn journal_text_into(out: &mut Vec<u8>, entries: &[Entry<Step<Call>>])
    requires text { HasText entries.now }
    requires room { HasRoomForText out.old }
    ensures { out.new.items ≡ journal_text_of entries.now }
{
    put_count(out, entries.len());
    for entry in entries {
        put_entry_text(out, entry);
        put(out, b"\n");
    }
}

/// The text of an entry: its line in a journal's text, without the line feed.
pub fn entry_text(alloc: Global, entry: &Entry<Step<Call>>) -> Result<Vec<u8>, Memory>
    ensures { IfOk result (λ text. text.items ≡ entry_text entry.now) }
{
    let mut out = Vec::with_capacity(alloc, room_for(&entry.call)?)?;
    put_entry_text(&mut out, entry);
    Ok(out)
}

// Adds the first line of a journal's text, with the count of its entries.
fn put_count(out: &mut Vec<u8>, count: usize)
    requires { vec_len out.old + MAX_COUNT_LINE ≤ vec_capacity out.old }
    ensures text { out.new.items ≡ out.old.items ++ count_line count }
    ensures len { vec_len out.new ≤ vec_len out.old + MAX_COUNT_LINE }
    ensures room { vec_capacity out.old ≤ vec_capacity out.new }
{
    put(out, b"journal ");
    let mut buffer = Buffer::new();
    put(out, buffer.format(count).as_bytes());
    put(out, b"\n")
}

// Adds the line of an entry, without its line feed, within memory that is there.
pub(crate) fn put_entry_text(out: &mut Vec<u8>, entry: &Entry<Step<Call>>)
    requires room { vec_len out.old + 192 ≤ vec_capacity out.old }
    requires items { vec_len out.old + 124 + 11 * linked_in entry.now.call ≤ vec_capacity out.old }
    ensures text { out.new.items ≡ out.old.items ++ entry_text entry.now }
    ensures room { vec_capacity out.old ≤ vec_capacity out.new }
{
    put_number(out, b"", entry.station);
    put_number(out, b" ", entry.number);
    put(out, b" ");
    put_step(out, &entry.call)
}
