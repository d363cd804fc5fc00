// Texts of the recorded session by their rows, and its audit.
use crate::calling::{Record, says_so, with_journal};
use crate::recorded::{ENTRIES, LINES, REPLIES};
use recorded_sessions::replies_of;
use std::alloc::Global;
use std::test::Fail;

/// The rows of a text.
pub(crate) fn rows_of(alloc: Global, text: &'static str) -> Result<Vec<&'static [u8]>, Fail> {
    match replies_of(alloc, text.as_bytes()) {
        Ok(rows) => Ok(rows),
        Err(_) => Err(Fail::from("there is memory")),
    }
}

/// Adds a row with its line feed.
pub(crate) fn push_row(text: &mut Vec<u8>, row: &[u8]) -> Result<(), Fail> {
    text.extend_from_slice(row)?;
    text.push(b'\n')?;
    Ok(())
}

/// The text of a journal with this count of entries.
pub(crate) fn journal_of(alloc: Global, count: usize, entries: &[u8]) -> Result<Vec<u8>, Fail> {
    let head = format!(in alloc; "journal {count}\n")?;
    let mut text = Vec::new(alloc);
    text.extend_from_slice(head.as_bytes())?;
    text.extend_from_slice(entries)?;
    Ok(text)
}

/// The journal of the session as it was recorded.
pub(crate) fn journal(alloc: Global) -> Result<Vec<u8>, Fail> {
    let entries = rows_of(alloc, ENTRIES)?;
    journal_of(alloc, entries.len(), ENTRIES.as_bytes())
}

/// What was recorded of a station of the session; nothing where there is none.
pub(crate) fn recorded_of(station: usize) -> Record<'static> {
    Record {
        sent: LINES.get(station).unwrap_or(&"").as_bytes(),
        got: REPLIES.get(station).unwrap_or(&"").as_bytes(),
        is_cut: false,
    }
}

/// Whether the audit of the session says this, with this journal, and with another record of a station.
pub(crate) fn session_says(
    alloc: Global,
    journal: &[u8],
    station: usize,
    other: &Record<'_>,
    told: &str,
) -> Result<bool, Fail> {
    let mut records = Vec::new(alloc);
    for at in 0..4 {
        records.push(if at == station {
            *other
        } else {
            recorded_of(at)
        })?;
    }
    says_so(alloc, &with_journal(journal), &records, told)
}
