// What was recorded of each station, as lines and replies.
ghost use Rattle.std.specs.Prelude.{◌≡◌, ◌<◌, IfOk, length, min};
ghost use Rattle.audit_command.specs.Stations.{AreSigned, IsRowOf, recording_in, recording_told};

use crate::records::{RecordTexts, Station};
use cut_steps::CutCall;
use out_of_memory::Memory;
use recorded_sessions::{lines_of, replies_of};
use reply_audits::RecordedReply;
use room_core::Entry;
use std::alloc::{AllocError, Global};

// Whether no entry of a station bears each of the numbers from 1 to a count.
fn free_numbers(
    alloc: Global,
    entries: &[Entry<CutCall>],
    station: u32,
    count: usize,
) -> Result<Vec<bool>, AllocError>
    ensures count { IfOk result (λ signs. length signs.items ≡ count) }
    ensures signs { IfOk result (λ signs. AreSigned entries.now station signs.items) }
{
    let mut signs = vec![in alloc; true; count]?;
    for entry in entries {
        let number = entry.number as usize;
        if entry.station == station && 0 < number && number <= signs.len() {
            signs[number - 1] = false;
        }
    }
    Ok(signs)
}

/// What was recorded of a station in these texts, beside a journal.
pub(crate) fn station_in<'a>(
    alloc: Global,
    entries: &[Entry<CutCall>],
    station: u32,
    texts: &'a RecordTexts,
) -> Result<Station<'a>, Memory>
    ensures station { IfOk result (λ s. s.station ≡ station) }
    ensures recording { IfOk result (λ s. recording_in s ≡ recording_told texts.now) }
    ensures signs { IfOk result (λ s. AreSigned entries.now s.station s.has_no_entry.items) }
{
    let lines = lines_of(alloc, &texts.sent)?;
    let replies = replies_of(alloc, &texts.got)?;
    let has_no_entry = free_numbers(alloc, entries, station, lines.len().min(replies.len()))?;
    Ok(Station {
        station,
        lines,
        replies,
        is_cut: texts.is_cut,
        has_no_entry,
    })
}

impl<'a> Station<'a> {
    /// How many lines have a reply.
    pub(crate) fn pairs(&self) -> usize
        ensures { result ≡ min (length self.now.lines.items) (length self.now.replies.items) }
    {
        self.lines.len().min(self.replies.len())
    }

    /// The reply to a line, by how many lines stand before it.
    pub(crate) fn reply_at(&self, index: usize) -> RecordedReply<'a>
        requires { index < min (length self.now.lines.items) (length self.now.replies.items) }
        ensures { IsRowOf self.now index result }
    {
        RecordedReply {
            station: self.station,
            number: index as u32 + 1,
            line: self.lines[index],
            reply: self.replies[index],
            has_no_entry: self.has_no_entry[index],
        }
    }
}
