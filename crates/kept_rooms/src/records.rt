// A record of a kept file as an entry.
ghost use Rattle.std.specs.Prelude.{◌≡◌, ◌<◌, IfErr, IfOk, MatchOption};
ghost use Rattle.kept_rooms.specs.Records.{IsNext, IsNotNext, IsRefusedFor, IsTakenAs, last_in};

use crate::{Lasts, RecordCode, RecordFault};
use edit_calls::Call;
use journal_text::{Entry, EntryFault, read_entry};
use std::alloc::Global;
use take_back::Step;

/// The greatest number that an entry may have when a room goes on from it, so that its station has
/// numbers left.
pub const LAST_NUMBER: u32 = 4_000_000_000;

// Why an entry may not come next in a room of so many stations, after those with these last
// numbers.
fn out_of_place(entry: &Entry<Step<Call>>, stations: u32, lasts: &Lasts) -> Option<RecordCode>
    requires { entry.now.station < 16 }
    ensures { MatchOption result (IsNext stations (last_in lasts.now entry.now.station) entry.now)
        (λ code. IsNotNext stations (last_in lasts.now entry.now.station) entry.now code) }
{
    if entry.number <= lasts.of(entry.station) {
        Some(RecordCode::H4)
    } else if entry.station >= stations {
        Some(RecordCode::H6)
    } else if entry.number > LAST_NUMBER {
        Some(RecordCode::H7)
    } else {
        None
    }
}

/// The entry whose line a record is, where it may come next in a room of so many stations, after
/// entries with these last numbers.
pub fn record_entry(
    alloc: Global,
    line: &[u8],
    stations: u32,
    lasts: &Lasts,
) -> Result<Entry<Step<Call>>, RecordFault>
    ensures taken { IfOk result
        (λ entry. IsTakenAs stations (λ s. last_in lasts.now s) line.now entry) }
    ensures refused { IfErr result
        (λ fault. IsRefusedFor stations (λ s. last_in lasts.now s) line.now fault) }
{
    let entry = match read_entry(alloc, line) {
        Ok(entry) => entry,
        Err(EntryFault::H1) => return Err(RecordFault::Refused(RecordCode::H1)),
        Err(EntryFault::Memory) => return Err(RecordFault::Memory),
    };
    match out_of_place(&entry, stations, lasts) {
        Some(code) => Err(RecordFault::Refused(code)),
        None => Ok(entry),
    }
}
