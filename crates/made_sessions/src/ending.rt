// How the command that makes a session ends.
ghost use Rattle.std.specs.Prelude.{◌≡◌, ◌<◌, ◌≤◌, IfOk, length, ◌*◌};
ghost use Rattle.command_files.specs.Ports.{change, output_told};
ghost use Rattle.otio_json.specs.Soundness.{IsSoundOpening};
ghost use Rattle.made_sessions.specs.Comparing.{HaveScripts};
ghost use Rattle.made_sessions.specs.Sessions.{IsCome, MakeEnds, made_opening, made_stations};

use crate::bare::bare_entries;
use crate::comparing::have_scripts;
use crate::summaries::summary;
use command_files::{Status, end_with};
use composables::{Memory, Track};
use cut_steps::CutCall;
use edit_apply::{Call, Editor};
use history_points::replay;
use otio_json::Opening;
use room_core::Entry;
use room_ports::Sink;
use std::alloc::Global;

/// How many stations a generated session has, and how many tracks, of which each station edits one.
pub const TRACKS: u32 = 4;

/// How the room of a generated session begins: four empty tracks and one reel.
pub fn made_opening(alloc: Global) -> Result<Opening, Memory>
    ensures opening { IfOk result (λ opening. opening ≡ made_opening) }
    ensures sound { IfOk result IsSoundOpening }
{
    Opening::plain(alloc, TRACKS, 1)
}

// Puts the summary of so many entries that come to these tracks.
fn put_tracks<K: Sink>(
    alloc: Global,
    entries: u32,
    number: u32,
    count: u32,
    tracks: &[Track],
    output: &mut K,
) -> Status
    requires entries { entries ≡ made_stations * count }
    requires come { IsCome made_opening number count tracks.now }
    ensures { MakeEnds number count
        (change (output_told K.taken K.write_faults) output.old output.new) result }
{
    match summary(alloc, entries, tracks) {
        Ok(text) => end_with(Status::Done, &text, output),
        Err(_) => Status::OutOfMemory,
    }
}

// Puts the summary of what the entries of a session come to.
fn put_replayed<K: Sink>(
    alloc: Global,
    entries: &[Entry<Call>],
    number: u32,
    count: u32,
    output: &mut K,
) -> Status
    requires scripts { HaveScripts number count made_stations entries.now }
    requires all { length entries.now ≡ made_stations * count }
    requires most { length entries.now ≤ 100000 }
    ensures { MakeEnds number count
        (change (output_told K.taken K.write_faults) output.old output.new) result }
{
    let Opening { table, tracks, .. } = match made_opening(alloc) {
        Ok(opening) => opening,
        Err(_) => return Status::OutOfMemory,
    };
    let length = entries.len() as u32;
    match replay(alloc, &Editor { table }, tracks.as_slice(), entries, length) {
        Ok(tracks) => put_tracks(alloc, length, number, count, &tracks, output),
        Err(_) => Status::OutOfMemory,
    }
}

/// Puts the summary of a session, from what the replay of the journal of its closed room comes to. Where the journal has
/// not the entries of all lines, a line was answered that there is no memory, and nothing is put.
pub fn put_summary<K: Sink>(
    alloc: Global,
    entries: Vec<Entry<CutCall>>,
    number: u32,
    count: u32,
    output: &mut K,
) -> Status
    requires { count ≤ 20000 }
    ensures { MakeEnds number count
        (change (output_told K.taken K.write_faults) output.old output.new) result }
{
    let entries = match bare_entries(alloc, entries) {
        Some(entries) => entries,
        None => return Status::OutOfMemory,
    };
    if entries.len() == (TRACKS * count) as usize && have_scripts(&entries, number, count, TRACKS) {
        put_replayed(alloc, &entries, number, count, output)
    } else {
        Status::OutOfMemory
    }
}
