// A whole timeline.
ghost use Rattle.std.specs.Prelude.{◌≡◌, ◌+◌, ◌*◌, ◌<◌, ◌≤◌, ◌^◌, [], length, map, IfOk, IfSome, OnOk};
ghost use Rattle.timecode12.specs.Numbers.{Counted};
ghost use Rattle.json_tree.specs.Size.{tree_size, items_size};
ghost use Rattle.json_tree.specs.View.{tree_of};
ghost use Rattle.otio_tracks.specs.Reading.{Reads, Gives};
ghost use Rattle.otio_tracks.specs.Times.{rate_pair};
ghost use Rattle.otio_tracks.specs.Clips.{entries, empty_table};
ghost use Rattle.otio_tracks.specs.ReelTexts.{AreTexts};
ghost use Rattle.otio_json.specs.Soundness.{IsSoundOpening};
ghost use Rattle.otio_json.specs.Timelines.{rate_counted, start_read, untrimmed, kind_read, nesting_of, head_of_track, next_track, tracks_read, sequence_read, timeline_read, tree_read, doc_fault, document_read};

use crate::nests::{Nesting, track};
use crate::opening::Opening;
use composables::{Kind, Listed, Table, Track};
use json_tree::{Json, JsonFault, read};
use otio_tracks::{
    DocCode, DocFault, Entries, Fault, enabled, expect, fault_at, frame, given, list, needed, text,
};
use ratio_time::Rate;
use std::alloc::Global;
use timecode12::Counting;

/// The most tracks of a room.
pub const MAX_TRACKS: u32 = 32;

/// The most nests that stand in one another.
pub const MAX_NESTS: u32 = 8;

// The frame of the day at which the sequence starts: 0 where none is told, O11 where it is not in the day.
#[tactic(auto, unfolding(crate::specs::Timelines::start_read))]
fn start(counting: &Counting, rate: &Rate, timeline: &Json) -> Result<u32, Fault>
    ensures { result ≡ start_read counting.now (rate_pair rate.now) (tree_of timeline.now) }
{
    let time = match given(timeline, "global_start_time") {
        Some(time) => time,
        None => return Ok(0),
    };
    let start = frame(rate, time)?;
    if start < 0 || start >= i64::from(counting.day()) {
        return Err(fault_at(DocCode::O11, time));
    }
    Ok(start as u32)
}

// Refuses a stack or track that is trimmed, as O16.
#[tactic(auto, unfolding(crate::specs::Timelines::untrimmed))]
fn untrimmed(json: &Json) -> Result<(), Fault>
    ensures { Reads (λ _. tt) result (untrimmed (tree_of json.now)) }
{
    match given(json, "source_range") {
        Some(range) => Err(fault_at(DocCode::O16, range)),
        None => Ok(()),
    }
}

// The kind of a track: `Video` or `Audio`, O3 for any other, and O2 where none is told.
#[tactic(auto, unfolding(crate::specs::Timelines::kind_read))]
fn kind(json: &Json) -> Result<Kind, Fault>
    ensures { result ≡ kind_read (tree_of json.now) }
{
    let kind = needed(json, "kind")?;
    match text(kind)? {
        "Video" => Ok(Kind::Video),
        "Audio" => Ok(Kind::Audio),
        _ => Err(fault_at(DocCode::O3, kind)),
    }
}

// Where nests may stand in a track of this kind.
fn nesting_of(kind: Kind) -> Nesting
    ensures { result ≡ nesting_of kind }
{
    match kind {
        Kind::Video => Nesting::Levels(MAX_NESTS),
        Kind::Audio => Nesting::Forbidden,
    }
}

// The kind of a track of the sequence, after what is looked at first: its schema, that it is enabled, and not trimmed.
#[tactic(auto, unfolding(crate::specs::Timelines::head_of_track))]
fn head_of_track(json: &Json) -> Result<Kind, Fault>
    ensures { result ≡ head_of_track (tree_of json.now) }
{
    expect(json, "Track.1")?;
    enabled(json)?;
    untrimmed(json)?;
    kind(json)
}

// Adds a track of the sequence, and its kind to the table.
#[tactic(auto, unfolding(crate::specs::Timelines::next_track))]
fn add_track(
    alloc: Global,
    rate: &Rate,
    table: &mut Entries,
    tracks: &mut Listed<Track>,
    json: &Json,
) -> Result<(), DocFault>
    requires few { entries table.old + 2 * tree_size (tree_of json.now) < 2 ^ 31 }
    requires count { length tracks.old < 2 ^ 32 }
    ensures read { Gives (λ _. (tracks.new, table.new)) result
        (next_track (rate_pair rate.now) (tracks.old, table.old) (tree_of json.now)) }
    ensures few { OnOk result (entries table.new
        ≤ entries table.old + 2 * tree_size (tree_of json.now)) }
    ensures count { OnOk result (length tracks.new ≡ length tracks.old + 1) }
{
    let kind = head_of_track(json)?;
    let children = list(needed(json, "children")?)?;
    let number = tracks.as_slice().len() as u32;
    let track = track(
        alloc,
        rate,
        nesting_of(kind),
        number,
        table,
        children,
        json.at,
    )?;
    tracks.push(track)?;
    table.add_kind(kind)?;
    Ok(())
}

// The tracks of the sequence, in order.
fn add_tracks(
    alloc: Global,
    rate: &Rate,
    table: &mut Entries,
    children: &[Json],
) -> Result<Listed<Track>, DocFault>
    requires few { entries table.old + 2 * items_size (map tree_of children.now) < 2 ^ 31 }
    requires count { length children.now ≤ MAX_TRACKS }
    ensures { Gives (λ tracks. (tracks, table.new)) result
        (tracks_read (rate_pair rate.now) table.old (map tree_of children.now)) }
{
    let mut tracks = Listed::new(alloc);
    for json in children {
        add_track(alloc, rate, table, &mut tracks, json)?;
    }
    Ok(tracks)
}

// The tracks of the sequence, and the table that they use.
fn read_tracks(
    alloc: Global,
    rate: &Rate,
    children: &[Json],
) -> Result<(Listed<Track>, Table), DocFault>
    requires few { 2 * items_size (map tree_of children.now) < 2 ^ 31 }
    requires count { length children.now ≤ MAX_TRACKS }
    ensures read { Gives (λ state. state) result
        (tracks_read (rate_pair rate.now) empty_table (map tree_of children.now)) }
    ensures texts { IfOk result (λ state. AreTexts state.1.reels) }
{
    let mut table = Entries::new(alloc);
    let tracks = add_tracks(alloc, rate, &mut table, children)?;
    let table = table.finish()?;
    Ok((tracks, table))
}

// The tracks of the sequence and their table, or O10 at `at`, the place of their list, where there are none or too
// many.
fn sequence(
    alloc: Global,
    rate: &Rate,
    children: &[Json],
    at: u32,
) -> Result<(Listed<Track>, Table), DocFault>
    requires { 2 * items_size (map tree_of children.now) < 2 ^ 31 }
    ensures read { Gives (λ state. state) result
        (sequence_read (rate_pair rate.now) (map tree_of children.now) at) }
    ensures texts { IfOk result (λ state. AreTexts state.1.reels) }
{
    if children.is_empty() || children.len() > MAX_TRACKS as usize {
        return Err(DocFault::Refused {
            code: DocCode::O10,
            at,
        });
    }
    read_tracks(alloc, rate, children)
}

// The opening that a timeline describes, or the first fault that it has as a timeline.
#[tactic(auto, unfolding(crate::specs::Timelines::timeline_read))]
fn timeline(alloc: Global, counting: &Counting, json: &Json) -> Result<Opening, DocFault>
    requires { 2 * tree_size (tree_of json.now) < 2 ^ 31 }
    ensures read { Gives (λ opening. opening) result
        (timeline_read counting.now (tree_of json.now)) }
    ensures texts { IfOk result (λ opening. AreTexts opening.table.reels) }
{
    let rate = counting.rate().rate();
    expect(json, "Timeline.1")?;
    let start = start(counting, &rate, json)?;
    let stack = needed(json, "tracks")?;
    expect(stack, "Stack.1")?;
    untrimmed(stack)?;
    let children = needed(stack, "children")?;
    let items = list(children)?;
    let (tracks, table) = sequence(alloc, &rate, items, children.at)?;
    Ok(Opening {
        table,
        tracks,
        counting: *counting,
        start,
    })
}

// A fault of JSON as one of the document: its code and place, or out of memory.
fn doc_fault(fault: JsonFault) -> DocFault
    ensures { result ≡ doc_fault fault }
{
    let (code, at) = match fault {
        JsonFault::Syntax(at) => (DocCode::J1, at),
        JsonFault::Depth(at) => (DocCode::J2, at),
        JsonFault::NotUtf8(at) => (DocCode::J4, at),
        JsonFault::TooLarge => (DocCode::J5, 0),
        JsonFault::Memory => return DocFault::Memory,
    };
    DocFault::Refused { code, at }
}

// The tree that bytes spell, or the first fault that they have as JSON.
#[tactic(auto, unfolding(crate::specs::Timelines::tree_read))]
fn tree(alloc: Global, bytes: &[u8]) -> Result<Json, DocFault>
    ensures tree { Gives tree_of result (tree_read bytes.now) }
    ensures few { IfOk result (λ tree. tree_size (tree_of tree) ≤ 33554432) }
{
    match read(alloc, bytes) {
        Ok(tree) => Ok(tree),
        Err(fault) => Err(doc_fault(fault)),
    }
}

/// The opening that a document describes, or the first fault of the document with its place.
#[tactic(auto, unfolding(crate::specs::Timelines::document_read))]
pub fn read_timeline(alloc: Global, bytes: &[u8], counting: &Counting) -> Result<Opening, DocFault>
    ensures read { Gives (λ opening. opening) result (document_read counting.now bytes.now) }
    ensures sound { IfOk result IsSoundOpening }
    ensures some { IfOk result (λ opening. 0 < length opening.tracks) }
    ensures texts { IfOk result (λ opening. AreTexts opening.table.reels) }
{
    let tree = tree(alloc, bytes)?;
    timeline(alloc, counting, &tree)
}
