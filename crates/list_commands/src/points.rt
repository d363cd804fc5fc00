// The list of the cut at a point of a journal.
ghost use Rattle.std.specs.Prelude.{◌≡◌, ◌<◌, ◌≤◌, ◌^◌, length};
ghost use Rattle.flatten.specs.Channels.{AreSound};
ghost use Rattle.timecode12.specs.Labels.{day_of};
ghost use Rattle.edl_write.specs.Limits.{AreLimited};
ghost use Rattle.take_back.specs.Parts.{nows};
ghost use Rattle.journal_text.specs.Journals.{HasText};
ghost use Rattle.otio_json.specs.Soundness.{IsSoundOpening};
ghost use Rattle.command_files.specs.Ports.{change, output_told};
ghost use Rattle.list_commands.specs.Cuts.{CutEnds, namer_told};
ghost use Rattle.list_commands.specs.Points.{JournalEnds, ListEnds, PointEnds};

use crate::cuts::put_list;
use command_files::{Status, end_unopened, end_with, open_document, open_journal, refusal_line};
use cut_steps::{CutCall, CutObject, CutPart, fresh_parts, nows_of};
use edit_apply::Editor;
use history_points::{ReplayFault, replay};
use otio_json::Opening;
use reel_names::ReelNamer;
use room_core::Entry;
use room_files::Files;
use room_ports::Sink;
use std::alloc::Global;
use take_back::Backed;
use timecode12::Counting;

/// Where a cut is found: the document and the journal of its room, by the names of their files, how its frames are
/// counted, and how many entries of the journal stand before it.
#[derive(Clone, Copy)]
pub struct CutPlace<'a> {
    pub document: &'a str,
    pub counting: Counting,
    pub journal: &'a str,
    pub point: u32,
}

// Puts the list of these tracks as they are now.
fn put_cut<K: Sink>(
    alloc: Global,
    object: &CutObject,
    cut: &[CutPart],
    counting: &Counting,
    start: u32,
    namer: Box<dyn ReelNamer>,
    output: &mut K,
) -> Status
    requires layers { AreSound object.now.object.table.nests }
    requires tracks { AreLimited (nows cut.now) }
    requires few { length cut.now < 2 ^ 32 }
    requires start { start < length (day_of counting.now) }
    ensures { CutEnds object.now.object.table (nows cut.now) counting.now start
        (namer_told (rule namer) (given namer))
        (change (output_told K.taken K.write_faults) output.old output.new) result }
{
    match nows_of(alloc, &object.object, cut) {
        Ok(tracks) => {
            let table = &object.object.table;
            put_list(alloc, table, &tracks, counting, start, namer, output)
        }
        Err(_) => Status::OutOfMemory,
    }
}

// Puts the list of the cut after the first entries of a journal: H5 where it has fewer, H3 where one does not apply.
fn list_point<K: Sink>(
    alloc: Global,
    opening: Opening,
    entries: &[Entry<CutCall>],
    point: u32,
    namer: Box<dyn ReelNamer>,
    output: &mut K,
) -> Status
    requires sound { IsSoundOpening opening }
    requires some { 0 < length opening.tracks }
    requires text { HasText entries.now }
    ensures { PointEnds opening entries.now point (namer_told (rule namer) (given namer))
        (change (output_told K.taken K.write_faults) output.old output.new) result }
{
    if entries.len() < point as usize {
        let count = entries.len() as u32;
        return end_with(
            Status::Refused,
            refusal_line("H5", count).as_bytes(),
            output,
        );
    }
    let Opening {
        table,
        tracks,
        counting,
        start,
    } = opening;
    let parts = match fresh_parts(alloc, tracks.into_vec()) {
        Ok(parts) => parts,
        Err(_) => return Status::OutOfMemory,
    };
    let object = Backed {
        object: Editor { table },
    };
    match replay(alloc, &object, &parts, entries, point) {
        Ok(cut) => put_cut(alloc, &object, &cut, &counting, start, namer, output),
        Err(ReplayFault::Refused(place)) => {
            end_with(
                Status::Refused,
                refusal_line("H3", place).as_bytes(),
                output,
            )
        }
        Err(ReplayFault::Memory) => Status::OutOfMemory,
    }
}

// Puts the list of the cut after the first entries of the journal in a file.
fn list_opened<F: Files, K: Sink>(
    alloc: Global,
    files: &mut F,
    opening: Opening,
    journal: &str,
    point: u32,
    namer: Box<dyn ReelNamer>,
    output: &mut K,
) -> Status
    requires sound { IsSoundOpening opening }
    requires some { 0 < length opening.tracks }
    ensures { JournalEnds opening journal.now point (namer_told (rule namer) (given namer))
        (F.told files.old) (F.told files.new)
        (change (output_told K.taken K.write_faults) output.old output.new) result }
{
    match open_journal(alloc, files, journal) {
        Ok(entries) => list_point(alloc, opening, &entries, point, namer, output),
        Err(fault) => end_unopened(fault, output),
    }
}

/// Puts the CMX 3600 list of a cut on the output, or a line that says why the document or the journal is refused, or why
/// the cut has no list. The document is read first, and then the journal.
pub fn list_cut<F: Files, K: Sink>(
    alloc: Global,
    files: &mut F,
    place: &CutPlace<'_>,
    namer: Box<dyn ReelNamer>,
    output: &mut K,
) -> Status
    ensures { ListEnds place.now.document.now place.now.counting
        place.now.journal.now place.now.point
        (namer_told (rule namer) (given namer)) (change F.told files.old files.new)
        (change (output_told K.taken K.write_faults) output.old output.new) result }
{
    match open_document(alloc, files, place.document, &place.counting) {
        Ok(opening) => list_opened(
            alloc,
            files,
            opening,
            place.journal,
            place.point,
            namer,
            output,
        ),
        Err(fault) => end_unopened(fault, output),
    }
}
