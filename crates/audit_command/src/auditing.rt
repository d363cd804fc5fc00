// The command: whether the journal of a document's room explains what was recorded of its stations.
ghost use Rattle.std.specs.Prelude.{◌≡◌, ◌<◌, ◌≤◌, length, map};
ghost use Rattle.journal_text.specs.Journals.{HasText};
ghost use Rattle.otio_json.specs.Soundness.{IsSoundOpening};
ghost use Rattle.command_files.specs.Ports.{change, output_told};
ghost use Rattle.command_files.specs.Unopened.{OnlyRead};
ghost use Rattle.command_words.specs.Records.{named_by};
ghost use Rattle.reply_audits.specs.Judging.{setting_in};
ghost use Rattle.audit_command.specs.Audits.{AuditEnds, JournalEnds, RecordsEnd};
ghost use Rattle.audit_command.specs.Stations.{IsAudited, ReadsEnd};

use crate::ending::end_audit;
use crate::reading::read_records;
use crate::record_names::MAX_STATIONS;
use command_files::{Status, end_unopened, end_with, open_document, open_journal, refusal_line};
use command_words::RecordNames;
use cut_mirror::{Walk, WalkFault};
use cut_steps::{CutCall, CutObject, CutPart, cut_object, fresh_parts};
use otio_json::Opening;
use reply_audits::RecordedRoom;
use reply_audits::laws::sessions_are_transcripts;
use room_core::Entry;
use room_files::{FileFault, Files};
use room_ports::Sink;
use std::alloc::Global;
use timecode12::Counting;

// Audits what was recorded of a room, whose journal is a legal history.
fn audit_legal<F: Files, K: Sink>(
    alloc: Global,
    files: &mut F,
    room: &RecordedRoom<'_>,
    opening: &[CutPart],
    walk: &mut Walk<'_, CutObject>,
    records: &[RecordNames<'_>],
    output: &mut K,
) -> Status
    requires audited { IsAudited room.now walk.old }
    requires opening { opening.now ≡ walk.old.opening }
    requires few { length records.now ≤ MAX_STATIONS }
    ensures same { OnlyRead (F.told files.old) (F.told files.new) }
    ensures ends { ReadsEnd (setting_in room.now) opening.now room.now.entries.now
        (map named_by records.now) (F.told files.old) (F.told files.new)
        (change (output_told K.taken K.write_faults) output.old output.new) result }
{
    let texts = match read_records(alloc, files, records) {
        Ok(texts) => texts,
        Err(FileFault::Failed) => return Status::ReadFault,
        Err(FileFault::TooLarge) => return Status::TooMuchInput,
        Err(FileFault::Memory) => return Status::OutOfMemory,
    };
    end_audit(alloc, room, opening, walk, &texts, output)
}

// Audits what was recorded of a room with this journal.
fn audit_entries<F: Files, K: Sink>(
    alloc: Global,
    files: &mut F,
    opening: Opening,
    entries: &[Entry<CutCall>],
    records: &[RecordNames<'_>],
    output: &mut K,
) -> Status
    requires sound { IsSoundOpening opening }
    requires some { 0 < length opening.tracks }
    requires text { HasText entries.now }
    requires few { length records.now ≤ MAX_STATIONS }
    ensures { RecordsEnd opening entries.now (map named_by records.now) (F.told files.old)
        (F.told files.new) (change (output_told K.taken K.write_faults) output.old output.new)
        result }
{
    let Opening {
        table,
        tracks,
        counting,
        start,
    } = opening;
    sessions_are_transcripts();
    let object = cut_object(table);
    let parts = match fresh_parts(alloc, tracks.into_vec()) {
        Ok(parts) => parts,
        Err(_) => return Status::OutOfMemory,
    };
    let room = RecordedRoom {
        object: &object,
        counting,
        start,
        entries,
    };
    let mut walk = match Walk::begin(alloc, &object, &parts, entries) {
        Ok(walk) => walk,
        Err(_) => return Status::OutOfMemory,
    };
    match walk.go_to(alloc, entries.len() as u32) {
        Ok(()) => {
            let _ = walk.point();
            audit_legal(alloc, files, &room, &parts, &mut walk, records, output)
        }
        Err(WalkFault::Refused(place)) => {
            end_with(
                Status::Refused,
                refusal_line("H3", place).as_bytes(),
                output,
            )
        }
        Err(WalkFault::Memory) => Status::OutOfMemory,
    }
}

// Audits what was recorded of a room whose journal is in the file of this name.
fn audit_opened<F: Files, K: Sink>(
    alloc: Global,
    files: &mut F,
    opening: Opening,
    journal: &str,
    records: &[RecordNames<'_>],
    output: &mut K,
) -> Status
    requires sound { IsSoundOpening opening }
    requires some { 0 < length opening.tracks }
    requires few { length records.now ≤ MAX_STATIONS }
    ensures { JournalEnds opening journal.now (map named_by records.now) (F.told files.old)
        (F.told files.new) (change (output_told K.taken K.write_faults) output.old output.new)
        result }
{
    match open_journal(alloc, files, journal) {
        Ok(entries) => audit_entries(alloc, files, opening, &entries, records, output),
        Err(fault) => end_unopened(fault, output),
    }
}

/// Audits what was recorded of the stations of a room: reads the document of the room and its journal in the files of
/// these names, and then, of each station from 0 on, what it sent and what it got. Puts on the output how many entries
/// and replies there are, where the journal explains all of them, or the line of the first refusal.
pub fn audit<F: Files, K: Sink>(
    alloc: Global,
    files: &mut F,
    document: &str,
    counting: &Counting,
    journal: &str,
    records: &[RecordNames<'_>],
    output: &mut K,
) -> Status
    requires few { length records.now ≤ MAX_STATIONS }
    ensures ends { AuditEnds document.now counting.now journal.now (map named_by records.now)
        (change F.told files.old files.new)
        (change (output_told K.taken K.write_faults) output.old output.new) result }
{
    match open_document(alloc, files, document, counting) {
        Ok(opening) => audit_opened(alloc, files, opening, journal, records, output),
        Err(fault) => end_unopened(fault, output),
    }
}
