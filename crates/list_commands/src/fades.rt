// Fades of a cut that hide a picture. A fade is a dissolve from black or to it. Over something the room, and a list of the
// cut, show black with it for its frames; an editing system shows what is below through it.
ghost use Rattle.std.specs.Prelude.{◌≡◌, ◌<◌, IfSome, length};
ghost use Rattle.flatten.specs.Channels.{AreSound};
ghost use Rattle.flatten.specs.Hiding.{AreHiding};
ghost use Rattle.edl_write.specs.Limits.{AreLimited};
ghost use Rattle.take_back.specs.Parts.{nows};
ghost use Rattle.journal_text.specs.Journals.{HasText};
ghost use Rattle.otio_json.specs.Soundness.{IsSoundOpening};
ghost use Rattle.list_commands.specs.Fades.{AreFound, HideAt, HideIn};

use crate::CutPlace;
use command_files::{open_document, open_journal};
use composables::{Listed, Table, Track};
use cut_steps::{CutCall, CutObject, CutPart, fresh_parts, nows_of};
use edit_apply::Editor;
use flatten::{HidingFade, find_hiding_fades};
use history_points::replay;
use otio_json::Opening;
use room_core::Entry;
use room_files::Files;
use std::alloc::Global;
use take_back::Backed;

/// The fades of a cut that hide a picture, by the places of its record, and the frame of the day at which the record begins.
#[derive(Drop)]
pub struct HidingFades {
    pub start: u32,
    pub fades: Listed<HidingFade>,
}

/// The fades that hide a picture in the cut at a place, those within compound clips too, in their order on the record. There
/// are none where the cut is not found, or where there is no memory.
pub fn hiding_fades<F: Files>(
    alloc: Global,
    files: &mut F,
    place: &CutPlace<'_>,
) -> Option<HidingFades>
    ensures { IfSome result (λ found. AreFound place.now.document.now place.now.counting
        place.now.journal.now place.now.point (F.told files.old) found) }
{
    match open_document(alloc, files, place.document, &place.counting) {
        Ok(opening) => {
            let found = fades_opened(alloc, files, opening, place.journal, place.point)?;
            Some(found)
        }
        Err(_) => None,
    }
}

// The same of the room of an opening, whose journal is in a file.
fn fades_opened<F: Files>(
    alloc: Global,
    files: &mut F,
    opening: Opening,
    journal: &str,
    point: u32,
) -> Option<HidingFades>
    requires sound { IsSoundOpening opening }
    requires some { 0 < length opening.tracks }
    ensures { IfSome result (λ found. HideIn opening journal.now point (F.told files.old) found) }
{
    match open_journal(alloc, files, journal) {
        Ok(entries) => {
            let found = fades_at(alloc, opening, &entries, point)?;
            Some(found)
        }
        Err(_) => None,
    }
}

// The same after the first entries of a journal.
fn fades_at(
    alloc: Global,
    opening: Opening,
    entries: &[Entry<CutCall>],
    point: u32,
) -> Option<HidingFades>
    requires sound { IsSoundOpening opening }
    requires some { 0 < length opening.tracks }
    requires text { HasText entries.now }
    ensures { IfSome result (λ found. HideAt opening entries.now point found) }
{
    if entries.len() < point as usize {
        return None;
    }
    let Opening {
        table,
        tracks,
        counting: _,
        start,
    } = opening;
    let parts = match fresh_parts(alloc, tracks.into_vec()) {
        Ok(parts) => parts,
        Err(_) => return None,
    };
    let object = Backed {
        object: Editor { table },
    };
    match replay(alloc, &object, &parts, entries, point) {
        Ok(cut) => {
            let found = cut_fades(alloc, &object, &cut, start)?;
            Some(found)
        }
        Err(_) => None,
    }
}

// The same of tracks as they are now, in a room that begins at this frame.
fn cut_fades(alloc: Global, object: &CutObject, cut: &[CutPart], start: u32) -> Option<HidingFades>
    requires layers { AreSound object.now.object.table.nests }
    requires tracks { AreLimited (nows cut.now) }
    ensures { IfSome result (λ found. (found.start ≡ start)
        × AreHiding found.fades object.now.object.table (nows cut.now)) }
{
    match nows_of(alloc, &object.object, cut) {
        Ok(tracks) => shown_fades(alloc, &object.object.table, &tracks, start),
        Err(_) => None,
    }
}

// The same of these tracks.
fn shown_fades(alloc: Global, table: &Table, tracks: &[Track], start: u32) -> Option<HidingFades>
    requires layers { AreSound table.now.nests }
    requires tracks { AreLimited tracks.now }
    ensures { IfSome result (λ found. (found.start ≡ start)
        × AreHiding found.fades table.now tracks.now) }
{
    match find_hiding_fades(alloc, table, tracks) {
        Ok(fades) => Some(HidingFades { start, fades }),
        Err(_) => None,
    }
}
