// A journal's text that is replayed from the opening of its room.
ghost use Rattle.std.specs.Prelude.{◌<◌, ◌≤◌, length};
ghost use Rattle.otio_json.specs.Soundness.{IsSoundOpening};

use call_text::read_journal;
use composables::Track;
use cut_steps::{CutCall, fresh_parts, nows_of};
use edit_apply::Editor;
use history_points::{ReplayFault, replay};
use otio_json::{Opening, read_timeline};
use room_core::Entry;
use std::alloc::Global;
use std::test::Fail;
use take_back::Backed;
use timecode12::{Counting, SequenceRate};

// What the first `n` entries come to from this opening, or the first that does not apply.
fn replayed(
    alloc: Global,
    opening: Opening,
    entries: &[Entry<CutCall>],
    n: u32,
) -> Result<Vec<Track>, ReplayFault>
    requires sound { IsSoundOpening opening }
    requires some { 0 < length opening.tracks }
    requires within { n ≤ length entries.now }
    requires most { n ≤ 100000 }
{
    let Opening {
        table,
        tracks,
        counting: _,
        start: _,
    } = opening;
    let object = Backed {
        object: Editor { table },
    };
    let parts = fresh_parts(alloc, tracks.into_vec())?;
    let cut = replay(alloc, &object, &parts, entries, n)?;
    Ok(nows_of(alloc, &object.object, &cut)?)
}

// The tracks that the first n entries come to, from a plain opening of two tracks and one reel.
fn plain_replayed(
    alloc: Global,
    entries: &[Entry<CutCall>],
    n: u32,
) -> Result<Vec<Track>, ReplayFault>
    requires within { n ≤ length entries.now }
    requires most { n ≤ 100000 }
{
    let opening = match Opening::plain(alloc, 2, 1) {
        Ok(opening) => opening,
        Err(_) => return Err(ReplayFault::Memory),
    };
    if opening.tracks.as_slice().is_empty() {
        return Err(ReplayFault::Memory);
    }
    replayed(alloc, opening, entries, n)
}

/// What entries come to from the opening that a document describes at 24 frames a second.
pub(crate) fn replayed_document(
    alloc: Global,
    document: &[u8],
    entries: &[Entry<CutCall>],
) -> Option<Vec<Track>> {
    let counting = Counting::new(SequenceRate::F24, false)?;
    match read_timeline(alloc, document, &counting) {
        Ok(opening) => {
            if entries.len() > 100_000 {
                return None;
            }
            replayed(alloc, opening, entries, entries.len() as u32).ok()
        }
        Err(_) => None,
    }
}

#[test]
fn the_first_entry_that_does_not_apply_is_told(rt: HostRuntime) -> Result<(), Fail> {
    let alloc = rt.alloc();
    let text = "journal 2\n0 1 overwrite 0 0 @0 0 1\n0 2 remove 0 5\n".as_bytes();
    assert!(rt; text.len() < 100);
    let entries = read_journal(alloc, text).ok().ok_or("a journal")?;
    assert!(rt; entries.len() == 2);
    let fault = plain_replayed(alloc, &entries, 2).err().ok_or("a refusal")?;
    assert!(rt; fault == ReplayFault::Refused(1));
    let tracks = plain_replayed(alloc, &entries, 1).ok().ok_or("tracks")?;
    assert_eq!(rt; tracks.len(), 2);
    for (track, length) in tracks.iter().zip([1u32, 0]) {
        assert_eq!(rt; track.length(), length);
    }
    Ok(())
}
