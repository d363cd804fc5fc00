// The summary of a session.
ghost use Rattle.std.specs.Prelude.{◌≡◌, ◌++◌, IfOk, OnOk};
ghost use Rattle.made_sessions.specs.Sessions.{summary_of, track_line};

use composables::{Memory, Track};
use protocol_parts::{put, put_number};
use std::alloc::Global;

// Adds the line of a track: its number, its length in frames, and how many items and gaps it has.
fn put_track(out: &mut Vec<u8>, track: &Track) -> Result<(), Memory>
    ensures { OnOk result (out.new.items ≡ out.old.items ++ track_line track.now) }
{
    put_number(out, b"track ", track.number())?;
    put_number(out, b" ", track.length())?;
    put_number(out, b" ", track.count())?;
    put(out, b"\n")
}

/// The summary of a journal with so many entries that comes to these tracks.
pub(crate) fn summary(alloc: Global, entries: u32, tracks: &[Track]) -> Result<Vec<u8>, Memory>
    ensures { IfOk result (λ text. text.items ≡ summary_of entries tracks.now) }
{
    let mut out = Vec::new(alloc);
    put_number(&mut out, b"entries ", entries)?;
    put(&mut out, b"\n")?;
    for track in tracks {
        put_track(&mut out, track)?;
    }
    Ok(out)
}
