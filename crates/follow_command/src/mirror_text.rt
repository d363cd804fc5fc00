// What a mirror comes to, as text.
ghost use Rattle.std.specs.Prelude.{◌≡◌, ◌++◌, decimal, IfOk, OnOk, length};
ghost use Rattle.take_back.specs.Parts.{nows};
ghost use Rattle.follow_command.specs.MirrorTexts.{mirror_text, point_line, track_line, track_lines};

use composables::{Memory, Track};
use cut_mirror::Mirror;
use cut_steps::{CutObject, CutPart};
use itoa::Buffer;
use protocol_parts::{put, put_number};
use reply_text::items_text;
use std::alloc::Global;

// Adds the line of the count of entries.
fn put_point(text: &mut Vec<u8>, point: u32) -> Result<(), Memory>
    ensures { OnOk result (text.new.items ≡ text.old.items ++ point_line point) }
{
    put_number(text, b"point ", point)?;
    put(text, b"\n")
}

// Adds a place in a list.
fn put_index(text: &mut Vec<u8>, index: usize) -> Result<(), Memory>
    ensures { OnOk result (text.new.items ≡ text.old.items ++ decimal index) }
{
    let mut buffer = Buffer::new();
    put(text, buffer.format(index).as_bytes())
}

// Adds the line of a track: its number, and its items and gaps.
fn put_track(alloc: Global, text: &mut Vec<u8>, number: usize, track: &Track) -> Result<(), Memory>
    ensures { OnOk result (text.new.items ≡ text.old.items ++ track_line number track.now) }
{
    let items = items_text(alloc, track)?;
    put(text, b"track ")?;
    put_index(text, number)?;
    put(text, &items)?;
    put(text, b"\n")
}

// Adds the line of each track.
fn put_tracks(alloc: Global, text: &mut Vec<u8>, parts: &[CutPart]) -> Result<(), Memory>
    ensures { OnOk result (text.new.items ≡ text.old.items ++ track_lines 0 (nows parts.now)) }
{
    for (number, part) in parts.iter().enumerate() {
        put_track(alloc, text, number, &part.now)?;
    }
    Ok(())
}

/// The count of entries that a mirror has taken, and then each of its tracks: a line each, with its line feed.
pub(crate) fn mirror_text(alloc: Global, mirror: &Mirror<CutObject>) -> Result<Vec<u8>, Memory>
    ensures { IfOk result (λ text. text.items
        ≡ mirror_text (length mirror.now.entries) (nows mirror.now.parts)) }
{
    let mut text = Vec::new(alloc);
    put_point(&mut text, mirror.point())?;
    put_tracks(alloc, &mut text, mirror.parts())?;
    Ok(text)
}
