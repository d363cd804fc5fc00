// Pages that are passed by, since no link of theirs has a key that is wanted.
ghost use Rattle.std.specs.Prelude.{◌≡◌, ◌≤◌, ℕ, drop, false, length, take, true};
ghost use Rattle.composables.specs.Items.{items_of};
ghost use Rattle.composables.specs.Joined.{frames_in};
ghost use Rattle.link_groups.specs.Keys.{has_pair, may_have, pair_key};

use crate::key_marks::KeyMarks;
use composables::{ItemReader, Track, a_track_is_kept};

/// Items and gaps that were passed by: how many, and how many frames they have.
#[derive(Clone, Copy)]
pub struct Past {
    pub count: u32,
    pub frames: u32,
}

/// Passes by the pages in front which have no link with a key that may be marked, and which end within so many frames. It
/// passes by none of a page that is read in part. What is left of the track begins at this index.
pub fn pass_unmarked<'a>(
    track: &'a Track,
    items: &mut ItemReader<'a>,
    index: u32,
    most: u32,
    marks: &KeyMarks,
) -> Past
    requires within { index ≤ length (items_of track.now.cells) }
    requires items { items.old ≡ drop index (items_of track.now.cells) }
    ensures within { result.count ≤ length items.old }
    ensures left { items.new ≡ drop result.count items.old }
    ensures frames { result.frames ≡ frames_in (take result.count items.old) }
    ensures unmarked { (q : ℕ × ℕ) → has_pair q (take result.count items.old) ≡ true
        → may_have marks.now (pair_key q) ≡ false }
{
    a_track_is_kept(track);
    let mut count: u32 = 0;
    let mut frames: u32 = 0;
    while let Some(row) = items.pass_row(most - frames) {
        if marks.may_have_any(row.keys) {
            let here = index + count;
            *items = ItemReader::at(track, here);
            return Past { count, frames };
        }
        count += row.count;
        frames += row.places;
    }
    Past { count, frames }
}
