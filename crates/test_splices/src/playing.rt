// A splice of a track, and the splice of its cells by a plain program.
ghost use Rattle.std.specs.Prelude.{◌≡◌, ◌<◌, ◌≤◌, length};
ghost use Rattle.composables.specs.Joined.{frames_in};
ghost use Rattle.composables.specs.TrackFacts.{NumbersBelow};
ghost use Rattle.edit_splice.specs.NewItems.{AreNew};

use composables::{ItemView, Memory, Track, a_track_is_kept};
use edit_splice::{count_after, splice, splice_keeping};
use frame_meaning::{Cell, Mark};
use std::alloc::Global;
use std::process::Abort;
use std::sync::ledger::{Blank, Ledger};
use step_count::Steps;

// What a splice of the places [x, y) leaves of a dissolve at a place before them: all of it where it ends by x, and
// else what ends there, if dissolves are kept.
fn left_before(place: usize, x: usize, keep: bool, mark: Option<Mark>) -> Option<Mark> {
    let mark = mark?;
    let room = x.saturating_sub(place);
    if mark.b as usize <= room {
        Some(mark)
    } else if keep {
        Some(Mark {
            b: u32::try_from(room).unwrap_or(mark.b),
            ..mark
        })
    } else {
        None
    }
}

// What it leaves of one at a place from y on: none of it at y itself, all of it where it begins at y or later, and else
// what begins there, if dissolves are kept.
fn left_behind(place: usize, y: usize, keep: bool, mark: Option<Mark>) -> Option<Mark> {
    let mark = mark?;
    let room = place.saturating_sub(y);
    if room == 0 {
        None
    } else if mark.a as usize <= room {
        Some(mark)
    } else if keep {
        Some(Mark {
            a: u32::try_from(room).unwrap_or(mark.a),
            ..mark
        })
    } else {
        None
    }
}

// A splice frame by frame, which keeps dissolves as far as there is room for them or does not.
fn plain_splice(
    alloc: Global,
    cells: &[Cell],
    range: (usize, usize),
    keep: bool,
    middle: &[Cell],
    fresh: u32,
) -> Result<Vec<Cell>, Memory> {
    let (x, y) = range;
    let mut after = Vec::new(alloc);
    let mut last = None;
    for (place, cell) in cells.iter().enumerate() {
        if place < x {
            last = cell.item;
            after.push(Cell {
                mark: left_before(place, x, keep, cell.mark),
                ..*cell
            })?;
        }
    }
    after.extend_from_slice(middle)?;
    for (place, cell) in cells.iter().enumerate() {
        if y <= place {
            let split = cell.item.is_some() && cell.item == last;
            after.push(Cell {
                item: if split { Some(fresh) } else { cell.item },
                mark: left_behind(place, y, keep, cell.mark),
                ..*cell
            })?;
        }
    }
    Ok(after)
}

// A track of these items and gaps.
fn track_of<L: Ledger>(
    alloc: Global,
    views: &[ItemView],
    steps: &mut Steps<L>,
) -> Result<Track, Memory>
    requires new { AreNew 0 views.now }
    requires numbers { NumbersBelow 100 views.now }
    requires frames { frames_in views.now < 100 }
{
    let mut track = Track::empty(alloc, 0);
    let end = track.length();
    splice(alloc, &mut track, end, end, views, steps)?;
    Ok(track)
}

// These in place of the frames [x, y) of a track whose numbers are below theirs.
fn put<L: Ledger>(
    alloc: Global,
    track: &mut Track,
    x: u32,
    y: u32,
    keep: bool,
    views: &[ItemView],
    steps: &mut Steps<L>,
) -> Result<(), Memory>
    requires order { x ≤ y }
    requires within { y ≤ length track.old.cells }
    requires short { length track.old.cells ≤ 100 }
    requires next { track.old.next_item ≤ 4 }
    requires new { AreNew 4 views.now }
    requires numbers { NumbersBelow 100 views.now }
    requires frames { frames_in views.now < 100 }
{
    a_track_is_kept(track);
    if keep {
        splice_keeping(alloc, track, x, y, views, steps)
    } else {
        splice(alloc, track, x, y, views, steps)
    }
}

// How many items and gaps there are to be with these in place of the frames [x, y) of a track.
fn count<L: Ledger>(track: &Track, x: u32, y: u32, views: &[ItemView], steps: &mut Steps<L>) -> u32
    requires order { x ≤ y }
    requires within { y ≤ length track.now.cells }
    requires short { length track.now.cells ≤ 100 }
    requires next { track.now.next_item ≤ 4 }
    requires new { AreNew 4 views.now }
    requires numbers { NumbersBelow 100 views.now }
    requires frames { frames_in views.now < 100 }
{
    a_track_is_kept(track);
    count_after(track, x, y, views, steps)
}

/// The items and gaps of a track, and how many there were to be; those that it had before, and those of a copy that was
/// made then; its next item number, its cells, and those that the plain program says.
#[derive(Drop)]
pub struct Played {
    pub items: Vec<ItemView>,
    pub count: u32,
    pub old: Vec<ItemView>,
    pub copied: Vec<ItemView>,
    pub next: u32,
    pub cells: Vec<Cell>,
    pub want: Vec<Cell>,
    pub fresh: u32,
}

/// A track of the items `before`, with these in place of its frames [x, y).
pub fn play<L: Ledger>(
    rt: &impl Abort,
    alloc: Global,
    blank: Blank,
    before: &[ItemView],
    x: u32,
    y: u32,
    keep: bool,
    views: &[ItemView],
) -> Result<Played, Memory>
    requires blank { (blank.name ≡ L.name) × (blank.parts ≡ L.parts) × (0 < blank.parts) }
    requires old { AreNew 0 before.now }
    requires old_numbers { NumbersBelow 100 before.now }
    requires old_frames { frames_in before.now < 100 }
    requires new { AreNew 4 views.now }
    requires numbers { NumbersBelow 100 views.now }
    requires frames { frames_in views.now < 100 }
{
    let mut steps = Steps::<L>::new(blank);
    let mut track = track_of(alloc, before, &mut steps)?;
    let cells = track.cells(alloc)?;
    let middle = track_of(alloc, views, &mut steps)?.cells(alloc)?;
    let mut fresh = track.next_item();
    for view in views {
        fresh = fresh.max(view.item.unwrap_or(0).saturating_add(1));
    }
    let range = (x as usize, y as usize);
    let want = plain_splice(alloc, &cells, range, keep, &middle, fresh)?;
    let (length, next) = (track.length(), track.next_item());
    assert!(rt; length <= 100);
    assert!(rt; next <= 4);
    assert!(rt; x <= y);
    assert!(rt; y <= length);
    let (old, copy) = (track.items(alloc)?, track.copy(alloc)?);
    let count = count(&track, x, y, views, &mut steps);
    put(alloc, &mut track, x, y, keep, views, &mut steps)?;
    Ok(Played {
        items: track.items(alloc)?,
        count,
        old,
        copied: copy.items(alloc)?,
        next: track.next_item(),
        cells: track.cells(alloc)?,
        want,
        fresh,
    })
}
