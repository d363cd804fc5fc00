// A shift of several tracks: something new in place of their places [x, y), by which what is after them moves.
ghost use Rattle.std.specs.Prelude.{◌≡◌, ◌+◌, ◌*◌, ◌-◌, ◌<◌, ◌≤◌, All, IfOk, None, length, option_map};
ghost use Rattle.composables.specs.declared.refusals.Refusal.TheVariants.{TooLong, TooManyItems};
ghost use Rattle.composables.specs.Items.{items_of};
ghost use Rattle.composables.specs.Sizes.{size_of, sizes_of};
ghost use Rattle.out_of_memory.specs.Answers.{Answers};
ghost use Rattle.composables.specs.Limits.{over_limits, too_long, too_many, within_limits};
ghost use Rattle.edit_splice.specs.Padding.{new_len};
ghost use Rattle.edit_splice.specs.Moves.{IsShiftOf, all_moved, moved, put_views};

use crate::counting::count_after;
use crate::few::Few;
use crate::splicing::splice_by;
use composables::{Done, EditFault, ItemView, MAX_FRAMES, MAX_ITEMS, Memory, Refusal, Track};
use std::alloc::Global;
use std::sync::ledger::Ledger;
use step_count::Steps;

/// What is put in place of the record frames [x, y): `new` on the track `own`, which grows by dark frames up to x where
/// it is shorter; on each other track, as far as it has these places, as many dark frames as `new` has. Dissolves beside
/// the range are kept as far as there is room, or not.
#[derive(Clone, Copy)]
pub struct Shift {
    pub own: u32,
    pub x: u32,
    pub y: u32,
    pub new: Option<ItemView>,
    pub keep: bool,
}

/// Shifts all these tracks, or none. Before one of them is changed it tells the first that would be too long, or else
/// the first that would have too many items and gaps, or that there is no memory.
pub fn shift_tracks<L: Ledger>(
    alloc: Global,
    named: &mut Vec<Track>,
    shift: &Shift,
    done: Done,
    steps: &mut Steps<L>,
) -> Result<Done, EditFault>
    requires order { shift.now.x ≤ shift.now.y }
    requires fits { All (λ t. IsShiftOf shift.now t) named.old.items }
    ensures answers { Answers (within_limits (all_moved shift.now named.old.items) done)
        named.old.items named.new.items result }
    ensures least { steps.old ≤ steps.new }
    ensures most { steps.new ≤ steps.old + 16 * sizes_of named.old.items }
{
    match over_limits(named, shift, steps) {
        Some(refusal) => return Err(EditFault::Refused(refusal)),
        None => {}
    }
    let moved = shifted(alloc, named, shift, steps)?;
    *named = moved;
    Ok(done)
}

/// Why these tracks may not be shifted: the first would be too long, or else the first would have too many items and
/// gaps. It takes no memory and changes nothing.
pub fn over_limits<L: Ledger>(
    named: &[Track],
    shift: &Shift,
    steps: &mut Steps<L>,
) -> Option<Refusal>
    requires order { shift.now.x ≤ shift.now.y }
    requires fits { All (λ t. IsShiftOf shift.now t) named.now }
    ensures refusal { result ≡ over_limits (all_moved shift.now named.now) }
    ensures least { steps.old ≤ steps.new }
    ensures most { steps.new ≤ steps.old + 3 * sizes_of named.now }
{
    match first_too_long(named, shift) {
        Some(track) => return Some(Refusal::TooLong(track)),
        None => {}
    }
    match first_too_many(named, shift, steps) {
        Some(track) => Some(Refusal::TooManyItems(track)),
        None => None,
    }
}

/// These tracks after the shift, within their limits. They share with the tracks all that the shift leaves as it was.
pub fn shifted<L: Ledger>(
    alloc: Global,
    named: &[Track],
    shift: &Shift,
    steps: &mut Steps<L>,
) -> Result<Vec<Track>, Memory>
    requires order { shift.now.x ≤ shift.now.y }
    requires fits { All (λ t. IsShiftOf shift.now t) named.now }
    requires within { over_limits (all_moved shift.now named.now) ≡ None }
    ensures moved { IfOk result (λ all. all.items ≡ all_moved shift.now named.now) }
    ensures least { steps.old ≤ steps.new }
    ensures most { steps.new ≤ steps.old + 8 * sizes_of named.now }
{
    all_moved(alloc, named, shift, steps)
}

// The number of the first track that would have more than `MAX_FRAMES` frames after the shift.
fn first_too_long(named: &[Track], shift: &Shift) -> Option<u32>
    requires order { shift.now.x ≤ shift.now.y }
    ensures { too_long (all_moved shift.now named.now) ≡ option_map TooLong result }
{
    for track in named {
        if length_after(track, shift) > u64::from(MAX_FRAMES) {
            return Some(track.number());
        }
    }
    None
}

// The length of a track after the shift.
fn length_after(track: &Track, shift: &Shift) -> u64
    requires order { shift.now.x ≤ shift.now.y }
    ensures { result ≡ length (moved shift.now track.now).cells }
{
    let length = track.length();
    let stays = u64::from(shift.x.min(length)) + u64::from(length - shift.y.min(length));
    if track.number() == shift.own {
        stays + u64::from(shift.x.saturating_sub(length)) + u64::from(new_len(shift.new))
    } else if shift.x < length {
        stays + u64::from(new_len(shift.new))
    } else {
        stays
    }
}

/// How many frames a shift puts in, of this item or gap.
pub fn new_len(new: Option<ItemView>) -> u32
    ensures { result ≡ new_len new }
{
    match new {
        Some(view) => view.len,
        None => 0,
    }
}

// What the shift puts into a track: its new item on the own one, after dark frames where that is shorter, and as many
// dark frames on another that has the place.
fn put_views(track: &Track, shift: &Shift) -> Few
    ensures { result ≡ put_views shift.now track.now }
{
    let length = track.length();
    if track.number() == shift.own {
        Few::of(shift.x.saturating_sub(length), shift.new)
    } else if shift.x < length {
        Few::of(new_len(shift.new), None)
    } else {
        Few::of(0, None)
    }
}

// The number of the first track that would have more than `MAX_ITEMS` items and gaps after the shift.
fn first_too_many<L: Ledger>(named: &[Track], shift: &Shift, steps: &mut Steps<L>) -> Option<u32>
    requires order { shift.now.x ≤ shift.now.y }
    requires fits { All (λ t. IsShiftOf shift.now t) named.now }
    requires short { All (λ t. length (moved shift.now t).cells ≤ MAX_FRAMES) named.now }
    ensures found { too_many (all_moved shift.now named.now) ≡ option_map TooManyItems result }
    ensures least { steps.old ≤ steps.new }
    ensures most { steps.new ≤ steps.old + 3 * sizes_of named.now }
{
    for track in named {
        if items_after(track, shift, steps) > MAX_ITEMS {
            return Some(track.number());
        }
    }
    None
}

// How many items and gaps a track has after the shift.
fn items_after<L: Ledger>(track: &Track, shift: &Shift, steps: &mut Steps<L>) -> u32
    requires order { shift.now.x ≤ shift.now.y }
    requires fits { IsShiftOf shift.now track.now }
    requires short { length (moved shift.now track.now).cells ≤ MAX_FRAMES }
    ensures count { result ≡ length (items_of (moved shift.now track.now).cells) }
    ensures least { steps.old ≤ steps.new }
    ensures most { steps.new ≤ steps.old + 3 * size_of track.now }
{
    let length = track.length();
    let views = put_views(track, shift);
    count_after(
        track,
        shift.x.min(length),
        shift.y.min(length),
        views.as_slice(),
        steps,
    )
}

// The tracks after the shift.
fn all_moved<L: Ledger>(
    alloc: Global,
    named: &[Track],
    shift: &Shift,
    steps: &mut Steps<L>,
) -> Result<Vec<Track>, Memory>
    requires order { shift.now.x ≤ shift.now.y }
    requires fits { All (λ t. IsShiftOf shift.now t) named.now }
    requires short { All (λ t. length (moved shift.now t).cells ≤ MAX_FRAMES) named.now }
    requires few { All (λ t. length (items_of (moved shift.now t).cells) ≤ MAX_ITEMS) named.now }
    ensures moved { IfOk result (λ all. all.items ≡ all_moved shift.now named.now) }
    ensures least { steps.old ≤ steps.new }
    ensures most { steps.new ≤ steps.old + 8 * sizes_of named.now }
{
    let mut all = Vec::with_capacity(alloc, named.len())?;
    for track in named {
        let track = moved(alloc, track, shift, steps)?;
        all.push(track)?;
    }
    Ok(all)
}

// A track after the shift.
fn moved<L: Ledger>(
    alloc: Global,
    track: &Track,
    shift: &Shift,
    steps: &mut Steps<L>,
) -> Result<Track, Memory>
    requires order { shift.now.x ≤ shift.now.y }
    requires fits { IsShiftOf shift.now track.now }
    requires short { length (moved shift.now track.now).cells ≤ MAX_FRAMES }
    requires few { length (items_of (moved shift.now track.now).cells) ≤ MAX_ITEMS }
    ensures moved { IfOk result (λ t. t ≡ moved shift.now track.now) }
    ensures least { steps.old ≤ steps.new }
    ensures most { steps.new ≤ steps.old + 8 * size_of track.now }
{
    let length = track.length();
    let views = put_views(track, shift);
    let mut shifted = track.copy(alloc)?;
    splice_by(
        alloc,
        &mut shifted,
        shift.x.min(length),
        shift.y.min(length),
        shift.keep,
        views.as_slice(),
        steps,
    )?;
    Ok(shifted)
}
