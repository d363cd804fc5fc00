// Ripple: an end of an item moved, and all that is after it.
ghost use Rattle.std.specs.Prelude.{◌≡◌, ◌+◌, ◌-◌, ◌*◌, ◌<◌, ◌≤◌, ◌||◌, All, length, nat_eq, nat_lt, slice_get, true};
ghost use Rattle.std.specs.List.{list_any};
ghost use Rattle.composables.specs.declared.calls.End.TheVariants.{Head, Tail};
ghost use Rattle.composables.specs.declared.TheConstants.{MAX_FRAMES};
ghost use Rattle.out_of_memory.specs.Answers.{Answers};
ghost use Rattle.composables.specs.Good.{IsGood};
ghost use Rattle.composables.specs.OwnTracks.{numbers_of, track_numbered};
ghost use Rattle.composables.specs.Roomy.{IsRoomy};
ghost use Rattle.composables.specs.Sizes.{sizes_of};
ghost use Rattle.composables.specs.TrackSets.{tracks_in};
ghost use Rattle.edit_delta.specs.Nearest.{AreUpTo};
ghost use Rattle.edit_splice.specs.Standing.{EachStaysGood};
ghost use Rattle.edit_delta.specs.Parts.{IsWhole};
ghost use Rattle.edit_trim.specs.Rippling.{has_room, have_room, ripple_named};
ghost use Rattle.edit_trim.specs.RipplingInside.{CanShift, IsRippled, RipplesAmong, place_after, shift_by};

use composables::{
    Done, EditFault, End, ItemView, MAX_FRAMES, Place, Refusal, Ripple, Table, Track, own_index,
};
use edit_delta::{Way, frames_after, frames_before, going_on, reaching_back, used_within};
use edit_splice::{Shift, new_len};
use link_groups::shift_linked;
use std::alloc::Global;
use std::sync::ledger::Ledger;
use step_count::Steps;

/// Moves the head or the tail of an item of its own track by the delta used, and all that is after the item as much, on
/// all named tracks that have the place. Where the item grows, dark frames are put into the other tracks; where it
/// gives frames up, they lose the frames at those places. A positive delta is later. The item keeps a frame, its source
/// stays in its range, and no named track becomes too long. What is moved gets new links where others of its links
/// stay.
///
/// It answers the delta used, or the first of these refusals that holds: `NoItem`; `LinkOutside` of the least link of
/// what is moved that has a track which is not named; and `TooManyItems` of the first named track for which it holds.
pub fn ripple<L: Ledger>(
    alloc: Global,
    table: &Table,
    named: &mut Vec<Track>,
    call: &Ripple,
    steps: &mut Steps<L>,
) -> Result<Done, EditFault>
    requires named { numbers_of named.old.items ≡ tracks_in call.now.tracks }
    requires own { list_any (nat_eq call.now.track) (tracks_in call.now.tracks) ≡ true }
    requires good { All (λ t. IsGood table.now t) named.old.items }
    requires roomy { All (λ t. IsRoomy t) named.old.items }

    ensures answers { Answers (ripple_named table.now named.old.items call.now)
        named.old.items named.new.items result }

    ensures named { numbers_of named.new.items ≡ tracks_in call.now.tracks }
    ensures good { All (λ t. IsGood table.now t) named.new.items }

    ensures least { steps.old + 1 ≤ steps.new }
    ensures most { steps.new ≤ steps.old + 32 * sizes_of named.old.items }
{
    steps.tick();
    match own_index(named, call.track) {
        Some(index) => ripple_at(alloc, table, named, index, call, steps),
        None => unreachable!(),
    }
}

// Ripples the item, where its own track stands at this index among the named ones.
fn ripple_at<L: Ledger>(
    alloc: Global,
    table: &Table,
    named: &mut Vec<Track>,
    index: usize,
    call: &Ripple,
    steps: &mut Steps<L>,
) -> Result<Done, EditFault>
    requires within { index < length named.old.items }
    requires found { track_numbered call.now.track named.old.items
        ≡ slice_get named.old.items index }
    requires named { numbers_of named.old.items ≡ tracks_in call.now.tracks }
    requires good { All (λ t. IsGood table.now t) named.old.items }
    requires roomy { All (λ t. IsRoomy t) named.old.items }
    ensures answers { Answers (ripple_named table.now named.old.items call.now)
        named.old.items named.new.items result }
    ensures good { EachStaysGood table.now named.old.items named.new.items }
    ensures least { steps.old ≤ steps.new }
    ensures most { steps.new ≤ steps.old + 24 * sizes_of named.old.items }
{
    let track = &named[index];
    let Some(found) = track.item_by_id(call.item, steps) else {
        return Err(EditFault::Refused(Refusal::NoItem));
    };
    let Some(view) = track.item(found.index) else {
        unreachable!()
    };
    let rippled = rippled_among(table, named, call, found, &view);
    match rippled.shift {
        Some(shift) => {
            let place = place_after(call.end, &shift);
            shift_linked(alloc, named, &shift, place, rippled.done, steps)
        }
        None => Ok(rippled.done),
    }
}

// The record frame after the shift from which on items are moved: a head moves with all of its item.
fn place_after(end: End, shift: &Shift) -> u64
    ensures { result ≡ place_after end shift.now }
{
    match end {
        End::Head => u64::from(shift.x),
        End::Tail => u64::from(shift.x) + u64::from(new_len(shift.new)),
    }
}

/// What a ripple does: this shift, or nothing where its delta is 0; and its answer.
#[derive(Clone, Copy)]
pub struct Rippled {
    pub shift: Option<Shift>,
    pub done: Done,
}

// What the ripple of the item at a place does, as far as these tracks have room for it.
fn rippled_among(
    table: &Table,
    named: &[Track],
    call: &Ripple,
    found: Place,
    view: &ItemView,
) -> Rippled
    requires whole { IsWhole table.now view.now }
    requires long { found.to ≡ found.from + view.now.len }
    requires frames { All (λ t. length t.cells ≤ MAX_FRAMES) named.now }
    ensures { RipplesAmong table.now named.now call.now found view.now result }
{
    match call.end {
        End::Head => {
            let room = room_to_grow(named, call.track, found.from);
            head_rippled(table, call, found, view, room)
        }
        End::Tail => {
            let room = room_to_grow(named, call.track, found.to);
            tail_rippled(table, call, found, view, room)
        }
    }
}

// A ripple of the head of the item at a place, where the named tracks have room for so many frames more.
fn head_rippled(table: &Table, call: &Ripple, found: Place, view: &ItemView, room: u32) -> Rippled
    requires whole { IsWhole table.now view.now }
    requires long { found.to ≡ found.from + view.now.len }
    ensures { IsRippled table.now Head found view.now room call.now result }
{
    let earlier = room.min(frames_before(table, view));
    let used = used_within(call.by, earlier, view.len - 1);
    Rippled {
        shift: head_shift(call.track, found, view, used.way),
        done: used.done,
    }
}

// A ripple of the tail of the item at a place, where the named tracks have room for so many frames more.
fn tail_rippled(table: &Table, call: &Ripple, found: Place, view: &ItemView, room: u32) -> Rippled
    requires whole { IsWhole table.now view.now }
    requires long { found.to ≡ found.from + view.now.len }
    ensures { IsRippled table.now Tail found view.now room call.now result }
{
    let later = room.min(frames_after(table, view));
    let used = used_within(call.by, view.len - 1, later);
    Rippled {
        shift: tail_shift(call.track, found, view, used.way),
        done: used.done,
    }
}

// The shift by which the head of the item at a place moves so.
fn head_shift(own: u32, found: Place, view: &ItemView, way: Way) -> Option<Shift>
    requires { CanShift Head found view.now way }
    ensures { result ≡ shift_by own Head found view.now way }
{
    let shift = Shift {
        own,
        x: found.from,
        y: found.from,
        new: None,
        keep: false,
    };
    match way {
        Way::Still => None,
        Way::Later(frames) => Some(Shift {
            y: found.from + frames,
            ..shift
        }),
        Way::Earlier(frames) => Some(Shift {
            new: Some(reaching_back(view, frames)),
            ..shift
        }),
    }
}

// The shift by which the tail of the item at a place moves so.
fn tail_shift(own: u32, found: Place, view: &ItemView, way: Way) -> Option<Shift>
    requires { CanShift Tail found view.now way }
    ensures { result ≡ shift_by own Tail found view.now way }
{
    let shift = Shift {
        own,
        x: found.to,
        y: found.to,
        new: None,
        keep: false,
    };
    match way {
        Way::Still => None,
        Way::Later(frames) => Some(Shift {
            new: Some(going_on(view, frames)),
            ..shift
        }),
        Way::Earlier(frames) => Some(Shift {
            x: found.to - frames,
            ..shift
        }),
    }
}

// How many frames more each named track has room for at a place.
fn room_to_grow(named: &[Track], own: u32, place: u32) -> u32
    requires { All (λ t. length t.cells ≤ MAX_FRAMES) named.now }
    ensures { AreUpTo (have_room own place named.now) result }
{
    let mut room = u32::MAX;
    for track in named {
        room = room.min(room_of(track, own, place));
    }
    room
}

// How many frames more a named track has room for at a place, where it grows there; else as many as there are numbers.
fn room_of(track: &Track, own: u32, place: u32) -> u32
    requires { length track.now.cells ≤ MAX_FRAMES }
    ensures { AreUpTo (λ n. has_room own place n track.now) result }
{
    if grows_at(track, own, place) {
        MAX_FRAMES - track.length()
    } else {
        u32::MAX
    }
}

// Whether a track grows at a place: the own one always, another where it has the place.
fn grows_at(track: &Track, own: u32, place: u32) -> bool
    ensures { result ≡ (nat_eq track.now.number own || nat_lt place (length track.now.cells)) }
{
    track.number() == own || place < track.length()
}
