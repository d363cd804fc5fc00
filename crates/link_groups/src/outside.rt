// Links of what is moved that reach a track which is not named.
ghost use Rattle.std.specs.Prelude.{◌≡◌, ◌+◌, ◌*◌, ◌<◌, ◌≤◌, ◌&&◌, Some, true, not, drop, length};
ghost use Rattle.std.specs.List.{list_any};
ghost use Rattle.composables.specs.Items.{items_of};
ghost use Rattle.composables.specs.Links.{cells_from, first_unnamed, is_named, least_link, least_outside, link_before, link_outside, outside, outside_refusal};
ghost use Rattle.composables.specs.Sizes.{size_of, sizes_of};
ghost use Rattle.composables.specs.TrackSets.{has_track, tracks_in};
ghost use Rattle.link_groups.specs.Inside.{AreInside};
ghost use Rattle.link_groups.specs.Starts.{IsStart};

use crate::starts::{Start, first, found};
use composables::{ItemReader, Refusal, Track, has_track};
use frame_meaning::Link;
use std::sync::ledger::Ledger;
use step_count::Steps;

/// Why a shift that moves what these tracks have from the record frame `y` on is refused for its links, if it is: the
/// least of those links that has a track which is not named, by home and then number, and its first such track.
pub fn check<L: Ledger>(named: &[Track], _x: u32, y: u32, steps: &mut Steps<L>) -> Option<Refusal>
    ensures refusal { result ≡ link_outside named.now (cells_from y named.now) }
    ensures least { steps.old ≤ steps.new }
    ensures most { steps.new ≤ steps.old + sizes_of named.now }
{
    let least = least_outside(named, y, steps);
    outside_refusal(named, least)
}

/// Why a call on these tracks is refused for a link, if it is: the first track of the link that is not named.
pub fn outside_refusal(named: &[Track], link: Option<Link>) -> Option<Refusal>
    ensures { result ≡ outside_refusal named.now link }
{
    match link {
        Some(link) => match first_unnamed(named, link.tracks) {
            Some(track) => Some(Refusal::LinkOutside {
                home: link.home,
                number: link.number,
                track,
            }),
            None => None,
        },
        None => None,
    }
}

/// Why a shift is refused for its links, as `check` has it, where each walk begins at the item that holds `y`.
pub(crate) fn check_moved<L: Ledger>(
    named: &[Track],
    y: u32,
    steps: &mut Steps<L>,
) -> Option<Refusal>
    ensures refusal { result ≡ link_outside named.now (cells_from y named.now) }
    ensures least { steps.old ≤ steps.new }
    ensures most { 2 * steps.new ≤ 2 * steps.old + 3 * sizes_of named.now }
{
    let least = least_moved(named, y, steps);
    outside_refusal(named, least)
}

// The least link, of what these tracks have from `y` on, that has a track which is not named. It goes over all items.
fn least_outside<L: Ledger>(named: &[Track], y: u32, steps: &mut Steps<L>) -> Option<Link>
    ensures least { result ≡ least_outside named.now (cells_from y named.now) }
    ensures from { steps.old ≤ steps.new }
    ensures most { steps.new ≤ steps.old + sizes_of named.now }
{
    let mut least = None;
    for track in named {
        least = least_link(least, least_on(named, track, first(), y, steps));
    }
    least
}

// The least link, of what these tracks have from `y` on, that has a track which is not named. Each walk begins at the
// item that holds `y`.
fn least_moved<L: Ledger>(named: &[Track], y: u32, steps: &mut Steps<L>) -> Option<Link>
    ensures least { result ≡ least_outside named.now (cells_from y named.now) }
    ensures from { steps.old ≤ steps.new }
    ensures most { 2 * steps.new ≤ 2 * steps.old + 3 * sizes_of named.now }
{
    let mut least = None;
    for track in named {
        least = least_link(least, least_found(named, track, y, steps));
    }
    least
}

// The least such link of one track, where the walk begins at the item that holds `y`.
fn least_found<L: Ledger>(
    named: &[Track],
    track: &Track,
    y: u32,
    steps: &mut Steps<L>,
) -> Option<Link>
    ensures least { result ≡ least_outside named.now (drop y track.now.cells) }
    ensures from { steps.old ≤ steps.new }
    ensures most { 2 * steps.new ≤ 2 * steps.old + 3 * size_of track.now }
{
    let start = found(track, y, steps);
    least_on(named, track, start, y, steps)
}

// The least such link of one track, where the walk begins at this start. Pages whose links
// have no tracks but those of a link before, all named, are passed by.
fn least_on<L: Ledger>(
    named: &[Track],
    track: &Track,
    start: Start,
    y: u32,
    steps: &mut Steps<L>,
) -> Option<Link>
    requires { IsStart y track.now start }
    ensures least { result ≡ least_outside named.now (drop y track.now.cells) }
    ensures from { steps.old ≤ steps.new }
    ensures most { steps.new ≤ steps.old + length (items_of track.now.cells) }
{
    if track.length() <= y {
        return None;
    }
    if !track.has_links() {
        return None;
    }
    let count = track.count();
    let mut items = ItemReader::at(track, start.index);
    let mut least = None;
    let mut inside = None;
    let mut index = start.index;
    let mut to = start.from;
    while index < count {
        let passed = items.pass_inside(inside);
        index += passed.count;
        to += passed.places;
        let Some(view) = items.next() else {
            return least;
        };
        steps.tick();
        index += 1;
        to += view.len;
        if to > y {
            least = least_link(least, outside_past(named, view.link, &mut inside));
        }
    }
    least
}

// The lesser of two links, or the one that there is.
fn least_link(one: Option<Link>, other: Option<Link>) -> Option<Link>
    ensures { result ≡ least_link one other }
{
    match one {
        None => other,
        Some(l) => match other {
            None => one,
            Some(m) => { if link_before(m, l) { other } else { one } }
        },
    }
}

// Whether the link `k` is less than the link `l`: by home, and then by number.
fn link_before(k: Link, l: Link) -> bool
    ensures { result ≡ link_before k l }
{
    k.home < l.home || (k.home == l.home && k.number < l.number)
}

// The link, if it has a track which is not named. `inside` are the tracks of a link before it that had none: most links
// have the tracks of the one before.
fn outside_past(named: &[Track], link: Option<Link>, inside: &mut Option<u32>) -> Option<Link>
    requires inside { AreInside named.now inside.old }
    ensures outside { result ≡ outside named.now link }
    ensures inside { AreInside named.now inside.new }
{
    match link {
        Some(l) => {
            if are_these(*inside, l.tracks) {
                return None;
            }
            if first_unnamed(named, l.tracks).is_some() {
                return Some(l);
            }
            *inside = Some(l.tracks);
            None
        }
        None => None,
    }
}

// Whether these are the tracks of the link before, all of which are named.
fn are_these(inside: Option<u32>, tracks: u32) -> bool
    ensures { result ≡ true → inside ≡ Some tracks }
{
    match inside {
        Some(held) => held == tracks,
        None => false,
    }
}

// The first track of a set that is not named.
fn first_unnamed(named: &[Track], tracks: u32) -> Option<u32>
    ensures { result ≡ first_unnamed named.now (tracks_in tracks) }
{
    for track in 0..32 {
        if is_unnamed(named, tracks, track) {
            return Some(track);
        }
    }
    None
}

// Whether a track is in the set and is not among the named ones.
fn is_unnamed(named: &[Track], tracks: u32, track: u32) -> bool
    requires { track < 32 }
    ensures { result ≡ (has_track tracks track && not (is_named named.now track)) }
{
    has_track(tracks, track) && !is_named(named, track)
}

// Whether a track with this number is among the named ones.
fn is_named(named: &[Track], number: u32) -> bool
    ensures { result ≡ is_named named.now number }
{
    for track in named {
        if track.number() == number {
            return true;
        }
    }
    false
}
