// Links that may have items on both sides of a shift, told by the keys that pages keep of their links.
ghost use Rattle.std.specs.Prelude.{◌≡◌, ◌+◌, ◌*◌, ◌≤◌, ◌&&◌, ◌||◌, ℕ, IfOk, OnOk, Some, drop, length, sum_by, take, true};
ghost use Rattle.std.specs.BTreeSet.{btree_set_len, contains};
ghost use Rattle.std.specs.List.{list_any};
ghost use Rattle.composables.specs.Items.{items_of};
ghost use Rattle.composables.specs.Links.{cells_before, cells_from};
ghost use Rattle.composables.specs.Sizes.{size_of, sizes_of};
ghost use Rattle.link_groups.specs.Keys.{AreMarked, Said, may_have, pair_key};
ghost use Rattle.link_groups.specs.Splits.{has_key, is_key_of, key_cmp};
ghost use Rattle.link_groups.specs.Starts.{IsStart};

use crate::key_marks::KeyMarks;
use crate::passing::pass_unmarked;
use crate::starts::{Start, found};
use composables::{ItemReader, Memory, Track, a_track_is_kept};
use frame_meaning::Link;
use std::alloc::Global;
use std::collections::BTreeSet;
use std::sync::ledger::Ledger;
use step_count::Steps;

/// The keys of the links that these tracks have before the record frame `x`.
pub(crate) fn keys_before<L: Ledger>(
    alloc: Global,
    named: &[Track],
    x: u32,
    steps: &mut Steps<L>,
) -> Result<KeyMarks, Memory>
    ensures marked { IfOk result (λ m. Said m true (cells_before x named.now)) }
    ensures least { steps.old ≤ steps.new }
    ensures most { steps.new ≤ steps.old + sizes_of named.now }
{
    let mut marks = KeyMarks::of(alloc, named)?;
    mark_before(&mut marks, named, x, steps);
    Ok(marks)
}

// Marks the keys of the links that these tracks have before the record frame `x`.
fn mark_before<L: Ledger>(marks: &mut KeyMarks, named: &[Track], x: u32, steps: &mut Steps<L>)
    ensures marked { Said marks.new true (cells_before x named.now) }
    ensures least { steps.old ≤ steps.new }
    ensures most { steps.new ≤ steps.old + sizes_of named.now }
{
    for track in named {
        mark_front(marks, track, x, steps);
    }
}

// Marks the keys of the links that one track has before the record frame `x`, and by whole pages where it can.
fn mark_front<L: Ledger>(marks: &mut KeyMarks, track: &Track, x: u32, steps: &mut Steps<L>)
    ensures grows { (k : ℕ) → may_have marks.old k ≡ true → may_have marks.new k ≡ true }
    ensures marked { Said marks.new true (take x track.now.cells) }
    ensures least { steps.old ≤ steps.new }
    ensures most { steps.new ≤ steps.old + size_of track.now }
{
    a_track_is_kept(track);
    if !track.has_links() {
        return;
    }
    let count = track.count();
    let mut items = ItemReader::at(track, 0);
    let mut index: u32 = 0;
    let mut at: u32 = 0;
    while index < count {
        if at >= x {
            return;
        }
        steps.tick();
        match items.pass_row(x - at) {
            Some(row) => {
                marks.mark_all(row.keys);
                index += row.count;
                at += row.places;
            }
            None => {
                let Some(view) = items.next() else {
                    return;
                };
                marks.mark_link(view.link);
                index += 1;
                at += view.len;
            }
        }
    }
}

/// The links that these tracks have from the record frame `y` on and whose keys may be marked, by home and number.
pub(crate) fn met_from<L: Ledger>(
    alloc: Global,
    named: &[Track],
    marks: &KeyMarks,
    y: u32,
    steps: &mut Steps<L>,
) -> Result<BTreeSet<(u32, u32)>, Memory>
    ensures links { IfOk result (λ s. (q : ℕ × ℕ) → contains key_cmp s q
        ≡ (may_have marks.now (pair_key q) && list_any (has_key q) (cells_from y named.now))) }
    ensures few { IfOk result (λ s. btree_set_len s
        ≤ sum_by (λ t. length (items_of t.cells)) named.now) }
    ensures least { steps.old ≤ steps.new }
    ensures most { 2 * steps.new ≤ 2 * steps.old + 3 * sizes_of named.now }
{
    let mut met = BTreeSet::new(alloc);
    for track in named {
        add_found(&mut met, marks, track, y, steps)?;
    }
    Ok(met)
}

// Adds those that items of one track have; the walk begins at the item that holds `y`.
fn add_found<L: Ledger>(
    met: &mut BTreeSet<(u32, u32)>,
    marks: &KeyMarks,
    track: &Track,
    y: u32,
    steps: &mut Steps<L>,
) -> Result<(), Memory>
    ensures links { OnOk result ((q : ℕ × ℕ) → contains key_cmp met.new q
        ≡ (contains key_cmp met.old q
        || (may_have marks.now (pair_key q) && list_any (has_key q) (drop y track.now.cells)))) }
    ensures few { OnOk result (btree_set_len met.new
        ≤ btree_set_len met.old + length (items_of track.now.cells)) }
    ensures least { steps.old ≤ steps.new }
    ensures most { 2 * steps.new ≤ 2 * steps.old + 3 * size_of track.now }
{
    let start = found(track, y, steps);
    add_met(met, marks, track, start, y, steps)
}

// Adds those that items of one track have which end past `y`; the walk begins at this start. Pages without a key that may
// be marked are passed by.
fn add_met<L: Ledger>(
    met: &mut BTreeSet<(u32, u32)>,
    marks: &KeyMarks,
    track: &Track,
    start: Start,
    y: u32,
    steps: &mut Steps<L>,
) -> Result<(), Memory>
    requires { IsStart y track.now start }
    ensures links { OnOk result ((q : ℕ × ℕ) → contains key_cmp met.new q
        ≡ (contains key_cmp met.old q
        || (may_have marks.now (pair_key q) && list_any (has_key q) (drop y track.now.cells)))) }
    ensures few { OnOk result (btree_set_len met.new
        ≤ btree_set_len met.old + length (items_of track.now.cells)) }
    ensures least { steps.old ≤ steps.new }
    ensures most { steps.new ≤ steps.old + length (items_of track.now.cells) }
{
    if track.length() <= y {
        return Ok(());
    }
    if !track.has_links() {
        return Ok(());
    }
    let count = track.count();
    let mut items = ItemReader::at(track, start.index);
    let mut index = start.index;
    let mut end = start.from;
    while index < count {
        let past = pass_unmarked(track, &mut items, index, u32::MAX, marks);
        index += past.count;
        end += past.frames;
        let Some(view) = items.next() else {
            return Ok(());
        };
        steps.tick();
        index += 1;
        end += view.len;
        if end > y {
            add_link(met, marks, view.link)?;
        }
    }
    Ok(())
}

// Adds a link, if there is one and its key may be marked.
fn add_link(
    met: &mut BTreeSet<(u32, u32)>,
    marks: &KeyMarks,
    link: Option<Link>,
) -> Result<(), Memory>
    ensures links { OnOk result ((q : ℕ × ℕ) → contains key_cmp met.new q
        ≡ (contains key_cmp met.old q || (may_have marks.now (pair_key q) && is_key_of q link))) }
    ensures few { OnOk result (btree_set_len met.new ≤ btree_set_len met.old + 1) }
{
    match link {
        Some(link) => add_one(met, marks, link),
        None => Ok(()),
    }
}

// Adds this link, if its key may be marked.
fn add_one(met: &mut BTreeSet<(u32, u32)>, marks: &KeyMarks, link: Link) -> Result<(), Memory>
    ensures links { OnOk result ((q : ℕ × ℕ) → contains key_cmp met.new q
        ≡ (contains key_cmp met.old q
        || (may_have marks.now (pair_key q) && is_key_of q (Some link)))) }
    ensures few { OnOk result (btree_set_len met.new ≤ btree_set_len met.old + 1) }
{
    if !marks.may_have_link(link) {
        return Ok(());
    }
    met.insert((link.home, link.number))?;
    Ok(())
}

/// The keys of these links. Without links each key counts as one.
pub(crate) fn keys_of(
    alloc: Global,
    named: &[Track],
    links: &BTreeSet<(u32, u32)>,
) -> Result<KeyMarks, Memory>
    ensures { IfOk result (λ m. AreMarked m links.now) }
{
    if links.is_empty() {
        return Ok(KeyMarks::all(alloc));
    }
    let mut marks = KeyMarks::of(alloc, named)?;
    for link in links {
        marks.mark_pair(*link);
    }
    Ok(marks)
}
