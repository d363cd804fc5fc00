// Which of some links have items that stay before a shift.
ghost use Rattle.std.specs.Prelude.{◌≡◌, ◌+◌, ◌≤◌, ◌&&◌, ◌||◌, ℕ, IfOk, OnOk, Some, not, take};
ghost use Rattle.std.specs.BTreeSet.{btree_set_len, contains};
ghost use Rattle.std.specs.List.{list_any};
ghost use Rattle.composables.specs.Links.{cells_before};
ghost use Rattle.composables.specs.Sizes.{size_of, sizes_of};
ghost use Rattle.link_groups.specs.Keys.{AreMarked};
ghost use Rattle.link_groups.specs.Splits.{has_key, is_key_of, key_cmp};

use crate::key_marks::KeyMarks;
use crate::passing::pass_unmarked;
use composables::{ItemReader, Memory, Track, a_track_is_kept};
use frame_meaning::Link;
use std::alloc::Global;
use std::collections::BTreeSet;
use std::sync::ledger::Ledger;
use step_count::Steps;

/// Those of these links, whose keys are marked, that items have which begin before the record frame `x`. It looks no further
/// than the track on which the last of them is found.
pub(crate) fn staying<L: Ledger>(
    alloc: Global,
    named: &[Track],
    links: BTreeSet<(u32, u32)>,
    marks: &KeyMarks,
    x: u32,
    steps: &mut Steps<L>,
) -> Result<BTreeSet<(u32, u32)>, Memory>
    requires { AreMarked marks.now links }
    ensures links { IfOk result (λ s. (q : ℕ × ℕ) → contains key_cmp s q
        ≡ (contains key_cmp links q && list_any (has_key q) (cells_before x named.now))) }
    ensures few { IfOk result (λ s. btree_set_len s ≤ btree_set_len links) }
    ensures least { steps.old ≤ steps.new }
    ensures most { steps.new ≤ steps.old + sizes_of named.now }
{
    let mut missing = links;
    let mut found = BTreeSet::new(alloc);
    for track in named {
        if missing.is_empty() {
            return Ok(found);
        }
        find_before(&mut found, &mut missing, marks, track, x, steps)?;
    }
    Ok(found)
}

// Finds those of the missing links that items of one track have which begin before `x`. Pages without a key that is marked
// are passed by.
fn find_before<L: Ledger>(
    found: &mut BTreeSet<(u32, u32)>,
    missing: &mut BTreeSet<(u32, u32)>,
    marks: &KeyMarks,
    track: &Track,
    x: u32,
    steps: &mut Steps<L>,
) -> Result<(), Memory>
    requires { AreMarked marks.now missing.old }
    ensures found { OnOk result ((q : ℕ × ℕ) → contains key_cmp found.new q
        ≡ (contains key_cmp found.old q
        || (contains key_cmp missing.old q && list_any (has_key q) (take x track.now.cells)))) }
    ensures missing { OnOk result ((q : ℕ × ℕ) → contains key_cmp missing.new q
        ≡ (contains key_cmp missing.old q && not (list_any (has_key q) (take x track.now.cells)))) }
    ensures few { OnOk result (btree_set_len found.new + btree_set_len missing.new
        ≤ btree_set_len found.old + btree_set_len missing.old) }
    ensures least { steps.old ≤ steps.new }
    ensures most { steps.new ≤ steps.old + size_of track.now }
{
    a_track_is_kept(track);
    if !track.has_links() {
        return Ok(());
    }
    let count = track.count();
    let mut items = ItemReader::at(track, 0);
    let mut index: u32 = 0;
    let mut at: u32 = 0;
    while index < count {
        let past = pass_unmarked(track, &mut items, index, x.saturating_sub(at), marks);
        index += past.count;
        at += past.frames;
        if at >= x {
            return Ok(());
        }
        let Some(view) = items.next() else {
            return Ok(());
        };
        steps.tick();
        find_link(found, missing, view.link)?;
        index += 1;
        at += view.len;
    }
    Ok(())
}

// Finds a link, if there is one and it is missing.
fn find_link(
    found: &mut BTreeSet<(u32, u32)>,
    missing: &mut BTreeSet<(u32, u32)>,
    link: Option<Link>,
) -> Result<(), Memory>
    ensures found { OnOk result ((q : ℕ × ℕ) → contains key_cmp found.new q
        ≡ (contains key_cmp found.old q || (contains key_cmp missing.old q && is_key_of q link))) }
    ensures missing { OnOk result ((q : ℕ × ℕ) → contains key_cmp missing.new q
        ≡ (contains key_cmp missing.old q && not (is_key_of q link))) }
    ensures few { OnOk result (btree_set_len found.new + btree_set_len missing.new
        ≤ btree_set_len found.old + btree_set_len missing.old) }
{
    match link {
        Some(link) => find_one(found, missing, link),
        None => Ok(()),
    }
}

// Finds this link, if it is missing.
fn find_one(
    found: &mut BTreeSet<(u32, u32)>,
    missing: &mut BTreeSet<(u32, u32)>,
    link: Link,
) -> Result<(), Memory>
    ensures found { OnOk result ((q : ℕ × ℕ) → contains key_cmp found.new q
        ≡ (contains key_cmp found.old q
        || (contains key_cmp missing.old q && is_key_of q (Some link)))) }
    ensures missing { OnOk result ((q : ℕ × ℕ) → contains key_cmp missing.new q
        ≡ (contains key_cmp missing.old q && not (is_key_of q (Some link)))) }
    ensures few { OnOk result (btree_set_len found.new + btree_set_len missing.new
        ≤ btree_set_len found.old + btree_set_len missing.old) }
{
    if !missing.remove(&(link.home, link.number)) {
        return Ok(());
    }
    found.insert((link.home, link.number))?;
    Ok(())
}
