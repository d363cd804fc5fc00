// The links that a shift splits, with the numbers that their moved items get.
ghost use Rattle.std.specs.Prelude.{◌≡◌, ◌+◌, ◌*◌, ◌<◌, ◌≤◌, ◌^◌, ◌&&◌, ◌||◌, ℕ, All, IfOk, OnOk, drop, length, sum_by, take};
ghost use Rattle.std.specs.List.{list_any};
ghost use Rattle.std.specs.BTreeSet.{btree_set_len, contains, IsOrdered};
ghost use Rattle.composables.specs.Items.{items_of};
ghost use Rattle.composables.specs.Links.{cells_before, cells_from, next_link_at, split_links};
ghost use Rattle.composables.specs.Sizes.{size_of, sizes_of};
ghost use Rattle.link_groups.specs.Keys.{AreMarked, HasMarks};
ghost use Rattle.link_groups.specs.Marks.{is_marked};
ghost use Rattle.link_groups.specs.Renumbering.{MayBeSplit};
ghost use Rattle.link_groups.specs.Splits.{AreGiven, AreSplits, HasFew, has_key, is_key_of, key_cmp};
ghost use Rattle.link_groups.specs.Starts.{IsStart};

use crate::key_marks::KeyMarks;
use crate::link_marks::LinkMarks;
use crate::meeting::{keys_before, keys_of, met_from};
use crate::starts::{Start, first};
use crate::staying::staying;
use composables::{ItemReader, Memory, Track, a_track_is_kept};
use frame_meaning::Link;
use std::alloc::Global;
use std::collections::{BTreeMap, BTreeSet};
use std::sync::ledger::Ledger;
use step_count::Steps;

/// The new number of each link that is split, by its home and its number, how many new numbers each home gives, and marks
/// of the keys of these links, by which pages without them are passed by.
#[derive(Drop)]
pub struct Splits {
    pub(crate) numbers: BTreeMap<(u32, u32), u32>,
    pub(crate) counts: BTreeMap<u32, u32>,
    pub(crate) marks: KeyMarks,
}

// The splits of the links that have items both before the record frame `x` and from `y` on.
pub(crate) fn splits_at<L: Ledger>(
    alloc: Global,
    named: &[Track],
    x: u32,
    y: u32,
    steps: &mut Steps<L>,
) -> Result<Splits, Memory>
    requires room { MayBeSplit named.now }
    ensures splits { IfOk result (λ s. AreSplits named.now (split_links x y named.now) s) }
    ensures few { IfOk result (λ s. HasFew s) }
    ensures marked { IfOk result (λ s. HasMarks s) }
    ensures least { steps.old ≤ steps.new }
    ensures most { steps.new ≤ steps.old + 3 * sizes_of named.now }
{
    let before = marks_before(alloc, named, x, steps)?;
    let split = split_from(alloc, named, &before, y, steps)?;
    number_splits(alloc, named, &split, KeyMarks::all(alloc), steps)
}

/// The splits of `splits_at`. Keys tell which links may be split, and where: only the pages that may have one of these are
/// read, and those that hold `x` and `y`.
pub(crate) fn splits_shifted<L: Ledger>(
    alloc: Global,
    named: &[Track],
    x: u32,
    y: u32,
    steps: &mut Steps<L>,
) -> Result<Splits, Memory>
    requires room { MayBeSplit named.now }
    ensures splits { IfOk result (λ s. AreSplits named.now (split_links x y named.now) s) }
    ensures few { IfOk result (λ s. HasFew s) }
    ensures marked { IfOk result (λ s. HasMarks s) }
    ensures least { steps.old ≤ steps.new }
    ensures most { 2 * steps.new ≤ 2 * steps.old + 9 * sizes_of named.now }
{
    let before = keys_before(alloc, named, x, steps)?;
    let met = met_from(alloc, named, &before, y, steps)?;
    let marks = keys_of(alloc, named, &met)?;
    let split = staying(alloc, named, met, &marks, x, steps)?;
    number_splits(alloc, named, &split, marks, steps)
}

// The links of items that begin before the record frame `x`.
fn marks_before<L: Ledger>(
    alloc: Global,
    named: &[Track],
    x: u32,
    steps: &mut Steps<L>,
) -> Result<LinkMarks, Memory>
    ensures marks { IfOk result (λ m. (q : ℕ × ℕ) → is_marked m q
        ≡ list_any (has_key q) (cells_before x named.now)) }
    ensures least { steps.old ≤ steps.new }
    ensures most { steps.new ≤ steps.old + sizes_of named.now }
{
    let mut marks = LinkMarks::new(alloc)?;
    for track in named {
        mark_before(&mut marks, track, x, steps)?;
    }
    Ok(marks)
}

// Marks the links of items of one track that begin before the record frame `x`. Pages without links are passed by.
fn mark_before<L: Ledger>(
    marks: &mut LinkMarks,
    track: &Track,
    x: u32,
    steps: &mut Steps<L>,
) -> Result<(), Memory>
    ensures marks { OnOk result ((q : ℕ × ℕ) → is_marked marks.new q
        ≡ (is_marked marks.old q || list_any (has_key q) (take x track.now.cells))) }
    ensures least { steps.old ≤ steps.new }
    ensures most { steps.new ≤ steps.old + size_of track.now }
{
    a_track_is_kept(track);
    if !track.has_links() {
        return Ok(());
    }
    let count = track.count();
    let mut items = ItemReader::at(track, 0);
    let mut index: u32 = 0;
    let mut at: u32 = 0;
    while index < count {
        let passed = items.pass_unlinked();
        index += passed.count;
        at += passed.places;
        if at >= x {
            return Ok(());
        }
        let Some(view) = items.next() else {
            return Ok(());
        };
        steps.tick();
        marks.add(view.link)?;
        index += 1;
        at += view.len;
    }
    Ok(())
}

// Which of these links an item has too that ends past the record frame `y`, by home and number.
fn split_from<L: Ledger>(
    alloc: Global,
    named: &[Track],
    before: &LinkMarks,
    y: u32,
    steps: &mut Steps<L>,
) -> Result<BTreeSet<(u32, u32)>, Memory>
    ensures links { IfOk result (λ s. (q : ℕ × ℕ) → contains key_cmp s q
        ≡ (is_marked before.now q && list_any (has_key q) (cells_from y named.now))) }
    ensures few { IfOk result (λ s. btree_set_len s
        ≤ sum_by (λ t. length (items_of t.cells)) named.now) }
    ensures least { steps.old ≤ steps.new }
    ensures most { steps.new ≤ steps.old + sizes_of named.now }
{
    let mut split = BTreeSet::new(alloc);
    for track in named {
        add_split(&mut split, before, track, first(), y, steps)?;
    }
    Ok(split)
}

// Adds those that items of one track have which end past `y`; the walk begins at this start. Pages without links are
// passed by.
fn add_split<L: Ledger>(
    split: &mut BTreeSet<(u32, u32)>,
    before: &LinkMarks,
    track: &Track,
    start: Start,
    y: u32,
    steps: &mut Steps<L>,
) -> Result<(), Memory>
    requires { IsStart y track.now start }
    ensures links { OnOk result ((q : ℕ × ℕ) → contains key_cmp split.new q
        ≡ (contains key_cmp split.old q
        || (is_marked before.now q && list_any (has_key q) (drop y track.now.cells)))) }
    ensures few { OnOk result (btree_set_len split.new
        ≤ btree_set_len split.old + length (items_of track.now.cells)) }
    ensures least { steps.old ≤ steps.new }
    ensures most { steps.new ≤ steps.old + length (items_of track.now.cells) }
{
    if track.length() <= y {
        return Ok(());
    }
    if !track.has_links() {
        return Ok(());
    }
    let count = track.count();
    let mut items = ItemReader::at(track, start.index);
    let mut index = start.index;
    let mut end = start.from;
    while index < count {
        let passed = items.pass_unlinked();
        index += passed.count;
        end += passed.places;
        let Some(view) = items.next() else {
            return Ok(());
        };
        steps.tick();
        index += 1;
        end += view.len;
        if end > y {
            add_marked(split, before, view.link)?;
        }
    }
    Ok(())
}

// Adds a link, if something before the shift has it too.
fn add_marked(
    split: &mut BTreeSet<(u32, u32)>,
    before: &LinkMarks,
    link: Option<Link>,
) -> Result<(), Memory>
    ensures links { OnOk result ((q : ℕ × ℕ) → contains key_cmp split.new q
        ≡ (contains key_cmp split.old q || (is_marked before.now q && is_key_of q link))) }
    ensures few { OnOk result (btree_set_len split.new ≤ btree_set_len split.old + 1) }
{
    match link {
        Some(link) if before.holds(link) => {
            split.insert((link.home, link.number))?;
        }
        _ => {}
    }
    Ok(())
}

// The numbers that these links get, in order of home and number. Their keys are marked.
fn number_splits<L: Ledger>(
    alloc: Global,
    named: &[Track],
    split: &BTreeSet<(u32, u32)>,
    marks: KeyMarks,
    steps: &mut Steps<L>,
) -> Result<Splits, Memory>
    requires next { All (λ t. t.next_link ≤ 2 ^ 31) named.now }
    requires few { btree_set_len split.now < 2 ^ 31 }
    requires marked { AreMarked marks split.now }
    ensures given { IfOk result (λ s. AreGiven named.now split.now.keys s) }
    ensures few { IfOk result (λ s. HasFew s) }
    ensures marked { IfOk result (λ s. HasMarks s) }
    ensures ordered { IfOk result (λ _. IsOrdered key_cmp split.now) }
    ensures least { steps.old ≤ steps.new }
    ensures most { steps.new ≤ steps.old + btree_set_len split.now }
{
    let mut numbers = BTreeMap::new(alloc);
    let mut counts = BTreeMap::new(alloc);
    for key in split {
        steps.tick();
        let count = counts.get(&key.0).copied().unwrap_or(0);
        numbers.insert(*key, next_link_at(named, key.0) + count)?;
        counts.insert(key.0, count + 1)?;
    }
    Ok(Splits {
        numbers,
        counts,
        marks,
    })
}

// The next link number of the track with this number, or 0.
fn next_link_at(named: &[Track], home: u32) -> u32
    ensures { result ≡ next_link_at home named.now }
{
    for track in named {
        if track.number() == home {
            return track.next_link();
        }
    }
    0
}
