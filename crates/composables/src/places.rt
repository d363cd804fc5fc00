// Where items and gaps stand.
ghost use Rattle.std.specs.Prelude.{ℕ, ◌+◌, ◌-◌, ◌<◌, ◌≤◌, ◌^◌, ◌/◌, ◌≡◌, ◌↔◌, ◌++◌, length, take, drop, slice_get, option_map, None, Some, IfErr, IfOk, IfSome, IsNone};
ghost use Rattle.std.specs.Option.{option_to_list};
ghost use Rattle.composables.specs.Joined.{frames_in};
ghost use Rattle.composables.specs.Places.{StandsAt, StandsBehind};
ghost use Rattle.composables.specs.Ranges.{range_from, HasNumber};

use crate::{ItemView, Place};
use frame_meaning::same_item;
use item_pages::{Pages, Passed, Reader, Wanted};
use std::sync::ledger::Ledger;
use step_count::Steps;

/// The place of the item or gap that holds the record frame `at`, or `None` where they end before it.
pub fn find_place<L: Ledger>(
    items: &Pages<ItemView>,
    at: u32,
    steps: &mut Steps<L>,
) -> Option<Place>
    ensures found { IfSome result (λ p. StandsAt items.now p) }
    ensures holds { IfSome result (λ p. (p.from ≤ at) × (at < p.to)) }
    ensures none { IsNone result ↔ (frames_in items.now ≤ at) }
    ensures least { steps.old + 1 ≤ steps.new }
    ensures look { steps.new ≤ steps.old + length items.now / 32 + 65 }
    ensures most { steps.new ≤ steps.old + length items.now + 64 }
{
    let _ = items.total(); // its clause says that they fit
    let found = items.find(at, steps)?;
    let view = view_at(items, found.index);
    Some(Place {
        index: found.index,
        from: found.from,
        to: found.from + view.len,
    })
}

/// The place of the item with this number, or `None` where no item has it.
pub fn find_item<L: Ledger>(
    items: &Pages<ItemView>,
    item: u32,
    steps: &mut Steps<L>,
) -> Option<Place>
    ensures found { IfSome result (λ p. StandsAt items.now p) }
    ensures number { IfSome result (λ p. HasNumber items.now p.index item) }
    ensures range { range_from 0 items.now item ≡ option_map (λ p. (p.from, p.to)) result }
    ensures least { steps.old ≤ steps.new }
    ensures most { steps.new ≤ steps.old + length items.now }
{
    let _ = items.total(); // its clause says that they fit
    let mut left = items.items_from(0);
    let mut index = 0;
    let mut from = 0;
    loop {
        let passed = pass_others(&mut left, item);
        index += passed.count;
        from += passed.places;
        let piece = left.next_piece();
        if piece.is_empty() {
            return None;
        }
        match find_in(piece, item, index, from, steps) {
            Ok(place) => return Some(place),
            Err(to) => from = to,
        }
        index += piece.len() as u32;
    }
}

// Passes by pages that have no item with this number.
fn pass_others(left: &mut Reader<'_, ItemView>, item: u32) -> Passed
    ensures within { result.count ≤ length left.old }
    ensures left { left.new ≡ drop result.count left.old }
    ensures frames { result.places ≡ frames_in (take result.count left.old) }
    ensures range { (x : ℕ) → range_from (x + result.places) left.new item
        ≡ range_from x left.old item }
{
    left.pass(Wanted::Numbered(item))
}

// The place of the item with this number among these, of which the first has this index and begins at this frame, or
// the frame at which they end.
fn find_in<L: Ledger>(
    items: &[ItemView],
    item: u32,
    index: u32,
    from: u32,
    steps: &mut Steps<L>,
) -> Result<Place, u32>
    requires frames { from + frames_in items.now < 2 ^ 32 }
    requires count { index + length items.now < 2 ^ 32 }
    ensures found { IfOk result (λ p. StandsBehind items.now index from p) }
    ensures number { IfOk result (λ p. HasNumber items.now (p.index - index) item) }
    ensures range { IfOk result (λ p. range_from from items.now item ≡ Some (p.from, p.to)) }
    ensures none { IfErr result (λ to. range_from from items.now item ≡ None) }
    ensures past { IfErr result (λ to. to ≡ from + frames_in items.now) }
    ensures least { steps.old ≤ steps.new }
    ensures most { steps.new ≤ steps.old + length items.now }
{
    let mut from = from;
    for (passed, view) in items.iter().enumerate() {
        steps.tick();
        let to = from + view.len;
        if same_item(view.item, Some(item)) {
            return Ok(Place {
                index: index + passed as u32,
                from,
                to,
            });
        }
        from = to;
    }
    Err(from)
}

/// The item or gap with this index.
pub fn view_at(items: &Pages<ItemView>, index: u32) -> ItemView
    requires { index < length items.now }
    ensures { slice_get items.now index ≡ Some result }
{
    match items.get(index) {
        Some(view) => *view,
        None => unreachable!(),
    }
}

/// The last item or gap before an index, or `None` where there is none.
pub fn last_before(items: &Pages<ItemView>, index: u32) -> Option<ItemView>
    requires { index ≤ length items.now }
    ensures parts { take index items.now
        ≡ take (index - 1) items.now ++ option_to_list result }
    ensures none { IsNone result → index ≡ 0 }
{
    if index == 0 {
        return None;
    }
    items.get(index - 1).copied()
}

/// The first item or gap from an index on, or `None` where there is none.
pub fn first_from(items: &Pages<ItemView>, index: u32) -> Option<ItemView>
    ensures parts { drop index items.now
        ≡ option_to_list result ++ drop (index + 1) items.now }
    ensures none { IsNone result ↔ length items.now ≤ index }
{
    items.get(index).copied()
}
