// Items and gaps put one after another. What belongs together and meets becomes one.
ghost use Rattle.std.specs.Prelude.{◌≡◌, ◌+◌, ◌<◌, ◌≤◌, ◌^◌, ◌++◌, length, IfOk, OnOk, OnErr};
ghost use Rattle.std.specs.Option.{option_to_list};
ghost use Rattle.composables.specs.Joined.{frames_in, joined, push_view, push_views};

use crate::places::view_at;
use crate::{ItemView, Memory};
use frame_meaning::same_item;
use item_pages::Pages;
use std::alloc::Global;
use std::sync::ledger::Ledger;
use step_count::Steps;

/// Puts an item or gap after others. Two gaps that meet become one, and so do two parts of one item.
pub fn push_item(items: &mut Pages<ItemView>, view: ItemView) -> Result<(), Memory>
    requires frames { frames_in items.old + view.len < 2 ^ 32 }
    requires count { length items.old + 1 < 2 ^ 32 }
    ensures ok { OnOk result (items.new ≡ push_view items.old view) }
    ensures err { OnErr result (items.new ≡ items.old) }
{
    let count = items.count();
    if count > 0 {
        let last = view_at(items, count - 1);
        if same_item(last.item, view.item) {
            let len = last.len + view.len;
            return items.set_last(ItemView { len, ..last });
        }
    }
    items.push(view)
}

/// These items and gaps joined, with the one before them and the one after, if there are any.
/// Only those between count steps.
pub fn lay_between<L: Ledger>(
    alloc: Global,
    before: Option<ItemView>,
    middle: &[ItemView],
    behind: Option<ItemView>,
    steps: &mut Steps<L>,
) -> Result<Vec<ItemView>, Memory>
    requires { frames_in (option_to_list before)
        + frames_in middle.now + frames_in (option_to_list behind) < 2 ^ 32 }
    ensures joined { IfOk result (λ laid. laid.items
        ≡ joined (option_to_list before ++ middle.now ++ option_to_list behind)) }
    ensures least { steps.old ≤ steps.new }
    ensures most { steps.new ≤ steps.old + length middle.now }
{
    let mut laid = Vec::with_capacity(alloc, middle.len().saturating_add(2))?;
    push_some(&mut laid, before)?;
    for view in middle {
        steps.tick();
        push_joined(&mut laid, *view)?;
    }
    push_some(&mut laid, behind)?;
    Ok(laid)
}

// Puts an item or gap, if there is one, after those that are laid.
fn push_some(laid: &mut Vec<ItemView>, view: Option<ItemView>) -> Result<(), Memory>
    requires { frames_in laid.old.items + frames_in (option_to_list view) < 2 ^ 32 }
    ensures { OnOk result (laid.new.items ≡ push_views laid.old.items (option_to_list view)) }
{
    match view {
        Some(view) => push_joined(laid, view),
        None => Ok(()),
    }
}

// Puts an item or gap after those that are laid. Two gaps that meet become one, and so do two parts of one item.
fn push_joined(laid: &mut Vec<ItemView>, view: ItemView) -> Result<(), Memory>
    requires { frames_in laid.old.items + view.len < 2 ^ 32 }
    ensures { OnOk result (laid.new.items ≡ push_view laid.old.items view) }
{
    let count = laid.len();
    if count > 0 && same_item(laid[count - 1].item, view.item) {
        laid[count - 1].len += view.len;
        return Ok(());
    }
    laid.push(view)?;
    Ok(())
}
