// The cells of items and gaps, one for each frame.
ghost use Rattle.std.specs.Prelude.{◌≡◌, ◌<◌, ◌++◌, IfOk, OnOk};
ghost use Rattle.composables.specs.Items.{cell_in, cells_of, view_cells};
ghost use Rattle.composables.specs.TrackFacts.{EachHolds, HasSource};

use crate::{ItemView, Memory};
use frame_meaning::Cell;
use std::alloc::Global;

/// The cells of these items and gaps, in order.
pub fn cells_in(alloc: Global, items: &[ItemView]) -> Result<Vec<Cell>, Memory>
    requires { EachHolds items.now }
    ensures { IfOk result (λ all. all.items ≡ cells_of items.now) }
{
    let mut all = Vec::new(alloc);
    for view in items {
        push_cells(&mut all, view)?;
    }
    Ok(all)
}

// Adds the cells of an item or gap.
fn push_cells(into: &mut Vec<Cell>, view: &ItemView) -> Result<(), Memory>
    requires { HasSource view.now.first view.now.len 0 0 }
    ensures { OnOk result (into.new.items ≡ into.old.items ++ view_cells view.now) }
{
    for k in 0..view.len {
        into.push(cell_of(view, k))?;
    }
    Ok(())
}

// The cell of frame `k` of an item or gap. The first alone has the dissolve at the cut before it.
fn cell_of(view: &ItemView, k: u32) -> Cell
    requires within { k < view.now.len }
    requires source { HasSource view.now.first view.now.len 0 0 }
    ensures { result ≡ cell_in view.now k }
{
    Cell {
        item: view.item,
        side: view.first.later(k),
        mark: if k == 0 { view.mark } else { None },
        link: view.link,
    }
}
