// How far what an item or gap shows goes on and reaches back in the range of its thing, and the frames by which it does.
ghost use Rattle.std.specs.Prelude.{◌≡◌, ◌-◌, ◌<◌};
ghost use Rattle.frame_meaning.specs.Cells.{later_side};
ghost use Rattle.frame_meaning.specs.Numbered.{SideIsNumbered};
ghost use Rattle.composables.specs.Good.{SideLiesIn};
ghost use Rattle.composables.specs.Items.{cell_in};
ghost use Rattle.composables.specs.TrackFacts.{HasSource};
ghost use Rattle.edit_delta.specs.Nearest.{AreUpTo};
ghost use Rattle.edit_delta.specs.Reaching.{going_on, has_after, has_before, reaching_back};
ghost use Rattle.composables.specs.Views.{earlier_side};

use composables::{ItemView, Table};
use frame_meaning::{Side, What};

/// How many source frames its thing has after those of an item; for a gap as many as there are numbers.
pub fn frames_after(table: &Table, view: &ItemView) -> u32
    requires filled { 0 < view.now.len }
    requires lies { SideLiesIn table.now view.now.first view.now.len 0 0 }
    requires source { HasSource view.now.first view.now.len 0 0 }
    ensures reach { AreUpTo
        (has_after table.now (later_side view.now.first (view.now.len - 1))) result }
    ensures numbered { HasSource view.now.first view.now.len 0 result }
{
    match view.first {
        Side::Dark => u32::MAX,
        Side::Pic { what, source } => match table.bounds(what) {
            Some((_, to)) => to - source - view.len,
            None => unreachable!(),
        },
    }
}

/// How many source frames its thing has before those of an item; for a gap as many as there are numbers.
pub fn frames_before(table: &Table, view: &ItemView) -> u32
    requires lies { SideLiesIn table.now view.now.first view.now.len 0 0 }
    ensures reach { AreUpTo (has_before table.now view.now.first) result }
{
    match view.first {
        Side::Dark => u32::MAX,
        Side::Pic { what, source } => match table.bounds(what) {
            Some((from, _)) => source - from,
            None => unreachable!(),
        },
    }
}

/// The frames by which an item or gap goes on after its last.
pub fn going_on(view: &ItemView, len: u32) -> ItemView
    requires filled { 0 < view.now.len }
    requires source { SideIsNumbered (later_side view.now.first view.now.len) }
    ensures { result ≡ going_on (cell_in view.now (view.now.len - 1)) len }
{
    ItemView {
        item: view.item,
        first: view.first.later(view.len),
        len,
        mark: None,
        link: view.link,
    }
}

/// The frames by which an item or gap reaches back before its first.
pub fn reaching_back(view: &ItemView, len: u32) -> ItemView
    requires source { HasSource view.now.first 0 len 0 }
    ensures { result ≡ reaching_back (cell_in view.now 0) len }
{
    ItemView {
        item: view.item,
        first: earlier(view.first, len),
        len,
        mark: None,
        link: view.link,
    }
}

// The side so many source frames earlier; dark stays dark.
fn earlier(side: Side<What>, len: u32) -> Side<What>
    requires { HasSource side 0 len 0 }
    ensures { result ≡ earlier_side side len }
{
    match side {
        Side::Dark => Side::Dark,
        Side::Pic { what, source } => Side::Pic {
            what,
            source: source - len,
        },
    }
}
