// The edits frame by frame: a plain program to compare with. Its new items show media 0 from 500 on.
ghost use Rattle.std.specs.Prelude.{◌≤◌};

use crate::edits::Edit;
use composables::Memory;
use frame_meaning::{Cell, Mark, Side, What};
use std::alloc::Global;

// What stands in place of the places [x, y), the number of the later part of an item that is split, and whether
// dissolves are kept as far as there is room for them.
#[derive(Clone, Copy)]
struct Change {
    x: usize,
    y: usize,
    number: Option<u32>,
    len: usize,
    fresh: u32,
    keep: bool,
}

/// The cells after an edit of a track of these, whose next item number this is.
pub fn plainly(
    alloc: Global,
    cells: &[Cell],
    edit: Edit,
    keep: bool,
    next: u32,
) -> Result<Vec<Cell>, Memory> {
    let change = change_of(cells, edit, next);
    changed(alloc, cells, Change { keep, ..change })
}

/// The cells of another track of these, whose next item number this is, after an edit of a track of those which moves
/// what is after it: as many dark frames as the edit puts in, as far as the track has its places.
pub fn plainly_beside(
    alloc: Global,
    own: &[Cell],
    cells: &[Cell],
    edit: Edit,
    keep: bool,
    next: u32,
) -> Result<Vec<Cell>, Memory> {
    let moved = change_of(own, edit, next);
    let change = Change {
        x: moved.x.min(cells.len()),
        y: moved.y.min(cells.len()),
        number: None,
        len: if moved.x < cells.len() { moved.len } else { 0 },
        fresh: next,
        keep,
    };
    changed(alloc, cells, change)
}

// What an edit changes of a track with these cells.
fn change_of(cells: &[Cell], edit: Edit, next: u32) -> Change {
    match edit {
        Edit::Over(at, len) => {
            let at = at as usize;
            new_item(at, at.saturating_add(len as usize), len as usize, next)
        }
        Edit::Put(at, len) => new_item(at as usize, at as usize, len as usize, next),
        Edit::Out(item) => {
            let (x, y) = range(cells, Some(item));
            in_place(x, y, y - x, next)
        }
        Edit::Take(item) => {
            let (x, y) = range(cells, Some(item));
            in_place(x, y, 0, next)
        }
        Edit::Cut(at) => in_place(at as usize, at as usize, 0, next),
        // there is one gap
        Edit::Fill(_, len) => {
            let (g, h) = range(cells, None);
            let some = (h - g).min(len as usize);
            new_item(g, g.saturating_add(some), some, next)
        }
        Edit::FillAll(_) => {
            let (g, h) = range(cells, None);
            new_item(g, h, h - g, next)
        }
    }
}

// A new item.
fn new_item(x: usize, y: usize, len: usize, next: u32) -> Change {
    Change {
        x,
        y,
        number: Some(next),
        len,
        fresh: next.saturating_add(1),
        keep: false,
    }
}

// Dark frames, or none.
fn in_place(x: usize, y: usize, len: usize, fresh: u32) -> Change {
    Change {
        x,
        y,
        number: None,
        len,
        fresh,
        keep: false,
    }
}

// The places of an item, or of what has none.
fn range(cells: &[Cell], item: Option<u32>) -> (usize, usize)
    ensures { result.0 ≤ result.1 }
{
    let x = cells.iter().position(|cell| cell.item == item).unwrap_or(0);
    let len = cells.iter().filter(|cell| cell.item == item).count();
    (x, x.saturating_add(len))
}

fn dark() -> Cell {
    Cell {
        item: None,
        side: Side::Dark,
        mark: None,
        link: None,
    }
}

// The cells after a change: dark frames up to it where there are fewer; those before it, those that it puts in, and
// those after it.
fn changed(alloc: Global, cells: &[Cell], change: Change) -> Result<Vec<Cell>, Memory> {
    let mut after = Vec::new(alloc);
    for place in 0..change.x {
        after.push(before(cells, change, place))?;
    }
    for k in 0..change.len {
        after.push(put(change, k))?;
    }
    for place in change.y..cells.len() {
        after.push(behind(cells, change, place))?;
    }
    Ok(after)
}

// The cell at a place before the range, dark past the track's end.
fn before(cells: &[Cell], change: Change, place: usize) -> Cell {
    let cell = cells.get(place).copied().unwrap_or(dark());
    Cell {
        mark: left_before(change, place, cell.mark),
        ..cell
    }
}

// A dissolve at a place before the range stays where it ends by the range, or is shortened to end there.
fn left_before(change: Change, place: usize, mark: Option<Mark>) -> Option<Mark> {
    let mark = mark?;
    let room = change.x.saturating_sub(place);
    if mark.b as usize <= room {
        Some(mark)
    } else if change.keep {
        Some(Mark {
            b: u32::try_from(room).unwrap_or(mark.b),
            ..mark
        })
    } else {
        None
    }
}

// The k-th cell that a change puts in.
fn put(change: Change, k: usize) -> Cell {
    let shown = Side::Pic {
        what: What::Media(0),
        source: u32::try_from(k).unwrap_or(0).saturating_add(500),
    };
    Cell {
        item: change.number,
        side: if change.number.is_some() {
            shown
        } else {
            Side::Dark
        },
        ..dark()
    }
}

// The cell at a place after the range, with the fresh number where its item was cut in two.
fn behind(cells: &[Cell], change: Change, place: usize) -> Cell {
    let cell = cells.get(place).copied().unwrap_or(dark());
    let split = cell.item.is_some() && cell.item == item_before(cells, change.x);
    Cell {
        item: if split { Some(change.fresh) } else { cell.item },
        mark: left_behind(change, place, cell.mark),
        ..cell
    }
}

// One after the range stays where it begins at its end or later, or is shortened to begin there; one at its end goes.
fn left_behind(change: Change, place: usize, mark: Option<Mark>) -> Option<Mark> {
    let mark = mark?;
    let room = place.saturating_sub(change.y);
    if room == 0 {
        None
    } else if mark.a as usize <= room {
        Some(mark)
    } else if change.keep {
        Some(Mark {
            a: u32::try_from(room).unwrap_or(mark.a),
            ..mark
        })
    } else {
        None
    }
}

// The item of the cell before a place, if there is one.
fn item_before(cells: &[Cell], place: usize) -> Option<u32> {
    if place == 0 {
        return None;
    }
    match cells.get(place - 1) {
        Some(cell) => cell.item,
        None => None,
    }
}
