// Roll and slide frame by frame: a plain program to compare with.
use composables::Memory;
use frame_meaning::{Cell, Mark, Side, What};
use std::alloc::Global;

// The source frames of a media of the tests, from one up to before another.
fn frames_of(what: What) -> (i64, i64) {
    match what {
        What::Media(0) => (8, 60),
        _ => (0, 86_400),
    }
}

/// Whether an item or gap ends before this place and another begins there.
pub fn is_cut(cells: &[Cell], place: i64) -> bool {
    place > 0 && place < cells.len() as i64 && !belong_together(cells, place - 1, place)
}

/// The places of an item, from one up to before another; the same twice where there is no such item.
pub fn range(cells: &[Cell], item: u32) -> (i64, i64) {
    let x = cells
        .iter()
        .position(|cell| cell.item == Some(item))
        .unwrap_or(0);
    let len = cells.iter().filter(|cell| cell.item == Some(item)).count();
    (x as i64, (x as i64).saturating_add(len as i64))
}

// The cell at a place, dark where the track has none.
fn cell_at(cells: &[Cell], place: i64) -> Cell {
    let cell = match usize::try_from(place) {
        Ok(place) => cells.get(place).copied(),
        Err(_) => None,
    };
    cell.unwrap_or(Cell {
        item: None,
        side: Side::Dark,
        mark: None,
        link: None,
    })
}

// Whether the cells at two places are of one item, or both dark.
fn belong_together(cells: &[Cell], left: i64, right: i64) -> bool {
    cell_at(cells, left).item == cell_at(cells, right).item
}

// Whether places are of one item or gap.
fn are_of_one(cells: &[Cell], from: i64, to: i64) -> bool {
    if from < 0 || cells.len() as i64 <= to {
        return false;
    }
    for place in from..to {
        if is_cut(cells, place.saturating_add(1)) {
            return false;
        }
    }
    true
}

// The side by so many frames later, or earlier for a negative number, if its thing has that frame.
fn moved_side(side: Side<What>, by: i64) -> Option<Side<What>> {
    match side {
        Side::Dark => Some(Side::Dark),
        Side::Pic { what, source } => {
            let (from, to) = frames_of(what);
            let moved = i64::from(source).saturating_add(by);
            if moved < from || to <= moved {
                return None;
            }
            match u32::try_from(moved) {
                Ok(source) => Some(Side::Pic { what, source }),
                Err(_) => None,
            }
        }
    }
}

// Whether what stands on [x, y) may move so far: the item or gap that it comes near keeps a frame, and the one that it
// leaves has the frames by which it grows.
fn may_move(cells: &[Cell], x: i64, y: i64, by: i64) -> bool {
    if x <= 0 || cells.len() as i64 <= y {
        return false;
    }
    if by > 0 {
        are_of_one(cells, y, y.saturating_add(by))
            && moved_side(cell_at(cells, x - 1).side, by) != None
    } else {
        are_of_one(cells, (x - 1).saturating_add(by), x - 1)
            && moved_side(cell_at(cells, y).side, by) != None
    }
}

/// The delta used of the one asked for: the allowed one that is nearest to it, with none between.
pub fn used(cells: &[Cell], x: i64, y: i64, by: i64) -> i64 {
    let mut nearest = 0;
    for frames in 1..31 {
        let (delta, asked) = if by < 0 {
            (
                0i64.saturating_sub(frames),
                by <= 0i64.saturating_sub(frames),
            )
        } else {
            (frames, frames <= by)
        };
        if asked && may_move(cells, x, y, delta) {
            nearest = delta;
        }
    }
    nearest
}

// What stands at a place after what stood on [x, y) has moved so far.
fn moved_cell(cells: &[Cell], x: i64, y: i64, by: i64, place: i64) -> Cell {
    let to = x.saturating_add(by);
    let end = y.saturating_add(by);
    if place >= to && place < end {
        return bare(cell_at(cells, place.saturating_sub(by)));
    }
    if place >= x && place < to {
        let left = x.saturating_sub(1);
        return grown(cell_at(cells, left), place.saturating_sub(left));
    }
    if place >= end && place < y {
        return grown(cell_at(cells, y), place.saturating_sub(y));
    }
    kept(cell_at(cells, place), place, x.min(to), y.max(end))
}

// A cell without its dissolve.
fn bare(cell: Cell) -> Cell {
    Cell { mark: None, ..cell }
}

// The cell that goes on so many frames from another, or reaches back from it.
fn grown(cell: Cell, by: i64) -> Cell {
    Cell {
        side: moved_side(cell.side, by).unwrap_or(cell.side),
        ..bare(cell)
    }
}

// A cell outside of the places [from, to) that change: its dissolve stays where it does not reach there.
fn kept(cell: Cell, place: i64, from: i64, to: i64) -> Cell {
    let stays = |mark: &Mark| {
        (place < from && place.saturating_add(i64::from(mark.b)) <= from)
            || (place > to && place.saturating_sub(i64::from(mark.a)) >= to)
    };
    Cell {
        mark: cell.mark.filter(stays),
        ..cell
    }
}

/// The cells after what stood on [x, y) has moved so far.
pub fn moved(alloc: Global, cells: &[Cell], x: i64, y: i64, by: i64) -> Result<Vec<Cell>, Memory> {
    let mut after = Vec::new(alloc);
    for place in 0..cells.len() {
        after.push(if by == 0 {
            cell_at(cells, place as i64)
        } else {
            moved_cell(cells, x, y, by, place as i64)
        })?;
    }
    Ok(after)
}
