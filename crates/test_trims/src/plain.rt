// Trim, slip and ripple frame by frame: a plain program to compare with.
use composables::{End, MAX_FRAMES, Memory};
use frame_meaning::{Cell, Side, What};
use std::alloc::Global;

/// The source frames of a media of the tests, from one up to before another.
pub fn frames_of(what: What) -> (i64, i64) {
    match what {
        What::Media(0) => (8, 20),
        What::Media(1) => (0, 30),
        _ => (7, 18),
    }
}

fn dark() -> Cell {
    Cell {
        item: None,
        side: Side::Dark,
        mark: None,
        link: None,
    }
}

// The cell at a place, dark where the track has none.
fn cell_at(cells: &[Cell], place: i64) -> Cell {
    let cell = match usize::try_from(place) {
        Ok(place) => cells.get(place).copied(),
        Err(_) => None,
    };
    cell.unwrap_or(dark())
}

/// The places of an item, from one up to before another; the same twice where there is no such item.
pub fn range(cells: &[Cell], item: u32) -> (i64, i64) {
    let x = cells
        .iter()
        .position(|cell| cell.item == Some(item))
        .unwrap_or(0);
    let len = cells.iter().filter(|cell| cell.item == Some(item)).count();
    (x as i64, (x as i64).saturating_add(len as i64))
}

// The side by so many frames later, or earlier for a negative number, if its thing has that frame.
fn moved_side(side: Side<What>, by: i64) -> Option<Side<What>> {
    match side {
        Side::Dark => Some(Side::Dark),
        Side::Pic { what, source } => {
            let (from, to) = frames_of(what);
            let moved = i64::from(source).saturating_add(by);
            if moved < from || to <= moved {
                return None;
            }
            match u32::try_from(moved) {
                Ok(source) => Some(Side::Pic { what, source }),
                Err(_) => None,
            }
        }
    }
}

// The end of an item's places once it is moved.
fn ends(x: i64, y: i64, end: End, by: i64) -> (i64, i64) {
    match end {
        End::Head => (x.saturating_add(by), y),
        End::Tail => (x, y.saturating_add(by)),
    }
}

// Whether an item on [x, y) may have the places [from, to): some, those that it gets are dark, and its thing has them.
fn may_have(cells: &[Cell], x: i64, y: i64, from: i64, to: i64) -> bool {
    if from < 0 || to <= from || i64::from(MAX_FRAMES) < to {
        return false;
    }
    for place in from..to {
        let inside = x <= place && place < y;
        if !inside && cell_at(cells, place).item != None {
            return false;
        }
        if moved_side(cell_at(cells, x).side, place.saturating_sub(x)) == None {
            return false;
        }
    }
    true
}

/// The delta used of the one asked for by a trim of the item on [x, y).
pub fn trim_used(cells: &[Cell], x: i64, y: i64, end: End, by: i64) -> i64 {
    let mut nearest = 0;
    for frames in 1..40 {
        let delta = if by < 0 {
            0i64.saturating_sub(frames)
        } else {
            frames
        };
        let (from, to) = ends(x, y, end, delta);
        if frames <= by.saturating_abs() && may_have(cells, x, y, from, to) {
            nearest = delta;
        }
    }
    nearest
}

// A cell outside of the places [from, to) that change: its dissolve stays where it does not reach there.
fn kept(cell: Cell, place: i64, from: i64, to: i64) -> Cell {
    let Some(mark) = cell.mark else {
        return cell;
    };
    let before = place < from && place.saturating_add(i64::from(mark.b)) <= from;
    let behind = place > to && place.saturating_sub(i64::from(mark.a)) >= to;
    if before || behind {
        cell
    } else {
        Cell { mark: None, ..cell }
    }
}

// What stands at a place once the item on [x, y) has the places [from, to).
fn trimmed_cell(cells: &[Cell], x: i64, y: i64, from: i64, to: i64, place: i64) -> Cell {
    let (low, high) = if from == x {
        (to.min(y), to.max(y))
    } else {
        (from.min(x), from.max(x))
    };
    let old = kept(cell_at(cells, place), place, low, high);
    let within = from <= place && place < to;
    let before = x <= place && place < y;
    if within && !before {
        let first = cell_at(cells, x);
        let side = moved_side(first.side, place.saturating_sub(x)).unwrap_or(first.side);
        return Cell {
            side,
            mark: None,
            ..first
        };
    }
    if before && !within {
        return dark();
    }
    old
}

/// The cells after an end of the item on [x, y) has moved so far.
pub fn trimmed(
    alloc: Global,
    cells: &[Cell],
    x: i64,
    y: i64,
    end: End,
    by: i64,
) -> Result<Vec<Cell>, Memory> {
    if by == 0 {
        return Ok(Vec::from_slice(alloc, cells)?);
    }
    let (from, to) = ends(x, y, end, by);
    let mut after = Vec::new(alloc);
    for place in 0..(cells.len() as i64).max(to) {
        after.push(trimmed_cell(cells, x, y, from, to, place))?;
    }
    Ok(after)
}

/// Whether a cell is moved with this one, which is on the same track.
pub fn goes_with(own: &Cell, cell: &Cell) -> bool {
    match own.link {
        Some(_) => cell.link == own.link,
        None => cell.item == own.item,
    }
}

// Whether the cell at a place may show its thing so many frames later, with the dissolves at its two ends.
fn may_show(cells: &[Cell], place: i64, by: i64) -> bool {
    let here = cell_at(cells, place);
    let next = cell_at(cells, place.saturating_add(1));
    let before = match here.mark {
        Some(mark) => i64::from(mark.a),
        None => 0,
    };
    let behind = match next.mark {
        Some(mark) => i64::from(mark.b),
        None => 0,
    };
    moved_side(here.side, by) != None
        && moved_side(here.side, by.saturating_sub(before)) != None
        && moved_side(here.side, by.saturating_add(behind)) != None
}

/// Whether all cells of a track that go with this one may show their things so many frames later.
pub fn may_slip(own: &Cell, cells: &[Cell], by: i64) -> bool {
    for place in 0..cells.len() {
        if goes_with(own, &cell_at(cells, place as i64)) && !may_show(cells, place as i64, by) {
            return false;
        }
    }
    true
}

/// The cells of a track after all that goes with this one shows its thing so many frames later.
pub fn slipped(alloc: Global, own: &Cell, cells: &[Cell], by: i64) -> Result<Vec<Cell>, Memory> {
    let mut after = Vec::new(alloc);
    for cell in cells {
        let side = if goes_with(own, cell) {
            moved_side(cell.side, by).unwrap_or(cell.side)
        } else {
            cell.side
        };
        after.push(Cell { side, ..*cell })?;
    }
    Ok(after)
}

// Whether an end of the item on [x, y) may move so far with all that is after it.
fn may_ripple(cells: &[Cell], x: i64, y: i64, end: End, by: i64) -> bool {
    let (from, to) = ends(x, y, end, by);
    let first = cell_at(cells, x).side;
    let last = to.saturating_sub(x).saturating_sub(1);
    from < to
        && moved_side(first, from.saturating_sub(x)) != None
        && moved_side(first, last) != None
}

/// The delta used of the one asked for by a ripple of the item on [x, y), where no track comes near its limit.
pub fn ripple_used(cells: &[Cell], x: i64, y: i64, end: End, by: i64) -> i64 {
    let mut nearest = 0;
    for frames in 1..40 {
        let delta = if by < 0 {
            0i64.saturating_sub(frames)
        } else {
            frames
        };
        if frames <= by.saturating_abs() && may_ripple(cells, x, y, end, delta) {
            nearest = delta;
        }
    }
    nearest
}

/// The places that a ripple of the item on [x, y) takes out, from one up to before another, and how many come there.
pub fn shift(x: i64, y: i64, end: End, by: i64) -> (i64, i64, i64) {
    let place = match end {
        End::Head => x,
        End::Tail => y,
    };
    let less = match end {
        End::Head => by.max(0),
        End::Tail => 0i64.saturating_sub(by).max(0),
    };
    let more = by.saturating_abs().saturating_sub(less);
    match end {
        End::Head => (place, place.saturating_add(less), more),
        End::Tail => (place.saturating_sub(less), place, more),
    }
}

/// The cells of the own track after an end of the item on [x, y) has moved so far, with all that is after it.
pub fn rippled(
    alloc: Global,
    cells: &[Cell],
    x: i64,
    y: i64,
    end: End,
    by: i64,
) -> Result<Vec<Cell>, Memory> {
    let (from, to, more) = shift(x, y, end, by);
    let first = cell_at(cells, x);
    let start = match end {
        End::Head => by,
        End::Tail => y.saturating_sub(x),
    };
    let mut after = Vec::new(alloc);
    for place in 0..from {
        after.push(kept(cell_at(cells, place), place, from, to))?;
    }
    for frame in 0..more {
        let side = moved_side(first.side, start.saturating_add(frame)).unwrap_or(first.side);
        after.push(Cell {
            side,
            mark: None,
            ..first
        })?;
    }
    for place in to..cells.len() as i64 {
        after.push(kept(cell_at(cells, place), place, from, to))?;
    }
    Ok(after)
}

/// The cells of another track after the same: dark ones come there if it has the place, and the later part of an item
/// that is cut in two gets the number `fresh`.
pub fn shifted(
    alloc: Global,
    cells: &[Cell],
    shift: (i64, i64, i64),
    fresh: u32,
) -> Result<Vec<Cell>, Memory> {
    let len = cells.len() as i64;
    let from = shift.0.min(len);
    let to = shift.1.min(len);
    let more = if shift.0 < len { shift.2 } else { 0 };
    let before = cell_at(cells, from.saturating_sub(1)).item;
    let split = from > 0 && before == cell_at(cells, to).item;
    let mut after = Vec::new(alloc);
    for place in 0..from {
        after.push(kept(cell_at(cells, place), place, from, to))?;
    }
    for _ in 0..more {
        after.push(dark())?;
    }
    for place in to..len {
        let cell = kept(cell_at(cells, place), place, from, to);
        let item = if split && cell.item == before {
            cell.item.map(|_| fresh)
        } else {
            cell.item
        };
        after.push(Cell { item, ..cell })?;
    }
    Ok(after)
}
