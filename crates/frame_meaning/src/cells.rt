// The cells of a track, one for each frame, with what each belongs to.
ghost use Rattle.std.specs.Prelude.{◌≡◌};
ghost use Rattle.frame_meaning.specs.Cells.{same_number};

use crate::Side;

/// What a picture is of, by its number in the room's table.
#[derive(Clone, Copy, Debug, PartialEq, Eq)]
pub enum What {
    /// A media entry: a reel and a range of its source frames.
    Media(u32),
    /// A nest: a stack of layers that is cut in as one item.
    Nest(u32),
}

/// A dissolve at a cut: it begins `a` frames before the cut and ends `b` frames after it, in record frames. This
/// is OpenTimelineIO's transition, whose `in_offset` is `a` and whose `out_offset` is `b`.
#[derive(Clone, Copy, Debug, PartialEq, Eq)]
pub struct Mark {
    pub a: u32,
    pub b: u32,
}

/// What ties items on several tracks together, as a picture to its sound: a number of a home track, and the set
/// of tracks on which the link has items, bit t for track t.
#[derive(Clone, Copy, Debug, PartialEq, Eq)]
pub struct Link {
    pub home: u32,
    pub number: u32,
    pub tracks: u32,
}

/// One frame of a track: the item it belongs to, what it shows, the dissolve at the cut before it, and the link of
/// its item. A dark cell belongs to no item.
#[derive(Clone, Copy, Debug, PartialEq, Eq)]
pub struct Cell {
    pub item: Option<u32>,
    pub side: Side<What>,
    pub mark: Option<Mark>,
    pub link: Option<Link>,
}

/// Whether two item numbers are one, or both are those of gaps.
pub fn same_item(first: Option<u32>, second: Option<u32>) -> bool
    ensures { result ≡ same_number first second }
{
    match (first, second) {
        (None, None) => true,
        (Some(i), Some(j)) => i == j,
        _ => false,
    }
}
