// What an edit answers.
use out_of_memory::Fault;

/// A side of a cut.
#[derive(Clone, Copy, Debug, PartialEq, Eq)]
pub enum Which {
    Left,
    Right,
}

/// Why an edit is refused. The first that holds, in this order, is answered, and nothing has changed.
#[derive(Clone, Copy, Debug, PartialEq, Eq)]
pub enum Refusal {
    /// A named track is not in the room, or the call's own track is not among the named ones; carries the track.
    NoTrack(u32),
    /// An item named is not on its track, or the place of a slice is past its end.
    NoItem,
    /// The thing is not in the table, or is a nest while the track is audio.
    NoMedia,
    /// No frames are asked for.
    EmptyRange,
    /// The source frames asked for are not in the thing's range.
    MediaEnds,
    /// There is no gap at the place.
    NotAGap(u32),
    /// There is no cut, or no dissolve, at the place.
    NotACut(u32),
    /// A side of the cut has no room for the dissolve.
    DissolveRoom(Which),
    /// The offsets (record place less source frame) of the first item and of the first that differs.
    OffsetsDiffer(i64, i64),
    /// An item has a link already.
    AlreadyLinked {
        track: u32,
        item: u32,
    },
    /// A link has a track that is not named.
    LinkOutside {
        home: u32,
        number: u32,
        track: u32,
    },
    /// Linked items would get different offsets: the offset before and after.
    LinkBroken {
        home: u32,
        number: u32,
        old: i64,
        new: i64,
    },
    /// A track would have more than 2,592,000 frames; carries the track.
    TooLong(u32),
    /// A track would have more than 65,536 items and gaps; carries the track.
    TooManyItems(u32),
}

/// Why an edit is not done: it is refused, or there was no memory; nothing has changed.
pub type EditFault = Fault<Refusal>;

/// What an edit answers when it is done: nothing more, the number of the new item, the delta used, or the new link.
#[derive(Clone, Copy, Debug, PartialEq, Eq)]
pub enum Done {
    Plain,
    Item(u32),
    By(i32),
    Linked { home: u32, number: u32 },
}
