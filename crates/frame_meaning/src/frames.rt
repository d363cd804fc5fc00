// What a frame shows, and which frame goes on from which.
ghost use Rattle.std.specs.Prelude.{◌≡◌};
ghost use Rattle.frame_meaning.specs.Going.{frame_goes_on, side_goes_on};
ghost use Rattle.frame_meaning.specs.Cells.{later_side};
ghost use Rattle.frame_meaning.specs.Numbered.{SideIsNumbered};

/// One of the two pictures of a mix, or all of a frame that is no mix: nothing, or a thing and its source frame.
#[derive(Clone, Copy, Debug, PartialEq, Eq)]
pub enum Side<W> {
    Dark,
    Pic { what: W, source: u32 },
}

impl<W> Side<W> {
    /// What it shows `n` frames later, where its source frame is then a number of the program.
    pub fn later(self, n: u32) -> Side<W>
        requires { SideIsNumbered (later_side self n) }
        ensures { result ≡ later_side self n }
    {
        match self {
            Side::Dark => Side::Dark,
            Side::Pic { what, source } => Side::Pic {
                what,
                source: source + n,
            },
        }
    }
}

/// What is shown at a place: nothing, one picture, or a mix in which `right` has the weight `num` of `den`.
#[derive(Clone, Copy, Debug, PartialEq, Eq)]
pub enum Frame<W> {
    Dark,
    Pic {
        what: W,
        source: u32,
    },
    Mix {
        left: Side<W>,
        right: Side<W>,
        num: u32,
        den: u32,
    },
}

/// A frame, and how many frames there are from it on that each go on from the one before.
#[derive(Clone, Copy, Debug, PartialEq, Eq)]
pub struct Run<W> {
    pub frame: Frame<W>,
    pub len: u32,
}

// Whether a side goes on from the one before: dark after dark, or one thing with the next source frame.
fn side_follows<W: Copy + Eq>(before: &Side<W>, after: &Side<W>) -> bool
    ensures { result ≡ side_goes_on W.eq before.now after.now }
{
    match (before, after) {
        (Side::Dark, Side::Dark) => true,
        (
            Side::Pic {
                what: thing,
                source: at,
            },
            Side::Pic { what, source },
        ) => thing == what && u64::from(*source) == u64::from(*at) + 1,
        _ => false,
    }
}

/// Whether a frame goes on from the one before: dark after dark, one thing with the next source frame, or a mix
/// whose two sides go on, with one `den` and the next `num`.
pub fn goes_on<W: Copy + Eq>(before: &Frame<W>, after: &Frame<W>) -> bool
    ensures { result ≡ frame_goes_on W.eq before.now after.now }
{
    match (before, after) {
        (Frame::Dark, Frame::Dark) => true,
        (
            Frame::Pic {
                what: thing,
                source: at,
            },
            Frame::Pic { what, source },
        ) => thing == what && u64::from(*source) == u64::from(*at) + 1,
        (
            Frame::Mix {
                left,
                right,
                num,
                den,
            },
            Frame::Mix {
                left: left_after,
                right: right_after,
                num: num_after,
                den: den_after,
            },
        ) => {
            side_follows(left, left_after)
                && side_follows(right, right_after)
                && den == den_after
                && u64::from(*num_after) == u64::from(*num) + 1
        }
        _ => false,
    }
}
