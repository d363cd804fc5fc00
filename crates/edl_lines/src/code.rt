// What a line can have wrong.

/// What a line has wrong. Of several, the first in the order that `specs/EventLines.antt` tells, then P9, then P10. These
/// two are of a line among others, and no line has them by itself.
#[derive(Clone, Copy, Debug, PartialEq, Eq)]
pub enum LineCode {
    /// Layout: the line has over 1,024 bytes, or not eight words with `C` and not nine with `D`, or its reel is not 1 to 32
    /// bytes of printable ASCII, or the length of its dissolve is not one to three digits.
    P1,
    /// The first word is not a number of one to six digits.
    P2,
    /// A timecode is not spelled as one, or is no label of the counting.
    P3,
    /// An out is before its in, the source and record lengths differ, or a dissolve has no frame or more than its event.
    P4,
    /// A wipe.
    P5,
    /// A key.
    P6,
    /// A change of speed: `M2`.
    P7,
    /// The channel is none of `V`, `A`, `A2`, `B`, `AA`, `A2/V` and `AA/V`.
    P8,
    /// A dissolve without its cut of zero length before it, or such a cut without its dissolve, told at the cut's line.
    P9,
    /// The event overlaps with an earlier one on one channel.
    P10,
    /// The number is over 999.
    P11,
    /// Words after `FCM:` that set no counting of the rate.
    P12,
}
