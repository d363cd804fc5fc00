// The events of an edit decision list.
ghost use Rattle.std.specs.Prelude.{◌≡◌, ◌+◌, ◌<◌, ◌^◌};
ghost use Rattle.frame_meaning.specs.Cells.{later_side};
ghost use Rattle.frame_meaning.specs.Render.{frame_of};
ghost use Rattle.edl_events.specs.Events.{IsEvent};
ghost use Rattle.edl_events.specs.Tape.{covers, event_frame, side_of};

use crate::Channel;
use frame_meaning::{Frame, Side};
use reel_names::Name;

/// One event of an edit decision list: a cut, or a dissolve with what follows it.
#[derive(Clone, Copy, Debug, PartialEq, Eq)]
pub struct Event {
    /// The line of the list that it stands on, from 1; of a dissolve its second line.
    pub line: u32,
    /// The reel that it shows; of a dissolve the incoming one.
    pub reel: Name,
    /// The outgoing side, where it is a dissolve.
    pub from: Option<FromLine>,
    /// How many frames its dissolve has, and 0 where it is a cut.
    pub frames: u32,
    /// The channels that it is on: bit 0 is V, bit 1 is A, bit 2 is A2.
    pub channels: u8,
    /// The source frame of its reel at its first frame.
    pub source: u32,
    /// The record frame of its first frame: its record in.
    pub place: u32,
    /// How many frames it has, those of its dissolve counted.
    pub len: u32,
}

/// The outgoing side of a dissolve.
#[derive(Clone, Copy, Debug, PartialEq, Eq)]
pub struct FromLine {
    pub reel: Name,
    /// The source frame of the reel at the dissolve's first frame.
    pub source: u32,
}

impl Event {
    /// Whether it is on a channel at a record frame.
    pub fn covers(&self, channel: Channel, frame: u32) -> bool
        requires { IsEvent self.now }
        ensures { result ≡ covers self.now channel frame }
    {
        channel.is_in(self.channels) && self.place <= frame && frame < self.place + self.len
    }

    /// What it shows at one of its frames, counted from 0: a picture, black as dark, or in its dissolve the mix of both
    /// sides, in which frame k of n has the weight (k + 1) / (n + 1).
    pub fn frame_at(&self, k: u32) -> Frame<Name>
        requires event { IsEvent self.now }
        requires within { k < self.now.len }
        ensures { result ≡ event_frame self.now k }
    {
        let incoming = later(&self.reel, self.source, k);
        match &self.from {
            None => alone(&incoming),
            Some(from) => {
                if k >= self.frames {
                    return alone(&incoming);
                }
                Frame::Mix {
                    left: later(&from.reel, from.source, k),
                    right: incoming,
                    num: k + 1,
                    den: self.frames + 1,
                }
            }
        }
    }
}

// What a reel shows some frames after a source frame; black is dark.
fn later(reel: &Name, source: u32, k: u32) -> Side<Name>
    requires { source + k < 2 ^ 32 }
    ensures { result ≡ later_side (side_of reel.now source) k }
{
    if reel.is_black() {
        return Side::Dark;
    }
    Side::Pic {
        what: *reel,
        source: source + k,
    }
}

// A frame that shows one side and no other.
fn alone(side: &Side<Name>) -> Frame<Name>
    ensures { result ≡ frame_of side.now }
{
    match side {
        Side::Dark => Frame::Dark,
        Side::Pic { what, source } => Frame::Pic {
            what: *what,
            source: *source,
        },
    }
}
