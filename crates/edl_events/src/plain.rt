// The plain program that the tape is compared with.
ghost use Rattle.std.specs.Prelude.{◌≡◌};
ghost use Rattle.edl_events.specs.Events.{AreEvents};
ghost use Rattle.edl_events.specs.Tape.{tape_at};

use crate::{Channel, Event};
use frame_meaning::Frame;
use reel_names::Name;

/// What a channel of the tape of these events shows at a record frame. It looks at each event in turn.
pub fn tape_frame(events: &[Event], channel: Channel, frame: u32) -> Frame<Name>
    requires { AreEvents events.now }
    ensures { result ≡ tape_at events.now channel frame }
{
    for event in events {
        if event.covers(channel, frame) {
            return event.frame_at(frame - event.place);
        }
    }
    Frame::Dark
}
