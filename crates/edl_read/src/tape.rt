// The tape of a list.
ghost use Rattle.std.specs.Prelude.{◌≡◌, ◌++◌, IfOk, OnOk};
ghost use Rattle.edl_events.specs.Tape.{tape_at};
ghost use Rattle.edl_read.specs.ReadLists.{CanBeRead};
ghost use Rattle.edl_read.specs.TapeText.{channel_text, tape_text};

use crate::laid::Laid;
use crate::list::List;
use crate::pieces::{Pending, add_event, add_gap};
use crate::{Channel, Memory};
use frame_meaning::Frame;
use reel_names::Name;
use std::alloc::Global;
use std::marker::Model;
use timecode12::MAX_DAY_FRAMES;

/// The tape that the events of a list make. It keeps the events, and no frames. Contracts see it as those events.
#[derive(Drop)]
pub struct Tape {
    laid: Laid,
}

impl Model for Tape {
    ghost use Rattle.std.specs.Prelude.{List};
    ghost use Rattle.edl_events.specs.declared.event.Event.{Event};

    ghost Value = { List Event };

    ghost view = { λ t. t.laid };
}

impl Tape {
    /// The tape of a list: each event played where it is.
    pub fn play(alloc: Global, list: &List) -> Result<Tape, Memory>
        requires { CanBeRead list.now }
        ensures { IfOk result (λ tape. tape ≡ list.now) }
    {
        let mut laid = Laid::new(alloc);
        let events = list.as_slice();
        for event in events {
            laid = laid.with(event)?;
        }
        Ok(Tape { laid })
    }

    /// What a channel shows at a record frame: dark where no event is.
    pub fn at(&self, channel: Channel, frame: u32) -> Frame<Name>
        ensures { result ≡ tape_at self.now channel frame }
    {
        self.laid.frame_at(channel, frame)
    }

    /// The tape as text: for the channels V, A and A2 in order, a line for each maximal run that is not dark,
    /// `CHANNEL RECORD LEN REEL SOURCE` or `CHANNEL RECORD LEN mix SIDE SIDE NUM DEN`, where a side is `REEL SOURCE` or
    /// `BL`. RECORD is the record frame at which the run begins.
    pub fn text(&self, alloc: Global) -> Result<Vec<u8>, Memory>
        ensures { IfOk result (λ text. text.items ≡ tape_text self.now) }
    {
        let mut text = Vec::new(alloc);
        add_channel(&self.laid, &mut text, Channel::V)?;
        add_channel(&self.laid, &mut text, Channel::A)?;
        add_channel(&self.laid, &mut text, Channel::A2)?;
        Ok(text)
    }
}

// Adds the runs of a channel.
fn add_channel(laid: &Laid, out: &mut Vec<u8>, channel: Channel) -> Result<(), Memory>
    ensures { OnOk result (out.new.items ≡ out.old.items ++ channel_text laid.now channel) }
{
    let mut held = Pending::none();
    let mut at = 0;
    while let Some(event) = laid.next_from(channel, at) {
        let before = add_gap(out, channel, held, at, event.place)?;
        held = add_event(out, channel, before, event)?;
        at = event.place + event.len;
    }
    let last = add_gap(out, channel, held, at, MAX_DAY_FRAMES)?;
    last.end(out, channel)
}
