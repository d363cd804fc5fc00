// Events as they lie on their channels.
ghost use Rattle.std.specs.Prelude.{◌≡◌, ◌<◌, ◌≤◌, ◌+◌, ◌-◌, ◌++◌, ◌∷◌, ℕ, [], false, None, Some, IfNone, IfOk, IfSome, OnOk, length, slice_get};
ghost use Rattle.timecode12.specs.declared.counting.TheConstants.{MAX_DAY_FRAMES};
ghost use Rattle.frame_meaning.specs.declared.frames.Frame.TheVariants.{Dark};
ghost use Rattle.frame_meaning.specs.RunFrames.{frames_from};
ghost use Rattle.edl_events.specs.Events.{AreEvents, IsEvent};
ghost use Rattle.edl_events.specs.Tape.{tape_at};
ghost use Rattle.edl_read.specs.Laying.{AreClearOf, AreStarts, HaveEnded, start_of, start_with};
ghost use Rattle.edl_read.specs.Overlaps.{first_overlap, overlap, share};
ghost use Rattle.edl_read.specs.Pieces.{event_frames};
ghost use Rattle.edl_read.specs.ReadLists.{CanBeRead};
ghost use Rattle.edl_read.specs.TapeText.{frames_on};

use crate::list::List;
use crate::starts::Starts;
use crate::{Channel, Event, Memory};
use frame_meaning::Frame;
use reel_names::Name;
use std::alloc::Global;
use std::marker::Model;

/// Events of which no two overlap, and where those of each channel begin. Contracts see them as a list.
#[derive(Drop)]
pub(crate) struct Laid {
    events: List,
    picture: Starts,
    sound: Starts,
    second_sound: Starts,
}

impl Model for Laid {
    ghost use Rattle.std.specs.Prelude.{List};
    ghost use Rattle.edl_events.specs.declared.event.Event.{Event};

    ghost Value = { List Event };

    ghost use Rattle.edl_read.specs.Laying.{AreLaid};

    ghost view = { λ l. l.events };

    ghost invariant = { λ l. AreLaid l.events l.picture l.sound l.second_sound };
}

impl Laid {
    /// No events.
    pub(crate) fn new(alloc: Global) -> Laid
        ensures { result ≡ [] }
    {
        Laid {
            events: List::new(alloc),
            picture: Starts::new(alloc),
            sound: Starts::new(alloc),
            second_sound: Starts::new(alloc),
        }
    }

    // Adds an event, which overlaps with none.
    pub(crate) fn with(self, event: &Event) -> Result<Laid, Memory>
        requires event { IsEvent event.now }
        requires apart { first_overlap self event.now ≡ None }
        ensures { IfOk result (λ l. l ≡ self ++ event.now ∷ []) }
    {
        let Laid {
            events,
            mut picture,
            mut sound,
            mut second_sound,
        } = self;
        let index = events.as_slice().len();
        begin(&mut picture, Channel::V, event, index)?;
        begin(&mut sound, Channel::A, event, index)?;
        begin(&mut second_sound, Channel::A2, event, index)?;
        let added = events.with(event)?;
        Ok(Laid {
            events: added,
            picture,
            sound,
            second_sound,
        })
    }

    /// The events, in the order in which they were added.
    pub(crate) fn as_slice(&self) -> &[Event]
        ensures events { result.now ≡ self.now }
        ensures read { CanBeRead self.now }
    {
        self.events.as_slice()
    }

    /// The events alone, as a list.
    pub(crate) fn into_list(self) -> List
        ensures events { result ≡ self }
        ensures read { CanBeRead self }
    {
        self.events
    }

    // The event with an index.
    fn event(&self, index: usize) -> &Event
        requires { index < length self.now }
        ensures event { slice_get self.now index ≡ Some result.now }
        ensures good { IsEvent result.now }
        ensures read { CanBeRead self.now }
    {
        let events = self.as_slice();
        item(events, index)
    }

    // Where the events of a channel begin.
    fn starts(&self, channel: Channel) -> &Starts
        ensures { AreStarts channel self.now (start_of result.now) }
    {
        match channel {
            Channel::V => &self.picture,
            Channel::A => &self.sound,
            Channel::A2 => &self.second_sound,
        }
    }

    // What a channel shows at a record frame.
    pub(crate) fn frame_at(&self, channel: Channel, frame: u32) -> Frame<Name>
        ensures { result ≡ tape_at self.now channel frame }
    {
        match self.starts(channel).last_up_to(frame) {
            None => Frame::Dark,
            Some((_, index)) => {
                let event = self.event(index);
                if frame < event.place + event.len {
                    return event.frame_at(frame - event.place);
                }
                Frame::Dark
            }
        }
    }

    // The first event of a channel that begins at a record frame or later, where those that begin earlier have ended.
    pub(crate) fn next_from(&self, channel: Channel, at: u32) -> Option<&Event>
        requires { HaveEnded self.now channel at }
        ensures event { IfSome result (λ e. IsEvent e.now) }
        ensures order { IfSome result (λ e. at ≤ e.now.place) }
        ensures frames { IfSome result (λ e. frames_on self.now channel at
            ≡ frames_from Dark (e.now.place - at)
            ++ (event_frames e.now ++ frames_on self.now channel (e.now.place + e.now.len))) }
        ensures ended { IfSome result (λ e. HaveEnded self.now channel (e.now.place + e.now.len)) }
        ensures none { IfNone result (frames_on self.now channel at
            ≡ frames_from Dark (MAX_DAY_FRAMES - at)) }
    {
        match self.starts(channel).first_from(at) {
            None => None,
            Some((_, index)) => Some(self.event(index)),
        }
    }

    // The line of the first event that overlaps with one. Only where one does, each is looked at.
    pub(crate) fn first_overlap(&self, event: &Event) -> Option<u32>
        requires { IsEvent event.now }
        ensures { result ≡ first_overlap self.now event.now }
    {
        if self.meets(Channel::V, event)
            || self.meets(Channel::A, event)
            || self.meets(Channel::A2, event)
        {
            return first_overlap(self.as_slice(), event);
        }
        None
    }

    // Whether an event may overlap with one of these on a channel: it does not where the last that begins before it
    // ends has ended.
    fn meets(&self, channel: Channel, event: &Event) -> bool
        requires { IsEvent event.now }
        ensures { result ≡ false → AreClearOf self.now channel event.now }
    {
        if !channel.is_in(event.channels) {
            return false;
        }
        match self
            .starts(channel)
            .last_up_to(event.place + (event.len - 1))
        {
            None => false,
            Some((_, index)) => {
                let other = self.event(index);
                event.place < other.place + other.len
            }
        }
    }
}

// The event with an index, of these.
fn item(events: &[Event], index: usize) -> &Event
    requires { index < length events.now }
    ensures { slice_get events.now index ≡ Some result.now }
{
    &events[index]
}

// Notes that the event with an index begins at its place, if it is on the channel.
fn begin(starts: &mut Starts, channel: Channel, event: &Event, index: usize) -> Result<(), Memory>
    ensures { OnOk result ((place : ℕ) → start_of starts.new place
        ≡ start_with channel event.now index (start_of starts.old) place) }
{
    if !channel.is_in(event.channels) {
        return Ok(());
    }
    starts.add(event.place, index)?;
    Ok(())
}

// The line of the first event that overlaps with one.
fn first_overlap(events: &[Event], event: &Event) -> Option<u32>
    requires events { AreEvents events.now }
    requires event { IsEvent event.now }
    ensures { result ≡ first_overlap events.now event.now }
{
    for earlier in events {
        if overlap(earlier, event) {
            return Some(earlier.line);
        }
    }
    None
}

// Whether two events share a channel and a record frame.
fn overlap(event: &Event, other: &Event) -> bool
    requires event { IsEvent event.now }
    requires other { IsEvent other.now }
    ensures { result ≡ overlap event.now other.now }
{
    share(event.channels, other.channels)
        && event.place < other.place + other.len
        && other.place < event.place + event.len
}

// Whether two sets of channels have one in common.
fn share(channels: u8, others: u8) -> bool
    ensures { result ≡ share channels others }
{
    (Channel::V.is_in(channels) && Channel::V.is_in(others))
        || (Channel::A.is_in(channels) && Channel::A.is_in(others))
        || (Channel::A2.is_in(channels) && Channel::A2.is_in(others))
}
