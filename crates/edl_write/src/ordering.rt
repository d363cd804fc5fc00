// The events of a cut's channels, in order.
ghost use Rattle.std.specs.Prelude.{◌≡◌, ◌≤◌, ◌++◌, ◌∷◌, [], IfOk, OnOk, drop, length};
ghost use Rattle.edl_write.specs.Order.{comes_before, is_dark, rank};
ghost use Rattle.edl_write.specs.Merging.{before, behind, events_on, merged, ordered};

use edl_events::Channel;
use flatten::Segment;
use frame_meaning::{Memory, Side};
use std::alloc::Global;

/// An event of a cut: a segment of a channel that is not dark.
#[derive(Clone, Copy, Debug, PartialEq, Eq)]
pub struct ChannelSegment {
    pub channel: Channel,
    pub segment: Segment,
}

/// The events of three channels: by their record in, and those at one record in by channel.
pub fn ordered(
    alloc: Global,
    picture: &[Segment],
    sound: &[Segment],
    second_sound: &[Segment],
) -> Result<Vec<ChannelSegment>, Memory>
    ensures { IfOk result (λ all. all.items ≡ ordered picture.now sound.now second_sound.now) }
{
    let v = events_on(alloc, Channel::V, picture)?;
    let a = events_on(alloc, Channel::A, sound)?;
    let a2 = events_on(alloc, Channel::A2, second_sound)?;
    let first = merged(alloc, v.as_slice(), a.as_slice())?;
    merged(alloc, first.as_slice(), a2.as_slice())
}

// The segments of a channel that are not dark, as events.
fn events_on(
    alloc: Global,
    channel: Channel,
    segments: &[Segment],
) -> Result<Vec<ChannelSegment>, Memory>
    ensures { IfOk result (λ all. all.items ≡ events_on channel segments.now) }
{
    let mut all = Vec::new(alloc);
    for segment in segments {
        add_shown(&mut all, channel, segment)?;
    }
    Ok(all)
}

// Adds a segment as an event of a channel, unless it is dark.
fn add_shown(
    all: &mut Vec<ChannelSegment>,
    channel: Channel,
    segment: &Segment,
) -> Result<(), Memory>
    ensures { OnOk result (all.new.items ≡ all.old.items ++ events_on channel (segment.now ∷ [])) }
{
    if is_dark(segment) {
        return Ok(());
    }
    all.push(ChannelSegment {
        channel,
        segment: *segment,
    })?;
    Ok(())
}

// Whether a segment shows nothing, and so is no event.
fn is_dark(segment: &Segment) -> bool
    ensures { result ≡ is_dark segment.now }
{
    match (segment.from, segment.side) {
        (None, Side::Dark) => true,
        _ => false,
    }
}

// Two lists of events, each in order, as one in order.
fn merged(
    alloc: Global,
    first: &[ChannelSegment],
    second: &[ChannelSegment],
) -> Result<Vec<ChannelSegment>, Memory>
    ensures { IfOk result (λ all. all.items ≡ merged first.now second.now) }
{
    let mut all = Vec::new(alloc);
    let mut done = 0;
    for event in first {
        done = add_before(&mut all, second, done, event)?;
        all.push(*event)?;
    }
    let (_, rest) = second.split_at(done);
    all.extend_from_slice(rest)?;
    Ok(all)
}

// Adds those of the others, from a place on, that come before an event, and gives the place after them.
fn add_before(
    all: &mut Vec<ChannelSegment>,
    others: &[ChannelSegment],
    from: usize,
    event: &ChannelSegment,
) -> Result<usize, Memory>
    requires { from ≤ length others.now }
    ensures added { IfOk result (λ _. all.new.items
        ≡ all.old.items ++ before event.now (drop from others.now)) }
    ensures rest { IfOk result (λ done. drop done others.now
        ≡ behind event.now (drop from others.now)) }
    ensures within { IfOk result (λ done. done ≤ length others.now) }
{
    let mut done = from;
    while done < others.len() && comes_before(&others[done], event) {
        all.push(others[done])?;
        done += 1;
    }
    Ok(done)
}

// Whether an event comes before another: by its record in, and at one record in by its channel.
fn comes_before(event: &ChannelSegment, other: &ChannelSegment) -> bool
    ensures { result ≡ comes_before event.now other.now }
{
    let at = event.segment.at;
    let other_at = other.segment.at;
    at < other_at || (at == other_at && rank(event.channel) < rank(other.channel))
}

/// The place of a channel among those at one record in: V, then A, then A2.
pub fn rank(channel: Channel) -> u8
    ensures { result ≡ rank channel }
{
    match channel {
        Channel::V => 0,
        Channel::A => 1,
        Channel::A2 => 2,
    }
}
