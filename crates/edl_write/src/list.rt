// The list of a cut.
ghost use Rattle.std.specs.Prelude.{◌≡◌, ◌<◌, ◌^◌, ◌++◌, IfErr, IfOk, OnOk, length};
ghost use Rattle.flatten.specs.Channels.{AreSound};
ghost use Rattle.reel_names.specs.Namers.{AreNames};
ghost use Rattle.timecode12.specs.Labels.{day_of};
ghost use Rattle.edl_write.specs.Limits.{AreLimited, EachCanBeWritten};
ghost use Rattle.edl_write.specs.ListEvents.{events_of};
ghost use Rattle.edl_write.specs.Refusals.{IsListOf, IsRefused};
ghost use Rattle.edl_write.specs.Text.{counting_text, head_text, list_text};

use crate::checks::check;
use crate::cut_events::cut_events;
use crate::fault::ListFault;
use crate::lines::{put, put_event};
use crate::naming::names_of;
use crate::ordering::ChannelSegment;
use composables::{Listed, Table, Track};
use frame_meaning::Memory;
use reel_names::{ReelName, ReelNamer};
use std::alloc::Global;
use timecode12::Counting;

/// A list, and the names that its lines use, each reel once, in the order in which the lines use them.
#[derive(Drop)]
pub struct Written {
    pub text: Listed<u8>,
    pub names: Listed<ReelName>,
}

/// The list of a cut, whose tracks are those of the table in order, that begins at a frame of the counting's day; or
/// the first reason for which it has none. The namer is asked for the reels in order of the lines.
pub fn write_list(
    alloc: Global,
    table: &Table,
    tracks: &[Track],
    counting: &Counting,
    start: u32,
    namer: Box<dyn ReelNamer>,
) -> Result<Written, ListFault>
    requires layers { AreSound table.now.nests }
    requires tracks { AreLimited tracks.now }
    requires few { length tracks.now < 2 ^ 32 }
    requires start { start < length (day_of counting.now) }
    ensures list { IfOk result (λ list. IsListOf table.now tracks.now counting.now start
        (rule namer) (given namer) list) }
    // Each name fits a list that is written, and no two reels share one.
    ensures names { IfOk result (λ list. AreNames list.names) }
    ensures refused { IfErr result (λ fault. IsRefused table.now tracks.now counting.now start
        (rule namer) (given namer) fault) }
{
    let events = cut_events(alloc, table, tracks)?;
    check(events.as_slice(), counting.day(), start)?;
    let mut namer = namer;
    let names = names_of(alloc, &table.reels, events.as_slice(), &mut *namer)?;
    let text = list_text(alloc, counting, start, events.as_slice(), names.as_slice())?;
    Ok(Written {
        text: Listed::from_vec(text),
        names,
    })
}

// The text of these events, numbered from 1, after the head of the list.
fn list_text(
    alloc: Global,
    counting: &Counting,
    start: u32,
    events: &[ChannelSegment],
    names: &[ReelName],
) -> Result<Vec<u8>, Memory>
    requires count { length events.now < 1000 }
    requires events { EachCanBeWritten start events.now }
    ensures { IfOk result (λ text. text.items
        ≡ list_text counting.now (events_of start names.now events.now)) }
{
    let mut text = Vec::new(alloc);
    put_head(&mut text, counting)?;
    let mut number = 0;
    for event in events {
        number += 1;
        put_event(&mut text, counting, start, names, number, event)?;
    }
    Ok(text)
}

// Adds the head of a list: its title, and how it counts.
fn put_head(text: &mut Vec<u8>, counting: &Counting) -> Result<(), Memory>
    ensures { OnOk result (text.new.items ≡ text.old.items ++ head_text counting.now) }
{
    put(text, b"TITLE: CUT\n")?;
    put_counting(text, counting.drop_frame())
}

// Adds the line that says whether the list counts with drop-frame.
fn put_counting(text: &mut Vec<u8>, drop_frame: bool) -> Result<(), Memory>
    ensures { OnOk result (text.new.items ≡ text.old.items ++ counting_text drop_frame) }
{
    if drop_frame {
        return put(text, b"FCM: DROP FRAME\n");
    }
    put(text, b"FCM: NON-DROP FRAME\n")
}
