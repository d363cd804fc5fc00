// The lines of an event as text.
ghost use Rattle.std.specs.Prelude.{◌≡◌, ℕ, ◌+◌, ◌<◌, ◌≤◌, ◌^◌, ◌++◌, Some, IfSome, OnOk};
ghost use Rattle.edl_write.specs.Limits.{CanBeWritten};
ghost use Rattle.edl_write.specs.Lines.{IsWritable, line_times};
ghost use Rattle.edl_write.specs.ListEvents.{event_of, name_of_side, source_of};
ghost use Rattle.edl_write.specs.Text.{channel_text, edit_text, event_text, line_text, padded, time_text, times_text};

use crate::checks::source_of;
use crate::ordering::ChannelSegment;
use frame_meaning::{Memory, Side};
use reel_names::{Name, ReelName, name_among, three_digits};
use timecode12::{Counting, label_text};

/// A line of an event.
#[derive(Clone, Copy, Debug)]
pub struct EventText {
    /// The number of its event.
    pub number: u32,
    pub reel: Name,
    /// The channels, as those of an event.
    pub channels: u8,
    /// How many frames its dissolve has, if it is one.
    pub dissolve: Option<u32>,
    /// Source in, record in, and how many frames there are up to the outs.
    pub source: u32,
    pub place: u32,
    pub len: u32,
}

/// Adds the lines of an event to a text, in a list that begins at a frame and has these names.
pub fn put_event(
    out: &mut Vec<u8>,
    counting: &Counting,
    start: u32,
    names: &[ReelName],
    number: u32,
    event: &ChannelSegment,
) -> Result<(), Memory>
    requires number { number < 1000 }
    requires event { CanBeWritten start event.now }
    // The text does not tell on which line of the list the event stands.
    ensures { OnOk result ((line : ℕ) → out.new.items ≡ out.old.items
        ++ event_text counting.now number (event_of start names.now line event.now)) }
{
    let segment = event.segment;
    let line = EventText {
        number,
        reel: name_of_side(names, segment.side),
        channels: event.channel.set(),
        dissolve: None,
        source: source_of(segment.side),
        place: start + segment.at,
        len: segment.len,
    };
    match segment.from {
        Some(left) => {
            put_line(out, counting, &line_of_left(names, left, line))?;
            put_line(out, counting, &line_of_dissolve(segment.frames, line))
        }
        None => put_line(out, counting, &line),
    }
}

// The first line of a dissolve: its outgoing side as a cut of no frames. `line` is that of the event as a cut.
fn line_of_left(names: &[ReelName], left: Side<u32>, line: EventText) -> EventText
    ensures { result
        ≡ record line { reel = name_of_side names.now left; source = source_of left; len = 0 } }
{
    EventText {
        reel: name_of_side(names, left),
        source: source_of(left),
        len: 0,
        ..line
    }
}

// The second line of a dissolve of so many frames.
fn line_of_dissolve(frames: u32, line: EventText) -> EventText
    ensures { result ≡ record line { dissolve = Some frames } }
{
    EventText {
        dissolve: Some(frames),
        ..line
    }
}

// The name of a side's reel, and black's for a dark side.
fn name_of_side(names: &[ReelName], side: Side<u32>) -> Name
    ensures { result ≡ name_of_side names.now side }
{
    match side {
        Side::Dark => Name::black(),
        Side::Pic { what, source: _ } => match name_among(names, what) {
            Some(name) => name,
            None => Name::black(),
        },
    }
}

// Adds a line of an event: its number, reel, channel, edit and times, in columns.
fn put_line(out: &mut Vec<u8>, counting: &Counting, line: &EventText) -> Result<(), Memory>
    requires { IsWritable line.now }
    ensures { OnOk result (out.new.items ≡ out.old.items ++ line_text counting.now line.now) }
{
    put(out, &three_digits(line.number))?;
    put(out, b"  ")?;
    put_padded(out, line.reel.as_bytes(), 8)?;
    put(out, b" ")?;
    put_padded(out, channel_text(line.channels), 5)?;
    put(out, b" ")?;
    put_edit(out, line.dissolve)?;
    put_times(out, counting, line)?;
    put(out, b"\n")
}

// A channel as a list writes it.
fn channel_text(channels: u8) -> &'static [u8]
    ensures { result.now ≡ channel_text channels }
{
    if channels == 1 {
        return b"V";
    }
    if channels == 2 {
        return b"A";
    }
    b"A2"
}

// Adds the columns of the edit: `C`, or `D` and the frames of the dissolve.
fn put_edit(out: &mut Vec<u8>, dissolve: Option<u32>) -> Result<(), Memory>
    requires { IfSome dissolve (λ frames. frames < 1000) }
    ensures { OnOk result (out.new.items ≡ out.old.items ++ edit_text dissolve) }
{
    match dissolve {
        Some(frames) => {
            put(out, b"D    ")?;
            put(out, &three_digits(frames))?;
            put(out, b" ")
        }
        None => put(out, b"C        "),
    }
}

// Adds source in, source out, record in and record out.
fn put_times(out: &mut Vec<u8>, counting: &Counting, line: &EventText) -> Result<(), Memory>
    requires source { line.now.source + line.now.len < 2 ^ 32 }
    requires place { line.now.place + line.now.len < 2 ^ 32 }
    ensures { OnOk result (out.new.items ≡ out.old.items
        ++ times_text counting.now (line_times line.now.source line.now.place line.now.len)) }
{
    put_time(out, counting, line.source)?;
    put(out, b" ")?;
    put_time(out, counting, line.source + line.len)?;
    put(out, b" ")?;
    put_time(out, counting, line.place)?;
    put(out, b" ")?;
    put_time(out, counting, line.place + line.len)
}

// Adds the label of a frame of the day.
fn put_time(out: &mut Vec<u8>, counting: &Counting, frame: u32) -> Result<(), Memory>
    ensures { OnOk result (out.new.items ≡ out.old.items ++ time_text counting.now frame) }
{
    match counting.label_of(frame) {
        Ok(label) => put(out, &label_text(&label, b':')),
        Err(_) => Ok(()),
    }
}

// Adds bytes to a text, and spaces after them up to a width.
fn put_padded(out: &mut Vec<u8>, bytes: &[u8], width: usize) -> Result<(), Memory>
    requires { width ≤ 8 }
    ensures { OnOk result (out.new.items ≡ out.old.items ++ padded width bytes.now) }
{
    put(out, bytes)?;
    let spaces = [b' '; 8];
    put(out, &spaces[..width.saturating_sub(bytes.len())])
}

/// Adds bytes to a text.
pub fn put(out: &mut Vec<u8>, bytes: &[u8]) -> Result<(), Memory>
    ensures { OnOk result (out.new.items ≡ out.old.items ++ bytes.now) }
{
    out.extend_from_slice(bytes)?;
    Ok(())
}
