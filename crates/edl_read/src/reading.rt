// A list as it is read, line by line.
ghost use Rattle.std.specs.Prelude.{◌≡◌, IfErr, IfOk};
ghost use Rattle.edl_lines.specs.LineFacts.{IsLine, IsSaid};
ghost use Rattle.edl_read.specs.Reading.{after_counting, after_cut, after_dissolve, after_event, after_line, after_said, at_end, cut_event, dissolve_event, first_reading, is_pair, waiting_cut};
ghost use Rattle.edl_read.specs.ReadLists.{IsFaultOf};
ghost use Rattle.edl_read.specs.Waits.{IsWaiting};

use crate::played::Played;
use crate::{Event, FromLine, LineCode, ListReadFault};
use edl_lines::{EventLine, Said, line_says, non_drop};
use line_words::LineEnd;
use reel_names::Name;
use std::alloc::Global;
use timecode12::{Counting, SequenceRate};

/// A cut of zero length, which waits for the line of its dissolve.
#[derive(Clone, Copy, Debug)]
pub(crate) struct Waiting {
    pub line: u32,
    pub number: u32,
    pub reel: Name,
    pub channels: u8,
    pub source: u32,
    pub place: u32,
}

/// What is read of a list so far: the counting of the next line, the cut that waits, and the events.
#[derive(Drop)]
pub(crate) struct Reading {
    pub counting: Counting,
    pub waits: Option<Waiting>,
    pub played: Played,
}

// What is read before the first line: lines count without drop-frame, no cut waits, and there are no events.
pub(crate) fn first_reading(alloc: Global, rate: SequenceRate) -> Reading
    ensures reading { result ≡ first_reading rate }
    ensures waits { IsWaiting result.waits }
{
    Reading {
        counting: non_drop(rate),
        waits: None,
        played: Played::new(alloc),
    }
}

// What is read after one line more, or the fault at that line.
pub(crate) fn after_line(
    rate: SequenceRate,
    line: u32,
    reading: Reading,
    text: &[u8],
    end: LineEnd,
) -> Result<Reading, ListReadFault>
    requires { IsWaiting reading.waits }
    ensures read { IfOk result (λ r.
        after_line rate line reading (record { text = text.now; end = end }) ≡ Ok r) }
    ensures fault { IfErr result (λ fault.
        IsFaultOf (after_line rate line reading (record { text = text.now; end = end })) fault) }
    ensures waits { IfOk result (λ r. IsWaiting r.waits) }
{
    let said = match line_says(rate, &reading.counting, text, end) {
        Ok(said) => said,
        Err(code) => return Err(refused(code, line)),
    };
    match said {
        Said::Skipped => Ok(reading),
        Said::Counts(counting) => after_counting(reading, counting),
        Said::Tells(event) => after_event(line, reading, &event),
    }
}

// A fault that a line has by itself.
fn refused(code: LineCode, line: u32) -> ListReadFault
    ensures { result ≡ ListReadFault.Refused code line 0 }
{
    ListReadFault::Refused {
        code,
        line,
        other: 0,
    }
}

// Sets the counting of the lines that follow, or P9 where a cut waits for its dissolve.
fn after_counting(reading: Reading, counting: Counting) -> Result<Reading, ListReadFault>
    ensures read { result ≡ after_counting reading.waits reading.played counting }
    ensures waits { IfOk result (λ r. IsWaiting r.waits) }
{
    let Reading {
        counting: _,
        waits,
        played,
    } = reading;
    match waits {
        None => Ok(Reading {
            counting,
            waits: None,
            played,
        }),
        Some(cut) => Err(refused(LineCode::P9, cut.line)),
    }
}

// What is read after the line of an event: a cut, or a dissolve where it tells a length.
fn after_event(line: u32, reading: Reading, event: &EventLine) -> Result<Reading, ListReadFault>
    requires waits { IsWaiting reading.waits }
    requires event { IsLine event.now }
    ensures read { IfOk result (λ r. after_event line reading event.now event.now.frames ≡ Ok r) }
    ensures fault { IfErr result (λ fault.
        IsFaultOf (after_event line reading event.now event.now.frames) fault) }
    ensures waits { IfOk result (λ r. IsWaiting r.waits) }
{
    match event.frames {
        None => after_cut(line, reading, event),
        Some(frames) => after_dissolve(line, reading, event, frames),
    }
}

// What is read after a cut. One of no frames waits for its dissolve. It is P9 where another waits already.
fn after_cut(line: u32, reading: Reading, event: &EventLine) -> Result<Reading, ListReadFault>
    requires { IsLine event.now }
    ensures read { IfOk result (λ r.
        after_cut line reading.counting reading.waits reading.played event.now ≡ Ok r) }
    ensures fault { IfErr result (λ fault.
        IsFaultOf (after_cut line reading.counting reading.waits reading.played event.now) fault) }
    ensures waits { IfOk result (λ r. IsWaiting r.waits) }
{
    let Reading {
        counting,
        waits,
        played,
    } = reading;
    match waits {
        None => {
            if event.len == 0 {
                return Ok(Reading {
                    counting,
                    waits: Some(waiting_cut(line, event)),
                    played,
                });
            }
            let played = played.with(&cut_event(line, event))?;
            Ok(Reading {
                counting,
                waits: None,
                played,
            })
        }
        Some(cut) => Err(refused(LineCode::P9, cut.line)),
    }
}

// What is read after a dissolve, which takes the cut that waits as its outgoing side. It is P9 where none waits, or one
// of another event.
fn after_dissolve(
    line: u32,
    reading: Reading,
    event: &EventLine,
    frames: u32,
) -> Result<Reading, ListReadFault>
    requires waits { IsWaiting reading.waits }
    requires event { IsLine event.now }
    requires frames { event.now.frames ≡ Some frames }
    ensures read { IfOk result (λ r.
        after_dissolve line reading.counting reading.waits reading.played event.now frames ≡ Ok r) }
    ensures fault { IfErr result (λ fault. IsFaultOf
        (after_dissolve line reading.counting reading.waits reading.played event.now frames)
        fault) }
    ensures waits { IfOk result (λ r. IsWaiting r.waits) }
{
    let Reading {
        counting,
        waits,
        played,
    } = reading;
    match waits {
        None => Err(refused(LineCode::P9, line)),
        Some(cut) => {
            if !is_pair(&cut, event) {
                return Err(refused(LineCode::P9, line));
            }
            let played = played.with(&dissolve_event(line, &cut, event, frames))?;
            Ok(Reading {
                counting,
                waits: None,
                played,
            })
        }
    }
}

// A cut of no frames as it waits, with its line.
fn waiting_cut(line: u32, event: &EventLine) -> Waiting
    ensures { result ≡ waiting_cut line event.now }
{
    Waiting {
        line,
        number: event.number,
        reel: event.reel,
        channels: event.channels,
        source: event.source,
        place: event.place,
    }
}

// Whether a dissolve has the number, channels and record in of the cut that waits.
fn is_pair(cut: &Waiting, event: &EventLine) -> bool
    ensures { result ≡ is_pair cut.now event.now }
{
    event.number == cut.number && event.channels == cut.channels && event.place == cut.place
}

// A cut as an event.
fn cut_event(line: u32, event: &EventLine) -> Event
    ensures { result ≡ cut_event line event.now }
{
    Event {
        line,
        reel: event.reel,
        from: None,
        frames: 0,
        channels: event.channels,
        source: event.source,
        place: event.place,
        len: event.len,
    }
}

// A dissolve as an event, whose outgoing side is the cut that waited.
fn dissolve_event(line: u32, cut: &Waiting, event: &EventLine, frames: u32) -> Event
    ensures { result ≡ dissolve_event line cut.now event.now frames }
{
    Event {
        line,
        reel: event.reel,
        from: Some(FromLine {
            reel: cut.reel,
            source: cut.source,
        }),
        frames,
        channels: event.channels,
        source: event.source,
        place: event.place,
        len: event.len,
    }
}

// The events of a list that ends here, or P9 where a cut still waits.
pub(crate) fn at_end(reading: Reading) -> Result<Played, ListReadFault>
    ensures { result ≡ at_end reading.waits reading.played }
{
    let Reading {
        counting: _,
        waits,
        played,
    } = reading;
    match waits {
        None => Ok(played),
        Some(cut) => Err(refused(LineCode::P9, cut.line)),
    }
}
