// The line of an event.
ghost use Rattle.std.specs.Prelude.{◌≡◌, ◌<◌, ◌+◌, IfOk, IsTrue};
ghost use Rattle.reel_names.specs.Names.{is_reel_name};
ghost use Rattle.edl_lines.specs.EventLines.{cut_line, dissolve_line, event_line, fourth, line_of_words, texts_of, within_event};
ghost use Rattle.edl_lines.specs.LineFacts.{IsLine};

use crate::LineCode;
use crate::parts::{
    Span, channels, dissolve_length, laid_out, line_number, plain_transition, times,
};
use line_words::LineEnd;
use reel_names::Name;
use timecode12::{Counting, MAX_DAY_FRAMES};

/// What the line of an event says: a cut, or a dissolve without its outgoing side, which is the line before it.
#[derive(Clone, Copy, Debug)]
pub struct EventLine {
    /// The number of the event, up to 999.
    pub number: u32,
    pub reel: Name,
    /// The channels that it is on: bit 0 is V, bit 1 is A, bit 2 is A2.
    pub channels: u8,
    /// How many frames a dissolve has; a cut has none.
    pub frames: Option<u32>,
    /// The frame of the day that source in names.
    pub source: u32,
    /// The frame of the day that record in names.
    pub place: u32,
    /// How many frames there are from each in to its out; a cut may have 0.
    pub len: u32,
}

// The event that the words of a line say, of which this is the first.
pub(crate) fn event_line(
    counting: &Counting,
    end: LineEnd,
    first: &[u8],
    words: &[&[u8]],
) -> Result<EventLine, LineCode>
    ensures read { result ≡ event_line counting.now end first.now (texts_of words.now) }
    ensures line { IfOk result (λ line. IsLine line) }
{
    let number = line_number(first)?;
    plain_transition(fourth(words))?;
    line_of_words(counting, end, number, words)
}

// The fourth word, which is the transition, or no bytes where there are fewer.
fn fourth<'a>(words: &[&'a [u8]]) -> &'a [u8]
    ensures { result.now ≡ fourth (texts_of words.now) }
{
    match words {
        [_, _, _, word, ..] => *word,
        _ => &[],
    }
}

// The event of a line by the number of its words: eight are a cut, nine a dissolve, any other count is P1.
fn line_of_words(
    counting: &Counting,
    end: LineEnd,
    number: u32,
    words: &[&[u8]],
) -> Result<EventLine, LineCode>
    ensures read { result ≡ line_of_words counting.now end number (texts_of words.now) }
    ensures line { IfOk result (λ line. IsLine line) }
{
    match words {
        [_, reel, channel, transition, a, b, c, d] => cut_line(
            counting, end, number, reel, channel, transition, a, b, c, d,
        ),
        [_, reel, channel, transition, length, a, b, c, d] => dissolve_line(
            counting, end, number, reel, channel, transition, length, a, b, c, d,
        ),
        _ => Err(LineCode::P1),
    }
}

// The cut that eight words say, after the number.
fn cut_line(
    counting: &Counting,
    end: LineEnd,
    number: u32,
    reel: &[u8],
    channel: &[u8],
    transition: &[u8],
    source_in: &[u8],
    source_out: &[u8],
    record_in: &[u8],
    record_out: &[u8],
) -> Result<EventLine, LineCode>
    ensures read { result ≡ cut_line counting.now end number reel.now channel.now transition.now
        source_in.now source_out.now record_in.now record_out.now }
    ensures line { IfOk result (λ line. IsLine line) }
{
    let reel = laid_out(end, b"C", transition, reel)?;
    let channels = channels(channel)?;
    let span = times(source_in, source_out, record_in, record_out, counting)?;
    Ok(EventLine {
        number,
        reel,
        channels,
        frames: None,
        source: span.source,
        place: span.place,
        len: span.len,
    })
}

// The dissolve that nine words say, after the number.
fn dissolve_line(
    counting: &Counting,
    end: LineEnd,
    number: u32,
    reel: &[u8],
    channel: &[u8],
    transition: &[u8],
    length: &[u8],
    source_in: &[u8],
    source_out: &[u8],
    record_in: &[u8],
    record_out: &[u8],
) -> Result<EventLine, LineCode>
    ensures read { result
        ≡ dissolve_line counting.now end number reel.now channel.now transition.now
        length.now source_in.now source_out.now record_in.now record_out.now }
    ensures line { IfOk result (λ line. IsLine line) }
{
    let reel = laid_out(end, b"D", transition, reel)?;
    let frames = dissolve_length(length)?;
    let channels = channels(channel)?;
    let span = times(source_in, source_out, record_in, record_out, counting)?;
    within_event(number, &reel, channels, frames, &span)
}

// The dissolve of an event, or P4 where it has no frame or more than the event.
fn within_event(
    number: u32,
    reel: &Name,
    channels: u8,
    frames: u32,
    span: &Span,
) -> Result<EventLine, LineCode>
    requires reel { IsTrue (is_reel_name reel.now) }
    requires channels { (0 < channels) × (channels < 8) }
    requires source { span.now.source + span.now.len < MAX_DAY_FRAMES }
    requires place { span.now.place + span.now.len < MAX_DAY_FRAMES }
    ensures read { result ≡ within_event number reel.now channels frames span.now }
    ensures line { IfOk result (λ line. IsLine line) }
{
    if frames < 1 || frames > span.len {
        return Err(LineCode::P4);
    }
    Ok(EventLine {
        number,
        reel: *reel,
        channels,
        frames: Some(frames),
        source: span.source,
        place: span.place,
        len: span.len,
    })
}
