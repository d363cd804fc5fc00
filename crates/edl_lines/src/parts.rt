// The parts of a line.
ghost use Rattle.std.specs.Prelude.{◌≡◌, ◌+◌, ◌<◌, false, IfOk, IsTrue};
ghost use Rattle.reel_names.specs.Names.{is_reel_name};
ghost use Rattle.edl_lines.specs.Spelling.{begins_with, channels_of, counting_of, dissolve_length, drop_frame_at, is_note, laid_out, number_of_event, plain_transition, reel_of, short_number, span_between, span_of, time_of};
ghost use Rattle.edl_lines.specs.EventLines.{line_number, texts_of};

use crate::LineCode;
use crate::labels::label_frame;
use line_words::{LineEnd, number};
use reel_names::Name;
use timecode12::{Counting, MAX_DAY_FRAMES, SequenceRate};

/// The greatest number of an event.
const LAST_NUMBER: u32 = 999;

/// The frames that an event names: of its source and of the record, as many of one as of the other.
#[derive(Clone, Copy, Debug)]
pub(crate) struct Span {
    pub source: u32,
    pub place: u32,
    pub len: u32,
}

// Whether the first word is that of a line that is passed over: a note, which begins with `*`, or the title.
pub(crate) fn is_note(word: &[u8]) -> bool
    ensures { result ≡ is_note word.now }
{
    begins_with(word, b'*') || word == b"TITLE:".as_slice()
}

// Whether a word begins with this byte.
fn begins_with(word: &[u8], byte: u8) -> bool
    ensures { result ≡ begins_with byte word.now }
{
    match word {
        [first, ..] => *first == byte,
        [] => false,
    }
}

// The number of a line's event: P7 for a change of speed, P2 where it is no number of one to six digits, P11 over 999.
pub(crate) fn line_number(word: &[u8]) -> Result<u32, LineCode>
    ensures { result ≡ line_number word.now }
{
    if word == b"M2".as_slice() {
        return Err(LineCode::P7);
    }
    match short_number(word, 6) {
        Some(n) => {
            if n <= LAST_NUMBER {
                Ok(n)
            } else {
                Err(LineCode::P11)
            }
        }
        None => Err(LineCode::P2),
    }
}

// The number that a word of at most so many digits is, if it is one.
fn short_number(word: &[u8], most: usize) -> Option<u32>
    ensures { result ≡ short_number most word.now }
{
    if word.len() > most {
        return None;
    }
    match number(word) {
        Ok(n) => Some(n),
        Err(_) => None,
    }
}

// Refuses a wipe as P5 and a key as P6.
pub(crate) fn plain_transition(word: &[u8]) -> Result<(), LineCode>
    ensures { result ≡ plain_transition word.now }
{
    if begins_with(word, b'W') {
        return Err(LineCode::P5);
    }
    if begins_with(word, b'K') {
        return Err(LineCode::P6);
    }
    Ok(())
}

// The reel of a line, or P1 where the line is too long, its transition is not the given one, or the reel is no name.
pub(crate) fn laid_out(
    end: LineEnd,
    given: &[u8],
    transition: &[u8],
    reel: &[u8],
) -> Result<Name, LineCode>
    ensures read { result ≡ laid_out end given.now transition.now reel.now }
    ensures name { IfOk result (λ name. IsTrue (is_reel_name name)) }
{
    match end {
        LineEnd::TooLong => Err(LineCode::P1),
        LineEnd::Whole => {
            if transition == given {
                named(reel)
            } else {
                Err(LineCode::P1)
            }
        }
    }
}

// The name that a word is, or P1 where it is none.
fn named(reel: &[u8]) -> Result<Name, LineCode>
    ensures read { result ≡ reel_of reel.now }
    ensures name { IfOk result (λ name. IsTrue (is_reel_name name)) }
{
    match Name::of(reel) {
        Some(name) => Ok(name),
        None => Err(LineCode::P1),
    }
}

// The length of a dissolve, or P1 where it is not one to three digits.
pub(crate) fn dissolve_length(word: &[u8]) -> Result<u32, LineCode>
    ensures { result ≡ dissolve_length word.now }
{
    match short_number(word, 3) {
        Some(n) => Ok(n),
        None => Err(LineCode::P1),
    }
}

// The channels of a line: bit 0 is V, bit 1 is A, bit 2 is A2. Any other word is P8.
pub(crate) fn channels(word: &[u8]) -> Result<u8, LineCode>
    ensures read { result ≡ channels_of word.now }
    ensures some { IfOk result (λ set. (0 < set) × (set < 8)) }
{
    if word == b"V".as_slice() {
        Ok(1)
    } else if word == b"A".as_slice() {
        Ok(2)
    } else if word == b"A2".as_slice() {
        Ok(4)
    } else if word == b"B".as_slice() {
        Ok(3)
    } else if word == b"AA".as_slice() {
        Ok(6)
    } else if word == b"A2/V".as_slice() {
        Ok(5)
    } else if word == b"AA/V".as_slice() {
        Ok(7)
    } else {
        Err(LineCode::P8)
    }
}

// The frame of the day that a timecode names, or P3 where it names none.
fn time(word: &[u8], counting: &Counting) -> Result<u32, LineCode>
    ensures read { result ≡ time_of counting.now word.now }
    ensures within { IfOk result (λ frame. frame < MAX_DAY_FRAMES) }
{
    match label_frame(word, counting) {
        Some(frame) => Ok(frame),
        None => Err(LineCode::P3),
    }
}

// What source in, source out, record in and record out name: P3 of a label that is none, P4 where they don't fit.
pub(crate) fn times(
    source_in: &[u8],
    source_out: &[u8],
    record_in: &[u8],
    record_out: &[u8],
    counting: &Counting,
) -> Result<Span, LineCode>
    ensures read { result
        ≡ span_of counting.now source_in.now source_out.now record_in.now record_out.now }
    ensures source { IfOk result (λ s. s.source + s.len < MAX_DAY_FRAMES) }
    ensures place { IfOk result (λ s. s.place + s.len < MAX_DAY_FRAMES) }
{
    let source = time(source_in, counting)?;
    let source_end = time(source_out, counting)?;
    let place = time(record_in, counting)?;
    let place_end = time(record_out, counting)?;
    span_between(source, source_end, place, place_end)
}

// The span from these ins to these outs, or P4 where an out is before its in, or the two lengths differ.
fn span_between(source: u32, source_end: u32, place: u32, place_end: u32) -> Result<Span, LineCode>
    requires source { source_end < MAX_DAY_FRAMES }
    requires place { place_end < MAX_DAY_FRAMES }
    ensures read { result ≡ span_between source source_end place place_end }
    ensures source { IfOk result (λ s. s.source + s.len < MAX_DAY_FRAMES) }
    ensures place { IfOk result (λ s. s.place + s.len < MAX_DAY_FRAMES) }
{
    if source > source_end || place > place_end {
        return Err(LineCode::P4);
    }
    if source_end - source != place_end - place {
        return Err(LineCode::P4);
    }
    Ok(Span {
        source,
        place,
        len: place_end - place,
    })
}

// The counting that the words after `FCM:` set, or P12 where they set none of the rate.
pub(crate) fn counting_set(rate: SequenceRate, words: &[&[u8]]) -> Result<Counting, LineCode>
    ensures { result ≡ counting_of rate (texts_of words.now) }
{
    match words {
        [first, second] => {
            if *second != b"FRAME".as_slice() {
                return Err(LineCode::P12);
            }
            if *first == b"NON-DROP".as_slice() {
                return Ok(non_drop(rate));
            }
            if *first == b"DROP".as_slice() {
                return drop_frame(rate);
            }
            Err(LineCode::P12)
        }
        _ => Err(LineCode::P12),
    }
}

/// Counting without drop-frame, which each rate has. A list begins with it.
pub fn non_drop(rate: SequenceRate) -> Counting
    ensures { result ≡ record { rate = rate; drop_frame = false } }
{
    match Counting::new(rate, false) {
        Some(counting) => counting,
        None => unreachable!(),
    }
}

// Drop-frame counting, or P12 at a rate that has none.
fn drop_frame(rate: SequenceRate) -> Result<Counting, LineCode>
    ensures { result ≡ drop_frame_at rate }
{
    match Counting::new(rate, true) {
        Some(counting) => Ok(counting),
        None => Err(LineCode::P12),
    }
}
