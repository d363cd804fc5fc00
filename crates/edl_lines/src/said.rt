// What a line says.
ghost use Rattle.std.specs.Prelude.{◌≡◌, IfOk};
ghost use Rattle.edl_lines.specs.EventLines.{line_says, set_counting, texts_of, words_say};
ghost use Rattle.edl_lines.specs.LineFacts.{IsSaid};

use crate::LineCode;
use crate::event_line::{EventLine, event_line};
use crate::parts::{counting_set, is_note};
use crate::words::first_words;
use line_words::LineEnd;
use timecode12::{Counting, SequenceRate};

/// What a line says.
#[derive(Drop)]
pub enum Said {
    /// Nothing: it is passed over.
    Skipped,
    /// The counting of the lines that follow.
    Counts(Counting),
    /// An event, or the cut of one.
    Tells(EventLine),
}

/// What a line of these bytes says by itself, at the rate of its list and in the counting that holds there, or the first
/// thing that is wrong with it. `end` says whether it has over 1,024 bytes.
pub fn line_says(
    rate: SequenceRate,
    counting: &Counting,
    text: &[u8],
    end: LineEnd,
) -> Result<Said, LineCode>
    ensures read { result ≡ line_says rate counting.now (record { text = text.now; end = end }) }
    ensures line { IfOk result (λ said. IsSaid said) }
{
    let words = first_words(text);
    words_say(rate, counting, end, words.as_slice())
}

// What a line of these words says: nothing without words or for a note, a counting after `FCM:`, else an event.
fn words_say(
    rate: SequenceRate,
    counting: &Counting,
    end: LineEnd,
    words: &[&[u8]],
) -> Result<Said, LineCode>
    ensures read { result ≡ words_say rate counting.now end (texts_of words.now) }
    ensures line { IfOk result (λ said. IsSaid said) }
{
    match words {
        [] => Ok(Said::Skipped),
        [first, rest @ ..] => {
            if is_note(first) {
                return Ok(Said::Skipped);
            }
            if *first == b"FCM:".as_slice() {
                let set = counting_set(rate, rest)?;
                return set_counting(end, set);
            }
            let line = event_line(counting, end, first, words)?;
            Ok(Said::Tells(line))
        }
    }
}

// The counting that a line sets, or P1 where the line is too long.
fn set_counting(end: LineEnd, counting: Counting) -> Result<Said, LineCode>
    ensures read { result ≡ set_counting end counting }
    ensures line { IfOk result (λ said. IsSaid said) }
{
    match end {
        LineEnd::TooLong => Err(LineCode::P1),
        LineEnd::Whole => Ok(Said::Counts(counting)),
    }
}
