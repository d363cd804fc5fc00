// The words of a line.
ghost use Rattle.std.specs.Prelude.{◌≡◌, ◌<◌, ◌∷◌, [], length, map, IfOk, IfErr, MatchOption};
ghost use Rattle.line_words.specs.Blanks.{words_of};

use crate::LineFault;
use line_words::next_word;
use std::marker::Model;

/// The most words that are kept of a line after its first. No row of the table has more.
const MOST_WORDS: usize = 8;

/// At most eight words. Contracts see their bytes.
#[derive(Drop)]
pub(crate) struct LineWords<'a> {
    words: [&'a [u8]; MOST_WORDS],
    count: usize,
}

impl<'a> Model for LineWords<'a> {
    ghost use Rattle.std.specs.Prelude.{◌≤◌, List, ℕ, map, take};

    ghost Value = { List (List ℕ) };

    ghost view = { λ w. map (λ word. word.now) (take w.count w.words) };

    ghost invariant = { λ w. w.count ≤ 8 };
}

impl<'a> LineWords<'a> {
    /// The words, in order.
    pub(crate) fn as_slice(&self) -> &[&'a [u8]]
        ensures { map (λ w. w.now) result.now ≡ self.now }
    {
        &self.words[..self.count]
    }
}

/// The first word of a line, and the line after it, or the fault of a line that has no word.
pub fn first_word(line: &[u8]) -> Result<(&[u8], &[u8]), LineFault>
    ensures ok { IfOk result (λ r. words_of line.now ≡ r.0.now ∷ words_of r.1.now) }
    ensures err { IfErr result (λ e. (e ≡ LineFault.B2) × (words_of line.now ≡ [])) }
{
    match next_word(line, 0) {
        Some((start, end)) => Ok((&line[start..end], &line[end..])),
        None => Err(LineFault::B2),
    }
}

// The words of a line, where there are at most eight.
pub(crate) fn line_words(line: &[u8]) -> Option<LineWords<'_>>
    ensures { MatchOption result (MOST_WORDS < length (words_of line.now))
        (λ words. words ≡ words_of line.now) }
{
    let mut words = [&line[..0]; MOST_WORDS];
    let mut count = 0;
    let mut rest = line;
    while let Some((start, end)) = next_word(rest, 0) {
        if count == MOST_WORDS {
            return None;
        }
        words[count] = &rest[start..end];
        count += 1;
        rest = &rest[end..];
    }
    Some(LineWords { words, count })
}
