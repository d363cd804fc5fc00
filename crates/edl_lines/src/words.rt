// The words of a line.
ghost use Rattle.std.specs.Prelude.{◌≡◌, map, take};
ghost use Rattle.line_words.specs.Blanks.{words_of};

use line_words::next_word;
use std::marker::Model;

/// The most words that are kept of a line. No line of an event has more than nine.
const MOST_WORDS: usize = 10;

/// The first ten words of a line. Contracts see their bytes.
#[derive(Drop)]
pub(crate) struct LineWords<'a> {
    words: [&'a [u8]; MOST_WORDS],
    count: usize,
}

impl<'a> Model for LineWords<'a> {
    ghost use Rattle.std.specs.Prelude.{◌≤◌, List, ℕ, map, take};

    ghost Value = { List (List ℕ) };

    ghost view = { λ w. map (λ word. word.now) (take w.count w.words) };

    ghost invariant = { λ w. w.count ≤ 10 };
}

impl<'a> LineWords<'a> {
    /// The words, in order.
    pub(crate) fn as_slice(&self) -> &[&'a [u8]]
        ensures { map (λ w. w.now) result.now ≡ self.now }
    {
        &self.words[..self.count]
    }
}

// The first words of a line, or all where there are no more.
pub(crate) fn first_words(line: &[u8]) -> LineWords<'_>
    ensures { result ≡ take MOST_WORDS (words_of line.now) }
{
    let mut words = [&line[..0]; MOST_WORDS];
    let mut count = 0;
    let mut rest = line;
    while let Some((start, end)) = next_word(rest, 0) {
        if count == MOST_WORDS {
            return LineWords { words, count };
        }
        words[count] = &rest[start..end];
        count += 1;
        rest = &rest[end..];
    }
    LineWords { words, count }
}
