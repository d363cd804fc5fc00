// What the line of a record begins with.
ghost use Rattle.std.specs.Prelude.{◌≡◌, ◌∷◌, [], None, Some, MatchOption};
ghost use Rattle.line_words.specs.Blanks.{words_of};
ghost use Rattle.journal_text.specs.LooseEntries.{number_before};
ghost use Rattle.kept_numbers.specs.Numbers.{numbered};

use line_words::{next_word, number};

/// The station and the number that a line begins with; `None` where it does not begin with two numbers.
pub(crate) fn numbered(line: &[u8]) -> Option<(u32, u32)>
    ensures { result ≡ numbered line.now }
{
    let (station, rest) = match first_number(line) {
        Some(found) => found,
        None => return None,
    };
    match first_number(rest) {
        Some((number, _)) => Some((station, number)),
        None => None,
    }
}

// The number that the first word of a line is, and what stands after that word.
fn first_number(line: &[u8]) -> Option<(u32, &[u8])>
    ensures { MatchOption result (number_before (words_of line.now) ≡ None)
        (λ r. number_before (words_of line.now) ≡ Some (r.0, words_of r.1.now)) }
{
    let (word, rest) = match first_word(line) {
        Some(found) => found,
        None => return None,
    };
    match number(word) {
        Ok(number) => Some((number, rest)),
        Err(_) => None,
    }
}

// The first word of a line and what stands after it; none where it has no word.
fn first_word(line: &[u8]) -> Option<(&[u8], &[u8])>
    ensures { MatchOption result (words_of line.now ≡ [])
        (λ w. words_of line.now ≡ w.0.now ∷ words_of w.1.now) }
{
    match next_word(line, 0) {
        Some((start, end)) => Some((&line[start..end], &line[end..])),
        None => None,
    }
}
