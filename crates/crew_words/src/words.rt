// The words of a line, one after another.
ghost use Rattle.std.specs.Prelude.{◌≡◌, ◌∷◌, [], MatchOption};
ghost use Rattle.line_words.specs.Blanks.{words_of};
ghost use Rattle.line_words.specs.Lines.{without_cr};

use line_words::next_word;

/// The first word of a line and what stands after it; none where it has no word.
pub(crate) fn first_word(line: &[u8]) -> Option<(&[u8], &[u8])>
    ensures { MatchOption result (words_of line.now ≡ [])
        (λ w. words_of line.now ≡ w.0.now ∷ words_of w.1.now) }
{
    match next_word(line, 0) {
        Some((start, end)) => Some((&line[start..end], &line[end..])),
        None => None,
    }
}

/// All but a carriage return at the end.
pub(crate) fn without_cr(line: &[u8]) -> &[u8]
    ensures { result.now ≡ without_cr line.now }
{
    if !line.is_empty() && line[line.len() - 1] == b'\r' {
        &line[..line.len() - 1]
    } else {
        line
    }
}
