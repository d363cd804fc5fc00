// The point that a reply names.
ghost use Rattle.std.specs.Prelude.{◌≡◌, codes};
ghost use Rattle.line_words.specs.Blanks.{words_of};
ghost use Rattle.recorded_sessions.specs.Naming.{leads, number_in, point_named, tail};

use line_words::{next_word, number};

// What stands behind the first word of a text.
fn after_word(text: &[u8]) -> &[u8]
    ensures { words_of result.now ≡ tail (words_of text.now) }
{
    match next_word(text, 0) {
        Some((_, end)) => &text[end..],
        None => &text[text.len()..],
    }
}

// The number that the first word of a text is.
fn first_number(text: &[u8]) -> Option<u32>
    ensures { result ≡ number_in (words_of text.now) }
{
    match next_word(text, 0) {
        Some((start, end)) => number(&text[start..end]).ok(),
        None => None,
    }
}

// Whether the first word of a text is `news`.
fn begins_news(text: &[u8]) -> bool
    ensures { result ≡ leads (codes "news") (words_of text.now) }
{
    match next_word(text, 0) {
        Some((start, end)) => &text[start..end] == b"news".as_slice(),
        None => false,
    }
}

/// The point that a reply names: the number that its second word is, and of `news` its third. It may be a reply to
/// nothing.
pub fn point_named(reply: &[u8]) -> Option<u32>
    ensures { result ≡ point_named reply.now }
{
    let words = after_word(reply);
    if begins_news(reply) {
        first_number(after_word(words))
    } else {
        first_number(words)
    }
}
