// The bytes that are left, and the blanks and words in them.
ghost use Rattle.std.specs.Prelude.{◌≡◌, ◌+◌, ◌≤◌, ◌<◌, length, drop, option_map};
ghost use Rattle.json_tokens.specs.Reading.{Gives, blank_at, past_blanks, byte_at, word_at};

use crate::fault::JsonFault;

/// The bytes that are left to read, and how many stand before them.
#[derive(Clone, Copy)]
pub struct Rest<'a> {
    /// How many bytes stand before them.
    pub at: u32,
    /// The bytes that are left.
    pub bytes: &'a [u8],
    ghost within: { at + length bytes.now ≤ 33554432 },
}

/// What is left past spaces, tabs, line feeds and carriage returns.
#[tactic(auto, using(crate::proofs::Blanks::blank_on, crate::proofs::Blanks::blank_end, crate::proofs::Blanks::blank_shorter))]
pub fn past_blanks(rest: Rest<'_>) -> Rest<'_>
    ensures { (result.at, result.bytes.now) ≡ past_blanks rest.entry.at rest.entry.bytes.now }
{
    let mut rest = rest;
    while let Some(after) = past_blank(rest) {
        rest = after;
    }
    rest
}

/// What is left past one blank; `None` where none stands there.
fn past_blank(rest: Rest<'_>) -> Option<Rest<'_>>
    ensures { option_map (λ r. (r.at, r.bytes.now)) result
        ≡ blank_at rest.entry.at rest.entry.bytes.now }
{
    match rest.bytes {
        [b' ' | b'\t' | b'\n' | b'\r', bytes @ ..] => Some(Rest {
            at: rest.at + 1,
            bytes,
        }),
        _ => None,
    }
}

/// What is left past that byte; `None` where another one stands there, or none.
pub fn past_byte(byte: u8, rest: Rest<'_>) -> Option<Rest<'_>>
    ensures { option_map (λ r. (r.at, r.bytes.now)) result
        ≡ byte_at byte rest.entry.at rest.entry.bytes.now }
{
    match rest.bytes {
        [first, bytes @ ..] if *first == byte => Some(Rest {
            at: rest.at + 1,
            bytes,
        }),
        _ => None,
    }
}

/// What is left past the bytes of the word, or the fault at the first other one.
pub fn word<'a>(word: &[u8], rest: Rest<'a>) -> Result<Rest<'a>, JsonFault>
    ensures { Gives (λ r. (r.at, r.bytes.now)) result
        (word_at word.now rest.entry.at rest.entry.bytes.now) }
{
    let mut rest = rest;
    for letter in word {
        match past_byte(*letter, rest) {
            Some(after) => rest = after,
            None => return Err(JsonFault::Syntax(rest.at)),
        }
    }
    Ok(rest)
}
