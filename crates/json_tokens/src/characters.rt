// The characters of a text: raw ones in UTF-8 (Unicode, table 3-7), and escapes (RFC 8259, section 7).
ghost use Rattle.std.specs.Prelude.{◌≡◌, ◌+◌, ◌*◌, ◌<◌, ◌≤◌, length, IfOk, IfSome};
ghost use Rattle.std.specs.Char.{InScalarRange};
ghost use Rattle.json_tokens.specs.Reading.{Gives};
ghost use Rattle.json_tokens.specs.ReadingTexts.{lead, continuation_at, sequence_at, escape_at, unicode_at, unit_at, hex_at, second_half_at, half_digits_at, half_end_at, pair_at, half_byte_at, half_digit_at, character_at, text_at};
ghost use Rattle.json_tokens.specs.Tables.{short_escape, hex_value};

use crate::fault::JsonFault;
use crate::rest::{Rest, past_byte};
use crate::text::Text;
use std::alloc::Global;

/// How many bytes a raw character has past its first, and the bounds of its second byte.
#[derive(Clone, Copy)]
enum Lead {
    /// One byte more, from 0x80 to 0xbf.
    Two,
    /// Two bytes more.
    Three { low: u8, high: u8 },
    /// Three bytes more.
    Four { low: u8, high: u8 },
}

/// The text after an opening quote, up to the closing one, and what is left past that.
pub fn text_behind_quote(alloc: Global, rest: Rest<'_>) -> Result<(Text, Rest<'_>), JsonFault>
    ensures { Gives (λ r. (r.0, r.1.at, r.1.bytes.now)) result
        (text_at (length rest.entry.bytes.now) rest.entry.at rest.entry.bytes.now) }
{
    let mut string = String::new(alloc);
    let mut rest = rest;
    let most = rest.bytes.len();
    for _ in 0..most {
        match past_byte(b'"', rest) {
            Some(after) => return Ok((Text::from_string(string), after)),
            None => {}
        }
        let (character, after) = character(rest)?;
        string.push(character)?;
        rest = after;
    }
    Err(JsonFault::Syntax(rest.at))
}

/// The character at the front, raw or escaped.
#[tactic(auto, unfolding(crate::specs::ReadingTexts::character_at))]
fn character(rest: Rest<'_>) -> Result<(char, Rest<'_>), JsonFault>
    ensures { Gives (λ r. (r.0, r.1.at, r.1.bytes.now)) result
        (character_at rest.entry.at rest.entry.bytes.now) }
{
    match rest.bytes {
        [0..=31, ..] | [] => Err(JsonFault::Syntax(rest.at)),
        [b'\\', bytes @ ..] => escape(
            rest.at,
            Rest {
                at: rest.at + 1,
                bytes,
            },
        ),
        [byte @ 32..=127, bytes @ ..] => {
            let after = Rest {
                at: rest.at + 1,
                bytes,
            };
            Ok((*byte as char, after))
        }
        [first, bytes @ ..] => {
            let after = Rest {
                at: rest.at + 1,
                bytes,
            };
            sequence(rest.at, *first, after)
        }
    }
}

/// What the first byte of a raw character of two to four bytes asks of the bytes after it. `None`
/// where no character begins so.
fn lead_of(first: u8) -> Option<Lead>
    ensures { result ≡ lead first }
{
    match first {
        0xc2..=0xdf => Some(Lead::Two),
        0xe0 => Some(Lead::Three {
            low: 0xa0,
            high: 0xbf,
        }),
        0xed => Some(Lead::Three {
            low: 0x80,
            high: 0x9f,
        }),
        0xe1..=0xef => Some(Lead::Three {
            low: 0x80,
            high: 0xbf,
        }),
        0xf0 => Some(Lead::Four {
            low: 0x90,
            high: 0xbf,
        }),
        0xf1..=0xf3 => Some(Lead::Four {
            low: 0x80,
            high: 0xbf,
        }),
        0xf4 => Some(Lead::Four {
            low: 0x80,
            high: 0x8f,
        }),
        _ => None,
    }
}

/// The raw character whose first byte stands at `start`, with `rest` after that byte.
#[tactic(auto, unfolding(crate::specs::ReadingTexts::sequence_at, crate::specs::ReadingTexts::two_at, crate::specs::ReadingTexts::three_at, crate::specs::ReadingTexts::four_at))]
fn sequence(start: u32, first: u8, rest: Rest<'_>) -> Result<(char, Rest<'_>), JsonFault>
    ensures { Gives (λ r. (r.0, r.1.at, r.1.bytes.now)) result
        (sequence_at start first rest.entry.at rest.entry.bytes.now) }
{
    match lead_of(first) {
        None => Err(JsonFault::NotUtf8(start)),
        Some(Lead::Two) => {
            let (second, rest) = continuation(start, 0x80, 0xbf, rest)?;
            let code = (first as u32 - 0xc0) * 0x40 + (second as u32 - 0x80);
            Ok((scalar(code), rest))
        }
        Some(Lead::Three { low, high }) => {
            let (second, rest) = continuation(start, low, high, rest)?;
            let (third, rest) = continuation(start, 0x80, 0xbf, rest)?;
            let code = (first as u32 - 0xe0) * 0x1000
                + (second as u32 - 0x80) * 0x40
                + (third as u32 - 0x80);
            Ok((scalar(code), rest))
        }
        Some(Lead::Four { low, high }) => {
            let (second, rest) = continuation(start, low, high, rest)?;
            let (third, rest) = continuation(start, 0x80, 0xbf, rest)?;
            let (fourth, rest) = continuation(start, 0x80, 0xbf, rest)?;
            let code = (first as u32 - 0xf0) * 0x4_0000
                + (second as u32 - 0x80) * 0x1000
                + (third as u32 - 0x80) * 0x40
                + (fourth as u32 - 0x80);
            Ok((scalar(code), rest))
        }
    }
}

/// The next byte of the raw character that begins at `start`. A byte out of its bounds makes the character no UTF-8.
fn continuation(start: u32, low: u8, high: u8, rest: Rest<'_>) -> Result<(u8, Rest<'_>), JsonFault>
    ensures within { IfOk result (λ r. (low ≤ r.0) × (r.0 ≤ high)) }
    ensures given { Gives (λ r. (r.0, r.1.at, r.1.bytes.now)) result
        (continuation_at start low high rest.entry.at rest.entry.bytes.now) }
{
    match rest.bytes {
        [] => Err(JsonFault::Syntax(rest.at)),
        [byte, bytes @ ..] => {
            if *byte < low || *byte > high {
                return Err(JsonFault::NotUtf8(start));
            }
            let after = Rest {
                at: rest.at + 1,
                bytes,
            };
            Ok((*byte, after))
        }
    }
}

/// The character of a number that is one of Unicode, and no half of a surrogate pair.
fn scalar(code: u32) -> char
    requires { InScalarRange code }
    ensures { result ≡ code }
{
    match char::from_u32(code) {
        Some(character) => character,
        None => unreachable!(),
    }
}

/// The character that is escaped by the backslash at `start`, with `rest` after it.
#[tactic(auto, unfolding(crate::specs::ReadingTexts::escape_at))]
fn escape(start: u32, rest: Rest<'_>) -> Result<(char, Rest<'_>), JsonFault>
    ensures { Gives (λ r. (r.0, r.1.at, r.1.bytes.now)) result
        (escape_at start rest.entry.at rest.entry.bytes.now) }
{
    match rest.bytes {
        [] => Err(JsonFault::Syntax(rest.at)),
        [byte, bytes @ ..] => {
            let after = Rest {
                at: rest.at + 1,
                bytes,
            };
            if *byte == b'u' {
                return unicode(start, after);
            }
            match short_escape(*byte) {
                Some(character) => Ok((character, after)),
                None => Err(JsonFault::Syntax(rest.at)),
            }
        }
    }
}

/// The character that one letter after a backslash stands for; `None` for a letter that stands for none.
fn short_escape(byte: u8) -> Option<char>
    ensures { result ≡ short_escape byte }
{
    match byte {
        b'"' | b'\\' | b'/' => Some(byte as char),
        b'b' => Some('\x08'),
        b'f' => Some('\x0c'),
        b'n' => Some('\n'),
        b'r' => Some('\r'),
        b't' => Some('\t'),
        _ => None,
    }
}

/// The character of the escape with digits: of one, or of a pair for the two halves of a surrogate pair.
#[tactic(auto, unfolding(crate::specs::ReadingTexts::unicode_at))]
fn unicode(start: u32, rest: Rest<'_>) -> Result<(char, Rest<'_>), JsonFault>
    ensures { Gives (λ r. (r.0, r.1.at, r.1.bytes.now)) result
        (unicode_at start rest.entry.at rest.entry.bytes.now) }
{
    let (unit, rest) = unit(rest)?;
    if unit < 0xd800 || unit >= 0xe000 {
        return Ok((scalar(unit), rest));
    }
    if unit >= 0xdc00 {
        return Err(JsonFault::Syntax(start));
    }
    pair(start, unit, rest)
}

/// The character of a surrogate pair, after its first half, whose escape stands at `start`.
#[tactic(auto, unfolding(crate::specs::ReadingTexts::pair_at))]
fn pair(start: u32, first: u32, rest: Rest<'_>) -> Result<(char, Rest<'_>), JsonFault>
    requires low { 0xd800 ≤ first }
    requires high { first < 0xdc00 }
    ensures { Gives (λ r. (r.0, r.1.at, r.1.bytes.now)) result
        (pair_at start first rest.entry.at rest.entry.bytes.now) }
{
    let (second, rest) = second_half(start, rest)?;
    let code = 0x1_0000 + (first - 0xd800) * 0x400 + (second - 0xdc00);
    Ok((scalar(code), rest))
}

/// The number of four hexadecimal digits at the front, or the fault at the first byte that is none.
#[tactic(auto, unfolding(crate::specs::ReadingTexts::unit_at))]
fn unit(rest: Rest<'_>) -> Result<(u32, Rest<'_>), JsonFault>
    ensures unit { IfOk result (λ r. r.0 < 0x10000) }
    ensures given { Gives (λ r. (r.0, r.1.at, r.1.bytes.now)) result
        (unit_at rest.entry.at rest.entry.bytes.now) }
{
    let (first, rest) = hex(rest)?;
    let (second, rest) = hex(rest)?;
    let (third, rest) = hex(rest)?;
    let (fourth, rest) = hex(rest)?;
    Ok((
        first * 0x1000 + second * 0x100 + third * 0x10 + fourth,
        rest,
    ))
}

/// The value of the hexadecimal digit at the front, or the fault where none stands there.
fn hex(rest: Rest<'_>) -> Result<(u32, Rest<'_>), JsonFault>
    ensures digit { IfOk result (λ r. r.0 < 16) }
    ensures given { Gives (λ r. (r.0, r.1.at, r.1.bytes.now)) result
        (hex_at rest.entry.at rest.entry.bytes.now) }
{
    match rest.bytes {
        [] => Err(JsonFault::Syntax(rest.at)),
        [byte, bytes @ ..] => {
            let after = Rest {
                at: rest.at + 1,
                bytes,
            };
            match hex_value(*byte) {
                Some(value) => Ok((value, after)),
                None => Err(JsonFault::Syntax(rest.at)),
            }
        }
    }
}

/// The value of a hexadecimal digit, in small letters or capitals.
fn hex_value(byte: u8) -> Option<u32>
    ensures digit { IfSome result (λ value. value < 16) }
    ensures value { result ≡ hex_value byte }
{
    match byte {
        b'0'..=b'9' => Some(byte as u32 - 48),
        b'a'..=b'f' => Some(byte as u32 - 87),
        b'A'..=b'F' => Some(byte as u32 - 55),
        _ => None,
    }
}

/// The second half of a pair whose first half is escaped at `start`. What is no such escape makes that
/// half a lone one.
#[tactic(auto, unfolding(crate::specs::ReadingTexts::second_half_at))]
fn second_half(start: u32, rest: Rest<'_>) -> Result<(u32, Rest<'_>), JsonFault>
    ensures low { IfOk result (λ r. (0xdc00 ≤ r.0) × (r.0 < 0xe000)) }
    ensures given { Gives (λ r. (r.0, r.1.at, r.1.bytes.now)) result
        (second_half_at start rest.entry.at rest.entry.bytes.now) }
{
    let rest = half_byte(start, b'\\', rest)?;
    let rest = half_byte(start, b'u', rest)?;
    half_digits(start, rest)
}

/// The four digits of a second half, past `\u`: from dc00 to dfff. Any other digits are a fault of
/// the first half, at `start`.
#[tactic(auto, unfolding(crate::specs::ReadingTexts::half_digits_at))]
fn half_digits(start: u32, rest: Rest<'_>) -> Result<(u32, Rest<'_>), JsonFault>
    ensures low { IfOk result (λ r. (0xdc00 ≤ r.0) × (r.0 < 0xe000)) }
    ensures given { Gives (λ r. (r.0, r.1.at, r.1.bytes.now)) result
        (half_digits_at start rest.entry.at rest.entry.bytes.now) }
{
    let (first, rest) = half_digit(start, rest)?;
    if first != 0xd {
        return Err(JsonFault::Syntax(start));
    }
    let (second, rest) = half_digit(start, rest)?;
    if second < 0xc {
        return Err(JsonFault::Syntax(start));
    }
    half_end(start, second, rest)
}

/// The number of a second half by its last two digits; the two before them are `d` and `second`.
#[tactic(auto, unfolding(crate::specs::ReadingTexts::half_end_at))]
fn half_end(start: u32, second: u32, rest: Rest<'_>) -> Result<(u32, Rest<'_>), JsonFault>
    requires { second < 16 }
    ensures given { Gives (λ r. (r.0, r.1.at, r.1.bytes.now)) result
        (half_end_at start second rest.entry.at rest.entry.bytes.now) }
    ensures low { IfOk result (λ r. (0xd000 + second * 0x100 ≤ r.0)
        × (r.0 < 0xd100 + second * 0x100)) }
{
    let (third, rest) = half_digit(start, rest)?;
    let (fourth, rest) = half_digit(start, rest)?;
    Ok((0xd000 + second * 0x100 + third * 0x10 + fourth, rest))
}

/// Past a byte that a second half needs. Another byte is a fault of the first half, at `start`; the end
/// is one of its own.
fn half_byte(start: u32, wanted: u8, rest: Rest<'_>) -> Result<Rest<'_>, JsonFault>
    ensures { Gives (λ r. (r.at, r.bytes.now)) result
        (half_byte_at start wanted rest.entry.at rest.entry.bytes.now) }
{
    match rest.bytes {
        [] => Err(JsonFault::Syntax(rest.at)),
        [byte, bytes @ ..] => {
            if *byte != wanted {
                return Err(JsonFault::Syntax(start));
            }
            Ok(Rest {
                at: rest.at + 1,
                bytes,
            })
        }
    }
}

/// The value of a hexadecimal digit that a second half needs. Another byte is a fault of the first half, at `start`;
/// the end is one of its own.
fn half_digit(start: u32, rest: Rest<'_>) -> Result<(u32, Rest<'_>), JsonFault>
    ensures digit { IfOk result (λ r. r.0 < 16) }
    ensures given { Gives (λ r. (r.0, r.1.at, r.1.bytes.now)) result
        (half_digit_at start rest.entry.at rest.entry.bytes.now) }
{
    match rest.bytes {
        [] => Err(JsonFault::Syntax(rest.at)),
        [byte, bytes @ ..] => {
            let after = Rest {
                at: rest.at + 1,
                bytes,
            };
            match hex_value(*byte) {
                Some(value) => Ok((value, after)),
                None => Err(JsonFault::Syntax(start)),
            }
        }
    }
}
