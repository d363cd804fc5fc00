// Numbers in decimal digits.
ghost use Rattle.std.specs.Prelude.{◌≡◌, ◌^◌, Some, None, true, nat_lt, if◌then◌else◌};
ghost use Rattle.std.specs.Char.{is_ascii_digit};
ghost use Rattle.std.specs.List.{list_all};
ghost use Rattle.line_words.specs.Digits.{is_number, value_of, number_of, signed_of};

use std::error::Error;
use std::fmt;

/// Why a word is no number.
#[derive(Clone, Copy, Debug, PartialEq, Eq)]
pub enum NumberFault {
    /// The word is not spelled as a number.
    NotANumber,
    /// The word is spelled as a number, one that 32 bits do not hold.
    TooLarge,
}

impl fmt::Display for NumberFault {
    fn fmt<W: fmt::Write>(&self, f: &mut fmt::Formatter<W>) -> fmt::Result {
        f.write_str(match self {
            NumberFault::NotANumber => "the word is no number",
            NumberFault::TooLarge => "the number is too large for 32 bits",
        })
    }
}

impl Error for NumberFault {}

/// The number that a word spells: one or more decimal digits, of any count, with a value below 2^32.
pub fn number(word: &[u8]) -> Result<u32, NumberFault>
    ensures { result ≡ number_of word.now }
{
    if !is_spelled(word) {
        return Err(NumberFault::NotANumber);
    }
    small_value(word).ok_or(NumberFault::TooLarge)
}

/// The number that a word spells with or without one `-` before its digits, from -2^31 to 2^31 - 1.
pub fn signed(word: &[u8]) -> Result<i32, NumberFault>
    ensures { result ≡ signed_of word.now }
{
    match word {
        [b'-', digits @ ..] => {
            let magnitude = number(digits)?;
            i32::try_from(-i64::from(magnitude)).map_err(|_| NumberFault::TooLarge)
        }
        _ => {
            let magnitude = number(word)?;
            i32::try_from(magnitude).map_err(|_| NumberFault::TooLarge)
        }
    }
}

// Whether a word is spelled as a number: one decimal digit or more, and nothing else.
fn is_spelled(word: &[u8]) -> bool
    ensures { result ≡ is_number word.now }
{
    !word.is_empty() && are_digits(word)
}

// Whether all of these bytes are decimal digits.
fn are_digits(word: &[u8]) -> bool
    ensures { result ≡ list_all is_ascii_digit word.now }
{
    word.iter().all(|byte| byte.is_ascii_digit())
}

// The value of digits, where it is below 2^32.
fn small_value(digits: &[u8]) -> Option<u32>
    requires { list_all is_ascii_digit digits.now ≡ true }
    ensures { result
        ≡ (if nat_lt (value_of digits.now) (2 ^ 32) then Some (value_of digits.now) else None) }
{
    let mut value = 0;
    for digit in digits {
        let longer = u64::from(value) * 10 + u64::from(*digit - b'0');
        if longer > u64::from(u32::MAX) {
            return None;
        }
        value = longer as u32;
    }
    Some(value)
}
