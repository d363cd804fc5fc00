// Numbers (RFC 8259, section 6), kept exactly.
ghost use Rattle.std.specs.Prelude.{◌≡◌, ◌≢◌, ℕ, Some, ◌+◌, ◌*◌, ◌%◌, ◌<◌, ◌≤◌, ◌^◌, ◌==◌, if◌then◌else◌, length, take, drop, All, IfOk, IfErr, IfSome, IfNone, ℤ, Bool, true, false};
ghost use Rattle.json_tokens.specs.Grammar.{IsNumber, IsKept};
ghost use Rattle.json_tokens.specs.Reading.{Gives};
ghost use Rattle.json_tokens.specs.ReadingNumerals.{digits_of, past_digits, digits_at, minus_at, whole_at, fraction_at, exponent_sign_at, power_at, exponent_at, spelling_at, numeral_at, numeral_of_digits, numeral_of_fraction, fraction, numeral_in, AreDigits};
ghost use Rattle.json_tokens.specs.Decimal.{Digits, number_from, number_of};
ghost use Rattle.json_tokens.specs.Significant.{Holds, IsSize};
ghost use Rattle.json_tokens.specs.Spelled.{digits_in, numeral_kept, Takes, HasDigits};

use crate::fault::JsonFault;
use crate::rest::Rest;
use ratio_time::Numeral;

/// A number as it is spelled: digits before and after the point, and the digits of its exponent.
#[derive(Clone, Copy)]
struct Spelling<'a> {
    negative: bool,
    whole: &'a [u8],
    fraction: &'a [u8],
    exponent: Exponent<'a>,
}

/// By how many places the point is moved.
#[derive(Clone, Copy)]
struct Exponent<'a> {
    lowers: bool,
    digits: &'a [u8],
}

/// What is left where a digit is missing.
#[derive(Clone, Copy)]
struct NoDigit<'a> {
    rest: &'a [u8],
}

/// The numeral that the whole text spells. There is none where it spells no number, or one with too
/// many digits to be kept.
pub fn numeral(text: &[u8]) -> Option<Numeral>
    ensures found { IfSome result (λ n. (d : Digits) × IsNumber text.now d
        × IsKept d n.mantissa n.places) }
    ensures none { IfNone result ((d : Digits) (m : ℤ) (p : ℕ) → IsNumber text.now d → IsKept d m p
        → ⊥) }

    // The answer as a function of the text, for definitions that compute.
    ensures value { numeral_kept result ≡ numeral_in text.now }
{
    whole_text(text)
}

/// The numeral that the whole text spells, if it spells one that can be kept.
fn whole_text(text: &[u8]) -> Option<Numeral>
    ensures { numeral_kept result ≡ numeral_in text.now }
{
    match take_spelling(text) {
        Ok((spelling, rest)) => {
            if !rest.is_empty() {
                return None;
            }
            kept(&spelling)
        }
        Err(_) => None,
    }
}

/// The number at the front. It is `None` where it is a lawful number that is too wide to be kept.
#[tactic(auto, unfolding(crate::specs::ReadingNumerals::numeral_at))]
pub fn numeral_value(rest: Rest<'_>) -> Result<(Option<Numeral>, Rest<'_>), JsonFault>
    ensures { Gives (λ r. (numeral_kept r.0, r.1.at, r.1.bytes.now)) result
        (numeral_at rest.entry.at rest.entry.bytes.now) }
{
    let most = rest.bytes.len();
    match take_spelling(rest.bytes) {
        Ok((spelling, bytes)) => {
            let at = rest.at + (most - bytes.len()) as u32;
            Ok((kept(&spelling), Rest { at, bytes }))
        }
        Err(stop) => Err(JsonFault::Syntax(rest.at + (most - stop.rest.len()) as u32)),
    }
}

/// The number at the front as it is spelled, and what is left after it; or where a digit is missing.
#[tactic(auto, unfolding(crate::specs::ReadingNumerals::spelling_at))]
fn take_spelling(bytes: &[u8]) -> Result<(Spelling<'_>, &[u8]), NoDigit<'_>>
    ensures given { Takes (λ r. (digits_in r.0, r.1.now)) result (spelling_at bytes.now) }
    ensures digits { IfOk result (λ r. HasDigits r.0) }
    ensures shorter { IfOk result (λ r. length r.1.now ≤ length bytes.now) }
    ensures stop { IfErr result (λ s. length s.rest.now ≤ length bytes.now) }
{
    let (negative, rest) = take_minus(bytes);
    let (whole, rest) = take_whole(rest)?;
    let (fraction, rest) = take_fraction(rest)?;
    let (exponent, rest) = take_exponent(rest)?;
    let spelling = Spelling {
        negative,
        whole,
        fraction,
        exponent,
    };
    Ok((spelling, rest))
}

/// Whether a minus stands at the front, and what is left after it.
fn take_minus(bytes: &[u8]) -> (bool, &[u8])
    ensures given { (result.0, result.1.now) ≡ minus_at bytes.now }
    ensures shorter { length result.1.now ≤ length bytes.now }
{
    match bytes {
        [b'-', rest @ ..] => (true, rest),
        _ => (false, bytes),
    }
}

/// The whole part: a zero alone, or digits that begin with another.
#[tactic(auto, unfolding(crate::specs::ReadingNumerals::whole_at, crate::specs::ReadingNumerals::digits_at))]
fn take_whole(bytes: &[u8]) -> Result<(&[u8], &[u8]), NoDigit<'_>>
    ensures given { Takes (λ r. (r.0.now, r.1.now)) result (whole_at bytes.now) }
    ensures digits { IfOk result (λ r. AreDigits r.0.now) }
    ensures shorter { IfOk result (λ r. length r.1.now ≤ length bytes.now) }
    ensures stop { IfErr result (λ s. length s.rest.now ≤ length bytes.now) }
{
    match bytes {
        [b'0', rest @ ..] => Ok((b"0", rest)),
        _ => take_digits(bytes),
    }
}

/// The digits after a point at the front; none where no point stands there.
#[tactic(auto, unfolding(crate::specs::ReadingNumerals::fraction_at))]
fn take_fraction(bytes: &[u8]) -> Result<(&[u8], &[u8]), NoDigit<'_>>
    ensures given { Takes (λ r. (r.0.now, r.1.now)) result (fraction_at bytes.now) }
    ensures digits { IfOk result (λ r. AreDigits r.0.now) }
    ensures shorter { IfOk result (λ r. length r.1.now ≤ length bytes.now) }
    ensures stop { IfErr result (λ s. length s.rest.now ≤ length bytes.now) }
{
    match bytes {
        [b'.', rest @ ..] => take_digits(rest),
        _ => Ok((&[], bytes)),
    }
}

/// The exponent at the front; one that moves the point by nothing where no `e` stands there.
#[tactic(auto, unfolding(crate::specs::ReadingNumerals::exponent_at))]
fn take_exponent(bytes: &[u8]) -> Result<(Exponent<'_>, &[u8]), NoDigit<'_>>
    ensures given { Takes (λ r. ((r.0.lowers, r.0.digits.now), r.1.now)) result
        (exponent_at bytes.now) }
    ensures digits { IfOk result (λ r. AreDigits r.0.digits.now) }
    ensures shorter { IfOk result (λ r. length r.1.now ≤ length bytes.now) }
    ensures stop { IfErr result (λ s. length s.rest.now ≤ length bytes.now) }
{
    match bytes {
        [b'e' | b'E', rest @ ..] => take_power(rest),
        _ => {
            let none = Exponent {
                lowers: false,
                digits: &[],
            };
            Ok((none, bytes))
        }
    }
}

/// The exponent past its `e`: a sign, if one stands there, and one digit or more.
#[tactic(auto, unfolding(crate::specs::ReadingNumerals::power_at))]
fn take_power(bytes: &[u8]) -> Result<(Exponent<'_>, &[u8]), NoDigit<'_>>
    ensures given { Takes (λ r. ((r.0.lowers, r.0.digits.now), r.1.now)) result
        (power_at bytes.now) }
    ensures digits { IfOk result (λ r. AreDigits r.0.digits.now) }
    ensures shorter { IfOk result (λ r. length r.1.now ≤ length bytes.now) }
    ensures stop { IfErr result (λ s. length s.rest.now ≤ length bytes.now) }
{
    let (lowers, rest) = take_exponent_sign(bytes);
    let (digits, rest) = take_digits(rest)?;
    Ok((Exponent { lowers, digits }, rest))
}

/// Whether the exponent lowers the number, past its sign if one stands there.
fn take_exponent_sign(bytes: &[u8]) -> (bool, &[u8])
    ensures given { (result.0, result.1.now) ≡ exponent_sign_at bytes.now }
    ensures shorter { length result.1.now ≤ length bytes.now }
{
    match bytes {
        [b'+', rest @ ..] => (false, rest),
        _ => take_minus(bytes),
    }
}

/// One digit or more at the front, and what is left after them.
#[tactic(auto, using(crate::proofs::Digits::are_digits, crate::proofs::Digits::front_digits, crate::proofs::Digits::behind_digits, crate::proofs::Digits::few_digits), unfolding(crate::specs::ReadingNumerals::digits_at))]
fn take_digits(bytes: &[u8]) -> Result<(&[u8], &[u8]), NoDigit<'_>>
    ensures given { Takes (λ r. (r.0.now, r.1.now)) result (digits_at bytes.now) }
    ensures digits { IfOk result (λ r. AreDigits r.0.now) }
    ensures shorter { IfOk result (λ r. length r.1.now ≤ length bytes.now) }
    ensures stop { IfErr result (λ s. length s.rest.now ≤ length bytes.now) }
{
    let count = digit_count(bytes);
    if count == 0 {
        return Err(NoDigit { rest: bytes });
    }
    Ok(bytes.split_at(count))
}

/// How many digits stand at the front.
fn digit_count(bytes: &[u8]) -> usize
    ensures { result ≡ length (digits_of bytes.now) }
{
    for (i, byte) in bytes.iter().enumerate() {
        if !byte.is_ascii_digit() {
            return i;
        }
    }
    bytes.len()
}

/// The least size that is not kept.
const LIMIT: u128 = 1_000_000_000_000_000_000;

/// Past this an exponent's size does not matter.
const FAR: u128 = 1_000_000_000_000_000_000_000_000_000_000;

/// The digits of a number so far: `kept` with `zeros` zeros after it, or more digits than are kept.
#[derive(Clone, Copy)]
struct Significant {
    kept: u64,
    zeros: u128,
    too_many: bool,
}

/// The numeral that is spelled, if it can be kept.
fn kept(spelling: &Spelling<'_>) -> Option<Numeral>
    requires { HasDigits spelling.now }
    ensures { numeral_kept result ≡ numeral_of_digits (digits_in spelling.now) }
{
    let none = Significant {
        kept: 0,
        zeros: 0,
        too_many: false,
    };
    let number = with_digits(with_digits(none, spelling.whole), spelling.fraction);
    if number.too_many {
        return None;
    }
    let moved = size(spelling.exponent.digits);
    let places = spelling.fraction.len() as u128;
    if spelling.exponent.lowers {
        shifted(spelling.negative, number.kept, number.zeros, places + moved)
    } else {
        shifted(spelling.negative, number.kept, number.zeros + moved, places)
    }
}

/// The number with these digits after those that it has.
fn with_digits(number: Significant, digits: &[u8]) -> Significant
    requires digits { AreDigits digits.now }
    requires zeros { number.zeros < 2 ^ 66 }
    requires size { number.kept < 10 ^ 18 }
    ensures number { (n : ℕ) → Holds number n → Holds result (number_from n digits.now) }
    ensures zeros { result.zeros ≤ number.zeros + length digits.now }
    ensures size { result.kept < 10 ^ 18 }
{
    let mut number = number;
    for digit in digits {
        number = with_digit(number, *digit - b'0');
    }
    number
}

/// The number with one digit after those that it has. Zeros are counted until another digit shows that they are kept.
fn with_digit(number: Significant, digit: u8) -> Significant
    requires digit { digit < 10 }
    requires zeros { number.zeros < 2 ^ 67 }
    requires size { number.kept < 10 ^ 18 }
    ensures number { (n : ℕ) → Holds number n → Holds result (n * 10 + digit) }
    ensures zeros { result.zeros ≤ number.zeros + 1 }
    ensures size { result.kept < 10 ^ 18 }
{
    if digit == 0 {
        return with_zero(number);
    }
    if number.too_many || number.zeros > 17 {
        return with_too_many(number);
    }
    let power = power_of_ten(number.zeros as u8 + 1);
    let wide = number.kept as u128 * power + digit as u128;
    if wide >= LIMIT {
        return with_too_many(number);
    }
    Significant {
        kept: wide as u64,
        zeros: 0,
        too_many: false,
    }
}

/// The number with a zero after its digits; zeros before the first other digit change nothing.
fn with_zero(number: Significant) -> Significant
    requires { number.zeros < 2 ^ 67 }
    ensures kept { result.kept ≡ number.kept }
    ensures zeros { result.zeros ≡ (if number.kept == 0 then number.zeros else number.zeros + 1) }
    ensures too_many { result.too_many ≡ number.too_many }
{
    if number.kept == 0 {
        return number;
    }
    Significant {
        kept: number.kept,
        zeros: number.zeros + 1,
        too_many: number.too_many,
    }
}

// The number marked as one that has more digits than are kept.
fn with_too_many(number: Significant) -> Significant
    ensures { result ≡ record { kept = number.kept; zeros = number.zeros; too_many = true } }
{
    Significant {
        kept: number.kept,
        zeros: number.zeros,
        too_many: true,
    }
}

/// 10^places, as a number of 128 bits.
#[tactic(auto, using(crate::proofs::Fractions::power_small))]
fn power_of_ten(places: u8) -> u128
    requires { places ≤ 18 }
    ensures value { result ≡ 10 ^ places }
    ensures size { result ≤ 10 ^ 18 }
{
    10u128.pow(places as u32)
}

/// The number that an exponent's digits spell; where that is too large to matter, one that is too large as well.
fn size(digits: &[u8]) -> u128
    requires { AreDigits digits.now }
    ensures size { IsSize result (number_of digits.now) }
    ensures fits { result < 10 ^ 32 }
{
    let mut size = 0u128;
    for digit in digits {
        if size < FAR {
            size = size * 10 + (*digit - b'0') as u128;
        }
    }
    size
}

/// kept * 10^up / 10^down, where `kept` does not end in 0 unless it is 0.
fn shifted(negative: bool, kept: u64, up: u128, down: u128) -> Option<Numeral>
    requires size { kept < 10 ^ 18 }
    requires last { 0 < kept → kept % 10 ≢ 0 }
    ensures { numeral_kept result ≡ numeral_of_fraction negative (fraction kept up down) }
{
    if kept == 0 {
        return Some(numeral_with(negative, 0, 0));
    }
    if up >= down {
        let zeros = up - down;
        if zeros > 17 {
            return None;
        }
        let wide = kept as u128 * power_of_ten(zeros as u8);
        if wide >= LIMIT {
            return None;
        }
        return Some(numeral_with(negative, wide as u64, 0));
    }
    let places = down - up;
    if places > 18 {
        return None;
    }
    Some(numeral_with(negative, kept, places as u8))
}

/// The numeral size/10^places with its sign, whose digits end in no zero that could be left out.
fn numeral_with(negative: bool, size: u64, places: u8) -> Numeral
    requires size { size < 10 ^ 18 }
    requires places { places ≤ 18 }
    requires least { 0 < places → size % 10 ≢ 0 }
    ensures { numeral_kept (Some result) ≡ numeral_of_fraction negative (Some (size, places)) }
{
    let mantissa = if negative {
        -(size as i64)
    } else {
        size as i64
    };
    Numeral { mantissa, places }
}
