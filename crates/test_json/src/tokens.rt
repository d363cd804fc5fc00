// Parts of a text of JSON: texts in quotes, numbers, words and blanks, and their faults.

use json_tokens::{
    JsonFault, Rest, Text, numeral, numeral_value, past_blanks, past_byte, text_behind_quote, word,
};
use ratio_time::Numeral;
use std::alloc::{AllocError, Global};
use std::test::Fail;

/// A short text, all of it.
fn all_of(bytes: &[u8]) -> Result<Rest<'_>, JsonFault> {
    if bytes.len() > 1000 {
        return Err(JsonFault::TooLarge);
    }
    Ok(Rest { at: 0, bytes })
}

/// The text in quotes at the front, and the place after it.
fn quoted(alloc: Global, bytes: &[u8]) -> Result<(Text, u32), JsonFault> {
    let behind = word(b"\"", all_of(bytes)?)?;
    let (text, rest) = text_behind_quote(alloc, behind)?;
    Ok((text, rest.at))
}

/// The place of the fault in the syntax of the text in quotes at the front.
fn syntax_of_text(alloc: Global, bytes: &[u8]) -> Option<u32> {
    match quoted(alloc, bytes) {
        Err(JsonFault::Syntax(place)) => Some(place),
        _ => None,
    }
}

/// The place of the bytes that are not UTF-8 in the text in quotes at the front.
fn utf8_of_text(alloc: Global, bytes: &[u8]) -> Option<u32> {
    match quoted(alloc, bytes) {
        Err(JsonFault::NotUtf8(place)) => Some(place),
        _ => None,
    }
}

/// The number at the front where it is kept, and the place after it.
fn number(text: &str) -> Result<(Option<Numeral>, u32), JsonFault> {
    let (numeral, rest) = numeral_value(all_of(text.as_bytes())?)?;
    Ok((numeral, rest.at))
}

/// Whether a number is kept with this mantissa and these places, or not kept where none are wanted.
fn is_kept_so(got: Option<Numeral>, want: Option<(i64, u8)>) -> bool {
    match (got, want) {
        (Some(n), Some((mantissa, places))) => n.mantissa == mantissa && n.places == places,
        (None, None) => true,
        _ => false,
    }
}

/// The place after the blanks at the front.
fn behind_blanks(text: &str) -> Option<u32> {
    match all_of(text.as_bytes()) {
        Ok(rest) => Some(past_blanks(rest).at),
        Err(_) => None,
    }
}

/// Texts, each with the place after the blanks at its front.
const BLANKS: [(&str, u32); 4] = [("", 0), ("x", 0), (" \t\r\n \u{b}", 5), ("  ", 2)];

#[test]
fn blanks_at_the_front(rt: HostRuntime) {
    for (text, want) in BLANKS {
        assert_eq!(rt; behind_blanks(text), Some(want), "at {text}");
    }
}

/// The place after a bracket at the front, where one stands.
fn behind_bracket(text: &str) -> Option<u32> {
    match all_of(text.as_bytes()) {
        Ok(rest) => Some(past_byte(b'[', rest)?.at),
        Err(_) => None,
    }
}

/// The place after the word `null` at the front.
fn behind_null(text: &str) -> Result<u32, JsonFault> {
    Ok(word(b"null", all_of(text.as_bytes())?)?.at)
}

/// The place of the first byte that is not as in the word `null`.
fn fault_of_null(text: &str) -> Option<u32> {
    match behind_null(text) {
        Err(JsonFault::Syntax(place)) => Some(place),
        _ => None,
    }
}

#[test]
fn bytes_and_words_at_the_front(rt: HostRuntime) {
    for (text, place) in [("[", Some(1)), ("{", None), ("", None)] {
        assert_eq!(rt; behind_bracket(text), place, "at {text}");
    }
    for text in ["null", "nullx"] {
        assert!(rt; matches!(behind_null(text), Ok(4)), "at {text}");
    }
    for (text, place) in [("nulx", 3), ("nul", 3), ("", 0)] {
        assert_eq!(rt; fault_of_null(text), Some(place), "at {text}");
    }
}

/// Texts in quotes, each with the characters that it says.
const CHARACTERS: [(&str, &str); 5] = [
    (
        "\"a\u{7f}\u{80}\u{7ff}\u{800}\u{ffff}\u{10000}\u{10ffff}\"",
        "a\u{7f}\u{80}\u{7ff}\u{800}\u{ffff}\u{10000}\u{10ffff}",
    ),
    ("\"\u{d7ff}\u{e000}\"", "\u{d7ff}\u{e000}"),
    ("\"\\\"\\\\\\/\\b\\f\\n\\r\\t\"", "\"\\/\u{8}\u{c}\n\r\t"),
    (
        "\"\\u0041\\u00e9\\u20AC\\uFFff\\u0000\"",
        "A\u{e9}\u{20ac}\u{ffff}\u{0}",
    ),
    (
        "\"\\ud83d\\ude00\\uDBFF\\uDFFF\\uD800\\uDC00\"",
        "\u{1f600}\u{10ffff}\u{10000}",
    ),
];

/// Whether the text is one in quotes that says these characters.
fn is_said(alloc: Global, text: &str, want: &str) -> bool {
    match quoted(alloc, text.as_bytes()) {
        Ok((got, at)) => got.as_str() == want && at as usize == text.len(),
        Err(_) => false,
    }
}

#[test]
fn characters_of_texts(rt: HostRuntime) {
    for (text, want) in CHARACTERS {
        assert!(rt; is_said(rt.alloc(), text, want), "at {text}");
    }
}

#[test]
fn a_text_of_characters(rt: HostRuntime) -> Result<(), Fail> {
    let text = Text::from_str(rt.alloc(), "a\u{e9}\n").map_err(|_| "there is memory")?;
    assert_eq!(rt; text.as_str(), "a\u{e9}\n");
    Ok(())
}

/// Each row is a text in quotes that is refused, and the place of its fault.
const NO_TEXTS: &str = r#"" 1
"a 2
"\ 2
"\x" 2
"\u 3
"\u00g0" 5
"\u12 5
"\udc 5
"\udczz" 5
"\udc00" 1
"ab\udfff" 3
"\ud800" 1
"\ud800 7
"\ud800\ 8
"\ud800\n" 1
"\ud800\u 9
"\ud800\u0 1
"\ud800\ud 10
"\ud800\udb 1
"\ud800\udc 11
"\ud800\udcz 1
"\ud800x" 1
"#;

#[test]
fn faults_of_texts(rt: HostRuntime) -> Result<(), Fail> {
    for row in NO_TEXTS.lines() {
        let (text, place) = row.split_once(' ').ok_or("a row")?;
        let place = place.parse::<u32>().ok().ok_or("a place")?;
        let got = syntax_of_text(rt.alloc(), text.as_bytes());
        assert_eq!(rt; got, Some(place), "at {text}");
    }
    let got = syntax_of_text(rt.alloc(), "\"\\ud800\\udc0\n".as_bytes());
    assert_eq!(rt; got, Some(1), "at a line feed");
    Ok(())
}

/// Texts in quotes that are not UTF-8, each with the place where they first are not.
const NOT_UTF8: [(&[u8], u32); 16] = [
    (b"\"\x80\"", 1),
    (b"\"a\xbf\"", 2),
    (b"\"\xc0\x80\"", 1),
    (b"\"\xc1\xbf\"", 1),
    (b"\"\xc2\"", 1),
    (b"\"\xe0\x9f\xbf\"", 1),
    (b"\"\xe0\x80", 1),
    (b"\"\xed\xa0\x80\"", 1),
    (b"\"\xed\xbf\xbf\"", 1),
    (b"\"\xe2\x82\"", 1),
    (b"\"\xe2\n", 1),
    (b"\"\xf0\x8f\xbf\xbf\"", 1),
    (b"\"\xf4\x90\x80\x80\"", 1),
    (b"\"\xf5\x80\x80\x80\"", 1),
    (b"\"\xff\"", 1),
    (b"\"\xf1\x80\x80\xc0\"", 1),
];

/// Bytes with a fault in their syntax before any such place.
const NO_BYTES: [(&[u8], u32); 5] = [
    (b"\"\xc2", 2),
    (b"\"\xe0\xa0", 3),
    (b"\"\xf0\x90\x80", 4),
    (b"\xff", 0),
    (b"\"\\ud800\xff\"", 1),
];

#[test]
fn bytes_that_are_not_utf8(rt: HostRuntime) {
    for (bytes, place) in NOT_UTF8 {
        let got = utf8_of_text(rt.alloc(), bytes);
        assert_eq!(rt; got, Some(place), "at {bytes:?}");
    }
    for (bytes, place) in NO_BYTES {
        let got = syntax_of_text(rt.alloc(), bytes);
        assert_eq!(rt; got, Some(place), "at {bytes:?}");
    }
    for control in 0..32 {
        let got = syntax_of_text(rt.alloc(), &[b'"', b'a', control, b'"']);
        assert_eq!(rt; got, Some(2), "at {control}");
    }
}

/// Each row is a number, and its mantissa and places, or `wide` where it is not kept.
const NUMERALS: &str = "\
0 0/0
-0 0/0
-0.000e5 0/0
0e999999999999999999999999999999 0/0
24 24/0
-1 -1/0
23.976 23976/3
1.50e3 1500/0
0.0001E+4 1/0
1.50 15/1
100e-2 1/0
999999999999999999 999999999999999999/0
-999999999999999999 -999999999999999999/0
1000000000000000000 wide
1e17 100000000000000000/0
1e18 wide
1e-18 1/18
1e-19 wide
10e-19 1/18
0.999999999999999999 999999999999999999/18
0.9999999999999999999 wide
0.0000000000000000001 wide
999999999999999999e1 wide
9999999999999999990e-1 999999999999999999/0
1e340282366920938463463374607431768211457 wide
1e-340282366920938463463374607431768211457 wide
1e18446744073709551616 wide
1e-18446744073709551616 wide
1e0000000000000000000000000000000000000000000002 100/0
";

/// What is kept of a text that is one number.
fn kept(alloc: Global, text: &str) -> Result<String, Fail> {
    let (numeral, place) = number(text).ok().ok_or("a number")?;
    if place as usize != text.len() {
        return Err(Fail::from("all of it is the number"));
    }
    match numeral {
        Some(n) => Ok(format!(in alloc; "{}/{}", n.mantissa, n.places)?),
        None => Ok(String::from_str(alloc, "wide")?),
    }
}

#[test]
fn numerals_are_kept_exactly(rt: HostRuntime) -> Result<(), Fail> {
    for row in NUMERALS.lines() {
        let (text, want) = row.split_once(' ').ok_or("a row")?;
        let got = kept(rt.alloc(), text)?;
        assert_eq!(rt; got.as_str(), want, "at {text}");
    }
    Ok(())
}

/// The place of the fault of the number at the front.
fn place_of_fault(text: &str) -> Option<u32> {
    match number(text) {
        Err(JsonFault::Syntax(place)) => Some(place),
        _ => None,
    }
}

/// Texts that begin with no number, each with the place of its fault.
const NO_NUMBERS: [(&str, u32); 11] = [
    ("", 0),
    ("-", 1),
    ("-a", 1),
    ("+1", 0),
    (".5", 0),
    ("1.", 2),
    ("1.e1", 2),
    ("1e", 2),
    ("1e+", 3),
    ("1e+-1", 3),
    ("1ex", 2),
];

#[test]
fn faults_of_numbers(rt: HostRuntime) {
    for (text, place) in NO_NUMBERS {
        assert_eq!(rt; place_of_fault(text), Some(place), "at {text}");
    }
}

/// Texts that begin with a number, each with the place after it.
const NUMBERS: [(&str, u32); 4] = [("01", 1), ("1.5.5", 3), ("-0-", 2), ("1e2e", 3)];

#[test]
fn a_number_ends_where_no_more_of_it_stands(rt: HostRuntime) {
    for (text, place) in NUMBERS {
        let is_there = matches!(number(text), Ok((_, at)) if at == place);
        assert!(rt; is_there, "at {text}");
    }
}

/// Adds a byte, so many times.
fn repeated(alloc: Global, out: &mut Vec<u8>, byte: u8, count: usize) -> Result<(), AllocError> {
    let all = vec![in alloc; byte; count]?;
    out.extend_from_slice(all.as_slice())
}

/// The number of a text with so many zeros between its parts, where it is kept.
fn many(
    alloc: Global,
    before: &str,
    zeros: usize,
    behind: &str,
) -> Result<Option<Numeral>, AllocError> {
    let mut text = Vec::new(alloc);
    text.extend_from_slice(before.as_bytes())?;
    repeated(alloc, &mut text, b'0', zeros)?;
    text.extend_from_slice(behind.as_bytes())?;
    Ok(numeral(text.as_slice()))
}

/// What stands before so many zeros and after them, and how the number of all of it is kept.
const MANY_DIGITS: [(&str, usize, &str, Option<(i64, u8)>); 7] = [
    ("0.", 396, "15e398", Some((15, 0))),
    ("0.", 396, "15e397", Some((15, 1))),
    ("15", 400, "e-401", Some((15, 1))),
    ("15", 400, "e-418", Some((15, 18))),
    ("15", 400, "e-419", None),
    ("15", 400, ".5e-400", None),
    ("-2.5", 400, "", Some((-25, 1))),
];

#[test]
fn numerals_of_many_digits(rt: HostRuntime) -> Result<(), Fail> {
    for (before, zeros, behind, want) in MANY_DIGITS {
        let got = many(rt.alloc(), before, zeros, behind)?;
        assert!(rt; is_kept_so(got, want), "between {before} and {behind}");
    }
    Ok(())
}

/// Texts, each with how its number is kept; none where it is no number, or is not kept.
const WHOLE_TEXTS: [(&str, Option<(i64, u8)>); 9] = [
    ("24", Some((24, 0))),
    ("23.976", Some((23976, 3))),
    ("", None),
    (" 1", None),
    ("1 ", None),
    ("01", None),
    ("1e18", None),
    ("null", None),
    ("1e-3", Some((1, 3))),
];

#[test]
fn a_text_that_is_a_numeral(rt: HostRuntime) {
    for (text, want) in WHOLE_TEXTS {
        assert!(rt; is_kept_so(numeral(text.as_bytes()), want), "at {text}");
    }
}
