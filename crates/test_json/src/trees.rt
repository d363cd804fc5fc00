// Trees of JSON: what is read, its faults, and the limits.

use json_tree::{Json, JsonFault, Text, Value, WriteFault, read};
use std::alloc::{AllocError, Global};
use std::test::Fail;

/// A tree as text, each value with its place before it, down to a few levels.
fn show(alloc: Global, out: &mut String, tree: &Json, levels: u32) -> Result<(), AllocError> {
    if levels == 0 {
        return out.push_str("..");
    }
    out.push_str(format!(in alloc; "{}", tree.at)?.as_str())?;
    match &tree.value {
        Value::Null => out.push_str("n"),
        Value::Bool(true) => out.push_str("t"),
        Value::Bool(false) => out.push_str("f"),
        Value::Numeral(n) => {
            out.push_str(format!(in alloc; "#{}/{}", n.mantissa, n.places)?.as_str())
        }
        Value::Wide => out.push_str("wide"),
        Value::Text(text) => show_text(out, text),
        Value::List(items) => {
            out.push_str("[")?;
            for item in items.as_slice() {
                show(alloc, out, item, levels - 1)?;
                out.push_str(" ")?;
            }
            out.push_str("]")
        }
        Value::Object(members) => {
            out.push_str("{")?;
            for member in members.as_slice() {
                show_text(out, &member.name)?;
                show(alloc, out, &member.value, levels - 1)?;
                out.push_str(" ")?;
            }
            out.push_str("}")
        }
    }
}

/// A text in single quotes, with no escapes.
fn show_text(out: &mut String, text: &Text) -> Result<(), AllocError> {
    out.push_str("'")?;
    out.push_str(text.as_str())?;
    out.push_str("'")
}

/// A fault with its place.
fn placed(alloc: Global, fault: &str, at: u32) -> Result<String, AllocError> {
    let mut out = String::from_str(alloc, fault)?;
    out.push_str(format!(in alloc; " {at}")?.as_str())?;
    Ok(out)
}

/// What reading the bytes gives, as text.
pub(crate) fn reading(alloc: Global, bytes: &[u8]) -> Result<String, AllocError> {
    match read(alloc, bytes) {
        Ok(tree) => {
            let mut out = String::new(alloc);
            show(alloc, &mut out, &tree, 5)?;
            Ok(out)
        }
        Err(JsonFault::Syntax(at)) => placed(alloc, "syntax", at),
        Err(JsonFault::Depth(at)) => placed(alloc, "depth", at),
        Err(JsonFault::NotUtf8(at)) => placed(alloc, "utf8", at),
        Err(JsonFault::TooLarge) => String::from_str(alloc, "too large"),
        Err(JsonFault::Memory) => String::from_str(alloc, "memory"),
    }
}

/// Texts, each with the tree that is read of it.
const VALUES: [(&str, &str); 12] = [
    ("null", "0n"),
    ("true", "0t"),
    (" \t\r\nfalse \t\r\n", "4f"),
    ("\"\"", "0''"),
    ("[]", "0[]"),
    ("[ ]", "0[]"),
    ("{}", "0{}"),
    ("{\t}", "0{}"),
    ("[1,2]", "0[1#1/0 3#2/0 ]"),
    ("[ 1 , [ ] ]", "0[2#1/0 6[] ]"),
    ("{\"a\":1,\"a\":2}", "0{'a'5#1/0 'a'11#2/0 }"),
    (" { \"a\" : [ { } , null ] } ", "1{'a'9[11{} 17n ] }"),
];

#[test]
fn values_and_blanks(rt: HostRuntime) -> Result<(), Fail> {
    for (text, want) in VALUES {
        let got = reading(rt.alloc(), text.as_bytes())?;
        assert_eq!(rt; got.as_str(), want, "at {text}");
    }
    Ok(())
}

/// Each row is a text that is refused, ` | `, and its fault with the place.
const FAULTS: &str = "\
nul | syntax 3
 | syntax 0
   | syntax 2
nulx | syntax 3
nullx | syntax 4
null null | syntax 5
[1,] | syntax 3
[,1] | syntax 1
[1 2] | syntax 3
[1} | syntax 2
[ | syntax 1
[1 | syntax 2
[1, | syntax 3
{\"a\"} | syntax 4
{\"a\":} | syntax 5
{\"a\":1,} | syntax 7
{a:1} | syntax 1
{1:1} | syntax 1
{,} | syntax 1
{\"a\" 1} | syntax 5
{\"a\":1] | syntax 6
'a' | syntax 0
\u{feff}null | syntax 0
[\u{e9}] | syntax 1
01 | syntax 1
- | syntax 1
+1 | syntax 0
1.e1 | syntax 2
[1.5.5] | syntax 4
\"a | syntax 2
\"\\x\" | syntax 2
\"\\ud800\\n\" | syntax 1
";

#[test]
fn faults_have_their_places(rt: HostRuntime) -> Result<(), Fail> {
    for row in FAULTS.lines() {
        let (text, want) = row.split_once(" | ").ok_or("a row")?;
        let got = reading(rt.alloc(), text.as_bytes())?;
        assert_eq!(rt; got.as_str(), want, "at {text}");
    }
    Ok(())
}

#[test]
fn bytes_that_are_not_utf8(rt: HostRuntime) -> Result<(), Fail> {
    let table: [(&[u8], &str); 5] = [
        (b"\"\x80\"", "utf8 1"),
        (b"\xff", "syntax 0"),
        (b"[\"\", \"\xfe\"]", "utf8 6"),
        (b"{\"\xc0\x80\":1}", "utf8 2"),
        (b"{\"a\":\"\xe2\n\"}", "utf8 6"),
    ];
    for (bytes, want) in table {
        let got = reading(rt.alloc(), bytes)?;
        assert_eq!(rt; got.as_str(), want);
    }
    Ok(())
}

#[test]
fn a_document_cut_at_any_byte(rt: HostRuntime) -> Result<(), Fail> {
    let text = "{\"a\u{e9}\\n\\ud83d\\ude00\": [1, null ,{\"b\":\"\\u00e9\"}, -0.5e+3]}";
    for cut in 0..text.len() {
        let got = reading(rt.alloc(), &text.as_bytes()[..cut])?;
        let want = placed(rt.alloc(), "syntax", cut as u32)?;
        assert_eq!(rt; got.as_str(), want.as_str(), "cut at {cut}");
    }
    Ok(())
}

/// What opens a level and what closes it.
pub(crate) type Brackets = (&'static str, &'static str);

/// Levels that are lists.
pub(crate) const LIST: Brackets = ("[", "]");

/// Levels that are objects of one member.
pub(crate) const OBJECT: Brackets = ("{\"a\":", "}");

/// So many levels around a 1, in turn of the one kind and of the other.
pub(crate) fn nested(
    alloc: Global,
    levels: u32,
    even: Brackets,
    odd: Brackets,
) -> Result<String, AllocError> {
    let mut out = String::new(alloc);
    for level in 0..levels {
        out.push_str(if level % 2 == 0 { even.0 } else { odd.0 })?;
    }
    out.push_str("1")?;
    for level in (0..levels).rev() {
        out.push_str(if level % 2 == 0 { even.1 } else { odd.1 })?;
    }
    Ok(out)
}

/// The place at which so many levels are too deep; none where they are read.
fn depth_fault(
    alloc: Global,
    levels: u32,
    even: Brackets,
    odd: Brackets,
) -> Result<Option<u32>, Fail> {
    let text = nested(alloc, levels, even, odd)?;
    match read(alloc, text.as_bytes()) {
        Ok(_) => Ok(None),
        Err(JsonFault::Depth(place)) => Ok(Some(place)),
        Err(_) => Err(Fail::from("it is lawful but for its depth")),
    }
}

/// Whether 64 levels are read, and the next is too deep at this place.
fn is_last_read(alloc: Global, even: Brackets, odd: Brackets, place: u32) -> Result<bool, Fail> {
    let most = depth_fault(alloc, 64, even, odd)?;
    let more = depth_fault(alloc, 65, even, odd)?;
    Ok(most.is_none() && more.unwrap_or(0) == place)
}

#[test]
fn sixty_four_levels(rt: HostRuntime) -> Result<(), Fail> {
    let alloc = rt.alloc();
    assert!(rt; is_last_read(alloc, LIST, LIST, 64)?);
    assert!(rt; is_last_read(alloc, OBJECT, OBJECT, 320)?);
    assert!(rt; is_last_read(alloc, LIST, OBJECT, 192)?);
    Ok(())
}

/// Texts with escapes and numerals, each with the tree that is read of it.
const ESCAPED: [(&str, &str); 6] = [
    ("{\"\\u0061\":1}", "0{'a'10#1/0 }"),
    ("\"\\ud83d\\ude00\\n\"", "0'\u{1f600}\n'"),
    ("[-1.50e3,1e99]", "0[1#-1500/0 9wide ]"),
    ("[0.999999999999999999]", "0[1#999999999999999999/18 ]"),
    ("999999999999999999", "0#999999999999999999/0"),
    ("1000000000000000000", "0wide"),
];

#[test]
fn texts_and_numerals_in_a_tree(rt: HostRuntime) -> Result<(), Fail> {
    for (text, want) in ESCAPED {
        let got = reading(rt.alloc(), text.as_bytes())?;
        assert_eq!(rt; got.as_str(), want, "at {text}");
    }
    Ok(())
}

/// Adds a byte, so many times.
pub(crate) fn repeated(
    alloc: Global,
    out: &mut Vec<u8>,
    byte: u8,
    count: usize,
) -> Result<(), AllocError> {
    let all = vec![in alloc; byte; count]?;
    out.extend_from_slice(all.as_slice())
}

#[test]
fn the_last_of_a_name_is_found(rt: HostRuntime) -> Result<(), Fail> {
    let text = "{\"a\":1,\"b\":2,\"a\":3,\"\":4}";
    let tree = read(rt.alloc(), text.as_bytes()).map_err(|_| "it is lawful")?;
    let Value::Object(members) = &tree.value else {
        return Err(Fail::from("it is an object"));
    };
    for (name, want) in [
        ("a", Some(17)),
        ("b", Some(11)),
        ("", Some(22)),
        ("c", None),
    ] {
        assert_eq!(rt; members.find(name).map(|j| j.at), want, "of {name}");
    }
    Ok(())
}

#[test]
fn faults_in_words(rt: HostRuntime) -> Result<(), Fail> {
    let alloc = rt.alloc();
    let said = format!(in alloc; "{}; {}", JsonFault::Depth(64), WriteFault::TooLong)?;
    assert_eq!(rt;
        said.as_str(),
        "nested too deep at byte 64; there would be too many bytes"
    );
    Ok(())
}
