// Trees of JSON: what is written, and that it is read again; the limits of texts that are written.

use crate::trees::{LIST, OBJECT, nested, reading, repeated};
use json_tree::{
    Items, Json, MOST_BYTES, Member, Members, Text, Value, WriteFault, is_writable, read, write,
    write_behind,
};
use std::alloc::{AllocError, Global};
use std::test::Fail;

/// What is written of the tree that is read of a text.
fn written(alloc: Global, text: &[u8]) -> Result<Vec<u8>, Fail> {
    let tree = read(alloc, text).map_err(|_| "it is lawful")?;
    if !is_writable(&tree) {
        return Err(Fail::from("it is writable"));
    }
    Ok(write(alloc, &tree).map_err(|_| "there is memory")?)
}

/// Texts, each with what is written of its tree.
const COMING_BACK: [(&str, &str); 18] = [
    (" null ", "null"),
    ("true", "true"),
    ("false", "false"),
    ("-0", "0.0"),
    ("24", "24.0"),
    ("-24", "-24.0"),
    ("23.976", "23.976"),
    ("-0.5", "-0.5"),
    ("1e-18", "0.000000000000000001"),
    ("999999999999999999", "999999999999999999.0"),
    ("-0.999999999999999999", "-0.999999999999999999"),
    ("100", "100.0"),
    ("10.01", "10.01"),
    (
        "\"a\\/\\\"\\\\\\n\\u001f\\u0000\u{7f}\u{e9}\"",
        "\"a/\\\"\\\\\\u000a\\u001f\\u0000\u{7f}\u{e9}\"",
    ),
    ("[ ]", "[]"),
    ("{ }", "{}"),
    ("[ 1 , [ null , 2 ] ]", "[1.0,[null,2.0]]"),
    (
        "{ \"a\" : { } , \"\\n\" : [ ] }",
        "{\"a\":{},\"\\u000a\":[]}",
    ),
];

/// Whether that is written of the tree that is read of a text.
fn is_written_so(alloc: Global, text: &str, want: &str) -> Result<bool, Fail> {
    let wrote = written(alloc, text.as_bytes())?;
    Ok(wrote.as_slice() == want.as_bytes())
}

#[test]
fn texts_come_back(rt: HostRuntime) -> Result<(), Fail> {
    for (text, want) in COMING_BACK {
        assert!(rt; is_written_so(rt.alloc(), text, want)?, "at {text}");
        assert!(rt; is_written_so(rt.alloc(), want, want)?, "again at {text}");
    }
    Ok(())
}

#[test]
fn a_tree_that_was_built(rt: HostRuntime) -> Result<(), Fail> {
    let alloc = rt.alloc();
    let mut items = Items::new(alloc);
    items
        .push(Json {
            at: 0,
            value: Value::Null,
        })
        .map_err(|_| "there is memory")?;
    let mut members = Members::new(alloc);
    let name = Text::from_str(alloc, "a\"b").map_err(|_| "there is memory")?;
    let list = Json {
        at: 0,
        value: Value::List(items),
    };
    members
        .push(Member { name, value: list })
        .map_err(|_| "there is memory")?;
    let tree = Json {
        at: 0,
        value: Value::Object(members),
    };
    assert!(rt; is_writable(&tree));
    let wrote = write(alloc, &tree).map_err(|_| "there is memory")?;
    assert_eq!(rt; wrote.as_slice(), b"{\"a\\\"b\":[null]}".as_slice());
    Ok(())
}

/// Whether the tree that is read of a text can be written so, by itself and in a list.
fn is_writable_so(alloc: Global, text: &str, alone: bool, in_list: bool) -> Result<bool, Fail> {
    let tree = read(alloc, text.as_bytes()).map_err(|_| "it is lawful")?;
    let is_alone = is_writable(&tree);
    let mut items = Items::new(alloc);
    items.push(tree).map_err(|_| "there is memory")?;
    let deeper = Json {
        at: 0,
        value: Value::List(items),
    };
    Ok(is_alone == alone && is_writable(&deeper) == in_list)
}

#[test]
fn trees_that_are_not_written(rt: HostRuntime) -> Result<(), Fail> {
    let alloc = rt.alloc();
    assert!(rt; is_writable_so(alloc, "1e99", false, false)?);
    assert!(rt; is_writable_so(alloc, "[{\"a\":[1e-99]}]", false, false)?);
    assert!(rt; is_writable_so(alloc, "[1e9]", true, true)?);
    let most = nested(alloc, 64, LIST, OBJECT)?;
    assert!(rt; is_writable_so(alloc, most.as_str(), true, false)?);
    Ok(())
}

#[test]
fn thirty_two_mebibytes(rt: HostRuntime) -> Result<(), Fail> {
    let mut bytes = Vec::new(rt.alloc());
    repeated(rt.alloc(), &mut bytes, b' ', MOST_BYTES)?;
    let got = reading(rt.alloc(), bytes.as_slice())?;
    assert_eq!(rt; got.as_str(), "syntax 33554432");
    bytes.push(b' ')?;
    let got = reading(rt.alloc(), bytes.as_slice())?;
    assert_eq!(rt; got.as_str(), "too large");
    Ok(())
}

/// A list of as many bytes as are read, of which the first item is a list of 200,000 numbers, and the other is a text.
fn longest(alloc: Global) -> Result<Vec<u8>, AllocError> {
    let numbers = row_of(alloc, "[[", "0", "],\"", 200_000)?;
    let mut bytes = Vec::from_slice(alloc, numbers.as_bytes())?;
    let rest = MOST_BYTES.saturating_sub(bytes.len()).saturating_sub(2);
    repeated(alloc, &mut bytes, b'x', rest)?;
    bytes.extend_from_slice(b"\"]")?;
    Ok(bytes)
}

#[test]
fn the_longest_text_is_a_tree(rt: HostRuntime) -> Result<(), Fail> {
    let mut bytes = longest(rt.alloc())?;
    assert_eq!(rt; bytes.len(), MOST_BYTES);
    assert!(rt; read(rt.alloc(), &bytes).is_ok());
    bytes.push(b' ')?;
    let got = reading(rt.alloc(), &bytes)?;
    assert_eq!(rt; got.as_str(), "too large");
    Ok(())
}

/// What stands there once the tree of a text was written after this, up to so many bytes: this with `!` after it where
/// it would be too long.
fn behind(alloc: Global, before: &str, text: &str, most: usize) -> Result<Vec<u8>, Fail> {
    let tree = read(alloc, text.as_bytes()).map_err(|_| "it is lawful")?;
    if !is_writable(&tree) {
        return Err(Fail::from("it is writable"));
    }
    let mut out = Vec::from_slice(alloc, before.as_bytes())?;
    match write_behind(alloc, &mut out, &tree, most) {
        Ok(()) => {}
        Err(WriteFault::TooLong) => out.push(b'!')?,
        Err(WriteFault::Memory) => return Err(Fail::from("there is memory")),
    }
    Ok(out)
}

/// What stands before, a text, how many bytes there may be, and what stands there then.
const BEHIND: [(&str, &str, usize, &str); 5] = [
    ("", "[1]", 5, "[1.0]"),
    ("a,", "null", 6, "a,null"),
    ("a,", "null", 5, "a,!"),
    ("a,", "null", 1, "a,!"),
    ("", "\"\"", 1, "!"),
];

/// Whether that stands there once the tree of a text was written after this.
fn is_behind(
    alloc: Global,
    before: &str,
    text: &str,
    most: usize,
    want: &str,
) -> Result<bool, Fail> {
    let got = behind(alloc, before, text, most)?;
    Ok(got.as_slice() == want.as_bytes())
}

#[test]
fn a_text_behind_what_is_written(rt: HostRuntime) -> Result<(), Fail> {
    for (before, text, most, want) in BEHIND {
        let is_so = is_behind(rt.alloc(), before, text, most, want)?;
        assert!(rt; is_so, "of {text} up to {most}");
    }
    Ok(())
}

/// Whether the tree of a text is a numeral that is kept with this mantissa and these places, or none where none is
/// wanted.
fn is_numeral_so(alloc: Global, text: &str, want: Option<(i64, u8)>) -> Result<bool, Fail> {
    let tree = read(alloc, text.as_bytes()).map_err(|_| "it is lawful")?;
    Ok(match (tree.numeral(), want) {
        (Some(n), Some((mantissa, places))) => n.mantissa == mantissa && n.places == places,
        (None, None) => true,
        _ => false,
    })
}

/// Texts, each with the numeral that its tree is.
const NUMERALS: [(&str, Option<(i64, u8)>); 6] = [
    ("24", Some((24, 0))),
    ("-2.50", Some((-25, 1))),
    ("1e99", None),
    ("\"24\"", None),
    ("null", None),
    ("[24]", None),
];

#[test]
fn numerals_of_values(rt: HostRuntime) -> Result<(), Fail> {
    for (text, want) in NUMERALS {
        assert!(rt; is_numeral_so(rt.alloc(), text, want)?, "of {text}");
    }
    Ok(())
}

/// The item, so many times, with commas between them and in these brackets.
fn row_of(
    alloc: Global,
    open: &str,
    item: &str,
    close: &str,
    count: usize,
) -> Result<String, AllocError> {
    let mut out = String::from_str(alloc, open)?;
    for at in 0..count {
        out.push_str(if at == 0 { "" } else { "," })?;
        out.push_str(item)?;
    }
    out.push_str(close)?;
    Ok(out)
}

/// Whether a row of so many comes back.
fn comes_back(
    alloc: Global,
    open: &str,
    item: &str,
    close: &str,
    count: usize,
) -> Result<bool, Fail> {
    let text = row_of(alloc, open, item, close, count)?;
    is_written_so(alloc, text.as_str(), text.as_str())
}

/// How many items a list or an object has: few, and about 64, up to which it gets a new block.
const LENGTHS: [usize; 8] = [1, 2, 4, 5, 63, 64, 65, 1000];

#[test]
fn lists_and_objects_of_each_length(rt: HostRuntime) -> Result<(), Fail> {
    for count in LENGTHS {
        let list = comes_back(rt.alloc(), "[", "\"a\"", "]", count)?;
        assert!(rt; list, "a list of {count}");
        let object = comes_back(rt.alloc(), "{", "\"b\":\"a\"", "}", count)?;
        assert!(rt; object, "an object of {count}");
    }
    Ok(())
}
