// Lines, words and numbers of texts, in pieces of each size.
ghost use Rattle.std.specs.Prelude.{◌≡◌, ◌++◌, map, IfOk, OnOk, Some};
ghost use Rattle.std.specs.List.{concat};
ghost use Rattle.std.specs.Option.{option_map};
ghost use Rattle.line_words.specs.Lines.{last_line, lines_of};
ghost use Rattle.line_words.specs.Pieces.{ended, pending_after, lines_in_pieces};
ghost use Rattle.line_words.specs.Told.{line_told, lines_told};

use line_words::{
    Fed, LineEnd, LineReader, MAX_LINE, Memory, NumberFault, Words, next_word, number, signed,
    the_limit_is_this,
};
use std::alloc::{AllocError, Global};

// A line that was kept, or `None` for one that was too long.
type Kept = Option<Vec<u8>>;

// The line that ended so, where these bytes are the reader's last line.
fn kept(alloc: Global, end: LineEnd, bytes: &[u8]) -> Result<Kept, AllocError>
    ensures { IfOk result (λ line. option_map (λ l. l.items) line ≡ line_told end bytes.now) }
{
    match end {
        LineEnd::Whole => {
            let bytes = Vec::from_slice(alloc, bytes)?;
            Ok(Some(bytes))
        }
        LineEnd::TooLong => Ok(None),
    }
}

// Keeps the line that a reader told, if it told one.
fn keep_line(
    alloc: Global,
    reader: &LineReader,
    line: Option<LineEnd>,
    lines: &mut Vec<Kept>,
) -> Result<(), AllocError>
    ensures { OnOk result (map (option_map (λ l. l.items)) lines.new.items
        ≡ map (option_map (λ l. l.items)) lines.old.items ++ lines_told line reader.now.last) }
{
    match line {
        Some(end) => {
            let line = kept(alloc, end, reader.line())?;
            lines.push(line)?;
            Ok(())
        }
        None => Ok(()),
    }
}

// Keeps the lines that end within a piece.
fn keep_lines(
    alloc: Global,
    reader: &mut LineReader,
    piece: &[u8],
    lines: &mut Vec<Kept>,
) -> Result<(), AllocError>
    ensures lines { OnOk result (map (option_map (λ l. l.items)) lines.new.items
        ≡ map (option_map (λ l. l.items)) lines.old.items ++ ended reader.old.pending piece.now) }
    ensures pending { OnOk result
        (reader.new.pending ≡ pending_after reader.old.pending piece.now) }
{
    let mut at = 0;
    while at < piece.len() {
        let (_, rest) = piece.split_at(at);
        let fed = reader.feed(rest);
        at += fed.taken;
        keep_line(alloc, reader, fed.line, lines)?;
    }
    Ok(())
}

// The lines of a text that comes in pieces, as a reader tells them.
fn kept_lines(alloc: Global, pieces: &[&[u8]]) -> Result<Vec<Kept>, AllocError>
    ensures { IfOk result (λ lines. map (option_map (λ l. l.items)) lines.items
        ≡ lines_of (concat (map (λ piece. piece.now) pieces.now))) }
{
    let mut reader = LineReader::new();
    let mut lines = Vec::new(alloc);
    for piece in pieces {
        keep_lines(alloc, &mut reader, piece, &mut lines)?;
    }
    let line = reader.finish();
    keep_line(alloc, &reader, line, &mut lines)?;
    Ok(lines)
}

// The lines one after another: those that were kept in brackets, and `!` for one that was too long.
fn shown(alloc: Global, lines: &[Kept]) -> Result<Vec<u8>, AllocError> {
    let mut text = Vec::new(alloc);
    for line in lines {
        match line {
            Some(bytes) => {
                text.push(b'[')?;
                text.extend_from_slice(bytes)?;
                text.push(b']')?;
            }
            None => text.push(b'!')?,
        }
    }
    Ok(text)
}

// Texts and their lines as `shown` gives them.
const LINES: [(&str, &str); 9] = [
    ("", ""),
    ("\n", "[]"),
    ("\r\n", "[]"),
    ("\r", "[\r]"),
    ("\r\r\n", "[\r]"),
    ("\n\n", "[][]"),
    ("a\nb", "[a][b]"),
    ("a\nb\n", "[a][b]"),
    ("a\r\n\nbc\r\r\n\rd\r", "[a][][bc\r][\rd\r]"),
];

// Whether a text has these lines, in whichever three pieces it comes.
fn has_lines(alloc: Global, text: &[u8], expected: &[u8]) -> Result<bool, AllocError> {
    for first in 0..text.len() + 1 {
        for second in first..text.len() + 1 {
            let pieces = [&text[..first], &text[first..second], &text[second..]];
            let lines = kept_lines(alloc, &pieces)?;
            if shown(alloc, &lines)?.as_slice() != expected {
                return Ok(false);
            }
        }
    }
    Ok(true)
}

#[test]
fn lines_are_the_same_in_one_two_and_three_pieces(rt: HostRuntime) -> Result<(), AllocError> {
    let alloc = rt.alloc();
    for (text, expected) in LINES {
        let same = has_lines(alloc, text.as_bytes(), expected.as_bytes())?;
        assert!(rt; same, "{text:?}");
    }
    Ok(())
}

// How many letters a text has, its end after them, how many bytes of the first line are kept, where it is not too long,
// and the lines after it as `shown` gives them.
type Long = (usize, &'static str, Option<usize>, &'static str);

// Texts whose first line is at the limit of 1,024 bytes or beside it.
const LONG_LINES: [Long; 10] = [
    (1024, "\nok\n", Some(1024), "[ok]"),
    (1025, "\nok\n", None, "[ok]"),
    (1023, "\r\nok\n", Some(1023), "[ok]"),
    (1024, "\r\nok\n", None, "[ok]"),
    (1023, "\r\r\nok\n", None, "[ok]"),
    (5000, "\nok\n", None, "[ok]"),
    (1024, "", Some(1024), ""),
    (1025, "", None, ""),
    (1023, "\r", Some(1024), ""),
    (1024, "\r", None, ""),
];

// Whether a text that is cut there has these lines.
fn has_long_line(
    alloc: Global,
    text: &[u8],
    cut: usize,
    kept: Option<usize>,
    others: &str,
) -> Result<bool, AllocError> {
    let (front, back) = text.split_at(text.len().min(cut));
    let lines = kept_lines(alloc, &[front, back])?;
    let Some((first, rest)) = lines.split_first() else {
        return Ok(false);
    };
    let len = match first {
        Some(bytes) => Some(bytes.len()),
        None => None,
    };
    let shown = shown(alloc, rest)?;
    Ok(len == kept && shown.as_slice() == others.as_bytes())
}

#[test]
fn a_line_has_at_most_1024_bytes(rt: HostRuntime) -> Result<(), AllocError> {
    let alloc = rt.alloc();
    for (count, end, kept, others) in LONG_LINES {
        let mut text = vec![in alloc; b'x'; count]?;
        text.extend_from_slice(end.as_bytes())?;
        for cut in [0, 1, 1022, 1023, 1024, 1025, 1026, 1027] {
            let same = has_long_line(alloc, &text, cut, kept, others)?;
            assert!(rt; same, "{count} cut at {cut}");
        }
    }
    Ok(())
}

// Whether a reader takes so many bytes of a piece and tells this line, and what its last line is then.
fn feeds(
    reader: &mut LineReader,
    piece: &[u8],
    taken: usize,
    line: Option<LineEnd>,
    last: &[u8],
) -> bool {
    reader.feed(piece) == Fed { taken, line } && reader.line() == last
}

// Whether the end of the text tells this line, and what the reader's last line is then.
fn finishes(reader: &mut LineReader, line: Option<LineEnd>, last: &[u8]) -> bool {
    reader.finish() == line && reader.line() == last
}

#[test]
fn the_last_line_stays_until_the_next_one_ends(rt: HostRuntime) {
    let mut reader = LineReader::new();
    assert!(rt; reader.line().is_empty());
    assert!(rt; feeds(&mut reader, b"one\ntwo", 4, Some(LineEnd::Whole), b"one"));
    assert!(rt; feeds(&mut reader, b"two", 3, None, b"one"));
    assert!(rt; feeds(&mut reader, b"", 0, None, b"one"));
    assert!(rt; finishes(&mut reader, Some(LineEnd::Whole), b"two"));
    assert!(rt; finishes(&mut reader, None, b"two"));
    assert!(rt; feeds(&mut reader, &[b'x'; MAX_LINE + 1], 1025, None, b"two"));
    assert!(rt; finishes(&mut reader, Some(LineEnd::TooLong), b""));
    assert!(rt; finishes(&mut reader, None, b""));
}

// Lines, where a word of theirs is looked for from, and where it stands.
const PLACES: [(&str, usize, Option<(usize, usize)>); 15] = [
    ("  ab\t \tc\rd ", 0, Some((2, 4))),
    ("  ab\t \tc\rd ", 2, Some((2, 4))),
    ("  ab\t \tc\rd ", 3, Some((7, 10))),
    ("  ab\t \tc\rd ", 4, Some((7, 10))),
    ("  ab\t \tc\rd ", 7, Some((7, 10))),
    ("  ab\t \tc\rd ", 8, None),
    ("  ab\t \tc\rd ", 9, None),
    ("  ab\t \tc\rd ", 10, None),
    ("  ab\t \tc\rd ", 11, None),
    ("  ab\t \tc\rd ", 99, None),
    ("", 0, None),
    (" \t ", 0, None),
    ("end", 0, Some((0, 3))),
    ("end", 1, None),
    ("a b", 1, Some((2, 3))),
];

// Whether the next word of a line from there on stands at this place, or nowhere.
fn stands(line: &str, from: usize, place: Option<(usize, usize)>) -> bool {
    next_word(line.as_bytes(), from) == place
}

#[test]
fn words_are_parted_by_spaces_and_tabs(rt: HostRuntime) {
    for (line, from, place) in PLACES {
        assert!(rt; stands(line, from, place), "{line:?} from {from}");
    }
}

// Words and what they are as numbers.
const NUMBERS: [(&str, Result<u32, NumberFault>); 13] = [
    ("0", Ok(0)),
    ("007", Ok(7)),
    ("4294967295", Ok(4294967295)),
    ("4294967296", Err(NumberFault::TooLarge)),
    ("42949672950", Err(NumberFault::TooLarge)),
    ("", Err(NumberFault::NotANumber)),
    ("1x", Err(NumberFault::NotANumber)),
    ("+1", Err(NumberFault::NotANumber)),
    ("-1", Err(NumberFault::NotANumber)),
    (" 1", Err(NumberFault::NotANumber)),
    ("1,2", Err(NumberFault::NotANumber)),
    ("/", Err(NumberFault::NotANumber)),
    (":", Err(NumberFault::NotANumber)),
];

// Whether a word is read as this number, or refused for this fault.
fn is_number(word: &[u8], value: Result<u32, NumberFault>) -> bool {
    number(word) == value
}

#[test]
fn numbers_have_any_count_of_digits(rt: HostRuntime) {
    for (word, value) in NUMBERS {
        assert!(rt; is_number(word.as_bytes(), value), "{word:?}");
    }
    let mut zeros = [b'0'; 201];
    zeros[200] = b'1';
    assert!(rt; is_number(&zeros, Ok(1)));
    let mut nines = [b'9'; 1001];
    assert!(rt; is_number(&nines[..1000], Err(NumberFault::TooLarge)));
    nines[1000] = b'x';
    assert!(rt; is_number(&nines, Err(NumberFault::NotANumber)));
}

// Words and what they are as signed numbers.
const SIGNED: [(&str, Result<i32, NumberFault>); 14] = [
    ("0", Ok(0)),
    ("-0", Ok(0)),
    ("-007", Ok(-7)),
    ("2147483647", Ok(2147483647)),
    ("2147483648", Err(NumberFault::TooLarge)),
    ("-2147483648", Ok(-2147483648)),
    ("-2147483649", Err(NumberFault::TooLarge)),
    ("4294967296", Err(NumberFault::TooLarge)),
    ("", Err(NumberFault::NotANumber)),
    ("-", Err(NumberFault::NotANumber)),
    ("--1", Err(NumberFault::NotANumber)),
    ("+1", Err(NumberFault::NotANumber)),
    ("1-", Err(NumberFault::NotANumber)),
    ("-9999999999x", Err(NumberFault::NotANumber)),
];

// Whether a word is read as this signed number, or refused for this fault.
fn is_signed(word: &[u8], value: Result<i32, NumberFault>) -> bool {
    signed(word) == value
}

#[test]
fn signed_numbers_have_at_most_one_minus(rt: HostRuntime) {
    for (word, value) in SIGNED {
        assert!(rt; is_signed(word.as_bytes(), value), "{word:?}");
    }
    let mut nines = [b'9'; 1001];
    nines[0] = b'-';
    assert!(rt; is_signed(&nines, Err(NumberFault::TooLarge)));
}

#[test]
fn words_stand_in_their_order(rt: HostRuntime) -> Result<(), Memory> {
    let mut words = Words::new(rt.alloc());
    assert_eq!(rt; words.count(), 0);
    words.push("run")?;
    words.push("")?;
    words.push("2")?;
    assert_eq!(rt; words.count(), 3);
    assert_eq!(rt; words.word(0), "run");
    assert_eq!(rt; words.word(1), "");
    assert_eq!(rt; words.word(2), "2");
    Ok(())
}

#[test]
fn the_limit_is_told() {
    the_limit_is_this();
}
