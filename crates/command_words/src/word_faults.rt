// Why words are no command.
ghost use Rattle.std.specs.Prelude.{◌≡◌, ◌+◌, ◌≤◌, None, drop, is_some, length, option_map, slice_get, slice_index_or, []};
ghost use Rattle.line_words.specs.Digits.{number_of};
ghost use Rattle.command_words.specs.Commands.{word_at};
ghost use Rattle.command_words.specs.WordFaults.{says, parts_fault, beyond, whole_fault, rows_fault, naming_fault, list_fault, records_fault, audit_fault, run_parts, fault_of, is_number};

use crate::command::{
    LEAST_LINES, LEAST_STATIONS, LEAST_TRACKS, MOST_LINES, MOST_REELS, MOST_STATIONS, MOST_TRACKS,
    counting, number_within, rate,
};
use crate::names::{RowFault, first_fault};
use crate::records::{FIRST_RECORD, record_at};
use line_words::{Words, number};

/// What a word of a command says, by its name in the command's usage.
#[derive(Clone, Copy, Debug, PartialEq, Eq)]
pub enum Part {
    /// The name of a document's file, DOC.
    Document,
    /// The name of a list's file.
    List,
    /// The name of a journal's file.
    Journal,
    /// Where a hall listens.
    Address,
    /// Frames a second.
    Rate,
    /// Whether drop-frame is counted, at the rate before it.
    Drop,
    /// How many stations there are.
    Stations,
    /// How many tracks a plain room has.
    Tracks,
    /// How many reels a plain room has.
    Reels,
    /// How many entries of a journal stand before the cut that is meant.
    Point,
    /// The number of a generated session.
    Number,
    /// How many lines each of its stations sends.
    Count,
    /// How the reels of a list are named, by `numbered` or `names`.
    Naming,
    /// A reel's name, after `names`.
    Row,
    /// The name of the file of what a station sent.
    Lines,
    /// The name of the file of what a station got.
    Replies,
}

/// Why a word can't stand where it stands, or what is missing.
#[derive(Clone, Copy, Debug, PartialEq, Eq)]
pub enum WordFault {
    /// No word says this.
    Missing(Part),
    /// The word is to say this, and does not.
    Wrong(Part),
    /// The command has all its words before this one.
    Beyond,
    /// The word names no reel.
    Row(RowFault),
}

/// The words after `run` that open a plain room.
pub const PLAIN_PARTS: &[Part] = &[Part::Tracks, Part::Reels];

/// The words after `run` and `follow` that open a document's room.
pub const ROOM_PARTS: &[Part] = &[Part::Document, Part::Rate, Part::Drop];

/// The words after `serve` and `store`.
pub const HALL_PARTS: &[Part] = &[
    Part::Document,
    Part::Rate,
    Part::Drop,
    Part::Stations,
    Part::Address,
    Part::Journal,
];

/// The words after `list`, up to those that say how reels are named.
pub const CUT_PARTS: &[Part] = &[
    Part::Document,
    Part::Rate,
    Part::Drop,
    Part::Journal,
    Part::Point,
];

/// The words after `tape`.
pub const TAPE_PARTS: &[Part] = &[Part::List, Part::Rate];

/// The words after `import`.
pub const IMPORT_PARTS: &[Part] = &[Part::List, Part::Rate, Part::Drop];

/// The words after `audit`, up to those that name the files that were recorded.
pub const AUDIT_PARTS: &[Part] = &[Part::Document, Part::Rate, Part::Drop, Part::Journal];

/// The words after `make`.
pub const MADE_PARTS: &[Part] = &[Part::Number, Part::Count];

// Whether a word is a number.
fn is_number(word: &str) -> bool
    ensures { result ≡ is_number (number_of word.now) }
{
    match number(word.as_bytes()) {
        Ok(_) => true,
        Err(_) => false,
    }
}

// Whether a word says this, after the word before it.
fn says(part: Part, before: &str, word: &str) -> bool
    ensures { result ≡ says part before.now word.now }
{
    match part {
        Part::Rate => rate(word).is_some(),
        Part::Drop => counting(before, word).is_some(),
        Part::Stations => number_within(word, LEAST_STATIONS, MOST_STATIONS).is_some(),
        Part::Tracks => number_within(word, LEAST_TRACKS, MOST_TRACKS).is_some(),
        Part::Reels => number_within(word, 0, MOST_REELS).is_some(),
        Part::Point => is_number(word),
        Part::Number => is_number(word),
        Part::Count => number_within(word, LEAST_LINES, MOST_LINES).is_some(),
        _ => true,
    }
}

// The first of these parts that the words after the first do not say, in their order, and the word that is there.
fn parts_fault<'a>(words: &'a Words, parts: &[Part]) -> Option<(&'a str, WordFault)>
    requires { 1 ≤ length words.now }
    ensures fault { option_map (λ x. (x.0.now, x.1)) result
        ≡ parts_fault parts.now (word_at 0 words.now) (drop 1 words.now) }
    ensures said { result ≡ None → 1 + length parts.now ≤ length words.now }
{
    for i in 0..parts.len() {
        let part = parts[i];
        if words.count() as usize <= i + 1 {
            return Some(("", WordFault::Missing(part)));
        }
        let (before, word) = (words.word(i as u32), words.word((i + 1) as u32));
        if !says(part, before, word) {
            return Some((word, WordFault::Wrong(part)));
        }
    }
    None
}

// A word from this place on, where none is to stand.
fn beyond(words: &Words, from: usize) -> Option<(&str, WordFault)>
    ensures { option_map (λ x. (x.0.now, x.1)) result ≡ beyond (drop from words.now) }
{
    if words.count() as usize <= from {
        return None;
    }
    Some((words.word(from as u32), WordFault::Beyond))
}

// The fault of words that are to say these parts after the first, and no more.
fn whole_fault<'a>(words: &'a Words, parts: &[Part]) -> Option<(&'a str, WordFault)>
    requires { 1 ≤ length words.now }
    ensures { option_map (λ x. (x.0.now, x.1)) result ≡ whole_fault parts.now words.now }
{
    match parts_fault(words, parts) {
        Some(fault) => Some(fault),
        None => beyond(words, 1 + parts.len()),
    }
}

// The fault of the words after `names`, which stands at the seventh place.
fn rows_fault(words: &Words) -> Option<(&str, WordFault)>
    requires { 7 ≤ length words.now }
    ensures { option_map (λ x. (x.0.now, x.1)) result ≡ rows_fault (drop 7 words.now) }
{
    if words.count() == 7 {
        return Some(("", WordFault::Missing(Part::Row)));
    }
    match first_fault(words) {
        Some((word, fault)) => Some((word, WordFault::Row(fault))),
        None => None,
    }
}

// The fault of the words after POINT.
fn naming_fault(words: &Words) -> Option<(&str, WordFault)>
    requires { 6 ≤ length words.now }
    ensures { option_map (λ x. (x.0.now, x.1)) result ≡ naming_fault (drop 6 words.now) }
{
    if words.count() == 6 {
        return None;
    }
    let word = words.word(6);
    match word {
        "numbered" => beyond(words, 7),
        "names" => rows_fault(words),
        _ => Some((word, WordFault::Wrong(Part::Naming))),
    }
}

// The fault of the words of a list.
fn list_fault(words: &Words) -> Option<(&str, WordFault)>
    requires { 1 ≤ length words.now }
    ensures { option_map (λ x. (x.0.now, x.1)) result ≡ list_fault words.now }
{
    match parts_fault(words, CUT_PARTS) {
        Some(fault) => Some(fault),
        None => naming_fault(words),
    }
}

// The fault of words from the sixth on, which are to name records, of one station at least and of as many as there may be.
fn records_fault(words: &Words) -> Option<(&str, WordFault)>
    requires { 5 ≤ length words.now }
    ensures { option_map (λ x. (x.0.now, x.1)) result ≡ records_fault (drop 5 words.now) }
{
    if words.count() == FIRST_RECORD {
        return Some(("", WordFault::Missing(Part::Lines)));
    }
    let (mut at, mut left) = (FIRST_RECORD, MOST_STATIONS);
    while left > 0 {
        if at == words.count() {
            return None;
        }
        match record_at(words, at) {
            Some((_, next)) => at = next,
            None => return Some(("", WordFault::Missing(Part::Replies))),
        }
        left -= 1;
    }
    beyond(words, at as usize)
}

// The fault of the words of an audit.
fn audit_fault(words: &Words) -> Option<(&str, WordFault)>
    requires { 1 ≤ length words.now }
    ensures { option_map (λ x. (x.0.now, x.1)) result ≡ audit_fault words.now }
{
    match parts_fault(words, AUDIT_PARTS) {
        Some(fault) => Some(fault),
        None => records_fault(words),
    }
}

// What the words after `run` are to say: a plain room, where there are at most two and the first is a number.
fn run_parts(words: &Words) -> &'static [Part]
    ensures { result.now ≡ run_parts words.now }
{
    let count = words.count();
    if count > 1 && count <= 3 && is_number(words.word(1)) {
        return PLAIN_PARTS;
    }
    ROOM_PARTS
}

/// Why words are no command that begin as one: the first word that does not say what it has to say there, and why, or what
/// is missing after the last, of which the word is empty. `None` where no command begins so, or nothing is wrong.
pub fn word_fault(words: &Words) -> Option<(&str, WordFault)>
    ensures { option_map (λ x. (x.0.now, x.1)) result ≡ fault_of words.now }
{
    if words.count() == 0 {
        return None;
    }
    match words.word(0) {
        "run" => whole_fault(words, run_parts(words)),
        "serve" => whole_fault(words, HALL_PARTS),
        "store" => whole_fault(words, HALL_PARTS),
        "list" => list_fault(words),
        "tape" => whole_fault(words, TAPE_PARTS),
        "import" => whole_fault(words, IMPORT_PARTS),
        "follow" => whole_fault(words, ROOM_PARTS),
        "audit" => audit_fault(words),
        "make" => whole_fault(words, MADE_PARTS),
        _ => None,
    }
}
