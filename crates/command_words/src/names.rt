// Words that say how reels are named in a list.
ghost use Rattle.std.specs.Prelude.{◌≡◌, ◌<◌, ◌≤◌, ◌&&◌, [], codes, drop, is_none, length, map, option_map, slice_get, slice_index_or, take, true};
ghost use Rattle.reel_names.specs.Names.{fits};
ghost use Rattle.reel_names.specs.Tables.{has_text, is_named};
ghost use Rattle.command_words.specs.Commands.{is_word};
ghost use Rattle.command_words.specs.Names.{first_fault, word_fault, row_of};

use line_words::Words;
use reel_names::Name;

/// Why a word is refused that gives a reel its name, as TEXT=NAME.
#[derive(Clone, Copy, Debug, PartialEq, Eq)]
pub enum RowFault {
    /// It has no `=`, or nothing before its last one.
    NoText,
    /// A list that is written can't have the name.
    Unfit,
    /// An earlier word has the text.
    Again,
    /// An earlier word has the name.
    Taken,
}

/// How many words of a list come before those that name reels.
pub const FIRST_ROW: u32 = 7;

/// Whether a seventh word says that names of reels follow.
pub fn says_names(words: &Words) -> bool
    ensures says { result ≡ is_word (slice_get words.now 6) (codes "names") }
    ensures count { result ≡ true → 7 ≤ length words.now }
{
    words.count() > 6 && words.word(6) == "names"
}

/// Whether the words of a list from the seventh on say that names follow, and one or more do, none of which is refused.
pub fn has_rows(words: &Words) -> bool
    requires { 7 < length words.now }
    ensures { result ≡ (is_word (slice_get words.now 6) (codes "names")
        && is_none (first_fault [] (drop 7 words.now))) }
{
    says_names(words) && first_fault(words).is_none()
}

/// The text and the name of a word, which is cut at its last `=`; both are empty where it has none.
pub fn row_in(word: &str) -> (&str, &str)
    ensures { row_of word.now ≡ record { text = result.0.now; name = result.1.now } }
{
    match word.rsplit_once('=') {
        Some(parts) => parts,
        None => ("", ""),
    }
}

// Whether a list that is written can have this name.
fn fits(name: &str) -> bool
    ensures { result ≡ fits name.now }
{
    match Name::of(name.as_bytes()) {
        Some(name) => name.fits(),
        None => false,
    }
}

// Whether a word before this one has the text.
fn has_text(words: &Words, end: u32, text: &str) -> bool
    requires { (7 ≤ end) × (end ≤ length words.now) }
    ensures { result ≡ has_text (map row_of (drop 7 (take end words.now))) text.now }
{
    for i in FIRST_ROW..end {
        if row_in(words.word(i)).0 == text {
            return true;
        }
    }
    false
}

// Whether a word before this one has the name.
fn is_named(words: &Words, end: u32, name: &str) -> bool
    requires { (7 ≤ end) × (end ≤ length words.now) }
    ensures { result ≡ is_named (map row_of (drop 7 (take end words.now))) name.now }
{
    for i in FIRST_ROW..end {
        if row_in(words.word(i)).1 == name {
            return true;
        }
    }
    false
}

// Why this word can't stand after those before it.
fn fault_at(words: &Words, i: u32) -> Option<RowFault>
    requires { (7 ≤ i) × (i < length words.now) }
    ensures { result ≡ word_fault (map row_of (drop 7 (take i words.now)))
        (row_of (slice_index_or words.now i [])) }
{
    let (text, name) = row_in(words.word(i));
    if text.is_empty() {
        return Some(RowFault::NoText);
    }
    if !fits(name) {
        return Some(RowFault::Unfit);
    }
    if has_text(words, i, text) {
        return Some(RowFault::Again);
    }
    if is_named(words, i, name) {
        return Some(RowFault::Taken);
    }
    None
}

/// The first word after the seventh that can't give a reel its name, and why.
pub fn first_fault(words: &Words) -> Option<(&str, RowFault)>
    requires { 7 ≤ length words.now }
    ensures { option_map (λ x. (x.0.now, x.1)) result ≡ first_fault [] (drop 7 words.now) }
{
    for i in FIRST_ROW..words.count() {
        match fault_at(words, i) {
            Some(fault) => return Some((words.word(i), fault)),
            None => {}
        }
    }
    None
}
