// Words that name the files that were recorded of stations.
ghost use Rattle.std.specs.Prelude.{◌≡◌, ◌<◌, ◌≤◌, IfSome, drop, length, map, option_map};
ghost use Rattle.command_words.specs.Commands.{most_stations};
ghost use Rattle.command_words.specs.Records.{first_record, is_cut, named_by, records_in, records_of, told_record};

use arrayvec::ArrayVec;
use line_words::Words;

/// How many words of an audit come before those that name the files that were recorded.
pub(crate) const FIRST_RECORD: u32 = 5;

/// The files that were recorded of a station, by their names.
#[derive(Clone, Copy, Debug, Default, PartialEq, Eq)]
pub struct RecordNames<'a> {
    /// The file of the lines that it sent.
    pub lines: &'a str,
    /// The file of the replies that it got.
    pub replies: &'a str,
    /// Its session ended by a fault.
    pub is_cut: bool,
}

// Whether the word at a place is there and is `cut`.
fn is_cut(words: &Words, at: u32) -> bool
    requires { at ≤ length words.now }
    ensures { result ≡ is_cut (drop at words.now) }
{
    if at < words.count() {
        return words.word(at) == "cut";
    }
    false
}

/// The record whose words begin at a place, and where the words after it begin.
pub(crate) fn record_at(words: &Words, at: u32) -> Option<(RecordNames<'_>, u32)>
    requires { at ≤ length words.now }
    ensures record { option_map (told_record words.now) result ≡ first_record (drop at words.now) }
    ensures on { IfSome result (λ x. (at < x.1) × (x.1 ≤ length words.now)) }
{
    if words.count() - at < 2 {
        return None;
    }
    let (lines, replies) = (words.word(at), words.word(at + 1));
    if is_cut(words, at + 2) {
        let record = RecordNames {
            lines,
            replies,
            is_cut: true,
        };
        return Some((record, at + 3));
    }
    let record = RecordNames {
        lines,
        replies,
        is_cut: false,
    };
    Some((record, at + 2))
}

/// How many records the words after the fifth name; `None` where the last of them has one name alone.
pub(crate) fn record_count(words: &Words) -> Option<u32>
    requires { 5 ≤ length words.now }
    ensures { result ≡ option_map length (records_in (drop 5 words.now)) }
{
    let mut at = FIRST_RECORD;
    let mut count = 0;
    while at < words.count() {
        match record_at(words, at) {
            Some((_, next)) => at = next,
            None => return None,
        }
        count += 1;
    }
    Some(count)
}

/// The files that the words of an audit name, of each station in its turn. It takes no memory.
pub fn records_of(words: &Words) -> ArrayVec<RecordNames<'_>, 16>
    requires words { 5 ≤ length words.now }
    requires some { 0 < length (records_of words.now) }
    requires few { length (records_of words.now) ≤ most_stations }
    ensures { map named_by result.items ≡ records_of words.now }
{
    let mut records = ArrayVec::new();
    let mut at = FIRST_RECORD;
    while at < words.count() {
        match record_at(words, at) {
            Some((record, next)) => {
                records.push(record);
                at = next;
            }
            None => return ArrayVec::new(),
        }
    }
    records
}
