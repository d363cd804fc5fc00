// A journal read from its text.
ghost use Rattle.std.specs.Prelude.{◌≡◌, ◌≢◌, ℕ, ◌+◌, ◌<◌, ◌∷◌, ◌++◌, ◌≤◌, length, option_map, decimal, bytes_eq, IfErr, IfOk, IfSome, MatchOption, None, take, position};
ghost use Rattle.std.specs.List.{All};
ghost use Rattle.line_words.specs.Blanks.{words_of};
ghost use Rattle.line_words.specs.Lines.{is_lf};
ghost use Rattle.room_core.specs.History.{NumbersRise};
ghost use Rattle.line_table.specs.CallTexts.{IsSmall, IsWrittenStep};
ghost use Rattle.journal_text.specs.Journals.{count_line, count_text, entry_line, entry_text, HasLine};
ghost use Rattle.journal_text.specs.JournalFaults.{HasNoLineFeed, HasNoCount, HasNoEntry, IsNoEntry, IsNoEntryFor, AreLines, StopsFor, IsFirstLate, AreEntriesOf, IsRefusedFor};
ghost use Rattle.line_table.specs.Labels.{place_by};
ghost use Rattle.journal_text.specs.LooseEntries.{number_before, step_in, loose_entry};
ghost use Rattle.line_table.specs.Reading.{line_of_words};

use crate::journal::put_entry_text;
use crate::{Entry, EntryFault, JournalCode, JournalFault};
use composables::Memory;
use edit_calls::Call;
use edit_journal::MOST_ENTRIES;
use itoa::Buffer;
use line_table::{Line, LineFault, first_word, room_for, table_line};
use line_words::number;
use std::alloc::Global;
use take_back::Step;
use timecode12::{Counting, SequenceRate};

/// The most bytes of a text that is read: 64 MiB.
pub const MAX_JOURNAL: usize = 67_108_864;

/// The greatest number of a station.
pub const LAST_STATION: u32 = 15;

/// How many stations there are at most.
const STATIONS: usize = 16;

/// The entries of the journal whose text this is, or the first fault of the text.
///
/// The text is read only where it is exactly what `journal_text` writes: one space between words, numbers without
/// leading zeros, places as numbers, a line feed after each line.
pub fn read_journal(alloc: Global, bytes: &[u8]) -> Result<Vec<Entry<Step<Call>>>, JournalFault>
    requires { length bytes.now ≤ MAX_JOURNAL }
    ensures read { IfOk result (λ entries. AreEntriesOf bytes.now entries.items) }
    ensures refused { IfErr result (λ fault. IsRefusedFor bytes.now fault) }
{
    let (count, rest) = match first_count(bytes) {
        Some(found) => found,
        None => return Err(refused(JournalCode::H1, 0)),
    };
    let entries = entries_in(alloc, rest)?;
    if count as usize != entries.len() || entries.len() > MOST_ENTRIES as usize {
        return Err(refused(JournalCode::H2, 0));
    }
    match first_late(&entries) {
        Some(at) => Err(refused(JournalCode::H4, at + 1)),
        None => Ok(entries),
    }
}

/// The entry whose line in a journal's text this is, without the line feed. It is read only where it is exactly what
/// `entry_text` writes.
pub fn read_entry(alloc: Global, line: &[u8]) -> Result<Entry<Step<Call>>, EntryFault>
    ensures read { IfOk result (λ entry. HasLine entry × (line.now ≡ entry_text entry)) }
    ensures refused { IfErr result (λ fault. IsNoEntryFor line.now fault) }
{
    let Some(counting) = Counting::new(SequenceRate::F24, false) else {
        unreachable!()
    };
    let mut scratch = Vec::new(alloc);
    match told_entry(alloc, &mut scratch, line, &counting)? {
        Some(entry) => Ok(entry),
        None => Err(EntryFault::H1),
    }
}

// The fault at the line after so many.
fn refused(code: JournalCode, lines: usize) -> JournalFault
    requires { lines < u32.MAX }
    ensures { result ≡ JournalFault.Refused code (lines + 1) }
{
    JournalFault::Refused {
        code,
        number: lines as u32 + 1,
    }
}

// The count that the first line tells, and the text after that line.
fn first_count(text: &[u8]) -> Option<(u32, &[u8])>
    ensures { MatchOption result (HasNoCount text.now)
        (λ found. IsSmall found.0 × (text.now ≡ count_line found.0 ++ found.1.now)) }
{
    let (line, rest) = first_line(text)?;
    let count = told_count(line)?;
    Some((count, rest))
}

// The count that a line tells, if it is exactly the first line of a journal's text.
fn told_count(line: &[u8]) -> Option<u32>
    ensures { MatchOption result ((count : ℕ) → IsSmall count → line.now ≢ count_text count)
        (λ count. line.now ≡ count_text count) }
{
    let digits = line.strip_prefix(b"journal ".as_slice())?;
    exact_number(digits)
}

// The number that a word is the decimal digits of, without leading zeros.
fn exact_number(word: &[u8]) -> Option<u32>
    ensures { MatchOption result ((n : ℕ) → IsSmall n → word.now ≢ decimal n)
        (λ n. word.now ≡ decimal n) }
{
    let read = match number(word) {
        Ok(read) => read,
        Err(_) => return None,
    };
    let mut buffer = Buffer::new();
    if buffer.format(read).as_bytes() == word {
        Some(read)
    } else {
        None
    }
}

// What stands before the first line feed of a text, and what stands after it.
fn first_line(text: &[u8]) -> Option<(&[u8], &[u8])>
    ensures { MatchOption result (HasNoLineFeed text.now)
        (λ cut. (text.now ≡ cut.0.now ++ 10 ∷ cut.1.now) × HasNoLineFeed cut.0.now) }
{
    let at = lf_at(text)?;
    let (_, rest) = text.split_at(at + 1);
    Some((&text[..at], rest))
}

// Where the first line feed stands, if there is one.
fn lf_at(text: &[u8]) -> Option<usize>
    ensures at { result ≡ position is_lf text.now }
    ensures within { IfSome result (λ at. at < length text.now) }
{
    text.iter().position(|byte| *byte == b'\n')
}

// The entries whose lines a text is, one after another, or the line that is none of an entry. The text stands after the
// line of the count.
fn entries_in(alloc: Global, text: &[u8]) -> Result<Vec<Entry<Step<Call>>>, JournalFault>
    requires { length text.now ≤ MAX_JOURNAL }
    ensures read { IfOk result (λ entries. AreLines text.now entries.items) }
    ensures refused { IfErr result (λ fault. StopsFor text.now fault) }
{
    let Some(counting) = Counting::new(SequenceRate::F24, false) else {
        unreachable!()
    };
    let mut entries = Vec::new(alloc);
    let mut scratch = Vec::new(alloc);
    let mut rest = text;
    while !rest.is_empty() {
        match first_entry(alloc, &mut scratch, rest, &counting)? {
            Some((entry, more)) => {
                entries.push(entry)?;
                rest = more;
            }
            None => return Err(refused(JournalCode::H1, entries.len() + 1)),
        }
    }
    Ok(entries)
}

// The entry whose line stands at the front of a text, and the text after that line. The scratch is overwritten.
fn first_entry<'a>(
    alloc: Global,
    scratch: &mut Vec<u8>,
    text: &'a [u8],
    counting: &Counting,
) -> Result<Option<(Entry<Step<Call>>, &'a [u8])>, Memory>
    ensures { IfOk result (λ found. MatchOption found (HasNoEntry text.now)
        (λ first. HasLine first.0 × (text.now ≡ entry_line first.0 ++ first.1.now))) }
{
    let (line, rest) = match first_line(text) {
        Some(cut) => cut,
        None => return Ok(None),
    };
    match told_entry(alloc, scratch, line, counting)? {
        Some(entry) => Ok(Some((entry, rest))),
        None => Ok(None),
    }
}

// The entry whose text a line is: an entry is read however it is spelled, and its text is compared with the line.
fn told_entry(
    alloc: Global,
    scratch: &mut Vec<u8>,
    line: &[u8],
    counting: &Counting,
) -> Result<Option<Entry<Step<Call>>>, Memory>
    ensures { IfOk result (λ found. MatchOption found (IsNoEntry line.now)
        (λ entry. HasLine entry × (line.now ≡ entry_text entry))) }
{
    match loose_entry(alloc, line, counting)? {
        Some(entry) => {
            let told = is_text_of(scratch, line, &entry)?;
            if told { Ok(Some(entry)) } else { Ok(None) }
        }
        None => Ok(None),
    }
}

// Whether a line is the text of an entry. The scratch is overwritten.
fn is_text_of(scratch: &mut Vec<u8>, line: &[u8], entry: &Entry<Step<Call>>) -> Result<bool, Memory>
    ensures { IfOk result (λ same. same ≡ bytes_eq (entry_text entry.now) line.now) }
{
    scratch.clear();
    scratch.reserve(room_for(&entry.call)?)?;
    put_entry_text(scratch, entry);
    Ok(scratch.as_slice() == line)
}

// The entry that a line's words are, however they are spelled.
pub(crate) fn loose_entry(
    alloc: Global,
    line: &[u8],
    counting: &Counting,
) -> Result<Option<Entry<Step<Call>>>, Memory>
    ensures read { IfOk result (λ found. found
        ≡ loose_entry (place_by counting.now 0) (words_of line.now)) }
    ensures line { IfOk result (λ found. IfSome found (λ entry. HasLine entry)) }
{
    let (station, rest) = match first_number(line) {
        Some(found) => found,
        None => return Ok(None),
    };
    let (number, rest) = match first_number(rest) {
        Some(found) => found,
        None => return Ok(None),
    };
    let step = match step_of(alloc, rest, counting)? {
        Some(step) => step,
        None => return Ok(None),
    };
    if station > LAST_STATION {
        return Ok(None);
    }
    Ok(Some(Entry {
        station,
        number,
        call: step.asked_by(station),
    }))
}

// The number that the first word of a line is, and the line after it.
pub(crate) fn first_number(line: &[u8]) -> Option<(u32, &[u8])>
    ensures { option_map (λ found. (found.0, words_of found.1.now)) result
        ≡ number_before (words_of line.now) }
{
    match first_word(line) {
        Ok((word, rest)) => match number(word) {
            Ok(first) => Some((first, rest)),
            Err(_) => None,
        },
        Err(_) => None,
    }
}

// The step that a line asks for, if it is one of the table and asks for one.
fn step_of(alloc: Global, line: &[u8], counting: &Counting) -> Result<Option<Step<Call>>, Memory>
    ensures read { IfOk result (λ found. found
        ≡ step_in (line_of_words (place_by counting.now 0) (words_of line.now))) }
    ensures written { IfOk result (λ found. IfSome found (λ step. IsWrittenStep step)) }
{
    match table_line(alloc, line, counting, 0) {
        Ok(Line::Edit(step)) => Ok(Some(step)),
        Ok(Line::Ask(_)) => Ok(None),
        Ok(Line::Point) => Ok(None),
        Ok(Line::Otio(_)) => Ok(None),
        Ok(Line::News(_)) => Ok(None),
        Err(LineFault::Memory) => Err(Memory),
        Err(_) => Ok(None),
    }
}

// The place of the first entry whose number does not rise within its station.
fn first_late(entries: &[Entry<Step<Call>>]) -> Option<usize>
    requires { All HasLine entries.now }
    ensures rise { result ≡ None → NumbersRise entries.now }
    ensures late { IfSome result (λ at. IsFirstLate entries.now (take at entries.now)) }
    ensures within { IfSome result (λ at. at < length entries.now) }
{
    // The least number that the next entry of each station can bear.
    let mut least = [0_u64; STATIONS];
    for (at, entry) in entries.iter().enumerate() {
        let station = entry.station as usize;
        let number = u64::from(entry.number);
        if number < least[station] {
            return Some(at);
        }
        least[station] = number + 1;
    }
    None
}
