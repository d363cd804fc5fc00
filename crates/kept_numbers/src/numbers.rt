// The numbers of the stations' last lines, as the records of a kept file tell them.
ghost use Rattle.std.specs.Prelude.{◌≡◌, ◌<◌, ◌∷◌, ◌++◌, ℕ, List, length, position, slice_set, IfSome, IsNone, MatchOption};
ghost use Rattle.line_words.specs.Lines.{is_lf};
ghost use Rattle.journal_file.specs.Layout.{Kept, NoRecord, record_of};
ghost use Rattle.journal_text.specs.JournalFaults.{HasNoLineFeed};
ghost use Rattle.kept_numbers.specs.Numbers.{AreLastNumbers, numbered};
ghost use Rattle.kept_numbers.specs.Steps.{noted};

use crate::line::numbered;

/// How many stations a room has at most.
pub const STATIONS: usize = 16;

// The bytes of the header of a kept file, and the most bytes of a file that counts as new.
const HEADER: usize = 18;

const MOST_NEW: usize = 19;

/// The number of each station's last line among the records of a kept file, 0 where it has none. Of bytes that are no kept
/// file it says nothing.
pub fn last_numbers(bytes: &[u8]) -> [u32; STATIONS]
    ensures { (lines : List (List ℕ)) → Kept bytes.now lines → AreLastNumbers lines result }
{
    let mut numbers = [0; STATIONS];
    if bytes.len() <= MOST_NEW {
        return numbers;
    }
    let (_, records) = bytes.split_at(HEADER);
    let mut rest = records;
    while let Some((line, after)) = first_record(rest) {
        note(&mut numbers, line);
        rest = after;
    }
    numbers
}

// Notes the number that a line begins with for its station.
fn note(numbers: &mut [u32; STATIONS], line: &[u8])
    requires { length numbers.old ≡ STATIONS }
    ensures { numbers.new ≡ noted numbers.old (numbered line.now) }
{
    match numbered(line) {
        Some((station, number)) => put(numbers, station, number),
        None => {}
    }
}

// Puts the number of a station in, where there is such a station.
fn put(numbers: &mut [u32; STATIONS], station: u32, number: u32)
    requires { length numbers.old ≡ STATIONS }
    ensures { numbers.new ≡ slice_set numbers.old station number }
{
    if (station as usize) < STATIONS {
        numbers[station as usize] = number;
    }
}

// The line of the record that begins these bytes, and what stands after the record; `None` where no record begins there.
fn first_record(bytes: &[u8]) -> Option<(&[u8], &[u8])>
    ensures some { IfSome result (λ r. HasNoLineFeed r.0.now
        × (bytes.now ≡ record_of r.0.now ++ r.1.now)) }
    ensures none { IsNone result → NoRecord bytes.now }
{
    match bytes {
        [b'+', more @ ..] => first_line(more),
        _ => None,
    }
}

// What stands before the first line feed, and what stands after it.
fn first_line(text: &[u8]) -> Option<(&[u8], &[u8])>
    ensures { MatchOption result (HasNoLineFeed text.now)
        (λ cut. (text.now ≡ cut.0.now ++ 10 ∷ cut.1.now) × HasNoLineFeed cut.0.now) }
{
    let at = match lf_at(text) {
        Some(at) => at,
        None => return None,
    };
    let (line, _) = text.split_at(at);
    let (_, rest) = text.split_at(at + 1);
    Some((line, rest))
}

// Where the first line feed stands, if there is one.
fn lf_at(text: &[u8]) -> Option<usize>
    ensures at { result ≡ position is_lf text.now }
    ensures within { IfSome result (λ i. i < length text.now) }
{
    text.iter().position(|byte| *byte == b'\n')
}
