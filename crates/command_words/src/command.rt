// The words of the program's command line.
ghost use Rattle.std.specs.Prelude.{◌≡◌, ◌<◌, ◌≤◌, IfSome, drop, codes, length, option_and_then, option_map, slice_get};
ghost use Rattle.ratio_time.specs.Rates.{rate_value};
ghost use Rattle.command_words.specs.Commands.{command_of, run_in, serve_in, store_in, list_in, tape_in, import_in, follow_in, audit_in, make_in, run_plain_in, run_document_in, hall_in, hall_asked, hall_of_words, least_stations, most_stations, list_cut_in, audited_in, has_records, make_session_in};
ghost use Rattle.command_words.specs.Records.{records_in};
ghost use Rattle.command_words.specs.Commands.{counting_of, rate_of_word, sequence_of, number_within, asked_by, HasBounds, is_word, wants_numbers, word_at};

use crate::names::has_rows;
use crate::records::record_count;
use json_tree::numeral;
use line_words::{Words, number};
use ratio_time::{Numeral, rate_of};
use timecode12::{Counting, SequenceRate};

/// The fewest tracks of a plain room.
pub(crate) const LEAST_TRACKS: u32 = 1;

/// The most tracks of a plain room.
pub(crate) const MOST_TRACKS: u32 = 32;

/// The most reels of a plain room.
pub(crate) const MOST_REELS: u32 = 999;

/// The fewest stations of a hall.
pub(crate) const LEAST_STATIONS: u32 = 1;

/// The most stations of a hall.
pub(crate) const MOST_STATIONS: u32 = 16;

/// The fewest lines that a station of a generated session sends.
pub(crate) const LEAST_LINES: u32 = 1;

/// The most lines that a station of a generated session sends.
pub(crate) const MOST_LINES: u32 = 20_000;

/// What the program is asked for.
#[derive(Clone, Copy)]
pub enum Command<'a> {
    /// One station over input and output, in a plain room of so many tracks and reels.
    Run {
        tracks: u32,
        reels: u32,
    },
    /// One station over input and output, in the room that the document of this name describes, whose frames are
    /// counted so.
    RunDocument {
        document: &'a str,
        counting: Counting,
    },
    /// So many stations in the room of a document, over a hall at this address, and the journal's text in the file of
    /// this name.
    Serve {
        document: &'a str,
        counting: Counting,
        stations: u32,
        address: &'a str,
        journal: &'a str,
    },
    /// The same, but the journal is kept in the file of this name as it grows, and goes on after what the file holds.
    Store {
        document: &'a str,
        counting: Counting,
        stations: u32,
        address: &'a str,
        journal: &'a str,
    },
    /// The list of the cut after so many entries of the journal in a file, in the room of a document.
    ListCut {
        document: &'a str,
        counting: Counting,
        journal: &'a str,
        point: u32,
    },
    /// The tape of the list in the file of this name, at a rate.
    PlayList {
        name: &'a str,
        rate: SequenceRate,
    },
    /// The document of the list in the file of this name, whose frames are counted so.
    Import {
        name: &'a str,
        counting: Counting,
    },
    /// The cut that replies on input lead to, in the room that the document of this name describes, whose frames are
    /// counted so.
    Follow {
        document: &'a str,
        counting: Counting,
    },
    /// Whether the journal in a file explains what was recorded of stations, in the room of a document. The words of the
    /// audit name the files of the records, from the sixth on.
    Audit {
        document: &'a str,
        counting: Counting,
        journal: &'a str,
        words: &'a Words,
    },
    /// The summary of the generated session of a number, in which each station sends so many lines.
    Make {
        number: u32,
        count: u32,
    },
}

// A hall in the room of a document: how that is counted, how many stations, their address, and the name of the journal's
// file.
#[derive(Clone, Copy)]
struct HallWords<'a> {
    document: &'a str,
    counting: Counting,
    stations: u32,
    address: &'a str,
    journal: &'a str,
}

// A number of at least `least` and at most `most`.
pub(crate) fn number_within(word: &str, least: u32, most: u32) -> Option<u32>
    ensures { result ≡ number_within word.now least most }
{
    match number(word.as_bytes()) {
        Ok(n) => {
            if least <= n && n <= most {
                Some(n)
            } else {
                None
            }
        }
        Err(_) => None,
    }
}

// The rate of a sequence that a number stands for.
fn sequence_rate(number: &Numeral) -> Option<SequenceRate>
    ensures { result ≡ option_and_then sequence_of (rate_value number.now) }
{
    match rate_of(number) {
        Some(rate) => SequenceRate::of(&rate),
        None => None,
    }
}

// The rate of a sequence that a word spells.
pub(crate) fn rate(word: &str) -> Option<SequenceRate>
    ensures { result ≡ rate_of_word word.now }
{
    match numeral(word.as_bytes()) {
        Some(number) => sequence_rate(&number),
        None => None,
    }
}

// How frames are counted, by a rate and `drop` or `ndf`; `drop` only at a rate that has it.
pub(crate) fn counting(rate_word: &str, drop_word: &str) -> Option<Counting>
    ensures { result ≡ counting_of rate_word.now drop_word.now }
{
    let rate = rate(rate_word)?;
    match drop_word {
        "drop" => Counting::new(rate, true),
        "ndf" => Counting::new(rate, false),
        _ => None,
    }
}

// A run in a plain room, by its count of tracks and its count of reels, where both are within their limits.
fn plain_room<'a>(tracks: &str, reels: &str) -> Option<Command<'a>>
    ensures command { option_map asked_by result ≡ run_plain_in tracks.now reels.now }
    ensures bound { IfSome result HasBounds }
{
    let tracks = number_within(tracks, LEAST_TRACKS, MOST_TRACKS)?;
    let reels = number_within(reels, 0, MOST_REELS)?;
    Some(Command::Run { tracks, reels })
}

// A run in the room of a document, by its name and how its frames are counted.
fn room_of<'a>(document: &'a str, rate: &str, drop: &str) -> Option<Command<'a>>
    ensures command { option_map asked_by result ≡ run_document_in document.now rate.now drop.now }
    ensures bound { IfSome result HasBounds }
{
    let counting = counting(rate, drop)?;
    Some(Command::RunDocument { document, counting })
}

// A hall in the room of a document, by its count of stations, its address and the name of its journal's file.
fn hall_of<'a>(
    document: &'a str,
    rate: &str,
    drop: &str,
    stations: &str,
    address: &'a str,
    journal: &'a str,
) -> Option<HallWords<'a>>
    ensures hall { option_map hall_asked result
        ≡ hall_of_words document.now rate.now drop.now stations.now address.now journal.now }
    ensures bound { IfSome result (λ h. (least_stations ≤ h.stations)
        × (h.stations ≤ most_stations)) }
{
    let counting = counting(rate, drop)?;
    let stations = number_within(stations, LEAST_STATIONS, MOST_STATIONS)?;
    Some(HallWords {
        document,
        counting,
        stations,
        address,
        journal,
    })
}

// What the words after `run` ask for.
fn run_in(words: &Words) -> Option<Command<'_>>
    ensures command { option_map asked_by result ≡ run_in (drop 1 words.now) }
    ensures bound { IfSome result HasBounds }
{
    match words.count() {
        3 => plain_room(words.word(1), words.word(2)),
        4 => room_of(words.word(1), words.word(2), words.word(3)),
        _ => None,
    }
}

// The hall that the words after `serve` or `store` ask for.
fn hall_in(words: &Words) -> Option<HallWords<'_>>
    ensures hall { option_map hall_asked result ≡ hall_in (drop 1 words.now) }
    ensures bound { IfSome result (λ h. (least_stations ≤ h.stations)
        × (h.stations ≤ most_stations)) }
{
    if words.count() != 7 {
        return None;
    }
    hall_of(
        words.word(1),
        words.word(2),
        words.word(3),
        words.word(4),
        words.word(5),
        words.word(6),
    )
}

// What the words after `serve` ask for.
fn serve_in(words: &Words) -> Option<Command<'_>>
    ensures command { option_map asked_by result ≡ serve_in (drop 1 words.now) }
    ensures bound { IfSome result HasBounds }
{
    match hall_in(words) {
        Some(hall) => Some(Command::Serve {
            document: hall.document,
            counting: hall.counting,
            stations: hall.stations,
            address: hall.address,
            journal: hall.journal,
        }),
        None => None,
    }
}

// What the words after `store` ask for.
fn store_in(words: &Words) -> Option<Command<'_>>
    ensures command { option_map asked_by result ≡ store_in (drop 1 words.now) }
    ensures bound { IfSome result HasBounds }
{
    match hall_in(words) {
        Some(hall) => Some(Command::Store {
            document: hall.document,
            counting: hall.counting,
            stations: hall.stations,
            address: hall.address,
            journal: hall.journal,
        }),
        None => None,
    }
}

// The list of a cut, by its document, how that is counted, its journal, and how many entries stand before it.
fn cut_of<'a>(
    document: &'a str,
    rate: &str,
    drop: &str,
    journal: &'a str,
    point: &str,
) -> Option<Command<'a>>
    ensures command { option_map asked_by result
        ≡ list_cut_in document.now rate.now drop.now journal.now point.now }
    ensures bound { IfSome result HasBounds }
{
    let counting = counting(rate, drop)?;
    match number(point.as_bytes()) {
        Ok(point) => Some(Command::ListCut {
            document,
            counting,
            journal,
            point,
        }),
        Err(_) => None,
    }
}

// The list of a cut that the first five words after `list` ask for.
fn cut_in(words: &Words) -> Option<Command<'_>>
    requires { 5 < length words.now }
    ensures command { option_map asked_by result
        ≡ list_cut_in (word_at 1 words.now) (word_at 2 words.now)
        (word_at 3 words.now) (word_at 4 words.now) (word_at 5 words.now) }
    ensures bound { IfSome result HasBounds }
{
    cut_of(
        words.word(1),
        words.word(2),
        words.word(3),
        words.word(4),
        words.word(5),
    )
}

// What the words after `list` ask for.
fn list_in(words: &Words) -> Option<Command<'_>>
    ensures command { option_map asked_by result ≡ list_in (drop 1 words.now) }
    ensures bound { IfSome result HasBounds }
{
    if words.count() > 7 {
        return named_cut_in(words);
    }
    match words.count() {
        6 => cut_in(words),
        7 => match words.word(6) {
            "numbered" => cut_in(words),
            _ => None,
        },
        _ => None,
    }
}

// The list of a cut that the words after `list` ask for, where they give its reels their names.
fn named_cut_in(words: &Words) -> Option<Command<'_>>
    requires { 7 < length words.now }
    ensures command { option_map asked_by result ≡ list_in (drop 1 words.now) }
    ensures bound { IfSome result HasBounds }
{
    if !has_rows(words) {
        return None;
    }
    cut_in(words)
}

// What the words after `tape` ask for.
fn tape_in(words: &Words) -> Option<Command<'_>>
    ensures command { option_map asked_by result ≡ tape_in (drop 1 words.now) }
    ensures bound { IfSome result HasBounds }
{
    if words.count() != 3 {
        return None;
    }
    let rate = rate(words.word(2))?;
    Some(Command::PlayList {
        name: words.word(1),
        rate,
    })
}

// What the words after `import` ask for.
fn import_in(words: &Words) -> Option<Command<'_>>
    ensures command { option_map asked_by result ≡ import_in (drop 1 words.now) }
    ensures bound { IfSome result HasBounds }
{
    if words.count() != 4 {
        return None;
    }
    let counting = counting(words.word(2), words.word(3))?;
    let name = words.word(1);
    Some(Command::Import { name, counting })
}

// What the words after `follow` ask for.
fn follow_in(words: &Words) -> Option<Command<'_>>
    ensures command { option_map asked_by result ≡ follow_in (drop 1 words.now) }
    ensures bound { IfSome result HasBounds }
{
    if words.count() != 4 {
        return None;
    }
    let counting = counting(words.word(2), words.word(3))?;
    let document = words.word(1);
    Some(Command::Follow { document, counting })
}

// Whether words after the fifth name records, of as many stations as there may be.
fn has_records(words: &Words) -> bool
    requires { 5 ≤ length words.now }
    ensures { result ≡ has_records (records_in (drop 5 words.now)) }
{
    match record_count(words) {
        Some(count) => LEAST_STATIONS <= count && count <= MOST_STATIONS,
        None => false,
    }
}

// An audit, by its document, how that is counted, and its journal, where the words name records.
fn audit_of<'a>(words: &'a Words) -> Option<Command<'a>>
    requires { 5 ≤ length words.now }
    ensures command { option_map asked_by result
        ≡ audited_in (word_at 1 words.now) (word_at 2 words.now)
        (word_at 3 words.now) (word_at 4 words.now) (drop 5 words.now) }
    ensures bound { IfSome result HasBounds }
{
    let (rate, drop) = (words.word(2), words.word(3));
    let counting = counting(rate, drop)?;
    if !has_records(words) {
        return None;
    }
    Some(Command::Audit {
        document: words.word(1),
        counting,
        journal: words.word(4),
        words,
    })
}

// What the words after `audit` ask for.
fn audit_in(words: &Words) -> Option<Command<'_>>
    ensures command { option_map asked_by result ≡ audit_in (drop 1 words.now) }
    ensures bound { IfSome result HasBounds }
{
    if words.count() < 5 {
        return None;
    }
    audit_of(words)
}

// A generated session, by its number and how many lines each station sends.
fn session<'a>(number_word: &str, count: &str) -> Option<Command<'a>>
    ensures command { option_map asked_by result ≡ make_session_in number_word.now count.now }
    ensures bound { IfSome result HasBounds }
{
    match number(number_word.as_bytes()) {
        Ok(number) => {
            let count = number_within(count, LEAST_LINES, MOST_LINES)?;
            Some(Command::Make { number, count })
        }
        Err(_) => None,
    }
}

// What the words after `make` ask for.
fn make_in(words: &Words) -> Option<Command<'_>>
    ensures command { option_map asked_by result ≡ make_in (drop 1 words.now) }
    ensures bound { IfSome result HasBounds }
{
    if words.count() != 3 {
        return None;
    }
    session(words.word(1), words.word(2))
}

/// The command that the words are, or `None` where they are none.
pub fn command_in(words: &Words) -> Option<Command<'_>>
    ensures command { option_map asked_by result ≡ command_of words.now }
    ensures bound { IfSome result HasBounds }
{
    if words.count() == 0 {
        return None;
    }
    match words.word(0) {
        "run" => run_in(words),
        "serve" => serve_in(words),
        "store" => store_in(words),
        "list" => list_in(words),
        "tape" => tape_in(words),
        "import" => import_in(words),
        "follow" => follow_in(words),
        "audit" => audit_in(words),
        "make" => make_in(words),
        _ => None,
    }
}

// Whether a seventh word is `numbered`.
fn is_numbered(words: &Words) -> bool
    ensures { result ≡ is_word (slice_get words.now 6) (codes "numbered") }
{
    words.count() > 6 && words.word(6) == "numbered"
}

/// Whether the words ask for a list and end with `numbered`: its reels are then to be named by numbers.
pub fn wants_numbers(words: &Words) -> bool
    ensures { result ≡ wants_numbers words.now }
{
    match command_in(words) {
        Some(Command::ListCut { .. }) => is_numbered(words),
        _ => false,
    }
}
