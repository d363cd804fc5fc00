// The reply to `news`, which tells an entry of a journal.
ghost use Rattle.std.specs.Prelude.{◌≡◌, ◌++◌, IfErr, IfOk, IfSome, MatchOption, OnOk, bytes_eq};
ghost use Rattle.line_words.specs.Blanks.{words_of};
ghost use Rattle.line_table.specs.Labels.{place_by};
ghost use Rattle.journal_text.specs.LooseEntries.{loose_news, loose_numbers, loose_told};
ghost use Rattle.journal_text.specs.NewsTexts.{news_text_of, there_text, IsNews, IsNoNews, IsNoNewsFor};
ghost use Rattle.journal_text.specs.declared.news_reply.NewsFault.TheVariants.{Memory as NoNewsMemory};

use crate::Entry;
use crate::journal::put_entry_text;
use crate::journal_reading::{first_number, loose_entry};
use composables::Memory;
use edit_calls::Call;
use line_table::reserved::{put, put_number};
use line_table::{first_word, room_for};
use std::alloc::Global;
use take_back::Step;
use timecode12::{Counting, SequenceRate};

// The most bytes of the reply without the entry.
const MAX_NUMBERS: usize = 26;

/// What the reply to `news` tells.
#[derive(Drop)]
pub struct News {
    /// The place that was asked for, counted from 0.
    pub place: u32,
    /// How many entries the journal has.
    pub length: u32,
    /// The entry at the place, where the journal has one there.
    pub entry: Option<Entry<Step<Call>>>,
}

/// Why no news are read of a line.
#[derive(Clone, Copy, Debug, PartialEq, Eq)]
pub enum NewsFault {
    /// The line is no reply that tells an entry, or that there is none at the place.
    NotNews,
    /// Out of memory.
    Memory,
}

impl From<Memory> for NewsFault {
    ghost from_gives = { λ _ fault. fault ≡ NoNewsMemory };

    // A call of a lower crate found no memory.
    fn from(_: Memory) -> Self {
        NewsFault::Memory
    }
}

/// The reply to `news`, without its line feed.
pub fn news_text(alloc: Global, news: &News) -> Result<Vec<u8>, Memory>
    ensures { IfOk result (λ text. text.items
        ≡ news_text_of news.now.place news.now.length news.now.entry) }
{
    let mut out = Vec::with_capacity(alloc, MAX_NUMBERS)?;
    put_number(&mut out, b"news ", news.place);
    put_number(&mut out, b" ", news.length);
    put_there(&mut out, &news.entry)?;
    Ok(out)
}

// Adds the entry, where there is one.
fn put_there(out: &mut Vec<u8>, entry: &Option<Entry<Step<Call>>>) -> Result<(), Memory>
    ensures { OnOk result (out.new.items ≡ out.old.items ++ there_text entry.now) }
{
    match entry {
        Some(entry) => {
            out.reserve(room_for(&entry.call)?)?;
            put(out, b" ");
            put_entry_text(out, entry);
            Ok(())
        }
        None => Ok(()),
    }
}

/// The news whose reply this line is, without its line feed. They are read only where the line is exactly what
/// `news_text` writes, and has an entry exactly where the place is below the length.
pub fn read_news(alloc: Global, line: &[u8]) -> Result<News, NewsFault>
    ensures read { IfOk result (λ news. IsNews news
        × (line.now ≡ news_text_of news.place news.length news.entry)) }
    ensures refused { IfErr result (λ fault. IsNoNewsFor line.now fault) }
{
    let Some(counting) = Counting::new(SequenceRate::F24, false) else {
        unreachable!()
    };
    match told_news(alloc, line, &counting)? {
        Some(news) => Ok(news),
        None => Err(NewsFault::NotNews),
    }
}

// The news whose reply a line is: news are read however they are spelled, and their reply is compared with the line.
fn told_news(alloc: Global, line: &[u8], counting: &Counting) -> Result<Option<News>, Memory>
    ensures { IfOk result (λ found. MatchOption found (IsNoNews line.now)
        (λ news. IsNews news × (line.now ≡ news_text_of news.place news.length news.entry))) }
{
    match loose_news(alloc, line, counting)? {
        Some(news) => {
            let told = is_reply_of(alloc, line, &news)?;
            if told { Ok(Some(news)) } else { Ok(None) }
        }
        None => Ok(None),
    }
}

// Whether a line is the reply that tells these news.
fn is_reply_of(alloc: Global, line: &[u8], news: &News) -> Result<bool, Memory>
    ensures { IfOk result (λ same. same
        ≡ bytes_eq (news_text_of news.now.place news.now.length news.now.entry) line.now) }
{
    let text = news_text(alloc, news)?;
    Ok(text.as_slice() == line)
}

// The news that a line's words are, however they are spelled.
fn loose_news(alloc: Global, line: &[u8], counting: &Counting) -> Result<Option<News>, Memory>
    ensures read { IfOk result (λ found. found
        ≡ loose_news (place_by counting.now 0) (words_of line.now)) }
    ensures news { IfOk result (λ found. IfSome found (λ news. IsNews news)) }
{
    let (word, rest) = match first_word(line) {
        Ok(found) => found,
        Err(_) => return Ok(None),
    };
    if word == b"news".as_slice() {
        loose_numbers(alloc, rest, counting)
    } else {
        Ok(None)
    }
}

// The news of the two numbers that a line begins with, and of what stands after them.
fn loose_numbers(alloc: Global, line: &[u8], counting: &Counting) -> Result<Option<News>, Memory>
    ensures read { IfOk result (λ found. found
        ≡ loose_numbers (place_by counting.now 0) (words_of line.now)) }
    ensures news { IfOk result (λ found. IfSome found (λ news. IsNews news)) }
{
    let (place, rest) = match first_number(line) {
        Some(found) => found,
        None => return Ok(None),
    };
    let (length, rest) = match first_number(rest) {
        Some(found) => found,
        None => return Ok(None),
    };
    loose_told(alloc, place, length, rest, counting)
}

// The news of these two numbers, and of the words of an entry where the place is one of the journal's.
fn loose_told(
    alloc: Global,
    place: u32,
    length: u32,
    rest: &[u8],
    counting: &Counting,
) -> Result<Option<News>, Memory>
    ensures read { IfOk result (λ found. found
        ≡ loose_told (place_by counting.now 0) place length (words_of rest.now)) }
    ensures news { IfOk result (λ found. IfSome found (λ news. IsNews news)) }
{
    if place >= length {
        return Ok(Some(News {
            place,
            length,
            entry: None,
        }));
    }
    match loose_entry(alloc, rest, counting)? {
        Some(entry) => Ok(Some(News {
            place,
            length,
            entry: Some(entry),
        })),
        None => Ok(None),
    }
}
