// A mirror that takes what the lines of a stream tell, one after another.
ghost use Rattle.std.specs.Prelude.{◌≡◌, ◌∷◌, [], IfErr, OnOk, false, true};
ghost use Rattle.line_words.specs.Blanks.{words_of};
ghost use Rattle.line_words.specs.Told.{line_told};
ghost use Rattle.journal_text.specs.NewsTexts.{IsNews};
ghost use Rattle.follow_command.specs.Goes.{Goes, GoesBy};
ghost use Rattle.follow_command.specs.Going.{goes_more, goes_none};
ghost use Rattle.follow_command.specs.NewsLines.{entry_before, is_news_line, leads_news};
ghost use Rattle.follow_command.specs.Refusals.{StopsAtCut, StopsAtLine, StopsAtNews};

use crate::refusal::{Stop, StreamRefusal, refusal_of};
use call_laws::equal_steps_are_one;
use cut_mirror::Mirror;
use cut_steps::CutObject;
use input_lines::{LineEnd, TakesLines};
use journal_text::{News, NewsFault, read_news};
use line_table::first_word;
use std::alloc::Global;
use std::marker::Model;

// Whether the first word of a line is `news`.
fn begins_news(text: &[u8]) -> bool
    ensures { result ≡ leads_news (words_of text.now) }
{
    match first_word(text) {
        Ok((word, _)) => word == b"news".as_slice(),
        Err(_) => false,
    }
}

// Whether a line has at most 1,024 bytes and its first word is `news`.
fn is_news_line(end: LineEnd, text: &[u8]) -> bool
    ensures { result ≡ is_news_line (line_told end text.now) }
{
    match end {
        LineEnd::TooLong => false,
        LineEnd::Whole => begins_news(text),
    }
}

// Takes the entry of news, where they have one.
fn take_news(mirror: &mut Mirror<CutObject>, alloc: Global, news: News) -> Result<(), Stop>
    ensures ok { OnOk result (GoesBy mirror.old mirror.new (entry_before news [])) }
    ensures stop { IfErr result (λ stop. StopsAtNews mirror.old news stop) }
{
    let News {
        place,
        length: _,
        entry,
    } = news;
    let Some(entry) = entry else {
        return Ok(());
    };
    equal_steps_are_one();
    match mirror.take(alloc, place, entry) {
        Ok(()) => Ok(()),
        Err(fault) => match refusal_of(fault) {
            Some(refusal) => Err(Stop::Refused(refusal)),
            None => Err(Stop::Memory),
        },
    }
}

// Takes what a line tells that begins with the word `news`, and has this number.
fn take_text(
    mirror: &mut Mirror<CutObject>,
    alloc: Global,
    number: u32,
    text: &[u8],
) -> Result<(), Stop>
    requires { leads_news (words_of text.now) ≡ true }
    ensures ok { OnOk result (Goes mirror.old mirror.new (line_told LineEnd.Whole text.now ∷ [])) }
    ensures stop { IfErr result (λ stop. StopsAtLine mirror.old number
        (line_told LineEnd.Whole text.now) stop) }
{
    match read_news(alloc, text) {
        Ok(news) => take_news(mirror, alloc, news),
        Err(NewsFault::NotNews) => Err(Stop::Refused(StreamRefusal::NotNews(number))),
        Err(NewsFault::Memory) => Err(Stop::Memory),
    }
}

/// A mirror that takes lines. Contracts see the mirror.
#[derive(Drop)]
pub(crate) struct Follower {
    alloc: Global,
    mirror: Mirror<CutObject>,
}

impl Model for Follower {
    ghost use Rattle.follow_command.specs.Goes.{CutMirror};

    ghost Value = { CutMirror };

    ghost view = { λ f. f.mirror };
}

impl Follower {
    /// One of this mirror.
    pub fn new(alloc: Global, mirror: Mirror<CutObject>) -> Follower
        ensures { result ≡ mirror }
    {
        Follower { alloc, mirror }
    }

    /// Its mirror.
    pub fn mirror(&self) -> &Mirror<CutObject>
        ensures { result.now ≡ self.now }
    {
        &self.mirror
    }
}

impl TakesLines for Follower {
    /// Why it stops at a line.
    type Stop = Stop;

    ghost goes = { λ a b lines. Goes a b lines };

    ghost stops = { λ a number line stop. StopsAtLine a number line stop };

    ghost ends = { λ line. is_news_line line ≡ false };

    ghost cuts = { λ number line stop. StopsAtCut number line stop };

    // Takes what a line tells that has ended. One that is too long, or begins with another word, tells nothing.
    fn take(&mut self, number: u32, end: LineEnd, text: &[u8]) -> Result<(), Stop> {
        if is_news_line(end, text) {
            take_text(&mut self.mirror, self.alloc, number, text)
        } else {
            Ok(())
        }
    }

    // Passes over a last line without a line feed, which must not begin with the word `news`.
    fn take_last(&mut self, number: u32, end: LineEnd, text: &[u8]) -> Result<(), Stop> {
        if is_news_line(end, text) {
            Err(Stop::Refused(StreamRefusal::NotNews(number)))
        } else {
            Ok(())
        }
    }

    ghost stays = { λ a. goes_none a };

    ghost joins = { λ a b c lines others g h. goes_more a b c lines others g h };
}
