// Replies to a wish for the entry at a place.
ghost use Rattle.std.specs.Prelude.{◌≡◌, ◌≤◌, IfOk, Ok, length};
ghost use Rattle.journal_text.specs.NewsTexts.{news_text_of};
ghost use Rattle.station_sessions.specs.Session.{IsNewsReply};

use crate::document_reply::{memory_reply, no_point_reply};
use call_text::{CutCall, News, news_text};
use composables::Memory;
use cut_room::{CutFault, Excerpt};
use reply_text::Reply;
use std::alloc::Global;

/// The reply with the entry at a place, of which at most one was found, or why there is none; and how many entries it
/// tells of.
pub(crate) fn news_reply(
    alloc: Global,
    place: u32,
    found: Result<Excerpt<CutCall>, CutFault>,
) -> (Reply, u32)
    requires { IfOk found (λ excerpt. length excerpt.entries.items ≤ 1) }
    ensures { IsNewsReply place found result.0 result.1 }
{
    match found {
        Ok(excerpt) => excerpt_reply(alloc, place, excerpt),
        Err(CutFault::NoPoint(length)) => (no_point_reply(length), length),
        Err(CutFault::Memory) => memory_reply(),
    }
}

// The reply with the one entry that was found, or with none, or that there is no memory for it.
fn excerpt_reply(alloc: Global, place: u32, excerpt: Excerpt<CutCall>) -> (Reply, u32)
    requires { length excerpt.entries.items ≤ 1 }
    ensures { IsNewsReply place (Ok excerpt) result.0 result.1 }
{
    let Excerpt { entries, length } = excerpt;
    let mut entries = entries;
    let news = News {
        place,
        length,
        entry: entries.pop(),
    };
    match long_news(alloc, &news) {
        Ok(reply) => (reply, length),
        Err(_) => memory_reply(),
    }
}

// The reply to `news`, as a longer text.
fn long_news(alloc: Global, news: &News) -> Result<Reply, Memory>
    ensures { IfOk result (λ reply.
        reply ≡ news_text_of news.now.place news.now.length news.now.entry) }
{
    Reply::long(news_text(alloc, news)?)
}
