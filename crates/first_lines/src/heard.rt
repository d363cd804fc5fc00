// What came of a connection so far: a first line, or the head of a request.
ghost use Rattle.std.specs.Prelude.{◌≡◌, ◌≢◌, ◌≤◌, ℕ, List, Some, length, position, take};
ghost use Rattle.line_words.specs.Lines.{is_lf};
ghost use Rattle.web_lines.specs.declared.first_bytes.Talk.TheVariants.{Http};
ghost use Rattle.web_lines.specs.declared.request.TheConstants.{MOST_HEAD};
ghost use Rattle.web_lines.specs.FirstBytes.{talk_of};
ghost use Rattle.first_lines.specs.FirstLines.{HearsRequest, IsHeardIn, line_heard, unended};

use web_lines::{MOST_HEAD, Talk, hear, talk_of};

/// The most bytes of a first line, with its line feed, and of the head of a request.
pub const LONGEST_LINE: usize = MOST_HEAD;

/// What a first line, or a head, comes to.
#[derive(Clone, Copy, Debug, PartialEq, Eq)]
pub enum Heard {
    /// It has not ended.
    More,
    /// The line has ended before this place.
    Line(usize),
    /// A request of HTTP gets this answer.
    Request(web_lines::Heard),
    /// It is too long, or there was no memory for it.
    TooLong,
    /// The connection has ended.
    Gone,
}

/// What a first text comes to: a request where it is HTTP, else a line.
pub fn heard_in(text: &[u8]) -> Heard
    ensures line { talk_of text.now ≢ Some Http → result ≡ line_heard text.now }
    ensures request { talk_of text.now ≡ Some Http → HearsRequest (take MOST_HEAD text.now) result }
    ensures heard { IsHeardIn text.now result }
{
    match talk_of(text) {
        Some(Talk::Http) => request_in(front_of(text, MOST_HEAD)),
        Some(Talk::Plain) => line_in(text),
        None => line_in(text),
    }
}

// The first bytes of a text, at most so many.
fn front_of(text: &[u8], most: usize) -> &[u8]
    ensures front { result.now ≡ take most text.now }
    ensures within { length result.now ≤ most }
{
    if most < text.len() {
        let (front, _) = text.split_at(most);
        front
    } else {
        text
    }
}

// What these bytes of HTTP come to.
fn request_in(front: &[u8]) -> Heard
    requires { length front.now ≤ MOST_HEAD }
    ensures { HearsRequest front.now result }
{
    match hear(front) {
        Some(heard) => Heard::Request(heard),
        None => Heard::More,
    }
}

/// What a text comes to that is a line: it ends at its first line feed.
pub fn line_in(text: &[u8]) -> Heard
    ensures line { result ≡ line_heard text.now }
    ensures heard { IsHeardIn text.now result }
{
    match lf_at(text) {
        Some(at) => Heard::Line(at),
        None => no_line(text.len()),
    }
}

// What a text of so many bytes comes to, none of which is a line feed.
fn no_line(len: usize) -> Heard
    ensures line { result ≡ unended len }
    ensures heard { (text : List ℕ) → IsHeardIn text result }
{
    if len >= LONGEST_LINE {
        Heard::TooLong
    } else {
        Heard::More
    }
}

// The place of the first line feed, or `None` where there is none.
fn lf_at(text: &[u8]) -> Option<usize>
    ensures { result ≡ position is_lf text.now }
{
    text.iter().position(|byte| *byte == b'\n')
}
