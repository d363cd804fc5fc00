// The head of a request, as its bytes come.
ghost use Rattle.std.specs.Prelude.{◌≡◌, ◌≤◌, ◌<◌, ◌++◌, ℕ, List, length, drop, IfSome, IfNone};
ghost use Rattle.httparse.specs.Grammar.{HasNoRequest, MayBecomeRequest, ReadsRequest, RequestHead};
ghost use Rattle.web_lines.specs.Heads.{GivesHead, HearsAnswer};

use crate::answer::Answer;
use crate::deciding::answer_of;
use httparse::spans::{EMPTY_HEADER_SPAN, parse_request};
use httparse::{Error, Status};

/// The most bytes of a head, with the empty line that ends it.
pub const MOST_HEAD: usize = 8192;

/// The most fields of a head.
pub const MOST_FIELDS: usize = 64;

/// What a request is answered, and where its head ends.
#[derive(Clone, Copy, Debug, PartialEq, Eq)]
pub struct Heard {
    /// The answer.
    pub answer: Answer,
    /// How many bytes are of the head. Where no head was found it is all that came.
    pub len: usize,
}

/// What these bytes are answered, which came of a request so far; `None` where more have to come.
pub fn hear(bytes: &[u8]) -> Option<Heard>
    requires { length bytes.now ≤ MOST_HEAD }
    ensures whole { (h : RequestHead) (rest : List ℕ) → ReadsRequest bytes.now h rest
        → length h.fields ≤ MOST_FIELDS → GivesHead h result }
    ensures told { IfSome result (HearsAnswer bytes.now) }
    ensures more { IfNone result (HasNoRequest bytes.now × MayBecomeRequest bytes.now
        × (length bytes.now < MOST_HEAD)) }
    ensures within { IfSome result (λ heard. heard.len ≤ length bytes.now) }
{
    let mut spans = [EMPTY_HEADER_SPAN; MOST_FIELDS];
    let len = bytes.len();
    match parse_request(bytes, &mut spans) {
        Ok(Status::Complete(head)) => Some(Heard {
            answer: answer_of(bytes, &head, &spans),
            len: head.len,
        }),
        Ok(Status::Partial) => {
            if len < MOST_HEAD {
                None
            } else {
                Some(Heard {
                    answer: Answer::TooLong,
                    len,
                })
            }
        }
        Err(Error::TooManyHeaders) => Some(Heard {
            answer: Answer::TooLong,
            len,
        }),
        Err(_) => Some(Heard {
            answer: Answer::Bad,
            len,
        }),
    }
}

/// What came after a head, which has so many bytes.
pub fn after_head(bytes: Vec<u8>, len: usize) -> Vec<u8>
    requires { len ≤ length bytes.items }
    ensures { result.items ≡ drop len bytes.items }
{
    let mut after = bytes;
    after.drain(..len);
    after
}
