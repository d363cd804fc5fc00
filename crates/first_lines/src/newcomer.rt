// A connection over which nobody sits yet.
ghost use Rattle.std.specs.Prelude.{◌≡◌, ◌+◌, drop, IfSome};
ghost use Rattle.first_lines.specs.FirstLines.{CameAfter, IsHeardIn, IsLonger};

use crate::heard::{Heard, LONGEST_LINE, heard_in, line_in};
use crate::link::{Link, tells};
use crate::shared::Shared;
use std::alloc::Global;
use std::io::{ErrorKind, Read, Write};
use std::mem;
use std::net::{Shutdown, SocketAddr, TcpStream};
use std::sync::Arc;
use std::time::{Duration, Instant};
use web_lines::{Outgoing, Talk, WebStream, after_head, talk_of};

// How often a WebSocket is asked again for its first line: more often than what it may send before allows.
const TURNS: u32 = 256;

/// How far a connection has come.
#[derive(Drop)]
pub enum Stage {
    /// Its first line has not ended, or the head of its request.
    Comes,
    /// It gets no seat, and waits to be told so.
    Refused,
    /// An answer goes out.
    Answers(Outgoing),
    /// All is said. What still comes is passed over until it ends, so that nothing that was said is lost.
    Parts,
}

/// A connection over which nobody sits yet: lines, HTTP, or a WebSocket.
#[derive(Drop)]
pub struct Newcomer {
    pub stream: Arc<TcpStream>,
    pub peer: SocketAddr,
    pub text: Vec<u8>,
    pub web: Option<WebStream<Shared>>,
    pub since: Instant,
    pub stage: Stage,
}

impl Newcomer {
    /// A connection that has just come, and does not block.
    pub fn new(alloc: Global, stream: Arc<TcpStream>, peer: SocketAddr, now: Instant) -> Newcomer {
        Newcomer {
            stream,
            peer,
            text: Vec::new(alloc),
            web: None,
            since: now,
            stage: Stage::Comes,
        }
    }

    /// Reads what has come, without waiting.
    #[tactic(auto, using(crate::proofs::Hearing::longer_none, crate::proofs::Hearing::longer_more))]
    pub fn hear(&mut self) -> Heard
        ensures heard { IsHeardIn self.new.text.items result }
        ensures kept { IsLonger self.old.text.items self.new.text.items }
    {
        if self.web.is_none() {
            return self.hear_once();
        }
        for _ in 0..TURNS {
            match self.hear_web() {
                Some(heard) => return heard,
                None => {}
            }
        }
        Heard::More
    }

    // Reads of the connection itself.
    fn hear_once(&mut self) -> Heard
        ensures heard { IsHeardIn self.new.text.items result }
        ensures kept { IsLonger self.old.text.items self.new.text.items }
    {
        let mut piece = [0u8; 2_048];
        let room = LONGEST_LINE.saturating_sub(self.text.len()).min(2_048);
        let mut from = &*self.stream;
        match from.read(&mut piece[..room]) {
            Ok(n) if n > 0 && n <= room => {
                if self.text.extend_from_slice(&piece[..n]).is_err() {
                    return Heard::TooLong;
                }
                heard_in(self.text.as_slice())
            }
            Ok(_) => Heard::Gone,
            Err(error) if error.kind() == ErrorKind::WouldBlock => Heard::More,
            Err(_) => Heard::Gone,
        }
    }

    // Reads of its WebSocket; `None` where more may be there already.
    fn hear_web(&mut self) -> Option<Heard>
        ensures heard { IfSome result (IsHeardIn self.new.text.items) }
        ensures kept { IsLonger self.old.text.items self.new.text.items }
    {
        let mut piece = [0u8; 2_048];
        let answer = match &mut self.web {
            Some(web) => web.read(&mut piece),
            None => return Some(Heard::More),
        };
        match answer {
            Ok(n) if n > 0 && n <= piece.len() => {
                if self.text.extend_from_slice(&piece[..n]).is_err() {
                    return Some(Heard::TooLong);
                }
                match line_in(self.text.as_slice()) {
                    Heard::More => None,
                    heard => Some(heard),
                }
            }
            Ok(_) => Some(Heard::Gone),
            Err(error) => match error.kind() {
                ErrorKind::Interrupted => None,
                ErrorKind::WouldBlock => Some(Heard::More),
                _ => Some(Heard::Gone),
            },
        }
    }

    /// Becomes a WebSocket, once this answer has been written. What came after the head, which has so many bytes, is the
    /// first of it. It says whether the connection took the answer, and there was memory.
    pub fn upgrade(&mut self, alloc: Global, answer: &[u8], head: usize, now: Instant) -> bool {
        let Ok(stream) = Arc::try_clone(&self.stream) else {
            return false;
        };
        if !tells(&self.stream, answer) {
            return false;
        }
        let text = mem::replace(&mut self.text, Vec::new(alloc));
        let head = head.min(text.len());
        let ahead = after_head(text, head);
        self.web = Some(WebStream::new(alloc, Shared::new(stream), ahead));
        self.since = now;
        true
    }

    /// Has as much of its answer go out as the connection takes, and says whether it is to be waited for.
    pub fn go_on(&mut self, now: Instant) -> bool {
        let is_out = match &mut self.stage {
            Stage::Answers(outgoing) => {
                let mut to = &*self.stream;
                match outgoing.go_on(&mut to) {
                    Ok(()) => outgoing.is_out(),
                    Err(error) if error.kind() == ErrorKind::WouldBlock => false,
                    Err(_) => return false,
                }
            }
            _ => return true,
        };
        if is_out {
            self.part(now);
        }
        true
    }

    /// Is told this line, the last one.
    pub fn part_with(&mut self, text: &[u8], now: Instant) {
        match &mut self.web {
            Some(web) => {
                let _ = web.write_all(text);
            }
            None => {
                tells(&self.stream, text);
            }
        }
        self.part(now);
    }

    // Nothing is said any more.
    fn part(&mut self, now: Instant) {
        match &mut self.web {
            Some(web) => web.close(),
            None => {}
        }
        let _ = self.stream.shutdown(Shutdown::Write);
        self.stage = Stage::Parts;
        self.since = now;
    }

    /// Passes over what still comes, and says whether more may.
    pub fn pass_over(&mut self) -> bool {
        let mut piece = [0u8; 8_192];
        let mut from = &*self.stream;
        match from.read(&mut piece) {
            Ok(n) => n > 0,
            Err(error) => error.kind() == ErrorKind::WouldBlock,
        }
    }

    /// Whether it talks HTTP.
    pub fn is_http(&self) -> bool {
        self.web.is_none() && talk_of(self.text.as_slice()) == Some(Talk::Http)
    }

    /// Whether it has waited so long.
    pub fn has_waited(&self, now: Instant, time: Duration) -> bool {
        now.duration_since(self.since) >= time
    }

    /// The connection, with what came after its first line, which ends before this place.
    pub fn into_link(self, alloc: Global, end: usize) -> Option<Link>
        ensures { IfSome result (λ link. CameAfter (drop (end + 1) self.text.items) link.ahead) }
    {
        let Newcomer {
            stream,
            peer: _,
            text,
            web,
            since: _,
            stage: _,
        } = self;
        match after_line(text.as_slice(), end).to_vec(alloc) {
            Ok(ahead) => Some(Link {
                stream,
                ahead: Some(ahead),
                web,
            }),
            Err(_) => None,
        }
    }
}

// What stands after a line that ends before this place.
fn after_line(text: &[u8], end: usize) -> &[u8]
    ensures { result.now ≡ drop (end + 1) text.now }
{
    if end < text.len() {
        &text[end + 1..]
    } else {
        &[]
    }
}
