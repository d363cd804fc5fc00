// The seat of a station.
ghost use Rattle.std.specs.Prelude.{◌≡◌, ◌+◌, ◌<◌, ◌≤◌, ◌⊎◌, [], true, length, take, max, min, position, IfSome, OnOk, OnErr};
ghost use Rattle.seat_lines.specs.Seats.{broken, bytes_come, done_with, empty_seat, got_of, let_go, let_go_upto, line_comes, line_taken, may_go, put, read_by, said, sat_down, sent_on, unsent, with_pending};
ghost use Rattle.line_words.specs.Lines.{is_lf};

use crate::line_bytes::LineBytes;
use crate::replies::Replies;
use crate::saying::{Saying, saying_of};
use crate::{HALF_KEPT, MOST_KEPT, Memory};
use std::alloc::Global;
use std::marker::Model;

/// What stands between the station that sits on a seat, over one connection or another, and its session. Lines and
/// replies are numbered as the journal numbers a station's lines.
#[derive(Drop)]
pub struct Seat {
    is_here: bool,
    has_left: bool,
    lines: u64,
    pending: LineBytes,
    waiting: LineBytes,
    read: usize,
    replies: Replies,
}

impl Model for Seat {
    ghost use Rattle.std.specs.Prelude.{◌≤◌, ◌+◌, length, drop};
    ghost use Rattle.seat_lines.specs.Seats.{SeatState};
    ghost use Rattle.seat_lines.specs.declared.line_bytes.TheConstants.{ROOM};

    ghost Value = { SeatState };

    ghost view = { λ s. record {
      is_here = s.is_here;
      has_left = s.has_left;
      lines = s.lines;
      pending = s.pending;
      waiting = drop s.read s.waiting;
      gone = s.replies.gone;
      kept = s.replies.kept;
      sent = s.replies.sent;
    } };

    ghost invariant = { λ s. (s.read ≤ length s.waiting) × (length s.pending + 1 ≤ ROOM) };
}

impl Seat {
    /// A seat on which nobody sat yet, of a station whose last line had this number.
    pub fn new(alloc: Global, base: u32) -> Self
        ensures { result ≡ empty_seat base }
    {
        Seat {
            is_here: false,
            has_left: false,
            lines: u64::from(base),
            pending: LineBytes::new(),
            waiting: LineBytes::new(),
            read: 0,
            replies: Replies::new(alloc, base),
        }
    }

    /// Whether a connection is there.
    pub fn is_here(&self) -> bool
        ensures { result ≡ self.now.is_here }
    {
        self.is_here
    }

    /// Whether the station has left.
    pub fn has_left(&self) -> bool
        ensures { result ≡ self.now.has_left }
    {
        self.has_left
    }

    /// The number of the last line that was taken whole.
    pub fn lines(&self) -> u64
        ensures { result ≡ self.now.lines }
    {
        self.lines
    }

    /// Somebody sits down over a connection, and has got the replies up to this number. It answers the number of the
    /// last reply before those that follow. Who sat there before is gone.
    pub fn sit(&mut self, got: u64) -> u64
        ensures sits { self.new ≡ sat_down got self.old }
        ensures before { result ≡ self.old.gone + got_of got self.old }
    {
        self.is_here = true;
        self.pending.clear();
        let gone = self.replies.gone();
        gone + self.replies.go_back(got)
    }

    /// The connection is gone.
    pub fn breaks(&mut self)
        ensures { self.new ≡ broken self.old }
    {
        self.is_here = false;
        self.pending.clear();
    }

    /// Whether bytes may come: a connection is there, the session has read all lines that were taken, the station has
    /// not left, and its lines have numbers still.
    pub fn may_take(&self) -> bool
        ensures here { result ≡ true → self.now.is_here ≡ true }
        ensures read { result ≡ true → self.now.waiting ≡ [] }
        ensures numbers { result ≡ true → self.now.lines < u32.MAX }
    {
        self.is_here
            && !self.has_left
            && self.read == self.waiting.as_slice().len()
            && self.lines < u64::from(u32::MAX)
    }

    /// Takes the bytes of a piece up to and with its first line feed, or all of them, and answers how many.
    pub fn take_in(&mut self, piece: &[u8]) -> usize
        requires read { self.old.waiting ≡ [] }
        requires numbers { self.old.lines < u32.MAX }

        ensures within { result ≤ length piece.now }
        ensures some { 0 < length piece.now → 0 < result }
        ensures comes { self.new ≡ bytes_come (take result piece.now) self.old }
    {
        match first_lf(piece) {
            None => {
                self.pending.keep(piece);
                piece.len()
            }
            Some(at) => {
                self.pending.keep(&piece[..at]);
                self.end_line();
                at + 1
            }
        }
    }

    // The line that is pending has ended.
    fn end_line(&mut self)
        requires read { self.old.waiting ≡ [] }
        requires numbers { self.old.lines < u32.MAX }
        ensures { self.new ≡ with_pending [] (line_comes self.old.pending self.old) }
    {
        if self.has_left {
            self.pending.clear();
            return;
        }
        let saying = saying_of(self.pending.as_slice());
        self.obey(saying);
        self.pending.clear();
    }

    // Does what the line that is pending says to the seat, or takes it.
    fn obey(&mut self, saying: Saying)
        requires read { self.old.waiting ≡ [] }
        requires numbers { self.old.lines < u32.MAX }
        ensures { self.new ≡ said saying self.old.pending self.old }
    {
        match saying {
            Saying::Leave => self.has_left = true,
            Saying::Got(number) => self.let_go_upto(number),
            Saying::Nothing => self.take_line(),
        }
    }

    // Takes the line that is pending for the session.
    fn take_line(&mut self)
        requires read { self.old.waiting ≡ [] }
        requires numbers { self.old.lines < u32.MAX }
        ensures { self.new ≡ line_taken self.old.pending self.old }
    {
        self.waiting.hold(self.pending.as_slice());
        self.read = 0;
        self.lines += 1;
    }

    // Lets go of the replies up to this number, as far as may be.
    fn let_go_upto(&mut self, number: u32)
        ensures { self.new ≡ let_go_upto number self.old }
    {
        let may = self.may_go();
        let most = u64::from(number).saturating_sub(self.replies.gone());
        self.replies.let_go(may, most);
    }

    // Of what is kept the bytes that the connection which is there need not get any more.
    fn may_go(&self) -> usize
        ensures bytes { result ≡ may_go self.now }
        ensures within { result ≤ length self.now.kept }
    {
        if self.is_here {
            self.replies.sent()
        } else {
            self.replies.len()
        }
    }

    /// Gives the session the next bytes of its lines, as many as there is room for, and answers how many.
    pub fn read(&mut self, into: &mut [u8]) -> usize
        ensures count { result ≡ min (length into.old) (length self.old.waiting) }
        ensures bytes { take result into.new ≡ take result self.old.waiting }
        ensures len { length into.new ≡ length into.old }
        ensures read { self.new ≡ read_by result self.old }
    {
        let (_, rest) = self.waiting.as_slice().split_at(self.read);
        let n = rest.len().min(into.len());
        into[..n].copy_from_slice(&rest[..n]);
        self.read += n;
        n
    }

    /// Lets go of the oldest replies where they and so many bytes more would pass `MOST_KEPT`, down to `HALF_KEPT` or
    /// as far as may be, and answers how many. Where so many bytes alone pass it, all may go.
    pub fn make_room(&mut self, coming: usize) -> u64
        ensures gone { self.new ≡ let_go result self.old }
        ensures may { result ≤ done_with self.old }
        ensures none { length self.old.kept + coming ≤ MOST_KEPT → result ≡ 0 }
        ensures room { (length self.new.kept + coming ≤ max MOST_KEPT coming)
            ⊎ (result ≡ done_with self.old) }
    {
        let len = self.replies.len();
        if coming <= MOST_KEPT && len <= MOST_KEPT - coming {
            return 0;
        }
        let may = self.may_go();
        let stay = HALF_KEPT.saturating_sub(coming);
        let enough = len.saturating_sub(stay);
        self.replies.let_go_bytes(may, enough)
    }

    /// Puts bytes of the session's replies.
    pub fn put(&mut self, bytes: &[u8]) -> Result<(), Memory>
        ensures ok { OnOk result (self.new ≡ put bytes.now self.old) }
        ensures err { OnErr result (self.new ≡ self.old) }
    {
        self.replies.put(bytes)
    }

    /// What has yet to go out over the connection that is there.
    pub fn unsent(&self) -> &[u8]
        ensures { result.now ≡ unsent self.now }
    {
        self.replies.unsent()
    }

    /// So many bytes of it have gone out.
    pub fn send(&mut self, n: usize)
        requires { n ≤ length (unsent self.old) }
        ensures { self.new ≡ sent_on n self.old }
    {
        self.replies.send(n);
    }
}

// Where the first line feed of a piece stands; `None` where there is none.
fn first_lf(piece: &[u8]) -> Option<usize>
    ensures at { result ≡ position is_lf piece.now }
    ensures within { IfSome result (λ at. at < length piece.now) }
{
    piece.iter().position(|byte| *byte == b'\n')
}
