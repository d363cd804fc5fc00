// The replies that a seat keeps.
ghost use Rattle.std.specs.Prelude.{◌≡◌, ◌+◌, ◌-◌, ◌≤◌, ◌⊎◌, ◌++◌, [], ℕ, length, take, drop, min, OnOk, OnErr};
ghost use Rattle.seat_lines.specs.Seats.{RepliesState, fewer_kept};
ghost use Rattle.seat_lines.specs.Texts.{after_lines, bytes_of_lines, lines_in};

use crate::cut::{Front, lines_of_bytes, lines_within, whole_lines};
use crate::{HALF_KEPT, MOST_KEPT, MOST_WRITTEN, Memory};
use std::alloc::Global;
use std::marker::Model;

/// Replies in order, the oldest of which were let go of, how many of those that are kept have ended, and how much of them has
/// gone out.
#[derive(Drop)]
pub(crate) struct Replies {
    alloc: Global,
    gone: u64,
    kept: Vec<u8>,
    ended: u64,
    sent: usize,
}

impl Model for Replies {
    ghost use Rattle.std.specs.Prelude.{◌≡◌, ◌≤◌, ◌+◌, length};
    ghost use Rattle.seat_lines.specs.Seats.{RepliesState};
    ghost use Rattle.seat_lines.specs.Texts.{lines_in};
    ghost use Rattle.seat_lines.specs.declared.TheConstants.{MOST_WRITTEN};

    ghost Value = { RepliesState };

    ghost view = { λ r. record { gone = r.gone; kept = r.kept.items; sent = r.sent } };

    ghost invariant = { λ r. (r.sent ≤ length r.kept.items)
        × (r.gone + length r.kept.items ≤ MOST_WRITTEN) × (r.ended ≡ lines_in r.kept.items) };
}

impl Replies {
    /// None is kept, and those up to this number are gone.
    pub(crate) fn new(alloc: Global, gone: u32) -> Self
        ensures { result ≡ record { gone = gone; kept = []; sent = 0 } }
    {
        Replies {
            alloc,
            gone: u64::from(gone),
            kept: Vec::new(alloc),
            ended: 0,
            sent: 0,
        }
    }

    /// The number of the last that was let go of.
    pub(crate) fn gone(&self) -> u64
        ensures number { result ≡ self.now.gone }
        ensures within { result + length self.now.kept ≤ MOST_WRITTEN }
    {
        let _ = &self.kept;
        self.gone
    }

    /// How many bytes are kept.
    pub(crate) fn len(&self) -> usize
        ensures { result ≡ length self.now.kept }
    {
        self.kept.len()
    }

    /// How many bytes of them have gone out.
    pub(crate) fn sent(&self) -> usize
        ensures count { result ≡ self.now.sent }
        ensures within { result ≤ length self.now.kept }
    {
        self.sent
    }

    /// Has those that are kept go out again from the one after this number on, and answers how many stand before that.
    pub(crate) fn go_back(&mut self, number: u64) -> u64
        ensures count { result ≡ min (number - self.old.gone) (lines_in self.old.kept) }
        ensures within { result ≤ length self.old.kept }
        ensures sent { self.new ≡ record {
          gone = self.old.gone;
          kept = self.old.kept;
          sent = bytes_of_lines result self.old.kept;
        } }
    {
        let most = number.saturating_sub(self.gone);
        let front = whole_lines(&self.kept, most);
        self.sent = front.bytes;
        front.lines
    }

    /// Lets go of the oldest replies that end in the first bytes, at most so many, and answers how many.
    pub(crate) fn let_go(&mut self, may: usize, most: u64) -> u64
        requires { may ≤ length self.old.kept }
        ensures fewer { self.new ≡ fewer_kept result self.old }
        ensures lines { result ≡ min most (lines_in (take may self.old.kept)) }
    {
        let front = lines_within(&self.kept, may, most);
        self.drop_lines(front);
        front.lines
    }

    /// Lets go of the oldest replies that end in the first bytes, until so many bytes are gone, and answers how many. While a
    /// long reply alone is kept, which has yet to end, it looks at none of its bytes.
    pub(crate) fn let_go_bytes(&mut self, may: usize, enough: usize) -> u64
        requires { may ≤ length self.old.kept }
        ensures fewer { self.new ≡ fewer_kept result self.old }
        ensures lines { result ≤ lines_in (take may self.old.kept) }
        ensures all { (enough + length self.new.kept ≤ length self.old.kept)
            ⊎ (result ≡ lines_in (take may self.old.kept)) }
    {
        if self.ended == 0 {
            return 0;
        }
        let front = lines_of_bytes(&self.kept, may, enough);
        self.drop_lines(front);
        front.lines
    }

    // Drops lines at the front.
    fn drop_lines(&mut self, front: Front)
        requires rest { drop front.bytes self.old.kept ≡ after_lines front.lines self.old.kept }
        requires bytes { front.bytes ≡ bytes_of_lines front.lines self.old.kept }
        requires within { front.bytes ≤ length self.old.kept }
        requires fewer { front.lines ≤ front.bytes }
        requires ended { front.lines ≤ lines_in self.old.kept }
        ensures fewer { self.new ≡ fewer_kept front.lines self.old }
        ensures length { length self.new.kept + front.bytes ≡ length self.old.kept }
    {
        drop_front(&mut self.kept, front.bytes);
        self.sent = self.sent.saturating_sub(front.bytes);
        self.gone += front.lines;
        self.ended -= front.lines;
        self.give_memory_back();
    }

    // Gives back the memory of a large reply that is gone, where there is memory for what is kept.
    fn give_memory_back(&mut self)
        ensures { self.new ≡ self.old }
    {
        if self.kept.capacity() > MOST_KEPT && self.kept.len() <= HALF_KEPT {
            match self.kept.as_slice().to_vec(self.alloc) {
                Ok(kept) => self.kept = kept,
                Err(_) => {}
            }
        }
    }

    /// Adds bytes at the end.
    pub(crate) fn put(&mut self, bytes: &[u8]) -> Result<(), Memory>
        ensures ok { OnOk result (self.new ≡ record {
          gone = self.old.gone;
          kept = self.old.kept ++ bytes.now;
          sent = self.old.sent;
        }) }
        ensures err { OnErr result (self.new ≡ self.old) }
    {
        let written = self.gone + self.kept.len() as u64;
        if bytes.len() as u64 > MOST_WRITTEN - written {
            return Err(Memory);
        }
        self.kept.extend_from_slice(bytes)?;
        self.ended += whole_lines(bytes, u64::MAX).lines;
        Ok(())
    }

    /// What has yet to go out.
    pub(crate) fn unsent(&self) -> &[u8]
        ensures { result.now ≡ drop self.now.sent self.now.kept }
    {
        &self.kept[self.sent..]
    }

    /// So many bytes more have gone out.
    pub(crate) fn send(&mut self, n: usize)
        requires { n ≤ length (drop self.old.sent self.old.kept) }
        ensures { self.new ≡ record {
          gone = self.old.gone;
          kept = self.old.kept;
          sent = self.old.sent + n;
        } }
    {
        self.sent += n;
    }
}

// Drops the first bytes.
fn drop_front(bytes: &mut Vec<u8>, n: usize)
    requires { n ≤ length bytes.old.items }
    ensures { bytes.new.items ≡ drop n bytes.old.items }
{
    let left = bytes.len() - n;
    bytes.as_mut_slice().copy_within(n.., 0);
    bytes.truncate(left);
}
