// Whose turn it is at the desk. An append serves all who wait for entries that were there when it began, so they let one of
// them do it. Who comes while it is under way waits for the next one. When an append ends, one of those who wait for the
// next is woken first, and the disk does not rest while those who were served go on. Before an append begins, the one who
// does it lets those come, for a moment, whom the append before served: so it has the entries of all. No clause speaks of
// turns: the desk's own lock, and what is noted on receipts, keep what is proved.
use std::sync::{Condvar, Mutex, Wait};
use std::thread::yield_now;

// How often others may go first before an append begins. It takes some tens of microseconds at most.
const MOST_YIELDS: u32 = 64;

// Who is at the desk: nobody, or one who lets others come before the append, or one who appends.
#[derive(Clone, Copy, Debug, PartialEq, Eq)]
enum Place {
    Free,
    Gathers,
    Appends,
}

// What one who has come does.
#[derive(Clone, Copy, Debug, PartialEq, Eq)]
enum Turn {
    // Nothing: the entries are kept.
    Goes,
    Appends,
    // It waits for the append with this number.
    Waits(u64),
}

// How many entries are kept as far as is known here, and the append that is under way, or that was last.
#[derive(Clone, Copy, Debug)]
struct Queue {
    kept: u64,
    append: u64,
    place: Place,
    // How many come for that append, and for the next; and the least number of entries that one of the latter wants kept.
    served: u32,
    next: u32,
    least: u64,
    // How many were served by the last append and have not come since.
    away: u32,
}

// What is to be woken when an append has ended.
#[derive(Clone, Copy, Debug)]
struct Ended {
    append: u64,
    wakes_served: bool,
    // Of those who wait for the next append one, or all, where some have what they wait for.
    wakes_one: bool,
    wakes_all: bool,
}

impl Queue {
    // What one does who wants the entries before a point kept, and has waited for an append, if it has.
    fn turn(&mut self, n: u32, waited: Option<u64>) -> Turn {
        if u64::from(n) <= self.kept {
            return Turn::Goes;
        }
        if self.place == Place::Free {
            if waited != Some(self.append.wrapping_add(1)) {
                self.next = self.next.saturating_add(1);
            }
            self.begin();
            return Turn::Appends;
        }
        match waited {
            Some(append) if self.append <= append => Turn::Waits(append),
            _ => self.wait(n),
        }
    }

    // One more waits: for this append, where it has not begun, and else for the next.
    fn wait(&mut self, n: u32) -> Turn {
        if self.place == Place::Gathers {
            self.served = self.served.saturating_add(1);
            return Turn::Waits(self.append);
        }
        self.next = self.next.saturating_add(1);
        self.least = self.least.min(u64::from(n));
        Turn::Waits(self.append.wrapping_add(1))
    }

    // The next append is to begin. It is for all who have come for it.
    fn begin(&mut self) {
        self.append = self.append.wrapping_add(1);
        self.place = Place::Gathers;
        self.served = self.next;
        self.next = 0;
        self.least = u64::MAX;
    }

    // The append has ended, where so many entries are kept now.
    fn end(&mut self, kept: u64) -> Ended {
        self.kept = self.kept.max(kept);
        self.place = Place::Free;
        self.away = self.served;
        Ended {
            append: self.append,
            wakes_served: self.served > 1,
            wakes_one: self.next > 0,
            wakes_all: self.least <= self.kept,
        }
    }
}

// The turns of the stations of one desk. Who waits for an append waits at one of two places, by its number.
#[derive(Drop)]
pub struct Turns {
    queue: Mutex<Queue>,
    even: Condvar,
    odd: Condvar,
}

impl Turns {
    // Nobody waits, and so many entries are kept.
    pub fn new(kept: u32) -> Turns {
        Turns {
            queue: Mutex::new(Queue {
                kept: u64::from(kept),
                append: 0,
                place: Place::Free,
                served: 0,
                next: 0,
                least: u64::MAX,
                away: 0,
            }),
            even: Condvar::new(),
            odd: Condvar::new(),
        }
    }

    // Where those wait who wait for the append with this number.
    fn waiting_for(&self, append: u64) -> &Condvar {
        if append % 2 == 0 {
            &self.even
        } else {
            &self.odd
        }
    }

    // Waits until the entries before a point are kept, or it is time to append them. It answers whether to append.
    pub fn come<R: Wait>(&self, rt: &R, n: u32) -> bool {
        let appends = self.wait(rt, n);
        if appends {
            self.gather(rt);
        }
        appends
    }

    // The same, before the others have come.
    fn wait<R: Wait>(&self, rt: &R, n: u32) -> bool {
        let mut waited = None;
        let mut queue = self.queue.lock(rt);
        queue.away = queue.away.saturating_sub(1);
        for _ in rt.forever() {
            match queue.turn(n, waited) {
                Turn::Goes => return false,
                Turn::Appends => return true,
                Turn::Waits(append) => {
                    waited = Some(append);
                    queue = self.waiting_for(append).wait(rt, queue);
                }
            }
        }
        unreachable!()
    }

    // Lets those come whom the last append served, as far as they do at once, before the append begins.
    fn gather<R: Wait>(&self, rt: &R) {
        for _ in 0..MOST_YIELDS {
            if self.all_have_come(rt) {
                break;
            }
            yield_now();
        }
        let mut queue = self.queue.lock(rt);
        queue.place = Place::Appends;
    }

    // Whether all have come again whom the last append served.
    fn all_have_come<R: Wait>(&self, rt: &R) -> bool {
        let queue = self.queue.lock(rt);
        queue.away == 0
    }

    // Leaves the desk after an append, where so many entries are kept now. Who is to append next is woken first.
    pub fn leave<R: Wait>(&self, rt: &R, kept: u64) {
        let ended = self.end(rt, kept);
        let next = self.waiting_for(ended.append.wrapping_add(1));
        if ended.wakes_all {
            next.notify_all();
        } else if ended.wakes_one {
            next.notify_one();
        }
        if ended.wakes_served {
            self.waiting_for(ended.append).notify_all();
        }
    }

    // Notes that the append has ended.
    fn end<R: Wait>(&self, rt: &R, kept: u64) -> Ended {
        let mut queue = self.queue.lock(rt);
        queue.end(kept)
    }
}
