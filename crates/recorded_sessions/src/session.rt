// A recorded session, held against a journal.
ghost use Rattle.std.specs.Prelude.{◌≡◌, ◌+◌, ◌≤◌, ℕ, List, Some, IfErr, IfOk, MatchOption, OnOk, length, slice_get};
ghost use Rattle.recorded_sessions.specs.Places.{IsPassed, IsStopped, IsUntold, PassesAll, Says};
ghost use Rattle.recorded_sessions.specs.Sessions.{AreOwn, IsSession};
ghost use Rattle.recorded_sessions.specs.Stopping.{HasNoPair, IsRefusal, Stops, pairs_in};
ghost use Rattle.recorded_sessions.specs.Telling.{AreKnown};
ghost use Rattle.recorded_sessions.specs.declared.session.Stop.TheVariants.{Memory as NoMemory};

use crate::following::follow;
use crate::telling::Told;
use out_of_memory::Memory;
use room_core::Entry;
use std::alloc::{AllocError, Global};

/// What explains the replies of a session.
pub trait Explains {
    /// How the reply to the line of a number is explained: where its station had been told of so many entries, it has
    /// been told of so many after it, and these points are those of its own entries.
    ghost explains: { Self → ℕ → ℕ → ℕ → List ℕ → Type 0 };

    /// The entry at a place is of a line whose reply did not come.
    ghost left: { Self → ℕ → Type 0 };

    /// Whether the entry at a place is of a line whose reply did not come.
    fn is_left(&self, place: usize) -> Result<bool, Memory>
        ensures { IfOk result (λ yes. Says yes (left self.now place)) };
}

/// How much was recorded of a station, and whether its session was cut short.
#[derive(Clone, Copy, Debug, PartialEq, Eq)]
pub struct Heard {
    /// The station.
    pub station: u32,
    /// How many lines it sent.
    pub lines: usize,
    /// How many replies it got.
    pub replies: usize,
    /// Its session ended by a fault.
    pub is_cut: bool,
}

/// Why a recorded session is not explained.
#[derive(Clone, Copy, Debug, PartialEq, Eq)]
pub enum Stop {
    /// The reply to the line of this number, where the station had been told of so many entries.
    Reply {
        /// The line's number, from 1.
        number: usize,
        /// How many entries the station had been told of.
        told: u64,
    },
    /// The line or the reply of this number has none beside it.
    Unpaired(usize),
    /// No reply tells of the entry at this place, which is the station's.
    Untold(usize),
    /// There was no memory.
    Memory,
}

impl From<Memory> for Stop {
    ghost from_gives = { λ _ stop. stop ≡ NoMemory };

    fn from(_: Memory) -> Self {
        Stop::Memory
    }
}

impl From<AllocError> for Stop {
    ghost from_gives = { λ _ stop. stop ≡ NoMemory };

    fn from(_: AllocError) -> Self {
        Stop::Memory
    }
}

// Whether the next of the points is this place.
fn is_next(points: &[u32], count: usize, place: usize) -> bool
    ensures { Says result (slice_get points.now count ≡ Some place) }
{
    match points.get(count) {
        Some(point) => *point as usize == place,
        None => false,
    }
}

// How many of the points stand before the next place, where the entry at this one is told of or left; `None` where it
// is neither.
fn passed<E: Explains>(
    rows: &E,
    heard: &Heard,
    points: &[u32],
    place: usize,
    count: usize,
) -> Result<Option<usize>, Memory>
    requires { count ≤ length points.now }
    ensures { IfOk result (λ found. MatchOption found
        (IsStopped (E.left rows.now) heard.now points.now place count)
        (λ after. IsPassed (E.left rows.now) heard.now points.now place count after)) }
{
    if is_next(points, count, place) {
        return Ok(Some(count + 1));
    }
    if !heard.is_cut || count < points.len() {
        return Ok(None);
    }
    let left = rows.is_left(place)?;
    Ok(if left { Some(count) } else { None })
}

// The first entry of a station that is neither told of nor left, where these points are told of.
fn untold<C, E: Explains>(
    rows: &E,
    heard: &Heard,
    points: &[u32],
    entries: &[Entry<C>],
) -> Result<Option<usize>, Memory>
    ensures { IfOk result (λ found. MatchOption found
        (PassesAll (E.left rows.now) heard.now points.now entries.now)
        (λ place. IsUntold (E.left rows.now) heard.now points.now entries.now place)) }
{
    let mut count = 0;
    for (place, entry) in entries.iter().enumerate() {
        if entry.station == heard.station {
            match passed(rows, heard, points, place, count)? {
                Some(after) => count = after,
                None => return Ok(Some(place)),
            }
        }
    }
    Ok(None)
}

// A line or a reply that has none beside it.
fn unpaired(heard: &Heard) -> Option<usize>
    ensures { MatchOption result (HasNoPair heard.now → ⊥)
        (λ number. HasNoPair heard.now × (number ≡ pairs_in heard.now + 1)) }
{
    if heard.lines < heard.replies {
        return Some(heard.lines + 1);
    }
    if heard.replies < heard.lines && !heard.is_cut {
        return Some(heard.replies + 1);
    }
    None
}

/// Holds what was recorded of a station against a journal, by what is known of the reply to each line that has one.
///
/// It stops at the first that is not explained: the replies in their order, then a line or a reply that has none
/// beside it, then the station's entries in their order.
pub fn audit_session<C, E: Explains>(
    alloc: Global,
    rows: &E,
    tells: &[Told],
    entries: &[Entry<C>],
    heard: &Heard,
) -> Result<(), Stop>
    requires known { AreKnown (E.explains rows.now) tells.now }
    requires pairs { length tells.now ≡ pairs_in heard.now }
    requires own { AreOwn entries.now heard.now.station tells.now }
    ensures explained { OnOk result
        (IsSession (E.explains rows.now) (E.left rows.now) heard.now entries.now) }
    ensures stop { IfErr result
        (λ stop. Stops (E.explains rows.now) (E.left rows.now) heard.now entries.now stop) }
    ensures refused { IfErr result (λ stop. IsRefusal stop
        → IsSession (E.explains rows.now) (E.left rows.now) heard.now entries.now → ⊥) }
{
    let followed = match follow(alloc, rows, tells) {
        Ok(followed) => followed,
        Err(stop) => return Err(stop),
    };
    match unpaired(heard) {
        Some(number) => return Err(Stop::Unpaired(number)),
        None => {}
    }
    match untold(rows, heard, &followed.points, entries)? {
        Some(place) => Err(Stop::Untold(place)),
        None => Ok(()),
    }
}
