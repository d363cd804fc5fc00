// Calls on a file over memory that is told, or no longer told: each is noted, and where memory is refused nothing is
// told from then on.
ghost use Rattle.std.specs.Prelude.{◌≡◌, ◌↔◌, ◌≤◌, ◌<◌, length, take, drop, IfSome, option_map};
ghost use Rattle.room_disks.specs.Crashes.{Range, Cut, Told, Stays, Syncs as IsSync, Changes, Writes, Cuts};
ghost use Rattle.room_disks.specs.Tapes.{Looks, Puts, FailsToPut, CutsTo, FailsToCut, Syncs, Adds, course_of};
ghost use Rattle.room_disks.specs.TapesInside.{done_of, LeavesReads};

use crate::tape::{DiskCall, TapeFile};

// Notes a look, or a sync that failed: what a crash may leave stays.
pub fn note_look(tape: &mut Option<TapeFile>)
    ensures adds { Adds Looks tape.old tape.new }
    ensures stays { Told Stays (option_map course_of tape.old) (option_map course_of tape.new) }
{
    note(tape, DiskCall::Looked);
}

// Notes a sync that succeeded: a crash leaves what a read gives.
pub fn note_sync(tape: &mut Option<TapeFile>)
    ensures adds { Adds Syncs tape.old tape.new }
    ensures syncs { Told IsSync (option_map course_of tape.old) (option_map course_of tape.new) }
{
    note(tape, DiskCall::Synced);
}

// Notes a write that failed: a read gives what it gave, and a crash may leave any bytes in its range.
pub fn note_failed_write(tape: &mut Option<TapeFile>, at: u32, bytes: &[u8])
    ensures adds { Adds (FailsToPut at (length bytes.now)) tape.old tape.new }
    ensures changes { Told (Changes (Range at (length bytes.now)))
        (option_map course_of tape.old) (option_map course_of tape.new) }
{
    note(tape, DiskCall::FailedToWrite(at, bytes.len()));
}

// Notes a cut that failed: a read gives what it gave, and a crash may leave the file with the cut or without.
pub fn note_failed_cut(tape: &mut Option<TapeFile>, len: u32)
    ensures adds { Adds (FailsToCut len) tape.old tape.new }
    ensures changes { Told (Changes (Cut len))
        (option_map course_of tape.old) (option_map course_of tape.new) }
{
    note(tape, DiskCall::FailedToCut(len));
}

// Writes all bytes at a place and notes it. Until the next sync a crash may leave any bytes there.
pub fn write(tape: &mut Option<TapeFile>, at: u32, bytes: &[u8])
    ensures adds { Adds (Puts at bytes.now) tape.old tape.new }
    ensures writes { Told (Writes at bytes.now)
        (option_map course_of tape.old) (option_map course_of tape.new) }
    ensures changes { Told (Changes (Range at (length bytes.now)))
        (option_map course_of tape.old) (option_map course_of tape.new) }
{
    keep_write(tape, at, bytes);
}

// Cuts the file to a length and notes it. Until the next sync a crash may leave the file with the cut or without.
pub fn cut(tape: &mut Option<TapeFile>, len: u32)
    ensures adds { Adds (CutsTo len) tape.old tape.new }
    ensures cuts { Told (Cuts len) (option_map course_of tape.old) (option_map course_of tape.new) }
    ensures changes { Told (Changes (Cut len))
        (option_map course_of tape.old) (option_map course_of tape.new) }
{
    keep_cut(tape, len);
}

// Reads from a place on into the head of `into` and notes a look: as many bytes as there is room for, and none of a
// file that is not told.
pub fn read(tape: &mut Option<TapeFile>, at: u32, into: &mut [u8]) -> usize
    ensures within { result ≤ length into.old }
    ensures gives { IfSome (option_map course_of tape.old)
        (λ c. take result into.new ≡ take result (drop at c.now.reads)) }
    ensures end { 0 < length into.old → IfSome (option_map course_of tape.old)
        (λ c. (result ≡ 0) ↔ (length c.now.reads ≤ at)) }
    ensures adds { Adds Looks tape.old tape.new }
    ensures stays { Told Stays (option_map course_of tape.old) (option_map course_of tape.new) }
{
    let count = read_told(tape, at, into);
    note_look(tape);
    count
}

// How many bytes the file has, and notes a look; 0 of a file that is not told.
pub fn len(tape: &mut Option<TapeFile>) -> u32
    ensures len { IfSome (option_map course_of tape.old) (λ c. result ≡ length c.now.reads) }
    ensures adds { Adds Looks tape.old tape.new }
    ensures stays { Told Stays (option_map course_of tape.old) (option_map course_of tape.new) }
{
    let len = len_told(tape);
    note_look(tape);
    len
}

// Writes where the file is told, or tells nothing from then on where memory is refused.
fn keep_write(tape: &mut Option<TapeFile>, at: u32, bytes: &[u8])
    ensures { Adds (Puts at bytes.now) tape.old tape.new }
{
    if let Some(kept) = tape
        && kept.write(at, bytes).is_err()
    {
        *tape = None;
    }
}

// Cuts where the file is told, or tells nothing from then on where memory is refused.
fn keep_cut(tape: &mut Option<TapeFile>, len: u32)
    ensures { Adds (CutsTo len) tape.old tape.new }
{
    if let Some(kept) = tape
        && kept.cut(len).is_err()
    {
        *tape = None;
    }
}

// Notes a call after which a read gives what it gave, or tells nothing from then on where memory is refused.
fn note(tape: &mut Option<TapeFile>, call: DiskCall)
    requires { LeavesReads (done_of call) }
    ensures { Adds (done_of call) tape.old tape.new }
{
    if let Some(kept) = tape
        && kept.note(call).is_err()
    {
        *tape = None;
    }
}

// The bytes from a place on, as many as there is room for; none of a file that is not told.
fn read_told(tape: &Option<TapeFile>, at: u32, into: &mut [u8]) -> usize
    ensures within { result ≤ length into.old }
    ensures gives { IfSome (option_map course_of tape.now)
        (λ c. take result into.new ≡ take result (drop at c.now.reads)) }
    ensures end { 0 < length into.old → IfSome (option_map course_of tape.now)
        (λ c. (result ≡ 0) ↔ (length c.now.reads ≤ at)) }
{
    match tape {
        Some(kept) => kept.read(at, into),
        None => 0,
    }
}

// How many bytes the file has; 0 of a file that is not told.
fn len_told(tape: &Option<TapeFile>) -> u32
    ensures { IfSome (option_map course_of tape.now) (λ c. result ≡ length c.now.reads) }
{
    match tape {
        Some(kept) => kept.len(),
        None => 0,
    }
}
