// Each call of the disk fails in its turn, and what a crash leaves after each call.
use crate::rooms::{ALONE, Ended, Storing, stored};
use std::alloc::Global;
use std::sync::Wait;
use std::test::Fail;
use std::thread::Threads;
use test_disks::{Torn, image, opened};

const BEFORE: &[u8] = b"cutroom journal 1\n+0 1 slice 0 10\n-";

// The records before the session, and with its edit.
const ONE: &str = "0 1 slice 0 10/";

const BOTH: &str = "0 1 slice 0 10/0 2 slice 0 20/";

// A second session over the file of the first, where these calls of the disk fail.
fn second<R: Threads + Wait + Sync>(rt: &R, alloc: Global, failing: &[u32]) -> Result<Ended, Fail> {
    let storing = Storing {
        file: BEFORE,
        failing,
        words: ALONE,
        sent: &["slice 0 20\npoint\n"],
        writes: &[],
    };
    stored(rt, alloc, &storing)
}

// Whether what a crash leaves after so many calls has these records, or those, however far each write has come.
fn leaves(
    alloc: Global,
    ended: &Ended,
    calls: usize,
    one: &str,
    other: &str,
) -> Result<bool, Fail> {
    let tape = ended.disk.tape().ok_or("a tape")?;
    for kept in 0..18 {
        for (fill, is_cut) in [(b'+', true), (b'-', false), (b'\n', true)] {
            let torn = Torn {
                kept,
                fill,
                len: 18,
                is_cut,
            };
            let image = image(alloc, tape, calls, torn)?;
            let lines = match opened(alloc, &image) {
                Ok(lines) => lines,
                Err(_) => return Ok(false),
            };
            if lines.as_slice() != one.as_bytes() && lines.as_slice() != other.as_bytes() {
                return Ok(false);
            }
        }
    }
    Ok(true)
}

// How many calls were made on the disk.
fn calls_of(ended: &Ended) -> Result<usize, Fail> {
    Ok(ended.disk.tape().ok_or("a tape")?.calls().len())
}

// What the station was answered.
fn answered(ended: &Ended) -> Result<&str, Fail> {
    Ok(ended.taken.first().ok_or("a station")?.as_str())
}

#[test]
fn a_crash_at_each_call_leaves_one_record_or_both(rt: HostRuntime) -> Result<(), Fail> {
    let alloc = rt.alloc();
    let ended = second(&rt, alloc, &[])?;
    assert!(rt; ended.status == 0);
    assert!(rt; answered(&ended)? == "ok 1\npoint 2\n");
    let calls = calls_of(&ended)?;
    assert!(rt; 4 < calls);
    for at in 0..calls {
        assert!(rt; leaves(alloc, &ended, at, ONE, BOTH)?, "{at}");
    }
    assert!(rt; leaves(alloc, &ended, calls, BOTH, BOTH)?);
    Ok(())
}

#[test]
fn where_a_call_fails_no_reply_tells_what_a_crash_may_lose(rt: HostRuntime) -> Result<(), Fail> {
    let alloc = rt.alloc();
    let calls = calls_of(&second(&rt, alloc, &[])?)?;
    let mut failing = 1u32;
    for _ in 0..calls {
        let ended = second(&rt, alloc, &[failing])?;
        assert!(rt; ended.status == 9, "{failing}: {}", ended.status);
        assert!(rt; answered(&ended)? == "", "{failing}: {}", answered(&ended)?);
        let made = calls_of(&ended)?;
        for at in 0..made.saturating_add(1) {
            assert!(rt; leaves(alloc, &ended, at, ONE, BOTH)?, "{failing} {at}");
        }
        failing = failing.saturating_add(1);
    }
    Ok(())
}

#[test]
fn the_next_start_goes_on_from_what_a_crash_leaves(rt: HostRuntime) -> Result<(), Fail> {
    let alloc = rt.alloc();
    let first = second(&rt, alloc, &[])?;
    let tape = first.disk.tape().ok_or("a tape")?;
    for calls in 0..tape.calls().len().saturating_add(1) {
        let torn = Torn {
            kept: 7,
            fill: b'+',
            len: 12,
            is_cut: false,
        };
        let image = image(alloc, tape, calls, torn)?;
        let storing = Storing {
            file: &image,
            failing: &[],
            words: ALONE,
            sent: &["point\nslice 0 30\n"],
            writes: &[],
        };
        let ended = stored(&rt, alloc, &storing)?;
        assert!(rt; ended.status == 0, "{calls}");
        let taken = answered(&ended)?;
        let has_one = taken == "point 1\nok 1\n";
        let has_both = taken == "point 2\nok 2\n";
        assert!(rt; has_one || has_both, "{calls}: {taken}");
    }
    Ok(())
}

#[test]
fn a_reply_that_is_cut_off_is_of_an_entry_that_is_kept(rt: HostRuntime) -> Result<(), Fail> {
    let alloc = rt.alloc();
    let storing = Storing {
        file: BEFORE,
        failing: &[],
        words: ALONE,
        sent: &["slice 0 20\npoint\n"],
        writes: &[1],
    };
    let ended = stored(&rt, alloc, &storing)?;
    assert!(rt; ended.status == 2);
    let calls = calls_of(&ended)?;
    assert!(rt; leaves(alloc, &ended, calls, BOTH, BOTH)?);
    Ok(())
}
