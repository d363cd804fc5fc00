// Cuts far back: whatever cuts are kept on the way, each is that of a run which ends there.
use std::alloc::Global;
use std::sync::Wait;
use std::test::Fail;
use std::thread::Threads;
use test_runs::ended;

const EDITS: u32 = 20_000;

/// Points on both sides of those at which a room keeps cuts, its end, and one again.
const POINTS: [u32; 6] = [16_384, 16_383, 20_000, 8_192, 8_191, 16_384];

// So many edits, each of which puts one frame over one of 200 places.
fn edits_of(alloc: Global, count: u32) -> Result<String, Fail> {
    let mut lines = String::new(alloc);
    for number in 0..count {
        let line = format!(in alloc; "overwrite 0 {} @0 {number} 1\n", number % 200)?;
        lines.push_str(line.as_str())?;
    }
    Ok(lines)
}

// The replies of a run with these lines that tell a cut's document, in order.
fn cuts_told<R: Threads + Wait + Sync>(
    rt: &R,
    alloc: Global,
    lines: &str,
) -> Result<Vec<String>, Fail> {
    let (status, output) = ended(rt, alloc, "run 1 1", &[lines.as_bytes()], &[], &[])?;
    if status != 0 {
        return Err("the run did not end".into());
    }
    let mut told = Vec::new(alloc);
    for line in str::from_utf8(output.as_slice())?.lines() {
        if line.starts_with("otio ") {
            told.push(String::from_str(alloc, line)?)?;
        }
    }
    Ok(told)
}

#[test]
fn a_cut_far_back_is_that_of_a_run_which_ends_there(rt: HostRuntime) -> Result<(), Fail> {
    let alloc = rt.alloc();
    let mut lines = edits_of(alloc, EDITS)?;
    for point in POINTS {
        let line = format!(in alloc; "otio {point}\n")?;
        lines.push_str(line.as_str())?;
    }
    let told = cuts_told(&rt, alloc, lines.as_str())?;
    assert_eq!(rt; told.len(), POINTS.len());
    for (cut, point) in told.iter().zip(POINTS) {
        let mut lines = edits_of(alloc, point)?;
        let line = format!(in alloc; "otio {point}\n")?;
        lines.push_str(line.as_str())?;
        let alone = cuts_told(&rt, alloc, lines.as_str())?;
        let alone = alone.as_slice().first().ok_or("none")?;
        assert_eq!(rt; cut.as_str(), alone.as_str(), "at {point}");
    }
    Ok(())
}
