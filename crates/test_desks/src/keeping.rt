// Kept files after scripts, on disks of which each call fails in turn.
use crate::opening::{blank_of, new_file};
use crate::scripts::{Deed, played_once};
use crate::texts::{has_called, opens_with};
use room_disks::MemDisk;
use room_keepers::KeepFault;
use std::alloc::{AllocError, Global};
use std::sync::Wait;

// What a script on a new file comes to, whose disk has these failing calls: what each step answers, which calls were
// made, what the file holds, and the lines that it has when it is opened again.
#[derive(Clone, Copy)]
struct Row {
    failing: &'static [u32],
    script: &'static [(u32, Deed)],
    answers: &'static [Option<KeepFault>],
    calls: &'static str,
    bytes: &'static str,
    lines: &'static str,
}

// What each step of a script answers, with the disk then. `None` where there is no memory.
fn answered<R: Wait>(
    rt: &R,
    alloc: Global,
    failing: &[u32],
    script: &[(u32, Deed)],
) -> Option<(Vec<Option<KeepFault>>, MemDisk)> {
    let failing = Vec::from_slice(alloc, failing).ok()?;
    let disk = MemDisk::new(alloc, Vec::new(alloc), failing);
    let blank = blank_of(alloc).ok()?;
    let new = new_file(alloc, disk)?;
    played_once(rt, alloc, blank, new, script)
}

fn comes_to<R: Wait>(rt: &R, alloc: Global, row: &Row) -> Result<bool, AllocError> {
    let Some((answers, disk)) = answered(rt, alloc, row.failing, row.script) else {
        return Ok(false);
    };
    let Some(file) = disk.tape() else {
        return Ok(false);
    };
    let stands = file.bytes() == row.bytes.as_bytes() && answers.as_slice() == row.answers;
    let calls = has_called(alloc, file, row.calls)?;
    let again = opens_with(alloc, file.bytes(), row.lines)?;
    Ok(stands && calls && again)
}

const DISK: Option<KeepFault> = Some(KeepFault::Disk);

const MEMORY: Option<KeepFault> = Some(KeepFault::Memory);

// An edit of each of two stations.
const EDITS: &[(u32, Deed)] = &[(0, Deed::Edit(1)), (1, Deed::Edit(1)), (0, Deed::Keep(1))];

// The same, and each has the file brought up to its own.
const TWO: &[(u32, Deed)] = &[
    (0, Deed::Edit(1)),
    (1, Deed::Edit(1)),
    (0, Deed::Keep(1)),
    (1, Deed::Keep(2)),
];

// The same, one station after the other.
const TURNS: &[(u32, Deed)] = &[
    (0, Deed::Edit(1)),
    (0, Deed::Keep(1)),
    (1, Deed::Edit(1)),
    (1, Deed::Keep(2)),
];

// A point that the room has not come to, and one that the file has.
const AHEAD: &[(u32, Deed)] = &[(0, Deed::Keep(1)), (1, Deed::Keep(0))];

const NEW: &str = "cutroom journal 1\n-";

const STAGED: &str = "cutroom journal 1\n-Ab\n+Bb\n-";

const BOTH: &str = "cutroom journal 1\n+Ab\n+Bb\n-";

const ROWS: [Row; 12] = [
    // the lines of both entries are put by one append
    Row {
        failing: &[],
        script: TWO,
        answers: &[None, None, None, None],
        calls: "s..wswsws",
        bytes: BOTH,
        lines: "Ab/Bb/",
    },
    Row {
        failing: &[],
        script: TURNS,
        answers: &[None, None, None, None],
        calls: "s..wswswswsws",
        bytes: BOTH,
        lines: "Ab/Bb/",
    },
    // who comes next takes up what is pending
    Row {
        failing: &[6],
        script: TWO,
        answers: &[None, None, DISK, None],
        calls: "s..wsWwsws",
        bytes: BOTH,
        lines: "Ab/Bb/",
    },
    Row {
        failing: &[7],
        script: TWO,
        answers: &[None, None, DISK, None],
        calls: "s..wsw.wsws",
        bytes: BOTH,
        lines: "Ab/Bb/",
    },
    Row {
        failing: &[8],
        script: TWO,
        answers: &[None, None, DISK, None],
        calls: "s..wswsWws",
        bytes: BOTH,
        lines: "Ab/Bb/",
    },
    Row {
        failing: &[9],
        script: TWO,
        answers: &[None, None, DISK, None],
        calls: "s..wswsw.ws",
        bytes: BOTH,
        lines: "Ab/Bb/",
    },
    // and then what the room has besides
    Row {
        failing: &[6],
        script: TURNS,
        answers: &[None, DISK, None, None],
        calls: "s..wsWwswswsws",
        bytes: BOTH,
        lines: "Ab/Bb/",
    },
    // after a fault the file has all lines or none
    Row {
        failing: &[6],
        script: EDITS,
        answers: &[None, None, DISK],
        calls: "s..wsW",
        bytes: NEW,
        lines: "",
    },
    Row {
        failing: &[7],
        script: EDITS,
        answers: &[None, None, DISK],
        calls: "s..wsw.",
        bytes: STAGED,
        lines: "",
    },
    Row {
        failing: &[8],
        script: EDITS,
        answers: &[None, None, DISK],
        calls: "s..wswsW",
        bytes: STAGED,
        lines: "",
    },
    Row {
        failing: &[9],
        script: EDITS,
        answers: &[None, None, DISK],
        calls: "s..wswsw.",
        bytes: BOTH,
        lines: "Ab/Bb/",
    },
    Row {
        failing: &[],
        script: AHEAD,
        answers: &[MEMORY, None],
        calls: "s..ws",
        bytes: NEW,
        lines: "",
    },
];

#[test]
fn the_file_is_brought_up_to_a_point_whatever_fails(rt: HostRuntime) -> Result<(), AllocError> {
    for row in ROWS {
        assert!(rt;
            comes_to(&rt, rt.alloc(), &row)?,
            "{} {:?}",
            row.calls,
            row.failing
        );
    }
    Ok(())
}

// Edits of one station, and the calls by which their lines come into the file.
const BATCHES: [(u32, &str); 4] = [
    (0, "s..ws"),
    (1, "s..wswsws"),
    (1_024, "s..wswsws"),
    // of 4,114 bytes the file is no small one, and gets zeros before the next append
    (1_025, "s..wswswswswsws"),
];

// Whether a station's edits come into the file by these calls.
fn are_put_by<R: Wait>(rt: &R, alloc: Global, count: u32, calls: &str) -> Result<bool, AllocError> {
    let script = [(0, Deed::Edit(count)), (0, Deed::Keep(count))];
    let Some((answers, disk)) = answered(rt, alloc, &[], &script) else {
        return Ok(false);
    };
    let Some(file) = disk.tape() else {
        return Ok(false);
    };
    let all = !answers.contains(&DISK) && !answers.contains(&MEMORY);
    Ok(all && has_called(alloc, file, calls)?)
}

#[test]
fn at_most_1024_lines_are_put_at_once(rt: HostRuntime) -> Result<(), AllocError> {
    for (count, calls) in BATCHES {
        assert!(rt; are_put_by(&rt, rt.alloc(), count, calls)?, "{count}");
    }
    Ok(())
}

// Edits past a first append, and two takings that are to bring the last of them into the file.
const PAST_ONE: &[(u32, Deed)] = &[
    (0, Deed::Edit(1_025)),
    (0, Deed::Keep(1_024)),
    (0, Deed::Keep(1_025)),
    (0, Deed::Keep(1_025)),
];

#[test]
fn zeros_that_fail_are_told_and_not_put_again(rt: HostRuntime) -> Result<(), AllocError> {
    let alloc = rt.alloc();
    for (failing, calls) in [(10u32, "s..wswswsWwsws"), (11, "s..wswswsw.wsws")] {
        let Some((answers, disk)) = answered(&rt, alloc, &[failing], PAST_ONE) else {
            return Ok(());
        };
        assert!(rt;
            answers.as_slice() == [None, None, DISK, None].as_slice(),
            "{failing}"
        );
        let Some(file) = disk.tape() else {
            return Ok(());
        };
        assert!(rt; has_called(alloc, file, calls)?, "{failing}");
    }
    Ok(())
}
