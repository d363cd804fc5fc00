// What a crash may leave of a kept file, between any two calls, and what that opens as.
use crate::appends::{ONE, grown_in_memory};
use crate::images::{Torn, image, opened};
use crate::texts::opens_as;
use journal_file::OpenFault;
use room_disks::TapeFile;
use std::alloc::{AllocError, Global};

// Whether what a crash leaves after so many calls opens with these lines or with those, however far each write has
// come, up to so many bytes.
pub fn opens_with(
    alloc: Global,
    file: &TapeFile,
    calls: usize,
    most: usize,
    (one, other): (&str, &str),
) -> Result<bool, OpenFault> {
    for kept in 0..=most {
        for len in kept..=most {
            for (fill, is_cut) in [(b'+', true), (b'-', false), (b'\n', true), (b'x', false)] {
                let torn = Torn {
                    kept,
                    fill,
                    len,
                    is_cut,
                };
                let lines = opened(alloc, &image(alloc, file, calls, torn)?)?;
                if lines.as_slice() != one.as_bytes() && lines.as_slice() != other.as_bytes() {
                    return Ok(false);
                }
            }
        }
    }
    Ok(true)
}

// The lines after so many calls, of which this one writes the gate first and that one acknowledges the append.
fn lines_after(calls: usize, gate: usize, acknowledged: usize) -> (&'static str, &'static str) {
    if calls < gate {
        ("one/", "one/")
    } else if calls < acknowledged {
        ("one/", "one/two/")
    } else {
        ("one/two/", "one/two/")
    }
}

// Whether each image of a file that was opened and appended to opens so.
fn stands(
    alloc: Global,
    file: &TapeFile,
    gate: usize,
    acknowledged: usize,
) -> Result<bool, OpenFault> {
    for calls in 0..=file.calls().len() {
        let lines = lines_after(calls, gate, acknowledged);
        if !opens_with(alloc, file, calls, 6, lines)? {
            return Ok(false);
        }
    }
    Ok(true)
}

#[test]
fn a_crash_leaves_the_records_before_or_these_and_the_new_one(
    rt: HostRuntime,
) -> Result<(), OpenFault> {
    let alloc = rt.alloc();
    // failing calls, the call that writes the gate first, and the one that acknowledges the append
    let cases: [(&[u32], usize, usize); 8] = [
        (&[], 9, 10),
        (&[6], 99, 99),
        (&[7], 10, 11),
        (&[8], 11, 12),
        (&[9], 9, 11),
        (&[10], 9, 12),
        (&[8, 10], 99, 99),
        (&[10, 12], 9, 99),
    ];
    for (failing, gate, acknowledged) in cases {
        for left in [ONE, "cutroom journal 1\n+one\n-two\n+three\n-"] {
            let (_, disk) = grown_in_memory(alloc, left, failing, "two")?;
            let Some(file) = disk.tape() else {
                panic!(rt; "no tape");
            };
            assert!(rt; stands(alloc, file, gate, acknowledged)?, "{gate}");
        }
    }
    Ok(())
}

#[test]
fn a_crash_of_a_new_file_leaves_a_new_file(rt: HostRuntime) -> Result<(), OpenFault> {
    let alloc = rt.alloc();
    for left in ["", "cut", "no journal but 19 !"] {
        let (_, disk) = grown_in_memory(alloc, left, &[7], "two")?;
        let Some(file) = disk.tape() else {
            panic!(rt; "no tape");
        };
        for calls in 0..=7 {
            assert!(rt; opens_with(alloc, file, calls, 20, ("", ""))?, "{left}");
        }
    }
    Ok(())
}

#[test]
fn a_gate_is_open_where_a_crash_leaves_a_plus(rt: HostRuntime) -> Result<(), AllocError> {
    let alloc = rt.alloc();
    let (_, disk) = grown_in_memory(alloc, ONE, &[], "two")?;
    let Some(file) = disk.tape() else {
        panic!(rt; "no tape");
    };
    // calls, what is left of each write, what that opens as
    for (calls, kept, fill, len, lines) in [
        (7, 0usize, b'x', 0usize, "one/"),
        (7, 5, b'x', 5, "one/"),
        (7, 0, b'+', 5, "one/"),
        (8, 0, b'x', 5, "one/"),
        (9, 0, b'x', 0, "one/"),
        (9, 0, b'x', 1, "one/"),
        (9, 0, b'+', 1, "one/two/"),
        (9, 1, b'x', 1, "one/two/"),
        (10, 0, b'x', 1, "one/two/"),
    ] {
        let torn = Torn {
            kept,
            fill,
            len,
            is_cut: true,
        };
        let bytes = image(alloc, file, calls, torn)?;
        assert!(rt; opens_as(alloc, &bytes, Ok(lines)), "{calls}: {lines}");
    }
    Ok(())
}
