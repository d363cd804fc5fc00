// Kept files that are refused, each with its line, and left as they are.
use crate::rooms::{ALONE, Storing, TWO, stored};
use std::test::Fail;

/// The words, a file, and the line of its refusal.
struct Refusal {
    words: &'static str,
    file: &'static str,
    line: &'static str,
}

const REFUSALS: [Refusal; 16] = [
    // a file that breaks off, one that ends without a gate, and one that begins otherwise
    Refusal {
        words: ALONE,
        file: "cutroom journal 1\n+0 1 sli",
        line: "refused K1 18\n",
    },
    Refusal {
        words: ALONE,
        file: "cutroom journal 1\n+0 1 slice 0 10\n",
        line: "refused K1 34\n",
    },
    Refusal {
        words: ALONE,
        file: "cutroom journal 2\n-0",
        line: "refused K1 0\n",
    },
    // no entry's line, or another spelling of one
    Refusal {
        words: ALONE,
        file: "cutroom journal 1\n+0 1 slices 0 10\n-",
        line: "refused H1 1\n",
    },
    Refusal {
        words: ALONE,
        file: "cutroom journal 1\n+0 1 slice 0 10\n+0 2 slice  0 20\n-",
        line: "refused H1 2\n",
    },
    Refusal {
        words: ALONE,
        file: "cutroom journal 1\n+16 1 slice 0 10\n-",
        line: "refused H1 1\n",
    },
    // a number that does not rise, and 0
    Refusal {
        words: ALONE,
        file: "cutroom journal 1\n+0 1 slice 0 10\n+0 1 slice 0 20\n-",
        line: "refused H4 2\n",
    },
    Refusal {
        words: ALONE,
        file: "cutroom journal 1\n+0 0 slice 0 10\n-",
        line: "refused H4 1\n",
    },
    // a station that is not in the room
    Refusal {
        words: ALONE,
        file: "cutroom journal 1\n+1 1 slice 0 10\n-",
        line: "refused H6 1\n",
    },
    Refusal {
        words: TWO,
        file: "cutroom journal 1\n+1 1 slice 0 10\n+2 1 slice 0 20\n-",
        line: "refused H6 2\n",
    },
    // one past the greatest number
    Refusal {
        words: ALONE,
        file: "cutroom journal 1\n+0 4000000001 slice 0 10\n-",
        line: "refused H7 1\n",
    },
    // the order of the codes at one record
    Refusal {
        words: ALONE,
        file: "cutroom journal 1\n+3 0 slice 0 10\n-",
        line: "refused H4 1\n",
    },
    Refusal {
        words: ALONE,
        file: "cutroom journal 1\n+3 4000000001 slice 0 10\n-",
        line: "refused H6 1\n",
    },
    // an entry that does not apply, by its place; that of a record comes before a fault of the next
    Refusal {
        words: ALONE,
        file: "cutroom journal 1\n+0 1 slice 0 10\n+0 2 remove 0 99\n-",
        line: "refused H3 1\n",
    },
    Refusal {
        words: ALONE,
        file: "cutroom journal 1\n+0 1 remove 0 99\n+what\n-",
        line: "refused H3 0\n",
    },
    Refusal {
        words: ALONE,
        file: "cutroom journal 1\n+what\n+0 1 remove 0 99\n-",
        line: "refused H1 1\n",
    },
];

#[test]
fn a_file_is_refused_by_its_first_fault(rt: HostRuntime) -> Result<(), Fail> {
    let alloc = rt.alloc();
    for refusal in &REFUSALS {
        let storing = Storing {
            file: refusal.file.as_bytes(),
            failing: &[],
            words: refusal.words,
            sent: &["slice 0 30\n", "slice 0 31\n"],
            writes: &[],
        };
        let ended = stored(&rt, alloc, &storing)?;
        assert!(rt; ended.status == 4, "{}: {}", refusal.file, ended.status);
        assert!(rt;
            ended.output.as_str() == refusal.line,
            "{}: {}",
            refusal.file,
            ended.output
        );
        assert!(rt;
            ended.bytes() == refusal.file.as_bytes(),
            "{}",
            refusal.file
        );
        for taken in &ended.taken {
            assert!(rt; taken.as_str() == "", "{taken}");
        }
    }
    Ok(())
}

// A file of so many records that are no entries, and its refusal.
#[test]
fn a_file_of_too_many_records_is_refused_before_they_are_read(rt: HostRuntime) -> Result<(), Fail> {
    let alloc = rt.alloc();
    for (count, line) in [
        (100_000u32, "refused H1 1\n"),
        (100_001, "refused H8 100001\n"),
    ] {
        let mut file = Vec::from_slice(alloc, b"cutroom journal 1\n")?;
        for _ in 0..count {
            file.extend_from_slice(b"+a\n")?;
        }
        file.push(b'-')?;
        let storing = Storing {
            file: &file,
            failing: &[],
            words: ALONE,
            sent: &[""],
            writes: &[],
        };
        let ended = stored(&rt, alloc, &storing)?;
        assert!(rt; ended.status == 4, "{count}");
        assert!(rt; ended.output.as_str() == line, "{count}: {}", ended.output);
    }
    Ok(())
}

#[test]
fn a_refused_document_leaves_the_disk_alone(rt: HostRuntime) -> Result<(), Fail> {
    let alloc = rt.alloc();
    let storing = Storing {
        file: b"",
        failing: &[1],
        words: "store none 24 ndf 1 hall kept",
        sent: &[""],
        writes: &[],
    };
    let ended = stored(&rt, alloc, &storing)?;
    assert!(rt; ended.status == 1);
    let tape = ended.disk.tape().ok_or("a tape")?;
    assert!(rt; tape.calls().is_empty());
    Ok(())
}
