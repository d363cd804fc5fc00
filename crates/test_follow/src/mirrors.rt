// Streams that are followed to their end.
use crate::calling::{Failing, NONE, follows_so};
use command_files::Status;
use std::alloc::Global;
use std::test::Fail;

/// The cut of the document.
const OPENED: &str = "\
point 0
track 0 0 @0 3600 48 mark 1 2 1 @1 100 24
track 1 dark 60 0 @2 0 6
track 2 0 @0 3600 72
track 3 dark 48 0 @1 100 24
";

/// After one clip was cut in two.
const CUT: &str = "\
point 1
track 0 0 @0 3600 48 mark 1 2 1 @1 100 24
track 1 dark 60 0 @2 0 6
track 2 0 @0 3600 72
track 3 dark 48 0 @1 100 2 1 @1 102 22
";

/// And put together again.
const BACK: &str = "\
point 2
track 0 0 @0 3600 48 mark 1 2 1 @1 100 24
track 1 dark 60 0 @2 0 6
track 2 0 @0 3600 72
track 3 dark 48 0 @1 100 24
";

/// Streams, and what they come to.
const STREAMS: [(&str, &str); 9] = [
    ("", OPENED),
    ("ok 0\npoint 4\nbad B1\n", OPENED),
    ("news 0 0\nnews 7 0\n", OPENED),
    ("news 0 1 0 1 slice 3 50\n", CUT),
    ("news 0 1 0 1 slice 3 50\nnews 0 1 0 1 slice 3 50\n", CUT),
    ("news 0 5 0 1 slice 3 50\nnews 5 5\n", CUT),
    ("seen 0\nnews 0 1 0 1 slice 3 50\r\nno 1 V3\n", CUT),
    ("news 0 1 0 1 slice 3 50\nnew 0", CUT),
    ("news 0 2 0 1 slice 3 50\nnews 1 2 0 2 back 3\n", BACK),
];

#[test]
fn streams_are_followed_in_any_pieces(rt: HostRuntime) -> Result<(), Fail> {
    let alloc = rt.alloc();
    for each in [1, 2, 7, 8192] {
        for (stream, text) in STREAMS {
            assert!(rt;
                follows_so(alloc, stream, each, &NONE, Status::Done, text)?,
                "{stream} by {each}"
            );
        }
    }
    Ok(())
}

/// The line of an entry, and then a line of so many bytes that begins so.
fn long_line(alloc: Global, lead: &str, length: usize, end: &str) -> Result<String, Fail> {
    let mut stream = String::from_str(alloc, "news 0 1 0 1 slice 3 50\n")?;
    stream.push_str(lead)?;
    for _ in lead.len()..length {
        stream.push_str(" ")?;
    }
    stream.push_str(end)?;
    Ok(stream)
}

// A line of more than 1,024 bytes is passed over, whatever it begins with, and whether or not it ends.
#[test]
fn long_lines_are_passed_over(rt: HostRuntime) -> Result<(), Fail> {
    let alloc = rt.alloc();
    for end in ["\n", ""] {
        let long = long_line(alloc, "news 1 1", 1025, end)?;
        assert!(rt; follows_so(alloc, &long, 8192, &NONE, Status::Done, CUT)?);
        let short = long_line(alloc, "news 1 1", 1024, end)?;
        assert!(rt;
            follows_so(
                alloc,
                &short,
                8192,
                &NONE,
                Status::Refused,
                "refused M1 2\n"
            )?
        );
    }
    Ok(())
}

// Each call failing.
#[test]
fn faults_have_their_status(rt: HostRuntime) -> Result<(), Fail> {
    let alloc = rt.alloc();
    let stream = "news 0 1 0 1 slice 3 50\n";
    let file = Failing {
        files: &[1],
        ..NONE
    };
    assert!(rt; follows_so(alloc, stream, 8, &file, Status::ReadFault, "")?);
    for read in [1, 2, 3, 4] {
        let input = Failing {
            reads: &[read],
            ..NONE
        };
        assert!(rt;
            follows_so(alloc, stream, 8, &input, Status::ReadFault, "")?,
            "{read}"
        );
    }
    let output = Failing {
        writes: &[1],
        ..NONE
    };
    assert!(rt; follows_so(alloc, stream, 8, &output, Status::WriteFault, "")?);
    assert!(rt; follows_so(alloc, "news\n", 8, &output, Status::WriteFault, "")?);
    Ok(())
}
