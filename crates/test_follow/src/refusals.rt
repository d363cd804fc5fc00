// Streams that are refused.
use crate::calling::{NONE, follows_so};
use command_files::Status;
use std::test::Fail;

/// Streams, and the line that says why each is refused.
const REFUSED: [(&str, &str); 22] = [
    ("news", "refused M1 1\n"),
    ("ok 0\nnews 0 0", "refused M1 2\n"),
    ("news\n", "refused M1 1\n"),
    (" news 0 0\n", "refused M1 1\n"),
    ("news 0\n", "refused M1 1\n"),
    ("news 0 0 \n", "refused M1 1\n"),
    ("news 00 0\n", "refused M1 1\n"),
    ("news 0 4294967296\n", "refused M1 1\n"),
    ("news 0 1\n", "refused M1 1\n"),
    ("news 0 0 0 1 slice 3 50\n", "refused M1 1\n"),
    ("news 0 1 16 1 slice 3 50\n", "refused M1 1\n"),
    ("news 0 1 0 1 slice  3 50\n", "refused M1 1\n"),
    ("news 0 1 0 1 view 3 0 1\n", "refused M1 1\n"),
    ("bad B1\n\nnews x 0\n", "refused M1 3\n"),
    ("news 1 2 0 1 slice 3 50\n", "refused M2 0\n"),
    (
        "news 0 1 0 1 slice 3 50\nnews 2 3 0 2 slice 3 51\n",
        "refused M2 1\n",
    ),
    ("news 0 1 0 1 slice 9 50\n", "refused M3 0\n"),
    ("news 0 1 0 1 back 3\n", "refused M3 0\n"),
    (
        "news 0 1 0 1 slice 3 50\nnews 0 1 0 1 slice 3 51\n",
        "refused M4 0\n",
    ),
    (
        "news 0 1 0 1 slice 3 50\nnews 0 1 1 1 slice 3 50\n",
        "refused M4 0\n",
    ),
    (
        "news 0 1 0 2 slice 3 50\nnews 1 2 0 2 slice 3 51\n",
        "refused M6 1\n",
    ),
    // The first line that is refused is told, and none after it.
    ("news 3 4 0 1 slice 3 50\nnews\n", "refused M2 0\n"),
];

#[test]
fn the_first_refusal_is_told(rt: HostRuntime) -> Result<(), Fail> {
    let alloc = rt.alloc();
    for each in [1, 5, 8192] {
        for (stream, text) in REFUSED {
            assert!(rt;
                follows_so(alloc, stream, each, &NONE, Status::Refused, text)?,
                "{stream} by {each}"
            );
        }
    }
    Ok(())
}
