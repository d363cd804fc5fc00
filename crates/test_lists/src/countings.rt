// Lists that are counted otherwise than the documents that are made of them.
use list_commands::event_counted_otherwise;
use room_files::MemFiles;
use std::alloc::Global;
use std::test::Fail;
use timecode12::{Counting, SequenceRate};

// An event of a second, and one of the second after it, at a counting with drop-frame or without it.
const FIRST: &str = "001 A V C 00:00:00:00 00:00:01:00 01:00:00:00 01:00:01:00\n";

const SECOND: &str = "002 A V C 00:00:01:00 00:00:02:00 01:00:01:00 01:00:02:00\n";

const DROP: &str = "FCM: DROP FRAME\n";

const PLAIN: &str = "FCM: NON-DROP FRAME\n";

// The line of the first event of a list of these texts that is counted otherwise than so; the file is read unless the first
// read fails.
fn first_of(alloc: Global, texts: &[&str], drop: bool, fails: &[u32]) -> Result<Option<u32>, Fail> {
    let counting = Counting::new(SequenceRate::F2997, drop).ok_or("counting")?;
    let mut bytes = Vec::new(alloc);
    for text in texts {
        bytes.extend_from_slice(text.as_bytes())?;
    }
    let mut files = MemFiles::new(alloc, fails.to_vec(alloc)?);
    files.put("cut.edl", bytes.as_slice())?;
    Ok(event_counted_otherwise(alloc, &mut files, "cut.edl", &counting))
}

#[test]
fn an_event_that_is_counted_otherwise_is_found(rt: HostRuntime) -> Result<(), Fail> {
    let alloc = rt.alloc();
    // the list; the line where the document is counted without drop-frame, and where it is counted with it
    for (texts, at_ndf, at_drop) in [
        ([FIRST, SECOND].as_slice(), None, Some(1)),
        (&["TITLE: CUT\n", PLAIN, FIRST], None, Some(3)),
        (&["TITLE: CUT\n", DROP, "\n", FIRST, SECOND], Some(4), None),
        // the last line before an event counts
        (&[PLAIN, DROP, FIRST], Some(3), None),
        (&[DROP, FIRST, PLAIN, SECOND], Some(2), Some(4)),
        // notes are no events
        (&["* FCM: DROP FRAME\n", FIRST], None, Some(2)),
        (&[DROP, "* 002 A V C\n"], None, None),
        (&[], None, None),
    ] {
        let found = (
            first_of(alloc, texts, false, &[])?,
            first_of(alloc, texts, true, &[])?,
        );
        assert!(rt; found == (at_ndf, at_drop), "{texts:?}");
    }
    assert!(rt; first_of(alloc, &[FIRST], true, &[1])?.is_none());
    Ok(())
}
