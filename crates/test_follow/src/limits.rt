// Streams at the limits: of the entries, and of the bytes.
use crate::calling::{NONE, follows_so};
use command_files::Status;
use std::alloc::Global;
use std::test::Fail;

/// The most entries that a room does.
const MOST_ENTRIES: u32 = 100_000;

/// The most bytes of a stream.
const MOST_BYTES: usize = 64 << 20;

/// What the entries come to: the last of them is the item with their count as its number.
const AFTER_ALL: &str = "\
point 100000
track 0 0 @0 3600 48 mark 1 2 1 @1 100 24
track 1 dark 60 0 @2 0 6
track 2 100000 @0 3600 5 0 @0 3605 67
track 3 dark 48 0 @1 100 24
";

/// The cut of the document.
const OPENED: &str = "\
point 0
track 0 0 @0 3600 48 mark 1 2 1 @1 100 24
track 1 dark 60 0 @2 0 6
track 2 0 @0 3600 72
track 3 dark 48 0 @1 100 24
";

/// The news of so many entries, each an edit of the same place.
fn news_of(alloc: Global, count: u32) -> Result<String, Fail> {
    let mut stream = String::new(alloc);
    for place in 0..count {
        let line = place.saturating_add(1);
        let news = format!(in alloc;
            "news {} {} 0 {} overwrite 2 0 @0 3600 5\n",
            place, line, line
        )?;
        stream.push_str(&news)?;
    }
    Ok(stream)
}

/// Replies of another kind, with an empty line after them.
const REPLIES: &str = "bad B1\nbad B1\nbad B1\nbad B1\nbad B1\nbad B1\nbad B1\nbad B1\nbad B1\n\n";

/// How many bytes they have.
const REPLIES_BYTES: usize = 64;

/// A stream of so many bytes that has no news in it.
fn replies(alloc: Global, count: usize) -> Result<String, Fail> {
    let mut stream = String::new(alloc);
    for _ in 0..count / REPLIES_BYTES {
        stream.push_str(REPLIES)?;
    }
    for _ in 0..count % REPLIES_BYTES {
        stream.push_str("\n")?;
    }
    Ok(stream)
}

#[test]
fn as_many_entries_as_a_room_does_are_followed(rt: HostRuntime) -> Result<(), Fail> {
    let alloc = rt.alloc();
    let stream = news_of(alloc, MOST_ENTRIES)?;
    assert!(rt; follows_so(alloc, &stream, 8192, &NONE, Status::Done, AFTER_ALL)?);
    Ok(())
}

#[test]
fn one_entry_more_is_refused(rt: HostRuntime) -> Result<(), Fail> {
    let alloc = rt.alloc();
    let stream = news_of(alloc, MOST_ENTRIES.saturating_add(1))?;
    assert!(rt;
        follows_so(
            alloc,
            &stream,
            8192,
            &NONE,
            Status::Refused,
            "refused M5 100000\n"
        )?
    );
    Ok(())
}

#[test]
fn a_stream_has_64_mebibytes(rt: HostRuntime) -> Result<(), Fail> {
    let alloc = rt.alloc();
    let most = replies(alloc, MOST_BYTES)?;
    assert!(rt; follows_so(alloc, &most, 8192, &NONE, Status::Done, OPENED)?);
    let more = replies(alloc, MOST_BYTES.saturating_add(1))?;
    assert!(rt; follows_so(alloc, &more, 8192, &NONE, Status::TooMuchInput, "")?);
    Ok(())
}
