// Documents at their limits, and texts that are none.

use super::opened::text_of;
use super::short::written;
use super::{placed, reading, said};
use otio_json::WriteFault;
use std::alloc::Global;
use std::test::Fail;

// A document of one track with so many clips of one frame.
fn clips(alloc: Global, count: usize) -> Result<String, Fail> {
    let clip = written(alloc, "{@'Clip.1','source_range':(0;1)}")?;
    let mut text = written(alloc, "!")?;
    for number in 0..count {
        if number > 0 {
            text.push_str(",")?;
        }
        text.push_str(clip.as_str())?;
    }
    text.push_str(written(alloc, "?")?.as_str())?;
    Ok(text)
}

// What a document with so many clips comes to.
fn said_of_clips(alloc: Global, count: usize) -> Result<String, Fail> {
    let text = clips(alloc, count)?;
    Ok(said(alloc, text.as_bytes())?)
}

#[test]
fn a_track_has_at_most_65536_items(rt: HostRuntime) -> Result<(), Fail> {
    let alloc = rt.alloc();
    let most = said_of_clips(alloc, 65_536)?;
    assert_eq!(rt; most.as_str(), "opens");
    let track = written(alloc, "{@'Timeline.1','tracks':$")?.len();
    let wanted = placed(alloc, "O11", track)?;
    let more = said_of_clips(alloc, 65_537)?;
    assert_eq!(rt; more.as_str(), wanted.as_str());
    Ok(())
}

#[test]
fn texts_that_are_no_documents(rt: HostRuntime) -> Result<(), Fail> {
    let alloc = rt.alloc();
    let mut blanks = vec![in alloc; b' '; 33_554_432usize]?;
    let table: [(&[u8], &str); 4] = [
        (b"", "J1 0"),
        (b"{\"a\":\"\xff\"}", "J4 6"),
        (b"{\"\xe2\x82\"}", "J4 2"),
        (&blanks, "J1 33554432"),
    ];
    for (text, wanted) in table {
        let said = said(alloc, text)?;
        assert_eq!(rt; said.as_str(), wanted);
    }
    blanks.push(b' ')?;
    let said = said(alloc, &blanks)?;
    assert_eq!(rt; said.as_str(), "J5 0");
    Ok(())
}

// A document of one track with one clip, whose reel has a name of so many letters, and so many frames of it.
fn clip_of(alloc: Global, letters: usize, frames: &str) -> Result<Vec<u8>, Fail> {
    let mut text = Vec::from_slice(alloc, written(alloc, "!{@'Clip.1','name':'")?.as_bytes())?;
    text.extend_from_slice(&vec![in alloc; b'R'; letters]?)?;
    text.extend_from_slice(written(alloc, "','source_range':(0;")?.as_bytes())?;
    text.extend_from_slice(frames.as_bytes())?;
    text.extend_from_slice(written(alloc, ")}?")?.as_bytes())?;
    Ok(text)
}

// How many bytes are written of what that document opens; none where they would be too many.
fn written_length(alloc: Global, letters: usize, frames: &str) -> Result<Option<usize>, Fail> {
    let opening = reading(alloc, &clip_of(alloc, letters, frames)?)?;
    match text_of(alloc, &opening) {
        Ok(text) => Ok(Some(text.len())),
        Err(WriteFault::TooLarge) => Ok(None),
        Err(WriteFault::Memory) => Err(Fail::from("there is memory")),
    }
}

// A reel's name is written twice, and a tenfold of frames has one byte more.
#[test]
fn what_is_written_has_at_most_32_mebibytes(rt: HostRuntime) -> Result<(), Fail> {
    let table: [(usize, &str, Option<usize>); 3] = [
        (1, "10", Some(996)),
        (16_776_719, "10", Some(33_554_432)),
        (16_776_719, "100", None),
    ];
    for (letters, frames, wanted) in table {
        assert_eq!(rt;
            written_length(rt.alloc(), letters, frames)?,
            wanted,
            "{letters} {frames}"
        );
    }
    Ok(())
}

#[test]
fn a_document_may_have_32_mebibytes(rt: HostRuntime) -> Result<(), Fail> {
    let alloc = rt.alloc();
    let mut text = clip_of(alloc, 17_000_000, "10")?;
    let blanks = 33_554_432usize.saturating_sub(text.len());
    text.extend_from_slice(&vec![in alloc; b' '; blanks]?)?;
    assert_eq!(rt; text.len(), 33_554_432);
    let most = said(alloc, &text)?;
    assert_eq!(rt; most.as_str(), "opens");
    text.push(b' ')?;
    let more = said(alloc, &text)?;
    assert_eq!(rt; more.as_str(), "J5 0");
    Ok(())
}
