// A track with the most items and gaps, and with one more.
use crate::lists::opened;
use list_import::{ImportCode, ImportFault};
use std::alloc::{AllocError, Global};
use std::test::Fail;

// One frame of a reel on a channel, at a record frame of the first hour, at 24 frames a second.
fn put_event(text: &mut Vec<u8>, channel: &str, at: u32) -> Result<(), AllocError> {
    text.extend_from_slice(b"1 R ")?;
    text.extend_from_slice(channel.as_bytes())?;
    text.extend_from_slice(b" C 00:00:00:00 00:00:00:01")?;
    put_label(text, at % 86_400)?;
    put_label(text, at % 86_400 + 1)?;
    text.push(b'\n')?;
    Ok(())
}

// Adds the label of a frame at 24 frames a second, after a space.
fn put_label(text: &mut Vec<u8>, at: u32) -> Result<(), AllocError> {
    text.extend_from_slice(b" 00")?;
    put_two(text, at / 1_440 % 60)?;
    put_two(text, at / 24 % 60)?;
    put_two(text, at % 24)
}

// Adds a colon and two digits.
fn put_two(text: &mut Vec<u8>, n: u32) -> Result<(), AllocError> {
    text.push(b':')?;
    text.push(b'0' + (n / 10 % 10) as u8)?;
    text.push(b'0' + (n % 10) as u8)?;
    Ok(())
}

// Events of one frame with one dark frame between them.
fn events(alloc: Global, channel: &str, count: u32) -> Result<Vec<u8>, AllocError> {
    let mut text = Vec::new(alloc);
    for n in 0..count.min(40_000) {
        put_event(&mut text, channel, 2 * n)?;
    }
    Ok(text)
}

#[test]
fn a_track_has_65536_items_and_gaps_at_most(rt: HostRuntime) -> Result<(), Fail> {
    let mut list = events(rt.alloc(), "A2", 32_768)?;
    put_event(&mut list, "A2", 65_535)?;
    let opening = opened(rt.alloc(), list.as_slice(), false)?;
    assert_eq!(rt; opening.tracks.as_slice().len(), 3);
    put_event(&mut list, "A2", 65_536)?;
    let fault = opened(rt.alloc(), list.as_slice(), false).err();
    let full = ImportFault::Refused {
        code: ImportCode::I4,
        number: 2,
    };
    assert_eq!(rt; fault, Some(full));
    Ok(())
}
