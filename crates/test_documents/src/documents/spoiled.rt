// Documents with one byte that does not belong there.

use super::opened::OPENED;
use super::refused;
use super::short::written;
use otio_json::{DocCode, DocFault};
use std::alloc::Global;
use std::test::Fail;

// The text with this byte in the place of the one that stands there.
fn spoiled(alloc: Global, text: &[u8], at: usize, byte: u8) -> Result<Vec<u8>, Fail> {
    let (front, back) = text.split_at(at.min(text.len()));
    let mut out = front.to_vec(alloc)?;
    out.push(byte)?;
    match back.split_first() {
        Some((_, rest)) => out.extend_from_slice(rest)?,
        None => {}
    }
    Ok(out)
}

// Whether the text is refused by this code at this place.
fn is_refused_so(alloc: Global, text: &[u8], wanted: DocCode, place: usize) -> bool {
    match refused(alloc, text) {
        Some(DocFault::Refused { code, at }) => code == wanted && at as usize == place,
        _ => false,
    }
}

// The first place, if any, where this byte is not refused just there: within quotes by this code, and else by J1.
fn first_unseen(
    alloc: Global,
    text: &[u8],
    byte: u8,
    in_quotes: DocCode,
) -> Result<Option<usize>, Fail> {
    let mut is_quoted = false;
    for (at, old) in text.iter().enumerate() {
        let wanted = if is_quoted { in_quotes } else { DocCode::J1 };
        let text = spoiled(alloc, text, at, byte)?;
        if !is_refused_so(alloc, &text, wanted, at) {
            return Ok(Some(at));
        }
        is_quoted = is_quoted != (*old == b'"');
    }
    Ok(None)
}

// Bytes that stand nowhere in a document: control characters, and bytes that are no character with what follows.
#[test]
fn each_byte_of_a_document_may_be_spoiled(rt: HostRuntime) -> Result<(), Fail> {
    let alloc = rt.alloc();
    let row = OPENED.lines().nth(1).ok_or("a row")?;
    let (short, _) = row.split_once(" opens ").ok_or("a document")?;
    let text = written(alloc, short)?;
    for (byte, in_quotes) in [
        (0x00u8, DocCode::J1),
        (0xc3, DocCode::J4),
        (0xff, DocCode::J4),
    ] {
        let unseen = first_unseen(alloc, text.as_bytes(), byte, in_quotes)?;
        assert_eq!(rt; unseen, None, "{byte}");
    }
    Ok(())
}
