// Files at their limits, and of a byte more; texts that are long.
use crate::calling::{Outside, imported, played, with_journal};
use crate::lists::as_is_so;
use command_files::Status;
use std::alloc::Global;
use std::test::Fail;
use test_cut::LIST;

#[test]
fn a_list_of_32_mib_is_played(rt: HostRuntime) -> Result<(), Fail> {
    let alloc = rt.alloc();
    let (status, tape) = played(alloc, &vec![in alloc; b'*'; 33_554_432usize]?)?;
    assert!(rt; status == Status::Done && tape.is_empty());
    Ok(())
}

#[test]
fn a_list_of_32_mib_is_opened(rt: HostRuntime) -> Result<(), Fail> {
    let alloc = rt.alloc();
    let (status, document) = imported(alloc, &vec![in alloc; b'*'; 33_554_432usize]?)?;
    assert!(rt;
        status == Status::Done && document.starts_with(b"{\"OTIO_SCHEMA\":\"Timeline.1\",")
    );
    Ok(())
}

#[test]
fn a_list_has_no_byte_more(rt: HostRuntime) -> Result<(), Fail> {
    let alloc = rt.alloc();
    let list = vec![in alloc; b'*'; 33_554_433usize]?;
    for (status, text) in [played(alloc, &list)?, imported(alloc, &list)?] {
        assert!(rt; status == Status::Refused && text.as_slice() == b"refused P13 0\n".as_slice());
    }
    Ok(())
}

// A journal's file has 64 MiB at most, whatever stands in it.
#[test]
fn a_journal_has_no_byte_more(rt: HostRuntime) -> Result<(), Fail> {
    let alloc = rt.alloc();
    let journal = vec![in alloc; b'x'; 67_108_865usize]?;
    let outside = Outside {
        journal: &journal,
        ..with_journal("")
    };
    assert!(rt; as_is_so(alloc, &outside, 0, Status::Refused, "refused H1 0\n")?);
    Ok(())
}

// Adds two digits.
fn put_two(text: &mut Vec<u8>, n: u32) -> Result<(), Fail> {
    text.push(b'0' + (n / 10 % 10) as u8)?;
    text.push(b'0' + (n % 10) as u8)?;
    Ok(())
}

// Six digits.
fn put_number(text: &mut Vec<u8>, n: u32) -> Result<(), Fail> {
    put_two(text, n / 10_000)?;
    put_two(text, n / 100)?;
    put_two(text, n)
}

// 100,000 entries, each of which puts the first frame of the worked cut over itself.
fn full_journal(alloc: Global) -> Result<Vec<u8>, Fail> {
    let mut text = Vec::new(alloc);
    text.extend_from_slice(b"journal 100000\n")?;
    for entry in 100_000..200_000u32 {
        text.extend_from_slice(b"0 ")?;
        put_number(&mut text, entry)?;
        text.extend_from_slice(b" overwrite 0 0 @0 3600 1\n")?;
    }
    Ok(text)
}

#[test]
fn a_full_journal_is_listed(rt: HostRuntime) -> Result<(), Fail> {
    let alloc = rt.alloc();
    let journal = full_journal(alloc)?;
    let outside = Outside {
        journal: &journal,
        ..with_journal("")
    };
    assert!(rt; as_is_so(alloc, &outside, 100_000, Status::Done, LIST)?);
    Ok(())
}

// The label of a frame of the second hour, at 24 frames a second.
fn put_label(text: &mut Vec<u8>, at: u32) -> Result<(), Fail> {
    text.extend_from_slice(b" 01:")?;
    put_two(text, at / 1_440 % 60)?;
    text.push(b':')?;
    put_two(text, at / 24 % 60)?;
    text.push(b':')?;
    put_two(text, at % 24)
}

// The event of one frame at a place of the second hour, and what a tape tells of it.
fn put_event(list: &mut Vec<u8>, tape: &mut Vec<u8>, at: u32) -> Result<(), Fail> {
    list.extend_from_slice(b"001 R V C 00:00:00:00 00:00:00:01")?;
    put_label(list, at)?;
    put_label(list, at.saturating_add(1))?;
    list.push(b'\n')?;
    tape.extend_from_slice(b"V ")?;
    put_number(tape, at)?;
    tape.extend_from_slice(b" 1 R 0\n")?;
    Ok(())
}

// 2,000 events with a dark frame after each.
#[test]
fn a_long_list_is_played_and_opened(rt: HostRuntime) -> Result<(), Fail> {
    let alloc = rt.alloc();
    let mut list = Vec::new(alloc);
    let mut tape = Vec::new(alloc);
    for event in 50_000..52_000u32 {
        put_event(&mut list, &mut tape, 2 * event)?;
    }
    let (status, text) = played(alloc, &list)?;
    assert!(rt; status == Status::Done && text.as_slice() == tape.as_slice());
    let (status, document) = imported(alloc, &list)?;
    assert!(rt; status == Status::Done);
    let document = String::from_utf8(document)?;
    let outside = Outside {
        document: document.as_str(),
        ..with_journal("journal 0\n")
    };
    let line = "refused L5 2000\n";
    assert!(rt; as_is_so(alloc, &outside, 0, Status::NoList, line)?);
    Ok(())
}
