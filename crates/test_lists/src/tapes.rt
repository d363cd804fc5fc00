// Tapes of lists.
use crate::calling::{played, plays_so};
use command_files::Status;
use std::test::Fail;
use test_cut::{LIST, TAPE};

#[test]
fn a_list_is_played(rt: HostRuntime) -> Result<(), Fail> {
    let alloc = rt.alloc();
    assert!(rt; plays_so(alloc, LIST, &[], &[], Status::Done, TAPE)?);
    assert!(rt; plays_so(alloc, "", &[], &[1], Status::Done, "")?);
    assert!(rt; plays_so(alloc, LIST, &[1], &[], Status::ReadFault, "")?);
    assert!(rt; plays_so(alloc, LIST, &[], &[1], Status::WriteFault, "")?);
    Ok(())
}

// A list, and the line of its first fault.
#[test]
fn a_list_is_refused(rt: HostRuntime) -> Result<(), Fail> {
    let alloc = rt.alloc();
    for (list, text) in [
        ("FCM: DROP FRAME\n", "refused P12 1\n"),
        ("\nAUD\n", "refused P2 2\n"),
        (
            "001 A V C 00:00:00:00 00:00:00:02 00:00:00:00 00:00:00:02\n\
             002 B A C 00:00:00:00 00:00:00:02 00:00:00:00 00:00:00:02\n\
             003 C B C 00:00:00:00 00:00:00:02 00:00:00:01 00:00:00:03\n",
            "refused P10 3 1\n",
        ),
    ] {
        assert!(rt;
            plays_so(alloc, list, &[], &[], Status::Refused, text)?,
            "{text}"
        );
        assert!(rt;
            plays_so(alloc, list, &[], &[1], Status::WriteFault, "")?,
            "{text}"
        );
    }
    Ok(())
}

// What comes of the front of a list up to a byte within its line: what comes of the lines before, or a refusal of this one.
fn is_cut_so(got: &(Status, Vec<u8>), before: &(Status, Vec<u8>), line: u8) -> bool {
    let is_refused = got.0 == Status::Refused && got.1.ends_with(&[b' ', line, b'\n']);
    is_refused || (got.0 == before.0 && got.1 == before.1)
}

// Where it lacks its line feed alone, a line says what it says with it.
#[test]
fn a_list_may_be_cut_at_any_byte(rt: HostRuntime) -> Result<(), Fail> {
    let alloc = rt.alloc();
    let bytes = LIST.as_bytes();
    let mut before = played(alloc, b"")?;
    let mut line = b'1';
    for cut in 0..bytes.len() {
        let got = played(alloc, &bytes[..cut])?;
        if bytes[cut] == b'\n' {
            before = played(alloc, &bytes[..cut + 1])?;
            line = line.saturating_add(1);
            assert!(rt; got.0 == before.0 && got.1 == before.1, "{cut}");
        } else {
            assert!(rt; is_cut_so(&got, &before, line), "{cut}");
        }
    }
    assert!(rt; before.0 == Status::Done && before.1.as_slice() == TAPE.as_bytes());
    Ok(())
}
