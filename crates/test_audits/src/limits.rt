// Sixteen stations, bytes of any kind, and files at their limits.
use crate::calling::{Record, audits_so, says_so, with_journal};
use audit_command::MAX_LINES;
use command_files::Status;
use std::test::Fail;

// A journal with an entry of each of sixteen stations.
const SIXTEEN: &str = "\
journal 16
0 1 slice 2 1
1 1 slice 2 2
2 1 slice 2 3
3 1 slice 2 4
4 1 slice 2 5
5 1 slice 2 6
6 1 slice 2 7
7 1 slice 2 8
8 1 slice 2 9
9 1 slice 2 10
10 1 slice 2 11
11 1 slice 2 12
12 1 slice 2 13
13 1 slice 2 14
14 1 slice 2 15
15 1 slice 2 16
";

// What each of them sent, and got.
const SESSIONS: [(&str, &str); 16] = [
    ("slice 2 1\n", "ok 0\n"),
    ("slice 2 2\n", "ok 1\n"),
    ("slice 2 3\n", "ok 2\n"),
    ("slice 2 4\n", "ok 3\n"),
    ("slice 2 5\n", "ok 4\n"),
    ("slice 2 6\n", "ok 5\n"),
    ("slice 2 7\n", "ok 6\n"),
    ("slice 2 8\n", "ok 7\n"),
    ("slice 2 9\n", "ok 8\n"),
    ("slice 2 10\n", "ok 9\n"),
    ("slice 2 11\n", "ok 10\n"),
    ("slice 2 12\n", "ok 11\n"),
    ("slice 2 13\n", "ok 12\n"),
    ("slice 2 14\n", "ok 13\n"),
    ("slice 2 15\n", "ok 14\n"),
    ("slice 2 16\n", "ok 15\n"),
];

#[test]
fn sixteen_stations_are_audited(rt: HostRuntime) -> Result<(), Fail> {
    let alloc = rt.alloc();
    let outside = with_journal(SIXTEEN.as_bytes());
    let mut records = Vec::new(alloc);
    for (sent, got) in SESSIONS {
        records.push(Record {
            sent: sent.as_bytes(),
            got: got.as_bytes(),
            is_cut: false,
        })?;
    }
    assert!(rt; says_so(alloc, &outside, &records, "legal 16 16")?);
    // The last of them was not recorded.
    let _ = records.pop();
    assert!(rt; says_so(alloc, &outside, &records, "A5 15 1")?);
    Ok(())
}

// A journal of one entry, which line 2 of station 0 asks for.
const JOURNAL: &[u8] = b"journal 1\n0 2 slice 2 1\n";

// What a station sent and got in a room of this journal, and what comes of it.
const SESSIONS_OF_BYTES: [(&[u8], &[u8], &str); 20] = [
    (b"\xff\xfe\nslice 2 1\n", b"bad B1\nok 0\n", "legal 1 2"),
    (b"\0\nslice 2 1\n", b"bad B1\nok 0\n", "legal 1 2"),
    (b"\xff\xfe\nslice 2 1\n", b"\xff\xfe\nok 0\n", "A1 0 1"),
    (b"\nslice 2 1\r\n", b"bad B2\nok 0\n", "legal 1 2"),
    (b"\nslice 2 1", b"bad B2\nok 0\r\n", "A1 0 2"),
    (b"\nslice 2 \xff\n", b"bad B2\nok 0\n", "A3 0 2"),
    (b"\nslice 2 1\n", b"\nok 0\n", "A1 0 1"),
    (b"point\nslice 2 1\n", b"point 0 \nok 0\n", "A1 0 1"),
    (b"point\nslice 2 1\n", b"point 00\nok 0\n", "A1 0 1"),
    (b"point\nslice 2 1\n", b"point\nok 0\n", "A1 0 1"),
    (b"point\nslice 2 1\n", b"ok 0\nok 0\n", "A3 0 1"),
    (b"point\nslice 2 1\n", b"point 0\nok 4294967296\n", "A1 0 2"),
    (b"point\nslice 2 1\n", b"point 0\nok 4294967295\n", "A3 0 2"),
    (b"view 2 0 1\nslice 2 1\n", b"memory\nok 0\n", "legal 1 2"),
    (b"link x\nslice 2 1\n", b"memory\nok 0\n", "legal 1 2"),
    (b"point\nslice 2 1\n", b"memory\nok 0\n", "A1 0 1"),
    (b"point\nslice 2 1\n", b"point 0\nmemory\n", "A1 0 2"),
    (b"otio 2\nslice 2 1\n", b"no 0 V3\nok 0\n", "legal 1 2"),
    (b"otio 1\nslice 2 1\n", b"no 1 V3\nok 0\n", "A1 0 1"),
    (b"news 1\nslice 2 1\n", b"news 1 1\nok 0\n", "A2 0 2"),
];

#[test]
fn records_are_bytes_of_any_kind(rt: HostRuntime) -> Result<(), Fail> {
    let alloc = rt.alloc();
    for (sent, got, told) in SESSIONS_OF_BYTES {
        let record = Record {
            sent,
            got,
            is_cut: false,
        };
        assert!(rt;
            says_so(alloc, &with_journal(JOURNAL), &[record], told)?,
            "{got:?}"
        );
    }
    Ok(())
}

// A line that is too long is a line, of as many bytes as a session reads.
#[test]
fn lines_have_64_mebibytes(rt: HostRuntime) -> Result<(), Fail> {
    let alloc = rt.alloc();
    let outside = with_journal(b"journal 0\n");
    let most = vec![in alloc; b'x'; MAX_LINES as usize]?;
    let record = Record {
        sent: &most,
        got: b"bad B5\n",
        is_cut: false,
    };
    assert!(rt; says_so(alloc, &outside, &[record], "legal 0 1")?);
    let more = vec![in alloc; b'x'; MAX_LINES as usize + 1]?;
    let record = Record {
        sent: &more,
        got: b"bad B5\n",
        is_cut: false,
    };
    assert!(rt; audits_so(alloc, &outside, &[record], Status::TooMuchInput, "")?);
    Ok(())
}

#[test]
fn a_reply_may_have_32_mebibytes(rt: HostRuntime) -> Result<(), Fail> {
    let alloc = rt.alloc();
    let mut got = vec![in alloc; b'x'; 32 << 20]?;
    got.push(b'\n')?;
    let record = Record {
        sent: b"otio 0\n",
        got: &got,
        is_cut: false,
    };
    assert!(rt; says_so(alloc, &with_journal(b"journal 0\n"), &[record], "A1 0 1")?);
    Ok(())
}
