// Runs of one station: its input in pieces, faults at each call, words and limits.
use room_files::MemFiles;
use room_ports::{MemSink, MemSource};
use std::alloc::Global;
use std::process::Abort;
use std::sync::Wait;
use std::test::Fail;
use std::thread::Threads;
use test_runs::{ended, run_over, words_in};

#[test]
fn lines_end_with_their_line_feed_or_the_input(rt: HostRuntime) -> Result<(), Fail> {
    let alloc = rt.alloc();
    let table = [
        ("", "journal 0\n"),
        ("point\r\npoint", "point 0\npoint 0\njournal 0\n"),
        ("point\r", "bad B1\njournal 0\n"),
        ("\r", "bad B1\njournal 0\n"),
    ];
    for (input, wanted) in table {
        let (status, output) = ended(&rt, alloc, "run 2 1", &[input.as_bytes()], &[], &[])?;
        assert_eq!(rt; status, 0, "{input:?}");
        assert_eq!(rt; output.as_slice(), wanted.as_bytes(), "{input:?}");
    }
    Ok(())
}

/// Two lines, the second without its line feed, and what they are answered.
const TWO_LINES: &str = "overwrite 0 10 @0 100 5\r\nview 0 0 15";

const TWO_REPLIES: &str = "\
ok 0 item 0
seen 1 dark 10 @0 100 5
journal 1
0 1 overwrite 0 10 @0 100 5
";

#[test]
fn pieces_make_no_difference(rt: HostRuntime) -> Result<(), Fail> {
    let alloc = rt.alloc();
    let text = TWO_LINES.as_bytes();
    for cut in 0..text.len() {
        let (front, back) = text.split_at(cut);
        let pieces: [&[u8]; 3] = [front, &[], back];
        let (status, output) = ended(&rt, alloc, "run 2 1", &pieces, &[], &[])?;
        assert_eq!(rt; status, 0, "cut at {cut}");
        assert_eq!(rt; output.as_slice(), TWO_REPLIES.as_bytes(), "cut at {cut}");
    }
    Ok(())
}

#[test]
fn bytes_alone_make_no_difference(rt: HostRuntime) -> Result<(), Fail> {
    let alloc = rt.alloc();
    let mut pieces: Vec<&[u8]> = Vec::new(alloc);
    for byte in TWO_LINES.as_bytes().chunks(1) {
        pieces.push(byte)?;
    }
    let (status, output) = ended(&rt, alloc, "run 2 1", &pieces, &[], &[])?;
    assert_eq!(rt; status, 0);
    assert_eq!(rt; output.as_slice(), TWO_REPLIES.as_bytes());
    Ok(())
}

#[test]
fn faults_end_the_run(rt: HostRuntime) -> Result<(), Fail> {
    let alloc = rt.alloc();
    let pieces: [&[u8]; 2] = ["overwrite 0 0 @0 0 1\npo".as_bytes(), "int\n".as_bytes()];
    let table = [
        (1u32, 9u32, 1u8, ""),
        (2, 9, 1, "ok 0 item 0\n"),
        (3, 9, 1, "ok 0 item 0\npoint 1\n"),
        (9, 1, 2, ""),
        (9, 2, 2, "ok 0 item 0\n"),
        (9, 3, 2, "ok 0 item 0\npoint 1\n"),
    ];
    for (read, write, status, wanted) in table {
        let (ended_with, output) = ended(&rt, alloc, "run 1 1", &pieces, &[read], &[write])?;
        assert_eq!(rt; ended_with, status, "read {read} write {write}");
        assert_eq!(rt;
            output.as_slice(),
            wanted.as_bytes(),
            "read {read} write {write}"
        );
    }
    let (status, output) = ended(&rt, alloc, "run", &pieces, &[], &[1])?;
    assert_eq!(rt; status, 2);
    assert_eq!(rt; output.len(), 0);
    Ok(())
}

/// Ten lines, each to be a piece of its own.
const TEN_LINES: &str = "\
overwrite 0 10 @0 100 5
view 0 0 15
overwrite 1 0 @0 0 2
overwrite 1 1 @0 9 9
jump
items 1
overwrite 0 0 @0 86396 5
point
overwrite 0 12 @0 7 1
items 0
";

/// The reply to each.
const TEN_REPLIES: &str = "\
ok 0 item 0
seen 1 dark 10 @0 100 5
ok 1 item 0
ok 2 item 1
bad B1
items 3 0 @0 0 1 1 @0 9 9
no 3 E5
point 3
ok 3 item 1
items 4 dark 10 0 @0 100 2 1 @0 7 1 2 @0 103 2
";

/// The journal that follows those ten replies.
const TEN_ENTRIES: &str = "\
journal 4
0 1 overwrite 0 10 @0 100 5
0 3 overwrite 1 0 @0 0 2
0 4 overwrite 1 1 @0 9 9
0 9 overwrite 0 12 @0 7 1
";

// Each call of reading and writing fails in its turn.
#[test]
fn each_call_may_fail(rt: HostRuntime) -> Result<(), Fail> {
    let alloc = rt.alloc();
    let mut lines: Vec<&[u8]> = Vec::new(alloc);
    for line in TEN_LINES.split_inclusive('\n') {
        lines.push(line.as_bytes())?;
    }
    let mut wanted = Vec::new(alloc);
    let mut call = 1u32;
    for reply in TEN_REPLIES.split_inclusive('\n') {
        let (read, before) = ended(&rt, alloc, "run 2 1", &lines, &[call], &[])?;
        assert_eq!(rt; read, 1, "read {call}");
        assert_eq!(rt; before.as_slice(), wanted.as_slice(), "read {call}");
        let (write, front) = ended(&rt, alloc, "run 2 1", &lines, &[], &[call])?;
        assert_eq!(rt; write, 2, "write {call}");
        assert_eq!(rt; front.as_slice(), wanted.as_slice(), "write {call}");
        wanted.extend_from_slice(reply.as_bytes())?;
        call = call.saturating_add(1);
    }
    let (write, front) = ended(&rt, alloc, "run 2 1", &lines, &[], &[call])?;
    assert_eq!(rt; write, 2, "the write of the journal's text");
    assert_eq!(rt; front.as_slice(), wanted.as_slice());
    wanted.extend_from_slice(TEN_ENTRIES.as_bytes())?;
    let (status, all) = ended(&rt, alloc, "run 2 1", &lines, &[12], &[12])?;
    assert_eq!(rt; status, 0);
    assert_eq!(rt; all.as_slice(), wanted.as_slice());
    Ok(())
}

/// Words that are no command, a row each; the first row has none.
const NO_COMMAND: &str = "
run
run 2
run 0 1
run 33 1
run 2 1000
run 2 -1
run 2\t 1
run 2 1 1
Run 2 1
serve cut 24 ndf 1 a
serve cut 24 ndf 0 a b
serve cut 24 ndf 17 a b
serve cut 24 drop 1 a b
serve cut 24 ndf 1 a b c
run cut 24 ndf 1 a b
";

/// Words of runs in a plain room.
const RUNS: &str = "\
run 1 0
run 17 1
run 32 999
run 02 1
run 2 000
";

// Each row of words ends with this status and answers so to `point`.
fn end_so<R: Threads + Wait + Sync + Abort>(
    rt: &R,
    alloc: Global,
    rows: &str,
    status: u8,
    wanted: &str,
) -> Result<(), Fail> {
    for row in rows.lines() {
        let (ended_with, output) = ended(rt, alloc, row, &["point\n".as_bytes()], &[], &[])?;
        assert_eq!(rt; ended_with, status, "{row:?}");
        assert_eq!(rt; output.as_slice(), wanted.as_bytes(), "{row:?}");
    }
    Ok(())
}

// A room of this many tracks is opened, also where nothing is sent to it.
#[test]
fn a_room_has_up_to_32_tracks(rt: HostRuntime) -> Result<(), Fail> {
    let alloc = rt.alloc();
    for row in ["run 1 1", "run 17 1", "run 32 1"] {
        let (status, output) = ended(&rt, alloc, row, &[], &[], &[])?;
        assert_eq!(rt; status, 0, "{row}");
        assert_eq!(rt; output.as_slice(), "journal 0\n".as_bytes(), "{row}");
    }
    let lines = "overwrite 31 0 @0 100 5\nview 31 0 5\nitems 32\n";
    let wanted = "ok 0 item 0\nseen 1 @0 100 5\nbad B4\njournal 1\n0 1 overwrite 31 0 @0 100 5\n";
    let (status, output) = ended(&rt, alloc, "run 32 1", &[lines.as_bytes()], &[], &[])?;
    assert_eq!(rt; status, 0);
    assert_eq!(rt; output.as_slice(), wanted.as_bytes());
    Ok(())
}

#[test]
fn words_are_a_run_or_refused(rt: HostRuntime) -> Result<(), Fail> {
    let alloc = rt.alloc();
    end_so(&rt, alloc, NO_COMMAND, 3, "refused words\n")?;
    end_so(&rt, alloc, "serve cut 24 ndf 16 a b", 1, "")?;
    end_so(&rt, alloc, RUNS, 0, "point 0\njournal 0\n")
}

#[test]
fn a_line_has_a_limit(rt: HostRuntime) -> Result<(), Fail> {
    let alloc = rt.alloc();
    for (blanks, wanted) in [
        (1_019usize, b"point 0\npoint 0\njournal 0\n".as_slice()),
        (1_020, b"bad B5\npoint 0\njournal 0\n".as_slice()),
    ] {
        let mut line = vec![in alloc; b' '; blanks]?;
        line.extend_from_slice(b"point\npoint\n")?;
        let (status, output) = ended(&rt, alloc, "run 1 1", &[&line], &[], &[])?;
        assert_eq!(rt; status, 0, "{blanks} blanks");
        assert_eq!(rt; output.as_slice(), wanted, "{blanks} blanks");
    }
    Ok(())
}

// The status and the output of a run in a room of one track and one reel, over `point` and a line of so many bytes.
fn long_input<R: Threads + Wait + Sync>(
    rt: &R,
    alloc: Global,
    bytes: usize,
) -> Result<(u8, Vec<u8>), Fail> {
    let mut pieces = Vec::new(alloc);
    pieces.push(b"point\n".to_vec(alloc)?)?;
    pieces.push(vec![in alloc; b'x'; bytes]?)?;
    let mut input = MemSource::new(pieces, Vec::new(alloc));
    let mut output = MemSink::new(alloc, Vec::new(alloc));
    let mut files = MemFiles::new(alloc, Vec::new(alloc));
    let words = words_in(alloc, "run 1 1")?;
    let status = run_over(rt, alloc, &words, &mut files, &mut input, &mut output)?;
    let told = output.bytes().ok_or("told")?;
    Ok((status, told.to_vec(alloc)?))
}

#[test]
fn an_input_may_have_64_mib(rt: HostRuntime) -> Result<(), Fail> {
    let (status, output) = long_input(&rt, rt.alloc(), 67_108_858)?;
    assert_eq!(rt; status, 0);
    assert_eq!(rt;
        output.as_slice(),
        b"point 0\nbad B5\njournal 0\n".as_slice()
    );
    Ok(())
}

#[test]
fn an_input_has_no_byte_more(rt: HostRuntime) -> Result<(), Fail> {
    let (status, output) = long_input(&rt, rt.alloc(), 67_108_859)?;
    assert_eq!(rt; status, 7);
    assert_eq!(rt; output.as_slice(), b"point 0\n".as_slice());
    Ok(())
}

// Of a full journal the last cut is told too: here that of one edit, which each of the others did again.
#[test]
fn a_journal_has_a_limit(rt: HostRuntime) -> Result<(), Fail> {
    let alloc = rt.alloc();
    let once = b"overwrite 0 0 @0 0 1\notio 1\n";
    let (_, once) = ended(&rt, alloc, "run 1 1", &[once], &[], &[])?;
    let document = str::from_utf8(&once)?
        .strip_prefix("ok 0 item 0\notio 1 ")
        .ok_or("front")?
        .strip_suffix("journal 1\n0 1 overwrite 0 0 @0 0 1\n")
        .ok_or("back")?;
    let mut lines = Vec::new(alloc);
    for _ in 0..100_001u32 {
        lines.extend_from_slice(b"overwrite 0 0 @0 0 1\n")?;
    }
    lines.extend_from_slice(b"overwrite 0 0 @1 0 1\notio 100000\npoint\n")?;
    let (status, output) = ended(&rt, alloc, "run 1 1", &[&lines], &[], &[])?;
    assert_eq!(rt; status, 0);
    // The clip of the last edit has the number 99,999, and a document has no numbers of clips.
    let wanted = format!(in alloc;
        "ok 99999 item 99999\nno 100000 E15\nno 100000 E3\notio 100000 {document}point 100000\njournal 100000\n0 1 overwrite 0 0 @0 0 1\n"
    )?;
    // The replies `ok N item N` to the first 100,000 lines are 1,977,780 bytes.
    assert!(rt; output.len() > 1_977_760);
    let (_, last) = output.as_slice().split_at(1_977_760);
    assert!(rt; last.starts_with(wanted.as_bytes()));
    Ok(())
}

// Each line has its number, those too that are none of the table; past a million of them an edit is done as ever.
#[test]
fn an_edit_past_a_million_lines_has_its_number(rt: HostRuntime) -> Result<(), Fail> {
    let alloc = rt.alloc();
    let mut lines = vec![in alloc; b'\n'; 1_000_000usize]?;
    lines.extend_from_slice(b"overwrite 0 0 @0 0 1\n")?;
    let (status, output) = ended(&rt, alloc, "run 1 1", &[&lines], &[], &[])?;
    assert_eq!(rt; status, 0);
    // The replies `bad B2` to the empty lines are 7,000,000 bytes.
    let wanted = b"bad B2\nok 0 item 0\njournal 1\n0 1000001 overwrite 0 0 @0 0 1\n";
    assert!(rt; output.len() > 6_999_993);
    let (_, last) = output.as_slice().split_at(6_999_993);
    assert_eq!(rt; last, wanted.as_slice());
    Ok(())
}
