// Each call of files, input, output and hall fails in its turn, over a worked list, its document and four stations.
use room_files::MemFiles;
use std::alloc::Global;
use std::sync::Wait;
use std::test::Fail;
use std::thread::Threads;
use test_cut::{DOCUMENT, IMPORTED, LIST, TAPE};
use test_runs::ended_over;

/// A cut that has no list: it has a third track of sound.
const SOUND: &str = "\
{\"OTIO_SCHEMA\":\"Timeline.1\",\"tracks\":{\"OTIO_SCHEMA\":\"Stack.1\",\"children\":[\
{\"OTIO_SCHEMA\":\"Track.1\",\"kind\":\"Audio\",\"children\":[]},\
{\"OTIO_SCHEMA\":\"Track.1\",\"kind\":\"Audio\",\"children\":[]},\
{\"OTIO_SCHEMA\":\"Track.1\",\"kind\":\"Audio\",\"children\":[]}]}}";

/// What the input gives, a line a read.
const LINES: &str = "view 0 44 52\nslice 0 10\nslice 1 10\npoint\nitems 9\n";

/// The numbers of the calls of files, of reads and of writes that fail; 0 is none.
#[derive(Clone, Copy)]
struct Failing {
    file: u32,
    read: u32,
    write: u32,
}

const NONE: Failing = Failing {
    file: 0,
    read: 0,
    write: 0,
};

// The status and the output of these words over these lines, where the file `cut` holds this text.
fn ran<R: Threads + Wait + Sync>(
    rt: &R,
    alloc: Global,
    words: &str,
    cut: &str,
    lines: &str,
    failing: Failing,
) -> Result<(u8, String), Fail> {
    let mut calls = Vec::new(alloc);
    calls.push(failing.file)?;
    let mut files = MemFiles::new(alloc, calls);
    for (name, text) in [
        ("cut", cut),
        ("cut.journal", "journal 0\n"),
        ("cut.edl", LIST),
        ("sound", SOUND),
        ("bad", "["),
    ] {
        files.put(name, text.as_bytes())?;
    }
    let mut pieces: Vec<&[u8]> = Vec::new(alloc);
    for line in lines.split_inclusive('\n') {
        pieces.push(line.as_bytes())?;
    }
    let (reads, writes) = ([failing.read], [failing.write]);
    let (status, output) = ended_over(rt, alloc, words, &mut files, &pieces, &reads, &writes)?;
    Ok((status, String::from_utf8(output)?))
}

/// What is asked for, its status, and how many calls of files, reads and writes it makes.
const COMMANDS: [(&str, u8, u32, u32, u32); 14] = [
    ("run", 3, 0, 0, 1),
    ("run 3 1", 0, 0, 6, 6),
    ("run cut 24 ndf", 0, 1, 6, 6),
    ("run bad 24 ndf", 4, 1, 0, 1),
    ("serve bad 24 ndf 4 hall out.journal", 4, 1, 0, 1),
    ("list cut 24 ndf cut.journal 0", 0, 2, 0, 1),
    ("list cut 24 ndf cut.journal 9", 4, 2, 0, 1),
    ("list bad 24 ndf cut.journal 0", 4, 1, 0, 1),
    ("list sound 24 ndf cut.journal 0", 8, 2, 0, 1),
    ("tape cut.edl 24", 0, 1, 0, 1),
    ("tape bad 24", 4, 1, 0, 1),
    ("import cut.edl 24 ndf", 0, 1, 0, 1),
    ("import bad 24 ndf", 4, 1, 0, 1),
    ("make 1 1", 0, 0, 0, 1),
];

// The first lines of a text.
fn front(alloc: Global, text: &str, lines: u32) -> Result<String, Fail> {
    let mut out = String::new(alloc);
    let mut left = lines;
    for line in text.split_inclusive('\n') {
        if left > 0 {
            out.push_str(line)?;
            left -= 1;
        }
    }
    Ok(out)
}

// Whether this command ends so over the document of the list.
fn ends_so<R: Threads + Wait + Sync>(
    rt: &R,
    alloc: Global,
    words: &str,
    cut: &str,
    failing: Failing,
    status: u8,
    output: &str,
) -> Result<bool, Fail> {
    let (ended, put) = ran(rt, alloc, words, cut, LINES, failing)?;
    Ok(ended == status && put.as_str() == output)
}

// A read that fails leaves what was put before: one reply to each line that was read.
#[test]
fn each_file_and_each_read_may_fail(rt: HostRuntime) -> Result<(), Fail> {
    let alloc = rt.alloc();
    for (words, _, files, reads, _) in COMMANDS {
        let (_, whole) = ran(&rt, alloc, words, IMPORTED, LINES, NONE)?;
        for file in 1..=files {
            let failing = Failing { file, ..NONE };
            let is_so = ends_so(&rt, alloc, words, IMPORTED, failing, 1, "")?;
            assert!(rt; is_so, "{words}, file {file}");
        }
        for read in 1..=reads {
            let failing = Failing { read, ..NONE };
            let wanted = front(alloc, whole.as_str(), read.saturating_sub(1))?;
            let is_so = ends_so(&rt, alloc, words, IMPORTED, failing, 1, wanted.as_str())?;
            assert!(rt; is_so, "{words}, read {read}");
        }
    }
    Ok(())
}

// Each write fails in its turn, too; no command makes more calls than these.
#[test]
fn each_write_may_fail(rt: HostRuntime) -> Result<(), Fail> {
    let alloc = rt.alloc();
    for (words, status, files, reads, writes) in COMMANDS {
        let (_, whole) = ran(&rt, alloc, words, IMPORTED, LINES, NONE)?;
        for write in 1..=writes {
            let failing = Failing { write, ..NONE };
            let wanted = front(alloc, whole.as_str(), write.saturating_sub(1))?;
            let is_so = ends_so(&rt, alloc, words, IMPORTED, failing, 2, wanted.as_str())?;
            assert!(rt; is_so, "{words}, write {write}");
        }
        let behind = Failing {
            file: files.saturating_add(1),
            read: reads.saturating_add(1),
            write: writes.saturating_add(1),
        };
        let is_so = ends_so(&rt, alloc, words, IMPORTED, behind, status, whole.as_str())?;
        assert!(rt; is_so, "{words}, no call");
    }
    Ok(())
}

const DEEP: &str = "[[[[[[[[[[[[[[[[[[[[[[[[[[[[[[[[[[[[[[[[[[[[[[[[[[[[[[[[[[[[[[[[";

const TOO_DEEP: &str = "[[[[[[[[[[[[[[[[[[[[[[[[[[[[[[[[[[[[[[[[[[[[[[[[[[[[[[[[[[[[[[[[[";

/// What is asked for, the file `cut`, the input, which calls fail, the status and the output.
const FAULTS: [(&str, &str, &str, Failing, u8, &str); 9] = [
    ("run 1 1", "", "point\n", Failing { read: 1, ..NONE }, 1, ""),
    ("run 1 1", "", "point", Failing { write: 1, ..NONE }, 2, ""),
    ("run 17 2 3", "", "", Failing { write: 1, ..NONE }, 2, ""),
    (
        "run cut 24 ndf",
        "{}",
        "",
        Failing { file: 1, ..NONE },
        1,
        "",
    ),
    ("run cut 24 ndf", DEEP, "", NONE, 4, "refused J1 64\n"),
    ("run cut 24 ndf", TOO_DEEP, "", NONE, 4, "refused J2 64\n"),
    (
        "tape cut 24",
        "TITLE: CUT\nFC",
        "",
        NONE,
        4,
        "refused P2 2\n",
    ),
    (
        "tape cut 24",
        "TITLE: CUT\nFCM: NON-DROP FRAM",
        "",
        NONE,
        4,
        "refused P12 2\n",
    ),
    (
        "tape cut 24",
        "TITLE: CUT\nFCM: NON-DROP FRAME\n001  TAPE1",
        "",
        NONE,
        4,
        "refused P1 3\n",
    ),
];

#[test]
fn what_stands_where_a_call_fails_or_a_text_is_cut(rt: HostRuntime) -> Result<(), Fail> {
    let alloc = rt.alloc();
    for (words, cut, lines, failing, status, wanted) in FAULTS {
        let (ended, output) = ran(&rt, alloc, words, cut, lines, failing)?;
        assert_eq!(rt; ended, status, "{words} {cut}");
        assert_eq!(rt; output.as_str(), wanted, "{words} {cut}");
    }
    Ok(())
}

/// What is asked of the worked cut and of the document that its list makes, the file `cut`, the input and the output.
const WORKED: [(&str, &str, &str, &str); 6] = [
    (
        "run cut 24 ndf",
        DOCUMENT,
        "view 0 44 52\nitems 1\n",
        "seen 0 @0 3644 3 mix @0 3647 @1 99 1 4 3 @1 102 2\nitems 0 dark 60 0 @2 0 6\njournal 0\n",
    ),
    ("list cut 24 ndf cut.journal 0", DOCUMENT, "", LIST),
    ("tape cut 24", LIST, "", TAPE),
    ("import cut 24 ndf", LIST, "", IMPORTED),
    (
        "run cut 24 ndf",
        IMPORTED,
        "items 0\n",
        "items 0 0 @0 3600 47 1 @0 3647 3 mark 3 0 2 @1 102 10 3 @2 0 6 4 @1 118 6\njournal 0\n",
    ),
    ("list cut 24 ndf cut.journal 0", IMPORTED, "", LIST),
];

#[test]
fn a_cut_its_list_and_the_document_of_that_are_one(rt: HostRuntime) -> Result<(), Fail> {
    let alloc = rt.alloc();
    for (words, cut, lines, wanted) in WORKED {
        let (status, output) = ran(&rt, alloc, words, cut, lines, NONE)?;
        assert_eq!(rt; status, 0, "{words}");
        assert_eq!(rt; output.as_str(), wanted, "{words}");
    }
    Ok(())
}
