// Lists of cuts.
use crate::calling::{Outside, lists_so, with_journal};
use crate::forgetful::Forgetful;
use command_files::Status;
use reel_names::{AsIs, Name, Numbered, Tabled};
use std::alloc::Global;
use std::test::Fail;
use test_cut::{DOCUMENT, LIST, NAMED, NUMBERED};

/// A journal of three edits: five frames of the title over the first clip, these cut in two, and the sound of the second
/// track taken out.
const JOURNAL: &str = "\
journal 3
0 1 overwrite 0 10 @2 100 5
0 2 slice 0 12
1 1 remove 3 0
";

/// The list of the cut after all three.
const LAST: &str = "\
TITLE: CUT
FCM: NON-DROP FRAME
001  TAPE1    V     C        00:02:30:00 00:02:30:10 01:00:00:00 01:00:00:10
002  TAPE1    A     C        00:02:30:00 00:02:33:00 01:00:00:00 01:00:03:00
003  GFX1     V     C        00:00:04:04 00:00:04:09 01:00:00:10 01:00:00:15
004  TAPE1    V     C        00:02:30:15 00:02:31:23 01:00:00:15 01:00:01:23
005  TAPE1    V     C        00:02:31:23 00:02:31:23 01:00:01:23 01:00:01:23
005  TAPE2    V     D    003 00:00:04:03 00:00:04:16 01:00:01:23 01:00:02:12
006  GFX1     V     C        00:00:00:00 00:00:00:06 01:00:02:12 01:00:02:18
007  TAPE2    V     C        00:00:04:22 00:00:05:04 01:00:02:18 01:00:03:00
";

/// Whether the list of the cut at a point, where reels have their own names, ends so.
pub(crate) fn as_is_so(
    alloc: Global,
    outside: &Outside<'_>,
    point: u32,
    wanted: Status,
    text: &str,
) -> Result<bool, Fail> {
    let namer = Box::new(alloc, AsIs::new(alloc))?;
    lists_so(alloc, outside, point, namer, wanted, text)
}

#[test]
fn a_cut_at_a_point_is_listed(rt: HostRuntime) -> Result<(), Fail> {
    let alloc = rt.alloc();
    let outside = with_journal(JOURNAL);
    for (point, text) in [(0, LIST), (3, LAST)] {
        assert!(rt;
            as_is_so(alloc, &outside, point, Status::Done, text)?,
            "{point}"
        );
    }
    let namer = Box::new(alloc, Numbered::new(alloc))?;
    assert!(rt; lists_so(alloc, &outside, 0, namer, Status::Done, NUMBERED)?);
    Ok(())
}

// The table, and how the list ends whose reels have their names from it.
#[test]
fn a_list_has_the_names_of_a_table(rt: HostRuntime) -> Result<(), Fail> {
    let alloc = rt.alloc();
    let outside = with_journal("journal 0\n");
    let cases: [(&[(&str, &str)], Status, &str); 3] = [
        (
            &[("TAPE1", "A"), ("GFX1", "C")],
            Status::NoList,
            "refused L4 1\n",
        ),
        (
            &[("TAPE1", "A"), ("GFX1", "C"), ("TAPE2", "B")],
            Status::Done,
            NAMED,
        ),
        (
            &[("TAPE", "TAPE1"), ("GFX1", "C"), ("TAPE2", "B")],
            Status::NoList,
            "refused L4 0\n",
        ),
    ];
    for (rows, wanted, text) in cases {
        let mut namer = Tabled::new(alloc);
        for (text, name) in rows {
            let name = Name::of(name.as_bytes()).ok_or("name")?;
            assert!(rt; namer.add(text, &name).is_ok(), "{text}");
        }
        let namer = Box::new(alloc, namer)?;
        assert!(rt; lists_so(alloc, &outside, 0, namer, wanted, text)?);
    }
    Ok(())
}

// Each reel in its turn is one that the namer refuses.
#[test]
fn each_reel_may_be_refused(rt: HostRuntime) -> Result<(), Fail> {
    let alloc = rt.alloc();
    let outside = with_journal("journal 0\n");
    for (refused, line) in [
        ("TAPE1", "refused L4 0\n"),
        ("TAPE2", "refused L4 1\n"),
        ("GFX1", "refused L4 2\n"),
    ] {
        let mut namer = Tabled::new(alloc);
        for (text, name) in [("TAPE1", "A"), ("TAPE2", "B"), ("GFX1", "C")] {
            let name = Name::of(name.as_bytes()).ok_or("name")?;
            assert!(rt; text == refused || namer.add(text, &name).is_ok(), "{text}");
        }
        let namer = Box::new(alloc, namer)?;
        assert!(rt;
            lists_so(alloc, &outside, 0, namer, Status::NoList, line)?,
            "{refused}"
        );
    }
    Ok(())
}

// Each reel in its turn is one for which the namer finds no memory. Then there is no list, and nothing is put.
#[test]
fn a_namer_may_find_no_memory(rt: HostRuntime) -> Result<(), Fail> {
    let alloc = rt.alloc();
    let outside = with_journal("journal 0\n");
    for (reel, wanted, text) in [
        (0, Status::OutOfMemory, ""),
        (1, Status::OutOfMemory, ""),
        (2, Status::OutOfMemory, ""),
        (3, Status::Done, NUMBERED),
    ] {
        let namer = Box::new(alloc, Forgetful::new(alloc, reel))?;
        assert!(rt;
            lists_so(alloc, &outside, 0, namer, wanted, text)?,
            "{reel}"
        );
    }
    Ok(())
}

// The journal, the point, and the line of the refusal.
#[test]
fn a_journal_is_refused(rt: HostRuntime) -> Result<(), Fail> {
    let alloc = rt.alloc();
    for (journal, point, text) in [
        ("", 0, "refused H1 1\n"),
        ("journal 1\n0 1 slice 0 12", 0, "refused H1 2\n"),
        ("journal 2\n0 1 slice 0 12\n", 5, "refused H2 1\n"),
        (
            "journal 2\n0 1 slice 0 12\n0 1 slice 0 13\n",
            5,
            "refused H4 3\n",
        ),
        (JOURNAL, 4, "refused H5 3\n"),
        ("journal 0\n", 4_294_967_295, "refused H5 0\n"),
        (
            "journal 2\n0 1 slice 0 12\n0 2 remove 0 9\n",
            2,
            "refused H3 1\n",
        ),
        ("journal 1\n0 1 remove 9 0\n", 1, "refused H3 0\n"),
    ] {
        let outside = with_journal(journal);
        assert!(rt;
            as_is_so(alloc, &outside, point, Status::Refused, text)?,
            "{journal}"
        );
    }
    Ok(())
}

// An entry after the point is not tried.
#[test]
fn entries_behind_the_point_need_not_apply(rt: HostRuntime) -> Result<(), Fail> {
    let alloc = rt.alloc();
    let outside = with_journal("journal 1\n0 1 remove 9 0\n");
    assert!(rt; as_is_so(alloc, &outside, 0, Status::Done, LIST)?);
    Ok(())
}

// The document is looked at before the journal, which is not read then: a second read would fail.
#[test]
fn a_document_is_refused_first(rt: HostRuntime) -> Result<(), Fail> {
    let alloc = rt.alloc();
    for (document, text) in [("", "refused J1 0\n"), ("[", "refused J1 1\n")] {
        let outside = Outside {
            document,
            reads: &[2],
            ..with_journal("")
        };
        assert!(rt;
            as_is_so(alloc, &outside, 9, Status::Refused, text)?,
            "{document}"
        );
    }
    Ok(())
}

// Which call of the files fails, which of the output, and how the list ends then.
#[test]
fn a_call_that_fails_ends_a_list(rt: HostRuntime) -> Result<(), Fail> {
    let alloc = rt.alloc();
    let cases: [(&str, &[u32], &[u32], Status, &str); 5] = [
        ("journal 0\n", &[1], &[], Status::ReadFault, ""),
        ("journal 0\n", &[2], &[], Status::ReadFault, ""),
        ("journal 0\n", &[3], &[2], Status::Done, LIST),
        ("journal 0\n", &[], &[1], Status::WriteFault, ""),
        ("", &[], &[1], Status::WriteFault, ""),
    ];
    for (journal, reads, writes, wanted, text) in cases {
        let outside = Outside {
            document: DOCUMENT,
            journal: journal.as_bytes(),
            reads,
            writes,
        };
        assert!(rt;
            as_is_so(alloc, &outside, 0, wanted, text)?,
            "{reads:?} {writes:?}"
        );
    }
    Ok(())
}

/// A third track of sound, and a track of picture whose reel is no name in a list.
const THREE_OF_SOUND: &str = "\
{\"OTIO_SCHEMA\":\"Timeline.1\",\"tracks\":{\"OTIO_SCHEMA\":\"Stack.1\",\"children\":[\
{\"OTIO_SCHEMA\":\"Track.1\",\"kind\":\"Audio\",\"children\":[]},\
{\"OTIO_SCHEMA\":\"Track.1\",\"kind\":\"Audio\",\"children\":[]},\
{\"OTIO_SCHEMA\":\"Track.1\",\"kind\":\"Audio\",\"children\":[]}]}}";

const LOWER_CASE: &str = "\
{\"OTIO_SCHEMA\":\"Timeline.1\",\"tracks\":{\"OTIO_SCHEMA\":\"Stack.1\",\"children\":[\
{\"OTIO_SCHEMA\":\"Track.1\",\"kind\":\"Video\",\"children\":[\
{\"OTIO_SCHEMA\":\"Clip.1\",\"name\":\"tape\",\"source_range\":{\"OTIO_SCHEMA\":\"TimeRange.1\",\
\"start_time\":{\"OTIO_SCHEMA\":\"RationalTime.1\",\"rate\":24,\"value\":0},\
\"duration\":{\"OTIO_SCHEMA\":\"RationalTime.1\",\"rate\":24,\"value\":5}}}]}]}}";

#[test]
fn a_cut_has_no_list(rt: HostRuntime) -> Result<(), Fail> {
    let alloc = rt.alloc();
    for (document, text) in [
        (THREE_OF_SOUND, "refused L1 3\n"),
        (LOWER_CASE, "refused L4 0\n"),
    ] {
        let outside = Outside {
            document,
            ..with_journal("journal 0\n")
        };
        assert!(rt;
            as_is_so(alloc, &outside, 0, Status::NoList, text)?,
            "{text}"
        );
        let failing = Outside {
            writes: &[1],
            ..outside
        };
        assert!(rt;
            as_is_so(alloc, &failing, 0, Status::WriteFault, "")?,
            "{text}"
        );
    }
    Ok(())
}
