// What the program tells of itself, and to whom.
use crate::answer::answer;
use line_words::{Memory, Words};
use program_words::{HELP, VERSION, complaint};
use reel_names::AsIs;
use room_disks::SureDisk;
use room_files::MemFiles;
use room_halls::MemHall;
use room_ports::{MemSink, MemSource};
use std::alloc::Global;
use std::sync::Wait;
use std::thread::Threads;

// These texts as the words of a command line.
fn words_in(alloc: Global, texts: &[&str]) -> Result<Words, Memory> {
    let mut words = Words::new(alloc);
    for text in texts {
        if words.count() < u32::MAX {
            words.push(text)?;
        }
    }
    Ok(words)
}

// The status of an answer to words over this input and this output, with no file, an empty disk and no hall.
fn status_of<R: Threads + Wait + Sync>(
    rt: &R,
    alloc: Global,
    words: &Words,
    input: &mut MemSource,
    output: &mut MemSink,
) -> Result<u8, Memory> {
    let namer = Box::new(alloc, AsIs::new(alloc))?;
    let mut files = MemFiles::new(alloc, Vec::new(alloc));
    let mut hall = MemHall::new(alloc, Vec::new(alloc), Vec::new(alloc));
    let disk = SureDisk::new(alloc, Vec::new(alloc));
    let (status, _) = answer(
        rt, alloc, words, &mut files, disk, input, output, &mut hall, namer,
    );
    Ok(status)
}

// The status of an answer to these words over the line `point`, where these reads and writes fail, and whether this text
// was written.
fn answered<R: Threads + Wait + Sync>(
    rt: &R,
    alloc: Global,
    texts: &[&str],
    reads: &[u32],
    writes: &[u32],
    text: &str,
) -> Result<(u8, bool, bool), Memory> {
    let words = words_in(alloc, texts)?;
    let mut pieces = Vec::new(alloc);
    pieces.push(b"point\n".to_vec(alloc)?)?;
    let mut input = MemSource::new(pieces, reads.to_vec(alloc)?);
    let mut output = MemSink::new(alloc, writes.to_vec(alloc)?);
    let status = status_of(rt, alloc, &words, &mut input, &mut output)?;
    let complains = !complaint(&words, status).before.is_empty();
    Ok((status, output.bytes() == Some(text.as_bytes()), complains))
}

// The status, what was written, and whether standard error is told something beside what the failing object tells.
#[test]
fn words_are_answered_once(rt: HostRuntime) -> Result<(), Memory> {
    let alloc = rt.alloc();
    let cases: [(&[&str], &[u32], &[u32], u8, &str, bool); 18] = [
        (&["--help"], &[1], &[], 0, HELP, false),
        (&["--version"], &[1], &[], 0, VERSION, false),
        (&["--version"], &[], &[1], 2, "", false),
        (&["run"], &[1], &[], 3, "refused words\n", true),
        (
            &["run", "none.otio", "50", "ndf"],
            &[1],
            &[],
            3,
            "refused words\n",
            true,
        ),
        (
            &["run", "none.otio", "fast", "ndf"],
            &[1],
            &[],
            3,
            "refused words\n",
            true,
        ),
        (
            &["run", "none.otio", "24", "drop"],
            &[1],
            &[],
            3,
            "refused words\n",
            true,
        ),
        (&["run", "none.otio", "24", "ndf"], &[], &[], 1, "", false),
        (
            &["store", "none.otio", "24", "ndf", "17", "a", "j"],
            &[1],
            &[],
            3,
            "refused words\n",
            true,
        ),
        (
            &["store", "none.otio", "24", "ndf", "1", "a", "j"],
            &[1],
            &[],
            1,
            "",
            false,
        ),
        (
            &["tape", "none.edl", "50"],
            &[1],
            &[],
            3,
            "refused words\n",
            true,
        ),
        (&["tape", "none.edl", "24"], &[1], &[], 1, "", false),
        (
            &["list", "d", "24", "ndf", "j", "0", "names", "A=B", "A=C"],
            &[1],
            &[],
            3,
            "refused words\n",
            true,
        ),
        (
            &["list", "d", "24", "ndf", "j", "0", "names"],
            &[1],
            &[],
            3,
            "refused words\n",
            true,
        ),
        (
            &["list", "d", "24", "ndf", "j", "0", "names", "A=B"],
            &[1],
            &[],
            1,
            "",
            false,
        ),
        (
            &["run", "1", "0"],
            &[],
            &[],
            0,
            "point 0\njournal 0\n",
            false,
        ),
        (&["run", "1", "0"], &[1], &[], 1, "", false),
        (&["run", "1", "0"], &[], &[1], 2, "", false),
    ];
    for (texts, reads, writes, status, text, complains) in cases {
        let (ended, is_written, is_told) = answered(&rt, alloc, texts, reads, writes, text)?;
        assert_eq!(rt; ended, status, "{texts:?}");
        assert!(rt; is_written, "{texts:?}");
        assert_eq!(rt; is_told, complains, "{texts:?}");
    }
    Ok(())
}
