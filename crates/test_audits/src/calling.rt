// The command over objects in memory.
use audit_command::{MAX_STATIONS, audit};
use command_files::Status;
use command_words::RecordNames;
use room_files::MemFiles;
use room_ports::MemSink;
use std::alloc::Global;
use std::test::Fail;
use test_cut::DOCUMENT;
use timecode12::{Counting, SequenceRate};

/// What was recorded of a station: what it sent and what it got, and whether its session was cut short.
#[derive(Clone, Copy)]
pub(crate) struct Record<'a> {
    pub sent: &'a [u8],
    pub got: &'a [u8],
    pub is_cut: bool,
}

/// The files of a room, and the calls of files and of the output that fail, by their numbers from 1.
#[derive(Clone, Copy)]
pub(crate) struct Outside<'a> {
    pub document: &'a [u8],
    pub journal: &'a [u8],
    pub reads: &'a [u32],
    pub writes: &'a [u32],
}

/// The worked document with a journal, where no call fails.
pub(crate) fn with_journal(journal: &[u8]) -> Outside<'_> {
    Outside {
        document: DOCUMENT.as_bytes(),
        journal,
        reads: &[],
        writes: &[],
    }
}

/// The two files of each station.
const NAMES: [(&str, &str); 16] = [
    ("0.lines", "0.replies"),
    ("1.lines", "1.replies"),
    ("2.lines", "2.replies"),
    ("3.lines", "3.replies"),
    ("4.lines", "4.replies"),
    ("5.lines", "5.replies"),
    ("6.lines", "6.replies"),
    ("7.lines", "7.replies"),
    ("8.lines", "8.replies"),
    ("9.lines", "9.replies"),
    ("10.lines", "10.replies"),
    ("11.lines", "11.replies"),
    ("12.lines", "12.replies"),
    ("13.lines", "13.replies"),
    ("14.lines", "14.replies"),
    ("15.lines", "15.replies"),
];

/// How the audit of these records ends, and what is put on the output.
pub(crate) fn audited(
    alloc: Global,
    outside: &Outside<'_>,
    records: &[Record<'_>],
) -> Result<(Status, Vec<u8>), Fail> {
    let mut files = MemFiles::new(alloc, outside.reads.to_vec(alloc)?);
    files.put("cut", outside.document)?;
    files.put("cut.journal", outside.journal)?;
    let mut names = Vec::new(alloc);
    for (record, (lines, replies)) in records.iter().zip(NAMES) {
        files.put(lines, record.sent)?;
        files.put(replies, record.got)?;
        names.push(RecordNames {
            lines,
            replies,
            is_cut: record.is_cut,
        })?;
    }
    if names.len() > MAX_STATIONS {
        return Err(Fail::from("more stations than names"));
    }
    let mut output = MemSink::new(alloc, outside.writes.to_vec(alloc)?);
    let counting = Counting::new(SequenceRate::F24, false).ok_or("counting")?;
    let status = audit(
        alloc,
        &mut files,
        "cut",
        &counting,
        "cut.journal",
        &names,
        &mut output,
    );
    let bytes = output.bytes().ok_or("told")?;
    Ok((status, bytes.to_vec(alloc)?))
}

/// Whether the audit of these records ends with this status, and with this text on the output.
pub(crate) fn audits_so(
    alloc: Global,
    outside: &Outside<'_>,
    records: &[Record<'_>],
    wanted: Status,
    text: &str,
) -> Result<bool, Fail> {
    let (status, output) = audited(alloc, outside, records)?;
    Ok(status == wanted && output.as_slice() == text.as_bytes())
}

/// Whether the audit of these records says this: `legal` with its counts, or the code of a refusal with its numbers.
pub(crate) fn says_so(
    alloc: Global,
    outside: &Outside<'_>,
    records: &[Record<'_>],
    told: &str,
) -> Result<bool, Fail> {
    let (status, output) = audited(alloc, outside, records)?;
    Ok(match str::from_utf8(&output) {
        Ok(line) => match line.strip_prefix("refused ") {
            Some(refusal) => status == Status::Refused && is_line(refusal, told),
            None => status == Status::Done && is_line(line, told),
        },
        Err(_) => false,
    })
}

// Whether a line is this text and a line feed.
fn is_line(line: &str, text: &str) -> bool {
    match line.strip_suffix("\n") {
        Some(told) => told == text,
        None => false,
    }
}
