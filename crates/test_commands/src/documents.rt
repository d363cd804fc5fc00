// Documents that a run opens, and those that it writes.
use room_files::MemFiles;
use std::alloc::Global;
use std::sync::Wait;
use std::test::Fail;
use std::thread::Threads;
use test_runs::{ended, ended_over};

/// A sequence of one track with five frames from the frame 100 of a tape on, which starts at 01:00:00:00.
pub(crate) const DOCUMENT: &str = "\
{\"OTIO_SCHEMA\": \"Timeline.1\", \"global_start_time\": {\"OTIO_SCHEMA\": \"RationalTime.1\", \"rate\": \
24.0, \"value\": 86400}, \"tracks\": {\"OTIO_SCHEMA\": \"Stack.1\", \"children\": [ {\"OTIO_SCHEMA\": \
\"Track.1\", \"kind\": \"Video\", \"children\": [{\"OTIO_SCHEMA\": \"Clip.1\", \"name\": \"A7\", \
\"source_range\": {\"OTIO_SCHEMA\": \"TimeRange.1\", \"start_time\": {\"OTIO_SCHEMA\": \
\"RationalTime.1\", \"rate\": 24.0, \"value\": 100.0}, \"duration\": {\"OTIO_SCHEMA\": \
\"RationalTime.1\", \"rate\": 24.0, \"value\": 5.0}}}]}]}}";

/// What stands around the first source frame of a clip of ten frames of a tape.
const CLIP: [&str; 2] = [
    "{\"OTIO_SCHEMA\": \"Clip.1\", \"name\": \"A7\", \"source_range\": {\"OTIO_SCHEMA\": \"TimeRange.1\", \
\"duration\": {\"OTIO_SCHEMA\": \"RationalTime.1\", \"rate\": 24.0, \"value\": 10.0}, \
\"start_time\": {\"OTIO_SCHEMA\": \"RationalTime.1\", \"rate\": 24.0, \"value\": ",
    "}}}",
];

// A track of so many such clips, one at least, which show the tape from the frame 100 on.
fn track_of(alloc: Global, clips: u32) -> Result<String, Fail> {
    let [front, back] = CLIP;
    let mut text = String::new(alloc);
    text.push_str("{\"OTIO_SCHEMA\": \"Track.1\", \"kind\": \"Video\", \"children\": [")?;
    for clip in 0..clips {
        let clip = format!(in alloc; "{front}{}{back}", 100 + 10 * (clip % 1_000))?;
        text.push_str(clip.as_str())?;
        text.push(',')?;
    }
    text.pop();
    text.push_str("]}")?;
    Ok(text)
}

/// A sequence of so many such tracks, one at least.
pub(crate) fn document_of(alloc: Global, tracks: u32, clips: u32) -> Result<Vec<u8>, Fail> {
    let track = track_of(alloc, clips)?;
    let mut text = Vec::new(alloc);
    text.extend_from_slice(
        b"{\"OTIO_SCHEMA\": \"Timeline.1\", \"tracks\": {\"OTIO_SCHEMA\": \"Stack.1\", \"children\": [",
    )?;
    for _ in 0..tracks {
        text.extend_from_slice(track.as_str().as_bytes())?;
        text.push(b',')?;
    }
    text.pop();
    text.extend_from_slice(b"]}}")?;
    Ok(text)
}

/// What is sent to a room, and what a room of that sequence replies.
const LINES: &str = "items 0\noverwrite 0 01:00:00:05 @0 103 1\n";

const TOLD: &str = "\
items 0 0 @0 100 5
ok 0 item 1
journal 1
0 2 overwrite 0 5 @0 103 1
";

// Whether a run with these words, where the file `cut` holds this text and these calls fail, ends so.
fn ends<R: Threads + Wait + Sync>(
    rt: &R,
    alloc: Global,
    words: &str,
    document: &[u8],
    fails: &[u32],
    writes: &[u32],
    status: u8,
    wanted: &str,
) -> Result<bool, Fail> {
    let mut files = MemFiles::new(alloc, fails.to_vec(alloc)?);
    files.put("cut", document)?;
    let lines = LINES.as_bytes();
    let (ended_with, output) = ended_over(rt, alloc, words, &mut files, &[lines], &[], writes)?;
    Ok(ended_with == status && output.as_slice() == wanted.as_bytes())
}

#[test]
fn a_document_is_opened(rt: HostRuntime) -> Result<(), Fail> {
    let alloc = rt.alloc();
    let table = [
        ("run cut 24 ndf", 9u32, 0u8, TOLD),
        ("run cut 2400e-2 ndf", 2, 0, TOLD),
        ("run cut 24 ndf", 1, 1, ""),
        ("run none.otio 24 ndf", 9, 1, ""),
    ];
    for (words, fails, status, wanted) in table {
        let is_so = ends(
            &rt,
            alloc,
            words,
            DOCUMENT.as_bytes(),
            &[fails],
            &[],
            status,
            wanted,
        )?;
        assert!(rt; is_so, "{words}, where call {fails} fails");
    }
    Ok(())
}

#[test]
fn a_document_is_refused(rt: HostRuntime) -> Result<(), Fail> {
    let alloc = rt.alloc();
    let table = [
        ("run cut 24 ndf", "{", 9u32, 4u8, "refused J1 1\n"),
        ("run cut 29.97 drop", "[]", 9, 4, "refused O3 0\n"),
        ("run cut 23.98 ndf", "{}", 9, 4, "refused O2 0\n"),
        ("run cut 24 ndf", "{", 1, 2, ""),
    ];
    for (words, document, writes, status, wanted) in table {
        let is_so = ends(
            &rt,
            alloc,
            words,
            document.as_bytes(),
            &[],
            &[writes],
            status,
            wanted,
        )?;
        assert!(rt; is_so, "{words} of {document}, where write {writes} fails");
    }
    Ok(())
}

#[test]
fn words_are_looked_at_before_the_document(rt: HostRuntime) -> Result<(), Fail> {
    let alloc = rt.alloc();
    let table = [
        "run cut 24 drop",
        "run cut 24 NDF",
        "run cut 59.94 ndf",
        "run cut 24  ndf",
        "run cut 24 ndf x",
    ];
    for words in table {
        assert!(rt;
            ends(&rt, alloc, words, b"{", &[1], &[], 3, "refused words\n")?,
            "{words}"
        );
    }
    Ok(())
}

// A document has as many tracks as a room can have.
#[test]
fn a_document_has_at_most_32_tracks(rt: HostRuntime) -> Result<(), Fail> {
    let alloc = rt.alloc();
    let told = "items 0 0 @0 100 10\nok 0 item 1\njournal 1\n0 2 overwrite 0 86405 @0 103 1\n";
    let table = [(32u32, 0u8, told), (33, 4, "refused O10 79\n")];
    for (tracks, status, wanted) in table {
        let text = document_of(alloc, tracks, 1)?;
        let is_so = ends(
            &rt,
            alloc,
            "run cut 24 ndf",
            &text,
            &[],
            &[],
            status,
            wanted,
        )?;
        assert!(rt; is_so, "{tracks} tracks");
    }
    Ok(())
}

#[test]
fn a_document_has_a_limit(rt: HostRuntime) -> Result<(), Fail> {
    let alloc = rt.alloc();
    let table = [
        (33_554_432usize, "refused J1 33554432\n"),
        (33_554_433, "refused J5 0\n"),
    ];
    for (bytes, wanted) in table {
        let text = vec![in alloc; b' '; bytes]?;
        let is_so = ends(&rt, alloc, "run cut 24 ndf", &text, &[], &[], 4, wanted)?;
        assert!(rt; is_so, "{bytes} bytes");
    }
    Ok(())
}

/// The document of a cut of one empty track.
const EMPTY: &str =
    r#"{"OTIO_SCHEMA":"Timeline.1","name":"","metadata":{},"global_start_time":{"OTIO_SCHEMA":"RationalTime.1","rate":24.0,"value":0.0},"tracks":{"OTIO_SCHEMA":"Stack.1","name":"tracks","metadata":{},"source_range":null,"effects":[],"markers":[],"children":[{"OTIO_SCHEMA":"Track.1","name":"","metadata":{},"source_range":null,"effects":[],"markers":[],"kind":"Video","children":[]}]}}"#;

#[test]
fn a_cut_is_written_at_any_point(rt: HostRuntime) -> Result<(), Fail> {
    let alloc = rt.alloc();
    let lines = b"otio 0\notio 1\noverwrite 0 0 @0 7 2\notio 00\notio\notio x\notio 4294967296\n";
    let (status, output) = ended(&rt, alloc, "run 1 1", &[lines], &[], &[])?;
    assert_eq!(rt; status, 0);
    let wanted = format!(in alloc;
        "otio 0 {EMPTY}\nno 0 V3\nok 0 item 0\notio 0 {EMPTY}\nbad B2\nbad B3\nbad B4\njournal 1\n0 3 overwrite 0 0 @0 7 2\n"
    )?;
    assert_eq!(rt; output.as_slice(), wanted.as_bytes());
    Ok(())
}

/// A clip of five frames from the frame 100 of the first reel on.
const FIVE: &str =
    r#"{"OTIO_SCHEMA":"Clip.2","name":"R0","metadata":{"cmx_3600":{"reel":"R0"}},"source_range":{"OTIO_SCHEMA":"TimeRange.1","duration":{"OTIO_SCHEMA":"RationalTime.1","rate":24.0,"value":5.0},"start_time":{"OTIO_SCHEMA":"RationalTime.1","rate":24.0,"value":100.0}},"effects":[],"markers":[],"media_references":{"DEFAULT_MEDIA":{"OTIO_SCHEMA":"MissingReference.1","name":"","metadata":{},"available_range":{"OTIO_SCHEMA":"TimeRange.1","duration":{"OTIO_SCHEMA":"RationalTime.1","rate":24.0,"value":86400.0},"start_time":{"OTIO_SCHEMA":"RationalTime.1","rate":24.0,"value":0.0}}}},"active_media_reference_key":"DEFAULT_MEDIA"}"#;

#[test]
fn a_clip_is_written(rt: HostRuntime) -> Result<(), Fail> {
    let alloc = rt.alloc();
    let lines = b"overwrite 0 0 @0 100 5\notio 1\n";
    let (status, output) = ended(&rt, alloc, "run 1 1", &[lines], &[], &[])?;
    assert_eq!(rt; status, 0);
    let front = EMPTY.strip_suffix("]}]}}").ok_or("back")?;
    let wanted = format!(in alloc;
        "ok 0 item 0\notio 1 {front}{FIVE}]}}]}}}}\njournal 1\n0 1 overwrite 0 0 @0 100 5\n"
    )?;
    assert_eq!(rt; output.as_slice(), wanted.as_bytes());
    Ok(())
}

// What is written at the journal's length opens again as the same cut.
#[test]
fn what_is_written_opens_again(rt: HostRuntime) -> Result<(), Fail> {
    let alloc = rt.alloc();
    let lines = b"overwrite 0 3 @0 7 2\notio 1\n";
    let (_, first) = ended(&rt, alloc, "run 1 1", &[lines], &[], &[])?;
    let text = first
        .as_slice()
        .strip_prefix(b"ok 0 item 0\notio 1 ".as_slice())
        .ok_or("front")?
        .strip_suffix(b"\njournal 1\n0 1 overwrite 0 3 @0 7 2\n".as_slice())
        .ok_or("back")?;
    let wanted =
        "items 0 dark 3 0 @0 7 2\nok 0 item 1\njournal 1\n0 2 overwrite 0 86405 @0 103 1\n";
    assert!(rt; ends(&rt, alloc, "run cut 24 ndf", text, &[], &[], 0, wanted)?);
    Ok(())
}

// The run of a sequence whose tape has a name of so many letters, which is asked for its document.
fn told_of_a_name<R: Threads + Wait + Sync>(
    rt: &R,
    alloc: Global,
    letters: usize,
) -> Result<(u8, Vec<u8>), Fail> {
    let (front, back) = DOCUMENT.split_once("A7").ok_or("no name")?;
    let mut text = front.as_bytes().to_vec(alloc)?;
    text.extend_from_slice(&vec![in alloc; b'A'; letters]?)?;
    text.extend_from_slice(back.as_bytes())?;
    let mut files = MemFiles::new(alloc, Vec::new(alloc));
    files.put("cut", &text)?;
    ended_over(
        rt,
        alloc,
        "run cut 24 ndf",
        &mut files,
        &[b"otio 0\n"],
        &[],
        &[],
    )
}

// A document has the name of a clip's tape twice, and at most 32 MiB.
#[test]
fn a_document_that_is_written_has_a_limit(rt: HostRuntime) -> Result<(), Fail> {
    let alloc = rt.alloc();
    let (_, short) = told_of_a_name(&rt, alloc, 1)?;
    assert!(rt; short.starts_with(b"otio 0 {".as_slice()));
    let (status, long) = told_of_a_name(&rt, alloc, 16_000_000)?;
    assert_eq!(rt; status, 0);
    assert_eq!(rt; long.len(), short.len() + 2 * 15_999_999);
    assert!(rt; long.starts_with(b"otio 0 {".as_slice()));
    assert!(rt; long.ends_with(b"}\njournal 0\n".as_slice()));
    let (status, past) = told_of_a_name(&rt, alloc, 17_000_000)?;
    assert_eq!(rt; status, 0);
    assert_eq!(rt; past.as_slice(), b"no 0 V4\njournal 0\n".as_slice());
    Ok(())
}
