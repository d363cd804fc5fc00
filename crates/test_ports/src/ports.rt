// What each object answers, call by call.
ghost use Rattle.std.specs.Prelude.{◌≡◌, ◌≤◌, IfOk, OnOk, OnErr, length, take};
ghost use Rattle.room_ports.specs.Bytes.{Gives, Takes, TakesFront};

use room_ports::{
    Failed, Line, MemLine, MemSink, MemSource, Memory, Pair, Sink, Source, StdSink, StdSource,
    SureSink, SureSource, put,
};
use std::alloc::{AllocError, Global};
use std::io::{self, Read, Write};

// The pieces of a text that is written with `/` between them.
fn pieces_of(alloc: Global, text: &str) -> Result<Vec<Vec<u8>>, AllocError> {
    let mut pieces = Vec::new(alloc);
    for piece in text.as_bytes().split(|byte| *byte == b'/') {
        push_piece(alloc, piece, &mut pieces)?;
    }
    Ok(pieces)
}

// Adds a piece of these bytes.
fn push_piece(alloc: Global, bytes: &[u8], pieces: &mut Vec<Vec<u8>>) -> Result<(), AllocError> {
    let piece = Vec::from_slice(alloc, bytes)?;
    pieces.push(piece)?;
    Ok(())
}

// So many reads into a buffer of that length: the bytes of each with `/` after them, `!` where it failed.
fn read_log<S: Source>(
    alloc: Global,
    source: &mut S,
    room: usize,
    reads: u32,
) -> Result<Vec<u8>, AllocError> {
    let mut log = Vec::new(alloc);
    let mut buffer = [0u8; 16];
    let room = room.min(16);
    for _ in 0..reads {
        match source.read(&mut buffer[..room]) {
            Ok(n) => {
                log.extend_from_slice(&buffer[..n])?;
                log.push(b'/')?;
            }
            Err(Failed) => log.push(b'!')?,
        }
    }
    Ok(log)
}

// A write of each piece: the number of bytes taken, a digit, or `!` where it failed.
fn write_log<K: Sink>(
    alloc: Global,
    sink: &mut K,
    pieces: &[Vec<u8>],
) -> Result<Vec<u8>, AllocError> {
    let mut log = Vec::new(alloc);
    for piece in pieces {
        match sink.write(piece) {
            Ok(n) => log.push(b'0' + (n % 10) as u8)?,
            Err(Failed) => log.push(b'!')?,
        }
    }
    Ok(log)
}

// What reads of a source over memory give, of these pieces and failing reads.
fn memory_reads(
    alloc: Global,
    pieces: &str,
    failing: &[u32],
    room: usize,
    reads: u32,
) -> Result<Vec<u8>, AllocError> {
    let failing = Vec::from_slice(alloc, failing)?;
    let mut source = MemSource::new(pieces_of(alloc, pieces)?, failing);
    read_log(alloc, &mut source, room, reads)
}

// What reads of a source over memory that never fails give, of these pieces.
fn sure_reads(alloc: Global, pieces: &str, room: usize, reads: u32) -> Result<Vec<u8>, AllocError> {
    let mut source = SureSource::new(pieces_of(alloc, pieces)?);
    read_log(alloc, &mut source, room, reads)
}

#[test]
fn sources_over_memory_give_piece_after_piece(rt: HostRuntime) -> Result<(), AllocError> {
    let alloc = rt.alloc();
    let none: &[u32] = &[];
    // pieces, failing reads, length of the buffer, reads, what they give
    let cases: [(&str, &[u32], usize, u32, &str); 12] = [
        ("abc/de", none, 16, 4, "abc/de///"),
        ("abc/de", none, 2, 5, "ab/c/de///"),
        ("abc/de", none, 3, 3, "abc/de//"),
        ("//abc///d/", none, 16, 4, "abc/d///"),
        ("", none, 16, 2, "//"),
        ("//", none, 4, 2, "//"),
        ("abc", none, 0, 2, "//"),
        ("abc/de", &[1], 16, 4, "!abc/de//"),
        ("abc/de", &[2], 2, 5, "ab/!c/de//"),
        ("abc/de", &[5, 4, 5], 2, 6, "ab/c/de/!!/"),
        ("abc/de", &[0, 9], 16, 3, "abc/de//"),
        ("ab", &[1, 2, 3], 16, 4, "!!!ab/"),
    ];
    for (pieces, failing, room, reads, log) in cases {
        let given = memory_reads(alloc, pieces, failing, room, reads)?;
        assert!(rt; given.as_slice() == log.as_bytes(), "{pieces}");
        if failing.is_empty() {
            let given = sure_reads(alloc, pieces, room, reads)?;
            assert!(rt; given.as_slice() == log.as_bytes(), "{pieces}");
        }
    }
    Ok(())
}

#[test]
fn a_sink_over_memory_takes_whole_pieces(rt: HostRuntime) -> Result<(), AllocError> {
    let alloc = rt.alloc();
    // pieces, failing writes, what the writes answer, the bytes at the end
    let cases: [(&str, &[u32], &str, &str); 6] = [
        ("abc/de", &[], "32", "abcde"),
        ("/abc//d", &[], "0301", "abcd"),
        ("abc/de", &[1], "!2", "de"),
        ("abc/de/f", &[2], "3!1", "abcf"),
        ("abc/de/f", &[3, 7], "32!", "abcde"),
        ("abc/de", &[2, 1, 2], "!!", ""),
    ];
    for (pieces, failing, log, bytes) in cases {
        let mut sink = MemSink::new(alloc, Vec::from_slice(alloc, failing)?);
        let answers = write_log(alloc, &mut sink, &pieces_of(alloc, pieces)?)?;
        assert!(rt; answers.as_slice() == log.as_bytes(), "{pieces}");
        assert!(rt; sink.bytes() == Some(bytes.as_bytes()), "{pieces}");
    }
    Ok(())
}

#[test]
fn a_sink_with_room_tells_its_bytes_up_to_it(rt: HostRuntime) -> Result<(), Memory> {
    let alloc = rt.alloc();
    // pieces, room, what the writes answer, the bytes at the end where they are told
    let cases: [(&str, u32, &str, Option<&str>); 7] = [
        ("abc/de", 6, "32", Some("abcde")),
        ("abc/de", 5, "32", Some("abcde")),
        ("abc/de", 4, "32", None),
        ("abcde//", 4, "500", None),
        ("abc//", 3, "300", Some("abc")),
        ("", 0, "0", Some("")),
        ("a/", 0, "10", None),
    ];
    for (pieces, room, log, bytes) in cases {
        let mut sink = SureSink::new(alloc, room)?;
        let answers = write_log(alloc, &mut sink, &pieces_of(alloc, pieces)?)?;
        assert!(rt; answers.as_slice() == log.as_bytes(), "{pieces}");
        let told = match bytes {
            Some(text) => sink.bytes() == Some(text.as_bytes()),
            None => sink.bytes().is_none(),
        };
        assert!(rt; told, "{pieces}");
    }
    Ok(())
}

// A reader that gives two bytes a read, but fails at the second.
#[derive(Drop)]
struct BrokenReader {
    reads: u32,
}

impl Read for BrokenReader {
    fn read(&mut self, into: &mut [u8]) -> io::Result<usize> {
        self.reads = self.reads.saturating_add(1);
        if self.reads == 2 || into.len() < 2 {
            return Err(io::Error::from(io::ErrorKind::BrokenPipe));
        }
        into[0] = b'a';
        into[1] = b'b';
        Ok(2)
    }
}

// A reader that is at its end.
#[derive(Drop)]
struct EndedReader {
    reads: u32,
}

impl Read for EndedReader {
    fn read(&mut self, _into: &mut [u8]) -> io::Result<usize> {
        self.reads = self.reads.saturating_add(1);
        Ok(0)
    }
}

// A writer that takes at most so many bytes a write, and fails once, at the write of that number from 1.
#[derive(Drop)]
struct SlowWriter {
    most: usize,
    failing: u32,
    writes: u32,
    bytes: Vec<u8>,
}

impl Write for SlowWriter {
    fn write(&mut self, bytes: &[u8]) -> io::Result<usize> {
        self.writes = self.writes.saturating_add(1);
        if self.writes == self.failing {
            return Err(io::Error::from(io::ErrorKind::BrokenPipe));
        }
        let n = bytes.len().min(self.most);
        self.bytes.extend_from_slice(&bytes[..n])?;
        Ok(n)
    }

    fn flush(&mut self) -> io::Result<()> {
        Ok(())
    }
}

// A writer that takes at most so many bytes a write and fails once; it has had no write.
fn slow_writer(alloc: Global, most: usize, failing: u32) -> SlowWriter {
    SlowWriter {
        most,
        failing,
        writes: 0,
        bytes: Vec::new(alloc),
    }
}

// Whether the writer has had so many writes and has these bytes.
fn has_written(writer: &SlowWriter, writes: u32, bytes: &str) -> bool {
    writer.writes == writes && writer.bytes.as_slice() == bytes.as_bytes()
}

#[test]
fn a_standard_source_reads_once_a_call(rt: HostRuntime) -> Result<(), AllocError> {
    let alloc = rt.alloc();
    let given = read_log(alloc, &mut StdSource::new("hello".as_bytes()), 2, 4)?;
    assert!(rt; given.as_slice() == "he/ll/o//".as_bytes());
    let mut broken = BrokenReader { reads: 0 };
    let given = read_log(alloc, &mut StdSource::new(&mut broken), 4, 3)?;
    assert!(rt; given.as_slice() == "ab/!ab/".as_bytes());
    assert_eq!(rt; broken.reads, 3);
    let mut ended = EndedReader { reads: 0 };
    let given = read_log(alloc, &mut StdSource::new(&mut ended), 4, 3)?;
    assert!(rt; given.as_slice() == "///".as_bytes());
    assert_eq!(rt; ended.reads, 3);
    Ok(())
}

// What the writes of these pieces answer, over a standard sink.
fn slow_log(alloc: Global, writer: &mut SlowWriter, pieces: &str) -> Result<Vec<u8>, AllocError> {
    let pieces = pieces_of(alloc, pieces)?;
    write_log(alloc, &mut StdSink::new(writer), &pieces)
}

#[test]
fn a_standard_sink_writes_once_a_call(rt: HostRuntime) -> Result<(), AllocError> {
    let alloc = rt.alloc();
    // bytes a write, the failing write, pieces, what the writes answer, how many writes, what the writer has then
    let cases: [(usize, u32, &str, &str, u32, &str); 4] = [
        (9, 0, "abc//d", "301", 3, "abcd"),
        (9, 2, "abc/de/f", "3!1", 3, "abcf"),
        (2, 0, "abc/de", "22", 2, "abde"),
        (0, 0, "abc//d", "!0!", 3, ""),
    ];
    for (most, failing, pieces, log, writes, bytes) in cases {
        let mut writer = slow_writer(alloc, most, failing);
        let answers = slow_log(alloc, &mut writer, pieces)?;
        assert!(rt; answers.as_slice() == log.as_bytes(), "{pieces}: {log}");
        assert!(rt; has_written(&writer, writes, bytes), "{pieces}: {log}");
    }
    Ok(())
}

#[test]
fn put_writes_all_or_a_front(rt: HostRuntime) -> Result<(), AllocError> {
    let alloc = rt.alloc();
    // bytes a write, the failing write, whether all were put, how many writes, what the writer has then
    let cases: [(usize, u32, bool, u32, &str); 6] = [
        (9, 0, true, 1, "abcdefgh"),
        (8, 2, true, 1, "abcdefgh"),
        (3, 4, true, 3, "abcdefgh"),
        (3, 3, false, 3, "abcdef"),
        (3, 1, false, 1, ""),
        (0, 0, false, 1, ""),
    ];
    for (most, failing, all, writes, bytes) in cases {
        let mut writer = slow_writer(alloc, most, failing);
        let done = put(&mut StdSink::new(&mut writer), "abcdefgh".as_bytes());
        assert!(rt;
            done.is_ok() == all,
            "{most} bytes a write, {failing} fails"
        );
        assert!(rt;
            has_written(&writer, writes, bytes),
            "{most} bytes a write, {failing} fails"
        );
    }
    Ok(())
}

#[test]
fn put_reaches_a_vector(rt: HostRuntime) -> Result<(), AllocError> {
    let text = "a reply".as_bytes();
    let mut vector: Vec<u8> = Vec::new(rt.alloc());
    assert!(rt; put(&mut StdSink::new(&mut vector), text).is_ok());
    assert!(rt; vector.as_slice() == text);
    Ok(())
}

#[test]
fn put_reaches_a_sink_over_memory(rt: HostRuntime) -> Result<(), AllocError> {
    let alloc = rt.alloc();
    let text = "a reply".as_bytes();
    let mut sink = MemSink::new(alloc, Vec::from_slice(alloc, &[2])?);
    assert!(rt; put(&mut sink, text).is_ok());
    assert!(rt; put(&mut sink, text).is_err());
    assert!(rt; put(&mut sink, &[]).is_ok());
    assert!(rt; sink.bytes() == Some(text));
    Ok(())
}

#[test]
fn put_reaches_a_sink_with_room(rt: HostRuntime) -> Result<(), Memory> {
    let text = "a reply".as_bytes();
    let mut sink = SureSink::new(rt.alloc(), 7)?;
    assert!(rt; put(&mut sink, text).is_ok());
    assert!(rt; sink.bytes() == Some(text));
    assert!(rt; put(&mut sink, "!".as_bytes()).is_ok());
    assert!(rt; sink.bytes() == None);
    Ok(())
}

// Reads once from a line and writes back what came.
fn echo<L: Line>(line: &mut L, buffer: &mut [u8]) -> Result<usize, Failed>
    ensures within { IfOk result (λ n. n ≤ length buffer.new) }
    ensures given { IfOk result (λ n. Gives (L.left line.old) (L.left line.new)
        (take n buffer.new)) }
    ensures taken { IfOk result (λ n. Takes (L.taken line.old) (L.taken line.new)
        (take n buffer.new)) }
    ensures reads { OnOk result (L.read_faults line.new ≡ L.read_faults line.old) }
    ensures writes { OnOk result (L.write_faults line.new ≡ L.write_faults line.old) }
    ensures front { OnErr result (TakesFront (L.taken line.old) (L.taken line.new) buffer.new) }
    ensures lent { L.lent line.new ≡ L.lent line.old }
{
    let n = line.read(buffer)?;
    put(line, &buffer[..n])?;
    Ok(n)
}

// Reads once from a source and writes what came to a sink, as over one line of both.
fn pass_on<S: Source, K: Sink>(
    input: &mut S,
    output: &mut K,
    buffer: &mut [u8],
) -> Result<usize, Failed>
    ensures given { IfOk result (λ n. Gives (S.left input.old) (S.left input.new)
        (take n buffer.new)) }
    ensures taken { IfOk result (λ n. Takes (K.taken output.old) (K.taken output.new)
        (take n buffer.new)) }
    ensures reads { OnOk result (S.read_faults input.new ≡ S.read_faults input.old) }
    ensures writes { OnOk result (K.write_faults output.new ≡ K.write_faults output.old) }
{
    let mut line = Pair { input, output };
    echo(&mut line, buffer)
}

#[test]
fn a_line_gives_and_takes_apart(rt: HostRuntime) -> Result<(), AllocError> {
    let alloc = rt.alloc();
    let mut failing = Vec::new(alloc);
    failing.push(2)?;
    let mut line = MemLine {
        input: MemSource::new(pieces_of(alloc, "abc/de/f")?, failing),
        output: MemSink::new(alloc, Vec::new(alloc)),
    };
    let mut buffer = [0u8; 4];
    assert!(rt; echo(&mut line, &mut buffer) == Ok(3));
    assert!(rt; echo(&mut line, &mut buffer) == Err(Failed));
    assert!(rt; line.output.bytes() == Some("abc".as_bytes()));
    assert!(rt; echo(&mut line, &mut buffer) == Ok(2));
    assert!(rt; line.output.bytes() == Some("abcde".as_bytes()));

    let mut output = StdSink::new(Vec::new(alloc));
    assert!(rt; pass_on(&mut line.input, &mut output, &mut buffer) == Ok(1));
    assert!(rt; pass_on(&mut line.input, &mut line.output, &mut buffer) == Ok(0));
    assert!(rt; line.output.bytes() == Some("abcde".as_bytes()));
    Ok(())
}
