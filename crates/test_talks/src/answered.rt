// A talk of one station, held against the program's call.
use room_files::MemFiles;
use room_ports::{MemSink, MemSource};
use std::alloc::Global;
use std::sync::Wait;
use std::test::Fail;
use std::thread::Threads;
use test_runs::{run_over, words_in};

/// Whether a run with these words ends with status 0 and answers so, in a text of what is sent, each line after `> `,
/// and of what is answered.
pub(crate) fn is_answered<R: Threads + Wait + Sync>(
    rt: &R,
    alloc: Global,
    words: &str,
    talk: &str,
) -> Result<bool, Fail> {
    let mut sent = Vec::new(alloc);
    let mut wanted = Vec::new(alloc);
    for line in talk.split('\n') {
        match line.as_bytes().strip_prefix(b"> ".as_slice()) {
            Some(line) => {
                sent.extend_from_slice(line)?;
                sent.push(b'\n')?;
            }
            None => {
                wanted.extend_from_slice(line.as_bytes())?;
                wanted.push(b'\n')?;
            }
        }
    }
    wanted.pop();
    let mut pieces = Vec::new(alloc);
    pieces.push(sent)?;
    let mut input = MemSource::new(pieces, Vec::new(alloc));
    let mut output = MemSink::new(alloc, Vec::new(alloc));
    let mut files = MemFiles::new(alloc, Vec::new(alloc));
    let words = words_in(alloc, words)?;
    let status = run_over(rt, alloc, &words, &mut files, &mut input, &mut output)?;
    Ok(status == 0 && output.bytes() == Some(wanted.as_slice()))
}
