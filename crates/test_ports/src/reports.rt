// What is told of files and streams that fail.
use room_files::{Files, Report, Reported, StdFiles, read_all};
use std::alloc::Global;
use std::fs::{self, File};
use std::io::{self, Read, Write};
use std::os::unix::fs::symlink;
use std::sync::atomic::{AtomicU64, Ordering};
use std::test::Fail;

// What these files tell: reads of a file that is not there and of a folder, and a write into a folder that is not there.
// Whether each failed.
fn have_failed<F: Files>(alloc: Global, files: &mut F) -> bool {
    let read = files.read_file(alloc, "none", 9).is_err();
    let folder = files.read_file(alloc, ".", 9).is_err();
    let write = files.write_file("none/a", b"x").is_err();
    read && folder && write
}

#[test]
fn files_of_the_system_tell_what_failed_and_why(rt: HostRuntime) -> Result<(), Fail> {
    let alloc = rt.alloc();
    let told = File::create(&rt, "told")?;
    let mut files = StdFiles::new(&rt, Report::new(alloc, &told), u64::MAX);
    assert!(rt; files.write_file("a", b"text").is_ok());
    assert!(rt; have_failed(alloc, &mut files));
    assert_eq!(rt;
        fs::read_to_string(&rt, "told")?.as_str(),
        "cutroom: none could not be read: No such file or directory (os error 2)\n\
         cutroom: . could not be read: Is a directory (os error 21)\n\
         cutroom: none/a could not be written: No such file or directory (os error 2)\n"
    );
    Ok(())
}

#[test]
fn a_look_at_a_file_leaves_all_as_it_was(rt: HostRuntime) -> Result<(), Fail> {
    let alloc = rt.alloc();
    fs::write(&rt, "standing", "text")?;
    fs::write(&rt, "hollow", "")?;
    symlink(&rt, "nowhere", "astray")?;
    let told = File::create(&rt, "looked")?;
    let files = StdFiles::new(&rt, Report::new(alloc, &told), u64::MAX);
    for name in [
        "standing",
        "hollow",
        "unmade",
        "astray",
        "none/unmade",
        ".",
        "/dev/null",
    ] {
        files.look(name);
    }
    assert_eq!(rt; fs::read_to_string(&rt, "standing")?.as_str(), "text");
    assert!(rt; !fs::exists(&rt, "unmade")? && !fs::exists(&rt, "nowhere")?);
    assert_eq!(rt;
        fs::read_to_string(&rt, "looked")?.as_str(),
        "cutroom: standing is there and will be replaced at the end\n\
         cutroom: none/unmade can't be written yet: No such file or directory (os error 2)\n\
         cutroom: . can't be written yet: Is a directory (os error 21)\n"
    );
    Ok(())
}

// A stream whose calls fail, or take nothing.
#[derive(Drop)]
struct BrokenStream {
    fails: bool,
}

impl Read for BrokenStream {
    fn read(&mut self, _into: &mut [u8]) -> io::Result<usize> {
        if self.fails {
            return Err(io::Error::from(io::ErrorKind::BrokenPipe));
        }
        Ok(0)
    }
}

impl Write for BrokenStream {
    fn write(&mut self, _bytes: &[u8]) -> io::Result<usize> {
        if self.fails {
            return Err(io::Error::from(io::ErrorKind::BrokenPipe));
        }
        Ok(0)
    }

    fn flush(&mut self) -> io::Result<()> {
        Ok(())
    }
}

// What is told of one read of such a stream and of two writes to it, of a byte and of none.
fn call_each<W: Write + Copy>(fails: bool, report: Report<W>) {
    let mut stream = Reported::new(BrokenStream { fails }, "the stream", report);
    let _ = stream.read(&mut [0; 4]);
    let _ = stream.write(b"a");
    let _ = stream.write(b"");
}

#[test]
fn streams_tell_what_failed_and_why(rt: HostRuntime) -> Result<(), Fail> {
    let told = File::create(&rt, "told")?;
    let report = Report::new(rt.alloc(), &told);
    call_each(true, report);
    call_each(false, report);
    assert_eq!(rt;
        fs::read_to_string(&rt, "told")?.as_str(),
        "cutroom: the stream could not be read: broken pipe\n\
         cutroom: the stream could not be written: broken pipe\n\
         cutroom: the stream could not be written: broken pipe\n\
         cutroom: the stream could not be written: write zero\n"
    );
    Ok(())
}

// A stream that counts its calls. It gives so many pieces, each as long as is asked for.
#[derive(Drop)]
struct Counted {
    calls: AtomicU64,
    pieces: u64,
}

// A stream that gives so many pieces, of which no call was counted.
fn stream_of(pieces: u64) -> Counted {
    Counted {
        calls: AtomicU64::new(0),
        pieces,
    }
}

impl Read for &Counted {
    fn read(&mut self, into: &mut [u8]) -> io::Result<usize> {
        if self.calls.fetch_add(1, Ordering::SeqCst) < self.pieces {
            return Ok(into.len());
        }
        Ok(0)
    }
}

impl Write for &Counted {
    fn write(&mut self, bytes: &[u8]) -> io::Result<usize> {
        self.calls.fetch_add(1, Ordering::SeqCst);
        Ok(bytes.len())
    }

    fn flush(&mut self) -> io::Result<()> {
        Ok(())
    }
}

#[test]
fn each_line_is_one_write(rt: HostRuntime) -> Result<(), Fail> {
    let alloc = rt.alloc();
    let told = stream_of(0);
    let mut files = StdFiles::new(&rt, Report::new(alloc, &told), u64::MAX);
    // A read of a file that is not there, one of a folder, and a write.
    assert!(rt; have_failed(alloc, &mut files));
    assert!(rt; told.calls.load(Ordering::SeqCst) == 3);
    files.look("none/a");
    assert!(rt; told.calls.load(Ordering::SeqCst) == 4);
    Ok(())
}

#[test]
fn a_file_is_read_in_large_pieces(rt: HostRuntime) -> Result<(), Fail> {
    let alloc = rt.alloc();
    let stream = stream_of(64);
    let read = read_all(&mut &stream, alloc, 2097152);
    assert!(rt; read.is_ok_and(|bytes| bytes.len() == 1048576));
    assert!(rt; stream.calls.load(Ordering::SeqCst) == 65);
    Ok(())
}
