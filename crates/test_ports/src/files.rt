// What files answer, call by call.
use room_files::{FileFault, Files, MemFiles, Report, StdFiles, SureFiles};
use room_ports::Memory;
use std::alloc::{AllocError, Global};
use std::fs::{self, Permissions};
use std::io;
use std::os::unix::fs::{MetadataExt, PermissionsExt, symlink};
use std::test::Fail;

/// A call of files.
#[derive(Clone, Copy)]
enum Step {
    /// Of this name, these bytes.
    Write(&'static str, &'static str),
    /// Of this name, up to so many bytes.
    Read(&'static str, u32),
}

// What the calls answer, one after the other: `.` for a write, the bytes of a read with `/` after them, `!` for a
// fault, `>` for a file that is too large and `?` where there is no memory.
fn files_log<F: Files>(
    alloc: Global,
    files: &mut F,
    steps: &[Step],
) -> Result<Vec<u8>, AllocError> {
    let mut log = Vec::new(alloc);
    for step in steps {
        match *step {
            Step::Write(name, bytes) => match files.write_file(name, bytes.as_bytes()) {
                Ok(()) => log.push(b'.')?,
                Err(_) => log.push(b'!')?,
            },
            Step::Read(name, limit) => match files.read_file(alloc, name, limit) {
                Ok(bytes) => {
                    log.extend_from_slice(&bytes)?;
                    log.push(b'/')?;
                }
                Err(FileFault::Failed) => log.push(b'!')?,
                Err(FileFault::TooLarge) => log.push(b'>')?,
                Err(FileFault::Memory) => log.push(b'?')?,
            },
        }
    }
    Ok(log)
}

// What the calls answer on files over memory with these failing calls, where a file `put` of the bytes `here` is there.
fn memory_log(alloc: Global, failing: &[u32], steps: &[Step]) -> Result<Vec<u8>, Memory> {
    let mut files = MemFiles::new(alloc, Vec::from_slice(alloc, failing)?);
    files.put("put", "here".as_bytes())?;
    Ok(files_log(alloc, &mut files, steps)?)
}

#[test]
fn files_over_memory_hold_what_was_written_last(rt: HostRuntime) -> Result<(), Memory> {
    use Step::{Read, Write};
    let alloc = rt.alloc();
    // failing calls, calls, what they answer
    let cases: [(&[u32], &[Step], &str); 6] = [
        (
            &[],
            &[Read("put", 4), Read("put", 3), Read("none", 9)],
            "here/>!",
        ),
        (
            &[],
            &[
                Write("a", "one"),
                Write("b", "two"),
                Read("a", 3),
                Read("b", 9),
            ],
            "..one/two/",
        ),
        (
            &[],
            &[
                Write("a", "one"),
                Write("a", ""),
                Read("a", 0),
                Read("put", 9),
            ],
            "../here/",
        ),
        (
            &[2],
            &[Write("a", "one"), Write("a", "two"), Read("a", 9)],
            ".!one/",
        ),
        (
            &[1, 3],
            &[
                Read("put", 9),
                Read("put", 9),
                Write("put", "x"),
                Read("put", 9),
            ],
            "!here/!here/",
        ),
        (
            &[3, 4],
            &[
                Read("none", 0),
                Write("none", "x"),
                Read("none", 1),
                Read("none", 1),
            ],
            "!.!!",
        ),
    ];
    for (failing, steps, log) in cases {
        let answers = memory_log(alloc, failing, steps)?;
        assert!(rt; answers.as_slice() == log.as_bytes(), "{log}");
    }
    Ok(())
}

#[test]
fn files_that_never_fail_tell_up_to_their_room(rt: HostRuntime) -> Result<(), Memory> {
    use Step::{Read, Write};
    let alloc = rt.alloc();
    // room, calls, what they answer
    let cases: [(u32, &[Step], &str); 4] = [
        (
            6,
            &[
                Read("a", 0),
                Write("a", "abc"),
                Write("b", "def"),
                Read("a", 3),
                Read("b", 2),
            ],
            "/..abc/>",
        ),
        (
            6,
            &[
                Write("a", "abc"),
                Write("a", "def"),
                Read("a", 9),
                Read("b", 0),
            ],
            "..def//",
        ),
        (
            5,
            &[
                Write("a", "abc"),
                Write("b", "de"),
                Read("b", 9),
                Write("c", "f"),
                Read("a", 9),
            ],
            "..de/.?",
        ),
        (0, &[Write("a", ""), Read("a", 0)], "./"),
    ];
    for (room, steps, log) in cases {
        let mut files = SureFiles::new(alloc, room)?;
        let answers = files_log(alloc, &mut files, steps)?;
        assert!(rt; answers.as_slice() == log.as_bytes(), "{log}");
    }
    Ok(())
}

#[test]
fn files_of_the_system_are_read_whole(rt: HostRuntime) -> Result<(), AllocError> {
    use Step::{Read, Write};
    let alloc = rt.alloc();
    let mut files = StdFiles::new(&rt, Report::new(alloc, rt.stderr()), u64::MAX);
    let steps = [
        Read("a", 9),
        Write("a", "text"),
        Read("a", 4),
        Read("a", 3),
        Write("a", "new"),
        Read("a", 9),
        Write("none/a", "x"),
        Write("empty", ""),
        Read("empty", 0),
        // a directory can be opened, and its read fails
        Read(".", 9),
    ];
    let answers = files_log(alloc, &mut files, &steps)?;
    assert!(rt; answers.as_slice() == "!.text/>.new/!./!".as_bytes());

    // more than one piece
    let long = vec![in alloc; b'x'; 40000]?;
    assert!(rt; files.write_file("long", &long).is_ok());
    let read = files.read_file(alloc, "long", 40000);
    assert!(rt; read.is_ok_and(|bytes| bytes.as_slice() == long.as_slice()));
    let read = files.read_file(alloc, "long", 39999);
    assert!(rt; read.is_err_and(|fault| fault == FileFault::TooLarge));
    Ok(())
}

// Files of which the longest may have four bytes.
fn short_files<'a>(alloc: Global, rt: &'a HostRuntime) -> StdFiles<'a, HostRuntime, io::Sink> {
    StdFiles::new(rt, Report::new(alloc, io::sink()), 4)
}

#[test]
fn a_write_puts_a_whole_file_in_place_of_another(rt: HostRuntime) -> Result<(), Fail> {
    let alloc = rt.alloc();
    let mut files = short_files(alloc, &rt);
    fs::create_dir(&rt, "folder")?;
    fs::write(&rt, "folder/old", "old")?;
    fs::set_permissions(&rt, "folder/old", Permissions::from_mode(0o640))?;
    fs::write(&rt, "folder/old.new", "taken")?;
    symlink(&rt, "old", "folder/near")?;
    symlink(&rt, "folder/near", "far")?;
    let before = fs::metadata(&rt, "folder/old")?;

    // What is too long for the system changes nothing.
    assert!(rt; files.write_file("far", b"longs").is_err());
    assert!(rt; fs::read_to_string(&rt, "folder/old")?.as_str() == "old");
    assert!(rt; fs::metadata(&rt, "folder/old")?.ino() == before.ino());

    // The links stay, and the file that they lead to is another, with the old one's rights.
    assert!(rt; files.write_file("far", b"new").is_ok());
    assert!(rt; fs::read_to_string(&rt, "folder/old")?.as_str() == "new");
    assert!(rt; fs::symlink_metadata(&rt, "far")?.is_symlink());
    assert!(rt; fs::symlink_metadata(&rt, "folder/near")?.is_symlink());
    let after = fs::metadata(&rt, "folder/old")?;
    assert!(rt; after.ino() != before.ino() && after.mode() == before.mode());

    // Nothing is left beside it but what was there.
    assert!(rt; fs::read_to_string(&rt, "folder/old.new")?.as_str() == "taken");
    assert!(rt; !fs::exists(&rt, "folder/old.new1")?);
    Ok(())
}

#[test]
fn a_write_goes_where_a_link_leads_to_nothing(rt: HostRuntime) -> Result<(), Fail> {
    let alloc = rt.alloc();
    let mut files = short_files(alloc, &rt);
    symlink(&rt, "later", "dead")?;
    symlink(&rt, "loop", "loop")?;
    assert!(rt; files.write_file("dead", b"text").is_ok());
    assert!(rt; fs::read_to_string(&rt, "later")?.as_str() == "text");
    assert!(rt; fs::symlink_metadata(&rt, "dead")?.is_symlink());
    assert!(rt; files.write_file("loop", b"text").is_err());
    assert!(rt; files.write_file("/dev/null", b"longs").is_ok());
    Ok(())
}

#[test]
fn two_names_of_one_file_are_one(rt: HostRuntime) -> Result<(), Fail> {
    let alloc = rt.alloc();
    let files = short_files(alloc, &rt);
    fs::write(&rt, "here", "a")?;
    fs::write(&rt, "other", "a")?;
    fs::hard_link(&rt, "here", "again")?;
    symlink(&rt, "here", "link")?;
    for name in ["here", "./here", "again", "link"] {
        assert!(rt;
            files.are_one("here", name) && files.are_one(name, "here"),
            "{name}"
        );
    }
    for name in ["other", "none", ".", "/dev/null"] {
        assert!(rt;
            !files.are_one("here", name) && !files.are_one(name, "here"),
            "{name}"
        );
    }
    assert!(rt; !files.are_one("none", "none"));
    Ok(())
}
