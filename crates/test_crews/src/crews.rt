// Which files are crews, and who sits where.
use crew_words::{Crew, CrewFault, crew_of};
use std::alloc::{AllocError, Global};

// A file for two stations, and why it is no crew.
const FAULTS: [(&[u8], CrewFault); 20] = [
    (b"", CrewFault::Few(0, 2)),
    (b"ann 0123456789abcdef", CrewFault::Few(1, 2)),
    (b"# ann 0123456789abcdef\n\n \t\n\r\n", CrewFault::Few(0, 2)),
    (b"ann\n", CrewFault::Line(1)),
    (b"\nann 0123456789abcdef x\n", CrewFault::Line(2)),
    (b"ann 0123456789abcdef x # y\n", CrewFault::Line(1)),
    (b"ann 0123456789abcde\n", CrewFault::Line(1)),
    (b"ann 0123456789abcde# 16\n", CrewFault::Line(1)),
    (
        b"ann 0123456789abcdef0123456789abcdef0123456789abcdef0123456789abcdef0\n",
        CrewFault::Line(1),
    ),
    (
        b"0123456789abcdef0123456789abcdef0 0123456789abcdef\n",
        CrewFault::Line(1),
    ),
    (b"a/b 0123456789abcdef\n", CrewFault::Line(1)),
    (b"a@b 0123456789abcdef\n", CrewFault::Line(1)),
    (b"ann 0123456789abcde/\n", CrewFault::Line(1)),
    (b"\xc3\xa4nn 0123456789abcdef\n", CrewFault::Line(1)),
    (b"ann\x00 0123456789abcdef\n", CrewFault::Line(1)),
    (
        b"ann 0123456789abcdef\r\r\nbo 0123456789abcdef\n",
        CrewFault::Line(1),
    ),
    (
        b"ann 0123456789abcdef\n# x\nann 0123456789abcdeg\n",
        CrewFault::Twice(3),
    ),
    (b"ann 0123456789abcdef\nann\n", CrewFault::Line(2)),
    (b"ann 0123456789abcdef\nann 0\n", CrewFault::Line(2)),
    (b"ann 0123456789abcdef\nAnn\n", CrewFault::Line(2)),
];

// What comes of a text for two stations.
fn fault_of(alloc: Global, text: &[u8]) -> Option<CrewFault> {
    match crew_of(alloc, text, 2) {
        Ok(_) => None,
        Err(fault) => Some(fault),
    }
}

#[test]
fn a_file_that_is_no_crew_is_refused_by_its_line(rt: HostRuntime) {
    for (text, fault) in FAULTS {
        assert_eq!(rt; fault_of(rt.alloc(), text), Some(fault), "{text:?}");
    }
}

#[test]
fn a_file_may_be_so_long_and_no_longer(rt: HostRuntime) -> Result<(), AllocError> {
    let mut text = Vec::with_capacity(rt.alloc(), 131_073)?;
    text.extend_from_slice(b"ann 0123456789abcdef\nbo 0123456789abcdef\n#")?;
    for _ in text.len()..131_072 {
        text.push(b'x')?;
    }
    assert_eq!(rt; fault_of(rt.alloc(), &text), None);
    text.push(b'\n')?;
    assert_eq!(rt; fault_of(rt.alloc(), &text), Some(CrewFault::Long));
    Ok(())
}

#[test]
fn a_fault_is_told_in_words(rt: HostRuntime) -> Result<(), AllocError> {
    let cases = [
        (
            CrewFault::Line(7),
            "line 7 is no NAME KEY: a name has 1 to 32 of letters, digits, `.`, `_` and `-`, a key 16 to 64",
        ),
        (CrewFault::Twice(3), "line 3 has a name that stands before"),
        (
            CrewFault::Few(1, 4),
            "it has 1 lines, and there are 4 stations",
        ),
        (CrewFault::Long, "it has more than 131072 bytes"),
        (CrewFault::Memory, "out of memory"),
    ];
    for (fault, text) in cases {
        let told = format!(in rt.alloc(); "{fault}")?;
        assert_eq!(rt; told.as_str(), text);
    }
    Ok(())
}

// A crew of three, with all that a line may have.
const THREE: &[u8] =
    b"# a crew\n\n ann \t 0123456789abcdef \r\n\tb.o-_9 0123456789abcdef0123456789abcdef0123456789abcdef0123456789abcdef# b\nC 0123456789abcdef";

// A name and a key, and whose they are.
const SEATS: [(&[u8], &[u8], Option<usize>); 11] = [
    (b"ann", b"0123456789abcdef", Some(0)),
    (
        b"b.o-_9",
        b"0123456789abcdef0123456789abcdef0123456789abcdef0123456789abcdef",
        Some(1),
    ),
    (b"C", b"0123456789abcdef", Some(2)),
    (b"c", b"0123456789abcdef", None),
    (b"an", b"0123456789abcdef", None),
    (b"anna", b"0123456789abcdef", None),
    (b"", b"", None),
    (b"b.o-_9", b"0123456789abcdef", None),
    (b"ann", b"0123456789abcdeF", None),
    (b"ann", b"0123456789abcde", None),
    (b"ann", b"", None),
];

fn seat_of(crew: &Crew, name: &[u8], key: &[u8]) -> Option<usize> {
    crew.station(name, key)
}

#[test]
fn who_has_the_key_has_the_seat(rt: HostRuntime) {
    match crew_of(rt.alloc(), THREE, 2) {
        Ok(crew) => {
            for (name, key, seat) in SEATS {
                assert_eq!(rt; seat_of(&crew, name, key), seat, "{name:?}");
            }
        }
        Err(fault) => assert!(rt; false, "{fault}"),
    }
}
