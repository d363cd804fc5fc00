// What first lines ask for, and how an address is parted.
use crew_words::{Entry, address_in, entry_in};

// Lines that sit down: the name, the key and how many replies they say were got.
const SITS: [(&[u8], (&[u8], &[u8], u32)); 5] = [
    (b"sit ann key 0", (b"ann", b"key", 0)),
    (b"sit ann key 4294967295\r", (b"ann", b"key", 4_294_967_295)),
    (b" \tsit  ann\tkey 007 ", (b"ann", b"key", 7)),
    (b"sit sit sit 1", (b"sit", b"sit", 1)),
    (b"sit \xff \x00 1", (b"\xff", b"\x00", 1)),
];

// Lines that ask for nothing.
const NOTHING: [&[u8]; 14] = [
    b"",
    b"\r",
    b"sit",
    b"sit ann",
    b"sit ann key",
    b"sit ann key 0 0",
    b"sit ann key x",
    b"sit ann key -1",
    b"sit ann key 4294967296",
    b"SIT ann key 0",
    b"sits ann key 0",
    b"ping ping",
    b"Ping",
    b"GET / HTTP/1.1\r",
];

fn sit_in(line: &[u8]) -> Option<(&[u8], &[u8], u32)> {
    match entry_in(line) {
        Entry::Sit(name, key, got) => Some((name, key, got)),
        _ => None,
    }
}

#[test]
fn lines_that_sit_down(rt: HostRuntime) {
    for (line, asked) in SITS {
        assert_eq!(rt; sit_in(line), Some(asked), "{line:?}");
    }
}

#[test]
fn lines_that_do_not(rt: HostRuntime) {
    for line in NOTHING {
        assert!(rt; matches!(entry_in(line), Entry::Nothing), "{line:?}");
    }
    for line in [b"ping".as_slice(), b" ping ", b"ping\r"] {
        assert!(rt; matches!(entry_in(line), Entry::Ping), "{line:?}");
    }
}

// A word, and its parts.
const ADDRESSES: [(&str, Option<&str>, &str); 7] = [
    ("127.0.0.1:7000", None, "127.0.0.1:7000"),
    ("crew@127.0.0.1:7000", Some("crew"), "127.0.0.1:7000"),
    ("a@b/crew@[::1]:7000", Some("a@b/crew"), "[::1]:7000"),
    ("@:0", Some(""), ":0"),
    ("crew@", Some("crew"), ""),
    ("@@", Some("@"), ""),
    ("", None, ""),
];

#[test]
fn a_word_is_parted_at_its_last_at(rt: HostRuntime) {
    for (word, file, address) in ADDRESSES {
        assert_eq!(rt; address_in(word), (file, address), "{word}");
    }
}
