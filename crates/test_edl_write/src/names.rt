// Names of reels, and namers.
use reel_names::{AsIs, Name, NameFault, Numbered, ReelNamer, TableFault, Tabled};
use std::test::Fail;

const LONG: &str = "ABCDEFGHIJKLMNOPQRSTUVWXYZ012345";

#[test]
fn a_name_has_32_printable_bytes_at_most(rt: HostRuntime) -> Result<(), Fail> {
    for (text, is_one) in [
        ("", false),
        ("R", true),
        ("reel-1.mov", true),
        ("two words", false),
        ("\t", false),
        ("~", true),
        ("\u{7f}", false),
        ("é", false),
        (LONG, true),
        ("ABCDEFGHIJKLMNOPQRSTUVWXYZ0123456", false),
    ] {
        match Name::of(text.as_bytes()) {
            Some(name) => assert!(rt; is_one && name.as_bytes() == text.as_bytes(), "{text}"),
            None => assert!(rt; !is_one, "{text}"),
        }
    }
    Ok(())
}

#[test]
fn a_written_name_has_8_capitals_and_digits_at_most(rt: HostRuntime) -> Result<(), Fail> {
    for (text, fits) in [
        ("A", true),
        ("AZ09_", true),
        ("ABCDEFGH", true),
        ("ABCDEFGHI", false),
        ("BL", false),
        ("BL_", true),
        ("bl", false),
        ("A-1", false),
        ("[", false),
        ("@", false),
    ] {
        match Name::of(text.as_bytes()) {
            Some(name) => assert_eq!(rt; name.fits(), fits, "{text}"),
            None => assert!(rt; false, "{text}"),
        }
    }
    Ok(())
}

#[test]
fn names_are_equal_by_their_bytes(rt: HostRuntime) -> Result<(), Fail> {
    assert!(rt; Name::of(b"BL") == Some(Name::black()));
    assert!(rt; Name::black().is_black());
    assert!(rt; Name::of(b"BL") != Name::of(b"BLA"));
    assert!(rt; Name::of(b"A") != Name::of(b"B"));
    Ok(())
}

#[test]
fn as_is_gives_a_text_to_one_reel(rt: HostRuntime) -> Result<(), Fail> {
    let mut namer = AsIs::new(rt.alloc());
    for (reel, text, want) in [
        (7, "TAPE1", Some("TAPE1")),
        (7, "", Some("TAPE1")),
        (8, "TAPE1", None),
        (8, "BL", None),
        (8, "tape", None),
        (8, "TAPE2", Some("TAPE2")),
        (7, "TAPE2", Some("TAPE1")),
    ] {
        match namer.name(reel, text) {
            Ok(name) => assert!(rt; want.is_some_and(|text| text.as_bytes() == name.as_bytes())),
            Err(fault) => assert!(rt; want.is_none() && fault == NameFault::NoName),
        }
    }
    Ok(())
}

#[test]
fn numbered_names_end_at_999(rt: HostRuntime) -> Result<(), Fail> {
    let mut namer = Numbered::new(rt.alloc());
    for reel in 0..999 {
        assert!(rt; namer.name(reel * 3, "").is_ok());
    }
    for (reel, want) in [
        (0, Some("R001")),
        (27, Some("R010")),
        (2994, Some("R999")),
        (1, None),
    ] {
        match namer.name(reel, "TAPE") {
            Ok(name) => assert!(rt; want.is_some_and(|text| text.as_bytes() == name.as_bytes())),
            Err(fault) => assert!(rt; want.is_none() && fault == NameFault::NoName),
        }
    }
    Ok(())
}

// A row with each fault that it may have, and the first of those that it has.
#[test]
fn a_table_takes_a_text_and_a_name_once(rt: HostRuntime) -> Result<(), Fail> {
    let mut namer = Tabled::new(rt.alloc());
    for (text, name, want) in [
        ("tape 1", "A", None),
        ("", "B", None),
        ("tape 2", "toolong123", Some(TableFault::Unfit)),
        ("tape 1", "BL", Some(TableFault::Unfit)),
        ("tape 1", "A", Some(TableFault::Again)),
        ("tape 1", "C", Some(TableFault::Again)),
        ("tape 2", "B", Some(TableFault::Taken)),
        ("tape 2", "ABCDEFGHI", Some(TableFault::Unfit)),
        ("tape 2", "ABCDEFGH", None),
        ("TAPE 2", "ABCDEFG_", None),
    ] {
        let name = Name::of(name.as_bytes()).ok_or("name")?;
        assert!(rt; namer.add(text, &name).err() == want, "{text}");
    }
    Ok(())
}

// The reel, its text, and its name, which is given to one reel only.
#[test]
fn a_table_gives_its_names(rt: HostRuntime) -> Result<(), Fail> {
    let mut namer = Tabled::new(rt.alloc());
    for (text, name) in [("tape 1", "A"), ("tape 2", "B"), ("=", "C")] {
        let name = Name::of(name.as_bytes()).ok_or("name")?;
        assert!(rt; namer.add(text, &name).is_ok(), "{text}");
    }
    for (reel, text, want) in [
        (7, "tape 2", Some("B")),
        (7, "", Some("B")),
        (8, "tape 2", None),
        (8, "tape 3", None),
        (8, "B", None),
        (8, "=", Some("C")),
        (0, "tape 1", Some("A")),
        (7, "tape 1", Some("B")),
    ] {
        match namer.name(reel, text) {
            Ok(name) => assert!(rt; want.is_some_and(|text| text.as_bytes() == name.as_bytes())),
            Err(fault) => assert!(rt; want.is_none() && fault == NameFault::NoName),
        }
    }
    Ok(())
}
