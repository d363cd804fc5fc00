// Documents and journals that are refused, and calls that fail.
use crate::calling::{Outside, Record, audits_so, says_so, with_journal};
use crate::rows::{journal, recorded_of};
use command_files::Status;
use std::test::Fail;
use test_cut::DOCUMENT;

// A station that sent nothing.
const SILENT: Record<'static> = Record {
    sent: b"",
    got: b"",
    is_cut: false,
};

// Journals, and what comes of each beside such a station.
const JOURNALS: [(&[u8], &str); 15] = [
    (b"journal 0\n", "legal 0 0"),
    (b"", "H1 1"),
    (b"journal 0", "H1 1"),
    (b"journal 1\n0 1 slice 02 1\n", "H1 2"),
    (b"journal 1\n0 1 slice 2 1", "H1 2"),
    (b"journal 1\n0 1 view 2 1 2\n", "H1 2"),
    (b"journal 1\n0 1 slice 2 \xff\n", "H1 2"),
    (b"journal 1\n16 1 slice 2 1\n", "H1 2"),
    (b"journal 1\n", "H2 1"),
    (b"journal 0\n0 1 slice 2 1\n", "H2 1"),
    (b"journal 2\n0 2 slice 2 1\n0 2 slice 2 2\n", "H4 3"),
    (b"journal 1\n0 1 back 2\n", "H3 0"),
    (b"journal 2\n0 1 slice 2 1\n0 2 slice 9 2\n", "H3 1"),
    (b"journal 1\n0 0 slice 2 1\n", "A5 0 0"),
    (b"journal 1\n4 7 slice 2 1\n", "A5 4 7"),
];

#[test]
fn journals_are_refused_first(rt: HostRuntime) -> Result<(), Fail> {
    let alloc = rt.alloc();
    for (journal, told) in JOURNALS {
        assert!(rt;
            says_so(alloc, &with_journal(journal), &[SILENT], told)?,
            "{told}"
        );
    }
    Ok(())
}

// Documents, and what comes of each beside a journal that is none.
const DOCUMENTS: [(&str, &str); 4] = [("", "J1 0"), ("[", "J1 1"), ("{}", "O2 0"), ("[]", "O3 0")];

#[test]
fn documents_are_refused_before_journals(rt: HostRuntime) -> Result<(), Fail> {
    let alloc = rt.alloc();
    for (document, told) in DOCUMENTS {
        let outside = Outside {
            document: document.as_bytes(),
            ..with_journal(b"journal")
        };
        assert!(rt; says_so(alloc, &outside, &[SILENT], told)?, "{told}");
    }
    Ok(())
}

// An entry that does not apply is told before any file of a station is read.
#[test]
fn entries_are_done_before_records_are_read(rt: HostRuntime) -> Result<(), Fail> {
    let alloc = rt.alloc();
    let outside = Outside {
        reads: &[3, 4],
        ..with_journal(b"journal 1\n0 1 back 2\n")
    };
    assert!(rt; says_so(alloc, &outside, &[SILENT], "H3 0")?);
    Ok(())
}

// The document, the journal, and two files of each of four stations are read.
#[test]
fn each_read_may_fail(rt: HostRuntime) -> Result<(), Fail> {
    let alloc = rt.alloc();
    let journal = journal(alloc)?;
    let mut records = Vec::new(alloc);
    for station in 0..4 {
        records.push(recorded_of(station))?;
    }
    for call in 1..=11 {
        let outside = Outside {
            document: DOCUMENT.as_bytes(),
            journal: &journal,
            reads: &[call],
            writes: &[],
        };
        if call <= 10 {
            assert!(rt;
                audits_so(alloc, &outside, &records, Status::ReadFault, "")?,
                "{call}"
            );
        } else {
            assert!(rt; says_so(alloc, &outside, &records, "legal 23 41")?);
        }
    }
    Ok(())
}

#[test]
fn the_write_may_fail(rt: HostRuntime) -> Result<(), Fail> {
    let alloc = rt.alloc();
    for journal in [b"journal 0\n".as_slice(), b"journal 1\n0 1 slice 2 1\n"] {
        let outside = Outside {
            writes: &[1],
            ..with_journal(journal)
        };
        assert!(rt; audits_so(alloc, &outside, &[SILENT], Status::WriteFault, "")?);
    }
    Ok(())
}
