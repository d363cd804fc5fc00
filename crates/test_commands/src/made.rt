// Generated sessions: what is put of one is the same at each run, whatever the order was in which its stations were served.
use std::test::Fail;
use test_runs::ended;

const FIRST: &str = "\
entries 4
track 0 852 2
track 1 948 2
track 2 763 2
track 3 859 2
";

// Each station draws from a number of its own, which is that of the words and its own, modulo 2^31. So the last two tracks
// here are the first two of `make 1 1`.
const GREATEST: &str = "\
entries 4
track 0 942 2
track 1 39 1
track 2 852 2
track 3 948 2
";

const LONG: &str = "\
entries 8000
track 0 26348 1962
track 1 26349 1935
track 2 26670 1960
track 3 26891 1984
";

#[test]
fn a_generated_session_has_one_summary(rt: HostRuntime) -> Result<(), Fail> {
    let alloc = rt.alloc();
    for (words, wanted) in [
        ("make 1 1", FIRST),
        ("make 4294967295 1", GREATEST),
        ("make 7 2000", LONG),
    ] {
        for _ in 0..2 {
            let (status, bytes) = ended(&rt, alloc, words, &[], &[], &[])?;
            assert_eq!(rt; status, 0, "{words}");
            assert_eq!(rt; bytes.as_slice(), wanted.as_bytes(), "{words}");
        }
    }
    Ok(())
}

#[test]
fn a_summary_that_can_not_be_written_is_a_write_fault(rt: HostRuntime) -> Result<(), Fail> {
    let (status, bytes) = ended(&rt, rt.alloc(), "make 1 1", &[], &[], &[1])?;
    assert_eq!(rt; status, 2);
    assert!(rt; bytes.is_empty());
    Ok(())
}

#[test]
fn other_words_make_no_session(rt: HostRuntime) -> Result<(), Fail> {
    for words in ["make 1 0", "make 1 20001", "make -1 1", "make 4294967296 1"] {
        let (status, bytes) = ended(&rt, rt.alloc(), words, &[], &[], &[])?;
        assert_eq!(rt; status, 3);
        assert_eq!(rt; bytes.as_slice(), b"refused words\n".as_slice());
    }
    Ok(())
}
