// What stations are answered, and what the file holds after that.
use crate::rooms::{ALONE, Ended, Storing, TWO, stored};
use std::alloc::Global;
use std::sync::Wait;
use std::test::Fail;
use std::thread::Threads;

/// A file, what one station sends, what it is answered, and the file after that.
struct Talk {
    file: &'static str,
    sent: &'static str,
    answered: &'static str,
    after: &'static str,
}

const TALKS: [Talk; 10] = [
    Talk {
        file: "",
        sent: "slice 0 10\n",
        answered: "ok 0\n",
        after: "cutroom journal 1\n+0 1 slice 0 10\n-",
    },
    Talk {
        file: "cutroom journal 1\n+0 1 slice 0 10\n-",
        sent: "slice 0 20\n",
        answered: "ok 1\n",
        after: "cutroom journal 1\n+0 1 slice 0 10\n+0 2 slice 0 20\n-",
    },
    // nothing is kept of questions and refusals; they are told of what was kept
    Talk {
        file: "cutroom journal 1\n+0 1 slice 0 10\n-",
        sent: "point\nremove 0 99\nwhat\notio 2\nview 0 0 1",
        answered: "point 1\nno 1 E2\nbad B1\nno 1 V3\nseen 1 @0 3600 1\n",
        after: "cutroom journal 1\n+0 1 slice 0 10\n-",
    },
    // lines are numbered after the last that was kept, however many were sent between
    Talk {
        file: "cutroom journal 1\n+0 7 slice 0 10\n-",
        sent: "point\nslice 0 20\npoint\n",
        answered: "point 1\nok 1\npoint 2\n",
        after: "cutroom journal 1\n+0 7 slice 0 10\n+0 9 slice 0 20\n-",
    },
    // what follows the gate does not count, and goes
    Talk {
        file: "cutroom journal 1\n+0 1 slice 0 10\n-0 2 slice 0 20\n+",
        sent: "point\n",
        answered: "point 1\n",
        after: "cutroom journal 1\n+0 1 slice 0 10\n-",
    },
    // any byte but a plus is a gate, and stays
    Talk {
        file: "cutroom journal 1\n+0 1 slice 0 10\nx",
        sent: "point\n",
        answered: "point 1\n",
        after: "cutroom journal 1\n+0 1 slice 0 10\nx",
    },
    // at most 19 bytes are a new file, whatever they are
    Talk {
        file: "no journal but 19 !",
        sent: "slice 0 10\n",
        answered: "ok 0\n",
        after: "cutroom journal 1\n+0 1 slice 0 10\n-",
    },
    Talk {
        file: "cutroom journal 1\n-",
        sent: "",
        answered: "",
        after: "cutroom journal 1\n-",
    },
    // the greatest number that a kept entry may have
    Talk {
        file: "cutroom journal 1\n+0 4000000000 slice 0 10\n-",
        sent: "slice 0 20\n",
        answered: "ok 1\n",
        after: "cutroom journal 1\n+0 4000000000 slice 0 10\n+0 4000000001 slice 0 20\n-",
    },
    // three lines of one piece are three records
    Talk {
        file: "",
        sent: "slice 0 10\nslice 0 20\nslice 0 30\n",
        answered: "ok 0\nok 1\nok 2\n",
        after: "cutroom journal 1\n+0 1 slice 0 10\n+0 2 slice 0 20\n+0 3 slice 0 30\n-",
    },
];

// What comes of a talk.
fn talked<R: Threads + Wait + Sync>(rt: &R, alloc: Global, talk: &Talk) -> Result<Ended, Fail> {
    let storing = Storing {
        file: talk.file.as_bytes(),
        failing: &[],
        words: ALONE,
        sent: &[talk.sent],
        writes: &[],
    };
    stored(rt, alloc, &storing)
}

#[test]
fn a_room_goes_on_from_its_file(rt: HostRuntime) -> Result<(), Fail> {
    let alloc = rt.alloc();
    for talk in &TALKS {
        let ended = talked(&rt, alloc, talk)?;
        assert!(rt; ended.status == 0, "{}: {}", talk.file, ended.status);
        assert!(rt; ended.output.as_str() == "", "{}", talk.file);
        let taken = ended.taken.first().ok_or("a station")?;
        assert!(rt; taken.as_str() == talk.answered, "{}: {}", talk.file, taken);
        assert!(rt;
            ended.bytes() == talk.after.as_bytes(),
            "{}: {}",
            talk.file,
            talk.sent
        );
    }
    Ok(())
}

// The records of a file with these two, whichever came first.
const EITHER: [&str; 2] = [
    "cutroom journal 1\n+0 3 slice 0 10\n+0 4 slice 0 20\n+1 1 slice 1 20\n-",
    "cutroom journal 1\n+0 3 slice 0 10\n+1 1 slice 1 20\n+0 4 slice 0 20\n-",
];

#[test]
fn two_stations_share_a_file(rt: HostRuntime) -> Result<(), Fail> {
    let alloc = rt.alloc();
    for _ in 0..20 {
        let storing = Storing {
            file: b"cutroom journal 1\n+0 3 slice 0 10\n-",
            failing: &[],
            words: TWO,
            sent: &["slice 0 20\n", "slice 1 20\n"],
            writes: &[],
        };
        let ended = stored(&rt, alloc, &storing)?;
        assert!(rt; ended.status == 0);
        let one = ended.taken.get(0).ok_or("a station")?.as_str();
        let two = ended.taken.get(1).ok_or("another")?.as_str();
        let first = ended.bytes() == EITHER[0].as_bytes();
        let second = ended.bytes() == EITHER[1].as_bytes();
        assert!(rt; first || second);
        let want = if first {
            ("ok 1\n", "ok 2\n")
        } else {
            ("ok 2\n", "ok 1\n")
        };
        assert!(rt; (one, two) == want, "{one}{two}");
    }
    Ok(())
}
