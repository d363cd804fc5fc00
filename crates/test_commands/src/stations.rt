// Stations of a hall over memory, served at once.
use crate::documents::document_of;
use crate::turns::{Deeds, HeldHall, Hold, HoldingGate, Until};
use room_files::{Files, MemFiles};
use room_halls::{Hall, MemHall};
use room_ports::{MemLine, MemSink, MemSource};
use std::alloc::Global;
use std::sync::{Arc, Wait};
use std::test::Fail;
use std::thread::Threads;
use test_runs::served_over;

/// What is served: a room of so many tracks with so many clips, and what each station sends. Of each line these reads and
/// writes fail, of the hall and of the files these calls; some stations wait before their first read, and some at the gate.
#[derive(Clone, Copy)]
pub(crate) struct Serving<'a> {
    pub(crate) tracks: u32,
    pub(crate) clips: u32,
    pub(crate) sent: &'a [&'a str],
    pub(crate) reads: &'a [u32],
    pub(crate) writes: &'a [u32],
    pub(crate) calls: &'a [u32],
    pub(crate) files: &'a [u32],
    pub(crate) held: &'a [Hold],
    pub(crate) at_gate: &'a [Hold],
}

/// The status, what each line took, what the journal's file holds, whether one that waited waited in vain, and whether
/// the hall was used as it is not to be.
#[derive(Drop)]
pub(crate) struct Served {
    pub(crate) status: u8,
    pub(crate) taken: Vec<String>,
    pub(crate) journal: Option<Vec<u8>>,
    pub(crate) gave_up: bool,
    pub(crate) misused: bool,
}

// A room of two tracks of one clip where nothing fails and nobody waits.
fn serving_of<'a>(sent: &'a [&'a str]) -> Serving<'a> {
    Serving {
        tracks: 2,
        clips: 1,
        sent,
        reads: &[],
        writes: &[],
        calls: &[],
        files: &[],
        held: &[],
        at_gate: &[],
    }
}

// Lines that give these texts, on each of which these reads and writes fail.
fn lines_of(
    alloc: Global,
    sent: &[&str],
    reads: &[u32],
    writes: &[u32],
) -> Result<Vec<MemLine>, Fail> {
    let mut lines = Vec::new(alloc);
    for text in sent {
        let mut pieces = Vec::new(alloc);
        pieces.push(text.as_bytes().to_vec(alloc)?)?;
        lines.push(MemLine {
            input: MemSource::new(pieces, reads.to_vec(alloc)?),
            output: MemSink::new(alloc, writes.to_vec(alloc)?),
        })?;
    }
    Ok(lines)
}

// What the lines of a hall took that has all of them.
fn taken_of(alloc: Global, hall: &mut MemHall, stations: usize) -> Result<Vec<String>, Fail> {
    let mut taken = Vec::new(alloc);
    let mut station = 0u32;
    for _ in 0..stations {
        match hall.seat_station(alloc, station) {
            Ok(line) => {
                let bytes = line.output.bytes().ok_or("told")?;
                taken.push(String::from_utf8_lossy(alloc, bytes)?)?;
            }
            Err(_) => {}
        }
        station = station.saturating_add(1);
    }
    Ok(taken)
}

// The files, of which one is the document.
fn files_of(alloc: Global, serving: &Serving<'_>) -> Result<MemFiles, Fail> {
    let mut files = MemFiles::new(alloc, serving.files.to_vec(alloc)?);
    files.put("cut", &document_of(alloc, serving.tracks, serving.clips)?)?;
    Ok(files)
}

// The hall, over whose lines the stations send.
fn hall_of(
    alloc: Global,
    serving: &Serving<'_>,
    deeds: &Arc<Deeds, Global>,
) -> Result<HeldHall, Fail> {
    let lines = lines_of(alloc, serving.sent, serving.reads, serving.writes)?;
    Ok(HeldHall {
        hall: MemHall::new(alloc, lines, serving.calls.to_vec(alloc)?),
        holds: serving.held.to_vec(alloc)?,
        deeds: Arc::try_clone(deeds)?,
    })
}

// Serves stations over a hall in memory, and tells what came of it.
pub(crate) fn serve<R: Threads + Wait + Sync>(
    rt: &R,
    alloc: Global,
    serving: &Serving<'_>,
) -> Result<Served, Fail> {
    let deeds = Arc::new(alloc, Deeds::none())?;
    let mut files = files_of(alloc, serving)?;
    let mut hall = hall_of(alloc, serving, &deeds)?;
    let gate = HoldingGate {
        deeds: &deeds,
        holds: serving.at_gate,
    };
    let stations = serving.sent.len();
    let words = format!(in alloc; "serve cut 24 ndf {stations} hall out.journal")?;
    let status = served_over(rt, alloc, words.as_str(), &mut files, &mut hall, &gate)?;
    Ok(Served {
        status,
        taken: taken_of(alloc, &mut hall.hall, stations)?,
        journal: files.read_file(alloc, "out.journal", 1_000_000).ok(),
        gave_up: deeds.gave_up(),
        misused: deeds.misused(),
    })
}

// Whether all is answered and kept so, with status 0, and nobody waited in vain.
fn is_served_so<R: Threads + Wait + Sync>(
    rt: &R,
    alloc: Global,
    serving: &Serving<'_>,
    replies: [&str; 2],
    journal: &str,
) -> Result<bool, Fail> {
    let served = serve(rt, alloc, serving)?;
    let kept = served.journal.ok_or("a journal")?;
    let mut all = kept.as_slice() == journal.as_bytes()
        && served.status == 0
        && !served.gave_up
        && !served.misused;
    for (taken, wanted) in served.taken.iter().zip(replies) {
        all = all && taken.as_str() == wanted;
    }
    Ok(all)
}

#[test]
fn a_cut_reply_leaves_its_edit(rt: HostRuntime) -> Result<(), Fail> {
    let alloc = rt.alloc();
    let serving = Serving {
        writes: &[2],
        ..serving_of(&["slice 0 2\nslice 0 3\n"])
    };
    let ended = serve(&rt, alloc, &serving)?;
    assert_eq!(rt; ended.status, 2);
    assert_eq!(rt; ended.taken.len(), 1);
    for taken in &ended.taken {
        assert_eq!(rt; taken.as_str(), "ok 0\n");
    }
    let journal = ended.journal.ok_or("a journal")?;
    assert_eq!(rt;
        journal.as_slice(),
        "journal 2\n0 1 slice 0 2\n0 2 slice 0 3\n".as_bytes()
    );
    Ok(())
}

// The read after the first piece of each line fails: what was read is answered, and the journal is written even so.
#[test]
fn a_read_that_fails_leaves_the_journal(rt: HostRuntime) -> Result<(), Fail> {
    let alloc = rt.alloc();
    let serving = Serving {
        reads: &[2],
        ..serving_of(&["slice 0 2\n", "slice 1 3\n"])
    };
    let ended = serve(&rt, alloc, &serving)?;
    assert_eq!(rt; ended.status, 1);
    let journal = ended.journal.ok_or("a journal")?;
    assert_eq!(rt;
        journal.len(),
        "journal 2\n0 1 slice 0 2\n1 1 slice 1 3\n".len()
    );
    Ok(())
}

// Each call of the hall and of the files fails in its turn, of a room of two stations. Where one of the hall fails no
// session is begun; where the journal's file can't be written all have been answered.
#[test]
fn each_call_of_the_hall_and_the_files_may_fail(rt: HostRuntime) -> Result<(), Fail> {
    let alloc = rt.alloc();
    let table = [
        (1u32, 9u32, 5u8, ""),
        (2, 9, 5, ""),
        (3, 9, 5, ""),
        (9, 1, 1, ""),
        (9, 2, 2, "ok 0\n"),
    ];
    for (call, file, status, wanted) in table {
        let calls = [call];
        let files = [file];
        let serving = Serving {
            calls: &calls,
            files: &files,
            ..serving_of(&["slice 0 2\n", ""])
        };
        let ended = serve(&rt, alloc, &serving)?;
        assert_eq!(rt; ended.status, status, "hall {call} files {file}");
        assert!(rt; ended.journal.is_none(), "hall {call} files {file}");
        for (taken, wanted) in ended.taken.iter().zip([wanted, ""]) {
            assert_eq!(rt; taken.as_str(), wanted, "hall {call} files {file}");
        }
    }
    Ok(())
}

// Two stations send one edit of one track: the journal tells which came first.
#[test]
fn two_stations_have_one_journal(rt: HostRuntime) -> Result<(), Fail> {
    let alloc = rt.alloc();
    let ended = serve(&rt, alloc, &serving_of(&["slice 0 2\n", "slice 0 2\n"]))?;
    assert_eq!(rt; ended.status, 0);
    assert_eq!(rt; ended.taken.len(), 2);
    let journal = ended.journal.ok_or("a journal")?;
    let wanted = match journal.as_slice()
        == "journal 2\n0 1 slice 0 2\n1 1 slice 0 2\n".as_bytes()
    {
        true => ["ok 0\n", "ok 1\n"],
        false => ["ok 1\n", "ok 0\n"],
    };
    for (taken, wanted) in ended.taken.iter().zip(wanted) {
        assert_eq!(rt; taken.as_str(), wanted);
    }
    Ok(())
}

// While an edit that applies waits at the gate, one of another track is done, put into the journal and answered.
#[test]
fn an_edit_is_answered_while_another_waits(rt: HostRuntime) -> Result<(), Fail> {
    let alloc = rt.alloc();
    let serving = Serving {
        at_gate: &[Hold {
            station: 0,
            until: Until::Replied(1),
        }],
        ..serving_of(&["trim 0 0 tail -4\n", "trim 1 0 tail -4\n"])
    };
    let replies = ["ok 1 by -4\n", "ok 0 by -4\n"];
    let journal = "journal 2\n1 1 trim 1 0 tail -4\n0 1 trim 0 0 tail -4\n";
    assert!(rt; is_served_so(&rt, alloc, &serving, replies, journal)?);
    Ok(())
}

// Two edits of two tracks stand at the gate at once: neither goes on before the other has come.
#[test]
fn two_edits_are_done_at_once(rt: HostRuntime) -> Result<(), Fail> {
    let alloc = rt.alloc();
    let serving = Serving {
        at_gate: &[
            Hold {
                station: 0,
                until: Until::Comes(1),
            },
            Hold {
                station: 1,
                until: Until::Comes(0),
            },
        ],
        ..serving_of(&["slice 0 2\n", "slice 1 3\n"])
    };
    let served = serve(&rt, alloc, &serving)?;
    assert_eq!(rt; served.status, 0);
    assert!(rt; !served.gave_up);
    Ok(())
}

// A question that a station sends first is answered by what another was told before.
#[test]
fn a_question_sees_what_others_did(rt: HostRuntime) -> Result<(), Fail> {
    let alloc = rt.alloc();
    let serving = Serving {
        held: &[Hold {
            station: 1,
            until: Until::Replied(0),
        }],
        ..serving_of(&["trim 0 0 tail -4\n", "items 0\npoint\n"])
    };
    let replies = ["ok 0 by -4\n", "items 1 0 @0 100 6 dark 4\npoint 1\n"];
    let journal = "journal 1\n0 1 trim 0 0 tail -4\n";
    assert!(rt; is_served_so(&rt, alloc, &serving, replies, journal)?);
    Ok(())
}

// A question is answered while another station, which sends nothing, is still there.
#[test]
fn a_question_is_answered_beside_a_silent_station(rt: HostRuntime) -> Result<(), Fail> {
    let alloc = rt.alloc();
    let serving = Serving {
        held: &[Hold {
            station: 0,
            until: Until::Replied(1),
        }],
        ..serving_of(&["", "point\n"])
    };
    let replies = ["", "point 0\n"];
    assert!(rt; is_served_so(&rt, alloc, &serving, replies, "journal 0\n")?);
    Ok(())
}

const SIXTEEN: [&str; 16] = [
    "slice 0 2\n",
    "slice 1 2\n",
    "slice 2 2\n",
    "slice 3 2\n",
    "slice 4 2\n",
    "slice 5 2\n",
    "slice 6 2\n",
    "slice 7 2\n",
    "slice 8 2\n",
    "slice 9 2\n",
    "slice 10 2\n",
    "slice 11 2\n",
    "slice 12 2\n",
    "slice 13 2\n",
    "slice 14 2\n",
    "slice 15 2\n",
];

// All stations are served at once: an edit of the first waits at the gate until the last one has its reply.
#[test]
fn sixteen_stations_are_served_at_once(rt: HostRuntime) -> Result<(), Fail> {
    let alloc = rt.alloc();
    let serving = Serving {
        tracks: 16,
        at_gate: &[Hold {
            station: 0,
            until: Until::Replied(15),
        }],
        ..serving_of(&SIXTEEN)
    };
    let served = serve(&rt, alloc, &serving)?;
    assert_eq!(rt; served.status, 0);
    assert!(rt; !served.gave_up && !served.misused);
    assert_eq!(rt; served.taken.len(), 16);
    for taken in &served.taken {
        assert!(rt; taken.as_str().starts_with("ok "));
    }
    Ok(())
}

// A line gives a byte more than 64 MiB; the other station's edit is in the journal even so.
#[test]
fn a_line_that_gives_too_much_leaves_the_journal(rt: HostRuntime) -> Result<(), Fail> {
    let alloc = rt.alloc();
    let text = String::from_utf8(vec![in alloc; b'x'; (1 << 26) + 1]?)?;
    let sent = ["slice 0 2\n", text.as_str()];
    let served = serve(&rt, alloc, &serving_of(&sent))?;
    assert_eq!(rt; served.status, 7);
    let journal = served.journal.ok_or("a journal")?;
    assert_eq!(rt; journal.as_slice(), "journal 1\n0 1 slice 0 2\n".as_bytes());
    Ok(())
}
