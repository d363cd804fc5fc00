// Rooms of two tracks that go on from kept files.
ghost use Rattle.std.specs.Prelude.{◌≡◌, ◌≤◌, [], Some, IfOk, length};
ghost use Rattle.edit_apply.specs.RoomTracks.{IsOpening};
ghost use Rattle.cut_steps.specs.CutSteps.{CutObject as CutObjectOf, KeptTrack};
ghost use Rattle.take_back.specs.Parts.{CanOpen};
ghost use Rattle.edit_journal.specs.Seats.{Opening as RoomOpening};
ghost use Rattle.edit_journal.specs.Turns.{AreFresh};

use crate::files::records_of;
use composables::Memory;
use cut_room::{Room, RoomBlank};
use cut_steps::{CutObject, CutPart, fresh_parts};
use edit_apply::Editor;
use edit_journal::{Naming, Pass};
use journal_file::Record;
use kept_rooms::{KeptFault, RecordCode, Remade, make_again};
use otio_json::Opening;
use std::alloc::Global;
use std::marker::Brand;
use std::sync::Wait;
use std::test::Fail;
use take_back::Backed;

// What is found of a room that has been made again: how many entries were kept, how many the room has,
// and the last numbers of its two stations.
type Found = (usize, u32, [u32; 2]);

fn found<R: Wait, J: Naming<CutObject, CutPart>>(
    rt: &R,
    room: &Room<CutObject, J>,
    remade: Remade<CutObject, J>,
) -> Found {
    let Remade {
        entries,
        passes,
        reader,
    } = remade;
    let (_, point) = room.point(rt, reader);
    let mut lasts = [0; 2];
    for k in 0..2 {
        if let Some(pass) = passes.get(k) {
            lasts[k] = pass.last();
        }
    }
    (entries.len(), point, lasts)
}

// The passes of two stations, and that of the desk.
fn without_desk<J: Naming<CutObject, CutPart>>(
    passes: Vec<Pass<CutObject, J>>,
) -> (Vec<Pass<CutObject, J>>, Pass<CutObject, J>)
    requires { AreFresh J.opening 3 passes.items }
    ensures stations { AreFresh J.opening (length result.0.items) result.0.items }
    ensures two { length result.0.items ≡ 2 }
    ensures none { result.1.entries ≡ [] }
{
    let mut passes = passes;
    match passes.pop() {
        Some(reader) => (passes, reader),
        None => unreachable!(),
    }
}

fn remade<R: Wait, J: Naming<CutObject, CutPart>>(
    rt: &R,
    alloc: Global,
    blank: RoomBlank<CutObject>,
    records: &[Record],
) -> Result<Found, KeptFault>
    requires table { J.table ≡ blank.journal.table }
    requires opening { J.opening ≡ blank.journal.opening }
    requires stations { J.stations ≡ blank.journal.stations }
    requires three { blank.stations ≡ 3 }
    requires opens { (o : RoomOpening CutObjectOf KeptTrack) × (blank.journal.opening ≡ Some o)
        × CanOpen (IsOpening o.0.object.table) o.1 }
    requires within { length records.now ≤ 100000 }
{
    let (room, passes) = Room::<CutObject, J>::open(alloc, blank)?;
    let (passes, reader) = without_desk(passes);
    let remade = make_again(rt, alloc, &room, passes, reader, records)?;
    Ok(found(rt, &room, remade))
}

// A room of two tracks without an item, for two stations and the desk.
fn blank_of(alloc: Global) -> Result<RoomBlank<CutObject>, Memory>
    ensures three { IfOk result (λ b. b.stations ≡ 3) }
    ensures opens { IfOk result (λ b. (o : RoomOpening CutObjectOf KeptTrack)
        × (b.journal.opening ≡ Some o) × CanOpen (IsOpening o.0.object.table) o.1) }
{
    let Opening {
        table,
        tracks,
        counting: _,
        start: _,
    } = Opening::plain(alloc, 2, 1)?;
    let parts = fresh_parts(alloc, tracks.into_vec())?;
    let object = Backed {
        object: Editor { table },
    };
    let blank = RoomBlank::new(alloc, object, parts, 3)?;
    Ok(blank)
}

// Such a room goes on from a file of these lines.
fn plain_remade<R: Wait>(rt: &R, alloc: Global, lines: &[&str]) -> Result<Found, KeptFault> {
    let records = records_of(alloc, lines)?;
    if records.len() > 100_000 {
        return Err(KeptFault::Memory);
    }
    let blank = blank_of(alloc)?;
    remade::<R, Brand>(rt, alloc, blank, &records)
}

// Twenty entries of two stations on two tracks.
const GOOD: [&str; 20] = [
    "0 1 overwrite 0 0 @0 0 100",
    "1 7 overwrite 1 0 @0 0 100",
    "0 2 slice 0 10",
    "0 3 slice 0 20",
    "1 8 slice 1 10",
    "0 4 slice 0 30",
    "1 9 slice 1 20",
    "1 4000 slice 1 30",
    "0 5 slice 0 40",
    "0 6 slice 0 50",
    "0 7 slice 0 60",
    "1 4001 slice 1 40",
    "1 4002 slice 1 50",
    "0 9 slice 0 70",
    "0 10 slice 0 80",
    "1 5000 slice 1 60",
    "1 5001 slice 1 70",
    "0 11 slice 0 90",
    "1 5002 slice 1 80",
    "1 4000000000 slice 1 90",
];

#[test]
fn a_good_file_is_a_room_again(rt: HostRuntime) {
    let alloc = rt.alloc();
    assert!(rt; plain_remade(&rt, alloc, &[]) == Ok((0, 0, [0, 0])));
    assert!(rt; plain_remade(&rt, alloc, &GOOD) == Ok((20, 20, [11, 4_000_000_000])));
}

const GIVEN: &str = "0 1 overwrite 0 0 @0 0 100";

// A second and a third record after a good one, and what is told: a code and the number of a
// record, or no code and the place of an entry that does not apply.
const ROWS: [(&str, &str, Option<RecordCode>, u32); 14] = [
    ("0 2 sli", "", Some(RecordCode::H1), 2),
    ("0 1 slice 0 10", "0 2 sli", Some(RecordCode::H4), 2),
    ("2 1 slice 0 10", "0 2 sli", Some(RecordCode::H6), 2),
    (
        "1 4000000001 slice 0 10",
        "0 2 sli",
        Some(RecordCode::H7),
        2,
    ),
    ("0 2 slice 0 200", "0 2 sli", None, 1),
    ("0 2 slice 2 10", "0 3 slice 0 20", None, 1),
    ("0 2 slice 0 10", "0 3 sli", Some(RecordCode::H1), 3),
    ("0 2 slice 0 10", "0 2 slice 0 20", Some(RecordCode::H4), 3),
    ("0 2 slice 0 10", "1 0 slice 0 20", Some(RecordCode::H4), 3),
    ("0 2 slice 0 10", "15 1 slice 0 20", Some(RecordCode::H6), 3),
    (
        "0 4000000000 slice 0 10",
        "0 4000000001 slice 0 20",
        Some(RecordCode::H7),
        3,
    ),
    ("0 2 slice 0 10", "0 3 slice 0 200", None, 2),
    ("0 2 slice 0 10", "1 1 slice 1 10", None, 2),
    ("0 2 slice 0 200", "0 3 slice 0 10", None, 1),
];

fn told_as(code: Option<RecordCode>, at: u32) -> KeptFault {
    match code {
        Some(code) => KeptFault::Refused { code, number: at },
        None => KeptFault::NotApplied { place: at },
    }
}

#[test]
fn the_first_record_that_fails_is_told(rt: HostRuntime) {
    let alloc = rt.alloc();
    for (second, third, code, at) in ROWS {
        let told = if third.is_empty() {
            plain_remade(&rt, alloc, &[GIVEN, second])
        } else {
            plain_remade(&rt, alloc, &[GIVEN, second, third])
        };
        assert!(rt; told == Err(told_as(code, at)), "{second}");
    }
}
