// The call that the program makes.
ghost use Rattle.std.specs.Prelude.{◌≡◌, ◌<◌, ◌≤◌, ◌⊎◌, [], Some, length, vec_capacity};
ghost use Rattle.audit_command.specs.Audits.{AuditEnds};
ghost use Rattle.command_words.specs.Records.{records_of};
ghost use Rattle.command_words.specs.Commands.{command_of, least_tracks, most_tracks, most_reels, least_stations, most_stations};
ghost use Rattle.journal_text.specs.Journals.{HasRoomForText, HasText};
ghost use Rattle.otio_json.specs.Openings.{plain_opening};
ghost use Rattle.otio_json.specs.Soundness.{IsSoundOpening};
ghost use Rattle.station_sessions.specs.Outside.{outside};
ghost use Rattle.otio_json.specs.declared.opening.Opening.{Opening as OpeningOf};
ghost use Rattle.command_files.specs.Ports.{change, disk_told, input_told, output_told};
ghost use Rattle.list_commands.specs.Cuts.{namer_told};
ghost use Rattle.cut_server.specs.Runs.{both, JournalEnds, RunEnds, RunsOver, DocumentEnds, ServeEnds, StoreEnds, CommandEnds, EndsWith};
ghost use Rattle.cut_server.specs.Unhindered.{IsUnhindered};
ghost use Rattle.station_sessions.specs.Served.{IsRoomOf};
ghost use Rattle.station_sessions.specs.SessionInside.{TrackOpening, opened_with};
ghost use Rattle.edit_journal.specs.Turns.{AreFresh};

use audit_command::audit;
use audit_command::laws::legal_sessions_are_not_refused;
use command_files::{Status, end_unopened, end_with, open_document};
use command_words::{Command, command_in, records_of};
use cut_room::{Room, RoomBlank};
use cut_steps::{CutCall, CutObject, CutPart};
use edit_journal::{Naming, Pass};
use follow_command::{accepted_streams_are_not_refused, follow};
use journal_text::{journal_room, journal_text_into};
use line_words::Words;
use list_commands::{CutPlace, import_file, list_cut, play_list};
use otio_json::Opening;
use reel_names::ReelNamer;
use room_core::Entry;
use room_disks::Disk;
use room_files::Files;
use room_halls::Hall;
use room_keepers::KeepsNothing;
use room_ports::{Gate, Line, Pair, Sink, Source, put};
use served_rooms::{Venue, make_session, serve_opened};
use station_sessions::{End, Session, Setting, begin_room, serve_session};
use std::alloc::Global;
use std::marker::Brand;
use std::sync::Wait;
use std::thread::Threads;
use stored_rooms::{accepted_files_are_not_refused, store_opened};
use timecode12::Counting;

// Puts the journal's text after the replies, by way of the memory that was taken for it.
fn put_journal<L: Line>(mut text: Vec<u8>, entries: &[Entry<CutCall>], line: &mut L) -> Status
    requires text { HasText entries.now }
    requires room { HasRoomForText text }
    ensures ends { JournalEnds entries.now
        (outside (L.left line.old) (L.read_faults line.old) (L.taken line.old)
        (L.write_faults line.old))
        (outside (L.left line.new) (L.read_faults line.new) (L.taken line.new)
        (L.write_faults line.new)) result }
    ensures lent { L.lent line.new ≡ L.lent line.old }
{
    journal_text_into(&mut text, entries);
    match put(line, &text) {
        Ok(()) => Status::Done,
        Err(_) => Status::WriteFault,
    }
}

// Serves the session of the one station of a room that has just been opened, and puts its journal's text after the replies.
fn run_session<R: Wait, G: Gate, J: Naming<CutObject, CutPart>, L: Line>(
    rt: &R,
    alloc: Global,
    room: Room<CutObject, J>,
    passes: Vec<Pass<CutObject, J>>,
    setting: Setting,
    text: Vec<u8>,
    line: &mut L,
    gate: &G,
) -> Status
    requires passes { AreFresh J.opening 1 passes.items }
    requires room { J.opening ≡ Some (room.object, room.parts) }
    requires stations { room.stations ≡ 1 }
    requires opened { (o : OpeningOf) × IsRoomOf o room setting.counting setting.start }
    requires text { HasRoomForText text }
    ensures ends { (o : OpeningOf) → IsRoomOf o room setting.counting setting.start → RunEnds o
        (outside (L.left line.old) (L.read_faults line.old) (L.taken line.old)
        (L.write_faults line.old))
        (outside (L.left line.new) (L.read_faults line.new) (L.taken line.new)
        (L.write_faults line.new)) ⊥ result }
    ensures lent { L.lent line.new ≡ L.lent line.old }
{
    let (mut passes, pass) = only_pass(passes);
    let keeper = &KeepsNothing;
    let Session {
        pass,
        end,
        taken: _,
    } = serve_session(rt, alloc, &room, gate, keeper, pass, setting, line);
    passes.push_reserved(pass);
    let entries = room.close(passes);
    match end {
        End::Ended => put_journal(text, &entries, line),
        End::ReadFault => Status::ReadFault,
        End::WriteFault => Status::WriteFault,
        End::TooMuchInput => Status::TooMuchInput,
        End::DiskFault => unreachable!(),
        End::KeepMemory => unreachable!(),
    }
}

// The pass of the one station, and room for it.
fn only_pass<J: Naming<CutObject, CutPart>>(
    passes: Vec<Pass<CutObject, J>>,
) -> (Vec<Pass<CutObject, J>>, Pass<CutObject, J>)
    requires { AreFresh J.opening 1 passes.items }
    ensures pass { (result.1.number ≡ 0) × (result.1.entries ≡ []) }
    ensures none { result.0.items ≡ [] }
    ensures room { 0 < vec_capacity result.0 }
{
    let mut passes = passes;
    match passes.pop() {
        Some(pass) => (passes, pass),
        None => unreachable!(),
    }
}

// Serves the one station over an input and an output that are lent, and puts the journal's text after the replies.
fn run_over<R: Wait, G: Gate, J: Naming<CutObject, CutPart>, S: Source, K: Sink>(
    rt: &R,
    alloc: Global,
    room: Room<CutObject, J>,
    passes: Vec<Pass<CutObject, J>>,
    setting: Setting,
    text: Vec<u8>,
    input: &mut S,
    output: &mut K,
    gate: &G,
) -> Status
    requires passes { AreFresh J.opening 1 passes.items }
    requires room { J.opening ≡ Some (room.object, room.parts) }
    requires stations { room.stations ≡ 1 }
    requires opened { (o : OpeningOf) × IsRoomOf o room setting.counting setting.start }
    requires text { HasRoomForText text }
    ensures { (o : OpeningOf) → IsRoomOf o room setting.counting setting.start → RunEnds o
        (both (input_told S.left S.read_faults input.old)
        (output_told K.taken K.write_faults output.old))
        (both (input_told S.left S.read_faults input.new)
        (output_told K.taken K.write_faults output.new)) ⊥ result }
{
    let mut line = Pair { input, output };
    run_session(rt, alloc, room, passes, setting, text, &mut line, gate)
}

// A run of one station in the room of a blank. The memory for the journal's text is taken before the first read.
fn run_blank<R: Wait, G: Gate, J: Naming<CutObject, CutPart>, S: Source, K: Sink>(
    rt: &R,
    alloc: Global,
    blank: RoomBlank<CutObject>,
    setting: Setting,
    input: &mut S,
    output: &mut K,
    gate: &G,
) -> Status
    requires table { J.table ≡ blank.journal.table }
    requires opening { J.opening ≡ blank.journal.opening }
    requires stations { J.stations ≡ blank.journal.stations }
    requires one { blank.stations ≡ 1 }
    requires opened { (o : OpeningOf) × (opening : TrackOpening)
        × (blank.journal.opening ≡ Some opening)
        × IsRoomOf o (opened_with opening blank.stations) setting.counting setting.start }
    ensures { (o : OpeningOf) (opening : TrackOpening) → blank.journal.opening ≡ Some opening
        → IsRoomOf o (opened_with opening blank.stations) setting.counting setting.start
        → RunsOver o
        (change (input_told S.left S.read_faults) input.old input.new)
        (change (output_told K.taken K.write_faults) output.old output.new) result }
{
    let (room, passes) = match Room::<CutObject, J>::open(alloc, blank) {
        Ok(opened) => opened,
        Err(_) => return Status::OutOfMemory,
    };
    let text = match journal_room(alloc) {
        Ok(text) => text,
        Err(_) => return Status::OutOfMemory,
    };
    run_over(rt, alloc, room, passes, setting, text, input, output, gate)
}

// A run of one station in a room that begins so.
fn run_opened<R: Wait, G: Gate, S: Source, K: Sink>(
    rt: &R,
    alloc: Global,
    opening: Opening,
    input: &mut S,
    output: &mut K,
    gate: &G,
) -> Status
    requires sound { IsSoundOpening opening }
    requires some { 0 < length opening.tracks }
    ensures { RunsOver opening
        (change (input_told S.left S.read_faults) input.old input.new)
        (change (output_told K.taken K.write_faults) output.old output.new) result }
{
    let (blank, setting) = match begin_room(alloc, opening, 1) {
        Ok(begun) => begun,
        Err(_) => return Status::OutOfMemory,
    };
    run_blank::<R, G, Brand, S, K>(rt, alloc, blank, setting, input, output, gate)
}

// A run of one station in a plain room.
fn run_plain<R: Wait, G: Gate, S: Source, K: Sink>(
    rt: &R,
    alloc: Global,
    tracks: u32,
    reels: u32,
    input: &mut S,
    output: &mut K,
    gate: &G,
) -> Status
    requires least { least_tracks ≤ tracks }
    requires tracks { tracks ≤ most_tracks }
    requires reels { reels ≤ most_reels }
    ensures { RunsOver (plain_opening tracks reels)
        (change (input_told S.left S.read_faults) input.old input.new)
        (change (output_told K.taken K.write_faults) output.old output.new) result }
{
    let opening = match Opening::plain(alloc, tracks, reels) {
        Ok(opening) => opening,
        Err(_) => return Status::OutOfMemory,
    };
    run_opened(rt, alloc, opening, input, output, gate)
}

// A run of one station in the room of a document.
fn run_document<R: Wait, G: Gate, F: Files, S: Source, K: Sink>(
    rt: &R,
    alloc: Global,
    name: &str,
    counting: &Counting,
    files: &mut F,
    input: &mut S,
    output: &mut K,
    gate: &G,
) -> Status
    ensures { DocumentEnds name.now counting.now (change F.told files.old files.new)
        (change (output_told K.taken K.write_faults) output.old output.new)
        (change (input_told S.left S.read_faults) input.old input.new) result }
{
    match open_document(alloc, files, name, counting) {
        Ok(opening) => run_opened(rt, alloc, opening, input, output, gate),
        Err(fault) => end_unopened(fault, output),
    }
}

// Serves the stations of a place in the room of a document.
fn serve_document<R: Threads + Wait + Sync, F: Files, K: Sink, H: Hall, G: Gate + Sync>(
    rt: &R,
    alloc: Global,
    name: &str,
    counting: &Counting,
    place: &Venue<'_>,
    files: &mut F,
    output: &mut K,
    hall: &mut H,
    gate: &G,
) -> Status
    requires least { least_stations ≤ place.now.stations }
    requires most { place.now.stations ≤ most_stations }
    ensures { ServeEnds name.now counting.now (change F.told files.old files.new)
        (change (output_told K.taken K.write_faults) output.old output.new)
        place.now.stations place.now.address.now place.now.journal.now
        (change H.told hall.old hall.new) result }
{
    match open_document(alloc, files, name, counting) {
        Ok(opening) => serve_opened(rt, alloc, opening, place, files, hall, gate),
        Err(fault) => end_unopened(fault, output),
    }
}

// Serves the stations of a place in the room of a document, whose journal is kept on a disk as it grows.
fn store_document<
    R: Threads + Wait + Sync,
    F: Files,
    D: Disk + Send + Drop,
    K: Sink,
    H: Hall,
    G: Gate + Sync,
>(
    rt: &R,
    alloc: Global,
    name: &str,
    counting: &Counting,
    place: &Venue<'_>,
    files: &mut F,
    disk: D,
    output: &mut K,
    hall: &mut H,
    gate: &G,
) -> (Status, D)
    requires least { least_stations ≤ place.now.stations }
    requires most { place.now.stations ≤ most_stations }
    ensures { StoreEnds name.now counting.now (change F.told files.old files.new)
        (change (output_told K.taken K.write_faults) output.old output.new)
        place.now.stations place.now.address.now place.now.journal.now
        (change H.told hall.old hall.new)
        (change (disk_told D.file D.course D.faults) disk result.1) result.0 }
{
    match open_document(alloc, files, name, counting) {
        Ok(opening) => store_opened(rt, alloc, opening, place, disk, output, hall, gate),
        Err(fault) => (end_unopened(fault, output), disk),
    }
}

// Audits what was recorded in the files that these words name.
fn audit_words<F: Files, K: Sink>(
    alloc: Global,
    files: &mut F,
    document: &str,
    counting: &Counting,
    journal: &str,
    words: &Words,
    output: &mut K,
) -> Status
    requires words { 5 ≤ length words.now }
    requires some { least_stations ≤ length (records_of words.now) }
    requires few { length (records_of words.now) ≤ most_stations }
    ensures { AuditEnds document.now counting.now journal.now (records_of words.now)
        (change F.told files.old files.new)
        (change (output_told K.taken K.write_faults) output.old output.new) result }
{
    let records = records_of(words);
    audit(
        alloc,
        files,
        document,
        counting,
        journal,
        records.as_slice(),
        output,
    )
}

// Does what the words ask for.
fn do_command<
    R: Threads + Wait + Sync,
    F: Files,
    D: Disk + Send + Drop,
    S: Source,
    K: Sink,
    H: Hall,
    G: Gate + Sync,
>(
    rt: &R,
    alloc: Global,
    words: &Words,
    files: &mut F,
    disk: D,
    input: &mut S,
    output: &mut K,
    hall: &mut H,
    gate: &G,
    namer: Box<dyn ReelNamer>,
) -> (Status, D)
    ensures { CommandEnds (change F.told files.old files.new)
        (change (disk_told D.file D.course D.faults) disk result.1)
        (change (input_told S.left S.read_faults) input.old input.new)
        (change (output_told K.taken K.write_faults) output.old output.new)
        (change H.told hall.old hall.new)
        (namer_told (rule namer) (given namer)) (command_of words.now) result.0 }
{
    match &command_in(words) {
        Some(Command::Run { tracks, reels }) => {
            (
                run_plain(rt, alloc, *tracks, *reels, input, output, gate),
                disk,
            )
        }
        Some(Command::RunDocument { document, counting }) => (
            run_document(rt, alloc, document, counting, files, input, output, gate),
            disk,
        ),
        Some(
            Command::Serve {
                document,
                counting,
                stations,
                address,
                journal,
            },
        ) => {
            let place = Venue {
                stations: *stations,
                address: *address,
                journal: *journal,
            };
            let status = serve_document(
                rt, alloc, document, counting, &place, files, output, hall, gate,
            );
            (status, disk)
        }
        Some(
            Command::Store {
                document,
                counting,
                stations,
                address,
                journal,
            },
        ) => {
            let place = Venue {
                stations: *stations,
                address: *address,
                journal: *journal,
            };
            store_document(
                rt, alloc, document, counting, &place, files, disk, output, hall, gate,
            )
        }
        Some(
            Command::ListCut {
                document,
                counting,
                journal,
                point,
            },
        ) => {
            let place = CutPlace {
                document: *document,
                counting: *counting,
                journal: *journal,
                point: *point,
            };
            (list_cut(alloc, files, &place, namer, output), disk)
        }
        Some(Command::PlayList { name, rate }) => {
            (play_list(alloc, files, name, *rate, output), disk)
        }
        Some(Command::Import { name, counting }) => {
            (import_file(alloc, files, name, counting, output), disk)
        }
        Some(Command::Follow { document, counting }) => {
            (
                follow(alloc, files, document, counting, input, output),
                disk,
            )
        }
        Some(
            Command::Audit {
                document,
                counting,
                journal,
                words,
            },
        ) => {
            let status = audit_words(alloc, files, document, counting, journal, words, output);
            (status, disk)
        }
        Some(Command::Make { number, count }) => {
            (make_session(rt, alloc, *number, *count, output, gate), disk)
        }
        None => (
            end_with(Status::NoCommand, b"refused words\n", output),
            disk,
        ),
    }
}

/// Does what the words ask for, over these files, this input, this output and this hall, and answers the status that the
/// program ends with.
///
/// `run TRACKS REELS` is one station in a room of TRACKS empty video tracks (1 to 32) and REELS reels (0 to 999), each
/// with 86,400 frames, at 24 frames a second. `run DOC RATE DROP` is one in the room that the document in the file DOC
/// describes, of at most 32 MiB. RATE is a number such as `24` or `29.97`, and DROP is `ndf`, or `drop` at 30000/1001. The
/// station answers each line of the input and then puts the journal's text.
///
/// `serve DOC RATE DROP STATIONS ADDRESS JOURNAL` opens the hall at ADDRESS, seats the stations from 0 on (1 to 16) in such a
/// room, and serves them all at once, each over its line. When all have ended, the journal's text is put into the file
/// JOURNAL. A station that ends with a fault does not end the others.
///
/// `store DOC RATE DROP STATIONS ADDRESS JOURNAL` serves stations in the same way, and keeps the room's journal in the file
/// JOURNAL of the disk as it grows: the room goes on from the entries that the file has, and no reply is put before the
/// file holds all entries that it tells of. Every other command gives the disk back as it is.
///
/// `list DOC RATE DROP JOURNAL POINT` puts the CMX 3600 list of the cut after the first POINT entries of the journal in the
/// file JOURNAL, of at most 64 MiB, whose room the document describes. The namer gives its reels their names; a last word
/// `numbered` tells the program which namer to hand in. `tape LIST RATE` puts the tape of the list in the file LIST, of at
/// most 32 MiB. `import LIST RATE DROP` puts the document of such a list in a line, with its channels V, A and A2 as tracks,
/// if that has at most 32 MiB; it opens as the same cut.
///
/// `follow DOC RATE DROP` reads what a station was sent in the room of the document, and takes the entries that its lines
/// `news` tell. At the end of the input it puts how many these are, and each track with its items after them.
///
/// `audit DOC RATE DROP JOURNAL LINES REPLIES ..` reads the journal of a document's room in the file JOURNAL, and what was
/// recorded of its stations, each in its turn: what it sent, of at most 64 MiB, in the file LINES, and what it got in the file
/// REPLIES; `cut` follows where its session was cut short. It puts how many entries and replies are explained, or the first
/// that is not.
///
/// | Status | Comes where |
/// |---|---|
/// | 0 | each input was read to its end, every line was answered, all was written |
/// | 1 | a read of the input, of a line or of a file failed |
/// | 2 | a write of the output, of a line or of the journal's file failed |
/// | 3 | the words are no command |
/// | 4 | the document, the journal, the kept file, the list, a followed line or what was recorded is refused, or the list has no document, and a line tells why |
/// | 5 | the hall was not opened, or a station not seated: no session was begun |
/// | 6 | out of memory: nothing was begun, or there was none for a list, a mirror or an audit |
/// | 7 | the input, or a line, gave more than 64 MiB, or a recorded file is too long |
/// | 8 | the cut has no list, and a line tells why |
/// | 9 | a call on the disk failed: nothing was begun, or a session broke off without the reply to its last line |
///
/// Of several stations the status is that of the lowest whose status is not 0, and then that of the journal's file.
pub fn cut_main<
    R: Threads + Wait + Sync,
    F: Files,
    D: Disk + Send + Drop,
    S: Source,
    K: Sink,
    H: Hall,
    G: Gate + Sync,
>(
    rt: &R,
    alloc: Global,
    words: &Words,
    files: &mut F,
    disk: D,
    input: &mut S,
    output: &mut K,
    hall: &mut H,
    gate: &G,
    namer: Box<dyn ReelNamer>,
) -> (u8, D)
    // The headline: whatever the stations send at once, in whatever pieces, the room's journal is one legal serial history,
    // each committed edit stands in it once, after all its station had been told of, and every reply names its point there
    // and says what the entries before it give. Linked items keep one offset at every point of it. A list that is put, read
    // again, plays as exactly the frames and weights of the cut; the document of a list shows what the list's tape shows, and
    // opens as that cut. What is kept on the disk outlives a stop: whatever a crash leaves, its records are the first entries
    // of the journal, and nothing that any reply told of is missing. `CommandEnds` says for each command and each status what
    // was read, what was written and which count of faults rose, by what the files, the disk, the input, the output and the
    // hall told before and tell after.
    ensures ends { EndsWith result.0 (CommandEnds (change F.told files.old files.new)
        (change (disk_told D.file D.course D.faults) disk result.1)
        (change (input_told S.left S.read_faults) input.old input.new)
        (change (output_told K.taken K.write_faults) output.old output.new)
        (change H.told hall.old hall.new)
        (namer_told (rule namer) (given namer)) (command_of words.now)) }
    // Completeness: where the words are a command's, what it reads is accepted, no input has more than 64 MiB and no
    // count of faults rises, the status is 0, or 6 where memory runs out.
    ensures complete { IsUnhindered (change F.told files.old files.new)
        (change (disk_told D.file D.course D.faults) disk result.1)
        (change (input_told S.left S.read_faults) input.old input.new)
        (change (output_told K.taken K.write_faults) output.old output.new)
        (change H.told hall.old hall.new)
        (namer_told (rule namer) (given namer)) (command_of words.now)
        → (result.0 ≡ 0) ⊎ (result.0 ≡ 6) }
{
    accepted_files_are_not_refused();
    accepted_streams_are_not_refused();
    legal_sessions_are_not_refused();
    let (status, disk) = do_command(
        rt, alloc, words, files, disk, input, output, hall, gate, namer,
    );
    (status.number(), disk)
}
