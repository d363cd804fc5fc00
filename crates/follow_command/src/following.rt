// The command: a mirror of a document's room, by a stream of replies.
ghost use Rattle.std.specs.Prelude.{◌≡◌, ◌<◌, length};
ghost use Rattle.otio_json.specs.Soundness.{IsSoundOpening};
ghost use Rattle.command_files.specs.Ports.{change, input_told, output_told};
ghost use Rattle.follow_command.specs.Goes.{CutMirror};
ghost use Rattle.follow_command.specs.Follows.{FollowEnds, MirrorEnds, StopEnds, WritesMirror};

use crate::follower::Follower;
use crate::mirror_text::mirror_text;
use crate::refusal::Stop;
use command_files::{Refusal, Status, end_unopened, end_with, open_document};
use cut_mirror::Mirror;
use cut_steps::{CutObject, cut_object, fresh_parts};
use input_lines::{InputStop, take_lines};
use otio_json::Opening;
use room_files::Files;
use room_ports::{Sink, Source};
use std::alloc::Global;
use timecode12::Counting;

// Puts what a mirror comes to on the output.
fn write_mirror<K: Sink>(alloc: Global, mirror: &Mirror<CutObject>, output: &mut K) -> Status
    ensures { WritesMirror mirror.now
        (change (output_told K.taken K.write_faults) output.old output.new) result }
{
    match mirror_text(alloc, mirror) {
        Ok(text) => end_with(Status::Done, text.as_slice(), output),
        Err(_) => Status::OutOfMemory,
    }
}

// Ends the command whose stream was not followed to its end: a refusal puts its line on the output.
fn end_stopped<K: Sink>(stop: InputStop<Stop>, output: &mut K) -> Status
    ensures { StopEnds stop
        (change (output_told K.taken K.write_faults) output.old output.new) result }
{
    match stop {
        InputStop::ReadFault => Status::ReadFault,
        InputStop::TooMuch => Status::TooMuchInput,
        InputStop::Stopped(Stop::Refused(refusal)) => {
            end_with(Status::Refused, refusal.line().as_bytes(), output)
        }
        InputStop::Stopped(Stop::Memory) => Status::OutOfMemory,
    }
}

// Follows a stream in the room that begins so.
fn follow_opened<S: Source, K: Sink>(
    alloc: Global,
    opening: Opening,
    input: &mut S,
    output: &mut K,
) -> Status
    requires sound { IsSoundOpening opening }
    requires some { 0 < length opening.tracks }
    ensures { MirrorEnds opening
        (change (input_told S.left S.read_faults) input.old input.new)
        (change (output_told K.taken K.write_faults) output.old output.new) result }
{
    let Opening {
        table,
        tracks,
        counting: _,
        start: _,
    } = opening;
    let parts = match fresh_parts(alloc, tracks.into_vec()) {
        Ok(parts) => parts,
        Err(_) => return Status::OutOfMemory,
    };
    let mirror = Mirror::open(alloc, cut_object(table), parts);
    let mut follower = Follower::new(alloc, mirror);
    match take_lines(&mut follower, input) {
        Ok(()) => write_mirror(alloc, follower.mirror(), output),
        Err(stop) => end_stopped(stop, output),
    }
}

/// Follows a room by the replies that one of its stations was sent: reads the document of the room in the file of this
/// name, takes the entries that the lines of the input tell, and at the input's end puts on the output how many entries
/// there are and what each track comes to. Lines that do not begin with the word `news` are passed over, and so are those
/// of more than 1,024 bytes.
///
/// At the first line that has a refusal it says which, and reads no further.
pub fn follow<F: Files, S: Source, K: Sink>(
    alloc: Global,
    files: &mut F,
    document: &str,
    counting: &Counting,
    input: &mut S,
    output: &mut K,
) -> Status
    ensures { FollowEnds document.now counting.now (change F.told files.old files.new)
        (change (input_told S.left S.read_faults) input.old input.new)
        (change (output_told K.taken K.write_faults) output.old output.new) result }
{
    match open_document(alloc, files, document, counting) {
        Ok(opening) => follow_opened(alloc, opening, input, output),
        Err(fault) => end_unopened(fault, output),
    }
}
