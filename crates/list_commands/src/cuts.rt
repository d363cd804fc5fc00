// The list of a cut, put on the output.
ghost use Rattle.std.specs.Prelude.{◌≡◌, ◌<◌, ◌≤◌, ◌^◌, length};
ghost use Rattle.flatten.specs.Channels.{AreSound};
ghost use Rattle.timecode12.specs.Labels.{day_of};
ghost use Rattle.edl_write.specs.Limits.{AreLimited};
ghost use Rattle.command_files.specs.Ports.{change, output_told};
ghost use Rattle.command_files.specs.Texts.{PutsWith, refusal_text};
ghost use Rattle.command_files.specs.declared.status.Status.TheVariants.{NoList};
ghost use Rattle.list_commands.specs.Cuts.{CutEnds, UnlistedEnds, namer_told};

use command_files::{Status, end_with, refusal_line};
use composables::{Table, Track};
use edl_write::{ListFault, write_list};
use reel_names::ReelNamer;
use room_ports::Sink;
use std::alloc::Global;
use timecode12::Counting;

// Ends the command of a cut that has no list, with the line that says why.
fn refuse_list<K: Sink>(code: &str, number: u32, output: &mut K) -> Status
    requires { length code.now ≤ 3 }
    ensures { PutsWith NoList (refusal_text code.now number)
        (output_told K.taken K.write_faults output.old)
        (output_told K.taken K.write_faults output.new) result }
{
    end_with(
        Status::NoList,
        refusal_line(code, number).as_bytes(),
        output,
    )
}

// Ends the command of a cut that has no list for this reason, or for which there was no memory.
fn end_unlisted<K: Sink>(fault: &ListFault, output: &mut K) -> Status
    ensures { UnlistedEnds fault.now
        (change (output_told K.taken K.write_faults) output.old output.new) result }
{
    match fault {
        ListFault::Channels(count) => refuse_list("L1", *count, output),
        ListFault::PartialDissolve(at) => refuse_list("L2", *at, output),
        ListFault::DissolveTooLong(at) => refuse_list("L3", *at, output),
        ListFault::Reel(reel) => refuse_list("L4", *reel, output),
        ListFault::Events(count) => refuse_list("L5", *count, output),
        ListFault::PastDay(frame) => refuse_list("L6", *frame, output),
        ListFault::Memory => Status::OutOfMemory,
    }
}

/// Puts the list of a cut on the output, or the line that says why it has none.
pub(crate) fn put_list<K: Sink>(
    alloc: Global,
    table: &Table,
    tracks: &[Track],
    counting: &Counting,
    start: u32,
    namer: Box<dyn ReelNamer>,
    output: &mut K,
) -> Status
    requires layers { AreSound table.now.nests }
    requires tracks { AreLimited tracks.now }
    requires few { length tracks.now < 2 ^ 32 }
    requires start { start < length (day_of counting.now) }
    ensures { CutEnds table.now tracks.now counting.now start
        (namer_told (rule namer) (given namer))
        (change (output_told K.taken K.write_faults) output.old output.new) result }
{
    let _lawful = counting.drop_frame();
    match write_list(alloc, table, tracks, counting, start, namer) {
        Ok(list) => end_with(Status::Done, list.text.as_slice(), output),
        Err(fault) => end_unlisted(&fault, output),
    }
}
