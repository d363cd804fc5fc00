// The tape of a list, put on the output.
ghost use Rattle.std.specs.Prelude.{◌≡◌, IfOk};
ghost use Rattle.command_files.specs.Ports.{change, output_told};
ghost use Rattle.edl_read.specs.ReadLists.{CanBeRead};
ghost use Rattle.edl_read.specs.TapeText.{tape_text};
ghost use Rattle.list_commands.specs.Tapes.{TapeEnds};

use command_files::{Status, end_unopened, end_with, open_list};
use edl_read::{List, Tape};
use out_of_memory::Memory;
use room_files::Files;
use room_ports::Sink;
use std::alloc::Global;
use timecode12::SequenceRate;

// The text of the tape that a list makes.
fn tape_text(alloc: Global, list: &List) -> Result<Vec<u8>, Memory>
    requires { CanBeRead list.now }
    ensures { IfOk result (λ text. text.items ≡ tape_text list.now) }
{
    Tape::play(alloc, list)?.text(alloc)
}

/// Puts the tape of the list in the file of this name on the output: for each channel, each run that is not dark. Or a
/// line that says why the list is refused.
pub fn play_list<F: Files, K: Sink>(
    alloc: Global,
    files: &mut F,
    name: &str,
    rate: SequenceRate,
    output: &mut K,
) -> Status
    ensures { TapeEnds name.now rate (change F.told files.old files.new)
        (change (output_told K.taken K.write_faults) output.old output.new) result }
{
    let list = match open_list(alloc, files, name, rate) {
        Ok(list) => list,
        Err(fault) => return end_unopened(fault, output),
    };
    match tape_text(alloc, &list) {
        Ok(text) => end_with(Status::Done, &text, output),
        Err(_) => Status::OutOfMemory,
    }
}
