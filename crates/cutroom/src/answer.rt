// What the program answers to its words.
ghost use Rattle.std.specs.Prelude.{◌≡◌, ◌⊎◌, None};
ghost use Rattle.command_words.specs.Commands.{command_of};
ghost use Rattle.command_words.specs.NamedLists.{table_asked};
ghost use Rattle.command_files.specs.Ports.{change, disk_told, input_told, output_told};
ghost use Rattle.list_commands.specs.Cuts.{namer_told};
ghost use Rattle.cut_server.specs.Unhindered.{IsUnhindered};
ghost use Rattle.cutroom.specs.Answers.{ProgramEnds, WordsEnd};
ghost use Rattle.program_words.specs.Notices.{notice_of};

use crate::numbers::{Told, told_numbers};
use cut_server::{cut_main, tabled_of, wants_numbers};
use line_words::Words;
use program_words::Notice;
use reel_names::{AsIs, ReelNamer};
use room_disks::Disk;
use room_files::Files;
use room_halls::Hall;
use room_ports::{OpenGate, Sink, Source};
use std::alloc::Global;
use std::sync::Wait;
use std::thread::Threads;

/// The status of a program that found no memory to begin with, or was given more words than a list of them takes.
pub const OUT_OF_MEMORY: u8 = 6;

/// Answers words with the namer that they ask for, whose names the reels of a list get. Where there is no memory for it, it
/// answers 6 and does nothing. The disk is given back. Which number is which reel is noted where numbers are asked for.
pub fn answer_words<
    R: Threads + Wait + Sync,
    F: Files,
    D: Disk + Drop + Send,
    S: Source,
    K: Sink,
    H: Hall,
>(
    rt: &R,
    alloc: Global,
    words: &Words,
    files: &mut F,
    disk: D,
    input: &mut S,
    output: &mut K,
    hall: &mut H,
    told: &Told,
) -> (u8, D)
    ensures { WordsEnd (change F.told files.old files.new)
        (change (disk_told D.file D.course D.faults) disk result.1)
        (change (input_told S.left S.read_faults) input.old input.new)
        (change (output_told K.taken K.write_faults) output.old output.new)
        (change H.told hall.old hall.new) words.now result.0 }
{
    let tabled = match tabled_of(alloc, words) {
        Ok(tabled) => tabled,
        Err(_) => return (OUT_OF_MEMORY, disk),
    };
    match tabled {
        Some(tabled) => match Box::new(alloc, tabled) {
            Ok(namer) => answer(rt, alloc, words, files, disk, input, output, hall, namer),
            Err(_) => (OUT_OF_MEMORY, disk),
        },
        None => answer_plain(rt, alloc, words, files, disk, input, output, hall, told),
    }
}

// Answers words that give no table of names: a list's reels are named by numbers where that is asked for, else as they
// are.
fn answer_plain<
    R: Threads + Wait + Sync,
    F: Files,
    D: Disk + Drop + Send,
    S: Source,
    K: Sink,
    H: Hall,
>(
    rt: &R,
    alloc: Global,
    words: &Words,
    files: &mut F,
    disk: D,
    input: &mut S,
    output: &mut K,
    hall: &mut H,
    told: &Told,
) -> (u8, D)
    requires { table_asked words.now ≡ None }
    ensures { WordsEnd (change F.told files.old files.new)
        (change (disk_told D.file D.course D.faults) disk result.1)
        (change (input_told S.left S.read_faults) input.old input.new)
        (change (output_told K.taken K.write_faults) output.old output.new)
        (change H.told hall.old hall.new) words.now result.0 }
{
    match wants_numbers(words) {
        true => match told_numbers(alloc, told) {
            Some(namer) => answer(rt, alloc, words, files, disk, input, output, hall, namer),
            None => (OUT_OF_MEMORY, disk),
        },
        false => match Box::new(alloc, AsIs::new(alloc)) {
            Ok(namer) => answer(rt, alloc, words, files, disk, input, output, hall, namer),
            Err(_) => (OUT_OF_MEMORY, disk),
        },
    }
}

/// Answers words that ask for a notice by that, as `--help` and `--version`, and does what other words ask for. It answers
/// the status that the program ends with, and gives the disk back.
pub fn answer<
    R: Threads + Wait + Sync,
    F: Files,
    D: Disk + Drop + Send,
    S: Source,
    K: Sink,
    H: Hall,
>(
    rt: &R,
    alloc: Global,
    words: &Words,
    files: &mut F,
    disk: D,
    input: &mut S,
    output: &mut K,
    hall: &mut H,
    namer: Box<dyn ReelNamer>,
) -> (u8, D)
    ensures ends { ProgramEnds (change F.told files.old files.new)
        (change (disk_told D.file D.course D.faults) disk result.1)
        (change (input_told S.left S.read_faults) input.old input.new)
        (change (output_told K.taken K.write_faults) output.old output.new)
        (change H.told hall.old hall.new) (namer_told (rule namer) (given namer))
        words.now result.0 }
    // Completeness, as `cut_main` has it, where no notice is asked for.
    ensures complete { notice_of words.now ≡ None → IsUnhindered (change F.told files.old files.new)
        (change (disk_told D.file D.course D.faults) disk result.1)
        (change (input_told S.left S.read_faults) input.old input.new)
        (change (output_told K.taken K.write_faults) output.old output.new)
        (change H.told hall.old hall.new)
        (namer_told (rule namer) (given namer)) (command_of words.now)
        → (result.0 ≡ 0) ⊎ (result.0 ≡ 6) }
{
    match Notice::asked_by(words) {
        Some(notice) => (notice.tell(output), disk),
        None => cut_main(
            rt, alloc, words, files, disk, input, output, hall, &OpenGate, namer,
        ),
    }
}
