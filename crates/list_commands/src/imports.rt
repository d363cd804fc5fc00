// The document of a list, put on the output.
ghost use Rattle.std.specs.Prelude.{◌≡◌, ◌≤◌, ◌++◌, IfOk, codes, length};
ghost use Rattle.edl_read.specs.ReadLists.{CanBeRead};
ghost use Rattle.otio_laws.specs.Meanings.{line_of_cut};
ghost use Rattle.otio_text.specs.Documents.{Writes};
ghost use Rattle.command_files.specs.Ports.{change, output_told};
ghost use Rattle.command_files.specs.Texts.{PutsWith};
ghost use Rattle.command_files.specs.declared.status.Status.TheVariants.{Refused};
ghost use Rattle.list_commands.specs.Imports.{EventsEnd, ImportEnds, OpeningEnds, code_text, import_line};

use command_files::{Status, end_unopened, end_with, open_list, refusal_line};
use edl_read::List;
use list_import::{ImportCode, ImportFault, import_list};
use otio_json::{Opening, WriteFault, write_timeline};
use out_of_memory::Memory;
use room_files::Files;
use room_ports::Sink;
use std::alloc::Global;
use timecode12::Counting;

/// The most bytes of a document that is put, its line feed counted: 32 MiB, as one that is read may have.
const MOST_BYTES: usize = 33_554_432;

// The text as a line.
fn with_line_feed(text: Vec<u8>) -> Result<Vec<u8>, Memory>
    ensures { IfOk result (λ line. line.items ≡ text.items ++ codes "\n") }
{
    let mut text = text;
    text.push(b'\n')?;
    Ok(text)
}

// The document of an opening, in a line, or that the line would have more than 32 MiB.
fn document_line(alloc: Global, opening: &Opening) -> Result<Vec<u8>, WriteFault>
    ensures { Writes (line_of_cut opening.now) result }
{
    let text = write_timeline(
        alloc,
        &opening.table,
        opening.tracks.as_slice(),
        &opening.counting,
        opening.start,
    )?;
    if text.len() >= MOST_BYTES {
        return Err(WriteFault::TooLarge);
    }
    let line = with_line_feed(text)?;
    Ok(line)
}

// Puts the document of an opening on the output, or the line that says it is too long.
fn put_document<K: Sink>(alloc: Global, opening: &Opening, output: &mut K) -> Status
    ensures { OpeningEnds opening.now
        (change (output_told K.taken K.write_faults) output.old output.new) result }
{
    match document_line(alloc, opening) {
        Ok(line) => end_with(Status::Done, &line, output),
        Err(WriteFault::TooLarge) => {
            end_with(Status::Refused, refusal_line("I5", 0).as_bytes(), output)
        }
        Err(WriteFault::Memory) => Status::OutOfMemory,
    }
}

// The letters of a code.
fn code_text(code: ImportCode) -> &'static str
    ensures text { result.now ≡ code_text code }
    ensures short { length result.now ≤ 3 }
{
    match code {
        ImportCode::I1 => "I1",
        ImportCode::I2 => "I2",
        ImportCode::I3 => "I3",
        ImportCode::I4 => "I4",
    }
}

// Ends the command of a list that is no opening, with the line that says why.
fn refuse_import<K: Sink>(code: ImportCode, number: u32, output: &mut K) -> Status
    ensures { PutsWith Refused (import_line code number)
        (output_told K.taken K.write_faults output.old)
        (output_told K.taken K.write_faults output.new) result }
{
    end_with(
        Status::Refused,
        refusal_line(code_text(code), number).as_bytes(),
        output,
    )
}

// Puts the document of a list on the output, or the line that says why it has none.
fn import_events<K: Sink>(alloc: Global, list: &List, counting: &Counting, output: &mut K) -> Status
    requires { CanBeRead list.now }
    ensures { EventsEnd list.now counting.now
        (change (output_told K.taken K.write_faults) output.old output.new) result }
{
    match import_list(alloc, list, counting) {
        Ok(opening) => put_document(alloc, &opening, output),
        Err(ImportFault::Refused { code, number }) => refuse_import(code, number, output),
        Err(ImportFault::Memory) => Status::OutOfMemory,
    }
}

/// Puts the document of the list in the file of this name on the output, in a line: its channels as tracks, whose frames are
/// counted so. Or a line that says why the list is refused, or why it makes no document.
pub fn import_file<F: Files, K: Sink>(
    alloc: Global,
    files: &mut F,
    name: &str,
    counting: &Counting,
    output: &mut K,
) -> Status
    ensures { ImportEnds name.now counting.now (change F.told files.old files.new)
        (change (output_told K.taken K.write_faults) output.old output.new) result }
{
    match open_list(alloc, files, name, counting.rate()) {
        Ok(list) => import_events(alloc, &list, counting, output),
        Err(fault) => end_unopened(fault, output),
    }
}
