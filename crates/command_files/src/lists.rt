// An edit decision list out of a file.
ghost use Rattle.std.specs.Prelude.{◌≡◌, ◌≤◌, IfOk, length};
ghost use Rattle.edl_read.specs.ReadLists.{CanBeRead};
ghost use Rattle.command_files.specs.Lists.{Opens, code_text, list_line};
ghost use Rattle.command_files.specs.Unopened.{OnlyRead, CountsOpening};

use crate::{InputFault, Refusal, refusal_line};
use edl_read::{LineCode, List, ListReadFault, MAX_LIST, read_list};
use protocol_parts::Short;
use room_files::{FileFault, Files};
use std::alloc::Global;
use timecode12::SequenceRate;

/// Why a list is refused.
#[derive(Clone, Copy, Debug, PartialEq, Eq)]
pub enum ListRefusal {
    /// The file has more than 32 MiB.
    TooLarge,
    /// Its first fault, with the line that tells it, from 1. `other` is of P10 alone, and else 0: the line of the first
    /// event that overlaps.
    Faulty {
        code: LineCode,
        line: u32,
        other: u32,
    },
}

impl Refusal for ListRefusal {
    ghost text = { list_line };

    // The code of the fault and its line, of an overlap both lines, and P13 for a file that is too long.
    fn line(&self) -> Short {
        match self {
            ListRefusal::TooLarge => refusal_line("P13", 0),
            ListRefusal::Faulty {
                code: LineCode::P10,
                line,
                other,
            } => overlap_line(*line, *other),
            ListRefusal::Faulty { code, line, .. } => refusal_line(code_text(*code), *line),
        }
    }
}

/// The list in the file of this name, at a rate. A file of more than 32 MiB is refused as too long.
#[tactic(auto, using(crate::proofs::Endings::whole_fits))]
pub fn open_list<F: Files>(
    alloc: Global,
    files: &mut F,
    name: &str,
    rate: SequenceRate,
) -> Result<List, InputFault<ListRefusal>>
    ensures opens { Opens rate ((F.told files.old).file name.now) result }
    ensures read { IfOk result (λ list. CanBeRead list) }
    ensures same { OnlyRead (F.told files.old) (F.told files.new) }
    ensures counts { CountsOpening result (F.told files.old).reads (F.told files.new).reads }
{
    let bytes = match files.read_file(alloc, name, MAX_LIST as u32) {
        Ok(bytes) => bytes,
        Err(FileFault::Failed) => return Err(InputFault::ReadFault),
        Err(FileFault::TooLarge) => return Err(InputFault::Refused(ListRefusal::TooLarge)),
        Err(FileFault::Memory) => return Err(InputFault::Memory),
    };
    match read_list(alloc, &bytes, rate) {
        Ok(list) => Ok(list),
        Err(ListReadFault::Refused { code, line, other }) => {
            Err(InputFault::Refused(ListRefusal::Faulty { code, line, other }))
        }
        Err(ListReadFault::Memory) => Err(InputFault::Memory),
    }
}

// The line of an overlap, which tells the line of the event and that of the earlier one.
fn overlap_line(line: u32, other: u32) -> Short
    ensures { result ≡ list_line (ListRefusal.Faulty LineCode.P10 line other) }
{
    let mut text = Short::new();
    text.push(b"refused P10 ");
    text.push_number(line);
    text.push(b" ");
    text.push_number(other);
    text.push(b"\n");
    text
}

// The letters of a code.
fn code_text(code: LineCode) -> &'static str
    ensures text { result.now ≡ code_text code }
    ensures short { length result.now ≤ 3 }
{
    match code {
        LineCode::P1 => "P1",
        LineCode::P2 => "P2",
        LineCode::P3 => "P3",
        LineCode::P4 => "P4",
        LineCode::P5 => "P5",
        LineCode::P6 => "P6",
        LineCode::P7 => "P7",
        LineCode::P8 => "P8",
        LineCode::P9 => "P9",
        LineCode::P10 => "P10",
        LineCode::P11 => "P11",
        LineCode::P12 => "P12",
    }
}
