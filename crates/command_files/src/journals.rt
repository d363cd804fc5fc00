// A journal out of a file.
ghost use Rattle.std.specs.Prelude.{◌≡◌, ◌≤◌, length};
ghost use Rattle.command_files.specs.Journals.{Opens, code_text, journal_line};
ghost use Rattle.command_files.specs.Unopened.{OnlyRead, CountsOpening};

use crate::{InputFault, Refusal, refusal_line};
use edit_calls::Call;
use journal_text::{JournalCode, JournalFault, MAX_JOURNAL, Step, read_journal};
use protocol_parts::Short;
use room_core::Entry;
use room_files::{FileFault, Files};
use std::alloc::Global;

/// Why a journal is refused: what its text has wrong first, and the line, from 1; 0 where the file is too long.
#[derive(Clone, Copy, Debug, PartialEq, Eq)]
pub struct JournalRefusal {
    pub code: JournalCode,
    pub line: u32,
}

impl Refusal for JournalRefusal {
    ghost text = { journal_line };

    // The code of the fault, and the line that tells it.
    fn line(&self) -> Short {
        refusal_line(code_text(self.code), self.line)
    }
}

/// The entries of the journal in the file of this name. A journal of more than 64 MiB is refused as no journal's text, at
/// line 0.
#[tactic(auto, using(crate::proofs::Endings::whole_fits))]
pub fn open_journal<F: Files>(
    alloc: Global,
    files: &mut F,
    name: &str,
) -> Result<Vec<Entry<Step<Call>>>, InputFault<JournalRefusal>>
    ensures opens { Opens ((F.told files.old).file name.now) result }
    ensures same { OnlyRead (F.told files.old) (F.told files.new) }
    ensures counts { CountsOpening result (F.told files.old).reads (F.told files.new).reads }
{
    let bytes = match files.read_file(alloc, name, MAX_JOURNAL as u32) {
        Ok(bytes) => bytes,
        Err(FileFault::Failed) => return Err(InputFault::ReadFault),
        Err(FileFault::TooLarge) => return Err(refused(JournalCode::H1, 0)),
        Err(FileFault::Memory) => return Err(InputFault::Memory),
    };
    match read_journal(alloc, &bytes) {
        Ok(entries) => Ok(entries),
        Err(JournalFault::Refused { code, number }) => Err(refused(code, number)),
        Err(JournalFault::Memory) => Err(InputFault::Memory),
    }
}

// The fault of a journal as why nothing was opened.
fn refused(code: JournalCode, line: u32) -> InputFault<JournalRefusal>
    ensures { result ≡ InputFault.Refused (record { code = code; line = line }) }
{
    InputFault::Refused(JournalRefusal { code, line })
}

// The letters of a code.
fn code_text(code: JournalCode) -> &'static str
    ensures text { result.now ≡ code_text code }
    ensures short { length result.now ≤ 3 }
{
    match code {
        JournalCode::H1 => "H1",
        JournalCode::H2 => "H2",
        JournalCode::H4 => "H4",
    }
}
