// A document out of a file.
ghost use Rattle.std.specs.Prelude.{◌≡◌, ◌<◌, ◌≤◌, IfOk, length};
ghost use Rattle.otio_json.specs.Soundness.{IsSoundOpening};
ghost use Rattle.command_files.specs.Documents.{Opens, code_text, document_line};
ghost use Rattle.command_files.specs.Unopened.{OnlyRead, CountsOpening};

use crate::{InputFault, Refusal, refusal_line};
use otio_json::{DocCode, DocFault, Opening, read_timeline};
use protocol_parts::Short;
use room_files::{FileFault, Files};
use std::alloc::Global;
use timecode12::Counting;

/// The most bytes of a document: 32 MiB.
pub const MAX_DOCUMENT: u32 = 33_554_432;

/// Why a document is refused: its first fault, and how many bytes of the text stand before it.
#[derive(Clone, Copy, Debug, PartialEq, Eq)]
pub struct DocumentRefusal {
    pub code: DocCode,
    pub at: u32,
}

impl Refusal for DocumentRefusal {
    ghost text = { document_line };

    // The code of the fault, and how many bytes stand before it.
    fn line(&self) -> Short {
        refusal_line(code_text(self.code), self.at)
    }
}

/// How the room begins that the document in the file of this name describes. A document of more than 32 MiB is refused as
/// too long, at 0.
#[tactic(auto, using(crate::proofs::Endings::whole_fits))]
pub fn open_document<F: Files>(
    alloc: Global,
    files: &mut F,
    name: &str,
    counting: &Counting,
) -> Result<Opening, InputFault<DocumentRefusal>>
    ensures opens { Opens counting.now ((F.told files.old).file name.now) result }
    ensures sound { IfOk result IsSoundOpening }
    ensures some { IfOk result (λ opening. 0 < length opening.tracks) }
    ensures same { OnlyRead (F.told files.old) (F.told files.new) }
    ensures counts { CountsOpening result (F.told files.old).reads (F.told files.new).reads }
{
    let bytes = match files.read_file(alloc, name, MAX_DOCUMENT) {
        Ok(bytes) => bytes,
        Err(FileFault::Failed) => return Err(InputFault::ReadFault),
        Err(FileFault::TooLarge) => return Err(refused(DocCode::J5, 0)),
        Err(FileFault::Memory) => return Err(InputFault::Memory),
    };
    match read_timeline(alloc, &bytes, counting) {
        Ok(opening) => Ok(opening),
        Err(DocFault::Refused { code, at }) => Err(refused(code, at)),
        Err(DocFault::Memory) => Err(InputFault::Memory),
    }
}

// The fault of a document as why nothing was opened.
fn refused(code: DocCode, at: u32) -> InputFault<DocumentRefusal>
    ensures { result ≡ InputFault.Refused (record { code = code; at = at }) }
{
    InputFault::Refused(DocumentRefusal { code, at })
}

// The letters of a code.
fn code_text(code: DocCode) -> &'static str
    ensures text { result.now ≡ code_text code }
    ensures short { length result.now ≤ 3 }
{
    match code {
        DocCode::J1 => "J1",
        DocCode::J2 => "J2",
        DocCode::J3 => "J3",
        DocCode::J4 => "J4",
        DocCode::J5 => "J5",
        DocCode::O1 => "O1",
        DocCode::O2 => "O2",
        DocCode::O3 => "O3",
        DocCode::O4 => "O4",
        DocCode::O5 => "O5",
        DocCode::O6 => "O6",
        DocCode::O7 => "O7",
        DocCode::O8 => "O8",
        DocCode::O9 => "O9",
        DocCode::O10 => "O10",
        DocCode::O11 => "O11",
        DocCode::O12 => "O12",
        DocCode::O13 => "O13",
        DocCode::O14 => "O14",
        DocCode::O15 => "O15",
        DocCode::O16 => "O16",
    }
}
