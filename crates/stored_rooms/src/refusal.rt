// Why a kept file is refused.
ghost use Rattle.std.specs.Prelude.{◌≡◌, ◌≤◌, length};
ghost use Rattle.stored_rooms.specs.KeptFiles.{code_text, kept_line};

use command_files::{Refusal, refusal_line};
use kept_rooms::RecordCode;
use protocol_parts::Short;

/// Why a kept file is refused, in the order in which it is looked at.
#[derive(Clone, Copy, Debug, PartialEq, Eq)]
pub enum KeptRefusal {
    /// K2: it has more than 128 MiB.
    TooLarge,
    /// K1: it is no kept file. The place is 0 where the header is wrong, else that of the first `+` that begins no whole
    /// record, or the file's length where it ends without a gate.
    Damaged { at: u32 },
    /// H8: it has so many records, which are more than 100,000.
    TooMany { count: u32 },
    /// H1, H4, H6 or H7: the record of this number, from 1, is no entry that may come next.
    Record { code: RecordCode, number: u32 },
    /// H3: the entry at this place, from 0, does not apply.
    NotApplied { place: u32 },
}

impl Refusal for KeptRefusal {
    ghost text = { kept_line };

    // The code, and a place, a count or a number.
    fn line(&self) -> Short {
        match self {
            KeptRefusal::TooLarge => refusal_line("K2", 0),
            KeptRefusal::Damaged { at } => refusal_line("K1", *at),
            KeptRefusal::TooMany { count } => refusal_line("H8", *count),
            KeptRefusal::Record { code, number } => refusal_line(code_text(*code), *number),
            KeptRefusal::NotApplied { place } => refusal_line("H3", *place),
        }
    }
}

// The letters of a code.
fn code_text(code: RecordCode) -> &'static str
    ensures text { result.now ≡ code_text code }
    ensures short { length result.now ≤ 3 }
{
    match code {
        RecordCode::H1 => "H1",
        RecordCode::H4 => "H4",
        RecordCode::H6 => "H6",
        RecordCode::H7 => "H7",
    }
}
