// Why a stream is refused.
ghost use Rattle.std.specs.Prelude.{◌≡◌};
ghost use Rattle.follow_command.specs.Refusals.{refusal_of, stream_line};

use command_files::{Refusal, refusal_line};
use cut_mirror::MirrorFault;
use protocol_parts::Short;

/// Why a stream is refused, of the first line of it that has a reason.
#[derive(Clone, Copy, Debug, PartialEq, Eq)]
pub enum StreamRefusal {
    /// M1: the line with this number, from 1, begins with the word `news` and is no reply to it; or it is the last one,
    /// begins with that word and has no line feed.
    NotNews(u32),
    /// M2: the place of the entry is past the end. The end is at this place.
    Gap(u32),
    /// M3: the entry at this place, which is the end, does not apply.
    Refused(u32),
    /// M4: another entry stands at this place.
    Differs(u32),
    /// M5: there are as many entries as a history can have.
    Full,
    /// M6: the number of the entry at this place is not above the last one of its station.
    Late(u32),
}

impl Refusal for StreamRefusal {
    ghost text = { stream_line };

    // The letters of the refusal, and the number that it carries.
    fn line(&self) -> Short {
        match self {
            StreamRefusal::NotNews(line) => refusal_line("M1", *line),
            StreamRefusal::Gap(point) => refusal_line("M2", *point),
            StreamRefusal::Refused(place) => refusal_line("M3", *place),
            StreamRefusal::Differs(place) => refusal_line("M4", *place),
            StreamRefusal::Full => refusal_line("M5", 100_000),
            StreamRefusal::Late(place) => refusal_line("M6", *place),
        }
    }
}

/// Why following a stream stops at a line.
#[derive(Clone, Copy, Debug, PartialEq, Eq)]
pub(crate) enum Stop {
    /// The line is refused.
    Refused(StreamRefusal),
    /// There was no memory for what it tells.
    Memory,
}

// Why a mirror does not take an entry, as why its stream is refused; `None` where there was no memory.
pub(crate) fn refusal_of(fault: MirrorFault) -> Option<StreamRefusal>
    ensures { result ≡ refusal_of fault }
{
    match fault {
        MirrorFault::Gap(point) => Some(StreamRefusal::Gap(point)),
        MirrorFault::Differs(place) => Some(StreamRefusal::Differs(place)),
        MirrorFault::Full => Some(StreamRefusal::Full),
        MirrorFault::Late(place) => Some(StreamRefusal::Late(place)),
        MirrorFault::Refused(place) => Some(StreamRefusal::Refused(place)),
        MirrorFault::Memory => None,
    }
}
