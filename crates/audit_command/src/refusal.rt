// Why recorded sessions are refused.
ghost use Rattle.std.specs.Prelude.{◌≡◌, ◌≤◌, length};
ghost use Rattle.audit_command.specs.RefusalLines.{audit_line, code_text};
ghost use Rattle.audit_command.specs.declared.refusal.AuditStop.TheVariants.{Memory as NoMemory};

use out_of_memory::Memory;
use protocol_parts::Short;
use std::alloc::AllocError;

/// What of recorded sessions is not explained.
#[derive(Clone, Copy, Debug, PartialEq, Eq)]
pub enum AuditCode {
    /// A reply is not what the journal gives at its point.
    A1,
    /// The point of a reply lies before what the station had been told.
    A2,
    /// An `ok` names an entry that is not its line's.
    A3,
    /// A line has no reply, or a reply no line.
    A4,
    /// No reply tells of an entry.
    A5,
}

/// The first thing of recorded sessions that is not explained.
#[derive(Clone, Copy, Debug, PartialEq, Eq)]
pub struct AuditRefusal {
    pub code: AuditCode,
    /// The station, from 0.
    pub station: u32,
    /// The number of its line, from 1; of A5 the number that the entry bears.
    pub number: u32,
}

// The letters of a code.
fn code_text(code: AuditCode) -> &'static str
    ensures text { result.now ≡ code_text code }
    ensures short { length result.now ≤ 2 }
{
    match code {
        AuditCode::A1 => "A1",
        AuditCode::A2 => "A2",
        AuditCode::A3 => "A3",
        AuditCode::A4 => "A4",
        AuditCode::A5 => "A5",
    }
}

impl AuditRefusal {
    /// Its line on the output, with the line feed.
    pub(crate) fn line(&self) -> Short
        ensures { result ≡ audit_line self.now }
    {
        let mut line = Short::new();
        line.push(b"refused ");
        line.push(code_text(self.code).as_bytes());
        line.push(b" ");
        line.push_number(self.station);
        line.push(b" ");
        line.push_number(self.number);
        line.push(b"\n");
        line
    }
}

/// Why an audit goes no further.
#[derive(Clone, Copy, Debug, PartialEq, Eq)]
pub(crate) enum AuditStop {
    /// What was recorded is refused.
    Refused(AuditRefusal),
    /// There was no memory.
    Memory,
}

impl From<Memory> for AuditStop {
    ghost from_gives = { λ _ stop. stop ≡ NoMemory };

    fn from(_: Memory) -> Self {
        AuditStop::Memory
    }
}

impl From<AllocError> for AuditStop {
    ghost from_gives = { λ _ stop. stop ≡ NoMemory };

    fn from(_: AllocError) -> Self {
        AuditStop::Memory
    }
}
