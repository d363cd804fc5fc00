// One read of a reader of std, or one write to a writer, with a count of those that fail.
ghost use Rattle.std.specs.Prelude.{◌≡◌, ◌≤◌, ◌<◌, Ok, length, IsErr, IfOk, OnOk, OnErr};
ghost use Rattle.std.specs.Io.KnownBytes.{ReadConsumes, WriteAppends};
ghost use Rattle.room_ports.specs.Counts.{counted};

use crate::Failed;
use std::io::{self, Read, Write};

/// Reads from a reader into the head of `into`, and answers how many bytes; counts a fault more where the reader fails.
/// That it reads once is tested, and no clause says it.
pub fn read_once<R: Read>(
    reader: &mut R,
    into: &mut [u8],
    faults: &mut u64,
) -> Result<usize, Failed>
    ensures within { IfOk result (λ n. n ≤ length into.old) }
    ensures reads { ReadConsumes
        (R.remaining reader.old) (R.remaining reader.new) result into.new }
    ensures quiet { OnOk result (faults.new ≡ faults.old) }
    ensures counted { OnErr result (faults.new ≡ counted faults.old) }
    ensures count { faults.old ≤ faults.new }
{
    let answer = reader.read(into);
    count_fault(answer, faults)
}

/// Writes to a writer, and counts a fault more where the writer fails, or takes nothing of a piece that is not empty.
/// That it writes once is tested, and no clause says it.
pub fn write_once<W: Write>(writer: &mut W, piece: &[u8], faults: &mut u64) -> Result<usize, Failed>
    ensures within { IfOk result (λ n. n ≤ length piece.now) }
    ensures some { IfOk result (λ n. 0 < length piece.now → 0 < n) }
    ensures writes { WriteAppends
        (W.contents writer.old) (W.contents writer.new) result piece.now }
    ensures quiet { OnOk result (faults.new ≡ faults.old) }
    ensures counted { OnErr result (faults.new ≡ counted faults.old) }
    ensures count { faults.old ≤ faults.new }
{
    let answer = writer.write(piece);
    count_fault(some_taken(answer, piece), faults)
}

// A write that took nothing of a piece that is not empty is an error.
fn some_taken(answer: io::Result<usize>, piece: &[u8]) -> io::Result<usize>
    ensures some { IfOk answer (λ n. (0 < length piece.now → 0 < n) → result ≡ Ok n) }
    ensures nothing { IfOk answer (λ n. 0 < length piece.now → n ≡ 0 → IsErr result) }
    ensures error { OnErr answer (IsErr result) }
{
    match answer {
        Ok(0) if !piece.is_empty() => Err(io::Error::from(io::ErrorKind::WriteZero)),
        answer => answer,
    }
}

// The number that a reader or a writer answered, or a fault more.
fn count_fault(answer: io::Result<usize>, faults: &mut u64) -> Result<usize, Failed>
    ensures ok { IfOk answer (λ n. result ≡ Ok n) }
    ensures quiet { OnOk answer (faults.new ≡ faults.old) }
    ensures err { OnErr answer (IsErr result) }
    ensures counted { OnErr answer (faults.new ≡ counted faults.old) }
    ensures count { faults.old ≤ faults.new }
{
    match answer {
        Ok(n) => Ok(n),
        Err(_) => {
            *faults = faults.saturating_add(1);
            Err(Failed)
        }
    }
}
