// Why nothing was opened from a file, and how that ends a command.
ghost use Rattle.std.specs.Prelude.{◌≡◌, List, ℕ};
ghost use Rattle.command_files.specs.Ports.{change, output_told};
ghost use Rattle.command_files.specs.Unopened.{FaultEnds};

use crate::{Status, end_with};
use protocol_parts::Short;
use room_ports::Sink;

/// Why nothing was opened from a file.
#[derive(Clone, Copy, Debug, PartialEq, Eq)]
pub enum InputFault<R> {
    /// The read of the file failed, or there is no such file.
    ReadFault,
    /// What the file holds is refused.
    Refused(R),
    /// Out of memory.
    Memory,
}

/// Why what a file holds is refused.
pub trait Refusal {
    /// Its line on the output.
    ghost text: { Self → List ℕ };

    /// Its line on the output, with the line feed.
    fn line(&self) -> Short
        ensures { result ≡ text self.now };
}

/// Ends a command that has opened nothing: a refusal puts its line on the output.
pub fn end_unopened<R: Refusal + Drop, K: Sink>(fault: InputFault<R>, output: &mut K) -> Status
    ensures { FaultEnds R.text fault
        (change (output_told K.taken K.write_faults) output.old output.new) result }
{
    match fault {
        InputFault::ReadFault => Status::ReadFault,
        InputFault::Refused(refusal) => {
            end_with(Status::Refused, refusal.line().as_bytes(), output)
        }
        InputFault::Memory => Status::OutOfMemory,
    }
}
