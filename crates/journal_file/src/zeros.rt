// Zeros after a closed gate, so that appends are written within the file.
ghost use Rattle.std.specs.Prelude.{◌≡◌, ◌<◌, ◌+◌, ◌^◌, List, ℕ, length, IfSome, OnOk, OnErr};
ghost use Rattle.std.specs.List.{AllByRecursion};
ghost use Rattle.room_ports.specs.Counts.{HasRisen};
ghost use Rattle.room_disks.specs.Crashes.{Told, Since, AtMost};
ghost use Rattle.journal_file.specs.Layout.{IsLine, Kept, front_of};
ghost use Rattle.journal_file.specs.Stages.{IsClosed};

use crate::syncing::write_and_sync;
use room_disks::Disk;
use room_ports::Failed;

// So many zeros are put at once.
pub const ZEROS: [u8; 65_536] = [0; 65_536];

// Puts zeros after the closed gate, where nothing counts, and syncs.
pub fn put_zeros<D: Disk>(disk: &mut D, gate: u32, zeros: &[u8]) -> Result<(), Failed>
    requires { gate + 1 < 2 ^ 32 }

    // Whatever comes of it, the gate is closed after the same lines.
    ensures closed { (lines : List (List ℕ)) → gate ≡ length (front_of lines)
        → IfSome (D.course disk.old) (IsClosed lines)
        → IfSome (D.course disk.new) (IsClosed lines) }

    // A crash at any moment leaves the file with these lines, after at most two calls.
    ensures moments { (lines : List (List ℕ)) → AllByRecursion IsLine lines
        → gate ≡ length (front_of lines) → IfSome (D.course disk.old) (IsClosed lines)
        → Told (Since (λ bytes. Kept bytes lines)) (D.course disk.old) (D.course disk.new) }
    ensures calls { Told (AtMost 2) (D.course disk.old) (D.course disk.new) }

    ensures cause { OnErr result (HasRisen (D.faults disk.old) (D.faults disk.new)) }
    ensures quiet { OnOk result (D.faults disk.new ≡ D.faults disk.old) }
{
    write_and_sync(disk, gate + 1, zeros)
}
