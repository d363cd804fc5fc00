// A change of a file that is synced at once.
ghost use Rattle.std.specs.Prelude.{◌≡◌, length, take, OnOk, OnErr, [], ◌∷◌};
ghost use Rattle.room_ports.specs.Counts.{HasRisen};
ghost use Rattle.room_disks.specs.Crashes.{Range, Cut, Told, Since, AtMost, TurnedFrom, written, settled};

use room_disks::Disk;
use room_ports::Failed;

// Writes bytes at a place, and syncs.
pub fn write_and_sync<D: Disk>(disk: &mut D, at: u32, bytes: &[u8]) -> Result<(), Failed>
    ensures ok { OnOk result (Told (λ o n. n.now ≡ settled (written at bytes.now o.now.reads))
        (D.course disk.old) (D.course disk.new)) }

    // A crash at any moment leaves what the write may have left.
    ensures moments { Told (λ o n. Since (TurnedFrom (Range at (length bytes.now)) o) o n)
        (D.course disk.old) (D.course disk.new) }
    ensures calls { Told (AtMost 2) (D.course disk.old) (D.course disk.new) }
    ensures cause { OnErr result (HasRisen (D.faults disk.old) (D.faults disk.new)) }
    ensures quiet { OnOk result (D.faults disk.new ≡ D.faults disk.old) }
{
    disk.write_at(at, bytes)?;
    disk.sync()?;
    Ok(())
}

// Cuts the file to a length, and syncs.
pub fn cut_and_sync<D: Disk>(disk: &mut D, len: u32) -> Result<(), Failed>
    ensures ok { OnOk result (Told (λ o n. n.now ≡ settled (take len o.now.reads))
        (D.course disk.old) (D.course disk.new)) }

    // A crash at any moment leaves the file with the cut or without.
    ensures moments { Told (λ o n. Since (TurnedFrom (Cut len) o) o n)
        (D.course disk.old) (D.course disk.new) }
    ensures cause { OnErr result (HasRisen (D.faults disk.old) (D.faults disk.new)) }
    ensures quiet { OnOk result (D.faults disk.new ≡ D.faults disk.old) }
{
    disk.cut(len)?;
    disk.sync()?;
    Ok(())
}
