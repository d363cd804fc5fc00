// The two writes of an append, begun or taken up again.
ghost use Rattle.std.specs.Prelude.{◌≡◌, ◌≢◌, ◌<◌, ◌+◌, ◌^◌, ◌++◌, ◌∷◌, List, ℕ, length, Some, IfSome, OnOk, OnErr};
ghost use Rattle.room_ports.specs.Counts.{HasRisen};
ghost use Rattle.journal_file.specs.declared.stage.Stage.TheVariants as stages;
ghost use Rattle.room_disks.specs.Crashes.{Told, Since, AtMost};
ghost use Rattle.journal_file.specs.Layout.{front_of};
ghost use Rattle.journal_file.specs.Batches.{piece_of};
ghost use Rattle.journal_file.specs.Stages.{Stands, IsAppended, IsEither, IsFiled, Fits, held_by};
ghost use Rattle.journal_file.specs.Standing.{HoldsLines};

use crate::held::Held;
use crate::stage::Stage;
use crate::syncing::write_and_sync;
use room_disks::Disk;
use room_ports::Failed;

// Puts what is held after the closed gate and opens the gate, or goes on with that, and counts its records.
pub fn put_held<D: Disk>(
    disk: &mut D,
    stage: &mut Stage,
    gate: &mut u32,
    count: &mut u32,
    held: &Held,
) -> Result<(), Failed>
    requires fits { Fits count.old (held_by held.now) }
    requires gate { gate.old + length (piece_of (held_by held.now)) < 2 ^ 32 }

    // The lines are records of the file, and nothing is pending.
    ensures ok { OnOk result ((lines : List (List ℕ))
        → IsFiled (D.course disk.old) lines count.old gate.old stage.old (held_by held.now)
        → IsFiled (D.course disk.new) (lines ++ held_by held.now) count.new gate.new stage.new
        (held_by held.now)) }
    ensures settled { OnOk result (stage.new ≡ stages.Settled) }
    ensures counted { OnOk result (count.new ≡ count.old + length (held_by held.now)) }

    // The file has the records from before, and the lines are pending.
    ensures err { OnErr result ((lines : List (List ℕ))
        → IsFiled (D.course disk.old) lines count.old gate.old stage.old (held_by held.now)
        → IsFiled (D.course disk.new) lines count.new gate.new stage.new (held_by held.now)) }
    ensures pending { OnErr result (stage.new ≢ stages.Settled) }
    ensures same { OnErr result (count.new ≡ count.old) }

    // A crash at any moment leaves the records from before, or these and the new ones, after at most four calls.
    ensures moments { (lines : List (List ℕ))
        → IsFiled (D.course disk.old) lines count.old gate.old stage.old (held_by held.now)
        → Told (Since (HoldsLines (Some (held_by held.now)) lines))
        (D.course disk.old) (D.course disk.new) }
    ensures calls { Told (AtMost 4) (D.course disk.old) (D.course disk.new) }

    // It fails only where the disk has counted a fault.
    ensures cause { OnErr result (HasRisen (D.faults disk.old) (D.faults disk.new)) }
    ensures quiet { OnOk result (D.faults disk.new ≡ D.faults disk.old) }
{
    let piece = held.piece();
    put_pending(disk, stage, *gate, piece)?;
    *stage = Stage::Settled;
    *gate += piece.len() as u32;
    *count += held.count();
    Ok(())
}

// Goes on where the append has come to: puts the piece after the closed gate, where that is not done, and opens the
// gate.
fn put_pending<D: Disk>(
    disk: &mut D,
    stage: &mut Stage,
    gate: u32,
    piece: &[u8],
) -> Result<(), Failed>
    requires { gate + 1 < 2 ^ 32 }
    ensures ok { OnOk result ((lines : List (List ℕ)) → gate ≡ length (front_of lines)
        → IfSome (D.course disk.old) (Stands stage.old lines piece.now)
        → IfSome (D.course disk.new) (IsAppended lines piece.now)) }
    ensures err { OnErr result ((lines : List (List ℕ)) → gate ≡ length (front_of lines)
        → IfSome (D.course disk.old) (Stands stage.old lines piece.now)
        → IfSome (D.course disk.new) (Stands stage.new lines piece.now)) }
    ensures pending { OnErr result (stage.new ≢ stages.Settled) }

    // A crash at any moment leaves the file with the piece or without, after at most four calls.
    ensures moments { (lines : List (List ℕ)) → gate ≡ length (front_of lines)
        → IfSome (D.course disk.old) (Stands stage.old lines piece.now)
        → Told (Since (IsEither lines piece.now)) (D.course disk.old) (D.course disk.new) }
    ensures calls { Told (AtMost 4) (D.course disk.old) (D.course disk.new) }

    ensures cause { OnErr result (HasRisen (D.faults disk.old) (D.faults disk.new)) }
    ensures quiet { OnOk result (D.faults disk.new ≡ D.faults disk.old) }
{
    match *stage {
        Stage::Settled => {
            put_piece(disk, stage, gate, piece)?;
            Ok(())
        }
        Stage::Staging => {
            put_piece(disk, stage, gate, piece)?;
            Ok(())
        }
        Stage::Opening => {
            open_gate(disk, gate)?;
            Ok(())
        }
    }
}

// Puts the piece after the closed gate, and opens the gate.
fn put_piece<D: Disk>(
    disk: &mut D,
    stage: &mut Stage,
    gate: u32,
    piece: &[u8],
) -> Result<(), Failed>
    requires { gate + 1 < 2 ^ 32 }
    ensures ok { OnOk result ((lines : List (List ℕ)) → gate ≡ length (front_of lines)
        → IfSome (D.course disk.old) (Stands stages.Staging lines piece.now)
        → IfSome (D.course disk.new) (IsAppended lines piece.now)) }
    ensures err { OnErr result ((lines : List (List ℕ)) → gate ≡ length (front_of lines)
        → IfSome (D.course disk.old) (Stands stages.Staging lines piece.now)
        → IfSome (D.course disk.new) (Stands stage.new lines piece.now)) }
    ensures pending { OnErr result (stage.new ≢ stages.Settled) }
    ensures moments { (lines : List (List ℕ)) → gate ≡ length (front_of lines)
        → IfSome (D.course disk.old) (Stands stages.Staging lines piece.now)
        → Told (Since (IsEither lines piece.now)) (D.course disk.old) (D.course disk.new) }
    ensures calls { Told (AtMost 4) (D.course disk.old) (D.course disk.new) }
    ensures cause { OnErr result (HasRisen (D.faults disk.old) (D.faults disk.new)) }
    ensures quiet { OnOk result (D.faults disk.new ≡ D.faults disk.old) }
{
    *stage = Stage::Staging;
    write_and_sync(disk, gate + 1, piece)?;
    *stage = Stage::Opening;
    open_gate(disk, gate)?;
    Ok(())
}

// Opens the gate before a piece that is on the disk, which makes its lines records.
fn open_gate<D: Disk>(disk: &mut D, gate: u32) -> Result<(), Failed>
    ensures ok { OnOk result ((lines : List (List ℕ)) (piece : List ℕ)
        → gate ≡ length (front_of lines)
        → IfSome (D.course disk.old) (Stands stages.Opening lines piece)
        → IfSome (D.course disk.new) (IsAppended lines piece)) }
    ensures err { OnErr result ((lines : List (List ℕ)) (piece : List ℕ)
        → gate ≡ length (front_of lines)
        → IfSome (D.course disk.old) (Stands stages.Opening lines piece)
        → IfSome (D.course disk.new) (Stands stages.Opening lines piece)) }
    ensures moments { (lines : List (List ℕ)) (piece : List ℕ) → gate ≡ length (front_of lines)
        → IfSome (D.course disk.old) (Stands stages.Opening lines piece)
        → Told (Since (IsEither lines piece)) (D.course disk.old) (D.course disk.new) }
    ensures calls { Told (AtMost 2) (D.course disk.old) (D.course disk.new) }
    ensures cause { OnErr result (HasRisen (D.faults disk.old) (D.faults disk.new)) }
    ensures quiet { OnOk result (D.faults disk.new ≡ D.faults disk.old) }
{
    write_and_sync(disk, gate, &[b'+'])?;
    Ok(())
}
