// The lines of entries, to be appended at once.
ghost use Rattle.std.specs.Prelude.{◌≡◌, ◌≤◌, All, IfOk, length, map};
ghost use Rattle.kept_desk.specs.Desks.{IsEntered};

use crate::EntryLines;
use journal_file::Batch;
use room_core::{Entry, Memory, PartObject};
use std::alloc::Global;

// A batch of the lines of these entries, each of which stands in some legal history.
pub fn batch_of<O: PartObject, T: EntryLines<O>>(
    alloc: Global,
    lines: &T,
    object: &O,
    entries: &[Entry<O::Call>],
) -> Result<Batch, Memory>
    requires few { length entries.now ≤ 1024 }
    requires entered { All (IsEntered (O.meaning object.now)) entries.now }
    ensures { IfOk result (λ batch. batch ≡ map T.line_of entries.now) }
{
    let mut batch = Batch::new(alloc);
    for entry in entries {
        let line = lines.line(alloc, object, entry)?;
        batch.push(&line)?;
    }
    Ok(batch)
}
