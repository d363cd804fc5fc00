// How an entry reads in a kept file.
ghost use Rattle.std.specs.Prelude.{◌≡◌, IfOk};
ghost use Rattle.journal_file.specs.Layout.{IsLine};
ghost use Rattle.kept_desk.specs.Desks.{IsEntered};

use room_core::{Entry, Memory, PartObject};
use std::alloc::Global;

/// Writes entries of an object's histories as lines.
pub trait EntryLines<O: PartObject> {
    ghost use Rattle.std.specs.Prelude.{ℕ, List};
    ghost use Rattle.room_core.specs.declared.entry.Entry.{Entry};

    /// The line of an entry.
    ghost line_of: { Entry O.Call → List ℕ };

    /// The line of an entry that stands in some legal history of the object.
    fn line(&self, alloc: Global, object: &O, entry: &Entry<O::Call>) -> Result<Vec<u8>, Memory>
        requires entered { IsEntered (O.meaning object.now) entry.now }
        ensures line { IfOk result (λ bytes. bytes.items ≡ line_of entry.now) }
        ensures is_line { IfOk result (λ bytes. IsLine bytes.items) };
}
