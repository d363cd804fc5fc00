// The name of a kept file.
use std::marker::Brand;

/// Names one kept file, while it is open: the table of its receipts, and the station whose pass reads the journal for it;
/// and, when it was opened, the entries that it had, how it stood, and how many faults its disk had counted. A call picks
/// it.
pub trait Filing<C> {
    ghost use Rattle.std.specs.Prelude.{ℕ, List, Option};
    ghost use Rattle.atomic_table.specs.Seated.{TableId};
    ghost use Rattle.room_disks.specs.Crashes.{Course};
    ghost use Rattle.room_core.specs.declared.entry.Entry.{Entry};

    ghost table: { TableId };

    ghost reader: { ℕ };

    ghost kept: { List (Entry C) };

    ghost begun: { Option Course };

    ghost faults: { ℕ };
}

impl<C> Filing<C> for Brand {
    ghost use Rattle.std.specs.Prelude.{[], None};
    ghost use Rattle.edit_journal.specs.Names.{no_table};

    ghost table = { no_table };

    ghost reader = { 0 };

    ghost kept = { [] };

    ghost begun = { None };

    ghost faults = { 0 };
}
