// What entries name, and the name of a journal.
use std::marker::Brand;

/// What an entry names, and what a token stands for: a part of the object, or a station.
#[derive(Clone, Copy, Debug, PartialEq, Eq)]
pub enum Name {
    /// The part with this number.
    Part(u32),
    /// The station with this number.
    Station(u32),
}

/// Names one journal: its table, its opening and how many stations it has. A call picks it.
pub trait Naming<O, P> {
    ghost use Rattle.std.specs.Prelude.{ℕ, Option};
    ghost use Rattle.atomic_table.specs.Seated.{TableId};
    ghost use Rattle.edit_journal.specs.Seats.{Opening};

    /// The table that the journal's tokens are seats of.
    ghost table: { TableId };

    /// The object and the parts that it begins with.
    ghost opening: { Option (Opening O P) };

    /// How many stations it has.
    ghost stations: { ℕ };
}

impl<O, P> Naming<O, P> for Brand {
    ghost use Rattle.std.specs.Prelude.{None};
    ghost use Rattle.edit_journal.specs.Names.{no_table};

    ghost table = { no_table };

    ghost opening = { None };

    ghost stations = { 0 };
}
