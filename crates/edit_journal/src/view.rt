// What a seat of the journal's table knows, the rule of all seats, and how each kind of step changes what a seat knows.
ghost use Rattle.std.specs.Prelude.{ℕ};

use crate::Name;
use atomic_table::{Join, Play, Split, TableRule};
use room_core::{Entry, PartObject};
use std::collections::LinkedList;
use std::marker::{Brand, PhantomData};

/// What a journal begins with: an object, and the parts that it opens with.
pub struct Beginning<O: PartObject> {
    /// The object whose history the journal is.
    pub object: O,
    /// Its parts before the first entry.
    pub parts: Vec<O::Part>,
    /// How many parts get a seat.
    pub part_count: u32,
    /// How many stations get a pass.
    pub station_count: u32,
}

// What a seat knows. It is the journal's where it keeps. No value of it is made.
pub struct View<O, P, C> {
    // Whether it is the journal's own seat.
    pub keeps: bool,
    // The object and the parts that the journal begins with.
    pub opening: Option<(O, LinkedList<P>)>,
    // The names that it has.
    pub names: LinkedList<Name>,
    // The entries that it knows; the journal's own seat knows all.
    pub entries: LinkedList<Entry<C>>,
    // What each token knew that was taken in, by the token's name.
    pub remembered: LinkedList<(Name, (Option<(O, LinkedList<P>)>, LinkedList<Entry<C>>))>,
}

// The rule that all seats of the table keep together.
pub struct Law;

impl<O: PartObject> TableRule<(), View<O, O::Part, O::Call>, Beginning<O>> for Law {
    ghost use Rattle.std.specs.Prelude.{[], Some};
    ghost use Rattle.edit_journal.specs.Seats.{keeper, all_names, Kept};

    ghost holds = { λ k s. Kept (λ o. (O.meaning o).names) s.words s.views };

    ghost first = { λ k. keeper (Some (k.object, k.parts.items))
        (all_names k.part_count k.station_count) [] };
}

/// The name that a step is about. The caller picks it.
pub trait Wanted {
    ghost use Rattle.std.specs.Prelude.{Option};
    ghost use Rattle.edit_journal.specs.declared.name.Name.{Name};

    /// That name, if the step is about one.
    ghost wanted: { Option Name };
}

impl Wanted for Brand {
    ghost use Rattle.std.specs.Prelude.{None};

    ghost wanted = { None };
}

/// The entry that a step is about. The caller picks it.
pub trait Entered<C> {
    ghost use Rattle.std.specs.Prelude.{Option};
    ghost use Rattle.room_core.specs.declared.entry.Entry.{Entry};

    /// That entry, if the step is about one.
    ghost entry: { Option (Entry C) };
}

impl<C> Entered<C> for Brand {
    ghost use Rattle.std.specs.Prelude.{None};

    ghost entry = { None };
}

// A load tells the count of entries, and that each remembered history agrees with the journal.
pub struct Looks;

impl<O: PartObject> Play<(), View<O, O::Part, O::Call>> for Looks {
    ghost use Rattle.std.specs.Prelude.{◌≡◌, length};
    ghost use Rattle.edit_journal.specs.Seats.{Learns};

    ghost then = { λ s me n after. (after ≡ me) × Learns (λ o. (O.meaning o).names) me.0 n };
}

// A store adds the entry.
pub struct Adds<T>(PhantomData<T>);

impl<O: PartObject, T: Entered<O::Call>> Play<(), View<O, O::Part, O::Call>> for Adds<T> {
    ghost use Rattle.std.specs.Prelude.{◌≡◌};
    ghost use Rattle.edit_journal.specs.Seats.{added};

    ghost then = { λ s me n after. after ≡ (added T.entry me.0, me.1) };
}

// A split gives a name out.
pub struct Gives<T>(PhantomData<T>);

impl<O: PartObject, T: Wanted> Split<View<O, O::Part, O::Call>> for Gives<T> {
    ghost use Rattle.edit_journal.specs.Seats.{left_of, right_of};

    ghost left = { left_of T.wanted };

    ghost right = { right_of T.wanted };
}

// A join takes a token's name in.
pub struct Takes;

impl<O: PartObject> Join<View<O, O::Part, O::Call>> for Takes {
    ghost use Rattle.edit_journal.specs.Seats.{both_of, nobody};

    ghost both = { both_of };

    ghost spent = { nobody };
}
