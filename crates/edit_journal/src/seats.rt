// The steps on the journal's table: each kind of step, by the seat that may do it.
ghost use Rattle.std.specs.Prelude.{◌≡◌, ◌+◌, ◌<◌, ◌^◌, [], ◌∷◌, length, IfOk, true, Some, IsSome, ℕ, List, Option};
ghost use Rattle.room_core.specs.declared.entry.Entry.{Entry};
ghost use Rattle.edit_journal.specs.declared.name.Name.{Name};
ghost use Rattle.edit_journal.specs.Seats.{Opening, keeper, all_names, bears, In, Agrees, left_of, right_of, both_of, added};

use crate::Name;
use crate::view::{Adds, Beginning, Entered, Gives, Law, Looks, Takes, View, Wanted};
use atomic_table::{Seat, Table};
use room_core::{Entry, PartObject};
use std::alloc::{AllocError, Global};
use std::marker::Brand;

// The journal's table: one word, the number of entries, and what each seat of it knows.
pub type Words<O> = Table<
    (),
    View<O, <O as PartObject>::Part, <O as PartObject>::Call>,
    Beginning<O>,
    Law,
    Global,
>;

// A seat of that table.
pub type Token<O> = Seat<(), View<O, <O as PartObject>::Part, <O as PartObject>::Call>>;

// A new table, with the seat of its journal.
pub fn open<O: PartObject>(
    alloc: Global,
    beginning: &Beginning<O>,
) -> Result<(Words<O>, Token<O>), AllocError>
    ensures { IfOk result (λ r. (r.0.shared.table_id.words ≡ 1)
        × (r.1.table_id ≡ r.0.shared.table_id)
        × (r.1.me ≡ (
          keeper (Some (beginning.now.object, beginning.now.parts.items))
              (all_names beginning.now.part_count beginning.now.station_count) [],
          [],
        ))) }
{
    Words::<O>::of_words(alloc, &[0], beginning)
}

// How many entries there are. Each remembered history agrees with the journal on its name.
pub fn look<O: PartObject>(words: &Words<O>, seat: &mut Token<O>) -> u64
    requires seat { (seat.old.table_id ≡ words.now.shared.table_id)
        × (words.now.shared.table_id.words ≡ 1) }
    requires keeps { seat.old.me.0.keeps ≡ true }
    ensures count { result ≡ length seat.old.me.0.entries }
    ensures agrees { (opening : Opening O O.Part) (x : Name) (o : Option (Opening O O.Part))
        (l : List (Entry O.Call))
        → seat.old.me.0.opening ≡ Some opening → In (x, (o, l)) seat.old.me.0.remembered
        → (o ≡ Some opening) × Agrees (O.meaning opening.0).names seat.old.me.0.entries x l }
    ensures same { (seat.new.me ≡ seat.old.me) × (seat.new.table_id ≡ seat.old.table_id) }
{
    words.shared.load::<Looks>(seat, 0)
}

// Gives up a name to a new token, which knows all entries that there are. The name is picked by the call's type.
fn give<O: PartObject, T: Wanted>(words: &Words<O>, seat: &mut Token<O>, name: Name) -> Token<O>
    requires seat { (seat.old.table_id ≡ words.now.shared.table_id)
        × (words.now.shared.table_id.words ≡ 1) }
    requires keeps { seat.old.me.0.keeps ≡ true }
    requires name { T.wanted ≡ Some name }
    requires has { In name seat.old.me.0.names }
    ensures table { (seat.new.table_id ≡ seat.old.table_id)
        × (result.table_id ≡ seat.old.table_id) }
    ensures seat { seat.new.me ≡ (left_of (Some name) seat.old.me.0, seat.old.me.1) }
    ensures token { result.me ≡ (right_of (Some name) seat.old.me.0, []) }
{
    words.shared.split_seat::<Gives<T>>(seat)
}

// Takes a token's names in, and remembers what it knew.
pub fn take<O: PartObject>(words: &Words<O>, seat: &mut Token<O>, other: Token<O>)
    requires seat { (seat.old.table_id ≡ words.now.shared.table_id)
        × (words.now.shared.table_id.words ≡ 1) }
    requires keeps { seat.old.me.0.keeps ≡ true }
    requires other { (other.table_id ≡ words.now.shared.table_id) × (other.me.1 ≡ [])
        × IsSome other.me.0.opening }
    ensures table { seat.new.table_id ≡ seat.old.table_id }
    ensures seat { seat.new.me ≡ (both_of seat.old.me.0 other.me.0, seat.old.me.1) }
{
    words.shared.join_seat::<Takes>(seat, other);
}

// Adds an entry, whose part and station the seat has. The entry is picked by the call's type.
fn append<O: PartObject, T: Entered<O::Call>>(
    words: &Words<O>,
    seat: &mut Token<O>,
    count: u64,
    entry: &Entry<O::Call>,
)
    requires seat { (seat.old.table_id ≡ words.now.shared.table_id)
        × (words.now.shared.table_id.words ≡ 1) }
    requires keeps { seat.old.me.0.keeps ≡ true }
    requires names { (o : Opening O O.Part) × (seat.old.me.0.opening ≡ Some o)
        × ((x : Name) → bears (O.meaning o.0).names entry.now x ≡ true → In x seat.old.me.0.names) }
    requires count { (count ≡ length seat.old.me.0.entries) × (count + 1 < 2 ^ 64) }
    requires entry { T.entry ≡ Some entry.now }
    ensures table { seat.new.table_id ≡ seat.old.table_id }
    ensures seat { seat.new.me ≡ (added (Some entry.now) seat.old.me.0, seat.old.me.1) }
{
    words.shared.store::<Adds<T>>(seat, 0, count + 1);
}

// Gives up a name to a new token, as `give` does, where the name is a value.
pub fn give_name<O: PartObject>(words: &Words<O>, seat: &mut Token<O>, name: Name) -> Token<O>
    requires seat { (seat.old.table_id ≡ words.now.shared.table_id)
        × (words.now.shared.table_id.words ≡ 1) }
    requires keeps { seat.old.me.0.keeps ≡ true }
    requires has { In name seat.old.me.0.names }
    ensures table { (seat.new.table_id ≡ seat.old.table_id)
        × (result.table_id ≡ seat.old.table_id) }
    ensures seat { seat.new.me ≡ (left_of (Some name) seat.old.me.0, seat.old.me.1) }
    ensures token { result.me ≡ (right_of (Some name) seat.old.me.0, []) }
{
    give::<O, Brand>(words, seat, name)
}

// Adds an entry, as `append` does, where the entry is a value.
pub fn append_entry<O: PartObject>(
    words: &Words<O>,
    seat: &mut Token<O>,
    count: u64,
    entry: &Entry<O::Call>,
)
    requires seat { (seat.old.table_id ≡ words.now.shared.table_id)
        × (words.now.shared.table_id.words ≡ 1) }
    requires keeps { seat.old.me.0.keeps ≡ true }
    requires names { (o : Opening O O.Part) × (seat.old.me.0.opening ≡ Some o)
        × ((x : Name) → bears (O.meaning o.0).names entry.now x ≡ true → In x seat.old.me.0.names) }
    requires count { (count ≡ length seat.old.me.0.entries) × (count + 1 < 2 ^ 64) }
    ensures table { seat.new.table_id ≡ seat.old.table_id }
    ensures seat { seat.new.me ≡ (added (Some entry.now) seat.old.me.0, seat.old.me.1) }
{
    append::<O, Brand>(words, seat, count, entry);
}
