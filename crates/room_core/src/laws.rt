// What holds of every object, whatever its parts are.
ghost use Rattle.std.specs.Prelude.{◌≡◌, ◌++◌, ℕ, List, None, Some, All, slice_get, true};
ghost use Rattle.room_core.specs.declared.entry.Entry.{Entry};
ghost use Rattle.room_core.specs.History.{replay, IsLegal};
ghost use Rattle.room_core.specs.Machine.{Event, IsOfAnother, Machine, StaysHeld, is_held_by, opened, run, step};
ghost use Rattle.room_core.specs.OwnParts.{AreOfFirst, KeepToOwn, by_station, calls_of};
ghost use Rattle.room_core.specs.Parts.{AreGood, numbers};
ghost use Rattle.room_core.specs.Projection.{of_part};
ghost use Rattle.room_core.specs.Whole.{whole, picked, put_back};

use crate::PartObject;

/// Whatever the stations take, commit and give back, in whatever order: what was committed is one legal serial history,
/// and the parts are those that it comes to. A part has one holder or none, and while a station holds it no event of
/// another station changes it or takes it away.
pub fn serial_law<O: PartObject>()
    ensures legal { (o : O) (parts : List O.Part) (events : List (Event O.Call))
        → IsLegal (whole (O.meaning o)) parts (run (O.meaning o) (opened parts) events).history }
    ensures parts { (o : O) (parts : List O.Part) (events : List (Event O.Call))
        → replay (whole (O.meaning o)) parts (run (O.meaning o) (opened parts) events).history
        ≡ Some (run (O.meaning o) (opened parts) events).parts }
    ensures held { (o : O) (m : Machine O.Part O.Call) (event : Event O.Call) (station part : ℕ)
        → is_held_by station (slice_get m.holders part) ≡ true → IsOfAnother station event
        → StaysHeld m (step (O.meaning o) m event) part }
    ensures one_holder { (m : Machine O.Part O.Call) (first second part : ℕ)
        → is_held_by first (slice_get m.holders part) ≡ true
        → is_held_by second (slice_get m.holders part) ≡ true → first ≡ second }
{}

/// The parts that a call names, picked out of all, are such as a call asks for; and what a call leaves, put back in their
/// places, makes all parts good again.
pub fn named_parts_are_good<O: PartObject>()
    ensures picked { (o : O) (call : O.Call) (parts : List O.Part)
        → (O.meaning o).refuses call ≡ None
        → AreGood (O.good o) (numbers 0 (O.count o)) parts
        → AreGood (O.good o) ((O.meaning o).names call) (picked parts ((O.meaning o).names call)) }
    ensures roomy { (o : O) (call : O.Call) (parts : List O.Part) → All (O.roomy o) parts
        → All (O.roomy o) (picked parts ((O.meaning o).names call)) }
    ensures put_back { (o : O) (call : O.Call) (parts now : List O.Part)
        → AreGood (O.good o) (numbers 0 (O.count o)) parts
        → AreGood (O.good o) ((O.meaning o).names call) now
        → AreGood (O.good o) (numbers 0 (O.count o))
        (put_back parts ((O.meaning o).names call) now) }
{}

/// What is committed on other parts changes nothing of a part: where a history and a longer one have one projection on
/// it, both come to one part there.
pub fn other_parts_stay<O: PartObject>()
    ensures { (o : O) (part : ℕ) (parts now then_now : List O.Part)
        (entries more : List (Entry O.Call))
        → of_part (O.meaning o).names part (entries ++ more)
        ≡ of_part (O.meaning o).names part entries
        → replay (whole (O.meaning o)) parts entries ≡ Some now
        → replay (whole (O.meaning o)) parts (entries ++ more) ≡ Some then_now
        → slice_get then_now part ≡ slice_get now part }
{}

/// Where each entry names one part alone, that of its station, the order between stations does not matter: the history
/// comes to what it comes to station by station, or one of its entries does not apply either way.
pub fn order_between_stations<O: PartObject>()
    ensures { (o : O) (parts : List O.Part) (stations : ℕ) (entries : List (Entry O.Call))
        → AreOfFirst stations entries → KeepToOwn (O.meaning o).names entries
        → replay (whole (O.meaning o)) parts entries
        ≡ replay (whole (O.meaning o)) parts (by_station stations entries) }
{}

/// What a history comes to are its calls alone, whoever sent them under whatever numbers.
pub fn calls_alone_count<O: PartObject>()
    ensures { (o : O) (parts : List O.Part) (entries others : List (Entry O.Call))
        → calls_of entries ≡ calls_of others
        → replay (whole (O.meaning o)) parts entries ≡ replay (whole (O.meaning o)) parts others }
{}
