// What holds of every object of which calls can be taken back.
ghost use Rattle.std.specs.Prelude.{◌≡◌, ◌++◌, ℕ, List, [], Some, Ok, length, map, true};
ghost use Rattle.room_core.specs.declared.entry.Entry.{Entry};
ghost use Rattle.room_core.specs.History.{replay, IsLegal};
ghost use Rattle.room_core.specs.Projection.{of_part};
ghost use Rattle.room_core.specs.Whole.{picked, put_back, set_of, whole};
ghost use Rattle.take_back.specs.declared.answers.BackDone.{BackDone};
ghost use Rattle.take_back.specs.declared.answers.BackDone.TheVariants.{Plain};
ghost use Rattle.take_back.specs.declared.kept.Kept.{Kept};
ghost use Rattle.take_back.specs.declared.step.Deed.TheVariants.{Do, Back};
ghost use Rattle.take_back.specs.declared.step.Step.{Step};
ghost use Rattle.take_back.specs.Left.{Leads, as_own, is_among, left, left_told};
ghost use Rattle.take_back.specs.Parts.{fresh, nows, CanOpen};
ghost use Rattle.take_back.specs.Steps.{backed};

use room_core::PartObject;

/// After any steps of an opening the parts are those that the object comes to by the calls that are left, one after
/// another; each of these has the answer that it had when it was done; and what is left of a legal history is one.
pub fn what_is_left_is_a_history<O: PartObject>()
    ensures parts { (o : O) (opening now : List (Kept O.Part))
        (entries : List (Entry (Step O.Call)))
        → CanOpen (O.opens o) opening
        → replay (whole (backed (O.count o) (O.meaning o))) opening entries ≡ Some now
        → replay (whole (O.meaning o)) (nows opening) (left (O.meaning o).names entries)
        ≡ Some (nows now) }
    ensures answers { (o : O) (opening now : List (Kept O.Part))
        (told : List (Entry (Step O.Call) × BackDone O.Done))
        → CanOpen (O.opens o) opening
        → Leads (whole (backed (O.count o) (O.meaning o))) opening told now
        → (answers : List (Entry O.Call × O.Done))
        × Leads (whole (O.meaning o)) (nows opening) answers (nows now)
        × (map as_own answers ≡ left_told (O.meaning o).names told) }
    ensures legal { (o : O) (opening now : List (Kept O.Part))
        (entries : List (Entry (Step O.Call)))
        → CanOpen (O.opens o) opening
        → IsLegal (whole (backed (O.count o) (O.meaning o))) opening entries
        → replay (whole (backed (O.count o) (O.meaning o))) opening entries ≡ Some now
        → IsLegal (whole (O.meaning o)) (nows opening) (left (O.meaning o).names entries) }
{}

/// A station's call on parts that a history of an opening comes to can be taken back by that station as long as
/// nothing else names one of its parts. These are then as they were before the call, and the others as they have
/// become.
pub fn taken_back_as_it_was<O: PartObject>()
    ensures { (o : O) (opening before done after : List (Kept O.Part))
        (entries between : List (Entry (Step O.Call)))
        (by : ℕ) (call : O.Call) (answer : BackDone O.Done)
        → CanOpen (O.opens o) opening
        → replay (whole (backed (O.count o) (O.meaning o))) opening entries ≡ Some before
        → whole (backed (O.count o) (O.meaning o)) before (record { by = by; act = Do call })
        ≡ Ok (done, answer)
        → ((part : ℕ) → is_among ((O.meaning o).names call) part ≡ true
        → of_part (backed (O.count o) (O.meaning o)).names part between ≡ [])
        → replay (whole (backed (O.count o) (O.meaning o))) done between ≡ Some after
        → whole (backed (O.count o) (O.meaning o)) after
        (record { by = by; act = Back (set_of ((O.meaning o).names call)) })
        ≡ Ok (
          put_back after ((O.meaning o).names call)
              (map fresh (picked (nows before) ((O.meaning o).names call))),
          Plain,
        ) }
{}
