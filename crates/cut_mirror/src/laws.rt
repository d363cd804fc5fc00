// What holds of every stream.
ghost use Rattle.std.specs.Prelude.{◌≡◌, ◌++◌, ◌∷◌, [], ℕ, List};
ghost use Rattle.room_core.specs.declared.entry.Entry.{Entry};
ghost use Rattle.cut_mirror.specs.Following.{Follows, GoesOn};

use room_core::PartObject;

/// A stream that is followed comes to one list, and what it comes to by one entry more is what that entry goes on to.
pub fn streams_come_to_one_list<O: PartObject>()
    ensures one { (before one other : List (Entry O.Call)) (items : List (ℕ × Entry O.Call))
        → Follows before items one → Follows before items other → one ≡ other }
    ensures more { (before after next : List (Entry O.Call)) (items : List (ℕ × Entry O.Call))
        (place : ℕ) (e : Entry O.Call) → Follows before items after → GoesOn after place e next
        → Follows before (items ++ (place, e) ∷ []) next }
{}
