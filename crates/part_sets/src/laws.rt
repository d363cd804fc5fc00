// What holds of every set.
ghost use Rattle.std.specs.Prelude.{◌≡◌, ◌^◌, ◌<◌, ℕ, List, None};
ghost use Rattle.room_core.specs.Parts.{AscendBetween};
ghost use Rattle.room_core.specs.Whole.{set_of};
ghost use Rattle.part_sets.specs.Members.{first_absent, members};

/// A set is the set of its members; numbers below 32 in ascending order are the members of their set; and members that
/// are all below a count ascend below it.
pub fn sets_are_their_members()
    ensures set { (set : ℕ) → set < 2 ^ 32 → set_of (members set) ≡ set }
    ensures members { (numbers : List ℕ) → AscendBetween 0 32 numbers
        → members (set_of numbers) ≡ numbers }
    ensures ascend { (set count : ℕ) → first_absent count (members set) ≡ None
        → AscendBetween 0 count (members set) }
{}
