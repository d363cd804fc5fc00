// What holds of every crew.
ghost use Rattle.std.specs.Prelude.{◌≡◌, ◌≤◌, ℕ, List, Ok, length};
ghost use Rattle.crew_words.specs.Crews.{HaveOwnNames, MemberState, crew_read};

/// A crew that is read has a member for each station, and no two of one name.
pub fn each_member_has_a_name_of_its_own()
    ensures enough { (stations : ℕ) (text : List ℕ) (crew : List MemberState)
        → crew_read stations text ≡ Ok crew → stations ≤ length crew }
    ensures names { (stations : ℕ) (text : List ℕ) (crew : List MemberState)
        → crew_read stations text ≡ Ok crew → HaveOwnNames crew }
{}
