// What a held part stands for.
ghost use Rattle.std.specs.Prelude.{◌≡◌, ℕ, List, Option};
ghost use Rattle.edit_journal.specs.Seats.{Opening};
ghost use Rattle.edit_journal.specs.Turns.{Known, Open, IsJournal, AllAgree};
ghost use Rattle.track_locks.specs.Homes.{AreHomes, StandFor, all_gathered};

use room_core::PartObject;

/// Once the seats of held parts were gathered, and by what [`edit_journal::Turn::look`] tells, each held part is what the
/// journal's entries come to there, and its version counts those that name it: what was committed on other parts since
/// it was put changed nothing of it.
pub fn held_parts_stand<O: PartObject>()
    ensures { (stations : ℕ) (opening : Option (Opening O O.Part))
        (before journal : Open O O.Part O.Call)
        (ns : List ℕ) (ps : List O.Part) (vs : List ℕ) (ss : List (Known O O.Part O.Call))
        → AreHomes O.meaning O.opens opening ns ps vs ss → journal ≡ all_gathered ss before
        → journal.opening ≡ opening
        → IsJournal O.meaning O.opens stations journal.opening journal.entries
        → AllAgree O.meaning journal
        → StandFor O.meaning opening journal.entries ns ps vs }
{}
