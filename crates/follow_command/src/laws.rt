// What a mirror of a room is, where the entries of its stream are those of the room's history; streams that are accepted.
ghost use Rattle.std.specs.Prelude.{◌≡◌, ◌⊎◌, [], ℕ, List, Some, length, slice_get};
ghost use Rattle.cut_mirror.specs.Following.{Follows};
ghost use Rattle.cut_mirror.specs.Mirrors.{IsWhy};
ghost use Rattle.cut_mirror.specs.declared.fault.MirrorFault.{MirrorFault};
ghost use Rattle.cut_mirror.specs.declared.fault.MirrorFault.TheVariants.{Gap, Memory};
ghost use Rattle.cut_steps.specs.CutSteps.{CutStep, fresh_tracks, stepping};
ghost use Rattle.otio_json.specs.declared.opening.Opening.{Opening};
ghost use Rattle.room_core.specs.History.{IsLegal};
ghost use Rattle.room_core.specs.Whole.{whole};
ghost use Rattle.room_core.specs.declared.entry.Entry.{Entry};
ghost use Rattle.follow_command.specs.Accepted.{StreamsAreNotRefused};
ghost use Rattle.follow_command.specs.Follows.{ComesTo};
ghost use Rattle.follow_command.specs.Fronts.{AreOf, IsFront};
ghost use Rattle.follow_command.specs.Goes.{CutMirror};
ghost use Rattle.follow_command.specs.NewsLines.{Item};

/// A stream whose entries stand in a history, each at its place, comes to a front of that history, in whatever order and
/// however often they are told. Where the history is a legal one of the room, the only refusal of such an entry is that its
/// place is past the end of what was taken so far.
pub fn mirrors_are_fronts()
    ensures front { (h entries : List (Entry CutStep)) (items : List Item)
        → AreOf h items → Follows [] items entries → IsFront entries h }
    ensures refused { (o : Opening) (h : List (Entry CutStep)) (m : CutMirror) (place : ℕ)
        (e : Entry CutStep) (why : MirrorFault)
        → IsLegal (whole (stepping o.table)) (fresh_tracks o.tracks) h
        → ComesTo o m.entries m.parts → IsFront m.entries h → slice_get h place ≡ Some e
        → IsWhy (stepping o.table) m place e why → (why ≡ Gap (length m.entries)) ⊎ (why ≡ Memory) }
{}

/// No line is refused of an input that is told, not too long, and of replies whose entries come to a cut of the room.
pub fn accepted_streams_are_not_refused()
    ensures { StreamsAreNotRefused }
{}
