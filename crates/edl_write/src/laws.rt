// What is true of all lists.
ghost use Rattle.std.specs.Prelude.{◌≡◌, ℕ, List, Result, Err, length};
ghost use Rattle.composables.specs.declared.media.Table.{Table};
ghost use Rattle.composables.specs.TrackState.{TrackState};
ghost use Rattle.timecode12.specs.Numbers.{Counted};
ghost use Rattle.reel_names.specs.declared.namer.ReelName.{ReelName};
ghost use Rattle.reel_names.specs.Namers.{NamerRule};
ghost use Rattle.edl_write.specs.declared.fault.ListFault.{ListFault};
ghost use Rattle.edl_write.specs.declared.fault.ListFault.TheVariants.{Memory};
ghost use Rattle.edl_write.specs.declared.list.Written.{Written};
ghost use Rattle.edl_write.specs.declared.ordering.ChannelSegment.{ChannelSegment};
ghost use Rattle.edl_write.specs.Order.{AreEventsOf};
ghost use Rattle.edl_write.specs.Refusals.{IsAnswer};

/// A cut has one list of events at most.
pub fn a_cut_has_one_list_of_events()
    ensures { (table : Table) (tracks : List TrackState) (es fs : List ChannelSegment)
        → AreEventsOf table tracks es → AreEventsOf table tracks fs → es ≡ fs }
{}

/// A cut has one list or one refusal, with a counting, a start and a namer. So what `write_list` answers is decided,
/// except out of memory, and a cut that it refuses has no list.
pub fn a_cut_has_one_answer()
    ensures { (table : Table) (tracks : List TrackState) (counting : Counted) (start : ℕ)
        (rule : NamerRule) (given : List ReelName) (a b : Result Written ListFault)
        → IsAnswer table tracks counting start rule given a
        → IsAnswer table tracks counting start rule given b
        → (a ≡ Err Memory → ⊥) → (b ≡ Err Memory → ⊥) → a ≡ b }
{}
