// A shift of several tracks, and of the links of what it moves.
ghost use Rattle.std.specs.Prelude.{◌≡◌, ◌+◌, ◌-◌, ◌*◌, ◌≤◌, All};
ghost use Rattle.out_of_memory.specs.Answers.{Answers};
ghost use Rattle.composables.specs.Sizes.{sizes_of};
ghost use Rattle.edit_splice.specs.Moves.{IsShiftOf};
ghost use Rattle.link_groups.specs.LinkedShifts.{linked_shift};
ghost use Rattle.link_groups.specs.Renumbering.{MayBeSplit};

use crate::outside::check_moved;
use crate::renumbering::relink_all;
use crate::splits::splits_shifted;
use composables::{Done, EditFault, Track};
use edit_splice::{Shift, new_len, over_limits, shift_tracks, shifted};
use std::alloc::Global;
use std::sync::ledger::Ledger;
use step_count::Steps;

/// Shifts all these tracks, or none, with the links of what is moved: where others of its link stay before the shift,
/// an item that ends past the record frame `place` after it gets a new link. `place` is the end of what is put in, or its
/// start where that belongs to an item which is moved.
///
/// The first link of what is moved that has a track which is not among these is told, and else the first track that
/// would be too long, and else the first that would have too many items and gaps. Only then it takes memory, all that it
/// needs before one of them is changed.
pub fn shift_linked<L: Ledger>(
    alloc: Global,
    named: &mut Vec<Track>,
    shift: &Shift,
    place: u64,
    done: Done,
    steps: &mut Steps<L>,
) -> Result<Done, EditFault>
    requires order { shift.now.x ≤ shift.now.y }
    requires fits { All (λ t. IsShiftOf shift.now t) named.old.items }
    requires split { MayBeSplit named.old.items }
    ensures answers { Answers (linked_shift shift.now place done named.old.items)
        named.old.items named.new.items result }
    ensures least { steps.old ≤ steps.new }
    ensures most { steps.new ≤ steps.old + 21 * sizes_of named.old.items }
{
    if new_len(shift.new) == shift.y - shift.x {
        return shift_tracks(alloc, named, shift, done, steps);
    }
    match check_moved(named, shift.y, steps) {
        Some(refusal) => return Err(EditFault::Refused(refusal)),
        None => {}
    }
    match over_limits(named, shift, steps) {
        Some(refusal) => return Err(EditFault::Refused(refusal)),
        None => {}
    }
    let splits = splits_shifted(alloc, named, shift.x, shift.y, steps)?;
    let mut moved = shifted(alloc, named, shift, steps)?;
    relink_all(alloc, &mut moved, place, &splits, steps)?;
    *named = moved;
    Ok(done)
}
