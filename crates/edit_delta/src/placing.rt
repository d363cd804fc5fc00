// Parts of items in place of a range of one track, within its limits.
ghost use Rattle.std.specs.Prelude.{◌+◌, ◌*◌, ◌≤◌, false, length};
ghost use Rattle.out_of_memory.specs.Answers.{Answers};
ghost use Rattle.composables.specs.Good.{IsGood};
ghost use Rattle.composables.specs.Items.{items_of};
ghost use Rattle.composables.specs.Limits.{track_within_limits};
ghost use Rattle.composables.specs.Roomy.{IsRoomy};
ghost use Rattle.edit_splice.specs.Splicing.{spliced_track};
ghost use Rattle.edit_splice.specs.Standing.{StaysGood};
ghost use Rattle.edit_delta.specs.Parts.{AreParts};

use composables::{Done, EditFault, ItemView, Table, Track};
use edit_splice::splice_within;
use std::alloc::Global;
use std::sync::ledger::Ledger;
use step_count::Steps;

/// Puts parts of items in place of the record frames [x, y), and gives this answer, unless the track would have too
/// many items and gaps.
pub fn place_parts<L: Ledger>(
    alloc: Global,
    table: &Table,
    track: &mut Track,
    x: u32,
    y: u32,
    parts: &[ItemView],
    done: Done,
    steps: &mut Steps<L>,
) -> Result<Done, EditFault>
    requires good { IsGood table.now track.old }
    requires roomy { IsRoomy track.old }
    requires parts { AreParts table.now track.old x y parts.now }
    ensures answers { Answers
        (track_within_limits (spliced_track false track.old x y parts.now) done)
        track.old track.new result }
    ensures good { StaysGood table.now track.old track.new }
    ensures least { steps.old ≤ steps.new }
    ensures most { steps.new ≤ steps.old + 16 * (length (items_of track.old.cells) + 64) }
{
    splice_within(alloc, track, x, y, false, parts, done, steps)
}
