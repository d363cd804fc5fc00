// An edit on the tracks that its call names.
ghost use Rattle.std.specs.Prelude.{◌≡◌, ◌+◌, ◌*◌, ◌≤◌, All, None, length, sum_by};
ghost use Rattle.out_of_memory.specs.Answers.{Answers};
ghost use Rattle.composables.specs.Good.{IsGood};
ghost use Rattle.composables.specs.Items.{items_of};
ghost use Rattle.composables.specs.Roomy.{IsRoomy};
ghost use Rattle.edit_apply.specs.Apply.{applied_on, refuse_names_of};
ghost use Rattle.edit_apply.specs.RoomTracks.{AreThoseNamed};

use crate::Call;
use composables::{Done, EditFault, Table, Track};
use dissolves::{dissolve, undissolve};
use edit_insert::{extract, fill, insert, overwrite, remove, slice};
use edit_roll::{roll, slide};
use edit_trim::{ripple, slip, trim};
use link_groups::{link, unlink};
use std::alloc::Global;
use std::sync::ledger::Ledger;
use step_count::Steps;

/// Does a call on the tracks that it names, handed in in ascending order, or refuses it by the first refusal that
/// holds, or finds no memory. It changes nothing where it does not do the call.
pub(crate) fn edit<L: Ledger>(
    alloc: Global,
    table: &Table,
    parts: &mut Vec<Track>,
    call: &Call,
    steps: &mut Steps<L>,
) -> Result<Done, EditFault>
    requires names { refuse_names_of table.now call.now ≡ None }
    requires named { AreThoseNamed call.now parts.old.items }
    requires good { All (λ t. IsGood table.now t) parts.old.items }
    requires roomy { All IsRoomy parts.old.items }

    ensures answers { Answers (applied_on table.now parts.old.items call.now) parts.old.items
        parts.new.items result }

    ensures named { AreThoseNamed call.now parts.new.items }
    ensures good { All (λ t. IsGood table.now t) parts.new.items }

    ensures least { steps.old + 1 ≤ steps.new }
    ensures most { steps.new ≤ steps.old + 32 * sum_by
        (λ t. length (items_of t.cells) + 64) parts.old.items }
{
    match call {
        Call::Overwrite(edit) => overwrite(alloc, table, parts, edit, steps),
        Call::Insert(edit) => insert(alloc, table, parts, edit, steps),
        Call::Remove(edit) => remove(alloc, table, parts, edit, steps),
        Call::Extract(edit) => extract(alloc, table, parts, edit, steps),
        Call::Slice(edit) => slice(alloc, table, parts, edit, steps),
        Call::Dissolve(edit) => dissolve(alloc, table, parts, edit, steps),
        Call::Undissolve(edit) => undissolve(alloc, table, parts, edit, steps),
        Call::Trim(edit) => trim(alloc, table, parts, edit, steps),
        Call::Slip(edit) => slip(alloc, table, parts, edit, steps),
        Call::Roll(edit) => roll(alloc, table, parts, edit, steps),
        Call::Slide(edit) => slide(alloc, table, parts, edit, steps),
        Call::Fill(edit) => fill(alloc, table, parts, edit, steps),
        Call::Ripple(edit) => ripple(alloc, table, parts, edit, steps),
        Call::Link3(edit) => link(alloc, table, parts, edit, steps),
        Call::Unlink(edit) => unlink(alloc, table, parts, edit, steps),
    }
}
