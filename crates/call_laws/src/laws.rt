// Two calls that compare as equal are one: first of each kind, then of all.
ghost use Rattle.std.specs.Prelude.{◌≡◌, true};

use composables::{
    Dissolve, Extract, Fill, Insert, Link3, Overwrite, Remove, Ripple, Roll, Slice, Slide, Slip,
    Trim, Undissolve, Unlink,
};
use edit_calls::Call;
use take_back::{Deed, Step};

fn equal_overwrites_are_one()
    ensures { (x y : Overwrite) → ⟦<Overwrite as PartialEq>⟧.eq x y ≡ true → x ≡ y }
{}

fn equal_insertions_are_one()
    ensures { (x y : Insert) → ⟦<Insert as PartialEq>⟧.eq x y ≡ true → x ≡ y }
{}

fn equal_removals_are_one()
    ensures { (x y : Remove) → ⟦<Remove as PartialEq>⟧.eq x y ≡ true → x ≡ y }
{}

fn equal_extractions_are_one()
    ensures { (x y : Extract) → ⟦<Extract as PartialEq>⟧.eq x y ≡ true → x ≡ y }
{}

fn equal_slices_are_one()
    ensures { (x y : Slice) → ⟦<Slice as PartialEq>⟧.eq x y ≡ true → x ≡ y }
{}

fn equal_dissolves_are_one()
    ensures { (x y : Dissolve) → ⟦<Dissolve as PartialEq>⟧.eq x y ≡ true → x ≡ y }
{}

fn equal_undissolves_are_one()
    ensures { (x y : Undissolve) → ⟦<Undissolve as PartialEq>⟧.eq x y ≡ true → x ≡ y }
{}

fn equal_trims_are_one()
    ensures { (x y : Trim) → ⟦<Trim as PartialEq>⟧.eq x y ≡ true → x ≡ y }
{}

fn equal_slips_are_one()
    ensures { (x y : Slip) → ⟦<Slip as PartialEq>⟧.eq x y ≡ true → x ≡ y }
{}

fn equal_rolls_are_one()
    ensures { (x y : Roll) → ⟦<Roll as PartialEq>⟧.eq x y ≡ true → x ≡ y }
{}

fn equal_slides_are_one()
    ensures { (x y : Slide) → ⟦<Slide as PartialEq>⟧.eq x y ≡ true → x ≡ y }
{}

fn equal_fills_are_one()
    ensures { (x y : Fill) → ⟦<Fill as PartialEq>⟧.eq x y ≡ true → x ≡ y }
{}

fn equal_ripples_are_one()
    ensures { (x y : Ripple) → ⟦<Ripple as PartialEq>⟧.eq x y ≡ true → x ≡ y }
{}

fn equal_links_are_one()
    ensures { (x y : Link3) → ⟦<Link3 as PartialEq>⟧.eq x y ≡ true → x ≡ y }
{}

fn equal_unlinks_are_one()
    ensures { (x y : Unlink) → ⟦<Unlink as PartialEq>⟧.eq x y ≡ true → x ≡ y }
{}

/// Calls that compare as equal are one call: what a mirror needs, which compares a call that comes again with its own.
pub fn equal_calls_are_one()
    ensures { (x y : Call) → ⟦<Call as PartialEq>⟧.eq x y ≡ true → x ≡ y }
{
    equal_overwrites_are_one();
    equal_insertions_are_one();
    equal_removals_are_one();
    equal_extractions_are_one();
    equal_slices_are_one();
    equal_dissolves_are_one();
    equal_undissolves_are_one();
    equal_trims_are_one();
    equal_slips_are_one();
    equal_rolls_are_one();
    equal_slides_are_one();
    equal_fills_are_one();
    equal_ripples_are_one();
    equal_links_are_one();
    equal_unlinks_are_one();
}

fn equal_deeds_are_one()
    ensures { (x y : Deed Call) → ⟦<Deed<Call> as PartialEq>⟧.eq x y ≡ true → x ≡ y }
{
    equal_calls_are_one();
}

/// Steps that compare as equal are one step.
pub fn equal_steps_are_one()
    ensures { (x y : Step Call) → ⟦<Step<Call> as PartialEq>⟧.eq x y ≡ true → x ≡ y }
{
    equal_deeds_are_one();
}
