// What a room of cuts is at any point of its history.
ghost use Rattle.cut_steps.specs.CutLaws.{CutsAreLeft, LeftIsLegal};

/// After any steps of an opening the tracks are those that the edits come to which are left, one after another; and what
/// is left of a legal history of steps is a legal history of edits.
pub fn cuts_are_what_is_left()
    ensures tracks { CutsAreLeft }
    ensures legal { LeftIsLegal }
{}
