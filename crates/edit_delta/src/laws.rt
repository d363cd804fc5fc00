// What the delta used is, whatever the set of those allowed.
ghost use Rattle.edit_delta.specs.Nearest.{NearestIs, NearestIsOne};

/// Each set of deltas, with 0, has a member between 0 and the delta asked for that is nearest to it, and has one only.
pub fn a_set_of_deltas_has_one_nearest()
    ensures nearest { NearestIs }
    ensures one { NearestIsOne }
{}
