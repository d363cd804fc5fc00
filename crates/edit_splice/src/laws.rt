// What a splice leaves, whoever does it.
ghost use Rattle.edit_splice.specs.Laws.{CellsBefore, CellsBehind, CellsBetween, GoodStaysGood, GoodTakesParts, LengthsAdd, NewItemsMayBePutIn, NewMayBePutIn, NumbersRise, OneFootprint, UnlinkedStaysUnlinked};

/// New items may be put in place of any range of a track, and it is a track again.
pub fn new_items_may_be_put_in()
    ensures { NewItemsMayBePutIn }
{}

/// Within the limits a track that is good in a table is good in it with new items in place of any of its ranges.
pub fn a_good_track_stays_good()
    ensures { GoodStaysGood }
{}

/// Within the limits a track that is good in a table is good in it also with items put in that stood within the range,
/// where the item or gap that ends at it goes on, and where the one that begins after it reaches back.
pub fn a_good_track_takes_parts()
    ensures parts { GoodTakesParts }
    ensures new { NewMayBePutIn }
{}

/// A splice gives away at most the numbers of the new items and one more.
pub fn next_numbers_rise_by_the_new_items()
    ensures { NumbersRise }
{}

/// A track without links has none after a splice of items without links.
pub fn an_unlinked_track_stays_unlinked()
    ensures { UnlinkedStaysUnlinked }
{}

/// A splice leaves the frames before the range, those put in, and those after it.
pub fn a_spliced_track_is_as_long_as_its_parts()
    ensures { LengthsAdd }
{}

/// Where each cell stands after a splice, under any rule for marks, and what becomes of its mark.
pub fn each_cell_has_its_place()
    ensures before { CellsBefore }
    ensures between { CellsBetween }
    ensures behind { CellsBehind }
{}

/// A place lies in the footprint of at most one dissolve.
pub fn a_place_lies_in_one_footprint_at_most()
    ensures { OneFootprint }
{}
