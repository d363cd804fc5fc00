// What is true of tracks under the calls of a room, whatever numbers they have given away.
ghost use Rattle.track_laws.specs.Goods.{DissolvingKeepsGood, LinkingKeepsGood};
ghost use Rattle.track_laws.specs.Goods.{MovingKeepsGood, PuttingInKeepsGood, ShiftingKeepsGood};
ghost use Rattle.track_laws.specs.Kept.{DissolvesStandAtCuts, ItemsGoOn};
ghost use Rattle.track_laws.specs.Shown.{PutsNothing, PutsOnlyItsThing};

/// Where the tracks that a call names are all good in a table whose ranges end by 2^32, they are all good after the call
/// where it is done.
pub fn good_law()
    ensures putting_in { PuttingInKeepsGood }
    ensures shifting { ShiftingKeepsGood }
    ensures moving { MovingKeepsGood }
    ensures dissolving { DissolvingKeepsGood }
    ensures linking { LinkingKeepsGood }
{}

/// Whatever a track shows after a call that is done, it showed before, or it is what the call puts on its own track; and
/// that suits the track's kind, so that no nest comes on a track of sound.
pub fn shown_law()
    ensures putting_in { PutsOnlyItsThing }
    ensures others { PutsNothing }
{}

/// What every track keeps, as an editor says it: of two frames side by side that belong to one item the later shows the
/// next source frame of one thing, with the same link and no dissolve between them; and a dissolve stands at a cut.
pub fn kept_law()
    ensures items { ItemsGoOn }
    ensures dissolves { DissolvesStandAtCuts }
{}
