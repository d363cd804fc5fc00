// What is true of a room's tracks under every call, and at every point of its history.
ghost use Rattle.edit_apply.specs.TogetherLaws.{CallsKeepRooms, RoomsStayGood, RoomsStayRoomy};
ghost use Rattle.edit_apply.specs.TogetherLaws.{RoomsStayTogether, RoomsSuitTheirKinds};

/// Where the tracks of a room are together they are so after every call that is done: two frames of one link, on any
/// tracks, have one set of tracks and one offset. They are so after any entries from an opening, and at every point of a
/// legal history, where they have room among their numbers too.
pub fn together_law()
    ensures step { CallsKeepRooms }
    ensures together { RoomsStayTogether }
    ensures roomy { RoomsStayRoomy }
{}

/// The tracks of a room are all good in its table at every point of its history: no call leaves them otherwise.
pub fn good_law()
    ensures { RoomsStayGood }
{}

/// Whatever a track of a room shows at any point of its history, it showed at the opening, or it suits the track's kind:
/// no nest comes on a track of sound.
pub fn kinds_law()
    ensures { RoomsSuitTheirKinds }
{}
