// What is true of the tracks of documents, and the numbers of the limits, with nothing to run.
ghost use Rattle.std.specs.Prelude.{◌≡◌};
ghost use Rattle.otio_json.specs.ShownTracks.{TracksShowTheirItems};

use crate::timeline::{MAX_NESTS, MAX_TRACKS};

/// A track that is read shows what its children's items and gaps show, one after another, frame by frame: those without
/// frames show nothing, and that gaps which meet become one changes nothing that is shown.
pub fn a_track_shows_its_items_one_after_another()
    ensures { TracksShowTheirItems }
{}

/// The limits: at most 32 tracks, and at most 8 nests in one another.
pub fn limits_are_these()
    ensures tracks { MAX_TRACKS ≡ 32 }
    ensures nests { MAX_NESTS ≡ 8 }
{}
