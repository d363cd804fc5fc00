// Tracks whose numbers leave room for an edit's.
ghost use Rattle.std.specs.Prelude.{All, IsTrue};
ghost use Rattle.composables.specs.Roomy.{IsRoomy};

use composables::Track;

/// Whether each of these tracks has next numbers of at most 2,147,483,648.
pub fn all_roomy(named: &[Track]) -> bool
    ensures { IsTrue result → All (λ t. IsRoomy t) named.now }
{
    for track in named {
        if track.next_item() > 2_147_483_648 || track.next_link() > 2_147_483_648 {
            return false;
        }
    }
    true
}
