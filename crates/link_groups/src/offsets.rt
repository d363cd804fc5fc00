// The offset of an item: its record place less its source frame.
ghost use Rattle.std.specs.Prelude.{◌≡◌};
ghost use Rattle.composables.specs.Ranges.{offset_of};

use composables::ItemView;
use frame_meaning::Side;

/// The offset of an item that begins at a record frame: that frame less the source frame shown there. A gap has none.
pub fn offset(view: &ItemView, from: u32) -> Option<i64>
    ensures { result ≡ offset_of view.now.first from }
{
    match view.first {
        Side::Dark => None,
        Side::Pic { what: _, source } => Some(i64::from(from) - i64::from(source)),
    }
}
