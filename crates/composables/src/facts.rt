// Whether items and gaps keep what those of every track keep.
ghost use Rattle.std.specs.Prelude.{◌↔◌, ◌≡◌, ◌<◌, ◌^◌, IsTrue};
ghost use Rattle.composables.specs.TrackFacts.{Holds, HasSource, IsFilled, IsNoNest, ShowsAsItem, left_reach, right_reach};

use crate::ItemView;
use frame_meaning::{Link, Mark, Side, What};

/// Whether an item or gap has room for the dissolve before it and for the one at its tail, and is otherwise as every
/// item and gap of a track is.
pub fn holds(view: &ItemView, tail: Option<Mark>) -> bool
    ensures { IsTrue result ↔ Holds view.now tail }
{
    view.len > 0
        && shows_as_item(view)
        && is_filled(view.mark)
        && right_reach(view.mark) + left_reach(tail) <= u64::from(view.len)
        && has_source(
            view.first,
            view.len,
            left_reach(view.mark),
            right_reach(tail),
        )
        && is_no_nest(view.first, view.mark)
        && is_no_nest(view.first, tail)
}

// Whether it is an item that shows a thing, or a gap, which shows nothing and has no link.
fn shows_as_item(view: &ItemView) -> bool
    ensures { IsTrue result ↔ ShowsAsItem view.now.item view.now.first view.now.link }
{
    match (view.item, view.first, view.link) {
        (None, Side::Dark, None) => true,
        (Some(_), Side::Pic { .. }, _) => true,
        _ => false,
    }
}

// Whether a dissolve, if there is one, has a frame before its cut or after it.
fn is_filled(mark: Option<Mark>) -> bool
    ensures { IsTrue result ↔ IsFilled mark }
{
    match mark {
        Some(m) => m.a > 0 || m.b > 0,
        None => true,
    }
}

// How many frames before its cut a dissolve begins; 0 of none.
fn left_reach(mark: Option<Mark>) -> u64
    ensures value { result ≡ left_reach mark }
    ensures short { result < 2 ^ 32 }
{
    match mark {
        Some(m) => u64::from(m.a),
        None => 0,
    }
}

// How many frames after its cut a dissolve ends; 0 of none.
fn right_reach(mark: Option<Mark>) -> u64
    ensures value { result ≡ right_reach mark }
    ensures short { result < 2 ^ 32 }
{
    match mark {
        Some(m) => u64::from(m.b),
        None => 0,
    }
}

// Whether the source frames of an item, with this many before and after for its dissolves, are numbers of 32 bits.
fn has_source(side: Side<What>, len: u32, before: u64, after: u64) -> bool
    requires { after < 2 ^ 32 }
    ensures { IsTrue result ↔ HasSource side len before after }
{
    match side {
        Side::Dark => true,
        Side::Pic { source, .. } => {
            before <= u64::from(source)
                && u64::from(source) + u64::from(len) + after <= 4_294_967_296
        }
    }
}

// Whether no nest takes part in a dissolve: what is shown is none, or there is no dissolve.
fn is_no_nest(side: Side<What>, mark: Option<Mark>) -> bool
    ensures { IsTrue result ↔ IsNoNest side mark }
{
    match (side, mark) {
        (
            Side::Pic {
                what: What::Nest(_),
                ..
            },
            Some(_),
        ) => false,
        _ => true,
    }
}
