// The next item number once items were put in.
ghost use Rattle.std.specs.Prelude.{◌≡◌, ◌<◌, IfSome};
ghost use Rattle.composables.specs.TrackState.{next_past, next_past_all};
ghost use Rattle.composables.specs.TrackFacts.{NumbersBelow};

use crate::ItemView;

/// The next item number once an item with this number, or a gap, was put in.
pub fn number_past(next: u32, item: Option<u32>) -> u32
    requires { IfSome item (λ i. i < 4294967295) }
    ensures { result ≡ next_past next item }
{
    match item {
        Some(i) => next.max(i + 1),
        None => next,
    }
}

/// The next item number once each of these was put in.
pub fn number_past_all(next: u32, items: &[ItemView]) -> u32
    requires { NumbersBelow 4294967295 items.now }
    ensures { result ≡ next_past_all next items.now }
{
    let mut past = next;
    for view in items {
        past = number_past(past, view.item);
    }
    past
}
