// Whether entries are the same.
ghost use Rattle.std.specs.Prelude.{◌≡◌, true};

use call_laws::equal_steps_are_one;
use edit_calls::Call;
use room_core::Entry;
use take_back::Step;

fn is_same(entry: &Entry<Step<Call>>, other: &Entry<Step<Call>>) -> bool
    ensures { result ≡ true → entry.now ≡ other.now }
{
    equal_steps_are_one();
    entry.station == other.station && entry.number == other.number && entry.call == other.call
}

// Whether these are the same entries in the same order.
pub fn are_same(entries: &[Entry<Step<Call>>], others: &[Entry<Step<Call>>]) -> bool
    ensures { result ≡ true → entries.now ≡ others.now }
{
    if entries.len() != others.len() {
        return false;
    }
    for k in 0..entries.len() {
        if !is_same(&entries[k], &others[k]) {
            return false;
        }
    }
    true
}
