// The numbers of a station.
ghost use Rattle.std.specs.Prelude.{◌≡◌};
ghost use Rattle.room_core.specs.History.{NumbersRise};
ghost use Rattle.room_core.specs.Machine.{is_above};

use room_core::Entry;

// Whether a number is above all that a station has used, of which the last one is the greatest.
pub(crate) fn is_above<C>(entries: &[Entry<C>], station: u32, number: u32) -> bool
    requires rise { NumbersRise entries.now }
    ensures { result ≡ is_above station number entries.now }
{
    let mut k = entries.len();
    while k > 0 {
        k -= 1;
        if entries[k].station == station {
            return entries[k].number < number;
        }
    }
    true
}
