// Whether the entries of a journal are those of the scripts.
ghost use Rattle.std.specs.Prelude.{◌≡◌, ◌<◌, ◌≤◌, ◌+◌, true, length};
ghost use Rattle.room_core.specs.OwnParts.{AreOfFirst, calls_of};
ghost use Rattle.room_core.specs.Projection.{of_station};
ghost use Rattle.made_sessions.specs.Scripts.{next_word, script, script_call};
ghost use Rattle.made_sessions.specs.Comparing.{HaveScripts};

use crate::scripts::Script;
use edit_apply::Call;
use room_core::Entry;

// Whether two calls that a script may have are one.
fn is_same(call: &Call, wanted: &Call) -> bool
    ensures { result ≡ true → call.now ≡ wanted.now }
{
    match (call, wanted) {
        (Call::Overwrite(edit), Call::Overwrite(other)) => edit == other,
        (Call::Insert(edit), Call::Insert(other)) => edit == other,
        _ => false,
    }
}

// Whether a call is the next one of a script, which goes on after it.
fn is_next(call: &Call, script: &mut Script) -> bool
    requires station { script.old.station < 32 }
    requires place { script.old.place < 4294967295 }
    ensures same { result ≡ true
        → call.now ≡ script_call script.old.station script.old.place script.old.word }
    ensures script { script.new ≡ record {
      station = script.old.station;
      place = script.old.place + 1;
      word = next_word (next_word (next_word script.old.word));
    } }
{
    let wanted = script.next();
    is_same(call, &wanted)
}

// Whether the entries of a station are its script.
fn has_script(entries: &[Entry<Call>], number: u32, count: u32, station: u32) -> bool
    requires { station < 32 }
    ensures { result ≡ true
        → calls_of (of_station station entries.now) ≡ script number count station }
{
    let mut script = Script::new(number, station);
    let mut left = count;
    for entry in entries {
        if entry.station == station {
            if left == 0 || !is_next(&entry.call, &mut script) {
                return false;
            }
            left -= 1;
        }
    }
    left == 0
}

// Whether the entries are those of the first so many stations.
fn are_of_first(entries: &[Entry<Call>], stations: u32) -> bool
    ensures { result ≡ true → AreOfFirst stations entries.now }
{
    for entry in entries {
        if entry.station >= stations {
            return false;
        }
    }
    true
}

/// Whether the entries are those of the first so many stations, and those of each are its script.
pub(crate) fn have_scripts(entries: &[Entry<Call>], number: u32, count: u32, stations: u32) -> bool
    requires { stations ≤ 32 }
    ensures { result ≡ true → HaveScripts number count stations entries.now }
{
    for station in 0..stations {
        if !has_script(entries, number, count, station) {
            return false;
        }
    }
    are_of_first(entries, stations)
}
