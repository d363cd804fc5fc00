// What questions are answered.
ghost use Rattle.std.specs.Prelude.{◌<◌, length};
ghost use Rattle.out_of_memory.specs.Answers.{Tells};
ghost use Rattle.edit_apply.specs.See.{items_on, seen_on, view_on};

use crate::{Ask, AskRefusal, Seen};
use composables::{Listed, Track};
use dissolves::runs_in;
use room_core::Fault;
use std::alloc::Global;

/// What a question to a track is answered.
pub(crate) fn see(alloc: Global, part: &Track, ask: &Ask) -> Result<Seen, Fault<AskRefusal>>
    requires { length part.now.cells < 4294967295 }
    ensures { Tells (seen_on part.now ask.now) result }
{
    match ask {
        Ask::View { track: _, a, b } => view(alloc, part, *a, *b),
        Ask::Items { track: _ } => items(alloc, part),
    }
}

// The frames shown in the places [a, b), as maximal runs, or `Range` where these are no places of the track.
fn view(alloc: Global, part: &Track, a: u32, b: u32) -> Result<Seen, Fault<AskRefusal>>
    requires { length part.now.cells < 4294967295 }
    ensures { Tells (view_on part.now a b) result }
{
    let length = part.length();
    if a > b || b > length {
        return Err(Fault::Refused(AskRefusal::Range(length)));
    }
    match runs_in(alloc, part, a, b) {
        Ok(runs) => Ok(Seen::Runs(Listed::from_vec(runs))),
        Err(_) => Err(Fault::Memory),
    }
}

// The items and gaps of the track, in order.
fn items(alloc: Global, part: &Track) -> Result<Seen, Fault<AskRefusal>>
    ensures { Tells (items_on part.now) result }
{
    match part.items(alloc) {
        Ok(items) => Ok(Seen::Items(Listed::from_vec(items))),
        Err(_) => Err(Fault::Memory),
    }
}
