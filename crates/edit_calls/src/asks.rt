// Calls and questions as a station sends them, and what a question is answered.

ghost use Rattle.std.specs.Prelude.{◌≡◌, IfOk};

use composables::{
    Dissolve, Extract, Fill, Insert, ItemView, Link3, Listed, Overwrite, Remove, Ripple, Roll,
    Slice, Slide, Slip, Trim, Undissolve, Unlink,
};
use frame_meaning::{Run, What};
use room_core::Memory;
use std::alloc::Global;

/// An edit that a station asks for, by its kind.
#[derive(Drop, PartialEq, Eq)]
pub enum Call {
    Overwrite(Overwrite),
    Insert(Insert),
    Remove(Remove),
    Extract(Extract),
    Slice(Slice),
    Dissolve(Dissolve),
    Undissolve(Undissolve),
    Trim(Trim),
    Slip(Slip),
    Roll(Roll),
    Slide(Slide),
    Fill(Fill),
    Ripple(Ripple),
    Link3(Link3),
    Unlink(Unlink),
}

/// A copy of a call, which is equal to it. Only that of a link takes memory.
pub fn copy_call(alloc: Global, call: &Call) -> Result<Call, Memory>
    ensures { IfOk result (λ copy. copy ≡ call.now) }
{
    match call {
        Call::Overwrite(edit) => Ok(Call::Overwrite(*edit)),
        Call::Insert(edit) => Ok(Call::Insert(*edit)),
        Call::Remove(edit) => Ok(Call::Remove(*edit)),
        Call::Extract(edit) => Ok(Call::Extract(*edit)),
        Call::Slice(edit) => Ok(Call::Slice(*edit)),
        Call::Dissolve(edit) => Ok(Call::Dissolve(*edit)),
        Call::Undissolve(edit) => Ok(Call::Undissolve(*edit)),
        Call::Trim(edit) => Ok(Call::Trim(*edit)),
        Call::Slip(edit) => Ok(Call::Slip(*edit)),
        Call::Roll(edit) => Ok(Call::Roll(*edit)),
        Call::Slide(edit) => Ok(Call::Slide(*edit)),
        Call::Fill(edit) => Ok(Call::Fill(*edit)),
        Call::Ripple(edit) => Ok(Call::Ripple(*edit)),
        Call::Link3(edit) => {
            let items = match edit.items.copy(alloc) {
                Ok(items) => items,
                Err(_) => return Err(Memory),
            };
            Ok(Call::Link3(Link3 {
                tracks: edit.tracks,
                items,
            }))
        }
        Call::Unlink(edit) => Ok(Call::Unlink(*edit)),
    }
}

/// A question to a track: the frames shown in its places [a, b), or its items.
#[derive(Clone, Copy, Debug, PartialEq, Eq)]
pub enum Ask {
    View { track: u32, a: u32, b: u32 },
    Items { track: u32 },
}

/// What a question is answered: maximal runs of the frames shown, or items and gaps, in order.
#[derive(Drop)]
pub enum Seen {
    Runs(Listed<Run<What>>),
    Items(Listed<ItemView>),
}

/// Why a question is refused.
#[derive(Clone, Copy, Debug, PartialEq, Eq)]
pub enum AskRefusal {
    /// The track is not in the room; carries the track.
    NoTrack(u32),
    /// The places asked for are not on the track, or end before they begin; carries the track's length in frames.
    Range(u32),
}
