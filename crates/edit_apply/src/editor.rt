// The editor of a room as an object of tracks: every call on the tracks that it names, and every question to a track.
ghost use Rattle.std.specs.Prelude.{length, true};
ghost use Rattle.composables.specs.Items.{items_of};
ghost use Rattle.composables.specs.Roomy.{IsRoomy};
ghost use Rattle.edit_apply.specs.Apply.{editing, track_count};
ghost use Rattle.edit_apply.specs.NamingLaws.{editing-named, editing-opens};
ghost use Rattle.edit_apply.specs.RoomTracks.{IsOpening, IsTrackOf};
ghost use Rattle.edit_apply.specs.RoomyLaws.{editing-roomy};
ghost use Rattle.edit_apply.specs.See.{ask_part_of, seen_on};

use crate::edits::edit;
use crate::naming::{named_by, set_named, track_count, wrong_track};
use crate::sights::see;
use crate::{Ask, AskRefusal, Call, Seen};
use composables::{Done, Refusal, Table, Track};
use edit_calls::copy_call;
use room_core::{Fault, Memory, PartObject};
use std::alloc::Global;
use std::sync::ledger::Ledger;
use step_count::Steps;

/// The editor of a room. It knows the room's table and keeps no track.
#[derive(Drop)]
pub struct Editor {
    pub table: Table,
}

/// The tracks of a room as the parts of an object. A call is refused for its names with `NoTrack`: of the first named
/// track that is not in the room, else of its own track where that is not among them. An edit is refused by the first
/// refusal that holds.
impl PartObject for Editor {
    type Part = Track;

    type Call = Call;

    type Done = Done;

    type Refusal = Refusal;

    type Ask = Ask;

    type Seen = Seen;

    type AskRefusal = AskRefusal;

    ghost meaning = { λ o. editing o.table };

    ghost refuses_first = { λ o. true };

    ghost count = { λ o. track_count o.table };

    ghost good = { λ o. IsTrackOf o.table };

    ghost roomy = { λ o. IsRoomy };

    ghost opens = { λ o. IsOpening o.table };

    ghost size = { λ t. length (items_of t.cells) };

    ghost asked = { λ o ask. ask_part_of o.table ask };

    ghost seen = { λ o t ask. seen_on t ask };

    // How many tracks the room has: one for each kind of the table, 32 at most.
    fn parts(&self) -> u32 {
        track_count(&self.table)
    }

    // The tracks that a call names, as a set: bit t for track t.
    fn names(&self, call: &Call) -> u32 {
        set_named(named_by(call))
    }

    // `NoTrack` of the first named track that is not in the room, or else of an own track that is not among them.
    fn refuse_names(&self, call: &Call) -> Option<Refusal> {
        match wrong_track(track_count(&self.table), named_by(call)) {
            Some(track) => Some(Refusal::NoTrack(track)),
            None => None,
        }
    }

    // The track that a question is put to, or `NoTrack` where the room has no such track.
    fn ask_part(&self, ask: &Ask) -> Result<u32, AskRefusal> {
        let track = match ask {
            Ask::View { track, .. } => *track,
            Ask::Items { track } => *track,
        };
        if track < track_count(&self.table) {
            Ok(track)
        } else {
            Err(AskRefusal::NoTrack(track))
        }
    }

    // Does a call on the tracks that it names, or leaves them as they are.
    fn apply<L: Ledger>(
        &self,
        alloc: Global,
        parts: &mut Vec<Track>,
        call: &Call,
        steps: &mut Steps<L>,
    ) -> Result<Done, Fault<Refusal>> {
        edit(alloc, &self.table, parts, call, steps)
    }

    // Answers a question from the track as it is.
    fn see(&self, alloc: Global, part: &Track, ask: &Ask) -> Result<Seen, Fault<AskRefusal>> {
        see(alloc, part, ask)
    }

    // An equal track, which shares its pages with this one.
    fn copy_part(&self, alloc: Global, part: &Track) -> Result<Track, Memory> {
        match part.copy(alloc) {
            Ok(copy) => Ok(copy),
            Err(_) => Err(Memory),
        }
    }

    // A copy of a call, which is equal to it.
    fn copy_call(&self, alloc: Global, call: &Call) -> Result<Call, Memory> {
        copy_call(alloc, call)
    }

    ghost named = { λ o c. editing-named o.table c };

    ghost opening = { λ o. editing-opens o.table };

    ghost stays_roomy = { λ o. editing-roomy o.table };
}
