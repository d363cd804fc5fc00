// A room of cuts before its first edit.
ghost use Rattle.std.specs.Prelude.{◌≡◌, ◌<◌, ◌≤◌, IfOk, Some};
ghost use Rattle.edit_apply.specs.RoomTracks.{IsOpening};
ghost use Rattle.station_sessions.specs.Served.{IsRoomOf};
ghost use Rattle.station_sessions.specs.SessionInside.{TrackOpening, opened_with};

use crate::station::Setting;
use call_text::CutObject;
use composables::Memory;
use cut_room::RoomBlank;
use cut_steps::{cut_object, fresh_parts};
use otio_json::Opening;
use std::alloc::Global;

/// A room that begins so, for so many stations, which is not open yet, and its setting. Nothing can be taken back in it.
pub fn begin_room(
    alloc: Global,
    opening: Opening,
    stations: u32,
) -> Result<(RoomBlank<CutObject>, Setting), Memory>
    requires opens { IsOpening opening.table opening.tracks }
    requires stations { (0 < stations) × (stations ≤ 64) }
    ensures room { IfOk result (λ begun. (room : TrackOpening)
        × (begun.0.journal.opening ≡ Some room)
        × IsRoomOf opening (opened_with room stations) begun.1.counting begun.1.start) }
    ensures stations { IfOk result (λ begun. begun.0.stations ≡ stations) }
{
    let Opening {
        table,
        tracks,
        counting,
        start,
    } = opening;
    let parts = fresh_parts(alloc, tracks.into_vec())?;
    let blank = RoomBlank::new(alloc, cut_object(table), parts, stations)?;
    Ok((blank, Setting { counting, start }))
}
