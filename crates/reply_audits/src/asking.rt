// What a line asks for.
ghost use Rattle.std.specs.Prelude.{◌≡◌, IfOk};
ghost use Rattle.recorded_sessions.specs.Places.{Says};
ghost use Rattle.recorded_sessions.specs.Recordings.{line_seen};
ghost use Rattle.reply_audits.specs.Judging.{setting_in};
ghost use Rattle.station_sessions.specs.Rooms.{meaning_of, wish_in};
ghost use Rattle.station_sessions.specs.Transcript.{Do};

use crate::judging::RecordedRoom;
use crate::meanings::meaning_of;
use call_laws::equal_steps_are_one;
use cut_steps::CutCall;
use line_table::{Line, LineFault};
use out_of_memory::Memory;
use std::alloc::Global;

// Whether what was read of a line is this step of its station.
fn is_step(read: Result<Line, LineFault>, station: u32, step: &CutCall) -> bool
    ensures { Says result (wish_in station read ≡ Do step.now) }
{
    equal_steps_are_one();
    match read {
        Ok(Line::Edit(asked)) => asked.asked_by(station) == *step,
        _ => false,
    }
}

/// Whether a line of a station asks for this step. A line that is `None` was too long, and asks for none.
pub fn asks_for(
    alloc: Global,
    room: &RecordedRoom,
    station: u32,
    line: Option<&[u8]>,
    step: &CutCall,
) -> Result<bool, Memory>
    ensures { IfOk result (λ yes. Says yes
        (wish_in station (meaning_of (setting_in room.now) (line_seen line.entry)) ≡ Do step.now)) }
{
    let read = meaning_of(alloc, room, line)?;
    Ok(is_step(read, station, step))
}
