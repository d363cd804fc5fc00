// The points that replies name.
ghost use Rattle.std.specs.Prelude.{◌≡◌, MatchOption, if◌then◌else◌};
ghost use Rattle.recorded_sessions.specs.declared.telling.Told.TheVariants.{Nothing};
ghost use Rattle.reply_audits.specs.Naming.{IsThere, NamesNone, NamesPoints};
ghost use Rattle.station_sessions.specs.Rooms.{Setting, room_of};

use crate::judging::{RecordedReply, RecordedRoom};
use point_laws::replies_name_their_points;
use recorded_sessions::{Told, point_named};

/// Each reply of a room but `bad` and `memory` names its point.
pub(crate) fn replies_name_points()
    ensures { (setting : Setting) → NamesPoints (room_of setting) }
{
    replies_name_their_points();
}

/// The point that a reply names, where there are so many entries.
pub(crate) fn point_there(room: &RecordedRoom, row: &RecordedReply) -> Option<u32>
    ensures { MatchOption result (NamesNone room.now.entries.now row.now.reply.now)
        (λ n. IsThere room.now.entries.now row.now.reply.now n) }
{
    match point_named(row.reply) {
        Some(n) => {
            if n as usize <= room.entries.len() {
                Some(n)
            } else {
                None
            }
        }
        None => None,
    }
}

/// This, where a reply is the one that tells it.
pub(crate) fn told_if(same: bool, tell: Told) -> Told
    ensures { result ≡ (if same then tell else Nothing) }
{
    if same { tell } else { Told::Nothing }
}
