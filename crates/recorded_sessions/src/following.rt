// Replies that are explained one after another.
ghost use Rattle.std.specs.Prelude.{◌≡◌, ◌++◌, ◌+◌, IfErr, IfOk, OnOk, length};
ghost use Rattle.recorded_sessions.specs.Following.{StopsFollowing};
ghost use Rattle.recorded_sessions.specs.Telling.{AreKnown, Goes, own_points};

use crate::session::{Explains, Stop};
use crate::telling::Told;
use out_of_memory::Memory;
use std::alloc::Global;

/// How many entries a station has been told of, and the points of those that are its own.
#[derive(Drop)]
pub(crate) struct Followed {
    pub told: u64,
    pub points: Vec<u32>,
}

// Adds the point of the line's own entry, where a reply tells of one.
fn put_own(points: &mut Vec<u32>, tell: Told) -> Result<(), Memory>
    ensures { OnOk result (points.new.items ≡ points.old.items ++ own_points tell) }
{
    match tell {
        Told::Own(point) => Ok(points.push(point)?),
        _ => Ok(()),
    }
}

/// Follows replies, of each of which it is known what it tells, from line 1 on.
pub(crate) fn follow<E: Explains>(alloc: Global, rows: &E, tells: &[Told]) -> Result<Followed, Stop>
    requires known { AreKnown (E.explains rows.now) tells.now }
    ensures goes { IfOk result (λ f. Goes (E.explains rows.now) 1 (length tells.now) 0 f.told
        f.points.items) }
    ensures stop { IfErr result (λ stop. StopsFollowing (E.explains rows.now) (length tells.now)
        stop) }
{
    let mut told = 0;
    let mut points = Vec::new(alloc);
    for (index, tell) in tells.iter().enumerate() {
        match tell.after(told) {
            Some(after) => {
                put_own(&mut points, *tell)?;
                told = after;
            }
            None => {
                return Err(Stop::Reply {
                    number: index + 1,
                    told,
                });
            }
        }
    }
    Ok(Followed { told, points })
}
