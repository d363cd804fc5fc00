// The order in which replies are judged: by the points that they name, so that one walk along the journal does for all.
// No clause speaks of it, since a reply that is not found in it is judged where it stands.
ghost use Rattle.std.specs.Prelude.{◌≤◌, length};

use crate::records::Station;
use recorded_sessions::point_named;
use std::alloc::{AllocError, Global};

/// A number above those of all replies before a station's.
pub(crate) const MAX_FIRST: usize = 1_099_511_627_776;

/// Where a reply is judged: at this point of the journal, the reply to the line of a station behind so many. What it
/// tells is noted in this slot.
#[derive(Clone, Copy)]
pub(crate) struct Place {
    pub point: u32,
    pub at: usize,
    pub index: usize,
    pub slot: usize,
}

// Adds the replies of a station that name a point of the journal.
fn add_places(
    places: &mut Vec<Place>,
    station: &Station<'_>,
    at: usize,
    first: usize,
    most: usize,
) -> Result<(), AllocError>
    requires { first ≤ MAX_FIRST }
{
    for (index, reply) in station.replies.iter().enumerate() {
        match point_named(reply) {
            Some(point) if point as usize <= most => {
                let slot = first + index;
                places.push(Place {
                    point,
                    at,
                    index,
                    slot,
                })?;
            }
            _ => {}
        }
    }
    Ok(())
}

/// The replies that name a point of a journal of so many entries, by these points, and how many slots there are.
pub(crate) fn places_of(
    alloc: Global,
    stations: &[Station<'_>],
    most: usize,
) -> Result<(Vec<Place>, usize), AllocError>
    requires { length stations.now ≤ 16 }
{
    let mut places = Vec::new(alloc);
    let mut first = 0;
    for (at, station) in stations.iter().enumerate() {
        add_places(&mut places, station, at, first, most)?;
        first += station.pairs();
    }
    places.sort_by_key(|place| place.point)?;
    Ok((places, first))
}
