// A track made of the items and gaps that were read.
ghost use Rattle.std.specs.Prelude.{◌≡◌, ◌+◌, ◌<◌, ◌≤◌, ◌^◌, IfOk, length};
ghost use Rattle.composables.specs.declared.TheConstants.{MAX_FRAMES, MAX_ITEMS};
ghost use Rattle.otio_tracks.specs.Reading.{Gives};
ghost use Rattle.otio_tracks.specs.Rows.{frames_in_all};
ghost use Rattle.otio_tracks.specs.Building.{view_of, views_of, track_made, track_fit};
ghost use Rattle.otio_tracks.specs.SoundParts.{AreSoundParts};

use crate::faults::{DocCode, DocFault};
use crate::parts::Part;
use composables::{ItemView, MAX_FRAMES, MAX_ITEMS, Memory, Track};
use std::alloc::Global;
use std::marker::Brand;
use std::sync::ledger::{Blank, Ledger};
use step_count::Steps;

// How many frames the items and gaps have together.
fn frames_in(parts: &[Part]) -> u64
    requires { frames_in_all parts.now < 2 ^ 63 }
    ensures { result ≡ frames_in_all parts.now }
{
    let mut frames = 0;
    for part in parts {
        frames += part.len;
    }
    frames
}

// What was read as an item or gap of a track; an item gets this number.
fn view_of(part: &Part, number: u32) -> ItemView
    requires { part.now.len < 2 ^ 32 }
    ensures { result ≡ view_of number part.now }
{
    ItemView {
        item: if part.is_gap() { None } else { Some(number) },
        first: part.first,
        len: part.len as u32,
        mark: part.mark,
        link: None,
    }
}

// What was read, as items and gaps of a track. Items are numbered 0, 1, 2, gaps not counted.
fn views_of(alloc: Global, parts: &[Part]) -> Result<Vec<ItemView>, Memory>
    requires frames { frames_in_all parts.now ≤ MAX_FRAMES }
    requires count { length parts.now ≤ MAX_ITEMS }
    ensures { IfOk result (λ views. views.items ≡ views_of 0 parts.now) }
{
    let mut views = Vec::new(alloc);
    let mut number = 0;
    for part in parts {
        views.push(view_of(part, number))?;
        if !part.is_gap() {
            number += 1;
        }
    }
    Ok(views)
}

// The track of these items and gaps, which are within its limits, made with a counter of its own.
fn track_counted<L: Ledger>(
    blank: Blank,
    alloc: Global,
    number: u32,
    parts: &[Part],
) -> Result<Track, Memory>
    requires blank { (blank.name ≡ L.name) × (blank.parts ≡ L.parts) × (0 < blank.parts) }
    requires sound { AreSoundParts parts.now }
    requires frames { frames_in_all parts.now ≤ MAX_FRAMES }
    requires count { length parts.now ≤ MAX_ITEMS }
    ensures { IfOk result (λ track. track ≡ track_made number parts.now) }
{
    let views = views_of(alloc, parts)?;
    let mut track = Track::empty(alloc, number);
    let mut steps = Steps::<L>::new(blank);
    track.replace(0, 0, views, &mut steps)?;
    Ok(track)
}

/// The track of these items and gaps, or O11 at `at` where it would have too many frames, or too many of them.
#[tactic(auto, unfolding(crate::specs::Building::track_fit))]
pub fn track_of(alloc: Global, number: u32, parts: &[Part], at: u32) -> Result<Track, DocFault>
    requires sound { AreSoundParts parts.now }
    requires frames { frames_in_all parts.now < 2 ^ 63 }
    ensures { Gives (λ track. track) result (track_fit number parts.now at) }
{
    if frames_in(parts) > u64::from(MAX_FRAMES) || parts.len() > MAX_ITEMS as usize {
        return Err(DocFault::Refused {
            code: DocCode::O11,
            at,
        });
    }
    Ok(track_counted::<Brand>(Blank::new(1), alloc, number, parts)?)
}
