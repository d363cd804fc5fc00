// Source frames that are asked for.
ghost use Rattle.std.specs.Prelude.{◌≡◌, ◌+◌, ◌≤◌, ◌<◌, ◌^◌, ◌&&◌, IfNone, IsTrue, nat_le};
ghost use Rattle.edit_insert.specs.Fills.{thing_refusal};
ghost use Rattle.edit_insert.specs.Sources.{suits, source_refusal};

use composables::{Kind, Refusal, Table};
use frame_meaning::What;

/// Why these source frames of a thing can't be put on a track, if they can't.
pub fn source_refusal(table: &Table, track: u32, what: What, from: u32, len: u32) -> Option<Refusal>
    ensures refusal { result ≡ source_refusal table.now track what from len }
    ensures filled { IfNone result (0 < len) }
    ensures source { IfNone result (from + len ≤ 2 ^ 32) }
{
    let (low, high) = match table.bounds(what) {
        Some(bounds) => bounds,
        None => return Some(Refusal::NoMedia),
    };
    if !suits(table.kinds.as_slice().get(track as usize).copied(), what) {
        return Some(Refusal::NoMedia);
    }
    if len == 0 {
        return Some(Refusal::EmptyRange);
    }
    if !lies_in(from, len, low, high) {
        return Some(Refusal::MediaEnds);
    }
    None
}

/// Why a thing can't stand on a track, if it can't.
pub fn thing_refusal(table: &Table, track: u32, what: What) -> Option<Refusal>
    ensures { result ≡ thing_refusal table.now track what }
{
    match table.bounds(what) {
        Some(_) => {}
        None => return Some(Refusal::NoMedia),
    }
    if suits(table.kinds.as_slice().get(track as usize).copied(), what) {
        None
    } else {
        Some(Refusal::NoMedia)
    }
}

// Whether the frames [from, from + len) are among [low, high).
fn lies_in(from: u32, len: u32, low: u32, high: u32) -> bool
    ensures value { result ≡ (nat_le low from && nat_le (from + len) high) }
    ensures ends { IsTrue result → from + len < 2 ^ 32 }
{
    low <= from && u64::from(from) + u64::from(len) <= u64::from(high)
}

// Whether a thing may stand on a track of this kind: only a nest on an audio track may not.
fn suits(kind: Option<Kind>, what: What) -> bool
    ensures { result ≡ suits kind what }
{
    match (kind, what) {
        (Some(Kind::Audio), What::Nest(_)) => false,
        _ => true,
    }
}
