// Clips: the frames that a clip shows, and its reel and media entry.
ghost use Rattle.std.specs.Prelude.{◌≡◌, ◌+◌, ◌*◌, ◌<◌, ◌≤◌, ◌^◌, length, position, unsigned_abs, IfOk, IfSome, OnOk, OnErr, option_map, Some};
ghost use Rattle.json_tree.specs.Size.{tree_size};
ghost use Rattle.json_tree.specs.View.{tree_of};
ghost use Rattle.otio_tracks.specs.Reading.{Reads, Gives};
ghost use Rattle.otio_tracks.specs.SoundParts.{IsItemPart};
ghost use Rattle.otio_tracks.specs.Times.{moment_of, rate_pair};
ghost use Rattle.otio_tracks.specs.Clips.{source_frames, source_read, clamped, in_media, media_if, narrowed, available_read, keyed_read, key_read, active_read, reference_of, reference_read, widened, clip_frames, reel_text, named_reel, entries, entered, clip_read};

use crate::entries::Entries;
use crate::faults::{DocCode, DocFault, Fault};
use crate::parts::{Part, frames_within, trim};
use crate::times::{Span, moment};
use crate::values::{References, expect, fault_at, given, needed, text};
use composables::{Media, Memory};
use frame_meaning::{Side, What};
use json_tree::{Json, Value};
use ratio_time::{Rate, RationalTime, TimeRange};

/// One more than the last source frame that a clip may have.
const MOST_SOURCE: u32 = 16_777_216;

/// The frames [source, source + len) that a clip shows, of the frames [from, to) that its media entry has.
#[derive(Clone, Copy, Debug, PartialEq, Eq)]
pub struct Frames {
    pub source: u32,
    pub len: u32,
    pub from: u32,
    pub to: u32,
}

// The source frames of a clip's range. A range without frames has none that could be past the limit.
fn source_frames(span: &Span) -> Option<(u32, u32)>
    requires near { unsigned_abs span.now.start ≤ 2147483647 }
    requires short { span.now.len ≤ 2147483647 }
    ensures frames { result ≡ source_frames span.now }
    ensures within { IfSome result (λ f. f.0 + f.1 ≤ MOST_SOURCE) }
{
    if span.len == 0 {
        return Some((0, 0));
    }
    frames_within(MOST_SOURCE, span)
}

// The source frames that a clip's `source_range` asks for, if it has one: first and count; or O11 past the limit.
#[tactic(auto, unfolding(crate::specs::Clips::source_read))]
fn source(rate: &Rate, clip: &Json) -> Result<Option<(u32, u32)>, Fault>
    ensures source { result ≡ source_read (rate_pair rate.now) (tree_of clip.now) }
    ensures within { IfOk result (λ o. IfSome o (λ f. f.0 + f.1 ≤ MOST_SOURCE)) }
{
    match trim(rate, clip)? {
        Some(span) => match source_frames(&span) {
            Some(frames) => Ok(Some(frames)),
            None => Err(Fault {
                code: DocCode::O11,
                at: span.at,
            }),
        },
        None => Ok(None),
    }
}

// A frame, or the nearest of the frames that a media entry may have.
fn clamped(frame: i64) -> u32
    ensures value { result ≡ clamped frame }
    ensures within { result ≤ MOST_SOURCE }
{
    if frame <= 0 {
        return 0;
    }
    if frame >= i64::from(MOST_SOURCE) {
        return MOST_SOURCE;
    }
    frame as u32
}

// The frames [from, to) that a media entry may have, if there are any.
fn in_media(from: i64, to: i64) -> Option<(u32, u32)>
    ensures frames { result ≡ in_media from to }
    ensures within { IfSome result (λ f. (f.0 < f.1) × (f.1 ≤ MOST_SOURCE)) }
{
    let first = clamped(from);
    let end = clamped(to);
    if first < end {
        return Some((first, end));
    }
    None
}

// The frames [from, to) that a media reference's `available_range` has, made narrower to whole frames of the sequence
// and to the frames that a media entry may have; `None` where that leaves none.
#[tactic(auto, unfolding(crate::specs::Clips::available_read))]
fn available(rate: &Rate, range: &Json) -> Result<Option<(u32, u32)>, Fault>
    ensures frames { result ≡ available_read (rate_pair rate.now) (tree_of range.now) }
    ensures within { IfOk result (λ o. IfSome o (λ f. (f.0 < f.1) × (f.1 ≤ MOST_SOURCE))) }
{
    expect(range, "TimeRange.1")?;
    let start = moment(needed(range, "start_time")?)?;
    let length = needed(range, "duration")?;
    let duration = moment(length)?;
    if duration.value.mantissa < 0 {
        return Err(fault_at(DocCode::O14, length));
    }
    media_frames(narrowed(start, duration, rate), range.at)
}

// The frames of a media entry in a range of whole frames; where that is too far from 0, it is O4 at `at`.
fn media_frames(frames: Option<(i64, i64)>, at: u32) -> Result<Option<(u32, u32)>, Fault>
    ensures frames { result ≡ media_if frames at }
    ensures within { IfOk result (λ o. IfSome o (λ f. (f.0 < f.1) × (f.1 ≤ MOST_SOURCE))) }
{
    match frames {
        Some((from, to)) => Ok(in_media(from, to)),
        None => Err(Fault {
            code: DocCode::O4,
            at,
        }),
    }
}

// The whole frames [from, to) of a range, unless they are too far from 0.
fn narrowed(start: RationalTime, duration: RationalTime, rate: &Rate) -> Option<(i64, i64)>
    ensures { result ≡ narrowed (moment_of start) (moment_of duration) (rate_pair rate.now) }
{
    let range = TimeRange { start, duration };
    match range.narrowed_at(rate) {
        Ok(frames) => Some(frames),
        Err(_) => None,
    }
}

// The media references of a clip that has several, as an object of them by their keys.
#[tactic(auto, unfolding(crate::specs::Clips::keyed_read))]
fn keyed(clip: &Json) -> Result<Option<&Json>, Fault>
    ensures { Reads (λ o. option_map (λ j. tree_of j.now) o) result
        (keyed_read (tree_of clip.now)) }
{
    match given(clip, "media_references") {
        Some(references) => match &references.value {
            Value::Object(_) => Ok(Some(references)),
            _ => Err(fault_at(DocCode::O3, references)),
        },
        None => Ok(None),
    }
}

// The key of the media reference that is active.
#[tactic(auto, unfolding(crate::specs::Clips::key_read))]
fn active_key(clip: &Json) -> Result<&str, Fault>
    ensures { Reads (λ key. key.now) result (key_read (tree_of clip.now)) }
{
    match given(clip, "active_media_reference_key") {
        Some(key) => text(key),
        None => Ok("DEFAULT_MEDIA"),
    }
}

// Of several media references the active one, if there is one by its key.
#[tactic(auto, unfolding(crate::specs::Clips::active_read))]
fn active(clip: &Json) -> Result<Option<&Json>, Fault>
    ensures { Reads (λ o. option_map (λ j. tree_of j.now) o) result
        (active_read (tree_of clip.now)) }
{
    let references = keyed(clip)?;
    let key = active_key(clip)?;
    match references {
        Some(references) => Ok(given(references, key)),
        None => Ok(None),
    }
}

// A clip's media reference, if it has one.
fn reference(references: References, clip: &Json) -> Result<Option<&Json>, Fault>
    ensures { Reads (λ o. option_map (λ j. tree_of j.now) o) result
        (reference_of references (tree_of clip.now)) }
{
    match references {
        References::One => Ok(given(clip, "media_reference")),
        References::ByKey => active(clip),
    }
}

// The frames that a clip's media reference says to be there, if it says so. It is O3 where it is no object.
#[tactic(auto, unfolding(crate::specs::Clips::reference_read))]
fn there(rate: &Rate, references: References, clip: &Json) -> Result<Option<(u32, u32)>, Fault>
    ensures frames { result ≡ reference_read (rate_pair rate.now) references (tree_of clip.now) }
    ensures within { IfOk result (λ o. IfSome o (λ f. (f.0 < f.1) × (f.1 ≤ MOST_SOURCE))) }
{
    match reference(references, clip)? {
        Some(reference) => match &reference.value {
            Value::Object(_) => match given(reference, "available_range") {
                Some(range) => available(rate, range),
                None => Ok(None),
            },
            _ => Err(fault_at(DocCode::O3, reference)),
        },
        None => Ok(None),
    }
}

// The least range that holds these frames and the available ones.
fn widened(source: (u32, u32), available: (u32, u32)) -> (u32, u32)
    requires { source.0 + source.1 ≤ MOST_SOURCE }
    ensures { result ≡ widened source available }
{
    if source.1 == 0 {
        return available;
    }
    (
        available.0.min(source.0),
        available.1.max(source.0 + source.1),
    )
}

// The frames that a clip shows, by what it asks for and what its media reference has; `None` where neither is told.
fn clip_frames(source: Option<(u32, u32)>, available: Option<(u32, u32)>) -> Option<Frames>
    requires source { IfSome source (λ f. f.0 + f.1 ≤ MOST_SOURCE) }
    requires available { IfSome available (λ f. (f.0 < f.1) × (f.1 ≤ MOST_SOURCE)) }
    ensures frames { result ≡ clip_frames source available }
    ensures short { IfSome result (λ f. f.len ≤ MOST_SOURCE) }
    ensures within { IfSome result (λ f. 0 < f.len → (f.from ≤ f.source)
        × (f.source + f.len ≤ f.to)) }
{
    match (source, available) {
        (Some(source), Some(available)) => {
            let (from, to) = widened(source, available);
            Some(Frames {
                source: source.0,
                len: source.1,
                from,
                to,
            })
        }
        (Some(source), None) => Some(Frames {
            source: source.0,
            len: source.1,
            from: 0,
            to: MOST_SOURCE,
        }),
        (None, Some((from, to))) => Some(Frames {
            source: from,
            len: to - from,
            from,
            to,
        }),
        (None, None) => None,
    }
}

// The reel that a clip's metadata name, as `cmx_3600.reel`.
fn named_reel(clip: &Json) -> Option<&str>
    ensures { option_map (λ text. text.now) result ≡ named_reel (tree_of clip.now) }
{
    clip.member("metadata")?
        .member("cmx_3600")?
        .member("reel")?
        .text()
}

/// The name of a clip's reel: that of its CMX 3600 metadata, else the clip's own name, else `AX`.
fn reel(clip: &Json) -> &str
    ensures { result.now ≡ reel_text (tree_of clip.now) }
{
    match named_reel(clip) {
        Some(reel) => return reel,
        None => {}
    }
    match clip.member("name") {
        Some(name) => match name.text() {
            Some(name) => {
                if name.is_empty() {
                    return "AX";
                }
                name
            }
            None => "AX",
        },
        None => "AX",
    }
}

/// The part of a clip on this reel. The reel, and a media entry with these frames, are entered in the table.
fn enter(table: &mut Entries, reel: &str, frames: Frames) -> Result<Part, Memory>
    requires few { entries table.old + 2 < 2 ^ 32 }
    requires within { 0 < frames.len → (frames.from ≤ frames.source)
        × (frames.source + frames.len ≤ frames.to) }
    ensures ok { IfOk result (λ part. (part, table.new) ≡ entered table.old reel.now frames) }
    ensures few { OnOk result (entries table.new ≤ entries table.old + 2) }
    ensures short { IfOk result (λ part. part.len ≡ frames.len) }
    ensures sound { IfOk result IsItemPart }
{
    let reel = table.enter_reel(reel)?;
    let entry = Media {
        reel,
        from: frames.from,
        to: frames.to,
    };
    let number = table.enter_media(entry)?;
    Ok(Part {
        first: Side::Pic {
            what: What::Media(number),
            source: frames.source,
        },
        len: u64::from(frames.len),
        mark: None,
        from: frames.from,
        to: frames.to,
    })
}

/// The part that a clip is, with its reel and media entry put into the table. Where its media reference stands,
/// `references` says. It is O14 where no frames are told.
#[tactic(auto, unfolding(crate::specs::Clips::clip_read))]
pub fn clip(
    rate: &Rate,
    references: References,
    table: &mut Entries,
    json: &Json,
) -> Result<Part, DocFault>
    requires { entries table.old + 2 < 2 ^ 32 }
    ensures read { Gives (λ part. (part, table.new)) result
        (clip_read (rate_pair rate.now) references table.old (tree_of json.now)) }
    ensures few { OnOk result (entries table.new ≤ entries table.old + 2) }
    ensures short { IfOk result (λ part. part.len ≤ 2147483647) }
    ensures sound { IfOk result IsItemPart }
{
    let source = source(rate, json)?;
    let available = there(rate, references, json)?;
    match clip_frames(source, available) {
        Some(frames) => Ok(enter(table, reel(json), frames)?),
        None => Err(fault_at(DocCode::O14, json).into()),
    }
}
