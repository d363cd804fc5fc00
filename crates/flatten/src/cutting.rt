// A channel cut into segments, as a decision list has them.
ghost use Rattle.std.specs.Prelude.{◌≡◌, ◌+◌, ◌<◌, ◌^◌, ◌==◌, true, false, IfErr, IfOk, OnOk, None};
ghost use Rattle.flatten.specs.declared.cutting.SegmentFault.TheVariants.{PartialDissolve};
ghost use Rattle.flatten.specs.Joined.{joined, lens_of, segment_of};
ghost use Rattle.flatten.specs.Segments.{AreSegments, CanBeCut, IsPartialAt, first_partial, goes_on_in, is_whole};
ghost use Rattle.flatten.specs.Strips.{frames_of};

use frame_meaning::{Frame, Memory as NoMemory, Run, Side};
use std::alloc::{AllocError, AllocFailed, Global};

/// Dark frames, pictures of one reel, or a whole dissolve with what its incoming side shows after it, all going on.
#[derive(Clone, Copy, Debug, PartialEq, Eq)]
pub struct Segment {
    /// The place of its first frame.
    pub at: u32,
    /// How many frames it has, those of the dissolve counted.
    pub len: u32,
    /// What the dissolve's outgoing side shows at its first frame, if it has a dissolve.
    pub from: Option<Side<u32>>,
    /// How many frames the dissolve has.
    pub frames: u32,
    /// What it shows at its first frame, and the dissolve's incoming side there.
    pub side: Side<u32>,
}

/// Why a channel is not cut.
#[derive(Clone, Copy, Debug, PartialEq, Eq)]
pub enum SegmentFault {
    /// A part of a dissolve is not seen; carries the place of the first of the frames that are.
    PartialDissolve(u32),
    /// Out of memory.
    Memory,
}

impl From<NoMemory> for SegmentFault {
    ghost use Rattle.std.specs.Prelude.{◌≡◌};
    ghost use Rattle.flatten.specs.declared.cutting.SegmentFault.TheVariants.{Memory};

    ghost from_gives = { λ _ fault. fault ≡ Memory };

    // The list of segments could not grow.
    fn from(_: NoMemory) -> Self {
        SegmentFault::Memory
    }
}

/// The one cutting of a channel into runs of dark frames, runs of pictures of one reel, and whole dissolves, each with
/// the frames after it in which its incoming side goes on; or the first dissolve of which only a part is seen. The runs
/// are to be maximal.
pub fn segments(alloc: Global, runs: &[Run<u32>]) -> Result<Vec<Segment>, SegmentFault>
    requires { CanBeCut runs.now }
    ensures segments { IfOk result (λ all. AreSegments all.items (frames_of runs.now)) }
    ensures whole { OnOk result (first_partial 0 runs.now ≡ None) }
    ensures partial { IfErr result (λ fault. IsPartialAt fault (first_partial 0 runs.now)) }
{
    let mut all = Vec::new(alloc);
    let mut at = 0;
    for run in runs {
        let segment = segment_of(*run, at)?;
        join(&mut all, segment)?;
        at += run.len;
    }
    Ok(all)
}

// A run whose first frame stands at `at` as a segment, or `PartialDissolve` where it is only a part of a dissolve.
fn segment_of(run: Run<u32>, at: u32) -> Result<Segment, SegmentFault>
    ensures segment { IfOk result (λ s. s ≡ segment_of at run.frame run.len) }
    ensures whole { OnOk result (is_whole run.frame run.len ≡ true) }
    ensures partial { IfErr result (λ fault. (fault ≡ PartialDissolve at)
        × (is_whole run.frame run.len ≡ false)) }
{
    let len = run.len;
    match run.frame {
        Frame::Dark => Ok(without_dissolve(at, len, Side::Dark)),
        Frame::Pic { what, source } => Ok(without_dissolve(at, len, Side::Pic { what, source })),
        Frame::Mix {
            left,
            right,
            num,
            den,
        } => {
            if num == 1 && u64::from(den) == u64::from(len) + 1 {
                return Ok(Segment {
                    at,
                    len,
                    from: Some(left),
                    frames: len,
                    side: right,
                });
            }
            Err(SegmentFault::PartialDissolve(at))
        }
    }
}

// Dark frames or pictures that begin with this side, as a segment.
fn without_dissolve(at: u32, len: u32, side: Side<u32>) -> Segment
    ensures { result ≡ record { at = at; len = len; from = None; frames = 0; side = side } }
{
    Segment {
        at,
        len,
        from: None,
        frames: 0,
        side,
    }
}

// Adds a segment, or makes the last one longer where that goes on in it.
fn join(all: &mut Vec<Segment>, segment: Segment) -> Result<(), NoMemory>
    requires { lens_of all.old.items + segment.len < 2 ^ 32 }
    ensures { OnOk result (all.new.items ≡ joined all.old.items segment) }
{
    let count = all.len();
    if count > 0 && goes_on_in(&all[count - 1], &segment) {
        all[count - 1].len += segment.len;
        return Ok(());
    }
    all.push(segment)?;
    Ok(())
}

// Whether a segment is the same reel, or dark, and goes on from the last frame of the one before it.
fn goes_on_in(last: &Segment, next: &Segment) -> bool
    ensures { result ≡ goes_on_in last.now next.now }
{
    let more = last.len.saturating_sub(1);
    match (next.from, last.side, next.side) {
        (None, Side::Dark, Side::Dark) => true,
        (
            None,
            Side::Pic {
                what: reel,
                source: first,
            },
            Side::Pic { what, source },
        ) => reel == what && is_next(first, more, source),
        _ => false,
    }
}

// Whether a source frame is the next after another and so many more.
fn is_next(first: u32, more: u32, after: u32) -> bool
    ensures { result ≡ (after == first + more + 1) }
{
    u64::from(after) == u64::from(first) + u64::from(more) + 1
}
