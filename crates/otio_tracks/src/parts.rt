// The items of a track as they are read, and what all of them have.
ghost use Rattle.std.specs.Prelude.{◌≡◌, ◌≤◌, unsigned_abs, IfOk, IfSome, map};
ghost use Rattle.json_tree.specs.Parts.{kind_in};
ghost use Rattle.json_tree.specs.View.{tree_of};
ghost use Rattle.otio_tracks.specs.Reading.{Reads};
ghost use Rattle.otio_tracks.specs.Parts.{begins, is_gap, is_nest, enabled_read, is_time_effect, no_time_effect, effects_read, head_read, trim_read, frames_within};
ghost use Rattle.otio_tracks.specs.Times.{rate_pair};

use crate::faults::{DocCode, Fault};
use crate::times::{Span, whole_span};
use crate::values::{fault_at, given, list};
use frame_meaning::{Mark, Side, What};
use json_tree::{Json, Value};
use ratio_time::Rate;

/// An item or gap of a track: what its first frame shows, how many frames it has, the dissolve at the cut before it,
/// and the source frames [from, to) that the thing shown has.
#[derive(Clone, Copy, Debug, PartialEq, Eq)]
pub struct Part {
    pub first: Side<What>,
    pub len: u64,
    pub mark: Option<Mark>,
    pub from: u32,
    pub to: u32,
}

impl Part {
    /// Whether it shows nothing.
    pub fn is_gap(&self) -> bool
        ensures { result ≡ is_gap self.now }
    {
        match self.first {
            Side::Dark => true,
            Side::Pic { .. } => false,
        }
    }

    /// Whether it shows a nest, beside which no transition may stand.
    pub fn is_nest(&self) -> bool
        ensures { result ≡ is_nest self.now }
    {
        match self.first {
            Side::Pic {
                what: What::Nest(_),
                ..
            } => true,
            _ => false,
        }
    }
}

/// Refuses an item or track that is not enabled, as O7 at its member `enabled`. A member that is neither true nor false
/// is O3.
#[tactic(auto, unfolding(crate::specs::Parts::enabled_read))]
pub fn enabled(json: &Json) -> Result<(), Fault>
    ensures { Reads (λ _. tt) result (enabled_read (tree_of json.now)) }
{
    match given(json, "enabled") {
        Some(enabled) => match &enabled.value {
            Value::Bool(true) => Ok(()),
            Value::Bool(false) => Err(fault_at(DocCode::O7, enabled)),
            _ => Err(fault_at(DocCode::O3, enabled)),
        },
        None => Ok(()),
    }
}

// Whether a name begins with these characters.
fn begins(name: &str, front: &str) -> bool
    ensures { result ≡ begins name.now front.now }
{
    name.starts_with(front)
}

// Whether an effect changes the speed, by its schema: `LinearTimeWarp`, `FreezeFrame` or `TimeEffect`.
fn is_time_effect(json: &Json) -> bool
    ensures { result ≡ is_time_effect (kind_in (tree_of json.now)) }
{
    match json.member("OTIO_SCHEMA") {
        Some(member) => match member.text() {
            Some(name) => {
                begins(name, "LinearTimeWarp.")
                    || begins(name, "FreezeFrame.")
                    || begins(name, "TimeEffect.")
            }
            None => false,
        },
        None => false,
    }
}

// Refuses the first of these effects that is a time effect, as O6. Other effects are passed over.
fn no_time_effect(effects: &[Json]) -> Result<(), Fault>
    ensures { Reads (λ _. tt) result (no_time_effect (map tree_of effects.now)) }
{
    for effect in effects {
        if is_time_effect(effect) {
            return Err(fault_at(DocCode::O6, effect));
        }
    }
    Ok(())
}

// Refuses an item with a time effect.
#[tactic(auto, unfolding(crate::specs::Parts::effects_read))]
fn effects(json: &Json) -> Result<(), Fault>
    ensures { Reads (λ _. tt) result (effects_read (tree_of json.now)) }
{
    match given(json, "effects") {
        Some(effects) => no_time_effect(list(effects)?),
        None => Ok(()),
    }
}

/// Refuses an item that is not enabled or has a time effect, before anything else of it is looked at.
#[tactic(auto, unfolding(crate::specs::Parts::head_read))]
pub fn head(json: &Json) -> Result<(), Fault>
    ensures { Reads (λ _. tt) result (head_read (tree_of json.now)) }
{
    enabled(json)?;
    effects(json)
}

/// The range that an item is trimmed to, its `source_range`, if it has one.
#[tactic(auto, unfolding(crate::specs::Parts::trim_read))]
pub fn trim(rate: &Rate, json: &Json) -> Result<Option<Span>, Fault>
    ensures trim { result ≡ trim_read (rate_pair rate.now) (tree_of json.now) }
    ensures near { IfOk result (λ o. IfSome o (λ s. (unsigned_abs s.start ≤ 2147483647)
        × (s.len ≤ 2147483647))) }
{
    match given(json, "source_range") {
        Some(range) => Ok(Some(whole_span(rate, range)?)),
        None => Ok(None),
    }
}

/// The range as its first frame and its count, where it lies within the first `most` frames.
pub fn frames_within(most: u32, span: &Span) -> Option<(u32, u32)>
    requires near { unsigned_abs span.now.start ≤ 2147483647 }
    requires short { span.now.len ≤ 2147483647 }
    ensures { result ≡ frames_within most span.now }
{
    if span.start < 0 || span.start + i64::from(span.len) > i64::from(most) {
        return None;
    }
    Some((span.start as u32, span.len))
}
