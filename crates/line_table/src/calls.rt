// Calls as text.
ghost use Rattle.std.specs.Prelude.{◌≡◌, ◌+◌, ◌*◌, ◌≤◌, ◌++◌, [], IfOk, length, vec_len, vec_capacity};
ghost use Rattle.line_table.specs.CallTexts.{call_text_of, frames_text, linked, linked_in, numbers_after, numbers_text, step_text_of, tracks_text};

use crate::part_texts::{put_end, put_keep, put_length};
use crate::reserved::{put, put_number, put_signed, put_track, put_what};
use composables::{Fill, Memory, Ripple, Slide, Slip, Trim, has_track};
use edit_calls::Call;
use frame_meaning::What;
use std::alloc::Global;
use take_back::{Deed, Step};

/// The text of what a station asks for: its line, without its line feed. Which station asks is not told.
pub fn call_text(alloc: Global, step: &Step<Call>) -> Result<Vec<u8>, Memory>
    ensures { IfOk result (λ text. text.items ≡ step_text_of step.now) }
{
    let mut out = Vec::with_capacity(alloc, room_for(step)?)?;
    put_step(&mut out, step);
    Ok(out)
}

// How many items a step links.
fn linked_in(step: &Step<Call>) -> usize
    ensures { result ≡ linked_in step.now }
{
    match &step.act {
        Deed::Do(Call::Link3(edit)) => edit.items.as_slice().len(),
        _ => 0,
    }
}

/// How many bytes of memory the text of a step needs at most, and that of its entry.
pub fn room_for(step: &Step<Call>) -> Result<usize, Memory>
    ensures { IfOk result (λ room. 200 + 11 * linked_in step.now ≤ room) }
{
    match linked_in(step).checked_mul(11) {
        Some(items) => match items.checked_add(200) {
            Some(room) => Ok(room),
            None => Err(Memory),
        },
        None => Err(Memory),
    }
}

/// Adds the line of a step, without its line feed, within memory that is there.
pub fn put_step(out: &mut Vec<u8>, step: &Step<Call>)
    requires room { vec_len out.old + 170 ≤ vec_capacity out.old }
    requires items { vec_len out.old + 102 + 11 * linked_in step.now ≤ vec_capacity out.old }
    ensures text { out.new.items ≡ out.old.items ++ step_text_of step.now }
    ensures room { vec_capacity out.old ≤ vec_capacity out.new }
{
    match &step.act {
        Deed::Do(call) => put_call(out, call),
        Deed::Back { tracks } => put_tracks(out, b"back ", *tracks),
    }
}

// Adds the line of an edit, without its line feed.
fn put_call(out: &mut Vec<u8>, call: &Call)
    requires room { vec_len out.old + 170 ≤ vec_capacity out.old }
    requires items { vec_len out.old + 102 + 11 * linked call.now ≤ vec_capacity out.old }
    ensures text { out.new.items ≡ out.old.items ++ call_text_of call.now }
    ensures room { vec_capacity out.old ≤ vec_capacity out.new }
{
    match call {
        Call::Overwrite(edit) => {
            put_numbers(out, b"overwrite ", edit.track, edit.at);
            put(out, b" ");
            put_frames(out, &edit.what, edit.from, edit.len);
            put_keep(out, edit.keep)
        }
        Call::Insert(edit) => {
            put_tracks(out, b"insert ", edit.tracks);
            put_number(out, b" ", edit.track);
            put_number(out, b" ", edit.at);
            put(out, b" ");
            put_frames(out, &edit.what, edit.from, edit.len);
            put_keep(out, edit.keep)
        }
        Call::Remove(edit) => {
            put_numbers(out, b"remove ", edit.track, edit.item);
            put_keep(out, edit.keep)
        }
        Call::Extract(edit) => {
            put_tracks(out, b"extract ", edit.tracks);
            put_number(out, b" ", edit.track);
            put_number(out, b" ", edit.item);
            put_keep(out, edit.keep)
        }
        Call::Slice(edit) => {
            put_numbers(out, b"slice ", edit.track, edit.at);
            put_keep(out, edit.keep)
        }
        Call::Dissolve(edit) => {
            put_numbers(out, b"dissolve ", edit.track, edit.at);
            put_number(out, b" ", edit.a);
            put_number(out, b" ", edit.b)
        }
        Call::Undissolve(edit) => put_numbers(out, b"undissolve ", edit.track, edit.at),
        Call::Trim(edit) => put_trim(out, edit),
        Call::Slip(edit) => put_slip(out, edit),
        Call::Roll(edit) => {
            put_numbers(out, b"roll ", edit.track, edit.at);
            put_signed(out, b" ", edit.by)
        }
        Call::Slide(edit) => put_slide(out, edit),
        Call::Fill(edit) => put_fill(out, edit),
        Call::Ripple(edit) => put_ripple(out, edit),
        Call::Link3(edit) => {
            put_tracks(out, b"link ", edit.tracks);
            put(out, b" ");
            put_items(out, edit.items.as_slice())
        }
        Call::Unlink(edit) => put_numbers(out, b"unlink ", edit.track, edit.item),
    }
}

// Adds the line of a trim.
fn put_trim(out: &mut Vec<u8>, edit: &Trim)
    requires { vec_len out.old + 170 ≤ vec_capacity out.old }
    ensures text { out.new.items ≡ out.old.items ++ call_text_of (Call.Trim edit.now) }
    ensures room { vec_capacity out.old ≤ vec_capacity out.new }
{
    put_numbers(out, b"trim ", edit.track, edit.item);
    put(out, b" ");
    put_end(out, edit.end);
    put_signed(out, b" ", edit.by)
}

// Adds the line of a slip.
fn put_slip(out: &mut Vec<u8>, edit: &Slip)
    requires { vec_len out.old + 170 ≤ vec_capacity out.old }
    ensures text { out.new.items ≡ out.old.items ++ call_text_of (Call.Slip edit.now) }
    ensures room { vec_capacity out.old ≤ vec_capacity out.new }
{
    put_tracks(out, b"slip ", edit.tracks);
    put_number(out, b" ", edit.track);
    put_number(out, b" ", edit.item);
    put_signed(out, b" ", edit.by)
}

// Adds the line of a ripple.
fn put_ripple(out: &mut Vec<u8>, edit: &Ripple)
    requires { vec_len out.old + 170 ≤ vec_capacity out.old }
    ensures text { out.new.items ≡ out.old.items ++ call_text_of (Call.Ripple edit.now) }
    ensures room { vec_capacity out.old ≤ vec_capacity out.new }
{
    put_tracks(out, b"ripple ", edit.tracks);
    put_number(out, b" ", edit.track);
    put_number(out, b" ", edit.item);
    put(out, b" ");
    put_end(out, edit.end);
    put_signed(out, b" ", edit.by)
}

// Adds the line of a slide.
fn put_slide(out: &mut Vec<u8>, edit: &Slide)
    requires { vec_len out.old + 170 ≤ vec_capacity out.old }
    ensures text { out.new.items ≡ out.old.items ++ call_text_of (Call.Slide edit.now) }
    ensures room { vec_capacity out.old ≤ vec_capacity out.new }
{
    put_tracks(out, b"slide ", edit.tracks);
    put_number(out, b" ", edit.track);
    put_number(out, b" ", edit.item);
    put_signed(out, b" ", edit.by)
}

// Adds the line of a fill.
fn put_fill(out: &mut Vec<u8>, edit: &Fill)
    requires { vec_len out.old + 170 ≤ vec_capacity out.old }
    ensures text { out.new.items ≡ out.old.items ++ call_text_of (Call.Fill edit.now) }
    ensures room { vec_capacity out.old ≤ vec_capacity out.new }
{
    put_numbers(out, b"fill ", edit.track, edit.at);
    put(out, b" ");
    put_what(out, &edit.what);
    put_number(out, b" ", edit.from);
    put(out, b" ");
    put_length(out, edit.length);
    put_keep(out, edit.keep)
}

// Adds a text, and two numbers with a space between.
fn put_numbers(out: &mut Vec<u8>, lead: &[u8], first: u32, second: u32)
    requires { vec_len out.old + length lead.now + 21 ≤ vec_capacity out.old }
    ensures text { out.new.items ≡ out.old.items ++ numbers_text lead.now first second }
    ensures len { vec_len out.new ≤ vec_len out.old + length lead.now + 21 }
    ensures room { vec_capacity out.old ≤ vec_capacity out.new }
{
    put_number(out, lead, first);
    put_number(out, b" ", second)
}

// Adds a thing, a source frame of it, and a count of frames.
fn put_frames(out: &mut Vec<u8>, what: &What, from: u32, len: u32)
    requires { vec_len out.old + 33 ≤ vec_capacity out.old }
    ensures text { out.new.items ≡ out.old.items ++ frames_text what.now from len }
    ensures len { vec_len out.new ≤ vec_len out.old + 33 }
    ensures room { vec_capacity out.old ≤ vec_capacity out.new }
{
    put_what(out, what);
    put_number(out, b" ", from);
    put_number(out, b" ", len)
}

// Adds a text and the tracks of a set, parted by commas.
fn put_tracks(out: &mut Vec<u8>, first: &[u8], tracks: u32)
    requires { vec_len out.old + length first.now + 96 ≤ vec_capacity out.old }
    ensures text { out.new.items ≡ out.old.items ++ (first.now ++ tracks_text tracks) }
    ensures len { vec_len out.new ≤ vec_len out.old + length first.now + 96 }
    ensures room { vec_capacity out.old ≤ vec_capacity out.new }
{
    put(out, first);
    let mut lead = b"".as_slice();
    for track in 0..32 {
        if has_track(tracks, track) {
            put_track(out, lead, track);
            lead = b",";
        }
    }
}

// Adds numbers, parted by commas.
fn put_items(out: &mut Vec<u8>, items: &[u32])
    requires { vec_len out.old + 11 * length items.now ≤ vec_capacity out.old }
    ensures text { out.new.items ≡ out.old.items ++ numbers_after [] items.now }
    ensures room { vec_capacity out.old ≤ vec_capacity out.new }
{
    let mut lead = b"".as_slice();
    for item in items {
        put_number(out, lead, *item);
        lead = b",";
    }
}
