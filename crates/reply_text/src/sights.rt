// Replies to questions.
ghost use Rattle.std.specs.Prelude.{◌≡◌, ◌+◌, ◌≤◌, ◌++◌, IfOk, OnOk, length};
ghost use Rattle.std.specs.List.{flat_map};
ghost use Rattle.composables.specs.Items.{items_of};
ghost use Rattle.reply_text.specs.Sights.{side_text, frame_text, run_text, mark_text, number_text, item_link_text, item_text, items_text_of, picture_text, seen_text, ask_refusal_text, sight_text_of};

use crate::replies::{push_link, push_number};
use crate::{CutObject, MAX_SHORT, Short};
use composables::{ItemView, Memory, Track};
use cut_room::Sight;
use edit_calls::{AskRefusal, Seen};
use frame_meaning::{Frame, Link, Mark, Run, Side, What};
use protocol_parts::{put, put_number};
use std::alloc::Global;

/// The reply to a question to a track, without its line feed.
pub fn sight_text(alloc: Global, sight: &Sight<CutObject>) -> Result<Vec<u8>, Memory>
    ensures { IfOk result (λ text. text.items ≡ sight_text_of sight.now) }
{
    let mut out = Vec::with_capacity(alloc, likely_length(sight))?;
    match sight {
        Sight::Seen { point, seen } => put_seen(&mut out, *point, seen)?,
        Sight::Refused { point, refusal } => {
            put_number(&mut out, b"no ", *point)?;
            put_ask_refusal(&mut out, refusal)?;
        }
        Sight::Memory => put(&mut out, b"memory")?,
    }
    Ok(out)
}

/// The items and gaps of a track, each after a space, as they stand in the reply to `items` after the point.
pub fn items_text(alloc: Global, track: &Track) -> Result<Vec<u8>, Memory>
    ensures { IfOk result (λ text. text.items ≡ items_text_of (items_of track.now.cells)) }
{
    let items = track.items(alloc)?;
    let mut out = Vec::with_capacity(alloc, items.len().saturating_mul(32))?;
    put_items(&mut out, &items)?;
    Ok(out)
}

// How many bytes the reply has in most rooms. It may have more or fewer.
fn likely_length(sight: &Sight<CutObject>) -> usize {
    match sight {
        Sight::Seen { seen, .. } => match seen {
            Seen::Runs(runs) => runs.as_slice().len().saturating_mul(24).saturating_add(24),
            Seen::Items(items) => items.as_slice().len().saturating_mul(32).saturating_add(24),
        },
        _ => 32,
    }
}

// Adds what a question is answered, at a point of the journal.
fn put_seen(out: &mut Vec<u8>, point: u32, seen: &Seen) -> Result<(), Memory>
    ensures { OnOk result (out.new.items ≡ out.old.items ++ seen_text point seen.now) }
{
    match seen {
        Seen::Runs(runs) => {
            put_number(out, b"seen ", point)?;
            put_runs(out, runs.as_slice())
        }
        Seen::Items(items) => {
            put_number(out, b"items ", point)?;
            put_items(out, items.as_slice())
        }
    }
}

// Adds the code of a question's refusal with its number.
fn put_ask_refusal(out: &mut Vec<u8>, refusal: &AskRefusal) -> Result<(), Memory>
    ensures { OnOk result (out.new.items ≡ out.old.items ++ ask_refusal_text refusal.now) }
{
    match refusal {
        AskRefusal::NoTrack(track) => put_number(out, b" V1 ", *track),
        AskRefusal::Range(length) => put_number(out, b" V2 ", *length),
    }
}

// Adds runs of frames, each after a space.
fn put_runs(out: &mut Vec<u8>, runs: &[Run<What>]) -> Result<(), Memory>
    ensures { OnOk result (out.new.items ≡ out.old.items ++ flat_map run_text runs.now) }
{
    for run in runs {
        let text = text_of_run(run);
        put(out, text.as_bytes())?;
    }
    Ok(())
}

// Adds items and gaps, each after a space.
fn put_items(out: &mut Vec<u8>, items: &[ItemView]) -> Result<(), Memory>
    ensures { OnOk result (out.new.items ≡ out.old.items ++ items_text_of items.now) }
{
    for item in items {
        let text = text_of_item(item);
        put(out, text.as_bytes())?;
    }
    Ok(())
}

// A run, put together without memory.
fn text_of_run(run: &Run<What>) -> Short
    ensures { result ≡ run_text run.now }
{
    let mut text = Short::new();
    push_frame(&mut text, &run.frame);
    push_number(&mut text, b" ", run.len);
    text
}

// An item or gap, put together without memory.
fn text_of_item(item: &ItemView) -> Short
    ensures { result ≡ item_text item.now }
{
    let mut text = Short::new();
    push_mark(&mut text, &item.mark);
    push_item_number(&mut text, &item.item);
    push_side(&mut text, &item.first);
    push_number(&mut text, b" ", item.len);
    push_item_link(&mut text, &item.link);
    text
}

// Adds the dissolve at the head of an item, if there is one: its frames before the cut and after it.
fn push_mark(text: &mut Short, mark: &Option<Mark>)
    requires { length text.old + 27 ≤ MAX_SHORT }
    ensures text { text.new ≡ text.old ++ mark_text mark.now }
    ensures length { length text.new ≤ length text.old + 27 }
{
    match mark {
        None => {}
        Some(mark) => {
            push_number(text, b" mark ", mark.a);
            push_number(text, b" ", mark.b);
        }
    }
}

// Adds the number of an item; a gap has none.
fn push_item_number(text: &mut Short, number: &Option<u32>)
    requires { length text.old + 11 ≤ MAX_SHORT }
    ensures text { text.new ≡ text.old ++ number_text number.now }
    ensures length { length text.new ≤ length text.old + 11 }
{
    match number {
        None => {}
        Some(number) => push_number(text, b" ", *number),
    }
}

// Adds the link of an item, if it has one.
fn push_item_link(text: &mut Short, link: &Option<Link>)
    requires { length text.old + 27 ≤ MAX_SHORT }
    ensures text { text.new ≡ text.old ++ item_link_text link.now }
    ensures length { length text.new ≤ length text.old + 27 }
{
    match link {
        None => {}
        Some(link) => push_link(text, b" link ", link.home, link.number),
    }
}

// Adds the first frame of a run: dark, a picture, or a mix of two sides with its weight.
fn push_frame(text: &mut Short, frame: &Frame<What>)
    requires { length text.old + 72 ≤ MAX_SHORT }
    ensures text { text.new ≡ text.old ++ frame_text frame.now }
    ensures length { length text.new ≤ length text.old + 72 }
{
    match frame {
        Frame::Dark => text.push(b" dark"),
        Frame::Pic { what, source } => push_picture(text, what, *source),
        Frame::Mix {
            left,
            right,
            num,
            den,
        } => {
            text.push(b" mix");
            push_side(text, left);
            push_side(text, right);
            push_number(text, b" ", *num);
            push_number(text, b" ", *den);
        }
    }
}

// Adds a side: dark, or a thing and its source frame.
fn push_side(text: &mut Short, side: &Side<What>)
    requires { length text.old + 23 ≤ MAX_SHORT }
    ensures text { text.new ≡ text.old ++ side_text side.now }
    ensures length { length text.new ≤ length text.old + 23 }
{
    match side {
        Side::Dark => text.push(b" dark"),
        Side::Pic { what, source } => push_picture(text, what, *source),
    }
}

// Adds a thing and a source frame of it.
fn push_picture(text: &mut Short, what: &What, source: u32)
    requires { length text.old + 23 ≤ MAX_SHORT }
    ensures text { text.new ≡ text.old ++ picture_text what.now source }
    ensures length { length text.new ≤ length text.old + 23 }
{
    match what {
        What::Media(media) => push_number(text, b" @", *media),
        What::Nest(nest) => push_number(text, b" #", *nest),
    }
    push_number(text, b" ", source);
}
