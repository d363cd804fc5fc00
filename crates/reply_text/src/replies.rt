// Replies to edits, to `point`, and to lines that are none of the table.
ghost use Rattle.std.specs.Prelude.{◌≡◌, ◌+◌, ◌≤◌, ◌++◌, length, codes, decimal};
ghost use Rattle.std.specs.Fmt.{signed_decimal};
ghost use Rattle.reply_text.specs.Replies.{link_text, offsets_text, own_done_text, own_refusal_text, done_text, refusal_text, answer_text_of, fault_of};

use crate::{CutObject, LineFault, MAX_SHORT, Short};
use composables::{Done, Refusal, Which};
use cut_room::Answer;
use cut_steps::{BackDone, BackRefusal};

/// The reply to an edit, without its line feed. It takes no memory.
pub fn answer_text(answer: &Answer<CutObject>) -> Short
    ensures text { result ≡ answer_text_of answer.now }
    ensures short { length result ≤ MAX_SHORT }
{
    let mut text = Short::new();
    match answer {
        Answer::Done { point, done } => {
            push_number(&mut text, b"ok ", *point);
            push_done(&mut text, done);
        }
        Answer::Refused { point, refusal } => {
            push_number(&mut text, b"no ", *point);
            push_refusal(&mut text, refusal);
        }
        Answer::Full { point } => {
            push_number(&mut text, b"no ", *point);
            text.push(b" E15");
        }
        Answer::Memory => text.push(b"memory"),
    }
    text
}

/// The reply to `point`, where the journal has so many entries, without its line feed. It takes no memory.
pub fn point_text(point: u32) -> Short
    ensures text { result ≡ codes "point " ++ decimal point }
    ensures short { length result ≤ MAX_SHORT }
{
    let mut text = Short::new();
    push_number(&mut text, b"point ", point);
    text
}

/// The reply to a line that is none of the table, without its line feed. It takes no memory.
pub fn fault_text(fault: &LineFault) -> Short
    ensures text { result ≡ fault_of fault.now }
    ensures short { length result ≤ MAX_SHORT }
{
    let mut text = Short::new();
    match fault {
        LineFault::B1 => text.push(b"bad B1"),
        LineFault::B2 => text.push(b"bad B2"),
        LineFault::B3 => text.push(b"bad B3"),
        LineFault::B4 => text.push(b"bad B4"),
        LineFault::B5 => text.push(b"bad B5"),
        LineFault::B6 => text.push(b"bad B6"),
        LineFault::Memory => text.push(b"memory"),
    }
    text
}

// Adds what a step that was done answers: what its edit does, or nothing where one was taken back.
fn push_done(text: &mut Short, done: &BackDone<Done>)
    requires { length text.old + 40 ≤ MAX_SHORT }
    ensures text { text.new ≡ text.old ++ done_text done.now }
    ensures length { length text.new ≤ length text.old + 40 }
{
    match done {
        BackDone::Own(done) => push_own_done(text, done),
        BackDone::Plain => {}
    }
}

// Adds what an edit that was done answers: nothing, an item, a delta or a link.
fn push_own_done(text: &mut Short, done: &Done)
    requires { length text.old + 40 ≤ MAX_SHORT }
    ensures text { text.new ≡ text.old ++ own_done_text done.now }
    ensures length { length text.new ≤ length text.old + 40 }
{
    match done {
        Done::Plain => {}
        Done::Item(item) => push_number(text, b" item ", *item),
        Done::By(delta) => push_signed(text, b" by ", i64::from(*delta)),
        Done::Linked { home, number } => push_link(text, b" link ", *home, *number),
    }
}

// Adds the code of a refusal with its numbers: that of an edit, or that of a taking back with its track.
fn push_refusal(text: &mut Short, refusal: &BackRefusal<Refusal>)
    requires { length text.old + 80 ≤ MAX_SHORT }
    ensures text { text.new ≡ text.old ++ refusal_text refusal.now }
    ensures length { length text.new ≤ length text.old + 80 }
{
    match refusal {
        BackRefusal::Own(refusal) => push_own_refusal(text, refusal),
        BackRefusal::NoPart(track) => push_number(text, b" E1 ", *track),
        BackRefusal::NotYours(track) => push_number(text, b" E16 ", *track),
        BackRefusal::OtherTracks(track) => push_number(text, b" E17 ", *track),
    }
}

// Adds the code of an edit's refusal with its numbers.
fn push_own_refusal(text: &mut Short, refusal: &Refusal)
    requires { length text.old + 80 ≤ MAX_SHORT }
    ensures text { text.new ≡ text.old ++ own_refusal_text refusal.now }
    ensures length { length text.new ≤ length text.old + 80 }
{
    match refusal {
        Refusal::NoTrack(track) => push_number(text, b" E1 ", *track),
        Refusal::NoItem => text.push(b" E2"),
        Refusal::NoMedia => text.push(b" E3"),
        Refusal::EmptyRange => text.push(b" E4"),
        Refusal::MediaEnds => text.push(b" E5"),
        Refusal::NotAGap(place) => push_number(text, b" E6 ", *place),
        Refusal::NotACut(place) => push_number(text, b" E7 ", *place),
        Refusal::DissolveRoom(Which::Left) => text.push(b" E8 left"),
        Refusal::DissolveRoom(Which::Right) => text.push(b" E8 right"),
        Refusal::OffsetsDiffer(first, other) => push_offsets(text, b" E9 ", *first, *other),
        Refusal::AlreadyLinked { track, item } => {
            push_number(text, b" E10 ", *track);
            push_number(text, b" ", *item);
        }
        Refusal::LinkOutside {
            home,
            number,
            track,
        } => {
            push_link(text, b" E11 ", *home, *number);
            push_number(text, b" ", *track);
        }
        Refusal::LinkBroken {
            home,
            number,
            old,
            new,
        } => {
            push_link(text, b" E12 ", *home, *number);
            push_offsets(text, b" ", *old, *new);
        }
        Refusal::TooLong(track) => push_number(text, b" E13 ", *track),
        Refusal::TooManyItems(track) => push_number(text, b" E14 ", *track),
    }
}

/// Adds a text and a link: its home, a point and its number.
pub fn push_link(text: &mut Short, lead: &[u8], home: u32, number: u32)
    requires { length text.old + length lead.now + 21 ≤ MAX_SHORT }
    ensures text { text.new ≡ text.old ++ (lead.now ++ link_text home number) }
    ensures length { length text.new ≤ length text.old + length lead.now + 21 }
{
    push_number(text, lead, home);
    push_number(text, b".", number);
}

// Adds a text and two offsets, with a space between.
fn push_offsets(text: &mut Short, lead: &[u8], first: i64, second: i64)
    requires { length text.old + length lead.now + 41 ≤ MAX_SHORT }
    ensures text { text.new ≡ text.old ++ (lead.now ++ offsets_text first second) }
    ensures length { length text.new ≤ length text.old + length lead.now + 41 }
{
    push_signed(text, lead, first);
    push_signed(text, b" ", second);
}

/// Adds a text and a number.
pub fn push_number(text: &mut Short, lead: &[u8], number: u32)
    requires { length text.old + length lead.now + 10 ≤ MAX_SHORT }
    ensures text { text.new ≡ text.old ++ (lead.now ++ decimal number) }
    ensures length { length text.new ≤ length text.old + length lead.now + 10 }
{
    text.push(lead);
    text.push_number(number);
}

// Adds a text and a signed number.
fn push_signed(text: &mut Short, lead: &[u8], number: i64)
    requires { length text.old + length lead.now + 20 ≤ MAX_SHORT }
    ensures text { text.new ≡ text.old ++ (lead.now ++ signed_decimal number) }
    ensures length { length text.new ≤ length text.old + length lead.now + 20 }
{
    text.push(lead);
    text.push_signed(number);
}
