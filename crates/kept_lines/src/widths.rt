// The numbers of a step that is there have 32 bits, as their types say. Nothing is refused here: who reads a number knows
// its range.
ghost use Rattle.std.specs.Prelude.{All, FitsSigned};
ghost use Rattle.std.specs.Int.{w32};
ghost use Rattle.line_table.specs.CallTexts.{IsSmall, IsSmallLength, IsSmallWhat};
ghost use Rattle.kept_lines.specs.Widths.{DeedHasWidths, HasWidths, IsNarrow};

use composables::FillLength;
use edit_calls::Call;
use frame_meaning::What;
use room_core::Entry;
use take_back::{Deed, Step};

// The numbers of an entry.
pub(crate) fn numbers(entry: &Entry<Step<Call>>)
    ensures { IsNarrow entry.now }
{
    number(entry.station);
    number(entry.number);
    deed_numbers(&entry.call.act)
}

// The numbers of what a station asks for.
fn deed_numbers(deed: &Deed<Call>)
    ensures { DeedHasWidths deed.now }
{
    match deed {
        Deed::Do(call) => numbers_of(call),
        Deed::Back { tracks } => number(*tracks),
    }
}

// The numbers of a call.
fn numbers_of(call: &Call)
    ensures { HasWidths call.now }
{
    match call {
        Call::Overwrite(edit) => {
            number(edit.at);
            thing(&edit.what);
            number(edit.from);
            number(edit.len)
        }
        Call::Insert(edit) => {
            number(edit.tracks);
            number(edit.at);
            thing(&edit.what);
            number(edit.from);
            number(edit.len)
        }
        Call::Remove(edit) => number(edit.item),
        Call::Extract(edit) => {
            number(edit.tracks);
            number(edit.item)
        }
        Call::Slice(edit) => number(edit.at),
        Call::Dissolve(edit) => {
            number(edit.at);
            number(edit.a);
            number(edit.b)
        }
        Call::Undissolve(edit) => number(edit.at),
        Call::Trim(edit) => {
            number(edit.item);
            delta(edit.by)
        }
        Call::Slip(edit) => {
            number(edit.tracks);
            number(edit.item);
            delta(edit.by)
        }
        Call::Roll(edit) => {
            number(edit.at);
            delta(edit.by)
        }
        Call::Slide(edit) => {
            number(edit.tracks);
            number(edit.item);
            delta(edit.by)
        }
        Call::Fill(edit) => {
            number(edit.at);
            thing(&edit.what);
            number(edit.from);
            how_much(&edit.length)
        }
        Call::Ripple(edit) => {
            number(edit.tracks);
            number(edit.item);
            delta(edit.by)
        }
        Call::Link3(edit) => {
            number(edit.tracks);
            each(edit.items.as_slice())
        }
        Call::Unlink(edit) => number(edit.item),
    }
}

// A number.
fn number(n: u32)
    ensures { IsSmall n }
{
    let _ = n;
}

// A count of frames by which something moves.
fn delta(by: i32)
    ensures { FitsSigned w32 by }
{
    let _ = by;
}

// A thing.
fn thing(what: &What)
    ensures { IsSmallWhat what.now }
{
    match what {
        What::Media(media) => number(*media),
        What::Nest(nest) => number(*nest),
    }
}

// How much is filled.
fn how_much(length: &FillLength)
    ensures { IsSmallLength length.now }
{
    match length {
        FillLength::Source(len) => number(*len),
        FillLength::Sequence => {}
    }
}

// A list of numbers.
fn each(items: &[u32])
    ensures { All IsSmall items.now }
{
    for item in items {
        number(*item);
    }
}
