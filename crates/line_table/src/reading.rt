// Lines that a station sends, by the table.
ghost use Rattle.std.specs.Prelude.{◌≡◌, IfOk};
ghost use Rattle.line_words.specs.Blanks.{words_of};
ghost use Rattle.line_table.specs.CallTexts.{NamesWritten};
ghost use Rattle.line_table.specs.Labels.{place_by};
ghost use Rattle.line_table.specs.Reading.{AreRead, IsRead, IsRowRead, overwrite_of, insert_of, remove_of, extract_of, slice_of, dissolve_of, undissolve_of, trim_of, slip_of, roll_of, slide_of, fill_of, ripple_of, link_of, unlink_of, back_of, view_of, items_of, point_of, otio_of, news_of, texts_of};
ghost use Rattle.line_table.specs.Spelling.{IsOrMemory};

use crate::lines::edit;
use crate::parts::{
    delta, end, filled, keep, numbers, numeral, place, track, track_count, tracks, what,
};
use crate::words::{first_word, line_words};
use crate::{FirstWord, Line, LineFault};
use composables::{
    Dissolve, Extract, Fill, Insert, Link3, Overwrite, Remove, Ripple, Roll, Slice, Slide, Slip,
    Trim, Undissolve, Unlink,
};
use edit_calls::{Ask, Call};
use line_words::MAX_LINE;
use std::alloc::Global;
use take_back::{Deed, Step};
use timecode12::Counting;

/// The line that these bytes are, without its line feed, or the first fault of it. Labels name record frames by the
/// counting, and `start` is the record frame of place 0.
///
/// Only a line whose first word is `link` takes memory, and may be answered `Memory`, also where it is none of the table.
pub fn read_line(
    alloc: Global,
    line: &[u8],
    counting: &Counting,
    start: u32,
) -> Result<Line, LineFault>
    ensures read { IsRead (place_by counting.now start) line.now result }
    ensures written { IfOk result (λ read. NamesWritten read) }
{
    if line.len() > MAX_LINE {
        return Err(LineFault::B5);
    }
    table_line(alloc, line, counting, start)
}

/// The line that these bytes are, of any length, as `read_line` reads it.
pub fn table_line(
    alloc: Global,
    line: &[u8],
    counting: &Counting,
    start: u32,
) -> Result<Line, LineFault>
    ensures read { AreRead (place_by counting.now start) (words_of line.now) result }
    ensures written { IfOk result (λ read. NamesWritten read) }
{
    let (first, rest) = first_word(line)?;
    match FirstWord::of_word(first) {
        Some(named) => row(alloc, named, rest, counting, start),
        None => Err(LineFault::B1),
    }
}

// The line of a first word, with the words after it; B2 where they are more than any row has.
fn row(
    alloc: Global,
    named: FirstWord,
    rest: &[u8],
    counting: &Counting,
    start: u32,
) -> Result<Line, LineFault>
    ensures read { IsRowRead (place_by counting.now start) named (words_of rest.now) result }
    ensures written { IfOk result (λ read. NamesWritten read) }
{
    let kept = match line_words(rest) {
        Some(kept) => kept,
        None => return Err(LineFault::B2),
    };
    let words = kept.as_slice();
    match named {
        FirstWord::Overwrite => overwrite(words, counting, start),
        FirstWord::Insert => insert(words, counting, start),
        FirstWord::Remove => remove(words),
        FirstWord::Extract => extract(words),
        FirstWord::Slice => slice(words, counting, start),
        FirstWord::Dissolve => dissolve(words, counting, start),
        FirstWord::Undissolve => undissolve(words, counting, start),
        FirstWord::Trim => trim(words),
        FirstWord::Slip => slip(words),
        FirstWord::Roll => roll(words, counting, start),
        FirstWord::Slide => slide(words),
        FirstWord::Fill => fill(words, counting, start),
        FirstWord::Ripple => ripple(words),
        FirstWord::Link => link(alloc, words),
        FirstWord::Unlink => unlink(words),
        FirstWord::Back => back(words),
        FirstWord::View => view(words, counting, start),
        FirstWord::Items => items(words),
        FirstWord::Point => point(words),
        FirstWord::Otio => otio(words),
        FirstWord::News => news(words),
    }
}

// overwrite T P WHAT FROM LEN, or with keep
fn overwrite(words: &[&[u8]], counting: &Counting, start: u32) -> Result<Line, LineFault>
    ensures read { result ≡ overwrite_of (place_by counting.now start) (texts_of words.now) }
    ensures written { IfOk result (λ read. NamesWritten read) }
{
    match words {
        [track_word, at, thing, from, len, rest @ ..] if rest.len() <= 1 => {
            let track = track(track_word)?;
            let at = place(at, counting, start)?;
            let what = what(thing)?;
            let from = numeral(from)?;
            let len = numeral(len)?;
            let keep = keep(rest)?;
            Ok(edit(Call::Overwrite(Overwrite {
                track,
                at,
                what,
                from,
                len,
                keep,
            })))
        }
        _ => Err(LineFault::B2),
    }
}

// insert TS T P WHAT FROM LEN, or with keep
fn insert(words: &[&[u8]], counting: &Counting, start: u32) -> Result<Line, LineFault>
    ensures read { result ≡ insert_of (place_by counting.now start) (texts_of words.now) }
    ensures written { IfOk result (λ read. NamesWritten read) }
{
    match words {
        [list, track_word, at, thing, from, len, rest @ ..] if rest.len() <= 1 => {
            let tracks = tracks(list)?;
            let track = track(track_word)?;
            let at = place(at, counting, start)?;
            let what = what(thing)?;
            let from = numeral(from)?;
            let len = numeral(len)?;
            let keep = keep(rest)?;
            Ok(edit(Call::Insert(Insert {
                tracks,
                track,
                at,
                what,
                from,
                len,
                keep,
            })))
        }
        _ => Err(LineFault::B2),
    }
}

// remove T I, or with keep
fn remove(words: &[&[u8]]) -> Result<Line, LineFault>
    ensures read { result ≡ remove_of (texts_of words.now) }
    ensures written { IfOk result (λ read. NamesWritten read) }
{
    match words {
        [track_word, item, rest @ ..] if rest.len() <= 1 => {
            let track = track(track_word)?;
            let item = numeral(item)?;
            let keep = keep(rest)?;
            Ok(edit(Call::Remove(Remove { track, item, keep })))
        }
        _ => Err(LineFault::B2),
    }
}

// extract TS T I, or with keep
fn extract(words: &[&[u8]]) -> Result<Line, LineFault>
    ensures read { result ≡ extract_of (texts_of words.now) }
    ensures written { IfOk result (λ read. NamesWritten read) }
{
    match words {
        [list, track_word, item, rest @ ..] if rest.len() <= 1 => {
            let tracks = tracks(list)?;
            let track = track(track_word)?;
            let item = numeral(item)?;
            let keep = keep(rest)?;
            Ok(edit(Call::Extract(Extract {
                tracks,
                track,
                item,
                keep,
            })))
        }
        _ => Err(LineFault::B2),
    }
}

// slice T P, or with keep
fn slice(words: &[&[u8]], counting: &Counting, start: u32) -> Result<Line, LineFault>
    ensures read { result ≡ slice_of (place_by counting.now start) (texts_of words.now) }
    ensures written { IfOk result (λ read. NamesWritten read) }
{
    match words {
        [track_word, at, rest @ ..] if rest.len() <= 1 => {
            let track = track(track_word)?;
            let at = place(at, counting, start)?;
            let keep = keep(rest)?;
            Ok(edit(Call::Slice(Slice { track, at, keep })))
        }
        _ => Err(LineFault::B2),
    }
}

// dissolve T P A B
fn dissolve(words: &[&[u8]], counting: &Counting, start: u32) -> Result<Line, LineFault>
    ensures read { result ≡ dissolve_of (place_by counting.now start) (texts_of words.now) }
    ensures written { IfOk result (λ read. NamesWritten read) }
{
    match words {
        [track_word, at, before, after] => {
            let track = track(track_word)?;
            let at = place(at, counting, start)?;
            let a = numeral(before)?;
            let b = numeral(after)?;
            Ok(edit(Call::Dissolve(Dissolve { track, at, a, b })))
        }
        _ => Err(LineFault::B2),
    }
}

// undissolve T P
fn undissolve(words: &[&[u8]], counting: &Counting, start: u32) -> Result<Line, LineFault>
    ensures read { result ≡ undissolve_of (place_by counting.now start) (texts_of words.now) }
    ensures written { IfOk result (λ read. NamesWritten read) }
{
    match words {
        [track_word, at] => {
            let track = track(track_word)?;
            let at = place(at, counting, start)?;
            Ok(edit(Call::Undissolve(Undissolve { track, at })))
        }
        _ => Err(LineFault::B2),
    }
}

// trim T I END D
fn trim(words: &[&[u8]]) -> Result<Line, LineFault>
    ensures read { result ≡ trim_of (texts_of words.now) }
    ensures written { IfOk result (λ read. NamesWritten read) }
{
    match words {
        [track_word, item, last, by] => {
            let track = track(track_word)?;
            let item = numeral(item)?;
            let end = end(last)?;
            let by = delta(by)?;
            Ok(edit(Call::Trim(Trim {
                track,
                item,
                end,
                by,
            })))
        }
        _ => Err(LineFault::B2),
    }
}

// slip TS T I D
fn slip(words: &[&[u8]]) -> Result<Line, LineFault>
    ensures read { result ≡ slip_of (texts_of words.now) }
    ensures written { IfOk result (λ read. NamesWritten read) }
{
    match words {
        [list, track_word, item, by] => {
            let tracks = tracks(list)?;
            let track = track(track_word)?;
            let item = numeral(item)?;
            let by = delta(by)?;
            Ok(edit(Call::Slip(Slip {
                tracks,
                track,
                item,
                by,
            })))
        }
        _ => Err(LineFault::B2),
    }
}

// roll T P D
fn roll(words: &[&[u8]], counting: &Counting, start: u32) -> Result<Line, LineFault>
    ensures read { result ≡ roll_of (place_by counting.now start) (texts_of words.now) }
    ensures written { IfOk result (λ read. NamesWritten read) }
{
    match words {
        [track_word, at, by] => {
            let track = track(track_word)?;
            let at = place(at, counting, start)?;
            let by = delta(by)?;
            Ok(edit(Call::Roll(Roll { track, at, by })))
        }
        _ => Err(LineFault::B2),
    }
}

// slide TS T I D
fn slide(words: &[&[u8]]) -> Result<Line, LineFault>
    ensures read { result ≡ slide_of (texts_of words.now) }
    ensures written { IfOk result (λ read. NamesWritten read) }
{
    match words {
        [list, track_word, item, by] => {
            let tracks = tracks(list)?;
            let track = track(track_word)?;
            let item = numeral(item)?;
            let by = delta(by)?;
            Ok(edit(Call::Slide(Slide {
                tracks,
                track,
                item,
                by,
            })))
        }
        _ => Err(LineFault::B2),
    }
}

// fill T P WHAT FROM sequence, or fill T P WHAT FROM source LEN, or one of these with keep
fn fill(words: &[&[u8]], counting: &Counting, start: u32) -> Result<Line, LineFault>
    ensures read { result ≡ fill_of (place_by counting.now start) (texts_of words.now) }
    ensures written { IfOk result (λ read. NamesWritten read) }
{
    match words {
        [track_word, at, thing, from, how, rest @ ..] if rest.len() <= 2 => {
            let track = track(track_word)?;
            let at = place(at, counting, start)?;
            let what = what(thing)?;
            let from = numeral(from)?;
            let (length, keep) = filled(how, rest)?;
            Ok(edit(Call::Fill(Fill {
                track,
                at,
                what,
                from,
                length,
                keep,
            })))
        }
        _ => Err(LineFault::B2),
    }
}

// ripple TS T I END D
fn ripple(words: &[&[u8]]) -> Result<Line, LineFault>
    ensures read { result ≡ ripple_of (texts_of words.now) }
    ensures written { IfOk result (λ read. NamesWritten read) }
{
    match words {
        [list, track_word, item, last, by] => {
            let tracks = tracks(list)?;
            let track = track(track_word)?;
            let item = numeral(item)?;
            let end = end(last)?;
            let by = delta(by)?;
            Ok(edit(Call::Ripple(Ripple {
                tracks,
                track,
                item,
                end,
                by,
            })))
        }
        _ => Err(LineFault::B2),
    }
}

// link TS IS
fn link(alloc: Global, words: &[&[u8]]) -> Result<Line, LineFault>
    ensures read { IsOrMemory (link_of (texts_of words.now)) result }
    ensures written { IfOk result (λ read. NamesWritten read) }
{
    match words {
        [list, numbers_word] => {
            let tracks = tracks(list)?;
            let items = numbers(alloc, numbers_word)?;
            if items.as_slice().len() != track_count(tracks) {
                return Err(LineFault::B2);
            }
            Ok(edit(Call::Link3(Link3 { tracks, items })))
        }
        _ => Err(LineFault::B2),
    }
}

// unlink T I
fn unlink(words: &[&[u8]]) -> Result<Line, LineFault>
    ensures read { result ≡ unlink_of (texts_of words.now) }
    ensures written { IfOk result (λ read. NamesWritten read) }
{
    match words {
        [track_word, item] => {
            let track = track(track_word)?;
            let item = numeral(item)?;
            Ok(edit(Call::Unlink(Unlink { track, item })))
        }
        _ => Err(LineFault::B2),
    }
}

// back TS
fn back(words: &[&[u8]]) -> Result<Line, LineFault>
    ensures read { result ≡ back_of (texts_of words.now) }
    ensures written { IfOk result (λ read. NamesWritten read) }
{
    match words {
        [list] => {
            let tracks = tracks(list)?;
            Ok(Line::Edit(Step {
                by: 0,
                act: Deed::Back { tracks },
            }))
        }
        _ => Err(LineFault::B2),
    }
}

// view T P P
fn view(words: &[&[u8]], counting: &Counting, start: u32) -> Result<Line, LineFault>
    ensures read { result ≡ view_of (place_by counting.now start) (texts_of words.now) }
    ensures written { IfOk result (λ read. NamesWritten read) }
{
    match words {
        [track_word, from, to] => {
            let track = track(track_word)?;
            let a = place(from, counting, start)?;
            let b = place(to, counting, start)?;
            Ok(Line::Ask(Ask::View { track, a, b }))
        }
        _ => Err(LineFault::B2),
    }
}

// items T
fn items(words: &[&[u8]]) -> Result<Line, LineFault>
    ensures read { result ≡ items_of (texts_of words.now) }
    ensures written { IfOk result (λ read. NamesWritten read) }
{
    match words {
        [track_word] => {
            let track = track(track_word)?;
            Ok(Line::Ask(Ask::Items { track }))
        }
        _ => Err(LineFault::B2),
    }
}

// point
fn point(words: &[&[u8]]) -> Result<Line, LineFault>
    ensures read { result ≡ point_of (texts_of words.now) }
    ensures written { IfOk result (λ read. NamesWritten read) }
{
    match words {
        [] => Ok(Line::Point),
        _ => Err(LineFault::B2),
    }
}

// otio N
fn otio(words: &[&[u8]]) -> Result<Line, LineFault>
    ensures read { result ≡ otio_of (texts_of words.now) }
    ensures written { IfOk result (λ read. NamesWritten read) }
{
    match words {
        [point] => Ok(Line::Otio(numeral(point)?)),
        _ => Err(LineFault::B2),
    }
}

// news N
fn news(words: &[&[u8]]) -> Result<Line, LineFault>
    ensures read { result ≡ news_of (texts_of words.now) }
    ensures written { IfOk result (λ read. NamesWritten read) }
{
    match words {
        [place] => Ok(Line::News(numeral(place)?)),
        _ => Err(LineFault::B2),
    }
}
