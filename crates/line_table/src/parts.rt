// The parts of a line.
ghost use Rattle.std.specs.Prelude.{◌≡◌, ◌<◌, ◌≤◌, ◌∷◌, All, FitsSigned, IfOk, IfSome, length, option_map, position};
ghost use Rattle.std.specs.Int.{w32};
ghost use Rattle.std.specs.List.{slice_split};
ghost use Rattle.composables.specs.TrackSets.{tracks_in};
ghost use Rattle.line_table.specs.CallTexts.{IsSmall};
ghost use Rattle.line_table.specs.Labels.{place_by};
ghost use Rattle.line_table.specs.Reading.{texts_of};
ghost use Rattle.line_table.specs.Spelling.{IsOrMemory, numeral_of, delta_of, end_of, given_of, keep_of, filled_of, numbers_of, track_of, is_comma, listed_in, tracks_of, place_of, what_of};

use crate::LineFault;
use crate::labels::label_place;
use composables::{End, FillLength, Numbers, has_track};
use frame_meaning::What;
use line_words::{NumberFault, number, signed};
use std::alloc::Global;
use timecode12::Counting;

/// The greatest number of a track that a line can name.
pub const LAST_TRACK: u32 = 31;

// A number: B3 where the word is no decimal digits, B4 where it is over 32 bits.
pub(crate) fn numeral(word: &[u8]) -> Result<u32, LineFault>
    ensures { result ≡ numeral_of word.now }
{
    Ok(number(word)?)
}

// A count of frames with its sign: B3 where the word is none, B4 where it is outside of 32 bits.
pub(crate) fn delta(word: &[u8]) -> Result<i32, LineFault>
    ensures read { result ≡ delta_of word.now }
    ensures fits { IfOk result (λ by. FitsSigned w32 by) }
{
    Ok(signed(word)?)
}

// An end of an item, `head` or `tail`; any other word is B1.
pub(crate) fn end(word: &[u8]) -> Result<End, LineFault>
    ensures { result ≡ end_of word.now }
{
    if word == b"head".as_slice() {
        Ok(End::Head)
    } else if word == b"tail".as_slice() {
        Ok(End::Tail)
    } else {
        Err(LineFault::B1)
    }
}

// Refuses any word but this one, as B1.
fn given(word: &[u8], given: &[u8]) -> Result<(), LineFault>
    ensures { result ≡ given_of given.now word.now }
{
    if word == given {
        Ok(())
    } else {
        Err(LineFault::B1)
    }
}

// Whether dissolves are kept, by what stands after a row: nothing, or `keep`.
pub(crate) fn keep(rest: &[&[u8]]) -> Result<bool, LineFault>
    ensures { result ≡ keep_of (texts_of rest.now) }
{
    match rest {
        [] => Ok(false),
        [word, ..] => {
            given(word, b"keep")?;
            Ok(true)
        }
    }
}

// How much is filled, and whether dissolves are kept.
pub(crate) fn filled(how: &[u8], rest: &[&[u8]]) -> Result<(FillLength, bool), LineFault>
    ensures { result ≡ filled_of how.now (texts_of rest.now) }
{
    if rest.len() < 2 && how == b"sequence".as_slice() {
        return Ok((FillLength::Sequence, keep(rest)?));
    }
    match rest {
        [] => Err(LineFault::B1),
        [len, rest @ ..] => {
            given(how, b"source")?;
            let length = FillLength::Source(numeral(len)?);
            Ok((length, keep(rest)?))
        }
    }
}

// The number of a track, up to 31; a greater one is B4.
pub(crate) fn track(word: &[u8]) -> Result<u32, LineFault>
    ensures read { result ≡ track_of word.now }
    ensures bound { IfOk result (λ track. track ≤ LAST_TRACK) }
{
    let track = numeral(word)?;
    if track > LAST_TRACK {
        return Err(LineFault::B4);
    }
    Ok(track)
}

// A set of tracks, bit t for track t, of a list that rises strictly; one that does not is B6.
pub(crate) fn tracks(list: &[u8]) -> Result<u32, LineFault>
    ensures read { result ≡ tracks_of list.now }
    ensures some { IfOk result (λ set. 0 < set) }
{
    let mut set = 0;
    let mut least = 0;
    let mut rest = Some(list);
    while let Some(listed) = rest {
        let (word, more) = first_listed(listed);
        let track = track(word)?;
        if track < least {
            return Err(LineFault::B6);
        }
        set += 1 << track;
        least = track + 1;
        rest = more;
    }
    Ok(set)
}

// Numbers, parted by commas, or the fault of the first that is none. It takes memory for them.
pub(crate) fn numbers(alloc: Global, list: &[u8]) -> Result<Numbers, LineFault>
    ensures read { IsOrMemory (numbers_of list.now) result }
    ensures small { IfOk result (λ numbers. All IsSmall numbers) }
{
    let mut numbers = Vec::new(alloc);
    let mut rest = Some(list);
    while let Some(listed) = rest {
        let (word, more) = first_listed(listed);
        let number = numeral(word)?;
        numbers.push(number)?;
        rest = more;
    }
    Ok(Numbers::from_vec(numbers))
}

// How many tracks a set has.
pub(crate) fn track_count(tracks: u32) -> usize
    ensures { result ≡ length (tracks_in tracks) }
{
    let mut count = 0;
    for track in 0..32 {
        if has_track(tracks, track) {
            count += 1;
        }
    }
    count
}

// What stands before the first comma of a list, and the list after it, where there is a comma.
fn first_listed(list: &[u8]) -> (&[u8], Option<&[u8]>)
    ensures words { slice_split is_comma list.now
        ≡ result.0.now ∷ listed_in (option_map (λ more. more.now) result.1) }
    ensures less { IfSome result.1 (λ more. length more.now < length list.now) }
{
    match comma_at(list) {
        Some(at) => {
            let (_, more) = list.split_at(at + 1);
            (&list[..at], Some(more))
        }
        None => (list, None),
    }
}

// Where the first comma stands, if there is one.
fn comma_at(list: &[u8]) -> Option<usize>
    ensures at { result ≡ position is_comma list.now }
    ensures within { IfSome result (λ at. at < length list.now) }
{
    list.iter().position(|byte| *byte == b',')
}

// A place in record frames from the start, given as a number or as a label: B3 where the word is neither, B4 where the
// number is over 32 bits.
pub(crate) fn place(word: &[u8], counting: &Counting, start: u32) -> Result<u32, LineFault>
    ensures { result ≡ place_of (place_by counting.now start) word.now }
{
    match number(word) {
        Ok(place) => Ok(place),
        Err(NumberFault::TooLarge) => Err(LineFault::B4),
        Err(NumberFault::NotANumber) => label_place(word, counting, start).ok_or(LineFault::B3),
    }
}

// A thing: `@` and the number of a media entry, or `#` and that of a nest; any other word is B3.
pub(crate) fn what(word: &[u8]) -> Result<What, LineFault>
    ensures { result ≡ what_of word.now }
{
    match word {
        [b'@', digits @ ..] => Ok(What::Media(numeral(digits)?)),
        [b'#', digits @ ..] => Ok(What::Nest(numeral(digits)?)),
        _ => Err(LineFault::B3),
    }
}
