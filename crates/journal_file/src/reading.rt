// The records of a kept file.
ghost use Rattle.std.specs.Prelude.{◌≡◌, ◌<◌, ◌≤◌, ◌+◌, ◌++◌, ◌∷◌, ◌^◌, List, ℕ, [], length, position};
ghost use Rattle.std.specs.Prelude.{◌↔◌, Some, None, IfOk, IfErr, IfSome, IsNone, IsTrue};
ghost use Rattle.std.specs.List.{AllByRecursion};
ghost use Rattle.journal_file.specs.Layout.{IsLine, record_of, records_of, NoRecord, front_of, HasLines};
ghost use Rattle.journal_file.specs.Reading.{is_lf, HasGateAt, HasCountAt, Begins, IsReadFault};

use crate::{MOST_RECORDS, OpenFault, Record};
use room_ports::Memory;
use std::alloc::Global;

/// The bytes that a kept file begins with.
pub(crate) const HEADER: [u8; 18] = *b"cutroom journal 1\n";

/// The most bytes of a record's line.
pub const MOST_LINE: usize = 1024;

/// Whether an append takes these bytes as its line: 1 to 1,024 of them, and no line feed.
pub fn is_line(bytes: &[u8]) -> bool
    ensures { IsTrue result ↔ IsLine bytes.now }
{
    match lf_at(bytes) {
        Some(_) => false,
        None => is_length(bytes.len()),
    }
}

// Whether a line may have this many bytes: 1 to 1,024.
fn is_length(len: usize) -> bool
    ensures { IsTrue result ↔ (0 < len) × (len ≤ 1024) }
{
    0 < len && len <= MOST_LINE
}

// The records of a file that is not new, and the place of its gate. They are counted before any is copied.
pub fn records_in(alloc: Global, bytes: &[u8]) -> Result<(Vec<Record>, usize), OpenFault>
    requires long { 19 < length bytes.now }
    requires short { length bytes.now < 2 ^ 32 }
    ensures kept { IfOk result (λ r. HasGateAt bytes.now r.0.items r.1) }
    ensures few { IfOk result (λ r. length r.0.items ≤ 100000) }
    ensures fault { IfErr result (IsReadFault bytes.now) }
{
    let (count, gate) = measured(bytes)?;
    if count > MOST_RECORDS {
        return Err(OpenFault::TooMany(count));
    }
    let (_, rest) = bytes.split_at(HEADER.len());
    let (records, _) = whole_records(alloc, rest)?;
    Ok((records, gate))
}

// How many records a file has that is not new, and the place of its gate.
fn measured(bytes: &[u8]) -> Result<(u32, usize), OpenFault>
    requires long { 19 < length bytes.now }
    requires short { length bytes.now < 2 ^ 32 }
    ensures kept { IfOk result (λ r. HasCountAt bytes.now r.0 r.1) }
    ensures fault { IfErr result (IsReadFault bytes.now) }
{
    let (header, rest) = bytes.split_at(HEADER.len());
    if header != HEADER.as_slice() {
        return Err(OpenFault::Damaged(0));
    }
    let (count, rest) = behind_records(rest);
    let end = bytes.len() - rest.len();
    match rest.first() {
        Some(gate) => {
            if *gate == b'+' {
                return Err(OpenFault::Damaged(end as u32));
            }
            Ok((count, end))
        }
        None => Err(OpenFault::Damaged(end as u32)),
    }
}

// How many whole records begin these bytes, and what is after them.
#[tactic(auto, using(crate::proofs::Counting::begins_nothing, crate::proofs::Counting::begins_more, crate::proofs::Counting::fewer_left))]
fn behind_records(bytes: &[u8]) -> (u32, &[u8])
    requires { length bytes.now < 2 ^ 32 }
    ensures begins { Begins bytes.now result.0 result.1.now }
    ensures no_more { NoRecord result.1.now }
    ensures shorter { length result.1.now ≤ length bytes.now }
{
    let mut count: u32 = 0;
    let mut rest = bytes;
    while let Some((_, behind)) = first_record(rest) {
        count += 1;
        rest = behind;
    }
    (count, rest)
}

// The whole records that begin these bytes, and what is after them.
fn whole_records(alloc: Global, bytes: &[u8]) -> Result<(Vec<Record>, &[u8]), Memory>
    ensures lines { IfOk result (λ r. AllByRecursion IsLine r.0.items) }
    ensures parts { IfOk result (λ r. bytes.now ≡ records_of r.0.items ++ r.1.now) }
    ensures no_more { IfOk result (λ r. NoRecord r.1.now) }
{
    let mut records = Vec::new(alloc);
    let mut rest = bytes;
    while let Some((line, behind)) = first_record(rest) {
        records.push(Record::new(alloc, line)?)?;
        rest = behind;
    }
    Ok((records, rest))
}

// The line of the record that begins these bytes, and what is after the record; `None` where
// no whole record begins there.
fn first_record(bytes: &[u8]) -> Option<(&[u8], &[u8])>
    ensures some { IfSome result (λ r. IsLine r.0.now
        × (bytes.now ≡ record_of r.0.now ++ r.1.now)) }
    ensures none { IsNone result → NoRecord bytes.now }
{
    match bytes {
        [b'+', more @ ..] => first_line(more),
        _ => None,
    }
}

// The line that begins these bytes, and what is after its line feed; `None` where none ends there.
fn first_line(bytes: &[u8]) -> Option<(&[u8], &[u8])>
    ensures some { IfSome result (λ r. IsLine r.0.now × (bytes.now ≡ r.0.now ++ 10 ∷ r.1.now)) }
    ensures none { IsNone result → (line after : List ℕ) → IsLine line
        → bytes.now ≡ line ++ 10 ∷ after → ⊥ }
{
    let end = match lf_at(bytes) {
        Some(end) => end,
        None => return None,
    };
    if end == 0 {
        return None;
    }
    if end > MOST_LINE {
        return None;
    }
    let (line, rest) = bytes.split_at(end);
    let (_, behind) = rest.split_at(1);
    Some((line, behind))
}

// The place of the first line feed, or `None` where there is none.
fn lf_at(bytes: &[u8]) -> Option<usize>
    ensures at { result ≡ position is_lf bytes.now }
    ensures within { IfSome result (λ i. i < length bytes.now) }
{
    bytes.iter().position(|byte| *byte == b'\n')
}
