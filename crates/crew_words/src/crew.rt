// Who the stations are: a name and a key for each.
ghost use Rattle.std.specs.Prelude.{◌≡◌, ◌<◌, ◌≤◌, ◌&&◌, ◌∷◌, [], length, position, IfErr, IfOk, IfSome, MatchOption, OnOk, bytes_eq};
ghost use Rattle.std.specs.List.{list_any, slice_split};
ghost use Rattle.sha2.specs.Sha256.{sha256};
ghost use Rattle.line_words.specs.Blanks.{words_of};
ghost use Rattle.line_words.specs.Lines.{is_lf};
ghost use Rattle.crew_words.specs.Crews.{IsNoCrew, are_plain, crew_read, has_name, is_hash, is_key, is_name, is_plain, line_read, lines_read, station_of, told_part, with_member};
ghost use Rattle.crew_words.specs.Steps.{Says};
ghost use Rattle.crew_words.specs.declared.crew.CrewFault.TheVariants as faults;

use crate::words::{first_word, without_cr};
use out_of_memory::Memory;
use sha2::{Digest, Sha256};
use std::alloc::{AllocError, AllocFailed, Global};
use std::fmt;
use std::marker::Model;

/// The most bytes of a crew's file: more than 1,000 lines.
pub const MOST_BYTES: usize = 131_072;

// The bounds of a name and of a key, in bytes.
const LONGEST_NAME: usize = 32;

const SHORTEST_KEY: usize = 16;

const LONGEST_KEY: usize = 64;

/// Why a text is no crew.
#[derive(Clone, Copy, Debug, PartialEq, Eq)]
pub enum CrewFault {
    /// The line of this number, from 1, is no name and key.
    Line(u32),
    /// The line of this number has the name of a line before it.
    Twice(u32),
    /// It has so many members, and as many stations are wanted.
    Few(usize, u32),
    /// It has more than `MOST_BYTES`.
    Long,
    /// There is no memory for it.
    Memory,
}

impl fmt::Display for CrewFault {
    fn fmt<W: fmt::Write>(&self, f: &mut fmt::Formatter<W>) -> fmt::Result {
        match self {
            CrewFault::Line(number) => write!(
                f,
                "line {number} is no NAME KEY: a name has 1 to 32 of letters, digits, `.`, `_` and `-`, a key 16 to 64"
            ),
            CrewFault::Twice(number) => write!(f, "line {number} has a name that stands before"),
            CrewFault::Few(there, wanted) => {
                write!(f, "it has {there} lines, and there are {wanted} stations")
            }
            CrewFault::Long => f.write_str("it has more than 131072 bytes"),
            CrewFault::Memory => f.write_str("out of memory"),
        }
    }
}

impl From<AllocError> for CrewFault {
    ghost from_gives = { λ _ e. e ≡ faults.Memory };

    fn from(_: AllocError) -> CrewFault {
        CrewFault::Memory
    }
}

impl<T: Drop> From<AllocFailed<T>> for CrewFault {
    ghost from_gives = { λ _ e. e ≡ faults.Memory };

    fn from(_: AllocFailed<T>) -> CrewFault {
        CrewFault::Memory
    }
}

impl From<Memory> for CrewFault {
    ghost from_gives = { λ _ e. e ≡ faults.Memory };

    fn from(_: Memory) -> CrewFault {
        CrewFault::Memory
    }
}

/// A station: its name, and the SHA-256 sum of its key.
#[derive(Drop)]
pub(crate) struct Member {
    name: Vec<u8>,
    sum: [u8; 32],
}

impl Model for Member {
    ghost use Rattle.crew_words.specs.Crews.{MemberState};

    ghost Value = { MemberState };

    ghost view = { λ m. record { name = m.name.items; sum = m.sum } };
}

impl Member {
    // A member of this name and key.
    fn new(alloc: Global, name: &[u8], key: &[u8]) -> Result<Self, CrewFault>
        ensures ok { IfOk result (λ m. m ≡ record { name = name.now; sum = sha256 key.now }) }
        ensures err { IfErr result (λ e. e ≡ faults.Memory) }
    {
        let name = name.to_vec(alloc)?;
        Ok(Member {
            name,
            sum: Sha256::digest(key),
        })
    }

    // Whether this is its name.
    fn has_name(&self, name: &[u8]) -> bool
        ensures { result ≡ has_name name.now self.now }
    {
        self.name.as_slice() == name
    }

    // Whether this is its name, and the sum that of its key.
    fn is(&self, name: &[u8], sum: &[u8; 32]) -> bool
        ensures { result ≡ (bytes_eq self.now.name name.now && bytes_eq self.now.sum sum.now) }
    {
        self.has_name(name) && are_one(&self.sum, sum)
    }
}

// Whether two sums are one. All their bytes are looked at, so the time that it takes tells nothing of them.
fn are_one(first: &[u8; 32], second: &[u8; 32]) -> bool
    ensures { result ≡ bytes_eq first.now second.now }
{
    let mut is_one = true;
    for at in 0..32usize {
        is_one &= first[at] == second[at];
    }
    is_one
}

/// The stations in order. A key is kept as its SHA-256 sum alone. To contracts it is the list of its members.
#[derive(Drop)]
pub struct Crew {
    members: Vec<Member>,
}

impl Model for Crew {
    ghost use Rattle.std.specs.Prelude.{List};
    ghost use Rattle.crew_words.specs.Crews.{MemberState};

    ghost Value = { List MemberState };

    ghost view = { λ c. c.members.items };
}

/// Reads a crew: a line `NAME KEY` for each station in order. Blank lines and what stands from `#` on do not count. More
/// members than there are stations have no seat.
pub fn crew_of(alloc: Global, text: &[u8], stations: u32) -> Result<Crew, CrewFault>
    ensures crew { IfOk result (λ crew. crew_read stations text.now ≡ Ok crew) }
    ensures fault { IfErr result (IsNoCrew (crew_read stations text.now)) }
{
    if text.len() > MOST_BYTES {
        return Err(CrewFault::Long);
    }
    let mut crew = Crew {
        members: Vec::new(alloc),
    };
    crew.read_lines(alloc, text)?;
    let there = crew.members.len();
    if there < stations as usize {
        return Err(CrewFault::Few(there, stations));
    }
    Ok(crew)
}

// What counts of a line: what stands before its first `#`, without a carriage return at its end.
fn told_part(line: &[u8]) -> &[u8]
    ensures { result.now ≡ told_part line.now }
{
    match hash_at(line) {
        Some(at) => without_cr(&line[..at]),
        None => without_cr(line),
    }
}

// The place of the first `#`, or `None` where there is none.
fn hash_at(line: &[u8]) -> Option<usize>
    ensures at { result ≡ position is_hash line.now }
    ensures within { IfSome result (λ at. at < length line.now) }
{
    line.iter().position(|byte| *byte == b'#')
}

// The place of the first line feed, or `None` where there is none.
fn lf_at(text: &[u8]) -> Option<usize>
    ensures at { result ≡ position is_lf text.now }
    ensures within { IfSome result (λ at. at < length text.now) }
{
    text.iter().position(|byte| *byte == b'\n')
}

// The first line of a text, without its line feed, and what stands after that; `None` where there is no line feed.
fn first_line(text: &[u8]) -> Option<(&[u8], &[u8])>
    ensures lines { MatchOption result (slice_split is_lf text.now ≡ text.now ∷ [])
        (λ l. slice_split is_lf text.now ≡ l.0.now ∷ slice_split is_lf l.1.now) }
    ensures shorter { IfSome result (λ l. length l.1.now < length text.now) }
{
    match lf_at(text) {
        Some(at) => {
            let (line, _) = text.split_at(at);
            let (_, after) = text.split_at(at + 1);
            Some((line, after))
        }
        None => None,
    }
}

// What a line says.
#[derive(Clone, Copy, Debug)]
pub(crate) enum Said<'a> {
    // It has no word.
    Nothing,
    // It has these two.
    Pair(&'a [u8], &'a [u8]),
    // It has one, or more than two.
    Other,
}

// What the words of a line say.
fn said_in(line: &[u8]) -> Said<'_>
    ensures { Says (words_of line.now) result }
{
    let (name, rest) = match first_word(line) {
        Some(found) => found,
        None => return Said::Nothing,
    };
    let (key, rest) = match first_word(rest) {
        Some(found) => found,
        None => return Said::Other,
    };
    match first_word(rest) {
        Some(_) => Said::Other,
        None => Said::Pair(name, key),
    }
}

impl Crew {
    // Reads all lines of a text.
    fn read_lines(&mut self, alloc: Global, text: &[u8]) -> Result<(), CrewFault>
        requires { length text.now ≤ MOST_BYTES }
        ensures ok { OnOk result (lines_read self.old 1 (slice_split is_lf text.now) ≡ Ok self.new) }
        ensures err { IfErr result (IsNoCrew (lines_read self.old 1 (slice_split is_lf text.now))) }
    {
        let mut rest = text;
        let mut number = 1;
        while let Some((line, after)) = first_line(rest) {
            match self.read_line(alloc, line, number) {
                Ok(()) => {}
                Err(fault) => return Err(fault),
            }
            rest = after;
            number += 1;
        }
        self.read_line(alloc, rest, number)
    }

    // Reads the line of this number.
    fn read_line(&mut self, alloc: Global, line: &[u8], number: u32) -> Result<(), CrewFault>
        ensures ok { OnOk result (line_read self.old number line.now ≡ Ok self.new) }
        ensures err { IfErr result (IsNoCrew (line_read self.old number line.now)) }
    {
        match said_in(told_part(line)) {
            Said::Nothing => Ok(()),
            Said::Pair(name, key) => self.add(alloc, name, key, number),
            Said::Other => Err(CrewFault::Line(number)),
        }
    }

    // Adds the member that the line of this number names.
    fn add(&mut self, alloc: Global, name: &[u8], key: &[u8], number: u32) -> Result<(), CrewFault>
        ensures ok { OnOk result (with_member self.old number name.now key.now ≡ Ok self.new) }
        ensures err { IfErr result (IsNoCrew (with_member self.old number name.now key.now)) }
    {
        let is_sound = is_name(name) && is_key(key);
        if !is_sound {
            return Err(CrewFault::Line(number));
        }
        if self.has(name) {
            return Err(CrewFault::Twice(number));
        }
        let member = Member::new(alloc, name, key)?;
        self.members.push(member)?;
        Ok(())
    }

    // Whether a member has this name.
    fn has(&self, name: &[u8]) -> bool
        ensures { result ≡ list_any (has_name name.now) self.now }
    {
        self.members.iter().any(|member| member.has_name(name))
    }

    /// The number of the station that has this name and this key. How long it takes tells nothing of a key.
    pub fn station(&self, name: &[u8], key: &[u8]) -> Option<usize>
        ensures { result ≡ station_of self.now name.now key.now }
    {
        let sum: [u8; 32] = Sha256::digest(key);
        self.members.iter().position(|member| member.is(name, &sum))
    }
}

// Whether these bytes may be a name.
fn is_name(word: &[u8]) -> bool
    ensures { result ≡ is_name word.now }
{
    !word.is_empty() && word.len() <= LONGEST_NAME && are_plain(word)
}

// Whether these bytes may be a key.
fn is_key(word: &[u8]) -> bool
    ensures { result ≡ is_key word.now }
{
    SHORTEST_KEY <= word.len() && word.len() <= LONGEST_KEY && are_plain(word)
}

// Whether they are letters, digits, `.`, `_` and `-` alone.
fn are_plain(word: &[u8]) -> bool
    ensures { result ≡ are_plain word.now }
{
    word.iter().all(|byte| is_plain(*byte))
}

// Whether it is one of these.
fn is_plain(byte: u8) -> bool
    ensures { result ≡ is_plain byte }
{
    byte.is_ascii_alphanumeric() || byte == b'.' || byte == b'_' || byte == b'-'
}
