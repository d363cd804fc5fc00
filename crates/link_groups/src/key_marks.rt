// Keys of links that were met, to be asked for quickly. What is not marked was not met; what is marked need not have been.
ghost use Rattle.std.specs.Prelude.{◌≡◌, ℕ, nat_eq, false, true};
ghost use Rattle.std.specs.List.{list_any};
ghost use Rattle.link_groups.specs.Keys.{key_place, may_be, may_have, pair_key};
ghost use Rattle.link_groups.specs.Splits.{is_key_of, key_of};

use composables::{Memory, Track, key_of_link};
use frame_meaning::Link;
use std::alloc::Global;

// How many homes keys tell apart, and how many numbers of each.
const KEY_HOMES: usize = 32;

const KEY_NUMBERS: u32 = 134_217_728;

// The homes share a row of at most so many marks.
const MOST_MARKS: u32 = 1_048_576;

/// A set of keys, marked in a row of which each home has a part. A key without a place in the row counts as marked.
#[derive(Drop)]
pub struct KeyMarks {
    pub(crate) parts: [u32; 32],
    pub(crate) row: Vec<bool>,
}

impl KeyMarks {
    /// No keys. There is a place for each link that one of these tracks gave its number, as far as the row reaches.
    pub fn of(alloc: Global, named: &[Track]) -> Result<KeyMarks, Memory> {
        let mut parts = [u32::MAX; KEY_HOMES];
        let mut count: u32 = 0;
        for track in named {
            if (track.number() as usize) < KEY_HOMES {
                parts[track.number() as usize] = count;
                count = count.saturating_add(track.next_link());
            }
        }
        let mut row = Vec::new(alloc);
        row.resize(count.min(MOST_MARKS) as usize, false)?;
        Ok(KeyMarks { parts, row })
    }

    /// Each key counts as marked. It takes no memory.
    pub fn all(alloc: Global) -> KeyMarks
        ensures { (k : ℕ) → may_have result k ≡ true }
    {
        let row = Vec::new(alloc);
        KeyMarks {
            parts: [0; KEY_HOMES],
            row,
        }
    }

    /// Marks these keys.
    pub fn mark_all(&mut self, keys: &[u32])
        ensures grows { (k : ℕ) → may_have self.old k ≡ true → may_have self.new k ≡ true }
        ensures marked { (k : ℕ) → list_any (nat_eq k) keys.now ≡ true
            → may_have self.new k ≡ true }
    {
        mark_keys(&self.parts, self.row.as_mut_slice(), keys)
    }

    /// Marks the key of a link, if there is one.
    pub fn mark_link(&mut self, link: Option<Link>)
        ensures grows { (k : ℕ) → may_have self.old k ≡ true → may_have self.new k ≡ true }
        ensures marked { (q : ℕ × ℕ) → is_key_of q link ≡ true
            → may_have self.new (pair_key q) ≡ true }
    {
        match link {
            Some(link) => mark_key(&self.parts, self.row.as_mut_slice(), key_of_link(link)),
            None => {}
        }
    }

    /// Marks the key of the links with this home and number.
    pub fn mark_pair(&mut self, pair: (u32, u32))
        ensures grows { (k : ℕ) → may_have self.old k ≡ true → may_have self.new k ≡ true }
        ensures marked { may_have self.new (pair_key pair) ≡ true }
    {
        let (home, number) = pair;
        let tracks = 0;
        let link = Link {
            home,
            number,
            tracks,
        };
        mark_key(&self.parts, self.row.as_mut_slice(), key_of_link(link))
    }

    /// Whether one of these keys may be marked.
    pub fn may_have_any(&self, keys: &[u32]) -> bool
        ensures { result ≡ list_any (may_have self.now) keys.now }
    {
        may_be_any(&self.parts, self.row.as_slice(), keys)
    }

    /// Whether the key of a link may be marked.
    pub fn may_have_link(&self, link: Link) -> bool
        ensures { result ≡ may_have self.now (pair_key (key_of link)) }
    {
        may_be(&self.parts, self.row.as_slice(), key_of_link(link))
    }
}

// The place of a key in the row.
fn place_of(parts: &[u32; 32], key: u32) -> usize
    ensures { result ≡ key_place parts.now key }
{
    parts[(key / KEY_NUMBERS % 32) as usize] as usize + (key % KEY_NUMBERS) as usize
}

// Marks a key.
fn mark_key(parts: &[u32; 32], row: &mut [bool], key: u32)
    ensures grows { (k : ℕ) → may_be parts.now row.old k ≡ true
        → may_be parts.now row.new k ≡ true }
    ensures marked { may_be parts.now row.new key ≡ true }
{
    let place = place_of(parts, key);
    if place < row.len() {
        row[place] = true;
    }
}

// Marks these keys.
fn mark_keys(parts: &[u32; 32], row: &mut [bool], keys: &[u32])
    ensures grows { (k : ℕ) → may_be parts.now row.old k ≡ true
        → may_be parts.now row.new k ≡ true }
    ensures marked { (k : ℕ) → list_any (nat_eq k) keys.now ≡ true
        → may_be parts.now row.new k ≡ true }
{
    for key in keys {
        mark_key(parts, row, *key);
    }
}

// Whether a key may be marked.
fn may_be(parts: &[u32; 32], row: &[bool], key: u32) -> bool
    ensures { result ≡ may_be parts.now row.now key }
{
    match row.get(place_of(parts, key)) {
        Some(mark) => *mark,
        None => true,
    }
}

// Whether one of these keys may be marked.
fn may_be_any(parts: &[u32; 32], row: &[bool], keys: &[u32]) -> bool
    ensures { result ≡ list_any (may_be parts.now row.now) keys.now }
{
    let mut found = false;
    for key in keys {
        found |= may_be(parts, row, *key);
    }
    found
}
