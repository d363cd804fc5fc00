// Links that were met, to be asked for by home and number.
ghost use Rattle.std.specs.Prelude.{◌≡◌, ◌<◌, ℕ, ◌||◌, OnOk, IfOk, Some, false, length, nat_eq, slice_get};
ghost use Rattle.std.specs.BTreeSet.{contains};
ghost use Rattle.link_groups.specs.Marks.{in_row, is_marked, row_has};
ghost use Rattle.link_groups.specs.Splits.{is_key_of, key_cmp, key_of};

use composables::Memory;
use frame_meaning::Link;
use std::alloc::Global;
use std::collections::BTreeSet;

// Links whose home is below this, and whose number is below the next, are marked in rows.
const ROW_HOMES: u32 = 32;

// How many numbers a row has at most.
const ROW_NUMBERS: u32 = 65_536;

// A row grows by so many numbers.
const ROW_STEP: usize = 4_096;

/// A set of links, told apart by home and number. Small numbers are marked in a row of their home, as far as it reaches;
/// the others stand in order.
#[derive(Drop)]
pub struct LinkMarks {
    pub(crate) rows: Vec<Vec<bool>>,
    pub(crate) others: BTreeSet<(u32, u32)>,
}

impl LinkMarks {
    /// No links.
    pub fn new(alloc: Global) -> Result<LinkMarks, Memory>
        ensures { IfOk result (λ m. (q : ℕ × ℕ) → is_marked m q ≡ false) }
    {
        let mut rows = Vec::with_capacity(alloc, ROW_HOMES as usize)?;
        for _ in 0..ROW_HOMES {
            rows.push(Vec::new(alloc))?;
        }
        Ok(LinkMarks {
            rows,
            others: BTreeSet::new(alloc),
        })
    }

    /// Adds a link, if there is one.
    pub fn add(&mut self, link: Option<Link>) -> Result<(), Memory>
        ensures { OnOk result ((q : ℕ × ℕ) → is_marked self.new q
            ≡ (is_marked self.old q || is_key_of q link)) }
    {
        match link {
            Some(link) => self.add_one(link),
            None => Ok(()),
        }
    }

    // Adds this link: to the row of its home, or to those that stand in order.
    fn add_one(&mut self, link: Link) -> Result<(), Memory>
        ensures { OnOk result ((q : ℕ × ℕ) → is_marked self.new q
            ≡ (is_marked self.old q || is_key_of q (Some link))) }
    {
        if (link.home as usize) < self.rows.len() && link.number < ROW_NUMBERS {
            mark(&mut self.rows[link.home as usize], link.number)?;
            return Ok(());
        }
        add_key(&mut self.others, link)
    }

    /// Whether it has this link.
    pub fn holds(&self, link: Link) -> bool
        ensures { result ≡ is_marked self.now (key_of link) }
    {
        self.in_row(link) || self.others.contains(&(link.home, link.number))
    }

    // Whether the link is marked in the row of its home, if that has one.
    fn in_row(&self, link: Link) -> bool
        ensures { result ≡ in_row (slice_get self.now.rows.items link.home) link.number }
    {
        match self.rows.get(link.home as usize) {
            Some(row) => row_has(row, link.number as usize),
            None => false,
        }
    }
}

// Whether a number is marked in a row. One past the row's end is not.
fn row_has(row: &[bool], number: usize) -> bool
    ensures { result ≡ row_has row.now number }
{
    match row.get(number) {
        Some(mark) => *mark,
        None => false,
    }
}

// Marks a number in a row.
fn mark(row: &mut Vec<bool>, number: u32) -> Result<(), Memory>
    requires { number < ROW_NUMBERS }
    ensures { OnOk result ((n : ℕ) → row_has row.new.items n
        ≡ (row_has row.old.items n || nat_eq n number)) }
{
    reach(row, number as usize)?;
    row[number as usize] = true;
    Ok(())
}

// Makes a row long enough for a number.
fn reach(row: &mut Vec<bool>, number: usize) -> Result<(), Memory>
    requires { number < ROW_NUMBERS }
    ensures marks { OnOk result ((n : ℕ) → row_has row.new.items n ≡ row_has row.old.items n) }
    ensures long { OnOk result (number < length row.new.items) }
{
    if number < row.len() {
        return Ok(());
    }
    row.resize((number / ROW_STEP + 1) * ROW_STEP, false)?;
    Ok(())
}

// Adds a link to those that stand in order.
fn add_key(others: &mut BTreeSet<(u32, u32)>, link: Link) -> Result<(), Memory>
    ensures { OnOk result ((q : ℕ × ℕ) → contains key_cmp others.new q
        ≡ (contains key_cmp others.old q || is_key_of q (Some link))) }
{
    others.insert((link.home, link.number))?;
    Ok(())
}
