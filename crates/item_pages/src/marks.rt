// What a page keeps of the numbers and sets of its items. What has no mark is on no item of the page; what has one need
// not be on any.
ghost use Rattle.std.specs.Prelude.{◌≡◌, ℕ, ◌<◌, ◌^◌, Option, false};
ghost use Rattle.item_pages.specs.Wants.{IsWithin, Tells, Unwanted};
ghost use Rattle.item_pages.specs.Summary.{Grows, Holds, HoldsEach, Marked, MarksNumber};

use crate::{Number, Spanned, Wanted};

/// Marks: the least and the greatest number, 256 bits of which number n has bit n % 256, and the bits of all sets.
#[derive(Clone, Copy)]
pub struct Marks {
    least: u32,
    greatest: u32,
    words: [u64; 4],
    all: u64,
}

impl Marks {
    /// The marks of no items.
    pub fn none() -> Marks {
        Marks {
            least: u32::MAX,
            greatest: 0,
            words: [0; 4],
            all: 0,
        }
    }

    /// Marks what is known of a number.
    pub fn add_number(&mut self, number: Number)
        ensures grows { Grows self.old self.new }
        ensures marked { (o : Option ℕ) → Tells o number → MarksNumber self.new o }
    {
        match number {
            Number::Unknown => self.mark_each(),
            Number::Without => {}
            Number::Is(number) => self.mark(number),
        }
    }

    // Marks a number.
    fn mark(&mut self, number: u32)
        ensures grows { Grows self.old self.new }
        ensures marked { Marked self.new number }
    {
        self.least = self.least.min(number);
        self.greatest = self.greatest.max(number);
        self.words[(number / 64 % 4) as usize] |= 1 << (number % 64);
    }

    // Marks each number.
    fn mark_each(&mut self)
        ensures grows { Grows self.old self.new }
        ensures marked { (n : ℕ) → n < 2 ^ 32 → Marked self.new n }
    {
        *self = Marks {
            least: 0,
            greatest: u32::MAX,
            words: [u64::MAX; 4],
            all: self.all,
        };
    }

    /// Marks the bits of a set.
    pub fn add_bits(&mut self, bits: u64)
        ensures grows { Grows self.old self.new }
        ensures marked { IsWithin bits self.new.all }
    {
        self.all |= bits;
    }

    /// Whether an item of these marks may be wanted. False only where none is.
    pub fn may_have(&self, wanted: Wanted) -> bool
        ensures { result ≡ false → (o : Option ℕ) → (set : ℕ)
            → Holds self.now o set → Unwanted wanted o set }
    {
        match wanted {
            Wanted::Numbered(number) => self.has(number),
            Wanted::Beyond(bits) => self.all | bits != bits,
        }
    }

    // Whether a number has its mark.
    fn has(&self, number: u32) -> bool
        ensures { result ≡ false → Marked self.now number → ⊥ }
    {
        if number < self.least || self.greatest < number {
            return false;
        }
        let word = self.words[(number / 64 % 4) as usize];
        (word >> (number % 64)) & 1 == 1
    }
}

/// The marks of these items.
pub fn marks_of<T: Spanned>(items: &[T]) -> Marks
    ensures { HoldsEach T.numbered T.set result items.now }
{
    let mut marks = Marks::none();
    for item in items {
        marks.add_number(item.number());
        marks.add_bits(item.bits());
    }
    marks
}
