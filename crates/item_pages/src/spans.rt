// Items that span places, and what a list may be searched for.
ghost use Rattle.std.specs.Prelude.{◌≡◌, ℕ, Option, None};
ghost use Rattle.item_pages.specs.Wants.{Tells, IsWithin};

/// An item of a list of pages, which spans places one after another, or none. It may have a number, and a set of
/// numbers below 64.
pub trait Spanned {
    /// How many places it spans.
    ghost places: { Self → ℕ };

    /// The number that it has, if it has one.
    ghost numbered: { Self → Option ℕ } = { λ _. None };

    /// Its set: bit i of it stands for i.
    ghost set: { Self → ℕ } = { λ _. 0 };

    /// The key that it has, if it has one: a number by which it may be looked for, as others may be too.
    ghost keyed: { Self → Option ℕ } = { λ _. None };

    /// How many places it spans, which 32 bits hold.
    fn span(&self) -> u32
        ensures { result ≡ places self.now };

    /// What pages keep of its number: by default that it may be any.
    fn number(&self) -> Number
        ensures { Tells (numbered self.now) result }
    {
        Number::Unknown
    }

    /// What pages keep of its set: bit i stands for i. There may be more than it has; by default all.
    fn bits(&self) -> u64
        ensures { IsWithin (set self.now) result }
    {
        u64::MAX
    }

    /// What pages keep of its key: by default that it may be any.
    fn key(&self) -> Number
        ensures { Tells (keyed self.now) result }
    {
        Number::Unknown
    }
}

/// What is known of the number of an item: nothing, that it has none, or which it is.
#[derive(Clone, Copy, Debug, PartialEq, Eq)]
pub enum Number {
    /// Nothing is known.
    Unknown,
    /// It has no number.
    Without,
    /// It has this number.
    Is(u32),
}

/// What a list is searched for: an item with this number, or one whose set has more than these bits.
#[derive(Clone, Copy, Debug, PartialEq, Eq)]
pub enum Wanted {
    /// An item with this number.
    Numbered(u32),
    /// An item whose set has a bit that is not one of these.
    Beyond(u64),
}

/// Items that were passed by.
#[derive(Clone, Copy, Debug, PartialEq, Eq)]
pub struct Passed {
    /// How many they are.
    pub count: u32,
    /// How many places they span.
    pub places: u32,
}

/// The item that holds a place: its index, and the place at which it begins.
#[derive(Clone, Copy, Debug, PartialEq, Eq)]
pub struct Found {
    /// The index of the item in its list.
    pub index: u32,
    /// The first place that it spans.
    pub from: u32,
}
