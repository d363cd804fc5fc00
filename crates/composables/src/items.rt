// Items and gaps, and where they stand.
ghost use Rattle.std.specs.Prelude.{◌≡◌, ◌<◌, Some};
ghost use Rattle.item_pages.specs.Wants.{IsWithin, Tells};
ghost use Rattle.composables.specs.Views.{clip_view, first_view, gap_view, later_view};
ghost use Rattle.composables.specs.TrackFacts.{HasSource};
ghost use Rattle.composables.specs.TrackSets.{link_bits, link_key};

use frame_meaning::{Link, Mark, Side, What};
use item_pages::{Number, Spanned};

/// An item or a gap: its number, or none of a gap; what its first frame shows; its length in frames; the dissolve at
/// the cut before it; and its link.
#[derive(Clone, Copy, Debug, PartialEq, Eq)]
pub struct ItemView {
    pub item: Option<u32>,
    pub first: Side<What>,
    pub len: u32,
    pub mark: Option<Mark>,
    pub link: Option<Link>,
}

impl ItemView {
    /// A gap of this many frames, with no dissolve before it.
    pub fn gap(len: u32) -> ItemView
        ensures { result ≡ gap_view len }
    {
        ItemView {
            item: None,
            first: Side::Dark,
            len,
            mark: None,
            link: None,
        }
    }

    /// An item with this number, which shows the source frames [from, from + len) of a thing, with no dissolve before
    /// it and no link.
    pub fn clip(number: u32, what: What, from: u32, len: u32) -> ItemView
        ensures { result ≡ clip_view number what from len }
    {
        ItemView {
            item: Some(number),
            first: Side::Pic { what, source: from },
            len,
            mark: None,
            link: None,
        }
    }

    /// Its first frames, this many, with the dissolve before it.
    pub fn first_frames(&self, len: u32) -> ItemView
        ensures { result ≡ first_view self.now len }
    {
        ItemView { len, ..*self }
    }

    /// What is left without its first `by` frames, and without a dissolve before it.
    pub fn later(&self, by: u32) -> ItemView
        requires within { by < self.now.len }
        requires source { HasSource self.now.first self.now.len 0 0 }
        ensures { result ≡ later_view self.now by }
    {
        ItemView {
            first: self.first.later(by),
            len: self.len - by,
            mark: None,
            ..*self
        }
    }
}

impl Spanned for ItemView {
    ghost places = { λ v. v.len };

    ghost numbered = { λ v. v.item };

    ghost set = { λ v. link_bits v.link };

    ghost keyed = { λ v. link_key v.link };

    /// Its length in frames.
    fn span(&self) -> u32 {
        self.len
    }

    /// Its number. A gap has none.
    fn number(&self) -> Number {
        match self.item {
            Some(number) => Number::Is(number),
            None => Number::Without,
        }
    }

    /// The bits of its link: those of its tracks, and one more that tells that there is one.
    fn bits(&self) -> u64 {
        known_bits(self.link)
    }

    /// The key of its link, if it has one.
    fn key(&self) -> Number {
        known_key(self.link)
    }
}

// What pages keep of the key of a link.
fn known_key(link: Option<Link>) -> Number
    ensures { Tells (link_key link) result }
{
    match link {
        Some(link) => Number::Is(key_of_link(link)),
        None => Number::Without,
    }
}

/// The key of a link by which pages are passed: links with one home and one number have one key.
pub fn key_of_link(link: Link) -> u32
    ensures { link_key (Some link) ≡ Some result }
{
    link.home % 32 * 134_217_728 + link.number % 134_217_728
}

// The bits that pages keep of a link.
fn known_bits(link: Option<Link>) -> u64
    ensures { IsWithin (link_bits link) result }
{
    link_bits(link)
}

// The bits of a link, or none.
fn link_bits(link: Option<Link>) -> u64
    ensures { result ≡ link_bits link }
{
    match link {
        Some(link) => u64::from(link.tracks) | 0x1_0000_0000,
        None => 0,
    }
}

/// Where an item or a gap stands on its track: its index, and its record frames [from, to).
#[derive(Clone, Copy, Debug, PartialEq, Eq)]
pub struct Place {
    pub index: u32,
    pub from: u32,
    pub to: u32,
}
