// The items and gaps of a track, read one after another.
ghost use Rattle.std.specs.Prelude.{◌≡◌, ◌<◌, ◌≤◌, ◌∷◌, [], drop, length, take, All, IfSome, IsNone, Some};
ghost use Rattle.composables.specs.Good.{AllUnlinked};
ghost use Rattle.composables.specs.Items.{items_of};
ghost use Rattle.composables.specs.Joined.{frames_in};
ghost use Rattle.composables.specs.TrackSets.{IsInSet, link_key, set_bits};
ghost use Rattle.item_pages.specs.Keys.{HoldsKeys};

use crate::items::key_of_link;
use crate::{ItemView, Track};
use frame_meaning::Link;
use item_pages::{Passed, Reader, Row, Wanted};
use std::marker::Model;

/// Reads the items and gaps of a track in order. Contracts see those that are left.
#[derive(Drop)]
pub struct ItemReader<'a> {
    left: Reader<'a, ItemView>,
}

impl<'a> Model for ItemReader<'a> {
    ghost use Rattle.std.specs.Prelude.{List};
    ghost use Rattle.composables.specs.declared.items.ItemView.{ItemView};

    ghost Value = { List ItemView };

    ghost view = { λ r. r.left };
}

impl<'a> ItemReader<'a> {
    /// A reader that begins at the item or gap of a track with this index.
    pub fn at(track: &'a Track, index: u32) -> ItemReader<'a>
        ensures { result ≡ drop index (items_of track.now.cells) }
    {
        ItemReader {
            left: track.items_from(index),
        }
    }

    /// The first that is left, or `None` where none is.
    pub fn next(&mut self) -> Option<ItemView>
        ensures some { IfSome result (λ view. self.old ≡ view ∷ self.new) }
        ensures none { IsNone result → (self.old ≡ []) × (self.new ≡ []) }
    {
        self.left.next()
    }

    /// Passes by the pages in front of which no item has a link, and by none of a page that is read in part. It tells
    /// how many items and gaps it passed by, and how many frames they have.
    pub fn pass_unlinked(&mut self) -> Passed
        ensures within { result.count ≤ length self.old }
        ensures left { self.new ≡ drop result.count self.old }
        ensures frames { result.places ≡ frames_in (take result.count self.old) }
        ensures unlinked { AllUnlinked (take result.count self.old) }
    {
        pass_bare(&mut self.left)
    }

    /// Passes by the pages in front of which each link has no tracks but those of a set, or no item has a link where there
    /// is no set, and by none of a page that is read in part.
    pub fn pass_inside(&mut self, tracks: Option<u32>) -> Passed
        ensures within { result.count ≤ length self.old }
        ensures left { self.new ≡ drop result.count self.old }
        ensures frames { result.places ≡ frames_in (take result.count self.old) }
        ensures inside { All (λ v. IsInSet tracks v.link)
            (take result.count self.old) }
    {
        pass_set(&mut self.left, tracks)
    }

    /// Passes by the pages in front of which no item has this link, as far as their keys tell, and by none of a page that
    /// is read in part.
    pub fn pass_others(&mut self, link: Link) -> Passed
        ensures within { result.count ≤ length self.old }
        ensures left { self.new ≡ drop result.count self.old }
        ensures frames { result.places ≡ frames_in (take result.count self.old) }
        ensures others { All (λ v. link_key v.link ≡ link_key (Some link) → ⊥)
            (take result.count self.old) }
    {
        pass_keyless(&mut self.left, link)
    }

    /// Passes by the page in front, where that is not read in part and has at most so many frames, and gives the keys of
    /// its links, if they are known.
    pub fn pass_row(&mut self, most: u32) -> Option<Row<'a>>
        ensures filled { IfSome result (λ r. 0 < r.count) }
        ensures within { IfSome result (λ r. r.count ≤ length self.old) }
        ensures left { IfSome result (λ r. self.new ≡ drop r.count self.old) }
        ensures frames { IfSome result (λ r. r.places ≡ frames_in (take r.count self.old)) }
        ensures keys { IfSome result (λ r. HoldsKeys (λ v. link_key v.link) r.keys.now
            (take r.count self.old)) }
        ensures most { IfSome result (λ r. r.places ≤ most) }
        ensures none { IsNone result → self.new ≡ self.old }
    {
        pass_keyed(&mut self.left, most)
    }
}

// Passes by the pages of a list in front of which no item has this link.
fn pass_keyless(left: &mut Reader<'_, ItemView>, link: Link) -> Passed
    ensures within { result.count ≤ length left.old }
    ensures left { left.new ≡ drop result.count left.old }
    ensures frames { result.places ≡ frames_in (take result.count left.old) }
    ensures others { All (λ v. link_key v.link ≡ link_key (Some link) → ⊥)
        (take result.count left.old) }
{
    left.pass_without(key_of_link(link))
}

// Passes by the page in front of a list.
fn pass_keyed<'a>(left: &mut Reader<'a, ItemView>, most: u32) -> Option<Row<'a>>
    ensures filled { IfSome result (λ r. 0 < r.count) }
    ensures within { IfSome result (λ r. r.count ≤ length left.old) }
    ensures left { IfSome result (λ r. left.new ≡ drop r.count left.old) }
    ensures frames { IfSome result (λ r. r.places ≡ frames_in (take r.count left.old)) }
    ensures keys { IfSome result (λ r. HoldsKeys (λ v. link_key v.link) r.keys.now
        (take r.count left.old)) }
    ensures most { IfSome result (λ r. r.places ≤ most) }
    ensures none { IsNone result → left.new ≡ left.old }
{
    match left.pass_row(most) {
        Some(row) => { if row.count > 0 { Some(row) } else { None } }
        None => None,
    }
}

// Passes by the pages of a list in front of which no item has a link.
fn pass_bare(left: &mut Reader<'_, ItemView>) -> Passed
    ensures within { result.count ≤ length left.old }
    ensures left { left.new ≡ drop result.count left.old }
    ensures frames { result.places ≡ frames_in (take result.count left.old) }
    ensures unlinked { AllUnlinked (take result.count left.old) }
{
    left.pass(Wanted::Beyond(0))
}

// Passes by the pages of a list in front of which each link has no tracks but those of a set.
fn pass_set(left: &mut Reader<'_, ItemView>, tracks: Option<u32>) -> Passed
    ensures within { result.count ≤ length left.old }
    ensures left { left.new ≡ drop result.count left.old }
    ensures frames { result.places ≡ frames_in (take result.count left.old) }
    ensures inside { All (λ v. IsInSet tracks v.link)
        (take result.count left.old) }
{
    let bits = set_bits(tracks);
    left.pass(Wanted::Beyond(bits))
}

// The bits of links with no tracks but those of a set, or of no link.
fn set_bits(tracks: Option<u32>) -> u64
    ensures { result ≡ set_bits tracks }
{
    match tracks {
        Some(tracks) => u64::from(tracks) | 0x1_0000_0000,
        None => 0,
    }
}
