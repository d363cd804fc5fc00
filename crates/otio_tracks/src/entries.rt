// The table of a document that is being read.
ghost use Rattle.std.specs.Prelude.{◌≡◌, IfOk, map};
ghost use Rattle.otio_tracks.specs.Clips.{media_of};

use composables::{Kind, Listed, Media, Memory, Nest, Reels, Table};
use indexmap::IndexSet;
use std::alloc::Global;
use std::marker::Model;

/// The table of a document that is being read, in which reels and media entries are found by a hash. Contracts see the
/// table.
#[derive(Drop)]
pub struct Entries {
    alloc: Global,
    kinds: Listed<Kind>,
    reels: Reels,
    media: IndexSet<(u32, u32, u32)>,
    nests: Listed<Nest>,
}

impl Model for Entries {
    ghost use Rattle.composables.specs.declared.media.Table.{Table};

    ghost Value = { Table };

    ghost use Rattle.otio_tracks.specs.EntriesInside.{table_of};

    ghost view = { table_of };

    ghost use Rattle.otio_tracks.specs.ReelTexts.{AreTexts};

    ghost invariant = { λ e. AreTexts e.reels };
}

impl Entries {
    ghost use Rattle.std.specs.Prelude.{◌≡◌, ◌<◌, IfOk, OnOk, length};
    ghost use Rattle.otio_tracks.specs.ReelTexts.{AreTexts};
    ghost use Rattle.otio_tracks.specs.Clips.{empty_table, with_kind, with_reel, with_media, with_entry, with_nest_last, entry_number, name_at};

    /// A table with nothing in it.
    pub fn new(alloc: Global) -> Entries
        ensures { result ≡ empty_table }
    {
        Entries {
            alloc,
            kinds: Listed::new(alloc),
            reels: Reels::new(alloc),
            media: IndexSet::new(alloc),
            nests: Listed::new(alloc),
        }
    }

    /// Adds a track of this kind.
    pub fn add_kind(&mut self, kind: Kind) -> Result<(), Memory>
        ensures { OnOk result (self.new ≡ with_kind self.old kind) }
    {
        self.kinds.push(kind)
    }

    /// Adds a nest after the others, and gives its number.
    pub fn add_nest(&mut self, nest: Nest) -> Result<u32, Memory>
        requires { length self.old.nests < 4294967295 }
        ensures ok { OnOk result (self.new ≡ with_nest_last self.old nest) }
        ensures number { IfOk result (λ n. n ≡ length self.old.nests) }
    {
        let number = self.nests.as_slice().len() as u32;
        self.nests.push(nest)?;
        Ok(number)
    }

    /// The number of a reel. One that is there keeps its number, another goes last.
    pub fn enter_reel(&mut self, name: &str) -> Result<u32, Memory>
        requires { length self.old.reels < 4294967295 }
        ensures number { IfOk result (λ n. n ≡ name_at self.old.reels name.now) }
        ensures ok { OnOk result (self.new ≡ with_reel self.old name.now) }
    {
        let count = self.reels.count();
        let number = self.reels.add(name)?;
        prove!(number <= count);
        Ok(number)
    }

    /// The number of a media entry. One that is there keeps its number, another goes last.
    pub fn enter_media(&mut self, entry: Media) -> Result<u32, Memory>
        requires { length self.old.media < 4294967295 }
        ensures number { IfOk result (λ n. n ≡ entry_number self.old.media entry) }
        ensures ok { OnOk result (self.new ≡ with_media self.old entry) }
    {
        let key = key_of(entry);
        match self.media.get_index_of(&key) {
            Some(at) => return Ok(at as u32),
            None => {}
        }
        let number = self.media.len() as u32;
        self.media.insert(key)?;
        Ok(number)
    }

    /// The table with all that was entered. It takes memory for the list of media entries.
    pub fn finish(self) -> Result<Table, Memory>
        ensures table { IfOk result (λ table. table ≡ self) }
        ensures texts { IfOk result (λ table. AreTexts table.reels) }
    {
        let media = media_list(self.alloc, self.media.as_slice())?;
        Ok(Table {
            kinds: self.kinds,
            reels: self.reels,
            media,
            nests: self.nests,
        })
    }
}

// A media entry as the key by which it is found: its reel, and the frames [from, to) that it has.
fn key_of(entry: Media) -> (u32, u32, u32)
    ensures { media_of result ≡ entry }
{
    (entry.reel, entry.from, entry.to)
}

// The media entries with these keys, in their order.
fn media_list(alloc: Global, keys: &[(u32, u32, u32)]) -> Result<Listed<Media>, Memory>
    ensures { IfOk result (λ media. media ≡ map media_of keys.now) }
{
    let mut media = Listed::new(alloc);
    for key in keys {
        let (reel, from, to) = *key;
        media.push(Media { reel, from, to })?;
    }
    Ok(media)
}
