// A small table of media and nests.
ghost use Rattle.std.specs.Prelude.{◌≡◌, IfOk, Some};
ghost use Rattle.frame_meaning.specs.declared.cells.What.TheVariants.{Media as OfMedia};
ghost use Rattle.composables.specs.Bounds.{bounds_of};

use composables::{Kind, Listed, Media, Memory, Nest, Reels, Table};
use std::alloc::Global;

/// A table of two tracks, 0 of video and 1 of audio; of media 0 with the frames [0, 86400) and media 1 with [50, 60); and
/// of a nest of 50 frames.
pub fn small_table(alloc: Global) -> Result<Table, Memory>
    ensures media { IfOk result (λ table. bounds_of table (OfMedia 0) ≡ Some (0, 86400)) }
{
    let mut kinds = Listed::new(alloc);
    kinds.push(Kind::Video)?;
    kinds.push(Kind::Audio)?;
    let mut media = Listed::new(alloc);
    media.push(Media {
        reel: 0,
        from: 0,
        to: 86_400,
    })?;
    media.push(Media {
        reel: 1,
        from: 50,
        to: 60,
    })?;
    let mut nests = Listed::new(alloc);
    nests.push(Nest {
        layers: Listed::new(alloc),
        length: 50,
    })?;
    Ok(Table {
        kinds,
        reels: Reels::new(alloc),
        media,
        nests,
    })
}
