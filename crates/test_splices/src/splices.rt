// Worked splices, and all those of some rows beside a plain program.
ghost use Rattle.std.specs.Prelude.{◌<◌};
ghost use Rattle.composables.specs.Joined.{frames_in};
ghost use Rattle.composables.specs.TrackFacts.{NumbersBelow};
ghost use Rattle.edit_splice.specs.NewItems.{AreNew};

use crate::playing::play;
use crate::rows::{base, dark, item, linked, marked, nothing, one, three, wide};
use composables::{ItemView, Memory};
use std::alloc::Global;
use std::marker::Brand;
use std::process::Abort;
use std::sync::ledger::Blank;
use std::test::Fail;

// Sees that a splice leaves the cells and the next number of the plain program, the copy as it was, and as many items
// as counted.
fn agrees(
    rt: &impl Abort,
    alloc: Global,
    before: &[ItemView],
    x: u32,
    y: u32,
    keep: bool,
    views: &[ItemView],
) -> Result<(), Memory>
    requires old { AreNew 0 before.now }
    requires old_numbers { NumbersBelow 100 before.now }
    requires old_frames { frames_in before.now < 100 }
    requires new { AreNew 4 views.now }
    requires numbers { NumbersBelow 100 views.now }
    requires frames { frames_in views.now < 100 }
{
    let played = play::<Brand>(rt, alloc, Blank::new(1), before, x, y, keep, views)?;
    assert_eq!(rt;
        played.cells.as_slice(),
        played.want.as_slice(),
        "splice {x} {y} {keep}"
    );
    assert_eq!(rt;
        played.copied.as_slice(),
        played.old.as_slice(),
        "the copy before splice {x} {y} {keep}"
    );
    assert_eq!(rt;
        played.count as usize,
        played.items.len(),
        "count after splice {x} {y} {keep}"
    );
    let split = played
        .want
        .iter()
        .any(|cell| cell.item == Some(played.fresh));
    let next = if split {
        played.fresh.saturating_add(1)
    } else {
        played.fresh
    };
    assert_eq!(rt; played.next, next, "splice {x} {y} {keep}");
    Ok(())
}

// All splices of a track of this many frames.
fn all_agree(
    rt: &impl Abort,
    alloc: Global,
    before: &[ItemView],
    frames: u32,
    keep: bool,
) -> Result<(), Memory>
    requires old { AreNew 0 before.now }
    requires old_numbers { NumbersBelow 100 before.now }
    requires old_frames { frames_in before.now < 100 }
{
    for y in 0..=frames {
        for x in 0..=y {
            agrees(rt, alloc, before, x, y, keep, &nothing(alloc))?;
            agrees(rt, alloc, before, x, y, keep, &one(alloc)?)?;
            agrees(rt, alloc, before, x, y, keep, &three(alloc)?)?;
        }
    }
    Ok(())
}

#[test]
fn all_splices_are_those_of_the_plain_program(rt: HostRuntime) -> Result<(), Fail> {
    let alloc = rt.alloc();
    for keep in [false, true] {
        all_agree(&rt, alloc, &base(alloc)?, 14, keep)?;
        all_agree(&rt, alloc, &linked(alloc)?, 8, keep)?;
        all_agree(&rt, alloc, &wide(alloc)?, 18, keep)?;
        all_agree(&rt, alloc, &[dark(3)], 3, keep)?;
    }
    Ok(())
}

// Sees that a splice of the base row leaves these items and gaps, and this next item number.
fn shows(
    rt: &impl Abort,
    alloc: Global,
    range: (u32, u32),
    keep: bool,
    views: &[ItemView],
    want: &[ItemView],
    next: u32,
) -> Result<(), Memory>
    requires new { AreNew 4 views.now }
    requires numbers { NumbersBelow 100 views.now }
    requires frames { frames_in views.now < 100 }
{
    let (x, y) = range;
    let played = play::<Brand>(rt, alloc, Blank::new(1), &base(alloc)?, x, y, keep, views)?;
    assert_eq!(rt; played.items.as_slice(), want, "splice {x} {y}");
    assert_eq!(rt; played.next, next, "splice {x} {y}");
    Ok(())
}

#[test]
fn a_splice_cuts_drops_and_renumbers(rt: HostRuntime) -> Result<(), Fail> {
    let alloc = rt.alloc();
    let [gap, first, second, dip, third, fourth] = [
        dark(2),
        marked(item(0, 50, 4), 1, 2),
        marked(item(1, 100, 3), 2, 1),
        marked(dark(2), 1, 1),
        item(2, 7, 2),
        marked(item(3, 7, 1), 0, 1),
    ];
    // inside an item: both dissolves end at the seam, and stay
    shows(
        &rt,
        alloc,
        (4, 4),
        false,
        &nothing(alloc),
        &[
            gap,
            marked(item(0, 50, 2), 1, 2),
            item(4, 52, 2),
            second,
            dip,
            third,
            fourth,
        ],
        5,
    )?;
    // a frame earlier the one before is dropped, and the number after the new item's is taken
    shows(
        &rt,
        alloc,
        (3, 3),
        false,
        &one(alloc)?,
        &[
            gap,
            item(0, 50, 1),
            item(4, 500, 2),
            item(5, 51, 3),
            second,
            dip,
            third,
            fourth,
        ],
        6,
    )?;
    // a frame later the one after is
    shows(
        &rt,
        alloc,
        (5, 5),
        false,
        &nothing(alloc),
        &[
            gap,
            marked(item(0, 50, 3), 1, 2),
            item(4, 53, 1),
            item(1, 100, 3),
            dip,
            third,
            fourth,
        ],
        5,
    )?;
    // at a cut: its own dissolve is dropped, and no item is split
    shows(
        &rt,
        alloc,
        (6, 6),
        false,
        &nothing(alloc),
        &[gap, first, item(1, 100, 3), dip, third, fourth],
        4,
    )?;
    // an item replaced
    shows(
        &rt,
        alloc,
        (2, 6),
        false,
        &one(alloc)?,
        &[gap, item(4, 500, 2), item(1, 100, 3), dip, third, fourth],
        5,
    )?;
    // inside a gap, which stays one
    shows(
        &rt,
        alloc,
        (10, 10),
        false,
        &nothing(alloc),
        &[gap, first, second, dip, third, fourth],
        4,
    )?;
    // from one gap into an item: gaps that meet are one
    shows(
        &rt,
        alloc,
        (1, 12),
        false,
        &three(alloc)?,
        &[
            gap,
            item(9, 500, 1),
            marked(item(5, 700, 3), 1, 2),
            item(2, 8, 1),
            fourth,
        ],
        10,
    )?;
    // before all, after all, and in place of all
    shows(
        &rt,
        alloc,
        (0, 0),
        false,
        &one(alloc)?,
        &[item(4, 500, 2), gap, first, second, dip, third, fourth],
        5,
    )?;
    shows(
        &rt,
        alloc,
        (14, 14),
        false,
        &one(alloc)?,
        &[gap, first, second, dip, third, fourth, item(4, 500, 2)],
        5,
    )?;
    shows(
        &rt,
        alloc,
        (0, 14),
        false,
        &three(alloc)?,
        &three(alloc)?,
        10,
    )?;
    shows(&rt, alloc, (0, 14), false, &nothing(alloc), &[], 4)?;
    Ok(())
}

#[test]
fn a_splice_that_keeps_dissolves_shortens_them(rt: HostRuntime) -> Result<(), Fail> {
    let alloc = rt.alloc();
    let [gap, second, dip, third, fourth] = [
        dark(2),
        marked(item(1, 100, 3), 2, 1),
        marked(dark(2), 1, 1),
        item(2, 7, 2),
        marked(item(3, 7, 1), 0, 1),
    ];
    // a frame before the end of the dissolve before it
    shows(
        &rt,
        alloc,
        (3, 3),
        true,
        &one(alloc)?,
        &[
            gap,
            marked(item(0, 50, 1), 1, 1),
            item(4, 500, 2),
            item(5, 51, 3),
            second,
            dip,
            third,
            fourth,
        ],
        6,
    )?;
    // a frame after the start of the one after it
    shows(
        &rt,
        alloc,
        (5, 5),
        true,
        &nothing(alloc),
        &[
            gap,
            marked(item(0, 50, 3), 1, 2),
            item(4, 53, 1),
            marked(item(1, 100, 3), 1, 1),
            dip,
            third,
            fourth,
        ],
        5,
    )?;
    // at a cut its own dissolve goes, and over a cut too
    shows(
        &rt,
        alloc,
        (6, 6),
        true,
        &nothing(alloc),
        &[
            gap,
            marked(item(0, 50, 4), 1, 2),
            item(1, 100, 3),
            dip,
            third,
            fourth,
        ],
        4,
    )?;
    shows(
        &rt,
        alloc,
        (3, 8),
        true,
        &one(alloc)?,
        &[
            gap,
            marked(item(0, 50, 1), 1, 1),
            item(4, 500, 2),
            item(1, 102, 1),
            dip,
            third,
            fourth,
        ],
        5,
    )?;
    Ok(())
}
