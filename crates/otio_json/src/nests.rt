// The items of tracks, with nests in one another.
ghost use Rattle.std.specs.Prelude.{◌≡◌, ◌+◌, ◌*◌, ◌<◌, ◌≤◌, ◌^◌, [], ◌∷◌, length, map, IfOk, IfSome, OnOk, unsigned_abs};
ghost use Rattle.json_tree.specs.Size.{tree_size, items_size};
ghost use Rattle.json_tree.specs.View.{tree_of};
ghost use Rattle.otio_tracks.specs.Reading.{Reads, Gives, each};
ghost use Rattle.otio_tracks.specs.Rows.{row_frames};
ghost use Rattle.otio_tracks.specs.SoundParts.{IsItemPart};
ghost use Rattle.otio_tracks.specs.Times.{rate_pair};
ghost use Rattle.otio_tracks.specs.Clips.{entries};
ghost use Rattle.otio_json.specs.Nests.{gap_part_read, item_read, child_read, row_read, track_read, layer_of, one_layer_read, layer_read, track_layer_read, layers_read, longest, nest_frames, levels_inside, nest_read, nest_item_read, whole_layer};

use composables::{Layer, Listed, Nest, Track};
use frame_meaning::{Side, What};
use json_tree::Json;
use otio_tracks::{
    DocCode, DocFault, Entries, Fault, Part, Row, Schema, Span, clip, fault_at, frames_within,
    gap_length, given, head, list, needed, schema_of, track_of, trim,
};
use ratio_time::Rate;
use std::alloc::Global;

/// Where nests may stand: in no item of an audio track, and elsewhere so many in one another.
#[derive(Clone, Copy, Debug, PartialEq, Eq)]
pub(crate) enum Nesting {
    Forbidden,
    Levels(u32),
}

// The part that a gap is. Without a `source_range` it has no length, which is O14.
#[tactic(auto, unfolding(crate::specs::Nests::gap_part_read))]
fn gap(rate: &Rate, json: &Json) -> Result<Part, Fault>
    ensures part { result ≡ gap_part_read (rate_pair rate.now) (tree_of json.now) }
    ensures short { IfOk result (λ part. part.len ≤ 2147483647) }
    ensures sound { IfOk result IsItemPart }
{
    let range = match given(json, "source_range") {
        Some(range) => range,
        None => return Err(fault_at(DocCode::O14, json)),
    };
    let len = gap_length(rate, range)?;
    Ok(Part {
        first: Side::Dark,
        len: u64::from(len),
        mark: None,
        from: 0,
        to: 0,
    })
}

// Of a nest of so many frames, the first frame that an item shows, and how many: its range, or all. A range past the
// nest is O14.
fn nest_frames(length: u32, trim: Option<Span>) -> Result<(u32, u32), Fault>
    requires { IfSome trim (λ s. (unsigned_abs s.start ≤ 2147483647) × (s.len ≤ 2147483647)) }
    ensures frames { result ≡ nest_frames length trim }
    ensures within { IfOk result (λ f. f.0 + f.1 ≤ length) }
{
    match trim {
        Some(span) => match frames_within(length, &span) {
            Some(frames) => Ok(frames),
            None => Err(Fault {
                code: DocCode::O14,
                at: span.at,
            }),
        },
        None => Ok((0, length)),
    }
}

// The most frames that one of the layers shows: the length of their nest.
fn longest(layers: &[Layer]) -> u32
    ensures { result ≡ longest layers.now }
{
    let mut most = 0;
    for layer in layers {
        most = most.max(layer.to.saturating_sub(layer.from));
    }
    most
}

// How many nests may stand in one another inside this nest: O12 in an audio track, O13 where it stands too deep.
fn levels_inside(nesting: Nesting, json: &Json) -> Result<u32, Fault>
    ensures { Reads (λ n. n) result (levels_inside nesting (tree_of json.now)) }
{
    match nesting {
        Nesting::Forbidden => Err(fault_at(DocCode::O12, json)),
        Nesting::Levels(0) => Err(fault_at(DocCode::O13, json)),
        Nesting::Levels(levels) => Ok(levels - 1),
    }
}

/// The part that a child of a track is, by its schema and the place of the schema's text. One that is no item is O3
/// there.
#[cycle(nests)]
fn item(
    alloc: Global,
    rate: &Rate,
    nesting: Nesting,
    found: (Schema, u32),
    table: &mut Entries,
    json: &Json,
) -> Result<Part, DocFault>
    requires few { entries table.old + 2 * tree_size (tree_of json.now) < 2 ^ 31 }
    requires object { 0 < tree_size (tree_of json.now) }
    ensures read { Gives (λ part. (part, table.new)) result
        (item_read (rate_pair rate.now) nesting found table.old (tree_of json.now)) }
    ensures few { OnOk result (entries table.new
        ≤ entries table.old + 2 * tree_size (tree_of json.now)) }
    ensures short { IfOk result (λ part. part.len < 2 ^ 32) }
    ensures sound { IfOk result IsItemPart }
{
    let (schema, at) = found;
    match schema {
        Schema::Clip(references) => {
            head(json)?;
            clip(rate, references, table, json)
        }
        Schema::Gap => {
            head(json)?;
            Ok(gap(rate, json)?)
        }
        Schema::Stack => nest_item(alloc, rate, nesting, Schema::Stack, table, json),
        Schema::Track => nest_item(alloc, rate, nesting, Schema::Track, table, json),
        Schema::Transition | Schema::Other => Err(DocFault::Refused {
            code: DocCode::O3,
            at,
        }),
    }
}

// A nest that is an item: it is entered in the table, and shown through its range.
#[cycle(nests)]
#[tactic(auto, unfolding(crate::specs::Nests::nest_item_read))]
fn nest_item(
    alloc: Global,
    rate: &Rate,
    nesting: Nesting,
    schema: Schema,
    table: &mut Entries,
    json: &Json,
) -> Result<Part, DocFault>
    requires { entries table.old + 2 * tree_size (tree_of json.now) < 2 ^ 31 }
    ensures read { Gives (λ part. (part, table.new)) result
        (nest_item_read (rate_pair rate.now) nesting schema table.old (tree_of json.now)) }
    ensures few { OnOk result (entries table.new
        ≤ entries table.old + 2 * tree_size (tree_of json.now)) }
    ensures short { IfOk result (λ part. part.len < 2 ^ 32) }
    ensures sound { IfOk result IsItemPart }
{
    let levels = levels_inside(nesting, json)?;
    head(json)?;
    let trim = trim(rate, json)?;
    let nest = nest(alloc, rate, levels, schema, table, json)?;
    let length = nest.length;
    let (source, len) = nest_frames(length, trim)?;
    let number = table.add_nest(nest)?;
    Ok(Part {
        first: Side::Pic {
            what: What::Nest(number),
            source,
        },
        len: u64::from(len),
        mark: None,
        from: 0,
        to: length,
    })
}

// A nest, with all that stands in it entered in the table before.
#[cycle(nests)]
#[tactic(auto, unfolding(crate::specs::Nests::nest_read))]
fn nest(
    alloc: Global,
    rate: &Rate,
    levels: u32,
    schema: Schema,
    table: &mut Entries,
    json: &Json,
) -> Result<Nest, DocFault>
    requires { entries table.old + 2 * tree_size (tree_of json.now) < 2 ^ 31 }
    ensures read { Gives (λ nest. (nest, table.new)) result
        (nest_read (rate_pair rate.now) levels schema table.old (tree_of json.now)) }
    ensures few { OnOk result (entries table.new + 2
        ≤ entries table.old + 2 * tree_size (tree_of json.now)) }
{
    let children = list(needed(json, "children")?)?;
    let layers = match schema {
        Schema::Stack => layers(alloc, rate, levels, table, children)?,
        _ => one_layer(alloc, rate, levels, table, children, json.at)?,
    };
    let length = longest(layers.as_slice());
    Ok(Nest { layers, length })
}

// The one layer of a track that is an item: all of that track.
#[cycle(nests)]
#[tactic(auto, unfolding(crate::specs::Nests::track_read))]
fn one_layer(
    alloc: Global,
    rate: &Rate,
    levels: u32,
    table: &mut Entries,
    children: &[Json],
    at: u32,
) -> Result<Listed<Layer>, DocFault>
    requires { entries table.old + 2 * items_size (map tree_of children.now) < 2 ^ 31 }
    ensures read { Gives (λ layers. (layers, table.new)) result
        (one_layer_read (rate_pair rate.now) levels table.old at (map tree_of children.now)) }
    ensures few { OnOk result (entries table.new
        ≤ entries table.old + 2 * items_size (map tree_of children.now)) }
{
    let track = track(alloc, rate, Nesting::Levels(levels), 0, table, children, at)?;
    let mut layers = Listed::new(alloc);
    layers.push(whole_layer(track))?;
    Ok(layers)
}

// A layer that shows all of a track.
fn whole_layer(track: Track) -> Layer
    ensures { result ≡ whole_layer track }
{
    let to = track.length();
    Layer { track, from: 0, to }
}

// The layers of a stack, the last on top.
#[cycle(nests)]
fn layers(
    alloc: Global,
    rate: &Rate,
    levels: u32,
    table: &mut Entries,
    children: &[Json],
) -> Result<Listed<Layer>, DocFault>
    requires { entries table.old + 2 * items_size (map tree_of children.now) < 2 ^ 31 }
    ensures read { Gives (λ layers. (layers, table.new)) result
        (layers_read (rate_pair rate.now) levels table.old (map tree_of children.now)) }
    ensures few { OnOk result (entries table.new
        ≤ entries table.old + 2 * items_size (map tree_of children.now)) }
{
    let mut layers = Listed::new(alloc);
    for json in children {
        let number = layers.as_slice().len() as u32;
        let layer = layer(alloc, rate, levels, number, table, json)?;
        layers.push(layer)?;
    }
    Ok(layers)
}

// A layer: a track, or a track of one item.
#[cycle(nests)]
#[tactic(auto, unfolding(crate::specs::Nests::layer_read, crate::specs::Nests::track_layer_read))]
fn layer(
    alloc: Global,
    rate: &Rate,
    levels: u32,
    number: u32,
    table: &mut Entries,
    json: &Json,
) -> Result<Layer, DocFault>
    requires { entries table.old + 2 * tree_size (tree_of json.now) < 2 ^ 31 }
    ensures read { Gives (λ layer. (layer, table.new)) result
        (layer_read (rate_pair rate.now) levels number table.old (tree_of json.now)) }
    ensures object { IfOk result (λ _. 0 < tree_size (tree_of json.now)) }
    ensures few { OnOk result (entries table.new
        ≤ entries table.old + 2 * tree_size (tree_of json.now)) }
{
    let found = schema_of(json)?;
    match found.0 {
        Schema::Track => track_layer(alloc, rate, levels, number, table, json),
        _ => {
            let part = item(alloc, rate, Nesting::Levels(levels), found, table, json)?;
            item_layer(alloc, number, &part, json.at)
        }
    }
}

// A layer that is one item.
fn item_layer(alloc: Global, number: u32, part: &Part, at: u32) -> Result<Layer, DocFault>
    requires short { part.now.len < 2 ^ 32 }
    requires sound { IsItemPart part.now }
    ensures { Gives (λ layer. layer) result (layer_of number part.now at) }
{
    let mut row = Row::new(alloc);
    row.add(part)?;
    let parts = row.finish()?;
    Ok(whole_layer(track_of(alloc, number, &parts, at)?))
}

// A layer that is a track, shown through its `source_range`.
#[cycle(nests)]
#[tactic(auto, unfolding(crate::specs::Nests::track_layer_read, crate::specs::Nests::track_read))]
fn track_layer(
    alloc: Global,
    rate: &Rate,
    levels: u32,
    number: u32,
    table: &mut Entries,
    json: &Json,
) -> Result<Layer, DocFault>
    requires { entries table.old + 2 * tree_size (tree_of json.now) < 2 ^ 31 }
    ensures read { Gives (λ layer. (layer, table.new)) result
        (track_layer_read (rate_pair rate.now) levels number table.old (tree_of json.now)) }
    ensures few { OnOk result (entries table.new
        ≤ entries table.old + 2 * tree_size (tree_of json.now)) }
{
    head(json)?;
    let trim = trim(rate, json)?;
    let children = list(needed(json, "children")?)?;
    let track = track(
        alloc,
        rate,
        Nesting::Levels(levels),
        number,
        table,
        children,
        json.at,
    )?;
    let (from, len) = nest_frames(track.length(), trim)?;
    Ok(Layer {
        track,
        from,
        to: from + len,
    })
}

/// The track of these children. A fault of the whole track stands at `at`.
#[cycle(nests)]
#[tactic(auto, unfolding(crate::specs::Nests::track_read))]
pub(crate) fn track(
    alloc: Global,
    rate: &Rate,
    nesting: Nesting,
    number: u32,
    table: &mut Entries,
    children: &[Json],
    at: u32,
) -> Result<Track, DocFault>
    requires { entries table.old + 2 * items_size (map tree_of children.now) < 2 ^ 31 }
    ensures read { Gives (λ track. (track, table.new)) result
        (track_read (rate_pair rate.now) nesting number table.old (map tree_of children.now) at) }
    ensures few { OnOk result (entries table.new
        ≤ entries table.old + 2 * items_size (map tree_of children.now)) }
{
    let row = row(alloc, rate, nesting, table, children)?;
    let parts = row.finish()?;
    track_of(alloc, number, &parts, at)
}

// The row of a track's children, read one after another.
#[cycle(nests)]
fn row(
    alloc: Global,
    rate: &Rate,
    nesting: Nesting,
    table: &mut Entries,
    children: &[Json],
) -> Result<Row, DocFault>
    requires { entries table.old + 2 * items_size (map tree_of children.now) < 2 ^ 31 }
    ensures read { Gives (λ row. (row, table.new)) result
        (row_read (rate_pair rate.now) nesting table.old (map tree_of children.now)) }
    ensures few { OnOk result (entries table.new
        ≤ entries table.old + 2 * items_size (map tree_of children.now)) }
    ensures frames { IfOk result (λ row. row_frames row
        ≤ 2 ^ 32 * items_size (map tree_of children.now)) }
{
    let mut row = Row::new(alloc);
    for json in children {
        child(alloc, rate, nesting, &mut row, table, json)?;
    }
    Ok(row)
}

// Adds a child of a track to its row: an item, or a transition, which waits for the item after it.
#[cycle(nests)]
#[tactic(auto, unfolding(crate::specs::Nests::child_read))]
fn child(
    alloc: Global,
    rate: &Rate,
    nesting: Nesting,
    row: &mut Row,
    table: &mut Entries,
    json: &Json,
) -> Result<(), DocFault>
    requires few { entries table.old + 2 * tree_size (tree_of json.now) < 2 ^ 31 }
    requires frames { row_frames row.old + 2 ^ 32 < 2 ^ 63 }
    ensures read { Gives (λ _. (row.new, table.new)) result
        (child_read (rate_pair rate.now) nesting (row.old, table.old) (tree_of json.now)) }
    ensures few { OnOk result (entries table.new
        ≤ entries table.old + 2 * tree_size (tree_of json.now)) }
    ensures frames { OnOk result (row_frames row.new
        ≤ row_frames row.old + 2 ^ 32 * tree_size (tree_of json.now)) }
{
    let found = schema_of(json)?;
    match found.0 {
        Schema::Transition => {
            row.wait(rate, json);
            Ok(())
        }
        _ => {
            let part = item(alloc, rate, nesting, found, table, json)?;
            row.add(&part)
        }
    }
}
