// A cut as a document.
ghost use Rattle.std.specs.Prelude.{◌≡◌, OnOk, option_map, slice_get};
ghost use Rattle.otio_text.specs.Texts.{grown};
ghost use Rattle.otio_text.specs.declared.writing.WriteFault.TheVariants as faults;
ghost use Rattle.otio_text.specs.Documents.{rate_text, time_text, range_text, gap_text, reel_name, clip_text, clip_if, transition_text, mark_text, thing_text, item_text, later_items, items_text, layer_range, layer_text, later_layers, layers_text, nest_layers, nest_text, kind_text, kind_at, track_text, later_tracks, tracks_text, timeline_text};

use crate::text::DocText;
use composables::{ItemReader, ItemView, Kind, Layer, Media, Memory, Nest, Table, Track};
use frame_meaning::{Mark, Side, What};
use timecode12::{Counting, SequenceRate};

/// Why no document was written.
#[derive(Clone, Copy, Debug, PartialEq, Eq)]
pub enum WriteFault {
    /// The text has more than 32 MiB.
    TooLarge,
    /// There was not memory enough.
    Memory,
}

impl From<Memory> for WriteFault {
    ghost from_gives = { λ _ e. e ≡ faults.Memory };

    // The text found no memory to grow.
    fn from(_: Memory) -> WriteFault {
        WriteFault::Memory
    }
}

// A rate as OpenTimelineIO writes it.
fn rate_bytes(rate: SequenceRate) -> &'static [u8]
    ensures { result.now ≡ rate_text rate }
{
    match rate {
        SequenceRate::F23976 => b"23.976",
        SequenceRate::F24 => b"24.0",
        SequenceRate::F25 => b"25.0",
        SequenceRate::F2997 => b"29.97",
        SequenceRate::F30 => b"30.0",
    }
}

// So many frames as a `RationalTime`.
#[tactic(auto, using(crate::proofs::Growing::grown_nothing))]
fn put_time(out: &mut DocText, rate: SequenceRate, frames: u32) -> Result<(), Memory>
    ensures { OnOk result (out.new ≡ grown out.old (time_text rate frames)) }
{
    out.put(b"{\"OTIO_SCHEMA\":\"RationalTime.1\",\"rate\":")?;
    out.put(rate_bytes(rate))?;
    out.put(b",\"value\":")?;
    out.put_number(frames)?;
    out.put(b".0}")
}

// The frames from `from` on, `len` of them, as a `TimeRange`.
#[tactic(auto, using(crate::proofs::Growing::grown_nothing))]
fn put_range(out: &mut DocText, rate: SequenceRate, from: u32, len: u32) -> Result<(), Memory>
    ensures { OnOk result (out.new ≡ grown out.old (range_text rate from len)) }
{
    out.put(b"{\"OTIO_SCHEMA\":\"TimeRange.1\",\"duration\":")?;
    put_time(out, rate, len)?;
    out.put(b",\"start_time\":")?;
    put_time(out, rate, from)?;
    out.put(b"}")
}

// A gap of so many frames.
#[tactic(auto, using(crate::proofs::Growing::grown_nothing))]
fn put_gap(out: &mut DocText, rate: SequenceRate, len: u32) -> Result<(), Memory>
    ensures { OnOk result (out.new ≡ grown out.old (gap_text rate len)) }
{
    out.put(b"{\"OTIO_SCHEMA\":\"Gap.1\",\"name\":\"\",\"metadata\":{},\"source_range\":")?;
    put_range(out, rate, 0, len)?;
    out.put(b",\"effects\":[],\"markers\":[]}")
}

// The name of a reel, and no characters for a number that the table does not have.
fn reel_name(table: &Table, reel: u32) -> &str
    ensures { result.now ≡ reel_name table.now.reels reel }
{
    match table.reels.name(reel) {
        Some(name) => name,
        None => "",
    }
}

// A clip of `len` frames from the source frame `source` on. Its reel is its name and stands in its CMX 3600 metadata,
// and its media reference has the frames of the media entry.
#[tactic(auto, using(crate::proofs::Growing::grown_nothing))]
fn put_clip(
    out: &mut DocText,
    rate: SequenceRate,
    reel: &str,
    source: u32,
    len: u32,
    media: &Media,
) -> Result<(), Memory>
    ensures { OnOk result (out.new ≡ grown out.old (clip_text rate reel.now source len media.now)) }
{
    out.put(b"{\"OTIO_SCHEMA\":\"Clip.2\",\"name\":")?;
    out.put_quoted(reel)?;
    out.put(b",\"metadata\":{\"cmx_3600\":{\"reel\":")?;
    out.put_quoted(reel)?;
    out.put(b"}},\"source_range\":")?;
    put_range(out, rate, source, len)?;
    out.put(
        b",\"effects\":[],\"markers\":[],\"media_references\":{\"DEFAULT_MEDIA\":{\"OTIO_SCHEMA\":\"MissingReference.1\",\"name\":\"\",\"metadata\":{},\"available_range\":",
    )?;
    put_range(out, rate, media.from, media.to.saturating_sub(media.from))?;
    out.put(b"}},\"active_media_reference_key\":\"DEFAULT_MEDIA\"}")
}

// A dissolve as a transition, with the frames before its cut and after it.
#[tactic(auto, using(crate::proofs::Growing::grown_nothing))]
fn put_transition(out: &mut DocText, rate: SequenceRate, mark: Mark) -> Result<(), Memory>
    ensures { OnOk result (out.new ≡ grown out.old (transition_text rate mark)) }
{
    out.put(
        b"{\"OTIO_SCHEMA\":\"Transition.1\",\"name\":\"\",\"metadata\":{},\"transition_type\":\"SMPTE_Dissolve\",\"in_offset\":",
    )?;
    put_time(out, rate, mark.a)?;
    out.put(b",\"out_offset\":")?;
    put_time(out, rate, mark.b)?;
    out.put(b"}")
}

// A media entry of the table by its number.
fn media_at(table: &Table, number: u32) -> Option<&Media>
    ensures { option_map (λ m. m.now) result ≡ slice_get table.now.media number }
{
    table.media.as_slice().get(number as usize)
}

// A nest of the table by its number.
fn nest_at(table: &Table, number: u32) -> Option<&Nest>
    ensures { option_map (λ n. n.now) result ≡ slice_get table.now.nests number }
{
    table.nests.as_slice().get(number as usize)
}

// A clip of a media entry, if the table has it.
#[tactic(auto, using(crate::proofs::Growing::grown_nothing))]
fn put_media(
    out: &mut DocText,
    table: &Table,
    rate: SequenceRate,
    number: u32,
    source: u32,
    len: u32,
) -> Result<(), Memory>
    ensures { OnOk result (out.new ≡ grown out.old (clip_if table.now rate number source len)) }
{
    match media_at(table, number) {
        Some(media) => put_clip(out, rate, reel_name(table, media.reel), source, len, media),
        None => Ok(()),
    }
}

// The transition at the cut before an item, with a comma before it.
#[tactic(auto, using(crate::proofs::Growing::grown_nothing))]
fn put_mark(out: &mut DocText, rate: SequenceRate, mark: Option<Mark>) -> Result<(), Memory>
    ensures { OnOk result (out.new ≡ grown out.old (mark_text rate mark)) }
{
    match mark {
        Some(mark) => {
            out.put(b",")?;
            put_transition(out, rate, mark)
        }
        None => Ok(()),
    }
}

// An item or gap as a child of a track. `levels` is how many nests more may stand in one another; once the text is over
// its limit nothing more is written.
#[cycle(put)]
#[tactic(auto, using(crate::proofs::Growing::grown_nothing))]
fn put_item(
    out: &mut DocText,
    table: &Table,
    rate: SequenceRate,
    levels: usize,
    view: &ItemView,
) -> Result<(), Memory>
    ensures { OnOk result (out.new ≡ grown out.old (item_text table.now rate levels view.now)) }
{
    if out.is_over() {
        return Ok(());
    }
    match view.first {
        Side::Dark => put_gap(out, rate, view.len),
        Side::Pic { what, source } => put_thing(out, table, rate, levels, what, source, view.len),
    }
}

// An item that shows these frames of a thing.
#[cycle(put)]
fn put_thing(
    out: &mut DocText,
    table: &Table,
    rate: SequenceRate,
    levels: usize,
    what: What,
    source: u32,
    len: u32,
) -> Result<(), Memory>
    ensures { OnOk result (out.new ≡ grown out.old
        (thing_text table.now rate levels what source len)) }
{
    match what {
        What::Media(m) => put_media(out, table, rate, m, source, len),
        What::Nest(j) => put_nest(out, table, rate, levels, j, source, len),
    }
}

// A nest as a stack, of which the item shows the frames from `source` on.
#[cycle(put)]
#[tactic(auto, using(crate::proofs::Growing::grown_nothing))]
fn put_nest(
    out: &mut DocText,
    table: &Table,
    rate: SequenceRate,
    levels: usize,
    number: u32,
    source: u32,
    len: u32,
) -> Result<(), Memory>
    ensures { OnOk result (out.new ≡ grown out.old
        (nest_text table.now rate levels number source len)) }
{
    out.put(b"{\"OTIO_SCHEMA\":\"Stack.1\",\"name\":\"\",\"metadata\":{},\"source_range\":")?;
    put_range(out, rate, source, len)?;
    out.put(b",\"effects\":[],\"markers\":[],\"children\":[")?;
    put_nest_layers(out, table, rate, levels, number)?;
    out.put(b"]}")
}

// The layers of a nest by its number. None are written where no level is left, or the table has no such nest.
#[cycle(put)]
#[tactic(auto, using(crate::proofs::Growing::grown_nothing))]
fn put_nest_layers(
    out: &mut DocText,
    table: &Table,
    rate: SequenceRate,
    levels: usize,
    number: u32,
) -> Result<(), Memory>
    ensures { OnOk result (out.new ≡ grown out.old (nest_layers table.now rate levels number)) }
{
    if levels == 0 {
        return Ok(());
    }
    match nest_at(table, number) {
        Some(nest) => put_layers(out, table, rate, levels - 1, nest.layers.as_slice()),
        None => Ok(()),
    }
}

// Layers with commas between them.
#[cycle(put)]
#[tactic(auto, using(crate::proofs::Growing::grown_nothing))]
fn put_layers(
    out: &mut DocText,
    table: &Table,
    rate: SequenceRate,
    levels: usize,
    layers: &[Layer],
) -> Result<(), Memory>
    ensures { OnOk result (out.new ≡ grown out.old (layers_text table.now rate levels layers.now)) }
{
    match layers {
        [] => Ok(()),
        [first, others @ ..] => {
            put_layer(out, table, rate, levels, first)?;
            put_other_layers(out, table, rate, levels, others)
        }
    }
}

// Layers after the first, each with a comma before it.
#[cycle(put)]
#[tactic(auto, using(crate::proofs::Growing::grown_nothing))]
fn put_other_layers(
    out: &mut DocText,
    table: &Table,
    rate: SequenceRate,
    levels: usize,
    others: &[Layer],
) -> Result<(), Memory>
    ensures { OnOk result (out.new ≡ grown out.old
        (later_layers table.now rate levels others.now)) }
{
    for layer in others {
        out.put(b",")?;
        put_layer(out, table, rate, levels, layer)?;
    }
    Ok(())
}

// The range of a layer that is shown: `null` where it is the whole track.
#[tactic(auto, using(crate::proofs::Growing::grown_nothing))]
fn put_layer_range(out: &mut DocText, rate: SequenceRate, layer: &Layer) -> Result<(), Memory>
    ensures { OnOk result (out.new ≡ grown out.old (layer_range rate layer.now)) }
{
    if layer.from == 0 && layer.to == layer.track.length() {
        return out.put(b"null");
    }
    put_range(out, rate, layer.from, layer.to.saturating_sub(layer.from))
}

// A layer as a video track.
#[cycle(put)]
#[tactic(auto, using(crate::proofs::Growing::grown_nothing))]
fn put_layer(
    out: &mut DocText,
    table: &Table,
    rate: SequenceRate,
    levels: usize,
    layer: &Layer,
) -> Result<(), Memory>
    ensures { OnOk result (out.new ≡ grown out.old (layer_text table.now rate levels layer.now)) }
{
    out.put(b"{\"OTIO_SCHEMA\":\"Track.1\",\"name\":\"\",\"metadata\":{},\"source_range\":")?;
    put_layer_range(out, rate, layer)?;
    out.put(b",\"effects\":[],\"markers\":[],\"kind\":\"Video\",\"children\":[")?;
    put_items(out, table, rate, levels, &layer.track)?;
    out.put(b"]}")
}

// The items and gaps of a track with their transitions, in order.
#[cycle(put)]
#[tactic(auto, using(crate::proofs::Growing::grown_nothing))]
fn put_items(
    out: &mut DocText,
    table: &Table,
    rate: SequenceRate,
    levels: usize,
    track: &Track,
) -> Result<(), Memory>
    ensures { OnOk result (out.new ≡ grown out.old (items_text table.now rate levels track.now)) }
{
    if out.is_over() {
        return Ok(());
    }
    let mut items = ItemReader::at(track, 0);
    match items.next() {
        Some(first) => {
            put_item(out, table, rate, levels, &first)?;
            put_other_items(out, table, rate, levels, &mut items)
        }
        None => Ok(()),
    }
}

// Items after the first, each with the transition at the cut before it.
#[cycle(put)]
#[tactic(auto, using(crate::proofs::Growing::grown_nothing))]
fn put_other_items(
    out: &mut DocText,
    table: &Table,
    rate: SequenceRate,
    levels: usize,
    others: &mut ItemReader<'_>,
) -> Result<(), Memory>
    ensures { OnOk result (out.new ≡ grown out.old (later_items table.now rate levels others.old)) }
{
    while let Some(view) = others.next() {
        put_mark(out, rate, view.mark)?;
        out.put(b",")?;
        put_item(out, table, rate, levels, &view)?;
    }
    Ok(())
}

// A kind in quotes; a track without one is video.
fn kind_bytes(kind: Option<Kind>) -> &'static [u8]
    ensures { result.now ≡ kind_text kind }
{
    match kind {
        Some(Kind::Audio) => b"\"Audio\"",
        _ => b"\"Video\"",
    }
}

// A track of the sequence.
#[tactic(auto, using(crate::proofs::Growing::grown_nothing))]
fn put_track(
    out: &mut DocText,
    table: &Table,
    rate: SequenceRate,
    kind: Option<Kind>,
    track: &Track,
) -> Result<(), Memory>
    ensures { OnOk result (out.new ≡ grown out.old (track_text table.now rate kind track.now)) }
{
    out.put(
        b"{\"OTIO_SCHEMA\":\"Track.1\",\"name\":\"\",\"metadata\":{},\"source_range\":null,\"effects\":[],\"markers\":[],\"kind\":",
    )?;
    out.put(kind_bytes(kind))?;
    out.put(b",\"children\":[")?;
    put_items(out, table, rate, table.nests.as_slice().len(), track)?;
    out.put(b"]}")
}

// The tracks of the sequence with commas between them.
#[tactic(auto, using(crate::proofs::Growing::grown_nothing))]
fn put_tracks(
    out: &mut DocText,
    table: &Table,
    rate: SequenceRate,
    tracks: &[Track],
) -> Result<(), Memory>
    ensures { OnOk result (out.new ≡ grown out.old (tracks_text table.now rate tracks.now)) }
{
    match tracks {
        [] => Ok(()),
        [first, others @ ..] => {
            put_track(out, table, rate, kind_at(table, 0), first)?;
            put_other_tracks(out, table, rate, others)
        }
    }
}

// The kind of the track at an index, if the table has it.
fn kind_at(table: &Table, index: usize) -> Option<Kind>
    ensures { result ≡ kind_at table.now index }
{
    table.kinds.as_slice().get(index).copied()
}

// Tracks after the first, each with a comma before it.
#[tactic(auto, using(crate::proofs::Growing::grown_nothing))]
fn put_other_tracks(
    out: &mut DocText,
    table: &Table,
    rate: SequenceRate,
    others: &[Track],
) -> Result<(), Memory>
    ensures { OnOk result (out.new ≡ grown out.old (later_tracks table.now rate 1 others.now)) }
{
    for (index, track) in others.iter().enumerate() {
        out.put(b",")?;
        put_track(out, table, rate, kind_at(table, index + 1), track)?;
    }
    Ok(())
}

// A cut as a timeline: its start, and a stack of its tracks.
#[tactic(auto, using(crate::proofs::Growing::grown_nothing))]
pub(crate) fn put_timeline(
    out: &mut DocText,
    table: &Table,
    tracks: &[Track],
    counting: &Counting,
    start: u32,
) -> Result<(), Memory>
    ensures { OnOk result (out.new ≡ grown out.old
        (timeline_text table.now tracks.now counting.now start)) }
{
    let rate = counting.rate();
    out.put(
        b"{\"OTIO_SCHEMA\":\"Timeline.1\",\"name\":\"\",\"metadata\":{},\"global_start_time\":",
    )?;
    put_time(out, rate, start)?;
    out.put(
        b",\"tracks\":{\"OTIO_SCHEMA\":\"Stack.1\",\"name\":\"tracks\",\"metadata\":{},\"source_range\":null,\"effects\":[],\"markers\":[],\"children\":[",
    )?;
    put_tracks(out, table, rate, tracks)?;
    out.put(b"]}}")
}
