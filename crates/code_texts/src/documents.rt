// What the codes of documents mean, and what to do.
// `tools/codes --write` writes the rows from the pages.
pub const J_CODES: [(&str, &str); 5] = [
    (
        "J1",
        "\
J1: a byte that JSON does not have there
What to do: write a number, or leave the range out
J1: the text ends too early
What to do: copy the file again
J1: half of a surrogate pair
What to do: write the character, or both halves
J1: a byte order mark
What to do: save without one
",
    ),
    (
        "J2",
        "\
J2: more than 64 lists and objects in one another, in what is ignored too
What to do: flatter metadata
",
    ),
    (
        "J3",
        "\
J3: a number of a time, or its rate, with more digits than are kept: not m/10^k
  with m below 10^18 in size and k at most 18
What to do: fewer digits
",
    ),
    (
        "J4",
        "\
J4: a text that is not UTF-8
What to do: save as UTF-8
",
    ),
    (
        "J5",
        "\
J5: more than 32 MiB
What to do: leave out metadata, or cut the timeline
",
    ),
];

pub const O_CODES: [(&str, &str); 16] = [
    (
        "O1",
        "\
O1: a schema that is not read: of the timeline, its start, the stack of tracks,
  a track, an item, a layer, a range or a time
What to do: take the timeline out of a collection; rename old schemas; take out
  what is no item
",
    ),
    (
        "O2",
        "\
O2: an object has no schema
What to do: add OTIO_SCHEMA
O2: a timeline has no tracks
What to do: add a stack of tracks
O2: a stack or track has no children, a track of the sequence no kind
What to do: \"children\":[]; \"kind\":\"Video\"
O2: a range has no start_time or duration, a time no rate or value
What to do: add it
O2: a transition has no transition_type, in_offset or out_offset
What to do: add it
",
    ),
    (
        "O3",
        "\
O3: a value of another kind than is read there; null, where null does not mean
  missing
What to do: write the kind that is read
O3: a known schema in a wrong place
What to do: put it where it belongs
O3: another kind than Video and Audio
What to do: Video or Audio
O3: a transition that is no dissolve
What to do: SMPTE_Dissolve, or take it out
",
    ),
    (
        "O4",
        "\
O4: a source range, gap, offset or start that is not whole frames
What to do: give the sequence's own rate as RATE; round the time before writing
O4: one of these further than 2,147,483,647 frames from 0
What to do: a time within reach
O4: an available range whose frames are further than that
What to do: leave the available range out
",
    ),
    (
        "O5",
        "\
O5: a number that is no rate: 0, below 0, 10^12 and more, or with more than six
  places
What to do: a positive rate of at most six places
",
    ),
    (
        "O6",
        "\
O6: a time effect on a clip, gap, nest or layer: a schema that begins with
  LinearTimeWarp., FreezeFrame. or TimeEffect.
What to do: render the clip, and cut in the render; take off one that changes
  nothing
",
    ),
    (
        "O7",
        "\
O7: an item, a layer, or a track of the sequence that is not enabled
What to do: a gap in its place; a track without items
",
    ),
    (
        "O8",
        "\
O8: a transition is first or last in its track
What to do: take it out; or put a gap before it, of in_offset frames and at
  least one, or after it, of out_offset: then it is a fade
O8: a transition is next to another
What to do: take one out
O8: a transition is between two gaps
What to do: take it out
",
    ),
    (
        "O9",
        "\
O9: an offset below 0
What to do: 0 or more
O9: an offset is longer than the item or gap that it reaches into, or reaches
  into a dissolve before it
What to do: a shorter dissolve
O9: media that are not there: the clip on the left has fewer than out_offset
  frames after what it shows, or the one on the right fewer than in_offset
  before it
What to do: a shorter dissolve, or more media available
O9: an item beside it has no frames, and an offset is above 0
What to do: take the empty item out
",
    ),
    (
        "O10",
        "\
O10: no tracks
What to do: one empty track
O10: more than 32 tracks
What to do: fewer tracks
",
    ),
    (
        "O11",
        "\
O11: a start below 0, or not below the frames of the day
What to do: a start of the day
O11: a clip's source frame before 0 or from 16,777,216 on
What to do: count the source from 0
O11: a track of more than 2,592,000 frames
What to do: split the track
O11: a track of more than 65,536 items and gaps
What to do: split the track
",
    ),
    (
        "O12",
        "\
O12: a nest in an audio track
What to do: mix it down, or put its clips in its place
",
    ),
    (
        "O13",
        "\
O13: a ninth nest in one another
What to do: flatten the inner ones
",
    ),
    (
        "O14",
        "\
O14: a clip without a range: no source_range, and none available or an empty one
What to do: add a source_range
O14: a gap without a range
What to do: add a source_range
O14: a duration below 0, of an available range too
What to do: 0 or more
O14: a nest's or a layer's range that is not within its frames
What to do: trim to what is there
",
    ),
    (
        "O15",
        "\
O15: a transition next to a nest
What to do: put the dissolve inside, or take it out
",
    ),
    (
        "O16",
        "\
O16: the stack of tracks, or a track of the sequence, is trimmed: its
  source_range is not null, whatever it is
What to do: trim the items; or make the track a nest
",
    ),
];
