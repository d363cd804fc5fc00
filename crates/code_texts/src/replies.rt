// What the codes of lines, edits and questions mean, and what to do.
// `tools/codes --write` writes the rows from the pages.
pub const B_CODES: [(&str, &str); 6] = [
    (
        "B1",
        "\
B1: its first word is not in the table
B1: a word that must be head, tail, source, sequence or keep is another; with
  fill of six words the sixth must be sequence, of seven source or sequence, and
  after sequence the seventh must be keep, of eight the sixth must be source and
  the eighth keep
What to do: begin the line with a word of the table of lines, in lower case, and
  end it as its row says
",
    ),
    (
        "B2",
        "\
B2: it has no word
B2: it has not as many words as its first word needs
B2: a list of items has not as many numbers as the list of tracks before it
What to do: send as many words as the line's row has; cutroom has no line that
  asks for help
",
    ),
    (
        "B3",
        "\
B3: the word is not spelled as its part, or is a label without a place
What to do: spell the word as its part: a place is a number or a label of the
  sequence, @ begins a media entry, and only deltas have a sign
",
    ),
    (
        "B4",
        "\
B4: a number is past its bound
What to do: send a smaller number; tracks are 0 to 31
",
    ),
    (
        "B5",
        "\
B5: the line has more than 1,024 bytes, its CR counted
What to do: send shorter lines, each with a line feed at its end
",
    ),
    (
        "B6",
        "\
B6: a list of tracks has one that is not above the one before
What to do: write the tracks of a list in rising order, each once
",
    ),
];

pub const E_CODES: [(&str, &str); 17] = [
    (
        "E1",
        "\
E1: a track that the edit names is not in the room (the least such); or the
  track T of an edit with a list TS is not in that list
What to do: name tracks that the room has, from 0 on, and have the edit's own
  track in its list
",
    ),
    (
        "E2",
        "\
E2: of an edit that names an item: track T has no item I; of slice: P is not
  below the track's length
What to do: ask items T which items there are now
",
    ),
    (
        "E3",
        "\
E3: of overwrite, insert and fill: WHAT is not in the room, or is a nest and the
  track is audio
What to do: name a media entry that the document has; examples/media.py lists
  them. A nest is for tracks of picture
",
    ),
    (
        "E4",
        "\
E4: of overwrite, insert and fill: LEN is 0; of dissolve: A and B are both 0
What to do: give a length of at least one frame
",
    ),
    (
        "E5",
        "\
E5: of overwrite, insert and fill: the source frames [FROM, FROM + LEN) are not
  all among those of WHAT; of a fill with sequence LEN is the gap's length, and
  it is checked where P is in a gap
What to do: begin elsewhere in the source, or take fewer frames;
  examples/media.py lists what each entry has
",
    ),
    (
        "E6",
        "\
E6: of fill: P is not below the track's length, or its frame is not dark
What to do: ask items T where the gaps are, and name a place within one
",
    ),
    (
        "E7",
        "\
E7: of roll and dissolve: P is no cut; of undissolve: no dissolve is at P
What to do: ask items T where the cuts are: a cut is where one item or gap ends
  and the next begins, and a dissolve is at its mark
",
    ),
    (
        "E8",
        "\
E8: of dissolve: it has no room on its left side: that is a nest, has fewer than
  A frames free, or shows something without B source frames more; else it has
  none on its right side, likewise
What to do: make the dissolve shorter on that side, or trim the item there so
  that more of its media is free
",
    ),
    (
        "E9",
        "\
E9: of link: an item's offset, its record place less its source frame, is not
  that of the first; the first's and the first that differs
What to do: move one of the items first, or link items that are in sync
",
    ),
    (
        "E10",
        "\
E10: of link: item I of track T has a link already; the first such
What to do: take the link away by unlink T I first
",
    ),
    (
        "E11",
        "\
E11: of insert, extract and ripple: what is moved has the link H.K, which has an
  item on track T, and T is not among TS; of slip and slide: the item has it.
  The least such link, by H and then K, and its least such track
What to do: add track T to the list of tracks, or take the link away by unlink
",
    ),
    (
        "E12",
        "\
E12: of slide: the delta used is not 0, and something else has the item's link
  H.K; the offset before and after
What to do: take the link away by unlink, or slide by a delta that keeps the
  items together
",
    ),
    (
        "E13",
        "\
E13: of overwrite and insert: a track would have more than 2,592,000 frames (the
  least such)
What to do: make the track shorter first
",
    ),
    (
        "E14",
        "\
E14: a track would have more than 65,536 items and gaps (the least such)
What to do: take items out first
",
    ),
    (
        "E15",
        "\
E15: none of these holds, and the journal has 100,000 entries
What to do: end the session, take the cut out as a document by otio, and go on
  with a new room
",
    ),
    (
        "E16",
        "\
E16: of back: track T of TS has nothing to take back, or its last edit is
  another station's (the least such)
What to do: take back only what this station did last on the track; the edit of
  somebody else is for them to take back
",
    ),
    (
        "E17",
        "\
E17: of back: the last edit of track T of TS named other tracks than TS (the
  least such)
What to do: name all the tracks that the last edit named; news shows it
",
    ),
];

pub const V_CODES: [(&str, &str); 4] = [
    (
        "V1",
        "\
V1: the room has no track T
What to do: name a track that the room has, from 0 on
",
    ),
    (
        "V2",
        "\
V2: of view: the first place is after the second, or the second is past the
  track's end; LENGTH is the track's length in frames
What to do: ask for places up to the track's length, the first not after the
  second
",
    ),
    (
        "V3",
        "\
V3: of otio: more entries are asked for than the journal has, which is N; of
  news: likewise, so news N itself is none
What to do: ask point how many entries there are
",
    ),
    (
        "V4",
        "\
V4: of otio: the document has more than 32 MiB; N is the point that was asked
  for
What to do: ask for an earlier point, or leave out metadata of the document
  before it is opened
",
    ),
];
