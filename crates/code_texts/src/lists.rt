// What the codes of lists mean, and what to do.
// `tools/codes --write` writes the rows from the pages.
pub const P_CODES: [(&str, &str); 13] = [
    (
        "P1",
        "\
P1: the line is too long, has not eight words with C or nine with D, its reel is
  longer or has other characters, or its length is not one to three digits
What to do: see which word is too many, or missing
",
    ),
    (
        "P2",
        "\
P2: the first word is not one to six digits
What to do: put * before it, where it is a note
",
    ),
    (
        "P3",
        "\
P3: a timecode is spelled otherwise or is no label of the counting
What to do: play the list at its rate, and give it the FCM: line of its counting
",
    ),
    (
        "P4",
        "\
P4: an out before its in; a source as long as its record is not; a dissolve
  without a frame, or longer than its event
What to do: where a speed is changed, take the event out and render the shot
",
    ),
    (
        "P5",
        "\
P5: the fourth word begins with W, a wipe
What to do: make it a dissolve
",
    ),
    (
        "P6",
        "\
P6: the fourth word begins with K, a key
What to do: take the lines of the key out, and render it
",
    ),
    (
        "P7",
        "\
P7: the first word is M2, a change of speed
What to do: take the event out with its line M2, and render the shot
",
    ),
    (
        "P8",
        "\
P8: the channel is none of the seven
What to do: leave out what is on other channels than the picture and two of
  sound
",
    ),
    (
        "P9",
        "\
P9: a dissolve without its cut of zero length before it, told at the dissolve;
  such a cut after which its dissolve does not come, told at the cut
What to do: write both lines, one after the other, with one number, channel and
  record in
",
    ),
    (
        "P10",
        "\
P10: on one channel the event has a record frame that an earlier event has; the
  line of the first such event is told too, of a dissolve that of its D line:
  refused P10 9 8
What to do: make a list of each layer
",
    ),
    (
        "P11",
        "\
P11: the number is over 999
What to do: give it three digits
",
    ),
    (
        "P12",
        "\
P12: an FCM: line with other words, or DROP FRAME at another rate than 29.97
What to do: play the list at its rate, or spell the line as it should be
",
    ),
    (
        "P13",
        "\
P13: the list has over 32 MiB: refused P13 0
What to do: leave notes out
",
    ),
];

pub const L_CODES: [(&str, &str); 6] = [
    (
        "L1",
        "\
L1: there are COUNT audio tracks, more than two
What to do: list the picture alone, and the sound two tracks at a time: tracks
  of a cut
",
    ),
    (
        "L2",
        "\
L2: a part of a dissolve is seen, from the place PLACE of its channel on: a
  title lies over some of its frames, or it goes past the end of a nest
What to do: move the title off the dissolve, or over all of it; or take the
  dissolve away
",
    ),
    (
        "L3",
        "\
L3: the dissolve that begins at the place PLACE has over 999 frames
What to do: shorten it
",
    ),
    (
        "L4",
        "\
L4: the reel with the number REEL gets no name; reels are counted from 0, in the
  order in which the document names them
What to do: take examples/named_list.py; or rename it in the document, give it a
  name by names, or use numbered. examples/explain.py DOC refused L4 REEL says
  which reel it is
",
    ),
    (
        "L5",
        "\
L5: there are COUNT events, over 999
What to do: list picture and sound apart, or a part of the cut: a part of it
",
    ),
    (
        "L6",
        "\
L6: a time, counted in frames, is not below 24 hours: an in or an out, of the
  source or of the record
What to do: begin the room earlier, or bring the source in with an earlier time
",
    ),
];

pub const I_CODES: [(&str, &str); 5] = [
    (
        "I1",
        "\
I1: a dissolve of one frame is its whole event, so there is no cut within it.
  LINE is the one with D
What to do: make it a cut: leave out the line before it, and put C for D 001
",
    ),
    (
        "I2",
        "\
I2: a dissolve from black to black
What to do: leave out both lines: what no event covers is dark
",
    ),
    (
        "I3",
        "\
I3: the first event begins after the day of the counting; FRAME is its record
  in, in frames of the list's labels. Only a list counted as non-drop, read with
  drop, can have it
What to do: read it with ndf, or begin the record earlier
",
    ),
    (
        "I4",
        "\
I4: the track TRACK has over 65,536 items and gaps
What to do: import a part of the list
",
    ),
    (
        "I5",
        "\
I5: the document has over 32 MiB, its line feed counted
What to do: import a part of the list
",
    ),
];
