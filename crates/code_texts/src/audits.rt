// What the codes of recorded sessions mean, and what to do.
// `tools/codes --write` writes the rows from the pages.
pub const A_CODES: [(&str, &str); 5] = [
    (
        "A1",
        "\
A1: the reply to the line of this number, from 1, is not explained, and neither
  A2 nor A3 says why
What to do: see whether DOC, RATE and DROP are those of the room, and REPLIES is
  what came, byte by byte, in its order; if so, the room answered wrongly
",
    ),
    (
        "A2",
        "\
A2: the reply is not explained, and names a point before what the station had
  been told of; otio, whose point the station chooses, is none of these
What to do: see whether REPLIES is what came, in its order; if so, the room told
  the station of fewer entries than before
",
    ),
    (
        "A3",
        "\
A3: the reply is not explained, A2 does not hold, and it is an ok that names
  another entry than its line's: one of another station or number, of another
  call, or none
What to do: name the files in the order of the stations, from 0 on; if they are,
  the room's journal has another entry than it said
",
    ),
    (
        "A4",
        "\
A4: the line of this number has no reply, and the session was not cut; or there
  is a reply of this number and no line
What to do: hand in all lines and all replies of the session; where it ended by
  a fault say cut after the two files
",
    ),
    (
        "A5",
        "\
A5: the station's entry of this number has no ok: no reply tells of it, and it
  is not what the line of this number asks for, after the last reply of a
  session that was cut; or the station was not recorded
What to do: hand in the files of all stations, from 0 on; where the session
  ended by a fault say cut after its two files
",
    ),
];
