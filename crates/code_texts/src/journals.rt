// What the codes of journals, kept files and news mean, and what to do.
// `tools/codes --write` writes the rows from the pages.
pub const H_CODES: [(&str, &str); 8] = [
    (
        "H1",
        "\
H1: of a journal: the line LINE, from 1, is not exactly as a journal is written:
  other words or blanks, no line feed, over 1,024 bytes, a station over 15, a
  call that is spelled otherwise
What to do: copy the file again; of what run wrote take its line journal COUNT
  and all after it: sed -n '/^journal/,$p'; of a file of store make one:
  examples/journal_of.py
H1: of a kept file: the record of this number, from 1, is no entry's line
What to do: it was not written by this program
",
    ),
    (
        "H2",
        "\
H2: of a journal: COUNT is not the number of entries, or is over 100,000
What to do: copy the file again: its end is missing
",
    ),
    (
        "H3",
        "\
H3: of a journal: the entry ENTRY, from 0, cannot be done on what the entries
  before it make of the document; only the first POINT entries are tried
What to do: take the document, RATE and DROP that the journal was made with; a
  POINT up to ENTRY works
H3: of a kept file: the entry at this place, from 0, does not apply
What to do: the file belongs to another document, or rate
",
    ),
    (
        "H4",
        "\
H4: of a journal: the number of the entry in line LINE is not above that of its
  station's entry before
What to do: copy the file again: lines are in another order, or twice
H4: of a kept file: its number of a line is not above that of its station's
  entry before
What to do: it was not written by this program
",
    ),
    (
        "H5",
        "\
H5: of a journal: POINT is above COUNT
What to do: COUNT is the last point
",
    ),
    (
        "H6",
        "\
H6: of a kept file: its station is not below STATIONS
What to do: start with as many stations as the room had, or more
",
    ),
    (
        "H7",
        "\
H7: of a kept file: its number of a line is above 4,000,000,000
What to do: send its calls to run again, with otio N as the last line, and begin
  a new file with that document
",
    ),
    (
        "H8",
        "\
H8: of a kept file: it has so many records, more than 100,000
What to do: it was not written by this program
",
    ),
];

pub const K_CODES: [(&str, &str); 2] = [
    (
        "K1",
        "\
K1: it is damaged: PLACE is 0 where the header is wrong; else that of the first
  + that begins no whole record; or the file's length, where it ends without a
  gate
What to do: at 0: a journal's text is no kept file, make one of it. Else what is
  before PLACE is whole: in a copy, put - in that place, and it counts up to
  there; ask what is missing
",
    ),
    (
        "K2",
        "\
K2: the file has more than 128 MiB
What to do: it is no kept file: 100,000 entries take less
",
    ),
];

pub const M_CODES: [(&str, &str); 6] = [
    (
        "M1",
        "\
M1: the line's first word is news, and it is not spelled as a reply with an
  entry exactly where N is below M, or it is the last and has no line feed; LINE
  is counted from 1, all lines counted
What to do: hand in whole replies as they came; a line that is not a reply to
  news begins with another word
",
    ),
    (
        "M2",
        "\
M2: the entry's place is above the count of entries taken, which is N: one is
  missing
What to do: ask the room for news N with the number after the code, and put its
  reply before the line
",
    ),
    (
        "M3",
        "\
M3: it does not apply there: the document is another, or the station
What to do: give the document, RATE and DROP of the room
",
    ),
    (
        "M4",
        "\
M4: an entry taken before has this place, and it is another
What to do: hand in the replies of one room; the entry at that place is another
  one than before
",
    ),
    (
        "M5",
        "\
M5: it would be entry 100,000, counted from 0
What to do: there are no more entries in a room, so the replies are of no room
",
    ),
    (
        "M6",
        "\
M6: its number is not above that of its station's entry before
What to do: hand in the replies of one room, in their order
",
    ),
];
