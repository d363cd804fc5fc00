// What the exit statuses mean, and what to do.
// `tools/codes --write` writes the rows from the pages.
pub const STATUSES: [(&str, &str); 10] = [
    (
        "0",
        "\
0: the input was read to its end, and all was written
What to do: nothing
",
    ),
    (
        "1",
        "\
1: a read of the input failed, or a file could not be read
What to do: see the line on standard error: it names the file and the system's
  reason
",
    ),
    (
        "2",
        "\
2: a write to the output failed
What to do: see the line on standard error: the disk may be full, or the reader
  of the output has ended
",
    ),
    (
        "3",
        "\
3: the words after the program's name are no command within its bounds
What to do: see the lines on standard error: they name the word, and how the
  command is called
",
    ),
    (
        "4",
        "\
4: a document is refused
4: of list: the journal is refused
4: of store: the file JOURNAL is refused
4: of audit: the journal is refused, or what was recorded
4: of follow: the stream is refused
4: of tape and import: the list is refused
4: of import: the list makes no document
What to do: cutroom explain CODE with the code that was printed; standard error
  says what it means
",
    ),
    (
        "5",
        "\
5: of serve and store: the address could not be opened, or a connection not be
  accepted; JOURNAL is DOC; too few threads, an idle time that is none, or a
  crew that is none (SERVING.md)
What to do: see the lines on standard error: the address may be taken, or be
  none of this machine
",
    ),
    (
        "6",
        "\
6: out of memory before the first read; of list, tape, import, follow and audit
  at any step; of store also where entries were to be kept before a reply, which
  is not put
What to do: give the process more memory, see ulimit -v; what a reply told of
  was done
",
    ),
    (
        "7",
        "\
7: the input gave more than 64 MiB, and no read or write failed
7: of follow: the input gave more than 64 MiB, none of whose lines that ended in
  the first 64 MiB is refused
7: of audit: a file of lines has more than 64 MiB, or one of replies has 1 GiB
  or more
What to do: send less in one session; the edits that were answered are done
",
    ),
    (
        "8",
        "\
8: of list: the cut has no list
What to do: cutroom explain CODE with the code that was printed; standard error
  says what it means
",
    ),
    (
        "9",
        "\
9: of store: a call on the disk failed, at the start or where entries were to be
  kept before a reply, which is not put (SERVING.md)
What to do: check the disk of JOURNAL and reboot before the next start; then
  give the same command, which goes on
",
    ),
];
