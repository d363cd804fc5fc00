// The commands, as the program tells of them.
ghost use Rattle.std.specs.Prelude.{◌≡◌, map, option_map};
ghost use Rattle.program_words.specs.CommandTexts.{command_named, command_near, is_near, row_named, row_near, told_row};

/// A command, as the program tells of it: its first word, how it is called, as a line, and a page on it.
#[derive(Clone, Copy, Debug, PartialEq, Eq)]
pub struct CommandText {
    pub name: &'static str,
    pub usage: &'static str,
    pub page: &'static str,
}

/// All commands, in the order in which `--help` lists them: name, usage and page of each.
pub const COMMANDS: [(&str, &str, &str); 11] = [
    (
        "run",
        "cutroom: usage: run TRACKS REELS, or run DOC RATE DROP; cutroom --help says more\n",
        RUN,
    ),
    (
        "serve",
        "cutroom: usage: serve DOC RATE DROP STATIONS ADDRESS JOURNAL; cutroom --help says more\n",
        SERVE,
    ),
    (
        "store",
        "cutroom: usage: store DOC RATE DROP STATIONS ADDRESS JOURNAL; cutroom --help says more\n",
        STORE,
    ),
    (
        "list",
        "cutroom: usage: list DOC RATE DROP JOURNAL POINT [numbered | names TEXT=NAME ..]; cutroom --help says more\n",
        LIST,
    ),
    (
        "tape",
        "cutroom: usage: tape LIST RATE; cutroom --help says more\n",
        TAPE,
    ),
    (
        "import",
        "cutroom: usage: import LIST RATE DROP; cutroom --help says more\n",
        IMPORT,
    ),
    (
        "follow",
        "cutroom: usage: follow DOC RATE DROP; cutroom --help says more\n",
        FOLLOW,
    ),
    (
        "audit",
        "cutroom: usage: audit DOC RATE DROP JOURNAL LINES REPLIES [cut] ..; cutroom --help says more\n",
        AUDIT,
    ),
    (
        "make",
        "cutroom: usage: make NUMBER COUNT; cutroom --help says more\n",
        MAKE,
    ),
    (
        "explain",
        "cutroom: usage: explain CODE; cutroom --help says more\n",
        EXPLAIN,
    ),
    (
        "help",
        "cutroom: usage: help [COMMAND]; cutroom --help says more\n",
        HELP_PAGE,
    ),
];

const RUN: &str = "\
cutroom run TRACKS REELS
cutroom run DOC RATE DROP

One station edits a cut: it sends lines on standard input, and each is answered
by a line on standard output. After the last reply comes the journal, which has
every edit that was done. Ctrl-D ends the input. Ctrl-C loses the journal.

  TRACKS  how many empty video tracks the cut has, 1 to 32
  REELS   how many reels there are, 0 to 999: @0, @1 and so on
  DOC     the path of an OpenTimelineIO file, whose cut is edited
  RATE    its frames a second: 23.976, 24, 25, 29.97 or 30
  DROP    ndf; or drop, where RATE is 29.97 and drop-frame is counted

Status 0: all was answered. 1: DOC or the input could not be read. 2: the output
could not be written. 4: DOC is refused. 6: out of memory. 7: the input has more
than 64 MiB.

Example: the items of a track, then a cut moved by six frames, then the cut as a
file
  printf 'items 0\\nroll 0 01:00:09:12 6\\notio 1\\n' |
    cutroom run examples/kitchen.otio 24 ndf
The lines that can be sent are in docs/PROTOCOL.md.
";

const SERVE: &str = "\
cutroom serve DOC RATE DROP STATIONS ADDRESS JOURNAL

As many stations as STATIONS says edit one cut at once, each over a connection
to ADDRESS. Once all have left, the journal is written to the file JOURNAL.

  DOC       the path of an OpenTimelineIO file
  RATE      its frames a second: 23.976, 24, 25, 29.97 or 30
  DROP      ndf; or drop, where RATE is 29.97 and drop-frame is counted
  STATIONS  1 to 16
  ADDRESS   HOST:PORT, as 127.0.0.1:7000
  JOURNAL   the path of the file that gets the journal; not DOC

Status 0: all have left, and the journal is written. 1: DOC could not be read.
2: the journal could not be written. 4: DOC is refused. 5: no station could be
seated. 6: out of memory. 7: a station sent more than 64 MiB.

Example
  cutroom serve examples/kitchen.otio 24 ndf 2 127.0.0.1:7000 day.journal
More is in docs/SERVING.md.
";

const STORE: &str = "\
cutroom store DOC RATE DROP STATIONS ADDRESS JOURNAL

As serve, but the journal is kept in the file JOURNAL as it grows: an edit is on
the disk before anybody is told of it. A stop, a kill or a loss of power loses
nothing that was told, and the same command goes on from there.

  DOC       the path of an OpenTimelineIO file
  RATE      its frames a second: 23.976, 24, 25, 29.97 or 30
  DROP      ndf; or drop, where RATE is 29.97 and drop-frame is counted
  STATIONS  1 to 16
  ADDRESS   HOST:PORT, as 127.0.0.1:7000
  JOURNAL   the path of the file that the journal is kept in; not DOC

Status 0: all have left. 1: DOC could not be read. 4: DOC or the file JOURNAL is
refused. 5: no station could be seated. 6: out of memory. 7: a station sent more
than 64 MiB. 9: the disk of JOURNAL failed.

Example
  cutroom store examples/kitchen.otio 24 ndf 2 127.0.0.1:7000 day.kept
examples/journal_of.py prints the journal of such a file. More is in
docs/SERVING.md.
";

const LIST: &str = "\
cutroom list DOC RATE DROP JOURNAL POINT
cutroom list DOC RATE DROP JOURNAL POINT numbered
cutroom list DOC RATE DROP JOURNAL POINT names TEXT=NAME ..

Writes the CMX 3600 list of a cut: that of DOC after POINT entries of JOURNAL.

  DOC        the path of an OpenTimelineIO file
  RATE       its frames a second: 23.976, 24, 25, 29.97 or 30
  DROP       ndf; or drop, where RATE is 29.97 and drop-frame is counted
  JOURNAL    the path of a journal, as serve leaves it or run prints it
  POINT      how many of its entries to do; 0 is the cut of DOC itself
  numbered   reels are named R001, R002 and so on
  TEXT=NAME  the reel that DOC calls TEXT is NAME, which has 1 to 8 characters
             of A-Z, 0-9 and _

Where a fade on an upper track hides a picture below it, as editing systems do
not, standard error says at which record time.

Status 0: the list is written. 1: a file could not be read. 2: the output could
not be written. 4: DOC or JOURNAL is refused. 6: out of memory. 8: the cut has
no list.

Example: the list of a document as it is
  echo 'journal 0' > none
  cutroom list examples/kitchen.otio 24 ndf none 0 > kitchen.edl
More is in docs/LISTS.md.
";

const TAPE: &str = "\
cutroom tape LIST RATE

Writes what a CMX 3600 list shows: for V, A and A2 a line for each run of
frames, with its record frame, its length, its reel and its source frame.

  LIST  the path of a CMX 3600 list
  RATE  its frames a second: 23.976, 24, 25, 29.97 or 30

Status 0: all is written. 1: LIST could not be read. 2: the output could not be
written. 4: LIST is refused. 6: out of memory.

Example
  cutroom tape examples/reel.edl 24
More is in docs/LISTS.md.
";

const IMPORT: &str = "\
cutroom import LIST RATE DROP

Writes a CMX 3600 list as an OpenTimelineIO document, with V, A and A2 as its
tracks.

  LIST  the path of a CMX 3600 list
  RATE  its frames a second: 23.976, 24, 25, 29.97 or 30
  DROP  ndf; or drop, where RATE is 29.97 and drop-frame is counted

Status 0: the document is written. 1: LIST could not be read. 2: the output
could not be written. 4: LIST is refused, or makes no document. 6: out of
memory.

Example
  cutroom import examples/field.edl 25 ndf > field.otio
More is in docs/LISTS.md.
";

const FOLLOW: &str = "\
cutroom follow DOC RATE DROP

Makes a room again from what one of its stations was answered: it reads replies
to news on standard input, and writes how many entries they are and the items of
each track.

  DOC   the path of the room's OpenTimelineIO file
  RATE  its frames a second: 23.976, 24, 25, 29.97 or 30
  DROP  ndf; or drop, where RATE is 29.97 and drop-frame is counted

Status 0: the tracks are written. 1: DOC or the input could not be read. 2: the
output could not be written. 4: DOC or the replies are refused. 6: out of
memory. 7: the input has more than 64 MiB.

Example
  echo 'news 0 1 0 2 roll 0 228 6' | cutroom follow examples/kitchen.otio 24 ndf
More is in docs/PROTOCOL.md.
";

const AUDIT: &str = "\
cutroom audit DOC RATE DROP JOURNAL LINES REPLIES [cut] ..

Says whether a journal explains what was recorded of a room: what each station
sent, and what it got. It writes legal with the counts of entries and replies;
or refused with a code, a station and the number of its line, or of its entry:
the first that the journal does not explain.

  DOC      the path of the room's OpenTimelineIO file
  RATE     its frames a second: 23.976, 24, 25, 29.97 or 30
  DROP     ndf; or drop, where RATE is 29.97 and drop-frame is counted
  JOURNAL  the path of the room's journal, as serve leaves it
  LINES    the path of a file of what station 0 sent
  REPLIES  the path of a file of what it got
  cut      its session ended by a fault, and is taken as far as it went
  ..       the same of station 1, and so on: at most 16 stations

Status 0: all is explained. 1: a file could not be read. 2: the output could not
be written. 4: DOC or JOURNAL is refused, or what was recorded. 6: out of
memory. 7: LINES has more than 64 MiB, or REPLIES has 1 GiB or more.

Example: a station writes both files, and both are audited
  examples/station.py --log ann 127.0.0.1:7000
  cutroom audit cut.otio 24 ndf day.journal ann.lines ann.replies
More is in docs/SERVING.md.
";

const MAKE: &str = "\
cutroom make NUMBER COUNT

Serves a generated session, of four stations at once that send COUNT edits each,
and writes how many entries it has, and the length and the items of each track:
the same at each run. It needs no file.

  NUMBER  which session, 0 to 4294967295
  COUNT   1 to 20000

Status 0: all is written. 2: the output could not be written. 6: out of memory.

Example
  cutroom make 7 20000
";

const EXPLAIN: &str = "\
cutroom explain CODE

Says what a code means that the program printed, and what to do.

  CODE  a code of a refusal, as O4 or E10, or an exit status, 0 to 9

Status 0: all is written. 2: the output could not be written. 3: there is no
such code.

Example
  cutroom explain O4
";

const HELP_PAGE: &str = "\
cutroom help
cutroom help COMMAND

Says what the commands are, or more of one. cutroom --help and cutroom -h are
the same, and so is cutroom COMMAND --help.

  COMMAND  the first word of a command, as run

Status 0: all is written. 2: the output could not be written. 3: there is no
such command.

Example
  cutroom help list
";

/// The command of this name, where there is one.
pub fn command_named(name: &str) -> Option<CommandText>
    ensures { option_map told_row result ≡ command_named name.now }
{
    row_named(&COMMANDS, name)
}

/// The first command whose name is one letter off this word: one letter is another, or one more, or missing.
pub fn command_near(word: &str) -> Option<CommandText>
    ensures { option_map told_row result ≡ command_near word.now }
{
    row_near(&COMMANDS, word)
}

// The command of this name in a table.
fn row_named(
    mut table: &[(&'static str, &'static str, &'static str)],
    name: &str,
) -> Option<CommandText>
    ensures { option_map told_row result
        ≡ row_named (map (λ r. (r.0.now, (r.1.now, r.2.now))) table.entry.now) name.now }
{
    while let [row, rest @ ..] = table {
        if row.0 == name {
            return Some(CommandText {
                name: row.0,
                usage: row.1,
                page: row.2,
            });
        }
        table = rest;
    }
    None
}

// The first command of a table whose name is near a word.
fn row_near(
    mut table: &[(&'static str, &'static str, &'static str)],
    word: &str,
) -> Option<CommandText>
    ensures { option_map told_row result
        ≡ row_near (map (λ r. (r.0.now, (r.1.now, r.2.now))) table.entry.now) word.now }
{
    while let [row, rest @ ..] = table {
        if is_near(row.0.as_bytes(), word.as_bytes()) {
            return Some(CommandText {
                name: row.0,
                usage: row.1,
                page: row.2,
            });
        }
        table = rest;
    }
    None
}

// Whether two words are one letter off each other, or the same.
fn is_near(mut name: &[u8], mut word: &[u8]) -> bool
    ensures { result ≡ is_near name.entry.now word.entry.now }
{
    while let [a, names @ ..] = name {
        match word {
            [b, words @ ..] => {
                if a != b {
                    return names == words || names == word || name == words;
                }
                name = names;
                word = words;
            }
            [] => return name.len() <= 1,
        }
    }
    word.len() <= 1
}
