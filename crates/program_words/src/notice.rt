// What the program tells of itself.
ghost use Rattle.std.specs.Prelude.{◌≡◌, ◌⊎◌, option_map};
ghost use Rattle.room_ports.specs.Bytes.{Takes, TakesFront};
ghost use Rattle.room_ports.specs.Counts.{HasRisen};
ghost use Rattle.program_words.specs.Notices.{lone_notice, notice_of, page_of, pair_notice, text_of, wants_help};
ghost use Rattle.code_texts.specs.CodeTexts.{code_text};

use crate::commands::command_named;
use code_texts::code_text;
use line_words::Words;
use room_ports::{Failed, Sink, put};

/// How the program is called.
pub const HELP: &str = "\
usage: cutroom COMMAND

cutroom keeps the edit of one sequence, changes it on request, and lists it.

  run TRACKS REELS                              edit an empty cut
  run DOC RATE DROP                             edit the cut of a document
  serve DOC RATE DROP STATIONS ADDRESS JOURNAL  several people edit it at once
  store DOC RATE DROP STATIONS ADDRESS JOURNAL  the same, and outlive a stop
  list DOC RATE DROP JOURNAL POINT [..]         write the CMX 3600 list of a cut
  tape LIST RATE                                what such a list shows
  import LIST RATE DROP                         such a list as a document
  follow DOC RATE DROP                          a room again, from its news
  audit DOC RATE DROP JOURNAL LINES REPLIES ..  whether a journal explains it
  make NUMBER COUNT                             run a generated session
  explain CODE                                  what a code or a status means
  help [COMMAND]                                this text, or a page on COMMAND
  --version                                     the version

DOC is the path of an OpenTimelineIO file and RATE its frames a second: 23.976,
24, 25, 29.97 or 30. DROP is ndf, or drop at 29.97. LIST is the path of a CMX
3600 list. TRACKS is 1 to 32, REELS 0 to 999, STATIONS 1 to 16, COUNT 1 to
20000. POINT is how many edits of a journal to do: 0 is the cut of DOC itself.
LINES is the path of a file of what a station sent, REPLIES of what it got.

Exit statuses
  0  done                                5  no station could be seated
  1  a file or the input was not read    6  out of memory
  2  the output was not written          7  more than 64 MiB of input
  3  the words are no command            8  the cut has no list
  4  a file is refused                   9  the disk of the journal failed

Examples
  printf 'items 0\\nview 0 0 96\\n' | cutroom run examples/kitchen.otio 24 ndf
  printf 'overwrite 0 10 @0 100 5\\nview 0 0 15\\n' | cutroom run 2 1

More is in docs: which lines can be sent and what they are answered in
PROTOCOL.md, documents in DOCUMENTS.md, lists in LISTS.md, several people at
once in SERVING.md.
";

/// What is said where no command is given.
pub const NO_WORDS: &str = "\
cutroom: usage: cutroom COMMAND, where COMMAND is one of
cutroom:   run serve store list tape import follow audit make explain help
cutroom: cutroom --help says what each does, cutroom help COMMAND more of one
";

/// The program and its version.
pub const VERSION: &str = "cutroom 0.1\n";

/// The status of a program that wrote all that it was to write.
const WRITTEN: u8 = 0;

/// The status of a program whose output failed.
const WRITE_FAULT: u8 = 2;

/// A text on the program itself.
#[derive(Clone, Copy, Debug, PartialEq, Eq)]
pub enum Notice {
    Help,
    Version,
    /// The page of a command.
    Command(&'static str),
    /// What a code means.
    Code(&'static str),
}

impl Notice {
    #[tactic(auto, using(crate::proofs::FewWords::one_word, crate::proofs::FewWords::two_words, crate::proofs::FewWords::other_words))]
    /// The notice that a command line asks for: `--help`, `-h` or `help`, also with one command; a command with `--help` or
    /// `-h`; `--version` or `-V`; `explain` with a code that there is.
    pub fn asked_by(words: &Words) -> Option<Notice>
        ensures { option_map text_of result ≡ notice_of words.now }
    {
        match words.count() {
            1 => lone_notice(words.word(0)),
            2 => pair_notice(words.word(0), words.word(1)),
            _ => None,
        }
    }

    // The text of the notice.
    fn text(self) -> &'static str
        ensures { result.now ≡ text_of self }
    {
        match self {
            Notice::Help => HELP,
            Notice::Version => VERSION,
            Notice::Command(page) => page,
            Notice::Code(text) => text,
        }
    }

    /// Puts the notice on output, and answers the status that the program ends with: 0, or 2 where a write failed.
    pub fn tell<K: Sink>(self, output: &mut K) -> u8
        ensures status { (result ≡ 0) ⊎ (result ≡ 2) }
        ensures told { result ≡ 0 → Takes (K.taken output.old) (K.taken output.new) (text_of self) }
        ensures front { result ≡ 2 → TakesFront (K.taken output.old) (K.taken output.new)
            (text_of self) }
        ensures cause { result ≡ 2 → HasRisen (K.write_faults output.old)
            (K.write_faults output.new) }
        ensures quiet { result ≡ 0 → K.write_faults output.new ≡ K.write_faults output.old }
    {
        match put(output, self.text().as_bytes()) {
            Ok(()) => WRITTEN,
            Err(Failed) => WRITE_FAULT,
        }
    }
}

// Whether a word asks for help.
fn wants_help(word: &str) -> bool
    ensures { result ≡ wants_help word.now }
{
    word == "--help" || word == "-h"
}

// The notice that one word asks for.
fn lone_notice(word: &str) -> Option<Notice>
    ensures { option_map text_of result ≡ lone_notice word.now }
{
    if wants_help(word) || word == "help" {
        return Some(Notice::Help);
    }
    if word == "--version" || word == "-V" {
        return Some(Notice::Version);
    }
    None
}

// The notice that two words ask for.
fn pair_notice(first: &str, second: &str) -> Option<Notice>
    ensures { option_map text_of result ≡ pair_notice first.now second.now }
{
    if wants_help(first) || first == "help" {
        return page_of(second);
    }
    if wants_help(second) {
        return page_of(first);
    }
    if first == "explain" {
        return code_notice(second);
    }
    None
}

// The page of a command.
fn page_of(name: &str) -> Option<Notice>
    ensures { option_map text_of result ≡ page_of name.now }
{
    match command_named(name) {
        Some(row) => Some(Notice::Command(row.page)),
        None => None,
    }
}

// What a code means.
fn code_notice(code: &str) -> Option<Notice>
    ensures { option_map text_of result ≡ code_text code.now }
{
    match code_text(code) {
        Some(text) => Some(Notice::Code(text)),
        None => None,
    }
}
