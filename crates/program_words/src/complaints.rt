// What standard error is told.
ghost use Rattle.std.specs.Prelude.{◌≡◌, ◌<◌, length};
ghost use Rattle.program_words.specs.Complaints.{complaint_of, command_complaint, fault_message, hindrance_text, no_command, notice_complaint, part_text, rule_text, second_complaint, status_text, told_by, unknown_command, words_complaint};

use crate::commands::{command_named, command_near};
use crate::notice::NO_WORDS;
use command_words::{Part, RowFault, WordFault, word_fault};
use line_words::Words;

/// Lines on a fault that neither the status tells nor the object that failed: a text, a word of the command line, a text
/// after it, and how the command is called. All are empty where those say enough.
#[derive(Clone, Copy)]
pub struct Message<'a> {
    pub before: &'static str,
    pub word: &'a str,
    pub after: &'static str,
    pub usage: &'static str,
}

/// Why a hall is not opened that words ask for.
#[derive(Clone, Copy, Debug, PartialEq, Eq)]
pub enum Hindrance<'a> {
    /// This name of the journal leads to the document.
    OneFile(&'a str),
    /// The system gives fewer threads than there are stations.
    FewThreads,
    /// What the environment says of silent stations is no time.
    NoTime,
}

/// What is told of a hindrance.
pub fn hindrance_text(why: Hindrance<'_>) -> Message<'_>
    ensures { told_by result ≡ hindrance_text why.entry }
{
    match why {
        Hindrance::OneFile(journal) => Message {
            before: "cutroom: ",
            word: journal,
            after: " is the document itself: the journal needs a file of its own\n",
            usage: "",
        },
        Hindrance::FewThreads => plain(
            "cutroom: the system gives fewer threads than there are stations: look at ulimit -u, ulimit -v and TasksMax=\n",
        ),
        Hindrance::NoTime => plain(
            "cutroom: CUTROOM_IDLE_SECONDS has to be a number of seconds from 1 to 1000000\n",
        ),
    }
}

/// What is told of these words at a status: at 3 what they have wrong, at others what the status does not say.
pub fn complaint(words: &Words, status: u8) -> Message<'_>
    ensures { told_by result ≡ complaint_of words.now status }
{
    match status {
        3 => words_complaint(words),
        _ => plain(status_text(status)),
    }
}

// What is one text, with no word in it.
fn plain<'a>(text: &'static str) -> Message<'a>
    ensures { told_by result ≡ text.now }
{
    Message {
        before: text,
        word: "",
        after: "",
        usage: "",
    }
}

// What is told at a status, whatever the words; nothing where the status says enough.
fn status_text(status: u8) -> &'static str
    ensures { result.now ≡ status_text status }
{
    match status {
        5 => "cutroom: the address could not be opened, or a station not seated\n",
        7 => "cutroom: the input, or a line, has more than 64 MiB\n",
        9 => {
            "cutroom: the disk of the journal failed; after a write or a sync that failed check it and reboot before the next start, since the system may call the next sync done\n"
        }
        _ => "",
    }
}

// What is told of words that are refused: the first that can't stand where it stands, or what is missing, and how the
// command is called.
fn words_complaint(words: &Words) -> Message<'_>
    ensures { told_by result ≡ words_complaint words.now }
{
    if words.count() == 0 {
        return plain(NO_WORDS);
    }
    match command_named(words.word(0)) {
        Some(row) => command_complaint(words, row.usage),
        None => unknown_command(words.word(0)),
    }
}

// What is told of a word that begins no command: the usage of the one that is near, or where they are listed.
fn unknown_command(word: &str) -> Message<'_>
    ensures { told_by result ≡ unknown_command word.now }
{
    match command_near(word) {
        Some(row) => no_command(word, row.usage),
        None => no_command(word, "cutroom: cutroom --help lists the commands\n"),
    }
}

// What is told of a word that begins no command, and how another is called.
fn no_command<'a>(word: &'a str, usage: &'static str) -> Message<'a>
    ensures { told_by result ≡ no_command word.now usage.now }
{
    Message {
        before: "cutroom: ",
        word,
        after: ": there is no such command\n",
        usage,
    }
}

// What is told of the words of a command that is called so.
fn command_complaint<'a>(words: &'a Words, usage: &'static str) -> Message<'a>
    requires { 0 < length words.now }
    ensures { told_by result ≡ command_complaint words.now usage.now }
{
    match word_fault(words) {
        Some((word, fault)) => fault_message(word, fault, usage),
        None => notice_complaint(words, usage),
    }
}

// What is told of a word with this fault, in a command that is called so.
fn fault_message<'a>(word: &'a str, fault: WordFault, usage: &'static str) -> Message<'a>
    ensures { told_by result ≡ fault_message word.now fault usage.now }
{
    let (before, after) = match fault {
        WordFault::Missing(part) => ("cutroom: a word is missing", part_text(part)),
        WordFault::Wrong(part) => ("cutroom: ", part_text(part)),
        WordFault::Beyond => ("cutroom: ", ": a word too many\n"),
        WordFault::Row(row) => ("cutroom: ", rule_text(row)),
    };
    Message {
        before,
        word,
        after,
        usage,
    }
}

// What is told of words that begin as a notice of the program on itself, and ask for none: their second word is missing or
// wrong, or there is a third. Of others how they are called.
fn notice_complaint<'a>(words: &'a Words, usage: &'static str) -> Message<'a>
    requires { 0 < length words.now }
    ensures { told_by result ≡ notice_complaint words.now usage.now }
{
    match words.word(0) {
        "explain" => second_complaint(
            words,
            ": CODE is a code of a refusal, as O4 or E10, or an exit status, 0 to 9\n",
            usage,
        ),
        "help" => second_complaint(
            words,
            ": COMMAND is the first word of a command, as run\n",
            usage,
        ),
        _ => plain(usage),
    }
}

// What is told of words of which the second breaks this rule, or is missing, or has one after it.
fn second_complaint<'a>(words: &'a Words, rule: &'static str, usage: &'static str) -> Message<'a>
    requires { 0 < length words.now }
    ensures { told_by result ≡ second_complaint words.now rule.now usage.now }
{
    let (before, word, after) = match words.count() {
        1 => ("cutroom: a word is missing", "", rule),
        2 => ("cutroom: ", words.word(1), rule),
        _ => ("cutroom: ", words.word(2), ": a word too many\n"),
    };
    Message {
        before,
        word,
        after,
        usage,
    }
}

// What a word has to say.
fn part_text(part: Part) -> &'static str
    ensures { result.now ≡ part_text part }
{
    match part {
        Part::Document => ": DOC is the path of an OpenTimelineIO file\n",
        Part::List => ": LIST is the path of a CMX 3600 list\n",
        Part::Journal => ": JOURNAL is the path of a journal's file\n",
        Part::Address => ": ADDRESS is HOST:PORT, as 127.0.0.1:7000\n",
        Part::Rate => ": RATE is one of 23.976, 24, 25, 29.97 and 30\n",
        Part::Drop => ": DROP is ndf, or drop where RATE is 29.97\n",
        Part::Stations => ": STATIONS is a number from 1 to 16\n",
        Part::Tracks => ": TRACKS is a number from 1 to 32\n",
        Part::Reels => ": REELS is a number from 0 to 999\n",
        Part::Point =>
            ": POINT is how many entries of the journal to do, 0 for the document's own cut\n",
        Part::Number => ": NUMBER is a number from 0 to 4294967295\n",
        Part::Count => ": COUNT is a number from 1 to 20000\n",
        Part::Naming => ": after POINT comes nothing, or numbered, or names TEXT=NAME ..\n",
        Part::Row => ": after names comes TEXT=NAME, once or more\n",
        Part::Lines => ": LINES is the path of a file of what a station sent\n",
        Part::Replies => ": REPLIES is the path of a file of what a station got\n",
    }
}

// The rule that a word breaks which names no reel.
fn rule_text(fault: RowFault) -> &'static str
    ensures { result.now ≡ rule_text fault }
{
    match fault {
        RowFault::NoText => ": wanted is TEXT=NAME, with TEXT the name of a reel in the document\n",
        RowFault::Unfit => ": a NAME has 1 to 8 characters of A-Z, 0-9 and _, and is not BL\n",
        RowFault::Again => ": an earlier word has this TEXT\n",
        RowFault::Taken => ": an earlier word has this NAME\n",
    }
}
