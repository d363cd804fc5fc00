// Words of the command line, what they ask for, and what standard error says of those that are refused.
use code_texts::code_text;
use command_words::{Command, RecordNames, command_in, records_of, tabled_of};
use line_words::{Memory, Words};
use program_words::{
    COMMANDS, HELP, NO_WORDS, Notice, VERSION, command_named, complaint, words_after_the_name,
};
use room_ports::MemSink;
use std::alloc::Global;

// These texts as words, in their order.
fn words_in(alloc: Global, texts: &[&str]) -> Result<Words, Memory> {
    let mut words = Words::new(alloc);
    for text in texts {
        if words.count() < u32::MAX {
            words.push(text)?;
        }
    }
    Ok(words)
}

// The text that words ask for.
fn text_asked(words: &Words) -> Option<&'static str> {
    match Notice::asked_by(words) {
        Some(Notice::Help) => Some(HELP),
        Some(Notice::Version) => Some(VERSION),
        Some(Notice::Command(page)) => Some(page),
        Some(Notice::Code(text)) => Some(text),
        None => None,
    }
}

#[test]
fn few_words_ask_for_a_notice(rt: HostRuntime) -> Result<(), Memory> {
    let alloc = rt.alloc();
    let page = match command_named("run") {
        Some(row) => Some(row.page),
        None => None,
    };
    let meaning = code_text("O4");
    assert!(rt; page.is_some() && meaning.is_some());
    let cases: [(&[&str], Option<&str>); 22] = [
        (&["--help"], Some(HELP)),
        (&["-h"], Some(HELP)),
        (&["help"], Some(HELP)),
        (&["--version"], Some("cutroom 0.1\n")),
        (&["-V"], Some("cutroom 0.1\n")),
        (&["help", "run"], page),
        (&["--help", "run"], page),
        (&["-h", "run"], page),
        (&["run", "--help"], page),
        (&["run", "-h"], page),
        (&["explain", "O4"], meaning),
        (&[], None),
        (&[""], None),
        (&["--Help"], None),
        (&["--help "], None),
        (&["--help", "--help"], None),
        (&["help", "walk"], None),
        (&["run", "help"], None),
        (&["explain"], None),
        (&["explain", "O99"], None),
        (&["explain", "O4", "O4"], None),
        (&["run", "2", "1"], None),
    ];
    for (texts, text) in cases {
        let words = words_in(alloc, texts)?;
        assert!(rt; text_asked(&words) == text, "{texts:?}");
    }
    Ok(())
}

#[test]
fn a_notice_is_told_whole_or_is_a_write_fault(rt: HostRuntime) -> Result<(), Memory> {
    let alloc = rt.alloc();
    let cases = [
        (Notice::Help, HELP),
        (Notice::Version, "cutroom 0.1\n"),
        (Notice::Code("E2\n"), "E2\n"),
    ];
    for (notice, text) in cases {
        let mut sink = MemSink::new(alloc, Vec::new(alloc));
        assert_eq!(rt; notice.tell(&mut sink), 0);
        assert!(rt; sink.bytes() == Some(text.as_bytes()));

        let mut failing = Vec::new(alloc);
        failing.push(1)?;
        let mut broken = MemSink::new(alloc, failing);
        assert_eq!(rt; notice.tell(&mut broken), 2);
    }
    Ok(())
}

// Each command stands in `--help` and in the short usage, its usage line begins with its name, and so does its page.
#[test]
fn each_command_is_told_everywhere(rt: HostRuntime) -> Result<(), Memory> {
    let alloc = rt.alloc();
    for (name, usage, page) in COMMANDS {
        let line = format!(in alloc; "\n  {name} ")?;
        assert!(rt; HELP.contains(line.as_str()), "{name}");
        let word = format!(in alloc; " {name}")?;
        assert!(rt; NO_WORDS.contains(word.as_str()), "{name}");
        let called = format!(in alloc; "cutroom: usage: {name} ")?;
        assert!(rt; usage.starts_with(called.as_str()), "{name}");
        let head = format!(in alloc; "cutroom {name}")?;
        assert!(rt; page.starts_with(head.as_str()), "{name}");
        assert!(rt; are_narrow(page), "{name}");
    }
    assert!(rt; are_narrow(HELP) && are_narrow(NO_WORDS));
    Ok(())
}

// Whether no line of a text has more than 80 bytes.
fn are_narrow(text: &str) -> bool {
    let mut len = 0u32;
    for byte in text.as_bytes() {
        len = if *byte == b'\n' {
            0
        } else {
            len.wrapping_add(1)
        };
        if len > 80 {
            return false;
        }
    }
    true
}

// Calls of a newcomer that are refused: the words, the one that is wrong, nothing where one is missing, the rule that it
// breaks, and the command whose usage is told, where one begins so or nearly so. (A table of texts in one text takes a
// fraction of the check of one of slices.)
const REFUSED: &str = "\
foo | foo | there is no such command |
field.otio | field.otio | there is no such command |
--version run | --version | there is no such command |
Run 2 1 | Run | there is no such command | run
lst | lst | there is no such command | list
serves | serves | there is no such command | serve
sttore | sttore | there is no such command | store
-help | -help | there is no such command | help
tap | tap | there is no such command | tape
run |  | DOC is the path of an OpenTimelineIO file | run
run d.otio |  | RATE is one of 23.976, 24, 25, 29.97 and 30 | run
run d.otio 24 |  | DROP is ndf, or drop where RATE is 29.97 | run
run d.otio 23,976 ndf | 23,976 | RATE is one of 23.976, 24, 25, 29.97 and 30 | run
run d.otio 25fps ndf | 25fps | RATE is one of 23.976, 24, 25, 29.97 and 30 | run
run d.otio 50 ndf | 50 | RATE is one of 23.976, 24, 25, 29.97 and 30 | run
run d.otio 59.94 drop | 59.94 | RATE is one of 23.976, 24, 25, 29.97 and 30 | run
run d.otio 24 drop | drop | DROP is ndf, or drop where RATE is 29.97 | run
run d.otio 24 df | df | DROP is ndf, or drop where RATE is 29.97 | run
run d.otio 24 NDF | NDF | DROP is ndf, or drop where RATE is 29.97 | run
run d.otio 24 ndf x | x | a word too many | run
run -- 2 1 | 2 | RATE is one of 23.976, 24, 25, 29.97 and 30 | run
run 33 1 | 33 | TRACKS is a number from 1 to 32 | run
run 0 1 | 0 | TRACKS is a number from 1 to 32 | run
run 2 1000 | 1000 | REELS is a number from 0 to 999 | run
run 2 one | one | REELS is a number from 0 to 999 | run
run 2 |  | REELS is a number from 0 to 999 | run
serve |  | DOC is the path of an OpenTimelineIO file | serve
serve a b | b | RATE is one of 23.976, 24, 25, 29.97 and 30 | serve
serve d 24 ndf 17 a j | 17 | STATIONS is a number from 1 to 16 | serve
serve d 24 ndf 0 a j | 0 | STATIONS is a number from 1 to 16 | serve
serve d 24 ndf two a j | two | STATIONS is a number from 1 to 16 | serve
serve d 24 ndf 2 |  | ADDRESS is HOST:PORT, as 127.0.0.1:7000 | serve
serve d 24 ndf 2 a |  | JOURNAL is the path of a journal's file | serve
serve d 24 ndf 2 a j k | k | a word too many | serve
store d 24 ndf 17 a j | 17 | STATIONS is a number from 1 to 16 | store
store d 50 ndf 2 a | 50 | RATE is one of 23.976, 24, 25, 29.97 and 30 | store
list d 24 ndf |  | JOURNAL is the path of a journal's file | list
list d 24 ndf j |  | POINT is how many entries of the journal to do, 0 for the document's own cut | list
list d 24 ndf j last | last | POINT is how many entries of the journal to do, 0 for the document's own cut | list
list d 24 ndf j -1 | -1 | POINT is how many entries of the journal to do, 0 for the document's own cut | list
list d 24 ndf j 4294967296 | 4294967296 | POINT is how many entries of the journal to do, 0 for the document's own cut | list
list d 24 ndf j 0 number | number | after POINT comes nothing, or numbered, or names TEXT=NAME .. | list
list d 24 ndf j 0 numbered x | x | a word too many | list
list d 24 ndf j 0 names |  | after names comes TEXT=NAME, once or more | list
list d 24 ndf j 0 A=B | A=B | after POINT comes nothing, or numbered, or names TEXT=NAME .. | list
tape |  | LIST is the path of a CMX 3600 list | tape
tape l |  | RATE is one of 23.976, 24, 25, 29.97 and 30 | tape
tape l 24 ndf | ndf | a word too many | tape
import l 24 |  | DROP is ndf, or drop where RATE is 29.97 | import
follow d 24 drop | drop | DROP is ndf, or drop where RATE is 29.97 | follow
audit d 24 ndf j |  | LINES is the path of a file of what a station sent | audit
audit d 24 ndf j a |  | REPLIES is the path of a file of what a station got | audit
audit d 24 ndf j a b cut c |  | REPLIES is the path of a file of what a station got | audit
audit d 24 drop j a b | drop | DROP is ndf, or drop where RATE is 29.97 | audit
audit d 24 ndf j a b a b a b a b a b a b a b a b a b a b a b a b a b a b a b a b x y | x | a word too many | audit
make |  | NUMBER is a number from 0 to 4294967295 | make
make 1 |  | COUNT is a number from 1 to 20000 | make
make x 1 | x | NUMBER is a number from 0 to 4294967295 | make
make 1 0 | 0 | COUNT is a number from 1 to 20000 | make
make 1 20001 | 20001 | COUNT is a number from 1 to 20000 | make
explain |  | CODE is a code of a refusal, as O4 or E10, or an exit status, 0 to 9 | explain
explain O99 | O99 | CODE is a code of a refusal, as O4 or E10, or an exit status, 0 to 9 | explain
explain O4 now | now | a word too many | explain
help walk | walk | COMMAND is the first word of a command, as run | help
help run now | now | a word too many | help
";

#[test]
fn a_newcomer_is_told_what_to_do(rt: HostRuntime) -> Result<(), Memory> {
    let alloc = rt.alloc();
    let mut count = 0usize;
    for row in REFUSED.lines() {
        assert!(rt; is_told(alloc, row)?.unwrap_or(false), "{row}");
        count = count.wrapping_add(1);
    }
    assert_eq!(rt; count, 65);
    let none = words_in(alloc, &[])?;
    let told = complaint(&none, 3);
    assert!(rt; told.before == NO_WORDS && told.word.is_empty() && told.usage.is_empty());
    Ok(())
}

// Whether the words of a row are refused as it says; nothing where it is no row.
fn is_told(alloc: Global, row: &str) -> Result<Option<bool>, Memory> {
    let Some((texts, rest)) = row.split_once(" | ") else {
        return Ok(None);
    };
    let Some((word, rest)) = rest.split_once(" | ") else {
        return Ok(None);
    };
    let Some((rule, usage)) = rest.split_once(" |") else {
        return Ok(None);
    };
    let words = words_of(alloc, texts)?;
    let told = complaint(&words, 3);
    let before = if word.is_empty() {
        "cutroom: a word is missing"
    } else {
        "cutroom: "
    };
    Ok(Some(
        told.before == before
            && told.word == word
            && rule_in(told.after) == rule
            && told.usage == usage_of(usage.trim()),
    ))
}

// A rule as it is told, without the marks before and after it.
fn rule_in(told: &str) -> &str {
    let told = told.strip_prefix(": ").unwrap_or("");
    told.strip_suffix("\n").unwrap_or("")
}

// The words of a text, with blanks between them.
fn words_of(alloc: Global, text: &str) -> Result<Words, Memory> {
    let mut words = Words::new(alloc);
    for word in text.split(' ') {
        if words.count() < u32::MAX {
            words.push(word)?;
        }
    }
    Ok(words)
}

// How the command of a name is called, or where commands are listed.
fn usage_of(name: &str) -> &'static str {
    match command_named(name) {
        Some(row) => row.usage,
        None => "cutroom: cutroom --help lists the commands\n",
    }
}

#[test]
fn the_first_argument_is_no_word(rt: HostRuntime) -> Result<(), Memory> {
    let alloc = rt.alloc();
    let mut arguments = Vec::new(alloc);
    for text in ["/bin/cutroom", "run", "", "cutroom"] {
        arguments.push(String::from_str(alloc, text)?)?;
    }
    let words = words_after_the_name(alloc, arguments.into_iter())?;
    assert_eq!(rt; words.count(), 3);
    if words.count() == 3 {
        assert_eq!(rt; words.word(0), "run");
        assert_eq!(rt; words.word(1), "");
        assert_eq!(rt; words.word(2), "cutroom");
    }
    Ok(())
}

// What standard error is told of words that are refused.
#[test]
fn a_word_that_names_no_reel_is_told(rt: HostRuntime) -> Result<(), Memory> {
    let alloc = rt.alloc();
    let (unfit, again) = (
        ": a NAME has 1 to 8 characters of A-Z, 0-9 and _, and is not BL\n",
        ": an earlier word has this TEXT\n",
    );
    let no_text = ": wanted is TEXT=NAME, with TEXT the name of a reel in the document\n";
    let taken = ": an earlier word has this NAME\n";
    let cases: [(&[&str], &str, &str); 10] = [
        (&["A=B", "TAPE=toolong123", "A=B"], "TAPE=toolong123", unfit),
        (&["A=BL"], "A=BL", unfit),
        (&["A="], "A=", unfit),
        (&["A"], "A", no_text),
        (&["=A"], "=A", no_text),
        (&["="], "=", no_text),
        (&["A=B", "A=C"], "A=C", again),
        (&["A=B", "A=B"], "A=B", again),
        (&["A=B", "C=D", "E=B"], "E=B", taken),
        (&["A==B", "A=C", "=A=D"], "", ""),
    ];
    for (rows, word, rule) in cases {
        let mut words = words_in(alloc, &["list", "d", "24", "ndf", "j", "0", "names"])?;
        for row in rows {
            if words.count() < u32::MAX {
                words.push(row)?;
            }
        }
        let told = complaint(&words, 3);
        assert!(rt; told.word == word && told.after == rule, "{rows:?}");
        assert_eq!(rt;
            tabled_of(alloc, &words)?.is_some(),
            word.is_empty(),
            "{rows:?}"
        );
    }
    Ok(())
}

// The words of a list, and whether they ask for a table of names.
#[test]
fn a_table_is_asked_for_by_names(rt: HostRuntime) -> Result<(), Memory> {
    let alloc = rt.alloc();
    let cases: [(&[&str], bool); 7] = [
        (&["list", "d", "24", "ndf", "j", "0", "names", "A=B"], true),
        (&["list", "d", "24", "ndf", "j", "0", "names"], false),
        (&["list", "d", "24", "ndf", "j", "0"], false),
        (&["list", "d", "24", "ndf", "j", "0", "numbered"], false),
        (
            &["list", "d", "24", "ndf", "j", "0", "numbered", "A=B"],
            false,
        ),
        (&["list", "d", "50", "ndf", "j", "0", "names", "A=B"], false),
        (&["tape", "d", "24", "ndf", "j", "0", "names", "A=B"], false),
    ];
    for (texts, has_table) in cases {
        let words = words_in(alloc, texts)?;
        assert_eq!(rt; tabled_of(alloc, &words)?.is_some(), has_table, "{texts:?}");
    }
    Ok(())
}

// The stations of a hall that these words ask for whose journal is kept, where its names are these.
fn stations_stored(words: &Words) -> Option<u32> {
    match command_in(words) {
        Some(
            Command::Store {
                document,
                stations,
                address,
                journal,
                ..
            },
        ) => {
            if document == "d" && address == "a" && journal == "j" {
                Some(stations)
            } else {
                None
            }
        }
        _ => None,
    }
}

// The words of `store`, and how many stations they ask for.
#[test]
fn a_hall_is_asked_for_by_store(rt: HostRuntime) -> Result<(), Memory> {
    let alloc = rt.alloc();
    let cases: [(&[&str], Option<u32>); 13] = [
        (&["store", "d", "24", "ndf", "1", "a", "j"], Some(1)),
        (&["store", "d", "24", "ndf", "16", "a", "j"], Some(16)),
        (&["store", "d", "29.97", "drop", "02", "a", "j"], Some(2)),
        (&["store", "d", "24", "ndf", "0", "a", "j"], None),
        (&["store", "d", "24", "ndf", "17", "a", "j"], None),
        (&["store", "d", "24", "ndf", "two", "a", "j"], None),
        (&["store", "d", "24", "ndf", "2", "a"], None),
        (&["store", "d", "24", "ndf", "2", "a", "j", "j"], None),
        (&["store", "d", "50", "ndf", "2", "a", "j"], None),
        (&["store", "d", "24", "drop", "2", "a", "j"], None),
        (&["store"], None),
        (&["Store", "d", "24", "ndf", "2", "a", "j"], None),
        (&["serve", "d", "24", "ndf", "2", "a", "j"], None),
    ];
    for (texts, stations) in cases {
        let words = words_in(alloc, texts)?;
        assert!(rt; stations_stored(&words) == stations, "{texts:?}");
    }
    Ok(())
}

// What standard error is told of a status by itself.
#[test]
fn what_a_status_is_told(rt: HostRuntime) -> Result<(), Memory> {
    let alloc = rt.alloc();
    let disk =
        "cutroom: the disk of the journal failed; after a write or a sync that failed check it and reboot before the next start, since the system may call the next sync done\n";
    let words = words_in(alloc, &["store", "d", "24", "ndf", "2", "a", "j"])?;
    for (status, text) in [(0, ""), (8, ""), (9, disk), (10, "")] {
        let told = complaint(&words, status);
        assert!(rt; told.before == text && told.word.is_empty() && told.usage.is_empty());
    }
    Ok(())
}

// The document that these words follow.
fn document_followed<'a>(words: &'a Words) -> Option<&'a str> {
    match command_in(words) {
        Some(Command::Follow { document, .. }) => Some(document),
        _ => None,
    }
}

// The words of `follow`, and the document that they name.
#[test]
fn a_mirror_is_asked_for_by_follow(rt: HostRuntime) -> Result<(), Memory> {
    let alloc = rt.alloc();
    let cases: [(&[&str], Option<&str>); 15] = [
        (&["follow", "d", "24", "ndf"], Some("d")),
        (&["follow", "d", "29.97", "drop"], Some("d")),
        (&["follow", "d", "29.97", "ndf"], Some("d")),
        (&["follow", "", "24.0", "ndf"], Some("")),
        (&["follow", "d", "24", "drop"], None),
        (&["follow", "d", "50", "ndf"], None),
        (&["follow", "d", "fast", "ndf"], None),
        (&["follow", "d", "24", "NDF"], None),
        (&["follow", "d", "24"], None),
        (&["follow", "2", "1"], None),
        (&["follow", "d", "24", "ndf", "j"], None),
        (&["follow"], None),
        (&["Follow", "d", "24", "ndf"], None),
        (&["run", "d", "24", "ndf"], None),
        (&["import", "d", "24", "ndf"], None),
    ];
    for (texts, followed) in cases {
        let words = words_in(alloc, texts)?;
        assert!(rt; document_followed(&words) == followed, "{texts:?}");
    }
    Ok(())
}

// Words of an audit, and what they name: of each station its two files, and `cut` where its session was cut short.
const AUDITS: &str = "\
audit d 24 ndf j a b | a b
audit d 29.97 drop j a b cut | a b cut
audit d 24 ndf j a b c d | a b,c d
audit d 24 ndf j a b cut c d | a b cut,c d
audit d 24 ndf j a b c d cut | a b,c d cut
audit d 24 ndf j a a a a | a a,a a
audit d 24 ndf j a cut cut | a cut cut
audit d 24 ndf j cut cut cut cut b | cut cut cut,cut b
audit d 24 ndf j a b a b a b a b a b a b a b a b a b a b a b a b a b a b a b a b | a b,a b,a b,a b,a b,a b,a b,a b,a b,a b,a b,a b,a b,a b,a b,a b
audit d 24 ndf j a b cut a b cut a b cut a b cut a b cut a b cut a b cut a b cut a b cut a b cut a b cut a b cut a b cut a b cut a b cut a b cut | a b cut,a b cut,a b cut,a b cut,a b cut,a b cut,a b cut,a b cut,a b cut,a b cut,a b cut,a b cut,a b cut,a b cut,a b cut,a b cut
audit d 24 ndf j a b a b a b a b a b a b a b a b a b a b a b a b a b a b a b a b a b | none
audit d 24 ndf j a b cut cut | none
audit d 24 ndf j a b c | none
audit d 24 ndf j a | none
audit d 24 ndf j | none
audit d 24 ndf | none
audit | none
audit d 50 ndf j a b | none
audit d 24 drop j a b | none
audit d 24 NDF j a b | none
Audit d 24 ndf j a b | none
list d 24 ndf j a b | none
";

// The words of `audit`, and the files that they name.
#[test]
fn records_are_asked_for_by_audit(rt: HostRuntime) -> Result<(), Memory> {
    let alloc = rt.alloc();
    let mut count = 0usize;
    for row in AUDITS.lines() {
        assert!(rt; names_records(alloc, row)?, "{row}");
        count = count.wrapping_add(1);
    }
    assert_eq!(rt; count, 22);
    Ok(())
}

// Whether the words of a row name the files that it says, or none where they ask for no audit.
fn names_records(alloc: Global, row: &str) -> Result<bool, Memory> {
    let Some((texts, named)) = row.split_once(" | ") else {
        return Ok(false);
    };
    let words = words_of(alloc, texts)?;
    Ok(match command_in(&words) {
        Some(Command::Audit { words, .. }) => are_records(records_of(words).as_slice(), named),
        _ => named == "none",
    })
}

// Whether records are those of a text, with commas between them.
fn are_records(records: &[RecordNames<'_>], named: &str) -> bool {
    let mut texts = named.split(',');
    for record in records {
        match texts.next() {
            Some(text) if is_record(record, text) => {}
            _ => return false,
        }
    }
    texts.next().is_none()
}

// Whether a record is that of a text.
fn is_record(record: &RecordNames<'_>, text: &str) -> bool {
    let (names, is_cut) = match text.strip_suffix(" cut") {
        Some(names) => (names, true),
        None => (text, false),
    };
    match names.split_once(' ') {
        Some((lines, replies)) => {
            record.lines == lines && record.replies == replies && record.is_cut == is_cut
        }
        None => false,
    }
}
