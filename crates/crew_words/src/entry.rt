// What the first line of a connection asks for.
ghost use Rattle.std.specs.Prelude.{◌≡◌};
ghost use Rattle.line_words.specs.Blanks.{words_of};
ghost use Rattle.crew_words.specs.Entries.{asked_by, ping_asked, said_by, sit_asked};

use crate::words::{first_word, without_cr};
use line_words::number;

/// What the first line of a connection asks for.
#[derive(Clone, Copy, Debug)]
pub enum Entry<'a> {
    /// `sit NAME KEY GOT`
    Sit(&'a [u8], &'a [u8], u32),
    /// `ping`
    Ping,
    /// Anything else.
    Nothing,
}

/// What a line asks for, without its line feed and with a carriage return or without.
pub fn entry_in(line: &[u8]) -> Entry<'_>
    ensures { said_by result ≡ asked_by line.now }
{
    match first_word(without_cr(line)) {
        Some((word, rest)) => {
            if word == b"sit".as_slice() {
                sit_in(rest)
            } else if word == b"ping".as_slice() {
                ping_in(rest)
            } else {
                Entry::Nothing
            }
        }
        None => Entry::Nothing,
    }
}

// What `ping` and the words after it ask for.
fn ping_in(rest: &[u8]) -> Entry<'_>
    ensures { said_by result ≡ ping_asked (words_of rest.now) }
{
    match first_word(rest) {
        Some(_) => Entry::Nothing,
        None => Entry::Ping,
    }
}

// What `sit` and the words after it ask for.
fn sit_in(rest: &[u8]) -> Entry<'_>
    ensures { said_by result ≡ sit_asked (words_of rest.now) }
{
    let (name, rest) = match first_word(rest) {
        Some(found) => found,
        None => return Entry::Nothing,
    };
    let (key, rest) = match first_word(rest) {
        Some(found) => found,
        None => return Entry::Nothing,
    };
    let (got, rest) = match first_word(rest) {
        Some(found) => found,
        None => return Entry::Nothing,
    };
    match first_word(rest) {
        Some(_) => return Entry::Nothing,
        None => {}
    }
    match number(got) {
        Ok(got) => Entry::Sit(name, key, got),
        Err(_) => Entry::Nothing,
    }
}
