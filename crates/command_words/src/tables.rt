// The namer of a list whose words give its reels their names.
ghost use Rattle.std.specs.Prelude.{◌≡◌, ◌≤◌, ◌++◌, ◌∷◌, [], codes, drop, length, map, option_map, slice_get, true, IfOk, None, OnOk};
ghost use Rattle.command_words.specs.Commands.{is_word};
ghost use Rattle.command_words.specs.NamedLists.{table_asked, wants_table};
ghost use Rattle.command_words.specs.Names.{first_fault, row_of, word_fault};

use crate::command::{Command, command_in};
use crate::names::{FIRST_ROW, row_in, says_names};
use line_words::{Memory, Words};
use reel_names::{Name, TableFault, Tabled};
use std::alloc::Global;

/// The namer that has the table which the words of a list give, `list DOC RATE DROP JOURNAL POINT names TEXT=NAME ..`;
/// `None` where the words are no such list.
pub fn tabled_of(alloc: Global, words: &Words) -> Result<Option<Tabled>, Memory>
    ensures { IfOk result (λ namer. namer ≡ table_asked words.now) }
{
    if !wants_table(words) {
        return Ok(None);
    }
    Ok(Some(table_in(alloc, words)?))
}

// Whether a list is asked for whose reels have names from a table.
fn wants_table(words: &Words) -> bool
    ensures wants { result ≡ wants_table words.now }
    ensures count { result ≡ true → 7 ≤ length words.now }
    ensures rows { result ≡ true → first_fault [] (drop 7 words.now) ≡ None }
{
    match command_in(words) {
        Some(Command::ListCut { .. }) => says_names(words),
        _ => false,
    }
}

// The rows of all words after the seventh, as the table of a namer that has given no name.
fn table_in(alloc: Global, words: &Words) -> Result<Tabled, Memory>
    requires count { 7 ≤ length words.now }
    requires rows { first_fault [] (drop 7 words.now) ≡ None }
    ensures { IfOk result (λ namer. namer
        ≡ record { table = map row_of (drop 7 words.now); given = [] }) }
{
    let mut namer = Tabled::new(alloc);
    for i in FIRST_ROW..words.count() {
        add_row(&mut namer, words.word(i))?;
    }
    Ok(namer)
}

// Adds the row that a word gives, after the others.
fn add_row(namer: &mut Tabled, word: &str) -> Result<(), Memory>
    requires { word_fault namer.old.table (row_of word.now) ≡ None }
    ensures { OnOk result (namer.new ≡ record {
      table = namer.old.table ++ row_of word.now ∷ [];
      given = namer.old.given;
    }) }
{
    let (text, name) = row_in(word);
    let name = Name::of(name.as_bytes()).unwrap();
    match namer.add(text, &name) {
        Ok(()) => Ok(()),
        Err(TableFault::Memory) => Err(Memory),
        Err(_) => unreachable!(),
    }
}
