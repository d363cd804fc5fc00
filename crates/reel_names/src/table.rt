// A table of names by texts.
ghost use Rattle.std.specs.Prelude.{◌≡◌, ◌++◌, ◌∷◌, [], bytes_eq, true, IfOk, IfSome, None, OnErr, OnOk};
ghost use Rattle.reel_names.specs.Names.{fits};
ghost use Rattle.reel_names.specs.Tables.{has_text, is_named, name_in, row_fault};

use crate::name::Name;
use out_of_memory::Memory as OutOfMemory;
use std::alloc::Global;
use std::marker::Model;

/// Why a table takes no row.
#[derive(Clone, Copy, Debug, PartialEq, Eq)]
pub enum TableFault {
    /// A list that is written can't have the name.
    Unfit,
    /// The text has a name.
    Again,
    /// Another text has the name.
    Taken,
    /// Out of memory.
    Memory,
}

impl From<OutOfMemory> for TableFault {
    ghost use Rattle.std.specs.Prelude.{◌≡◌};
    ghost use Rattle.reel_names.specs.declared.table.TableFault.TheVariants.{Memory};

    ghost from_gives = { λ _ fault. fault ≡ Memory };

    // There was no room for one row more.
    fn from(_: OutOfMemory) -> Self {
        TableFault::Memory
    }
}

// A text and its name.
#[derive(Drop)]
struct Row {
    text: String,
    name: Name,
}

impl Model for Row {
    ghost use Rattle.std.specs.Prelude.{string_bytes};
    ghost use Rattle.reel_names.specs.Tables.{NamedText};

    ghost Value = { NamedText };

    ghost view = { λ r. record { text = string_bytes r.text; name = r.name } };
}

impl Row {
    // A row with a copy of the text.
    fn of(alloc: Global, text: &str, name: &Name) -> Result<Row, OutOfMemory>
        ensures { IfOk result (λ row. row ≡ record { text = text.now; name = name.now }) }
    {
        Ok(Row {
            text: String::from_str(alloc, text)?,
            name: *name,
        })
    }

    // Whether it is the row of this text.
    fn is_of(&self, text: &str) -> bool
        ensures { result ≡ bytes_eq self.now.text text.now }
    {
        self.text.as_str() == text
    }

    // Whether its name is this one.
    fn has_name(&self, name: &Name) -> bool
        ensures { result ≡ bytes_eq self.now.name name.now }
    {
        self.name == *name
    }

    // Its name.
    fn name(&self) -> Name
        ensures { result ≡ self.now.name }
    {
        self.name
    }
}

/// Texts and their names, in order, no text twice and no name twice. Contracts see the list of its rows.
#[derive(Drop)]
pub struct Table {
    alloc: Global,
    rows: Vec<Row>,
}

impl Model for Table {
    ghost use Rattle.std.specs.Prelude.{List};
    ghost use Rattle.reel_names.specs.Tables.{IsTable, NamedText};

    ghost Value = { List NamedText };

    ghost view = { λ t. t.rows.items };

    ghost invariant = { λ t. IsTable t.rows.items };
}

impl Table {
    /// No rows.
    pub fn new(alloc: Global) -> Table
        ensures { result ≡ [] }
    {
        Table {
            alloc,
            rows: Vec::new(alloc),
        }
    }

    // Whether a row has this text.
    fn has_text(&self, text: &str) -> bool
        ensures { result ≡ has_text self.now text.now }
    {
        self.rows.iter().any(|row| row.is_of(text))
    }

    // Whether a row has this name.
    fn is_named(&self, name: &Name) -> bool
        ensures { result ≡ is_named self.now name.now }
    {
        self.rows.iter().any(|row| row.has_name(name))
    }

    /// Why it takes no such row, or `None` where it does: `Unfit` comes before `Again`, and that before `Taken`.
    pub fn fault(&self, text: &str, name: &Name) -> Option<TableFault>
        ensures { result ≡ row_fault self.now (record { text = text.now; name = name.now }) }
    {
        if !name.fits() {
            return Some(TableFault::Unfit);
        }
        if self.has_text(text) {
            return Some(TableFault::Again);
        }
        if self.is_named(name) {
            return Some(TableFault::Taken);
        }
        None
    }

    /// Adds a row after the others, which must be one that it takes. Out of memory, nothing is added.
    pub fn push(&mut self, text: &str, name: &Name) -> Result<(), OutOfMemory>
        requires { row_fault self.old (record { text = text.now; name = name.now }) ≡ None }
        ensures ok { OnOk result (self.new
            ≡ self.old ++ record { text = text.now; name = name.now } ∷ []) }
        ensures err { OnErr result (self.new ≡ self.old) }
    {
        let row = Row::of(self.alloc, text, name)?;
        self.rows.push(row)?;
        Ok(())
    }

    /// The name of a text, if it has one.
    pub fn name_of(&self, text: &str) -> Option<Name>
        ensures name { result ≡ name_in self.now text.now }
        ensures fits { IfSome result (λ name. fits name ≡ true) }
    {
        for row in self.rows.as_slice() {
            if row.is_of(text) {
                return Some(row.name());
            }
        }
        None
    }
}
