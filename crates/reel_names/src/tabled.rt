// Names out of a table.
ghost use Rattle.std.specs.Prelude.{◌≡◌, ◌↔◌, ◌++◌, ◌∷◌, [], Err, IfSome, OnErr, OnOk, Some, false, true};
ghost use Rattle.reel_names.specs.declared.table.TableFault.TheVariants.{Again, Taken, Unfit};
ghost use Rattle.reel_names.specs.Names.{fits};
ghost use Rattle.reel_names.specs.Namers.{has_name, new_name};
ghost use Rattle.reel_names.specs.Tables.{row_fault, tabled};

use crate::given::Given;
use crate::name::Name;
use crate::namer::{NameFault, ReelNamer};
use crate::table::{Table, TableFault};
use std::alloc::Global;
use std::marker::Model;

/// Gives each reel the name that its text has in a table, and refuses one whose text is not there, or whose name another
/// reel has. Contracts see the rows of the table, in order, and the names that it has given.
#[derive(Drop)]
pub struct Tabled {
    table: Table,
    given: Given,
}

impl Model for Tabled {
    ghost use Rattle.reel_names.specs.Tables.{TableAndNames};

    ghost Value = { TableAndNames };

    ghost view = { λ n. record { table = n.table; given = n.given } };
}

impl Tabled {
    /// A namer whose table is empty. It keeps the allocator for rows and names to come.
    pub fn new(alloc: Global) -> Tabled
        ensures { result ≡ record { table = []; given = [] } }
    {
        Tabled {
            table: Table::new(alloc),
            given: Given::new(alloc),
        }
    }

    /// Adds a row to the table: the name of a text. Where the table does not take it, nothing is added.
    pub fn add(&mut self, text: &str, name: &Name) -> Result<(), TableFault>
        ensures ok { OnOk result (self.new ≡ record {
          table = self.old.table ++ record { text = text.now; name = name.now } ∷ [];
          given = self.old.given;
        }) }

        // The name does not fit a list that is written; else the text is there; else the name is.
        ensures unfit { (result ≡ Err Unfit) ↔ (row_fault self.old.table
            (record { text = text.now; name = name.now }) ≡ Some Unfit) }
        ensures again { (result ≡ Err Again) ↔ (row_fault self.old.table
            (record { text = text.now; name = name.now }) ≡ Some Again) }
        ensures taken { (result ≡ Err Taken) ↔ (row_fault self.old.table
            (record { text = text.now; name = name.now }) ≡ Some Taken) }
        ensures err { OnErr result (self.new ≡ self.old) }
    {
        match self.table.fault(text, name) {
            Some(fault) => return Err(fault),
            None => {}
        }
        self.table.push(text, name)?;
        Ok(())
    }

    // The name of a text, unless it has none or the name is another reel's.
    fn free(&self, reel: u32, text: &str) -> Option<Name>
        ensures name { result ≡ new_name (tabled self.now.table) self.now.given reel text.now }
        ensures fits { IfSome result (λ name. fits name ≡ true) }
        ensures free { IfSome result (λ name. has_name self.now.given name ≡ false) }
    {
        match self.table.name_of(text) {
            Some(name) => {
                if self.given.has_name(&name) {
                    return None;
                }
                Some(name)
            }
            None => None,
        }
    }
}

impl ReelNamer for Tabled {
    ghost given = { λ names. names.given };

    ghost rule = { λ names. tabled names.table };

    // The name of its text in the table where no other reel has it, else `NoName`.
    fn name(&mut self, reel: u32, text: &str) -> Result<Name, NameFault> {
        match self.given.name_of(reel) {
            Some(name) => return Ok(name),
            None => {}
        }
        match self.free(reel, text) {
            Some(name) => {
                self.given.push(reel, name)?;
                Ok(name)
            }
            None => Err(NameFault::NoName),
        }
    }
}
