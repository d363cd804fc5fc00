// A record of a kept file.
ghost use Rattle.std.specs.Prelude.{◌≡◌, IfOk};

use room_ports::Memory;
use std::alloc::Global;
use std::marker::Model;

/// The line of a record of a kept file, without its line feed. To a contract it is these bytes.
#[derive(Debug, Drop)]
pub struct Record {
    bytes: Vec<u8>,
}

impl Model for Record {
    ghost use Rattle.std.specs.Prelude.{List, ℕ};

    ghost Value = { List ℕ };

    ghost view = { λ r. r.bytes.items };
}

impl Record {
    /// A record of this line, which is copied.
    pub(crate) fn new(alloc: Global, line: &[u8]) -> Result<Record, Memory>
        ensures { IfOk result (λ r. r ≡ line.now) }
    {
        Ok(Record {
            bytes: Vec::from_slice(alloc, line)?,
        })
    }

    /// The bytes of its line, without the line feed.
    pub fn line(&self) -> &[u8]
        ensures { result.now ≡ self.now }
    {
        &self.bytes
    }
}
