// Entries as lines of two letters: `A` for station 0 on, and `a` for number 0 on.
ghost use Rattle.std.specs.Prelude.{◌≡◌, IfOk};

use kept_desk::EntryLines;
use room_core::{Entry, Memory, PartObject};
use std::alloc::Global;

#[derive(Drop)]
pub struct Letters;

impl<O: PartObject> EntryLines<O> for Letters {
    ghost use Rattle.test_desks.specs.Letters.{letters_of};

    ghost line_of = { λ e. letters_of e };

    fn line(&self, alloc: Global, _object: &O, entry: &Entry<O::Call>) -> Result<Vec<u8>, Memory> {
        let station = b'A' + (entry.station % 16) as u8;
        let number = b'a' + (entry.number % 16) as u8;
        Ok(Vec::from_slice(alloc, &[station, number])?)
    }
}
