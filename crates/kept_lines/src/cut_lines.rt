// The lines of a kept file's entries.
ghost use Rattle.std.specs.Prelude.{◌≡◌, IfOk};

use crate::widths::numbers;
use cut_steps::{CutCall, CutObject};
use journal_text::entry_text;
use kept_desk::EntryLines;
use room_core::{Entry, Memory};
use std::alloc::Global;

/// Writes an entry as its line in the text of a journal, without the line feed.
#[derive(Clone, Copy, Debug, PartialEq, Eq)]
pub struct CutLines;

impl EntryLines<CutObject> for CutLines {
    ghost use Rattle.journal_text.specs.Journals.{entry_text};

    ghost line_of = { λ e. entry_text e };

    fn line(
        &self,
        alloc: Global,
        _object: &CutObject,
        entry: &Entry<CutCall>,
    ) -> Result<Vec<u8>, Memory> {
        numbers(entry);
        entry_text(alloc, entry)
    }
}
