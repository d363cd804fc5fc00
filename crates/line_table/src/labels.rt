// Timecode labels as places.
ghost use Rattle.std.specs.Prelude.{◌≡◌};
ghost use Rattle.line_table.specs.Labels.{frame_named, place_by};

use timecode12::{Counting, read_label};

// The place that a label names, in record frames from the start: None where the word is no label of the counting, or
// names a frame before the start.
pub(crate) fn label_place(word: &[u8], counting: &Counting, start: u32) -> Option<u32>
    ensures { result ≡ place_by counting.now start word.now }
{
    label_frame(word, counting)?.checked_sub(start)
}

// The frame of the day that a label names.
fn label_frame(word: &[u8], counting: &Counting) -> Option<u32>
    ensures { result ≡ frame_named counting.now word.now }
{
    let label = read_label(word)?;
    match counting.frame_of(&label) {
        Ok(frame) => Some(frame),
        Err(_) => None,
    }
}
