// Timecode labels as frames of the day.
ghost use Rattle.std.specs.Prelude.{◌≡◌, ◌<◌, IfSome};
ghost use Rattle.edl_lines.specs.Labels.{frame_named};

use timecode12::{Counting, MAX_DAY_FRAMES, read_label};

// The frame of the day that a label names: None where the word is no label of the counting.
pub(crate) fn label_frame(word: &[u8], counting: &Counting) -> Option<u32>
    ensures frame { result ≡ frame_named counting.now word.now }
    ensures within { IfSome result (λ frame. frame < MAX_DAY_FRAMES) }
{
    let _day = counting.day();
    let label = read_label(word)?;
    match counting.frame_of(&label) {
        Ok(frame) => Some(frame),
        Err(_) => None,
    }
}
