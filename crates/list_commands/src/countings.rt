// How the events of a list are counted, beside the counting of the document that is made of it.
ghost use Rattle.std.specs.Prelude.{◌≡◌, ◌≤◌, IfSome, length};
ghost use Rattle.edl_lines.specs.EventLines.{line_says};
ghost use Rattle.list_commands.specs.Countings.{IsCountedOtherwise, counted_otherwise, counting_after, counts_as};

use edl_lines::{Said, first_line, line_says, non_drop};
use edl_read::MAX_LIST;
use line_words::LineEnd;
use room_files::Files;
use std::alloc::Global;
use timecode12::Counting;

// A line of a list, and the counting that holds before it.
#[derive(Drop)]
struct Place {
    line: u32,
    holds: Counting,
}

/// The line of the first event of a list that is counted with drop-frame where this counting is without it, or the other
/// way round. Its frames are the same in a document that is counted so, and their labels are others. There is none where
/// the file is not read.
pub fn event_counted_otherwise<F: Files>(
    alloc: Global,
    files: &mut F,
    name: &str,
    counting: &Counting,
) -> Option<u32>
    ensures { IfSome result (λ line. IsCountedOtherwise counting.now
        ((F.told files.old).file name.now) line) }
{
    match files.read_file(alloc, name, MAX_LIST as u32) {
        Ok(bytes) => {
            let line = first_otherwise(&bytes, counting)?;
            Some(line)
        }
        Err(_) => None,
    }
}

// The same of the list that these bytes are; there is none where all events are counted so.
fn first_otherwise(bytes: &[u8], counting: &Counting) -> Option<u32>
    requires { length bytes.now ≤ MAX_LIST }
    ensures { result ≡ counted_otherwise counting.now bytes.now }
{
    let mut at = Place {
        line: 1,
        holds: non_drop(counting.rate()),
    };
    let mut rest = Some(bytes);
    while let Some(left) = rest {
        let (text, end, more) = first_line(left);
        match counting_after(counting, &at.holds, text, end) {
            Some(holds) => {
                at = Place {
                    line: at.line + 1,
                    holds,
                };
            }
            None => return Some(at.line),
        }
        rest = more;
    }
    None
}

// The counting that holds after a line; none where an event of the line is counted otherwise than is wanted.
fn counting_after(
    wanted: &Counting,
    holds: &Counting,
    text: &[u8],
    end: LineEnd,
) -> Option<Counting>
    ensures { result ≡ counting_after wanted.now holds.now (line_says wanted.now.rate holds.now
        (record { text = text.now; end = end })) }
{
    let said = match line_says(wanted.rate(), holds, text, end) {
        Ok(said) => said,
        Err(_) => return Some(*holds),
    };
    match said {
        Said::Skipped => Some(*holds),
        Said::Counts(set) => Some(set),
        Said::Tells(_) => {
            if counts_as(holds, wanted) {
                Some(*holds)
            } else {
                None
            }
        }
    }
}

// Whether both are with drop-frame, or both without it.
fn counts_as(one: &Counting, other: &Counting) -> bool
    ensures { result ≡ counts_as one.now other.now }
{
    if one.drop_frame() {
        other.drop_frame()
    } else {
        !other.drop_frame()
    }
}
