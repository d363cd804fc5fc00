// The texts that were recorded of a station, as lines and as replies.
ghost use Rattle.std.specs.Prelude.{◌≡◌, IfOk, map};
ghost use Rattle.std.specs.List.{slice_split};
ghost use Rattle.line_words.specs.Lines.{ended_line, is_lf, last_line, limited, lines_of};
ghost use Rattle.recorded_sessions.specs.Recordings.{line_seen, replies_of};

use line_words::MAX_LINE;
use out_of_memory::Memory;
use std::alloc::{AllocError, Global};

// What stands between the line feeds of a text.
fn parts_of(alloc: Global, text: &[u8]) -> Result<Vec<&[u8]>, AllocError>
    ensures { IfOk result (λ parts. map (λ part. part.now) parts.items ≡ slice_split is_lf text.now) }
{
    text.split(|byte| *byte == b'\n').collect(alloc)
}

// A line, if it is not too long.
fn limited(part: &[u8]) -> Option<&[u8]>
    ensures { line_seen result ≡ limited part.now }
{
    if part.len() <= MAX_LINE {
        Some(part)
    } else {
        None
    }
}

// A line behind which a line feed stands.
fn ended_line(part: &[u8]) -> Option<&[u8]>
    ensures { line_seen result ≡ ended_line (limited part.now) }
{
    match limited(part) {
        Some([front @ .., b'\r']) => Some(front),
        line => line,
    }
}

/// The lines of what a station sent, as a room reads them: `None` for one that is too long.
pub fn lines_of(alloc: Global, text: &[u8]) -> Result<Vec<Option<&[u8]>>, Memory>
    ensures { IfOk result (λ lines. map line_seen lines.items ≡ lines_of text.now) }
{
    let parts = parts_of(alloc, text)?;
    let mut lines = Vec::new(alloc);
    for (index, part) in parts.iter().enumerate() {
        if index + 1 < parts.len() {
            lines.push(ended_line(part))?;
        } else if part.len() > 0 {
            lines.push(limited(part))?;
        }
    }
    Ok(lines)
}

/// The replies of what a station got. A last one without its line feed was cut short, and counts as none.
pub fn replies_of(alloc: Global, text: &[u8]) -> Result<Vec<&[u8]>, Memory>
    ensures { IfOk result (λ replies. map (λ reply. reply.now) replies.items
        ≡ replies_of text.now) }
{
    let mut parts = parts_of(alloc, text)?;
    let _ = parts.pop();
    Ok(parts)
}
