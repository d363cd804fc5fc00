// The lines of a list, one after another.
ghost use Rattle.std.specs.Prelude.{◌≡◌, ◌<◌, ◌∷◌, IfSome, length, option_map, position};
ghost use Rattle.line_words.specs.Lines.{is_lf, without_cr};
ghost use Rattle.edl_lines.specs.ListLines.{end_of, list_lines, lines_behind};

use line_words::{LineEnd, MAX_LINE};

/// The first line of a list, whether it has over 1,024 bytes, and the bytes after its line feed, where there is one. A
/// carriage return before the line feed is no part of the line, but counts for its length.
pub fn first_line(bytes: &[u8]) -> (&[u8], LineEnd, Option<&[u8]>)
    ensures lines { list_lines bytes.now ≡ record { text = result.0.now; end = result.1 }
        ∷ lines_behind (option_map (λ more. more.now) result.2) }
    ensures less { IfSome result.2 (λ more. length more.now < length bytes.now) }
{
    match lf_at(bytes) {
        Some(at) => {
            let (_, more) = bytes.split_at(at + 1);
            let part = &bytes[..at];
            (without_cr(part), end_of(part), Some(more))
        }
        None => (bytes, end_of(bytes), None),
    }
}

// Where the first line feed stands, if there is one.
fn lf_at(bytes: &[u8]) -> Option<usize>
    ensures at { result ≡ position is_lf bytes.now }
    ensures within { IfSome result (λ at. at < length bytes.now) }
{
    bytes.iter().position(|byte| *byte == b'\n')
}

// The bytes without a carriage return at their end.
fn without_cr(part: &[u8]) -> &[u8]
    ensures { result.now ≡ without_cr part.now }
{
    if part.is_empty() || part[part.len() - 1] != b'\r' {
        return part;
    }
    &part[..part.len() - 1]
}

// Whether a line of these bytes is too long; they have its carriage return, but not its line feed.
fn end_of(part: &[u8]) -> LineEnd
    ensures { result ≡ end_of part.now }
{
    if part.len() <= MAX_LINE {
        LineEnd::Whole
    } else {
        LineEnd::TooLong
    }
}
