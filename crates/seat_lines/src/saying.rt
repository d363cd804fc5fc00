// What a line says to the seat that it comes to.
ghost use Rattle.std.specs.Prelude.{◌≡◌};
ghost use Rattle.line_words.specs.Lines.{without_cr};
ghost use Rattle.seat_lines.specs.Sayings.{saying_of, short_saying};

use line_words::{MAX_LINE, number};

/// What a line says to the seat that it comes to.
#[derive(Clone, Copy, Debug, PartialEq, Eq)]
pub enum Saying {
    /// `/leave`: the station leaves.
    Leave,
    /// `/got N`: the station has got the replies up to this number.
    Got(u32),
    /// Any other line, which is the session's.
    Nothing,
}

/// What a line says to the seat. The line has no line feed, and may have one carriage return at its end.
pub fn saying_of(line: &[u8]) -> Saying
    ensures { result ≡ saying_of line.now }
{
    if line.len() <= MAX_LINE {
        short_saying(without_cr(line))
    } else {
        Saying::Nothing
    }
}

// What a line says that is not too long.
fn short_saying(line: &[u8]) -> Saying
    ensures { result ≡ short_saying line.now }
{
    if line == b"/leave".as_slice() {
        return Saying::Leave;
    }
    let (front, word) = line.split_at(line.len().min(5));
    if front == b"/got ".as_slice() {
        match number(word) {
            Ok(number) => Saying::Got(number),
            Err(_) => Saying::Nothing,
        }
    } else {
        Saying::Nothing
    }
}

// All but a carriage return at the end.
fn without_cr(line: &[u8]) -> &[u8]
    ensures { result.now ≡ without_cr line.now }
{
    if !line.is_empty() && line[line.len() - 1] == b'\r' {
        &line[..line.len() - 1]
    } else {
        line
    }
}
