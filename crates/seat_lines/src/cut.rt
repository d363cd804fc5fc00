// Where the first lines of a text end.
ghost use Rattle.std.specs.Prelude.{◌≡◌, ◌+◌, ◌<◌, ◌≤◌, ◌⊎◌, length, take, drop, min, if◌then◌else◌};
ghost use Rattle.line_words.specs.Lines.{is_lf};
ghost use Rattle.seat_lines.specs.Texts.{after_lines, bytes_of_lines, lines_in};

/// Lines at the front of a text: how many, and how many bytes they have.
#[derive(Clone, Copy, Debug)]
pub(crate) struct Front {
    pub lines: u64,
    pub bytes: usize,
}

// The first lines of a text that end in its first `may` bytes: at most so many, and no more than are needed to have
// enough bytes.
fn first_lines(text: &[u8], may: usize, most: u64, enough: usize) -> Front
    requires { may ≤ length text.now }
    ensures rest { drop result.bytes text.now ≡ after_lines result.lines text.now }
    ensures bytes { result.bytes ≡ bytes_of_lines result.lines text.now }
    ensures within { result.bytes ≤ may }
    ensures lines { result.lines ≤ lines_in (take may text.now) }
    ensures fewer { result.lines ≤ result.bytes }
    ensures most { result.lines ≤ most }
    ensures all { (result.lines ≡ most) ⊎ ((enough ≤ result.bytes)
        ⊎ (result.lines ≡ lines_in (take may text.now))) }
{
    let mut front = Front { lines: 0, bytes: 0 };
    let mut at = 0;
    while at < may {
        if front.lines == most || enough <= front.bytes {
            return front;
        }
        front = with_byte(front, text[at], at);
        at += 1;
    }
    front
}

// The lines of a front and of a byte more, which stands at this place.
fn with_byte(front: Front, byte: u8, at: usize) -> Front
    requires place { at < usize.MAX }
    requires lines { front.lines ≤ at }
    ensures lines { result.lines ≡ (if is_lf byte then front.lines + 1 else front.lines) }
    ensures bytes { result.bytes ≡ (if is_lf byte then at + 1 else front.bytes) }
{
    if byte == b'\n' {
        Front {
            lines: front.lines + 1,
            bytes: at + 1,
        }
    } else {
        front
    }
}

/// The first lines of a text, at most so many.
pub(crate) fn whole_lines(text: &[u8], most: u64) -> Front
    ensures bytes { result.bytes ≡ bytes_of_lines result.lines text.now }
    ensures within { result.bytes ≤ length text.now }
    ensures lines { result.lines ≡ min most (lines_in text.now) }
    ensures fewer { result.lines ≤ result.bytes }
{
    lines_within(text, text.len(), most)
}

/// The first lines of a text that end in its first `may` bytes, at most so many.
pub(crate) fn lines_within(text: &[u8], may: usize, most: u64) -> Front
    requires { may ≤ length text.now }
    ensures rest { drop result.bytes text.now ≡ after_lines result.lines text.now }
    ensures bytes { result.bytes ≡ bytes_of_lines result.lines text.now }
    ensures within { result.bytes ≤ may }
    ensures lines { result.lines ≡ min most (lines_in (take may text.now)) }
    ensures fewer { result.lines ≤ result.bytes }
{
    first_lines(text, may, most, usize::MAX)
}

/// The first lines of a text that end in its first `may` bytes, until they have enough bytes.
pub(crate) fn lines_of_bytes(text: &[u8], may: usize, enough: usize) -> Front
    requires { may ≤ length text.now }
    ensures rest { drop result.bytes text.now ≡ after_lines result.lines text.now }
    ensures bytes { result.bytes ≡ bytes_of_lines result.lines text.now }
    ensures within { result.bytes ≤ may }
    ensures lines { result.lines ≤ lines_in (take may text.now) }
    ensures fewer { result.lines ≤ result.bytes }
    ensures all { (enough ≤ result.bytes) ⊎ (result.lines ≡ lines_in (take may text.now)) }
{
    first_lines(text, may, u64::MAX, enough)
}
