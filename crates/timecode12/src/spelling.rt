// How a label is written, as `01:02:03:04` or `01:02:03;04`.
ghost use Rattle.std.specs.Prelude.{◌≡◌, ℕ, ◌+◌, ◌/◌, ◌%◌, ◌<◌, ◌↔◌, length, slice_index, IsTrue, IsNone, Some, ◌⊎◌};
ghost use Rattle.timecode12.specs.Spelling.{IsMark, HasTwoDigits, Spells, text_of};

use crate::label::Label;

/// The label that a text writes, which need be no label of any day, or `None` where it writes none.
pub fn read_label(text: &[u8]) -> Option<Label>
    ensures some { (label : Label) → (result ≡ Some label) ↔ Spells text.now label }
    ensures none { IsNone result ↔ ((label : Label) → Spells text.now label → ⊥) }
{
    if !has_marks(text) {
        return None;
    }
    let hours = number(text[0], text[1])?;
    let minutes = number(text[3], text[4])?;
    let seconds = number(text[6], text[7])?;
    let frames = number(text[9], text[10])?;
    Some(Label {
        hours,
        minutes,
        seconds,
        frames,
    })
}

/// The text of a label, with `last`, `:` or `;`, before its frames.
pub fn label_text(label: &Label, last: u8) -> [u8; 11]
    requires fields { HasTwoDigits label.now }
    requires mark { IsMark last }
    ensures { result ≡ text_of label.now last }
{
    let (h, hh) = digits(label.hours);
    let (m, mm) = digits(label.minutes);
    let (s, ss) = digits(label.seconds);
    let (f, ff) = digits(label.frames);
    [h, hh, b':', m, mm, b':', s, ss, last, f, ff]
}

/// Whether the text is as long as a label, with its three marks.
fn has_marks(text: &[u8]) -> bool
    ensures { IsTrue result ↔ ((length text.now ≡ 11) × (slice_index text.now 2 ≡ 58)
        × (slice_index text.now 5 ≡ 58) × IsMark (slice_index text.now 8)) }
{
    text.len() == 11 && text[2] == b':' && text[5] == b':' && (text[8] == b':' || text[8] == b';')
}

/// The number that two digits write, or `None` where one of them is no digit.
fn number(tens: u8, ones: u8) -> Option<u8>
    ensures some { (n : ℕ) → (result ≡ Some n)
        ↔ ((n < 100) × (tens ≡ 48 + n / 10) × (ones ≡ 48 + n % 10)) }
    ensures none { IsNone result ↔ ((n : ℕ) → n < 100 → tens ≡ 48 + n / 10 → ones ≡ 48 + n % 10
        → ⊥) }
{
    if !tens.is_ascii_digit() || !ones.is_ascii_digit() {
        return None;
    }
    Some((tens - b'0') * 10 + (ones - b'0'))
}

/// The two digits of a number.
fn digits(number: u8) -> (u8, u8)
    requires { number < 100 }
    ensures tens { result.0 ≡ 48 + number / 10 }
    ensures ones { result.1 ≡ 48 + number % 10 }
{
    (b'0' + number / 10, b'0' + number % 10)
}
