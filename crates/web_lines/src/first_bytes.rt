// What a connection talks, told by its first bytes.
ghost use Rattle.std.specs.Prelude.{◌≡◌};
ghost use Rattle.web_lines.specs.FirstBytes.{is_method_byte, talk_at, talk_of, talk_so_far};

/// The most bytes of a method: that of the longest in use, and some to spare (RFC 9110, section 16.1).
pub const LONGEST_METHOD: usize = 20;

/// What a connection talks.
#[derive(Clone, Copy, Debug, PartialEq, Eq)]
pub enum Talk {
    /// Lines, as those of a plain station.
    Plain,
    /// HTTP.
    Http,
}

/// What a connection talks whose first bytes are these, or `None` where more have to come. It is HTTP where a method
/// and a blank stand in front.
pub fn talk_of(front: &[u8]) -> Option<Talk>
    ensures { result ≡ talk_of front.now }
{
    let mut count: usize = 0;
    for byte in front {
        if !is_method_byte(*byte) {
            return Some(talk_at(count, *byte));
        }
        count += 1;
    }
    talk_so_far(count)
}

// A capital letter or a hyphen, of which all methods in use are made.
fn is_method_byte(byte: u8) -> bool
    ensures { result ≡ is_method_byte byte }
{
    (b'A' <= byte && byte <= b'Z') || byte == b'-'
}

// By how many bytes of a method stand in front, and the byte after them.
fn talk_at(count: usize, byte: u8) -> Talk
    ensures { result ≡ talk_at count byte }
{
    if count <= LONGEST_METHOD && 0 < count && byte == b' ' {
        Talk::Http
    } else {
        Talk::Plain
    }
}

// By how many bytes of a method have come, and nothing else.
fn talk_so_far(count: usize) -> Option<Talk>
    ensures { result ≡ talk_so_far count }
{
    if count <= LONGEST_METHOD {
        None
    } else {
        Some(Talk::Plain)
    }
}
