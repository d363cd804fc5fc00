// Texts that grow at their end, within memory that they have. Nothing here can fail.
ghost use Rattle.std.specs.Prelude.{◌≡◌, ◌+◌, ◌<◌, ◌≤◌, ◌++◌, decimal, length, vec_len, vec_capacity};
ghost use Rattle.std.specs.Fmt.{signed_decimal};
ghost use Rattle.protocol_parts.specs.Things.{what_text};

use frame_meaning::What;
use itoa::Buffer;

/// Adds a text at the end.
pub fn put(out: &mut Vec<u8>, text: &[u8])
    requires { vec_len out.old + length text.now ≤ vec_capacity out.old }
    ensures text { out.new.items ≡ out.old.items ++ text.now }
    ensures len { vec_len out.new ≡ vec_len out.old + length text.now }
    ensures room { vec_capacity out.old ≤ vec_capacity out.new }
{
    match out.extend_from_slice(text) {
        Ok(()) => {}
        Err(_) => unreachable!(),
    }
}

/// Adds a text and a number, in decimal digits without leading zeros.
pub fn put_number(out: &mut Vec<u8>, lead: &[u8], number: u32)
    requires { vec_len out.old + length lead.now + 10 ≤ vec_capacity out.old }
    ensures text { out.new.items ≡ out.old.items ++ (lead.now ++ decimal number) }
    ensures len { vec_len out.new ≤ vec_len out.old + length lead.now + 10 }
    ensures room { vec_capacity out.old ≤ vec_capacity out.new }
{
    put(out, lead);
    let mut buffer = Buffer::new();
    put(out, buffer.format(number).as_bytes())
}

// Adds a text and the number of a track, which has at most two digits.
pub(crate) fn put_track(out: &mut Vec<u8>, lead: &[u8], track: u32)
    requires track { track < 32 }
    requires room { vec_len out.old + length lead.now + 2 ≤ vec_capacity out.old }
    ensures text { out.new.items ≡ out.old.items ++ (lead.now ++ decimal track) }
    ensures len { vec_len out.new ≤ vec_len out.old + length lead.now + 2 }
    ensures room { vec_capacity out.old ≤ vec_capacity out.new }
{
    put(out, lead);
    let mut buffer = Buffer::new();
    put(out, buffer.format(track).as_bytes())
}

// Adds a text and a signed number, with a `-` before its digits where it is negative.
pub(crate) fn put_signed(out: &mut Vec<u8>, lead: &[u8], number: i32)
    requires { vec_len out.old + length lead.now + 11 ≤ vec_capacity out.old }
    ensures text { out.new.items ≡ out.old.items ++ (lead.now ++ signed_decimal number) }
    ensures len { vec_len out.new ≤ vec_len out.old + length lead.now + 11 }
    ensures room { vec_capacity out.old ≤ vec_capacity out.new }
{
    put(out, lead);
    let mut buffer = Buffer::new();
    put(out, buffer.format(number).as_bytes())
}

// Adds a thing: `@` and the number of a media entry, or `#` and the number of a nest.
pub(crate) fn put_what(out: &mut Vec<u8>, what: &What)
    requires { vec_len out.old + 11 ≤ vec_capacity out.old }
    ensures text { out.new.items ≡ out.old.items ++ what_text what.now }
    ensures len { vec_len out.new ≤ vec_len out.old + 11 }
    ensures room { vec_capacity out.old ≤ vec_capacity out.new }
{
    match what {
        What::Media(media) => put_number(out, b"@", *media),
        What::Nest(nest) => put_number(out, b"#", *nest),
    }
}
