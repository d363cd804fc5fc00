// Texts that grow at their end, and take memory.
ghost use Rattle.std.specs.Prelude.{◌≡◌, ◌++◌, decimal, OnOk};
ghost use Rattle.protocol_parts.specs.Things.{what_text};

use frame_meaning::{Memory, What};
use itoa::Buffer;

/// Adds a text at the end.
pub fn put(out: &mut Vec<u8>, text: &[u8]) -> Result<(), Memory>
    ensures { OnOk result (out.new.items ≡ out.old.items ++ text.now) }
{
    out.extend_from_slice(text)?;
    Ok(())
}

/// Adds a text and a number, in decimal digits without leading zeros.
pub fn put_number(out: &mut Vec<u8>, lead: &[u8], number: u32) -> Result<(), Memory>
    ensures { OnOk result (out.new.items ≡ out.old.items ++ (lead.now ++ decimal number)) }
{
    put(out, lead)?;
    let mut buffer = Buffer::new();
    put(out, buffer.format(number).as_bytes())
}

/// Adds a thing: `@` and the number of a media entry, or `#` and the number of a nest.
pub fn put_what(out: &mut Vec<u8>, what: &What) -> Result<(), Memory>
    ensures { OnOk result (out.new.items ≡ out.old.items ++ what_text what.now) }
{
    match what {
        What::Media(media) => put_number(out, b"@", *media),
        What::Nest(nest) => put_number(out, b"#", *nest),
    }
}
