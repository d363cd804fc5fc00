// The text of a document as it grows, or as it is only counted, up to its limit.
ghost use Rattle.std.specs.Prelude.{◌≡◌, ◌<◌, Some, None, IfOk, OnOk, decimal, option_map};
ghost use Rattle.std.specs.List.{flat_map};
ghost use Rattle.json_tree.specs.Writing.{escaped, hex_digit, quoted};
ghost use Rattle.otio_text.specs.TextInside.{bytes_of};
ghost use Rattle.otio_text.specs.Texts.{added, grown, is_over, kept_by};

use composables::Memory;
use itoa::Buffer;
use json_tree::MOST_BYTES;
use std::alloc::Global;
use std::marker::Model;

/// A text that may have so many more bytes. It is kept, or only counted. Contracts see its bytes, where they are kept,
/// and how many more there may be; or none once there would be more than may: from then on nothing is added.
#[derive(Drop)]
pub(crate) struct DocText {
    bytes: Option<Vec<u8>>,
    left: usize,
    over: bool,
}

impl Model for DocText {
    ghost use Rattle.std.specs.Prelude.{Option};
    ghost use Rattle.otio_text.specs.Texts.{Filled};

    ghost Value = { Option Filled };

    ghost use Rattle.otio_text.specs.TextInside.{text_of};

    ghost view = { text_of };
}

impl DocText {
    /// A text of at most 32 MiB that is only counted.
    pub(crate) fn counted() -> DocText
        ensures { result ≡ Some (record { bytes = None; left = 33554432 }) }
    {
        DocText {
            bytes: None,
            left: MOST_BYTES,
            over: false,
        }
    }

    /// A text that begins with these bytes and may have so many more. The memory for all of them is taken here, and for one
    /// byte that may be put after the whole.
    pub(crate) fn after(alloc: Global, head: &[u8], len: usize) -> Result<DocText, Memory>
        ensures { IfOk result (λ t. t ≡ Some (record { bytes = Some head.now; left = len })) }
    {
        let room = head.len().saturating_add(len).saturating_add(1);
        let mut bytes = Vec::with_capacity(alloc, room)?;
        bytes.extend_from_slice(head)?;
        Ok(DocText {
            bytes: Some(bytes),
            left: len,
            over: false,
        })
    }

    /// Whether it would have more bytes than it may.
    pub(crate) fn is_over(&self) -> bool
        ensures { result ≡ is_over self.now }
    {
        self.over
    }

    /// Adds bytes at its end.
    pub(crate) fn put(&mut self, bytes: &[u8]) -> Result<(), Memory>
        ensures { OnOk result (self.new ≡ grown self.old bytes.now) }
    {
        if self.over || bytes.len() > self.left {
            self.over = true;
            return Ok(());
        }
        keep(&mut self.bytes, bytes)?;
        self.left -= bytes.len();
        Ok(())
    }

    /// Adds a number at its end, in decimal digits.
    pub(crate) fn put_number(&mut self, number: u32) -> Result<(), Memory>
        ensures { OnOk result (self.new ≡ grown self.old (decimal number)) }
    {
        let mut buffer = Buffer::new();
        self.put(buffer.format(number).as_bytes())
    }

    /// Adds a text in quotes at its end, as JSON spells it.
    #[tactic(auto, using(crate::proofs::Growing::grown_twice))]
    pub(crate) fn put_quoted(&mut self, text: &str) -> Result<(), Memory>
        ensures { OnOk result (self.new ≡ grown self.old (quoted text.now)) }
    {
        self.put(b"\"")?;
        self.put_escaped(text.as_bytes())?;
        self.put(b"\"")
    }

    // Adds the bytes of a text, with the escapes that it needs and no quotes.
    fn put_escaped(&mut self, text: &[u8]) -> Result<(), Memory>
        ensures { OnOk result (self.new ≡ grown self.old (flat_map escaped text.now)) }
    {
        for byte in text {
            self.put_byte(*byte)?;
        }
        Ok(())
    }

    // Adds one byte of a text: quotes and backslashes after a backslash, bytes below 32 as `\u` and four digits.
    fn put_byte(&mut self, byte: u8) -> Result<(), Memory>
        ensures { OnOk result (self.new ≡ grown self.old (escaped byte)) }
    {
        if byte == b'"' || byte == b'\\' {
            return self.put(&[b'\\', byte]);
        }
        if byte < 32 {
            let last = hex_digit(byte % 16);
            return self.put(&[b'\\', b'u', b'0', b'0', b'0' + byte / 16, last]);
        }
        self.put(&[byte])
    }

    /// How many more bytes it may have, or `None` where it would have more.
    pub(crate) fn left(&self) -> Option<usize>
        ensures { result ≡ option_map (λ t. t.left) self.now }
    {
        if self.over {
            return None;
        }
        Some(self.left)
    }

    /// Its bytes, or `None` where it would have more than it may, or was only counted.
    pub(crate) fn finish(self) -> Option<Vec<u8>>
        ensures { bytes_of result ≡ kept_by self }
    {
        if self.over {
            return None;
        }
        self.bytes
    }
}

// Adds bytes to a text, where it is kept.
fn keep(text: &mut Option<Vec<u8>>, bytes: &[u8]) -> Result<(), Memory>
    ensures { OnOk result (bytes_of text.new ≡ added (bytes_of text.old) bytes.now) }
{
    match text {
        Some(kept) => {
            kept.extend_from_slice(bytes)?;
            Ok(())
        }
        None => Ok(()),
    }
}

// The hexadecimal digit of a value below 16, in small letters.
fn hex_digit(value: u8) -> u8
    requires { value < 16 }
    ensures { result ≡ hex_digit value }
{
    if value < 10 {
        b'0' + value
    } else {
        b'a' + (value - 10)
    }
}
