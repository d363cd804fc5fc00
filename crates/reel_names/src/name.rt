// The name of a reel in an edit decision list.
ghost use Rattle.std.specs.Prelude.{◌≡◌, ◌≤◌, ◌&&◌, nat_le, IsTrue, Some, None, bytes_eq, length, if◌then◌else◌};
ghost use Rattle.std.specs.List.{list_all};
ghost use Rattle.std.specs.Cmp.{partial_equiv_from_equiv};
ghost use Rattle.std.specs.Cmp.Lexicographic.{nat_list_eq_equiv};
ghost use Rattle.reel_names.specs.Names.{black, filled, fits, is_black, is_printable, is_reel_character, is_reel_name};

use std::marker::Model;

/// The most bytes of a reel's name in a list that is read. A list that is written has names of at most 8.
pub const MAX_NAME: usize = 32;

/// The name of a reel: 1 to 32 bytes of printable ASCII without blanks. Contracts see its bytes.
#[derive(Clone, Copy, Debug)]
pub struct Name {
    len: u8,
    bytes: [u8; MAX_NAME],
}

impl Model for Name {
    ghost use Rattle.std.specs.Prelude.{ℕ, List, length, take};
    ghost use Rattle.reel_names.specs.Names.{IsHeld, filled};

    ghost Value = { List ℕ };

    ghost view = { λ n. take n.len n.bytes };

    ghost invariant = { λ n. IsHeld n.len n.bytes };

    ghost inverse = { λ name. record { len = length name; bytes = filled name } };

    ghost inverse_ok = { λ n h i. record { len = h.count i; bytes = h.rest i } };
}

impl PartialEq for Name {
    ghost eq = { λ a b. bytes_eq a b };

    ghost laws = { partial_equiv_from_equiv nat_list_eq_equiv };

    // Names are equal where their bytes are.
    fn eq(&self, other: &Self) -> bool {
        self.as_bytes() == other.as_bytes()
    }
}

impl Eq for Name {
    ghost laws = { nat_list_eq_equiv };
}

impl Name {
    /// The name that has these bytes: `None` where they are none, more than 32, or not all printable.
    pub fn of(bytes: &[u8]) -> Option<Name>
        ensures { result ≡ (if is_reel_name bytes.now then Some bytes.now else None) }
    {
        if !is_reel_name(bytes) {
            return None;
        }
        Some(Name {
            len: bytes.len() as u8,
            bytes: filled(bytes),
        })
    }

    /// The name of black, `BL`.
    pub fn black() -> Name
        ensures { result ≡ black }
    {
        Name {
            len: 2,
            bytes: filled(b"BL"),
        }
    }

    /// Its bytes.
    pub fn as_bytes(&self) -> &[u8]
        ensures text { result.now ≡ self.now }
        ensures name { IsTrue (is_reel_name self.now) }
        ensures short { length self.now ≤ 32 }
    {
        &self.bytes[..usize::from(self.len)]
    }

    /// Whether it is black's.
    pub fn is_black(&self) -> bool
        ensures { result ≡ is_black self.now }
    {
        self.as_bytes() == b"BL".as_slice()
    }

    /// Whether a list that is written can have it: 1 to 8 capital letters, digits and underscores, and not `BL`.
    pub fn fits(&self) -> bool
        ensures { result ≡ fits self.now }
    {
        let bytes = self.as_bytes();
        is_within(bytes, 8) && (are_reel_characters(bytes) && !self.is_black())
    }
}

// Whether these bytes are a reel's name: 1 to 32 of them, all printable.
fn is_reel_name(bytes: &[u8]) -> bool
    ensures { result ≡ is_reel_name bytes.now }
{
    is_within(bytes, MAX_NAME) && are_printable(bytes)
}

// Whether there are some bytes, and at most so many.
fn is_within(bytes: &[u8], most: usize) -> bool
    ensures { result ≡ (nat_le 1 (length bytes.now) && nat_le (length bytes.now) most) }
{
    1 <= bytes.len() && bytes.len() <= most
}

// Whether all of these bytes are printable.
fn are_printable(bytes: &[u8]) -> bool
    ensures { result ≡ list_all is_printable bytes.now }
{
    bytes.iter().all(|byte| is_printable(*byte))
}

// Whether a byte is printable ASCII and no blank.
fn is_printable(byte: u8) -> bool
    ensures { result ≡ is_printable byte }
{
    byte >= 33 && byte <= 126
}

// Whether all of these bytes may stand in a name that is written.
fn are_reel_characters(bytes: &[u8]) -> bool
    ensures { result ≡ list_all is_reel_character bytes.now }
{
    bytes.iter().all(|byte| is_reel_character(*byte))
}

// Whether a byte is a capital letter, a digit or an underscore.
fn is_reel_character(byte: u8) -> bool
    ensures { result ≡ is_reel_character byte }
{
    byte.is_ascii_uppercase() || (byte.is_ascii_digit() || byte == b'_')
}

// The bytes, and 0 after them.
fn filled(bytes: &[u8]) -> [u8; MAX_NAME]
    requires { length bytes.now ≤ 32 }
    ensures { result ≡ filled bytes.now }
{
    let mut all = [0; MAX_NAME];
    all[..bytes.len()].copy_from_slice(bytes);
    all
}
