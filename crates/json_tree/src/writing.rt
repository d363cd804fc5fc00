// The canonical text of a tree.
ghost use Rattle.std.specs.Prelude.{◌≡◌, ◌+◌, ◌/◌, ◌<◌, ◌≤◌, ◌^◌, ◌++◌, ◌∷◌, [], map, length, Err, OnOk, OnErr, IfOk, IsTrue};
ghost use Rattle.std.specs.List.{flat_map};
ghost use Rattle.json_tree.specs.Sound.{is_writable, SpellsAgain};
ghost use Rattle.json_tree.specs.View.{tree_of, member_of, kind_of};
ghost use Rattle.json_tree.specs.Writing.{tree_text, kind_text, member_text, joined, commas, quoted, escaped, hex_digit, numeral_text, whole_text, digits_needed, last_digits, places_text, sign_text};

use crate::document::MOST_LEVELS;
use crate::tree::{Items, Json, Member, Members, Value};
use crate::write_fault::WriteFault;
use json_tokens::Memory;
use ratio_time::Numeral;
use std::alloc::Global;

/// The text of the tree, without blanks. A whole numeral ends in `.0`. `is_writable` is the test of what it asks.
pub fn write(alloc: Global, tree: &Json) -> Result<Vec<u8>, Memory>
    requires { IsTrue (is_writable (tree_of tree.now) MOST_LEVELS) }
    // What is written.
    ensures text { IfOk result (λ v. v.items ≡ tree_text (tree_of tree.now)) }
    // It is spelled by the grammar as the same tree, places aside.
    ensures spelled { IfOk result (λ v. SpellsAgain MOST_LEVELS v.items (tree_of tree.now)) }
{
    tree.keeps_utf8_and_least_places();
    let mut out = Vec::new(alloc);
    put_tree(&mut out, tree)?;
    Ok(out)
}

/// Puts the text of the tree, as `write` gives it, after what is written, if there are then at most `most` bytes.
/// After a fault nothing has changed: the text is made apart first, so for a moment it stands in memory twice.
pub fn write_behind(
    alloc: Global,
    out: &mut Vec<u8>,
    tree: &Json,
    most: usize,
) -> Result<(), WriteFault>
    requires { IsTrue (is_writable (tree_of tree.now) MOST_LEVELS) }
    // What was written stands before the text.
    ensures behind { OnOk result (out.new.items ≡ out.old.items ++ tree_text (tree_of tree.now)) }
    ensures fits { OnOk result (length out.new.items ≤ most) }

    // Nothing is written after a fault.
    ensures same { OnErr result (out.new.items ≡ out.old.items) }
    ensures too_long { result ≡ Err WriteFault.TooLong
        → most < length (out.old.items ++ tree_text (tree_of tree.now)) }
{
    let text = write(alloc, tree)?;
    if out.len() > most || text.len() > most - out.len() {
        return Err(WriteFault::TooLong);
    }
    out.extend_from_slice(&text)?;
    Ok(())
}

/// Adds the text of a tree, and nothing for a number that is `Wide`.
#[cycle(put)]
fn put_tree(out: &mut Vec<u8>, tree: &Json) -> Result<(), Memory>
    ensures { OnOk result (out.new.items ≡ out.old.items ++ tree_text (tree_of tree.now)) }
{
    match &tree.value {
        Value::Null => put(out, b"null"),
        Value::Bool(true) => put(out, b"true"),
        Value::Bool(false) => put(out, b"false"),
        Value::Numeral(numeral) => put_numeral(out, numeral),
        Value::Wide => Ok(()),
        Value::Text(text) => put_text(out, text.as_str().as_bytes()),
        Value::List(items) => put_items(out, items),
        Value::Object(members) => put_members(out, members),
    }
}

/// Adds these bytes.
fn put(out: &mut Vec<u8>, bytes: &[u8]) -> Result<(), Memory>
    ensures { OnOk result (out.new.items ≡ out.old.items ++ bytes.now) }
{
    out.extend_from_slice(bytes)?;
    Ok(())
}

/// Adds a list in its brackets.
#[cycle(put)]
fn put_items(out: &mut Vec<u8>, items: &Items) -> Result<(), Memory>
    ensures { OnOk result (out.new.items ≡ out.old.items
        ++ (91 ∷ (joined (map tree_text items.now) ++ 93 ∷ []))) }
{
    out.push(b'[')?;
    put_joined_items(out, items.as_slice())?;
    out.push(b']')?;
    Ok(())
}

/// Adds values with commas between them.
#[cycle(put)]
fn put_joined_items(out: &mut Vec<u8>, items: &[Json]) -> Result<(), Memory>
    ensures { OnOk result (out.new.items ≡ out.old.items
        ++ joined (map tree_text (map tree_of items.now))) }
{
    match items {
        [] => Ok(()),
        [first, others @ ..] => {
            put_tree(out, first)?;
            put_other_items(out, others)
        }
    }
}

/// Adds the values past the first of a list, a comma before each.
#[cycle(put)]
fn put_other_items(out: &mut Vec<u8>, others: &[Json]) -> Result<(), Memory>
    ensures { OnOk result (out.new.items ≡ out.old.items
        ++ commas (map tree_text (map tree_of others.now))) }
{
    for item in others {
        out.push(b',')?;
        put_tree(out, item)?;
    }
    Ok(())
}

/// Adds an object in its braces.
#[cycle(put)]
fn put_members(out: &mut Vec<u8>, members: &Members) -> Result<(), Memory>
    ensures { OnOk result (out.new.items ≡ out.old.items
        ++ (123 ∷ (joined (map member_text members.now) ++ 125 ∷ []))) }
{
    out.push(b'{')?;
    put_joined_members(out, members.as_slice())?;
    out.push(b'}')?;
    Ok(())
}

/// Adds members with commas between them.
#[cycle(put)]
fn put_joined_members(out: &mut Vec<u8>, members: &[Member]) -> Result<(), Memory>
    ensures { OnOk result (out.new.items ≡ out.old.items
        ++ joined (map member_text (map member_of members.now))) }
{
    match members {
        [] => Ok(()),
        [first, others @ ..] => {
            put_member(out, first)?;
            put_other_members(out, others)
        }
    }
}

/// Adds the members past the first of an object, a comma before each.
#[cycle(put)]
fn put_other_members(out: &mut Vec<u8>, others: &[Member]) -> Result<(), Memory>
    ensures { OnOk result (out.new.items ≡ out.old.items
        ++ commas (map member_text (map member_of others.now))) }
{
    for member in others {
        out.push(b',')?;
        put_member(out, member)?;
    }
    Ok(())
}

/// Adds a member: its name in quotes, a colon and its value.
#[cycle(put)]
fn put_member(out: &mut Vec<u8>, member: &Member) -> Result<(), Memory>
    ensures { OnOk result (out.new.items ≡ out.old.items ++ member_text (member_of member.now)) }
{
    put_text(out, member.name.as_str().as_bytes())?;
    out.push(b':')?;
    put_tree(out, &member.value)
}

/// Adds a text in quotes, with the escapes that it needs.
fn put_text(out: &mut Vec<u8>, text: &[u8]) -> Result<(), Memory>
    ensures { OnOk result (out.new.items ≡ out.old.items ++ quoted text.now) }
{
    out.push(b'"')?;
    put_escaped(out, text)?;
    out.push(b'"')?;
    Ok(())
}

/// The text in quotes, as `write` writes it.
pub fn quote(alloc: Global, text: &str) -> Result<Vec<u8>, Memory>
    ensures { IfOk result (λ v. v.items ≡ quoted text.now) }
{
    let mut out = Vec::new(alloc);
    put_text(&mut out, text.as_bytes())?;
    Ok(out)
}

/// Adds the bytes of a text, with the escapes that it needs and no quotes.
fn put_escaped(out: &mut Vec<u8>, text: &[u8]) -> Result<(), Memory>
    ensures { OnOk result (out.new.items ≡ out.old.items ++ flat_map escaped text.now) }
{
    for byte in text {
        put_byte(out, *byte)?;
    }
    Ok(())
}

/// Adds one byte of a text: quotes and backslashes after a backslash, bytes below 32 as `\u` and four digits.
fn put_byte(out: &mut Vec<u8>, byte: u8) -> Result<(), Memory>
    ensures { OnOk result (out.new.items ≡ out.old.items ++ escaped byte) }
{
    if byte == b'"' || byte == b'\\' {
        return put(out, &[b'\\', byte]);
    }
    if byte < 32 {
        let last = hex_digit(byte % 16);
        return put(out, &[b'\\', b'u', b'0', b'0', b'0' + byte / 16, last]);
    }
    out.push(byte)?;
    Ok(())
}

/// The hexadecimal digit of a value below 16, in small letters.
fn hex_digit(value: u8) -> u8
    requires { value < 16 }
    ensures { result ≡ hex_digit value }
{
    if value < 10 {
        b'0' + value
    } else {
        b'a' + (value - 10)
    }
}

/// Adds a number exactly: sign, whole part, point and as many places as it has, or `.0`.
#[tactic(auto, unfolding(crate::specs::Writing::numeral_text))]
fn put_numeral(out: &mut Vec<u8>, numeral: &Numeral) -> Result<(), Memory>
    ensures { OnOk result (out.new.items ≡ out.old.items
        ++ numeral_text numeral.now.mantissa numeral.now.places) }
{
    let size = numeral.mantissa.unsigned_abs();
    let power = power_of_ten(numeral.places);
    put_sign(out, numeral.mantissa)?;
    put_whole(out, size / power)?;
    out.push(b'.')?;
    put_places(out, size % power, numeral.places)
}

/// Adds the minus of a number below 0.
fn put_sign(out: &mut Vec<u8>, mantissa: i64) -> Result<(), Memory>
    ensures { OnOk result (out.new.items ≡ out.old.items ++ sign_text mantissa) }
{
    if mantissa < 0 {
        out.push(b'-')?;
    }
    Ok(())
}

/// Adds the digits of the number, without zeros before it.
#[tactic(auto, unfolding(crate::specs::Writing::whole_text))]
fn put_whole(out: &mut Vec<u8>, number: u64) -> Result<(), Memory>
    ensures { OnOk result (out.new.items ≡ out.old.items ++ whole_text number) }
{
    put_digits(out, number, digits_needed(number))
}

/// How many digits a number below 10^18 has, 1 for 0.
#[tactic(auto, using(crate::proofs::WritingSteps::needed_here, crate::proofs::WritingSteps::needed_on, crate::proofs::WritingSteps::needed_last))]
fn digits_needed(number: u64) -> u8
    ensures count { result ≡ digits_needed number 17 1 }
    ensures few { result ≤ 18 }
{
    for count in 1..18 {
        if number < power_of_ten(count) {
            return count;
        }
    }
    18
}

/// Adds the digits after the point, so many places, or one zero where there are none.
#[tactic(auto, using(crate::proofs::WritingSteps::places_are))]
fn put_places(out: &mut Vec<u8>, number: u64, places: u8) -> Result<(), Memory>
    requires { places ≤ 18 }
    ensures { OnOk result (out.new.items ≡ out.old.items ++ places_text number places) }
{
    if places == 0 {
        out.push(b'0')?;
        return Ok(());
    }
    put_digits(out, number, places)
}

/// Adds the last `count` digits of the number.
#[tactic(auto, using(crate::proofs::WritingSteps::digit_first, crate::proofs::WritingSteps::digit_put))]
fn put_digits(out: &mut Vec<u8>, number: u64, count: u8) -> Result<(), Memory>
    requires { count ≤ 19 }
    ensures { OnOk result (out.new.items ≡ out.old.items ++ last_digits number count) }
{
    let mut place = count;
    while place > 0 {
        place -= 1;
        out.push(b'0' + (number / power_of_ten(place) % 10) as u8)?;
    }
    Ok(())
}

/// 10^places, as a number of 64 bits.
#[tactic(auto, using(crate::proofs::WritingSteps::ten_positive))]
fn power_of_ten(places: u8) -> u64
    requires { places ≤ 18 }
    ensures value { result ≡ 10 ^ places }
    ensures positive { 0 < result }
{
    10u64.pow(places as u32)
}
