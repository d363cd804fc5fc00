// Values: words, texts, numerals, lists and objects (RFC 8259, sections 3 to 5).
ghost use Rattle.std.specs.Prelude.{◌≡◌, ◌+◌, ◌<◌, ◌≤◌, length, ℕ, List, Bool, true, false};
ghost use Rattle.json_tokens.specs.Reading.{Gives, Read};
ghost use Rattle.json_tree.specs.ReadingValues.{value_at, kind_read, inner_at, items_at, members_at, list_in, object_in, scalar_at, number_at, number_kind, quoted_at, list_at, elements_at, item_at, member_at, name_at, separator_at};
ghost use Rattle.json_tokens.specs.Spelled.{numeral_kept};
ghost use Rattle.json_tree.specs.View.{tree_of, kind_of, member_of};
ghost use Rattle.json_tree.specs.Next.{is_another};

use crate::tree::{Items, Json, Member, Members, Value};
use json_tokens::{
    JsonFault, Rest, Text, numeral_value, past_blanks, past_byte, text_behind_quote, word,
};
use ratio_time::Numeral;
use std::alloc::Global;

/// What stands after an element of a list or an object.
#[derive(Clone, Copy)]
enum Next {
    /// A comma: another element has to follow.
    Another,
    /// The closing bracket.
    End,
}

/// The value at the front, with at most `levels` levels of lists and objects.
#[tactic(auto, unfolding(crate::specs::ReadingValues::value_at))]
#[cycle(value)]
fn value(alloc: Global, levels: u32, rest: Rest<'_>) -> Result<(Json, Rest<'_>), JsonFault>
    ensures { Gives (λ r. (tree_of r.0, r.1.at, r.1.bytes.now)) result
        (value_at levels rest.entry.at rest.entry.bytes.now) }
{
    let at = rest.at;
    let (value, rest) = kind(alloc, levels, rest)?;
    Ok((Json { at, value }, rest))
}

/// What the value at the front is, with at most `levels` levels of lists and objects.
#[cycle(value)]
fn kind(alloc: Global, levels: u32, rest: Rest<'_>) -> Result<(Value, Rest<'_>), JsonFault>
    ensures { Gives (λ r. (kind_of r.0, r.1.at, r.1.bytes.now)) result
        (kind_read (inner_at levels) rest.entry.at rest.entry.bytes.now) }
{
    match past_byte(b'[', rest) {
        Some(after) => return list(alloc, rest.at, levels, after),
        None => {}
    }
    match past_byte(b'{', rest) {
        Some(after) => object(alloc, rest.at, levels, after),
        None => scalar(alloc, rest),
    }
}

/// The list after the bracket at `start`, which is a fault where no level is left.
#[cycle(value)]
fn list(
    alloc: Global,
    start: u32,
    levels: u32,
    rest: Rest<'_>,
) -> Result<(Value, Rest<'_>), JsonFault>
    ensures { Gives (λ r. (kind_of r.0, r.1.at, r.1.bytes.now)) result
        (list_in (inner_at levels) start rest.entry.at rest.entry.bytes.now) }
{
    if levels == 0 {
        return Err(JsonFault::Depth(start));
    }
    list_inside(alloc, levels - 1, rest)
}

/// The list past its bracket, whose values have at most `levels` levels.
#[tactic(auto, unfolding(crate::specs::ReadingValues::items_at))]
#[cycle(value)]
fn list_inside(alloc: Global, levels: u32, rest: Rest<'_>) -> Result<(Value, Rest<'_>), JsonFault>
    ensures { Gives (λ r. (kind_of r.0, r.1.at, r.1.bytes.now)) result
        (items_at (value_at levels) rest.entry.at rest.entry.bytes.now) }
{
    let (items, rest) = items(alloc, levels, rest)?;
    Ok((Value::List(items), rest))
}

/// The object after the brace at `start`, which is a fault where no level is left.
#[cycle(value)]
fn object(
    alloc: Global,
    start: u32,
    levels: u32,
    rest: Rest<'_>,
) -> Result<(Value, Rest<'_>), JsonFault>
    ensures { Gives (λ r. (kind_of r.0, r.1.at, r.1.bytes.now)) result
        (object_in (inner_at levels) start rest.entry.at rest.entry.bytes.now) }
{
    if levels == 0 {
        return Err(JsonFault::Depth(start));
    }
    object_inside(alloc, levels - 1, rest)
}

/// The object past its brace, whose values have at most `levels` levels.
#[tactic(auto, unfolding(crate::specs::ReadingValues::members_at))]
#[cycle(value)]
fn object_inside(alloc: Global, levels: u32, rest: Rest<'_>) -> Result<(Value, Rest<'_>), JsonFault>
    ensures { Gives (λ r. (kind_of r.0, r.1.at, r.1.bytes.now)) result
        (members_at (value_at levels) rest.entry.at rest.entry.bytes.now) }
{
    let (members, rest) = members(alloc, levels, rest)?;
    Ok((Value::Object(members), rest))
}

/// A value that holds no others: a text, a word or a number.
#[tactic(auto, unfolding(crate::specs::ReadingValues::scalar_at))]
fn scalar(alloc: Global, rest: Rest<'_>) -> Result<(Value, Rest<'_>), JsonFault>
    ensures { Gives (λ r. (kind_of r.0, r.1.at, r.1.bytes.now)) result
        (scalar_at rest.entry.at rest.entry.bytes.now) }
{
    match rest.bytes {
        [b'"', bytes @ ..] => {
            let after = Rest {
                at: rest.at + 1,
                bytes,
            };
            quoted(alloc, after)
        }
        [b'n', ..] => Ok((Value::Null, word(b"null", rest)?)),
        [b't', ..] => Ok((Value::Bool(true), word(b"true", rest)?)),
        [b'f', ..] => Ok((Value::Bool(false), word(b"false", rest)?)),
        _ => number(rest),
    }
}

/// The number at the front, exactly, or `Wide` where it is not kept.
#[tactic(auto, unfolding(crate::specs::ReadingValues::number_at))]
fn number(rest: Rest<'_>) -> Result<(Value, Rest<'_>), JsonFault>
    ensures { Gives (λ r. (kind_of r.0, r.1.at, r.1.bytes.now)) result
        (number_at rest.entry.at rest.entry.bytes.now) }
{
    let (numeral, rest) = numeral_value(rest)?;
    Ok((number_value(numeral), rest))
}

/// The value of a number that was read: `Wide` where it is not kept.
fn number_value(numeral: Option<Numeral>) -> Value
    ensures { kind_of result ≡ number_kind (numeral_kept numeral) }
{
    match numeral {
        Some(numeral) => Value::Numeral(numeral),
        None => Value::Wide,
    }
}

/// A text past its opening quote.
#[tactic(auto, unfolding(crate::specs::ReadingValues::quoted_at))]
fn quoted(alloc: Global, rest: Rest<'_>) -> Result<(Value, Rest<'_>), JsonFault>
    ensures { Gives (λ r. (kind_of r.0, r.1.at, r.1.bytes.now)) result
        (quoted_at rest.entry.at rest.entry.bytes.now) }
{
    let (text, rest) = text_behind_quote(alloc, rest)?;
    Ok((Value::Text(text), rest))
}

/// The values of a list, past its bracket, and what is left past the closing one.
#[cycle(value)]
#[tactic(auto, unfolding(crate::specs::ReadingValues::list_at))]
fn items(alloc: Global, levels: u32, rest: Rest<'_>) -> Result<(Items, Rest<'_>), JsonFault>
    ensures { Gives (λ r. (r.0, r.1.at, r.1.bytes.now)) result
        (list_at (item_at (value_at levels)) 93 rest.entry.at rest.entry.bytes.now) }
{
    let rest = past_blanks(rest);
    match past_byte(b']', rest) {
        Some(after) => Ok((Items::new(alloc), after)),
        None => {
            let (items, rest) = some_items(alloc, levels, rest)?;
            Ok((items.without_slack(alloc), rest))
        }
    }
}

/// The values of a list that does not end at once, and what is left past its closing bracket.
#[cycle(value)]
fn some_items(alloc: Global, levels: u32, rest: Rest<'_>) -> Result<(Items, Rest<'_>), JsonFault>
    ensures { Gives (λ r. (r.0, r.1.at, r.1.bytes.now)) result
        (elements_at (item_at (value_at levels)) 93
        (length rest.entry.bytes.now) rest.entry.at rest.entry.bytes.now) }
{
    let mut items = Items::new(alloc);
    let mut rest = rest;
    let most = rest.bytes.len();
    for _ in 0..most {
        let (item, after) = item(alloc, levels, rest)?;
        items.push(item)?;
        let (next, after) = separator(b']', after)?;
        match next {
            Next::End => return Ok((items, after)),
            Next::Another => {}
        }
        rest = after;
    }
    Err(JsonFault::Syntax(rest.at))
}

/// A value with blanks around it.
#[cycle(value)]
#[tactic(auto, unfolding(crate::specs::ReadingValues::item_at))]
pub fn item(alloc: Global, levels: u32, rest: Rest<'_>) -> Result<(Json, Rest<'_>), JsonFault>
    ensures { Gives (λ r. (tree_of r.0, r.1.at, r.1.bytes.now)) result
        (item_at (value_at levels) rest.entry.at rest.entry.bytes.now) }
{
    let (value, rest) = value(alloc, levels, past_blanks(rest))?;
    Ok((value, past_blanks(rest)))
}

/// A comma or the closing bracket, or the fault where another byte stands.
fn separator(close: u8, rest: Rest<'_>) -> Result<(Next, Rest<'_>), JsonFault>
    ensures { Gives (λ r. (is_another r.0, r.1.at, r.1.bytes.now)) result
        (separator_at close rest.entry.at rest.entry.bytes.now) }
{
    match rest.bytes {
        [] => Err(JsonFault::Syntax(rest.at)),
        [byte, bytes @ ..] => {
            let after = Rest {
                at: rest.at + 1,
                bytes,
            };
            if *byte == b',' {
                return Ok((Next::Another, after));
            }
            if *byte == close {
                return Ok((Next::End, after));
            }
            Err(JsonFault::Syntax(rest.at))
        }
    }
}

/// The members of an object, past its brace, and what is left past the closing one.
#[cycle(value)]
#[tactic(auto, unfolding(crate::specs::ReadingValues::list_at))]
fn members(alloc: Global, levels: u32, rest: Rest<'_>) -> Result<(Members, Rest<'_>), JsonFault>
    ensures { Gives (λ r. (r.0, r.1.at, r.1.bytes.now)) result
        (list_at (member_at (value_at levels)) 125 rest.entry.at rest.entry.bytes.now) }
{
    let rest = past_blanks(rest);
    match past_byte(b'}', rest) {
        Some(after) => Ok((Members::new(alloc), after)),
        None => {
            let (members, rest) = some_members(alloc, levels, rest)?;
            Ok((members.without_slack(alloc), rest))
        }
    }
}

/// The members of an object that does not end at once, and what is left past its closing brace.
#[cycle(value)]
fn some_members(
    alloc: Global,
    levels: u32,
    rest: Rest<'_>,
) -> Result<(Members, Rest<'_>), JsonFault>
    ensures { Gives (λ r. (r.0, r.1.at, r.1.bytes.now)) result
        (elements_at (member_at (value_at levels)) 125
        (length rest.entry.bytes.now) rest.entry.at rest.entry.bytes.now) }
{
    let mut members = Members::new(alloc);
    let mut rest = rest;
    let most = rest.bytes.len();
    for _ in 0..most {
        let (member, after) = member(alloc, levels, rest)?;
        members.push(member)?;
        let (next, after) = separator(b'}', after)?;
        match next {
            Next::End => return Ok((members, after)),
            Next::Another => {}
        }
        rest = after;
    }
    Err(JsonFault::Syntax(rest.at))
}

/// A name, a colon and a value, with blanks around them.
#[tactic(auto, unfolding(crate::specs::ReadingValues::member_at))]
#[cycle(value)]
fn member(alloc: Global, levels: u32, rest: Rest<'_>) -> Result<(Member, Rest<'_>), JsonFault>
    ensures { Gives (λ r. (member_of r.0, r.1.at, r.1.bytes.now)) result
        (member_at (value_at levels) rest.entry.at rest.entry.bytes.now) }
{
    let (name, rest) = name(alloc, rest)?;
    let (value, rest) = item(alloc, levels, rest)?;
    Ok((Member { name, value }, rest))
}

/// A name with blanks around it, and the colon.
#[tactic(auto, unfolding(crate::specs::ReadingValues::name_at))]
fn name(alloc: Global, rest: Rest<'_>) -> Result<(Text, Rest<'_>), JsonFault>
    ensures { Gives (λ r. (r.0, r.1.at, r.1.bytes.now)) result
        (name_at rest.entry.at rest.entry.bytes.now) }
{
    let rest = word(b"\"", past_blanks(rest))?;
    let (name, rest) = text_behind_quote(alloc, rest)?;
    let rest = word(b":", past_blanks(rest))?;
    Ok((name, rest))
}
