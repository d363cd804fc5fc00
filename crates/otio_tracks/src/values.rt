// Values of a document by kind, and the schema of an object.
ghost use Rattle.std.specs.Prelude.{◌≡◌, ◌<◌, map, IfOk, IfSome, option_map};
ghost use Rattle.json_tree.specs.Parts.{place_of, kind_in};
ghost use Rattle.json_tree.specs.Size.{tree_size, items_size};
ghost use Rattle.json_tree.specs.View.{tree_of, kind_of};
ghost use Rattle.otio_tracks.specs.Reading.{Reads};
ghost use Rattle.otio_tracks.specs.Values.{given, needed, text_read, list_read, schema_named, schema_text, schema_read, expected, is_null, is_object, wrong_code};

use crate::faults::{DocCode, Fault};
use json_tree::{Json, Value};

/// Where the media reference of a clip stands.
#[derive(Clone, Copy, Debug, PartialEq, Eq)]
pub enum References {
    /// The clip has one, as its `media_reference`.
    One,
    /// The clip has several by their keys, as its `media_references`, of which one is active.
    ByKey,
}

/// What a child of a track or of a stack is, by its schema.
#[derive(Clone, Copy, Debug, PartialEq, Eq)]
pub enum Schema {
    Clip(References),
    Gap,
    Stack,
    Track,
    Transition,
    /// A schema that is read, but stands in no track.
    Other,
}

/// A fault with this code at the place of a value.
pub fn fault_at(code: DocCode, json: &Json) -> Fault
    ensures { result ≡ record { code = code; at = place_of (tree_of json.now) } }
{
    Fault { code, at: json.at }
}

// Whether a value is `null`, which counts as missing in a member that may be missing.
fn is_null(json: &Json) -> bool
    ensures { result ≡ is_null (kind_in (tree_of json.now)) }
{
    match &json.value {
        Value::Null => true,
        _ => false,
    }
}

// Whether a value is an object, which alone has members and a schema.
fn is_object(json: &Json) -> bool
    ensures { result ≡ is_object (kind_in (tree_of json.now)) }
{
    match &json.value {
        Value::Object(_) => true,
        _ => false,
    }
}

/// A member, where it is there and is not null.
pub fn given<'a>(json: &'a Json, name: &str) -> Option<&'a Json>
    ensures member { option_map (λ j. tree_of j.now) result ≡ given name.now (tree_of json.now) }
    ensures smaller { IfSome result (λ j. tree_size (tree_of j.now)
        < tree_size (tree_of json.now)) }
{
    let member = json.member(name)?;
    if is_null(member) {
        return None;
    }
    Some(member)
}

/// A member that must be there, or O2 at the object.
pub fn needed<'a>(json: &'a Json, name: &str) -> Result<&'a Json, Fault>
    ensures member { Reads (λ j. tree_of j.now) result (needed name.now (tree_of json.now)) }
    ensures smaller { IfOk result (λ j. tree_size (tree_of j.now) < tree_size (tree_of json.now)) }
{
    match json.member(name) {
        Some(member) => Ok(member),
        None => Err(fault_at(DocCode::O2, json)),
    }
}

/// The characters of a text, or O3 where the value is no text.
pub fn text(json: &Json) -> Result<&str, Fault>
    ensures { Reads (λ text. text.now) result (text_read (tree_of json.now)) }
{
    match json.text() {
        Some(text) => Ok(text),
        None => Err(fault_at(DocCode::O3, json)),
    }
}

/// The values of a list, or O3 where the value is no list.
pub fn list(json: &Json) -> Result<&[Json], Fault>
    ensures items { Reads (λ js. map tree_of js.now) result (list_read (tree_of json.now)) }
    ensures smaller { IfOk result (λ js. items_size (map tree_of js.now)
        < tree_size (tree_of json.now)) }
{
    match json.items() {
        Some(items) => Ok(items),
        None => Err(fault_at(DocCode::O3, json)),
    }
}

// What a schema's name stands for, if it is one of those that are read.
fn schema_named(name: &str) -> Option<Schema>
    ensures { result ≡ schema_named name.now }
{
    match name {
        "Clip.1" => Some(Schema::Clip(References::One)),
        "Clip.2" => Some(Schema::Clip(References::ByKey)),
        "Gap.1" => Some(Schema::Gap),
        "Stack.1" => Some(Schema::Stack),
        "Track.1" => Some(Schema::Track),
        "Transition.1" => Some(Schema::Transition),
        "Timeline.1" | "TimeRange.1" | "RationalTime.1" => Some(Schema::Other),
        _ => None,
    }
}

/// The member that names an object's schema: O3 where the value is no object, O2 where it has no such member.
#[tactic(auto, unfolding(crate::specs::Values::schema_text))]
fn schema_member(json: &Json) -> Result<&Json, Fault>
    ensures member { Reads (λ j. tree_of j.now) result (schema_text (tree_of json.now)) }
    ensures object { IfOk result (λ _. 0 < tree_size (tree_of json.now)) }
{
    if !is_object(json) {
        return Err(fault_at(DocCode::O3, json));
    }
    needed(json, "OTIO_SCHEMA")
}

/// The schema of a child, and the place of its text; O1 where it is not read.
#[tactic(auto, unfolding(crate::specs::Values::schema_read))]
pub fn schema_of(json: &Json) -> Result<(Schema, u32), Fault>
    ensures schema { result ≡ schema_read (tree_of json.now) }
    ensures object { IfOk result (λ _. 0 < tree_size (tree_of json.now)) }
{
    let member = schema_member(json)?;
    match schema_named(text(member)?) {
        Some(schema) => Ok((schema, member.at)),
        None => Err(fault_at(DocCode::O1, member)),
    }
}

/// Refuses an object of another schema than this one: O3 where the schema is known, else O1.
#[tactic(auto, unfolding(crate::specs::Values::expected))]
pub fn expect(json: &Json, wanted: &str) -> Result<(), Fault>
    ensures { Reads (λ _. tt) result (expected wanted.now (tree_of json.now)) }
{
    let member = schema_member(json)?;
    let name = text(member)?;
    if name == wanted {
        return Ok(());
    }
    Err(fault_at(wrong_code(schema_named(name)), member))
}

// The code of a schema in a wrong place: a known one is O3, any other O1.
fn wrong_code(known: Option<Schema>) -> DocCode
    ensures { result ≡ wrong_code known }
{
    match known {
        Some(_) => DocCode::O3,
        None => DocCode::O1,
    }
}
