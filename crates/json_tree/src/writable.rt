// Which trees can be written.
ghost use Rattle.std.specs.Prelude.{◌≡◌, ◌-◌, map, IsTrue};
ghost use Rattle.json_tree.specs.Sound.{is_writable, is_kind_writable, are_writable, are_members_writable};
ghost use Rattle.json_tree.specs.Tree.{trees, members};
ghost use Rattle.json_tree.specs.View.{tree_of, member_of};

use crate::document::MOST_LEVELS;
use crate::tree::{Json, Member, Value};

/// Whether the tree can be written: it has no number that is `Wide`, and at most 64 levels of lists and
/// objects stand in one another.
pub fn is_writable(tree: &Json) -> bool
    ensures { result ≡ is_writable (tree_of tree.now) MOST_LEVELS }
{
    is_tree_writable(tree, MOST_LEVELS)
}

/// Whether a tree has no number that is `Wide`, and at most `levels` levels of lists and objects.
#[cycle(writable)]
fn is_tree_writable(tree: &Json, levels: u32) -> bool
    ensures { result ≡ is_writable (tree_of tree.now) levels }
{
    match &tree.value {
        Value::Null | Value::Bool(_) | Value::Numeral(_) | Value::Text(_) => true,
        Value::Wide => false,
        Value::List(items) => levels > 0 && are_writable(items.as_slice(), levels - 1),
        Value::Object(members) => {
            levels > 0 && are_members_writable(members.as_slice(), levels - 1)
        }
    }
}

/// Whether all of these values can be written at `levels` levels.
#[cycle(writable)]
fn are_writable(items: &[Json], levels: u32) -> bool
    ensures { result ≡ are_writable (trees (map tree_of items.now)) levels }
{
    for item in items {
        if !is_tree_writable(item, levels) {
            return false;
        }
    }
    true
}

/// Whether the values of all of these members can be written at `levels` levels.
#[cycle(writable)]
fn are_members_writable(named: &[Member], levels: u32) -> bool
    ensures { result ≡ are_members_writable (members (map member_of named.now)) levels }
{
    for member in named {
        if !is_tree_writable(&member.value, levels) {
            return false;
        }
    }
    true
}
