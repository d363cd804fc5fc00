// A member by its name.
ghost use Rattle.std.specs.Prelude.{◌≡◌, map, option_map};
ghost use Rattle.json_tree.specs.Tree.{last_named};
ghost use Rattle.json_tree.specs.View.{tree_of, member_of};

use crate::tree::{Json, Member};

/// The value of the last member of that name, or `None` where there is none.
pub fn last_of<'a>(members: &'a [Member], name: &str) -> Option<&'a Json>
    ensures { option_map (λ j. tree_of j.now) result
        ≡ last_named name.now (map member_of members.now) }
{
    let mut found = None;
    for member in members {
        if member.name.as_str() == name {
            found = Some(&member.value);
        }
    }
    found
}
