// The tree that a text in JSON stands for.
use crate::lookup::last_of;
use crate::slack::without_slack;
use json_tokens::{Memory, Text};
use ratio_time::Numeral;
use std::alloc::Global;
use std::marker::Model;

/// A value, and its place in the text that it was read from: how many bytes stand before it.
#[derive(Debug, Drop)]
#[cycle(tree)]
pub struct Json {
    /// How many bytes stand before it.
    pub at: u32,
    /// What it is.
    pub value: Value,
}

/// What a value is (RFC 8259, section 3).
#[derive(Debug, Drop)]
#[cycle(tree)]
pub enum Value {
    /// The word `null`.
    Null,
    /// The word `true` or `false`.
    Bool(bool),
    /// A number m/10^k with m below 10^18 in size and k at most 18, whichever way it was spelled.
    Numeral(Numeral),
    /// Any other number.
    Wide,
    /// Characters, without the quotes and with no escapes.
    Text(Text),
    /// Values in brackets, in order.
    List(Items),
    /// Members in braces, in order.
    Object(Members),
}

/// The values of a list, in order.
#[derive(Debug, Drop)]
#[cycle(tree)]
pub struct Items {
    list: Vec<Json>,
}

/// A member of an object.
#[derive(Debug, Drop)]
#[cycle(tree)]
pub struct Member {
    /// Its name, without quotes and escapes.
    pub name: Text,
    /// The value after the colon.
    pub value: Json,
}

/// The members of an object, in order. A name may come more than once.
#[derive(Debug, Drop)]
#[cycle(tree)]
pub struct Members {
    list: Vec<Member>,
}

impl Model for Items {
    ghost use Rattle.std.specs.Prelude.{List, map};
    ghost use Rattle.json_tree.specs.Tree.{Tree};
    ghost use Rattle.json_tree.specs.Stored.{trees_code};

    ghost Value = { List Tree };

    ghost coded = { trees_code };

    ghost use Rattle.json_tree.specs.View.{tree_of};

    ghost view = { λ a. map tree_of a.list.items };

    ghost use Rattle.json_tree.specs.Tree.{trees};
    ghost use Rattle.json_tree.specs.Sound.{AreSound};

    ghost invariant = { λ a. AreSound (trees (map tree_of a.list.items)) };

    ghost use Rattle.json_tree.specs.Size.{items_size};

    ghost size = { items_size };

    ghost use Rattle.json_tree.specs.SizeFalls.{items_fall};

    ghost size_decreases = { λ a h. items_fall a.list.items };
}

impl Model for Members {
    ghost use Rattle.std.specs.Prelude.{ℕ, List, map};
    ghost use Rattle.json_tree.specs.Tree.{Tree};
    ghost use Rattle.json_tree.specs.Stored.{members_code};

    ghost Value = { List (List ℕ × Tree) };

    ghost coded = { members_code };

    ghost use Rattle.json_tree.specs.View.{member_of};

    ghost view = { λ a. map member_of a.list.items };

    ghost use Rattle.json_tree.specs.Tree.{members};
    ghost use Rattle.json_tree.specs.Sound.{AreSoundMembers};

    ghost invariant = { λ a. AreSoundMembers (members (map member_of a.list.items)) };

    ghost use Rattle.json_tree.specs.Size.{named_size};

    ghost size = { named_size };

    ghost use Rattle.json_tree.specs.SizeFalls.{members_fall};

    ghost size_decreases = { λ a h. members_fall a.list.items };
}

impl Json {
    ghost use Rattle.json_tree.specs.Sound.{IsSound};
    ghost use Rattle.json_tree.specs.View.{tree_of};

    /// Tells that each text in it is UTF-8, and that each numeral has its least places. Nothing is done.
    pub(crate) fn keeps_utf8_and_least_places(&self)
        ensures { IsSound (tree_of self.now) }
    {
        match &self.value {
            Value::Null | Value::Bool(_) | Value::Numeral(_) | Value::Wide => {}
            Value::Text(text) => {
                let _ = text.as_str();
            }
            Value::List(items) => {
                let _ = items.as_slice();
            }
            Value::Object(members) => {
                let _ = members.as_slice();
            }
        }
    }
}

impl Member {
    ghost use Rattle.std.specs.Str.{IsUtf8};
    ghost use Rattle.json_tree.specs.Sound.{IsSound};
    ghost use Rattle.json_tree.specs.View.{tree_of};

    /// Tells that its name and each text in its value are UTF-8, and that each numeral has its least places. Nothing is
    /// done.
    fn keeps_utf8_and_least_places(&self)
        ensures name { IsUtf8 self.now.name }
        ensures value { IsSound (tree_of self.now.value) }
    {
        let _ = self.name.as_str();
        self.value.keeps_utf8_and_least_places();
    }
}

impl Items {
    ghost use Rattle.std.specs.Prelude.{◌≡◌, ◌∷◌, [], ◌++◌, OnOk, OnErr, map};
    ghost use Rattle.json_tree.specs.Sound.{AreSound};
    ghost use Rattle.json_tree.specs.Tree.{trees};
    ghost use Rattle.json_tree.specs.View.{tree_of};

    /// No values.
    pub fn new(alloc: Global) -> Items
        ensures { result ≡ [] }
    {
        Items {
            list: Vec::new(alloc),
        }
    }

    /// Its values, in order.
    pub fn as_slice(&self) -> &[Json]
        ensures list { map tree_of result.now ≡ self.now }
        ensures sound { AreSound (trees self.now) }
    {
        self.list.as_slice()
    }

    /// Adds a value at the end. After an error nothing has changed.
    pub fn push(&mut self, item: Json) -> Result<(), Memory>
        ensures ok { OnOk result (self.new ≡ self.old ++ tree_of item ∷ []) }
        ensures err { OnErr result (self.new ≡ self.old) }
    {
        item.keeps_utf8_and_least_places();
        self.list.push(item)?;
        Ok(())
    }

    /// The list in a block of no more memory than its values need, as far as the allocator gives one.
    pub(crate) fn without_slack(self, alloc: Global) -> Items
        ensures { result ≡ self }
    {
        Items {
            list: without_slack(alloc, self.list),
        }
    }
}

impl Members {
    ghost use Rattle.std.specs.Prelude.{◌≡◌, ◌∷◌, [], ◌++◌, OnOk, OnErr, map, option_map};
    ghost use Rattle.json_tree.specs.View.{tree_of, member_of};
    ghost use Rattle.json_tree.specs.Sound.{AreSoundMembers};
    ghost use Rattle.json_tree.specs.Tree.{last_named, members};

    /// No members.
    pub fn new(alloc: Global) -> Members
        ensures { result ≡ [] }
    {
        Members {
            list: Vec::new(alloc),
        }
    }

    /// Its members, in order.
    pub fn as_slice(&self) -> &[Member]
        ensures list { map member_of result.now ≡ self.now }
        ensures sound { AreSoundMembers (members self.now) }
    {
        self.list.as_slice()
    }

    /// Adds a member at the end. After an error nothing has changed.
    pub fn push(&mut self, member: Member) -> Result<(), Memory>
        ensures ok { OnOk result (self.new ≡ self.old ++ member_of member ∷ []) }
        ensures err { OnErr result (self.new ≡ self.old) }
    {
        member.keeps_utf8_and_least_places();
        self.list.push(member)?;
        Ok(())
    }

    /// The object in a block of no more memory than its members need, as far as the allocator gives one.
    pub(crate) fn without_slack(self, alloc: Global) -> Members
        ensures { result ≡ self }
    {
        Members {
            list: without_slack(alloc, self.list),
        }
    }

    /// The value of the last member of that name, or `None` where there is none.
    pub fn find(&self, name: &str) -> Option<&Json>
        ensures { option_map (λ j. tree_of j.now) result ≡ last_named name.now self.now }
    {
        last_of(self.as_slice(), name)
    }
}
