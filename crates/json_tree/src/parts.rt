// What stands in a value, by its kind.
ghost use Rattle.std.specs.Prelude.{◌≡◌, ◌<◌, map, option_map, IfSome};
ghost use Rattle.json_tree.specs.Parts.{kind_in, member_in, items_in, text_in, numeral_in};
ghost use Rattle.json_tree.specs.Size.{tree_size, items_size};
ghost use Rattle.json_tree.specs.View.{tree_of};

use crate::tree::{Json, Value};
use ratio_time::Numeral;

impl Json {
    /// The last member of that name, or `None` where there is none or the value is no object.
    pub fn member(&self, name: &str) -> Option<&Json>
        ensures member { option_map (λ j. tree_of j.now) result
            ≡ member_in name.now (kind_in (tree_of self.now)) }
        ensures smaller { IfSome result (λ j. tree_size (tree_of j.now)
            < tree_size (tree_of self.now)) }
    {
        match &self.value {
            Value::Object(members) => members.find(name),
            _ => None,
        }
    }

    /// The values of a list, in order, or `None` where the value is none.
    pub fn items(&self) -> Option<&[Json]>
        ensures items { option_map (λ js. map tree_of js.now) result
            ≡ items_in (kind_in (tree_of self.now)) }
        ensures smaller { IfSome result (λ js. items_size (map tree_of js.now)
            < tree_size (tree_of self.now)) }
    {
        match &self.value {
            Value::List(items) => Some(items.as_slice()),
            _ => None,
        }
    }

    /// The characters of a text, or `None` where the value is none.
    pub fn text(&self) -> Option<&str>
        ensures { option_map (λ text. text.now) result ≡ text_in (kind_in (tree_of self.now)) }
    {
        match &self.value {
            Value::Text(text) => Some(text.as_str()),
            _ => None,
        }
    }

    /// The number of a numeral, or `None` where the value is none or is `Wide`.
    pub fn numeral(&self) -> Option<Numeral>
        ensures { option_map (λ n. (n.mantissa, n.places)) result
            ≡ numeral_in (kind_in (tree_of self.now)) }
    {
        match &self.value {
            Value::Numeral(numeral) => Some(*numeral),
            _ => None,
        }
    }
}
