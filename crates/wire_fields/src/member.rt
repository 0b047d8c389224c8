//! Finds a member of an object by its key.
ghost use Rattle.std.specs.Prelude.{◌≡◌, option_map};
ghost use Rattle.wire_spec.specs.text_spec.Json.{find_member};
ghost use Rattle.wire_spec.specs.json_tree.Tree.{json_of};

use wire_spec::json_tree::{Json, Members};

/// The value of the first member with this key.
pub fn find<'a>(json: &'a Members, key: &str) -> Option<&'a Json>
    ensures { option_map (λ j. json_of j.now) result ≡ find_member key.now json.now }
{
    let mut at = 0;
    'members: while at < json.len() {
        let (name, value) = json.pair(at);
        if key == name.as_str() {
            return Some(value);
        }
        at += 1;
    }
    None
}
