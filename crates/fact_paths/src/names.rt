//! Finds values by the names of members.
ghost use Rattle.std.specs.Prelude.{◌≡◌, option_map, option_and_then};
ghost use Rattle.fleet_rows.specs.text_spec.Json.{find_member};
ghost use Rattle.fleet_rows.specs.json_tree.Tree.{json_of};
ghost use Rattle.fact_paths.specs.Leaves.{key, value_in, value_at};
ghost use Rattle.fact_paths.specs.Steps.{along, dotted};

use fleet_rows::json_tree::{Json, Members};

/// The value that these names lead to, from member to member. None if there is no such member, or no name. It takes no memory.
pub fn dotted<'a>(facts: &'a Members, path: &[&str]) -> Option<&'a Json>
    ensures { option_map (λ j. json_of j.now) result ≡ dotted facts.now path.now }
{
    match path {
        [] => None,
        [name, rest @ ..] => member_along(facts, name, rest),
    }
}

fn member_along<'a>(facts: &'a Members, name: &str, rest: &[&str]) -> Option<&'a Json>
    ensures { option_map (λ j. json_of j.now) result ≡ option_and_then (value_at (along rest.now)) (find_member name.now facts.now) }
{
    match member(facts, name) {
        Some(value) => value_along(value, rest),
        None => None,
    }
}

fn value_along<'a>(value: &'a Json, path: &[&str]) -> Option<&'a Json>
    ensures { option_map (λ j. json_of j.now) result ≡ value_at (along path.now) (json_of value.now) }
{
    let mut reached = value;
    for name in path {
        match member_of(reached, name) {
            Some(value) => reached = value,
            None => return None,
        }
    }
    Some(reached)
}

fn member_of<'a>(value: &'a Json, name: &str) -> Option<&'a Json>
    ensures { option_map (λ j. json_of j.now) result ≡ value_in (key name.now) (json_of value.now) }
{
    match value {
        Json::Map(members) => member(members, name),
        _ => None,
    }
}

/// The value of the member with this name.
pub(crate) fn member<'a>(members: &'a Members, name: &str) -> Option<&'a Json>
    ensures { option_map (λ j. json_of j.now) result ≡ find_member name.now members.now }
{
    for at in 0..members.len() {
        let (key, value) = members.pair(at);
        if name == key.as_str() {
            return Some(value);
        }
    }
    None
}
