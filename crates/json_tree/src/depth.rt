//! Measures how deep a value nests.
ghost use Rattle.std.specs.Prelude.{◌≡◌, ◌≤◌};
ghost use Rattle.json_tree.specs.Tree.{json_of, jsons, pairs};
ghost use Rattle.text_spec.specs.Json.{levels, items_of, members_of, items_levels, members_levels};

use crate::text::Text;
use crate::tree::Json;

/// How deep arrays and objects nest in the value: 0 for a scalar, 1 for an empty array.
#[cycle(levels)]
pub fn levels(json: &Json) -> u32
    ensures value { result ≡ levels (json_of json.now) }
    ensures most { result ≤ 127 }
{
    match json {
        Json::List(items) => 1 + items_levels(items.list.as_slice()),
        Json::Map(members) => 1 + members_levels(members.list.as_slice()),
        _ => 0,
    }
}

#[cycle(levels)]
fn items_levels(list: &[Json]) -> u32
    requires { items_levels (items_of (jsons list.now)) ≤ 126 }
    ensures { result ≡ items_levels (items_of (jsons list.now)) }
{
    let mut most = 0;
    for item in list {
        most = most.max(levels(item));
    }
    most
}

#[cycle(levels)]
fn members_levels(list: &[(Text, Json)]) -> u32
    requires { members_levels (members_of (pairs list.now)) ≤ 126 }
    ensures { result ≡ members_levels (members_of (pairs list.now)) }
{
    let mut most = 0;
    for member in list {
        most = most.max(levels(&member.1));
    }
    most
}
