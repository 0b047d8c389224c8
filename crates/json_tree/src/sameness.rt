//! Decides whether two values are the same: numbers by value, and members of objects in any order.
ghost use Rattle.std.specs.Prelude.{◌≡◌};
ghost use Rattle.json_tree.specs.Tree.{json_of, jsons, pairs};
ghost use Rattle.text_spec.specs.Json.{object, items_of, members_of, HasDistinctKeys};
ghost use Rattle.text_spec.specs.Order.{same, same_items, same_number};

use crate::number::Number;
use crate::places::place_near;
use crate::text::Text;
use crate::tree::Json;

/// Whether the values are the same. Numbers are the same if [`Number::compare`] gives Equal. Arrays compare item by item, objects
/// as maps. A key is first tried at the same index of `b`, and otherwise searched among the members of `b`.
#[cycle(same)]
pub fn same(a: &Json, b: &Json) -> bool
    ensures { result ≡ same (json_of a.now) (json_of b.now) }
{
    match (a, b) {
        (Json::Null, Json::Null) => true,
        (Json::Bool(x), Json::Bool(y)) => *x == *y,
        (Json::Num(s), Json::Num(t)) => same_number(s, t),
        (Json::Text(s), Json::Text(t)) => s.as_str() == t.as_str(),
        (Json::List(js), Json::List(ks)) => same_items(js.list.as_slice(), ks.list.as_slice()),
        (Json::Map(ms), Json::Map(ns)) => same_members(ms.list.as_slice(), ns.list.as_slice()),
        _ => false,
    }
}

fn same_number(s: &Number, t: &Number) -> bool
    ensures { result ≡ same_number s.now t.now }
{
    match s.compare(t) {
        Some(order) => order.is_eq(),
        None => false,
    }
}

#[cycle(same)]
fn same_items(a: &[Json], b: &[Json]) -> bool
    ensures { result ≡ same_items (items_of (jsons a.now)) (items_of (jsons b.now)) }
{
    if a.len() != b.len() {
        return false;
    }
    for at in 0..a.len() {
        if !same(&a[at], &b[at]) {
            return false;
        }
    }
    true
}

// If both objects have equally many members and each key of `a` is in `b`, then each key of `b` is in `a`.
#[cycle(same)]
fn same_members(a: &[(Text, Json)], b: &[(Text, Json)]) -> bool
    requires first { HasDistinctKeys (pairs a.now) }
    requires second { HasDistinctKeys (pairs b.now) }
    ensures { result ≡ same (object (members_of (pairs a.now))) (object (members_of (pairs b.now))) }
{
    if a.len() != b.len() {
        return false;
    }
    for at in 0..a.len() {
        let member = &a[at];
        match place_near(b, at, member.0.as_str()) {
            Some(place) => {
                if !same(&member.1, &b[place].1) {
                    return false;
                }
            }
            None => return false,
        }
    }
    true
}
