//! The total order of values.
//!
//! Objects compare as lists of members sorted by key, without allocation. If the members of both objects are already sorted, one
//! walk compares them pair by pair. Otherwise the walk searches for the next key each time. So two equal objects of n members
//! take up to 4 * n * (n + 1) comparisons of keys.
ghost use Rattle.std.specs.Prelude.{◌≡◌, ◌&&◌, None, map, option_map};
ghost use Rattle.std.specs.Ordering.{ordering_then};
ghost use Rattle.json_tree.specs.Tree.{json_of, jsons, pair, pairs};
ghost use Rattle.json_tree.specs.NextMember.{arranged_pair, is_behind, is_before, next_from, rises};
ghost use Rattle.text_spec.specs.Json.{number, items_of, members_of, HasDistinctKeys};
ghost use Rattle.text_spec.specs.Compact.{text_cmp, arranged_items, arranged_members};
ghost use Rattle.text_spec.specs.Order.{class_of, order, items_order, members_order};

use crate::number::Number;
use crate::text::Text;
use crate::tree::Json;
use std::cmp::Ordering;

/// The order of two values: null, false, true, scaled numbers, other numbers, texts, arrays, objects. Scaled numbers compare by
/// value, then by spelling; other numbers by spelling; texts by bytes; arrays item by item; objects as lists of members sorted by
/// key. A prefix sorts before the longer list. Comparing objects is linear if the members of both are sorted, and otherwise
/// quadratic in their number.
#[cycle(order)]
pub fn order(a: &Json, b: &Json) -> Ordering
    ensures { result ≡ order (json_of a.now) (json_of b.now) }
{
    match (a, b) {
        (Json::Num(s), Json::Num(t)) => number_order(s, t),
        (Json::Text(s), Json::Text(t)) => s.as_str().cmp(t.as_str()),
        (Json::List(js), Json::List(ks)) => items_order(js.list.as_slice(), ks.list.as_slice()),
        (Json::Map(ms), Json::Map(ns)) => members_order(ms.list.as_slice(), ns.list.as_slice()),
        _ => class_of(a).cmp(&class_of(b)),
    }
}

fn class_of(json: &Json) -> u8
    ensures { result ≡ class_of (json_of json.now) }
{
    match json {
        Json::Null => 0,
        Json::Bool(false) => 2,
        Json::Bool(true) => 3,
        Json::Num(number) => number_class(number),
        Json::Text(_) => 6,
        Json::List(_) => 7,
        Json::Map(_) => 8,
    }
}

fn number_class(s: &Number) -> u8
    ensures { result ≡ class_of (number s.now) }
{
    if s.scaled().is_some() { 4 } else { 5 }
}

fn number_order(s: &Number, t: &Number) -> Ordering
    ensures { result ≡ order (number s.now) (number t.now) }
{
    let spelled = s.spelling().as_str().cmp(t.spelling().as_str());
    match (s.scaled(), t.scaled()) {
        (Some(m), Some(n)) => m.cmp(&n).then(spelled),
        (Some(_), None) => Ordering::Less,
        (None, Some(_)) => Ordering::Greater,
        (None, None) => spelled,
    }
}

#[cycle(order)]
fn items_order(a: &[Json], b: &[Json]) -> Ordering
    ensures { result ≡ items_order (arranged_items (items_of (jsons a.now))) (arranged_items (items_of (jsons b.now))) }
{
    for at in 0..a.len().min(b.len()) {
        let found = order(&a[at], &b[at]);
        if found.is_ne() {
            return found;
        }
    }
    a.len().cmp(&b.len())
}

// ---- members

#[cycle(order)]
fn members_order(a: &[(Text, Json)], b: &[(Text, Json)]) -> Ordering
    requires first { HasDistinctKeys (pairs a.now) }
    requires second { HasDistinctKeys (pairs b.now) }
    ensures { result ≡ members_order (arranged_members (members_of (pairs a.now)))
        (arranged_members (members_of (pairs b.now))) }
{
    if rises(a) && rises(b) {
        rising_order(a, b)
    } else {
        sought_order(a, b)
    }
}

// The members of both objects are sorted by key.
#[cycle(order)]
fn rising_order(a: &[(Text, Json)], b: &[(Text, Json)]) -> Ordering
    ensures { result ≡ members_order (members_of (map arranged_pair (pairs a.now)))
        (members_of (map arranged_pair (pairs b.now))) }
{
    for at in 0..a.len().min(b.len()) {
        let found = member_order(&a[at], &b[at]);
        if found.is_ne() {
            return found;
        }
    }
    a.len().cmp(&b.len())
}

// The members are in any order. It searches for the next key of each object until two members differ.
#[cycle(order)]
fn sought_order(a: &[(Text, Json)], b: &[(Text, Json)]) -> Ordering
    requires first { HasDistinctKeys (pairs a.now) }
    requires second { HasDistinctKeys (pairs b.now) }
    ensures { result ≡ members_order (arranged_members (members_of (pairs a.now)))
        (arranged_members (members_of (pairs b.now))) }
{
    let mut last: Option<&str> = None;
    'keys: loop {
        match (next_member(a, last), next_member(b, last)) {
            (Some(m), Some(n)) => {
                let found = member_order(m, n);
                if found.is_ne() {
                    return found;
                }
                last = Some(m.0.as_str());
            }
            (Some(_), None) => return Ordering::Greater,
            (None, Some(_)) => return Ordering::Less,
            (None, None) => return Ordering::Equal,
        }
    }
}

#[cycle(order)]
fn member_order(m: &(Text, Json), n: &(Text, Json)) -> Ordering
    ensures { result ≡ ordering_then (text_cmp m.now.0 n.now.0) (order (json_of m.now.1) (json_of n.now.1)) }
{
    let keys = m.0.as_str().cmp(n.0.as_str());
    if keys.is_ne() {
        return keys;
    }
    order(&m.1, &n.1)
}

// The member with the least key after `last`, if there is one.
fn next_member<'a>(list: &'a [(Text, Json)], last: Option<&str>) -> Option<&'a (Text, Json)>
    ensures { option_map (λ m. pair m.now) result ≡ next_from (option_map (λ s. s.now) last.entry) None (pairs list.now) }
{
    let mut next: Option<&(Text, Json)> = None;
    for member in list {
        if is_nearer(member, next, last) {
            next = Some(member);
        }
    }
    next
}

// Whether the key is after `last` and before that of `next`.
fn is_nearer(member: &(Text, Json), next: Option<&(Text, Json)>, last: Option<&str>) -> bool
    ensures { result ≡ (is_behind (option_map (λ s. s.now) last.entry) member.now.0
        && is_before member.now.0 (option_map (λ m. pair m.now) next.entry)) }
{
    let key = member.0.as_str();
    let behind = match last {
        Some(before) => before.cmp(key).is_lt(),
        None => true,
    };
    behind
        && match next {
            Some(found) => key.cmp(found.0.as_str()).is_lt(),
            None => true,
        }
}

// Whether each key is greater than the key before it.
fn rises(list: &[(Text, Json)]) -> bool
    ensures { result ≡ rises (pairs list.now) }
{
    for at in 1..list.len() {
        if !list[at - 1].0.as_str().cmp(list[at].0.as_str()).is_lt() {
            return false;
        }
    }
    true
}
