//! Finds, sets and takes members of a list of pairs by key.
ghost use Rattle.std.specs.Prelude.{◌≡◌, ◌<◌, OnOk, OnErr, IfSome, length, option_map, Some};
ghost use Rattle.json_tree.specs.Tree.{json_of, pairs};
ghost use Rattle.json_tree.specs.Places.{index_of};
ghost use Rattle.text_spec.specs.Json.{find_member, set_member, without_member, HasDistinctKeys};

use crate::text::Text;
use crate::tree::Json;
use std::alloc::AllocError;

/// The index of the first member with this name.
pub(crate) fn place_of(list: &[(Text, Json)], name: &str) -> Option<usize>
    ensures { result ≡ index_of name.now (pairs list.now) }
{
    let mut at: usize = 0;
    for member in list {
        if name == member.0.as_str() {
            return Some(at);
        }
        at += 1;
    }
    None
}

/// The same for members with distinct keys. It tries the index `at` first.
pub(crate) fn place_near(list: &[(Text, Json)], at: usize, name: &str) -> Option<usize>
    requires within { at < length list.now }
    requires distinct { HasDistinctKeys (pairs list.now) }
    ensures place { result ≡ index_of name.now (pairs list.now) }
    ensures within { IfSome result (λ i. i < length list.now) }
{
    if name == list[at].0.as_str() {
        return Some(at);
    }
    place_of(list, name)
}

/// Sets the value of a key: in its position, or at the end.
pub(crate) fn set_in(list: &mut Vec<(Text, Json)>, key: Text, value: Json) -> Result<(), AllocError>
    ensures ok { OnOk result (pairs list.new.items
        ≡ set_member key (json_of value) (pairs list.old.items)) }
    ensures err { OnErr result (list.new.items ≡ list.old.items) }
{
    match place_of(list.as_slice(), key.as_str()) {
        Some(at) => {
            replace(list, at, key, value);
            Ok(())
        }
        None => {
            list.push((key, value))?;
            Ok(())
        }
    }
}

/// Sets the value of the key whose index is `at`.
pub(crate) fn replace(list: &mut Vec<(Text, Json)>, at: usize, key: Text, value: Json)
    requires { index_of key (pairs list.old.items) ≡ Some at }
    ensures { pairs list.new.items ≡ set_member key (json_of value) (pairs list.old.items) }
{
    list[at].1 = value;
}

/// Removes the first member with this name and returns its value.
pub(crate) fn take_from(list: &mut Vec<(Text, Json)>, name: &str) -> Option<Json>
    ensures value { option_map json_of result ≡ find_member name.now (pairs list.old.items) }
    ensures others { pairs list.new.items ≡ without_member name.now (pairs list.old.items) }
{
    match place_of(list.as_slice(), name) {
        Some(at) => {
            let (key, value) = list.remove(at);
            drop(key);
            Some(value)
        }
        None => None,
    }
}
