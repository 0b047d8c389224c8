//! Values: how they print, and how objects and lists are built, changed and copied.
use crate::wrong::{Wrong, holds};
use json_read::json_tree::{
    Bytes, Items, Json, Members, Text, canonical, levels, settle, write_compact,
};
use json_read::{ReadFault, read};
use std::alloc::{AllocError, Global};

// Whether the value is pushed. One of 127 levels isn't.
fn is_added(items: &mut Items, value: Json) -> Result<bool, AllocError> {
    if levels(&value) > 126 {
        return Ok(false);
    }
    items.push(value)?;
    Ok(true)
}

// Whether the value is put under the key. One of 127 levels isn't.
fn is_put(
    alloc: Global,
    members: &mut Members,
    key: &str,
    value: Json,
) -> Result<bool, AllocError> {
    if levels(&value) > 126 {
        return Ok(false);
    }
    members.set(Text::from_str(alloc, key)?, value)?;
    Ok(true)
}

fn is_compact(alloc: Global, json: &Json, compact: &str) -> Result<bool, AllocError> {
    let text = write_compact(alloc, json)?;
    Ok(text.as_slice() == compact.as_bytes())
}

fn is_canonical(alloc: Global, json: &Json, sorted: &str) -> Result<bool, AllocError> {
    let text = canonical(alloc, json)?;
    Ok(text.as_slice() == sorted.as_bytes())
}

// Whether the value is printed so as it stands, and so with sorted members.
fn prints(alloc: Global, json: &Json, compact: &str, sorted: &str) -> Result<bool, AllocError> {
    Ok(is_compact(alloc, json, compact)? && is_canonical(alloc, json, sorted)?)
}

static PRINTED: [(&str, &str, &str); 3] = [
    (
        "{\"b\":1,\"a\":\"\\u0041\"}",
        "{\"b\":1,\"a\":\"A\"}",
        "{\"a\":\"A\",\"b\":1}",
    ),
    (
        "{\"é\":[{\"aa\":null,\"a\":true,\"B\":false},-0.50e+1],\"z\":{}}",
        "{\"é\":[{\"aa\":null,\"a\":true,\"B\":false},-0.50e+1],\"z\":{}}",
        "{\"z\":{},\"é\":[{\"B\":false,\"a\":true,\"aa\":null},-0.50e+1]}",
    ),
    (
        "\"x\\\"\\\\\\u0008\\u0009\\n\\u000B\\f\\r\\u0000\\u001F \u{7f}\\/é\"",
        "\"x\\\"\\\\\\b\\t\\n\\u000b\\f\\r\\u0000\\u001f \u{7f}/é\"",
        "\"x\\\"\\\\\\b\\t\\n\\u000b\\f\\r\\u0000\\u001f \u{7f}/é\"",
    ),
];

// Whether the text is read as a value of which a copy is printed so.
fn copy_prints(alloc: Global, text: &str, compact: &str, sorted: &str) -> Result<bool, ReadFault> {
    let value = read(alloc, text.as_bytes())?;
    let copy = value.copy(alloc)?;
    Ok(prints(alloc, &copy, compact, sorted)?)
}

fn each_copy(alloc: Global) -> Result<(), Wrong> {
    for (at, (text, compact, sorted)) in PRINTED.iter().enumerate() {
        holds(copy_prints(alloc, text, compact, sorted)?, at)?;
    }
    Ok(())
}

#[test]
fn values_print_in_their_order_and_by_key(rt: HostRuntime) -> Result<(), Wrong> {
    each_copy(rt.alloc())
}

// An object whose one member is a list with this value, which has 125 levels at most.
fn around(alloc: Global, json: Json) -> Result<Json, Wrong> {
    let mut items = Items::new(alloc);
    holds(is_added(&mut items, json)?, 125)?;
    let mut members = Members::new(alloc);
    holds(is_put(alloc, &mut members, "k", Json::List(items))?, 126)?;
    Ok(Json::Map(members))
}

fn deepest(alloc: Global) -> Result<Json, Wrong> {
    let mut json = Json::List(Items::new(alloc));
    for _ in 0..63 {
        json = around(alloc, json)?;
    }
    Ok(json)
}

// The text of that value.
fn deepest_text(alloc: Global) -> Result<String, AllocError> {
    let mut text = String::new(alloc);
    for _ in 0..63 {
        text.push_str("{\"k\":[")?;
    }
    text.push_str("[]")?;
    for _ in 0..63 {
        text.push_str("]}")?;
    }
    Ok(text)
}

// Whether a copy of the value prints so.
fn is_copied(alloc: Global, json: &Json, text: &str) -> Result<bool, AllocError> {
    let copy = json.copy(alloc)?;
    prints(alloc, &copy, text, text)
}

#[test]
fn a_value_of_127_levels_is_built_copied_and_printed(rt: HostRuntime) -> Result<(), Wrong> {
    let json = deepest(rt.alloc())?;
    holds(levels(&json) == 127, 0)?;
    let text = deepest_text(rt.alloc())?;
    holds(is_copied(rt.alloc(), &json, text.as_str())?, 1)
}

// Whether the first of two members has this key and prints so.
fn is_first_of_two(
    alloc: Global,
    members: &Members,
    key: &str,
    text: &str,
) -> Result<bool, AllocError> {
    if members.len() != 2 {
        return Ok(false);
    }
    let (found, value) = members.pair(0);
    Ok(found.as_str() == key && prints(alloc, value, text, text)?)
}

fn set_twice(alloc: Global) -> Result<Members, Wrong> {
    let mut members = Members::new(alloc);
    holds(is_put(alloc, &mut members, "b", Json::Null)?, 0)?;
    holds(is_put(alloc, &mut members, "a", Json::Null)?, 1)?;
    holds(is_put(alloc, &mut members, "b", Json::Bool(true))?, 2)?;
    Ok(members)
}

#[test]
fn a_key_that_is_set_twice_keeps_its_place(rt: HostRuntime) -> Result<(), Wrong> {
    let members = set_twice(rt.alloc())?;
    holds(is_first_of_two(rt.alloc(), &members, "b", "true")?, 3)
}

// Members with these keys, of which `b` holds true, and the others false.
fn members_of(alloc: Global, keys: &[&str]) -> Result<Members, Wrong> {
    let mut members = Members::new(alloc);
    for (at, key) in keys.iter().enumerate() {
        holds(
            is_put(alloc, &mut members, key, Json::Bool(*key == "b"))?,
            at,
        )?;
    }
    Ok(members)
}

// Whether a member of this name is taken out and prints so.
fn takes(alloc: Global, members: &mut Members, name: &str, text: &str) -> Result<bool, AllocError> {
    match members.take(name) {
        Some(value) => prints(alloc, &value, text, text),
        None => Ok(false),
    }
}

fn lacks(members: &mut Members, name: &str) -> bool {
    members.take(name).is_none()
}

#[test]
fn a_member_taken_from_the_middle_leaves_the_others_in_order(rt: HostRuntime) -> Result<(), Wrong> {
    let alloc = rt.alloc();
    let mut members = members_of(alloc, &["d", "b", "c", "a"])?;
    holds(lacks(&mut members, "x"), 4)?;
    holds(takes(alloc, &mut members, "b", "true")?, 5)?;
    let compact = "{\"d\":false,\"c\":false,\"a\":false}";
    let sorted = "{\"a\":false,\"c\":false,\"d\":false}";
    holds(prints(alloc, &Json::Map(members), compact, sorted)?, 6)
}

// The last pair holds true, and the others false.
fn pairs_of(alloc: Global, keys: &[&str]) -> Result<Vec<(Text, Json)>, AllocError> {
    let mut list = Vec::new(alloc);
    let mut left = keys.len();
    for key in keys {
        list.push((Text::from_str(alloc, key)?, Json::Bool(left == 1)))?;
        left = left.saturating_sub(1);
    }
    Ok(list)
}

// The keys and the values of pairs, one behind the other.
fn joined(alloc: Global, list: &[(Text, Json)]) -> Result<Vec<u8>, AllocError> {
    let mut text = Vec::new(alloc);
    for member in list {
        text.extend_from_slice(member.0.as_str().as_bytes())?;
        text.extend_from_slice(write_compact(alloc, &member.1)?.as_slice())?;
    }
    Ok(text)
}

fn settles(alloc: Global, keys: &[&str], expected: &str) -> Result<bool, AllocError> {
    let list = settle(alloc, pairs_of(alloc, keys)?)?;
    let text = joined(alloc, list.as_slice())?;
    Ok(text.as_slice() == expected.as_bytes())
}

static SETTLED: [(&[&str], &str); 4] = [
    (&["b", "a"], "bfalseatrue"),
    (&["b", "a", "b", "c", "a"], "bfalseatruecfalse"),
    (
        &["b", "a", "c", "d", "e", "f", "g", "h", "i", "j"],
        "bfalseafalsecfalsedfalseefalseffalsegfalsehfalseifalsejtrue",
    ),
    (
        &["b", "a", "c", "d", "e", "f", "g", "h", "b", "a"],
        "bfalseatruecfalsedfalseefalseffalsegfalsehfalse",
    ),
];

fn each_settles(alloc: Global) -> Result<(), Wrong> {
    for (at, (keys, expected)) in SETTLED.iter().enumerate() {
        holds(settles(alloc, keys, expected)?, at)?;
    }
    Ok(())
}

#[test]
fn the_later_value_of_equal_keys_stands_in_the_first_place(rt: HostRuntime) -> Result<(), Wrong> {
    each_settles(rt.alloc())
}

fn comes_back(alloc: Global, bytes: &[u8]) -> Result<bool, AllocError> {
    Ok(Bytes::from_slice(alloc, bytes)?.as_slice() == bytes)
}

fn text_comes_back(alloc: Global, text: &str) -> Result<bool, AllocError> {
    Ok(Text::from_str(alloc, text)?.as_str() == text)
}

#[test]
fn bytes_and_texts_come_back(rt: HostRuntime) -> Result<(), Wrong> {
    holds(comes_back(rt.alloc(), &[0, 255, 10])?, 0)?;
    holds(text_comes_back(rt.alloc(), "é\n")?, 1)
}
