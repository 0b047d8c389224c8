//! Makes the value whose canonical text is appended: each number by its value, and each key once.
ghost use Rattle.std.specs.Prelude.{◌≡◌, IfOk};
ghost use Rattle.json_tree.specs.text_spec.Json.{items_of, members_of, items_list};
ghost use Rattle.json_tree.specs.text_spec.Number.{scaled};
ghost use Rattle.json_tree.specs.Tree.{json_of};
ghost use Rattle.same_text.specs.Alike.{alike, alike_items, alike_members, by_value};

use itoa::Buffer;
use json_tree::{Items, Json, Members, Number, Text, settle};
use std::alloc::{AllocError, Global};

/// A copy of the value in which the decimal text of its scaled value replaces each scaled number.
#[cycle(alike)]
pub(crate) fn alike(alloc: Global, json: &Json) -> Result<Json, AllocError>
    ensures { IfOk result (λ made. json_of made ≡ alike (json_of json.now)) }
{
    match json {
        Json::Null => Ok(Json::Null),
        Json::Bool(b) => Ok(Json::Bool(*b)),
        Json::Num(number) => by_value(alloc, number),
        Json::Text(text) => Ok(Json::Text(Text::from_str(alloc, text.as_str())?)),
        Json::List(items) => Ok(Json::List(alike_items(alloc, items)?)),
        Json::Map(members) => Ok(Json::Map(alike_members(alloc, members)?)),
    }
}

fn by_value(alloc: Global, number: &Number) -> Result<Json, AllocError>
    ensures { IfOk result (λ made. json_of made ≡ by_value (scaled number.now) number.now) }
{
    match number.scaled() {
        Some(m) => {
            let mut buffer = Buffer::new();
            Ok(Json::Text(Text::from_str(alloc, buffer.format(m))?))
        }
        None => {
            let spelling = Text::from_str(alloc, number.spelling().as_str())?;
            Ok(Json::Num(Number::of(spelling)))
        }
    }
}

#[cycle(alike)]
fn alike_items(alloc: Global, items: &Items) -> Result<Items, AllocError>
    ensures { IfOk result (λ made. made ≡ items_list (alike_items (items_of items.now))) }
{
    let mut made = Items::new(alloc);
    let list = items.as_slice();
    for item in list {
        made.push(alike(alloc, item)?)?;
    }
    Ok(made)
}

// The pairs are set from the last to the first, so the first value of a key wins.
#[cycle(alike)]
fn alike_members(alloc: Global, members: &Members) -> Result<Members, AllocError>
    ensures { IfOk result (λ made. made ≡ alike_members (members_of members.now)) }
{
    let mut list = Vec::new(alloc);
    let count = members.len();
    'members: for i in 0..count {
        let (key, value) = members.pair(count - 1 - i);
        let key = Text::from_str(alloc, key.as_str())?;
        list.push((key, alike(alloc, value)?))?;
    }
    Ok(Members::from_pairs(settle(alloc, list)?))
}
