//! Writes the canonical text of a value: the compact text with the members of each object sorted by the bytes of their keys.
//!
//! One list of references, `order`, serves the whole tree as a stack. An object appends its members, sorts that part, writes the
//! members in that order, and removes them again. So no node allocates and no key is copied. The two lists grow to the length of
//! the longest path and of the text.
ghost use Rattle.std.specs.Prelude.{◌≡◌, ◌++◌, ◌≤◌, OnOk, IfOk, IsTrue, All, [], List, ℕ, length, take, drop, map, false};
ghost use Rattle.std.specs.Io.{StartsWith};
ghost use Rattle.std.specs.List.Sorted.{IsPermutation};
ghost use Rattle.text_spec.specs.Json.{array, object, levels, items_of, members_of, items_levels, members_levels, HasDistinctKeys};
ghost use Rattle.text_spec.specs.Compact.{text_cmp, canonical, compact_items, compact_members, arranged_items, arranged_members};
ghost use Rattle.json_tree.specs.Tree.{json_of, jsons, pairs};
ghost use Rattle.json_tree.specs.KeyOrder.{AreInOrder};
ghost use Rattle.json_tree.specs.Arranged.{placed};

use crate::text::{Bytes, Text};
use crate::tree::{Items, Json, Members};
use crate::write::{put_bool, put_quoted};
use std::alloc::{AllocError, Global};
use std::cmp::Ordering;

/// The canonical text of a value. Objects that differ only in the order of their members have the same text.
pub fn canonical(alloc: Global, json: &Json) -> Result<Bytes, AllocError>
    ensures { IfOk result (λ b. b ≡ canonical (json_of json.now)) }
{
    let mut out = Vec::new(alloc);
    let mut order = Vec::new(alloc);
    put(&mut out, &mut order, json)?;
    Ok(Bytes::from_vec(out))
}

/// Appends the canonical text of a value. If memory runs out, `out` keeps its old bytes as a prefix.
pub fn append_canonical(alloc: Global, out: &mut Vec<u8>, json: &Json) -> Result<(), AllocError>
    ensures text { OnOk result (out.new.items ≡ out.old.items ++ canonical (json_of json.now)) }
    ensures appends { StartsWith out.new.items out.old.items }
{
    let mut order = Vec::new(alloc);
    put(out, &mut order, json)
}

/// Appends the canonical text of the array of these items. If memory runs out, `out` keeps its old bytes as a prefix.
pub fn append_canonical_items(
    alloc: Global,
    out: &mut Vec<u8>,
    items: &Items,
) -> Result<(), AllocError>
    ensures text { OnOk result (out.new.items ≡ out.old.items ++ canonical (array (items_of items.now))) }
    ensures appends { StartsWith out.new.items out.old.items }
{
    let mut order = Vec::new(alloc);
    out.push(b'[')?;
    put_items(out, &mut order, items.list.as_slice())
}

/// Appends the canonical text of the object of these members. If memory runs out, `out` keeps its old bytes as a prefix.
pub fn append_canonical_members(
    alloc: Global,
    out: &mut Vec<u8>,
    members: &Members,
) -> Result<(), AllocError>
    ensures text { OnOk result (out.new.items ≡ out.old.items ++ canonical (object (members_of members.now))) }
    ensures appends { StartsWith out.new.items out.old.items }
{
    let mut order = Vec::new(alloc);
    out.push(b'{')?;
    put_members(out, &mut order, members.list.as_slice())
}

#[cycle(put)]
fn put<'a>(
    out: &mut Vec<u8>,
    order: &mut Vec<&'a (Text, Json)>,
    json: &'a Json,
) -> Result<(), AllocError>
    ensures text { OnOk result (out.new.items ≡ out.old.items ++ canonical (json_of json.now)) }
    ensures appends { StartsWith out.new.items out.old.items }
    ensures order { OnOk result (order.new.items ≡ order.old.items) }
{
    match json {
        Json::Null => out.extend_from_slice(b"null"),
        Json::Bool(b) => put_bool(out, *b),
        Json::Num(number) => out.extend_from_slice(number.spelling().as_str().as_bytes()),
        Json::Text(text) => put_quoted(out, text.as_str()),
        Json::List(items) => {
            out.push(b'[')?;
            put_items(out, order, items.list.as_slice())
        }
        Json::Map(members) => {
            out.push(b'{')?;
            put_members(out, order, members.list.as_slice())
        }
    }
}

#[cycle(put)]
fn put_items<'a>(
    out: &mut Vec<u8>,
    order: &mut Vec<&'a (Text, Json)>,
    list: &'a [Json],
) -> Result<(), AllocError>
    ensures text { OnOk result (out.new.items
        ≡ out.old.items ++ compact_items false (arranged_items (items_of (jsons list.now)))) }
    ensures appends { StartsWith out.new.items out.old.items }
    ensures order { OnOk result (order.new.items ≡ order.old.items) }
{
    let mut later = false;
    for item in list {
        if later {
            out.push(b',')?;
        }
        put(out, order, item)?;
        later = true;
    }
    out.push(b']')?;
    Ok(())
}

#[cycle(put)]
fn put_members<'a>(
    out: &mut Vec<u8>,
    order: &mut Vec<&'a (Text, Json)>,
    list: &'a [(Text, Json)],
) -> Result<(), AllocError>
    requires { HasDistinctKeys (pairs list.now) }
    ensures text { OnOk result (out.new.items
        ≡ out.old.items ++ compact_members false (arranged_members (members_of (pairs list.now)))) }
    ensures appends { StartsWith out.new.items out.old.items }
    ensures order { OnOk result (order.new.items ≡ order.old.items) }
{
    let start = order.len();
    arrange(order, list)?;
    let end = order.len();
    let mut later = false;
    for at in start..end {
        let member = order[at];
        if later {
            out.push(b',')?;
        }
        put_quoted(out, member.0.as_str())?;
        out.push(b':')?;
        put(out, order, &member.1)?;
        later = true;
    }
    out.push(b'}')?;
    order.truncate(start);
    Ok(())
}

// Appends the members to `order`, sorted by the bytes of their keys.
fn arrange<'a>(
    order: &mut Vec<&'a (Text, Json)>,
    list: &'a [(Text, Json)],
) -> Result<(), AllocError>
    requires { HasDistinctKeys (pairs list.now) }
    ensures before { OnOk result (take (length order.old.items) order.new.items ≡ order.old.items) }
    ensures members { OnOk result (placed (drop (length order.old.items) order.new.items)
        ≡ arranged_members (members_of (pairs list.now))) }

    // No value nests deeper than the object.
    ensures levels { OnOk result (All (λ m. levels (json_of m.now.1) ≤ members_levels (members_of (pairs list.now)))
        (drop (length order.old.items) order.new.items)) }
{
    let start = order.len();
    append(order, list)?;
    sort_from(order, start);
    Ok(())
}

fn append<'a>(order: &mut Vec<&'a (Text, Json)>, list: &'a [(Text, Json)]) -> Result<(), AllocError>
    ensures before { OnOk result (take (length order.old.items) order.new.items ≡ order.old.items) }
    ensures members { OnOk result (map (λ m. m.now) (drop (length order.old.items) order.new.items) ≡ list.now) }
{
    for member in list {
        order.push(member)?;
    }
    Ok(())
}

// Sorts the members from `start` on by the bytes of their keys.
fn sort_from(order: &mut Vec<&(Text, Json)>, start: usize)
    requires { start ≤ length order.old.items }
    ensures before { take start order.new.items ≡ take start order.old.items }
    ensures permutation { IsPermutation (drop start order.old.items) (drop start order.new.items) }
    ensures sorted { AreInOrder (drop start order.new.items) }
{
    let part = &mut order.as_mut_slice()[start..];
    sort_part(part);
}

pub(crate) fn sort_part(part: &mut [&(Text, Json)])
    ensures permutation { IsPermutation part.old part.new }
    ensures sorted { AreInOrder part.new }
{
    if !are_in_order(part) {
        part.sort_unstable_by(|a, b| key_order(a, b));
    }
}

fn are_in_order(part: &[&(Text, Json)]) -> bool
    ensures { IsTrue result → AreInOrder part.now }
{
    for at in 1..part.len() {
        if key_order(part[at], part[at - 1]).is_lt() {
            return false;
        }
    }
    true
}

fn key_order(a: &(Text, Json), b: &(Text, Json)) -> Ordering
    ensures { result ≡ text_cmp a.now.0 b.now.0 }
{
    a.0.as_str().cmp(b.0.as_str())
}
