//! Makes the members of an object from its pairs as they were read: a later equal key replaces the value and keeps the first
//! position.
//!
//! Pairs with distinct keys come back unchanged. Up to 256 pairs are told apart by a mark of each key: a key is compared with
//! earlier ones only if its mark occurred before. Up to 16 pairs use a cheaper mark of the key's ends. More pairs use an ordered
//! map from key to index. The map isn't hashed, so no choice of keys makes it slow.
ghost use Rattle.std.specs.Prelude.{◌≡◌, ◌≤◌, ◌<◌, [], ℕ, IfOk, OnOk, IsTrue, Some, None, false};
ghost use Rattle.text_spec.specs.Json.{set_member, settled, members_of, members_levels, HasDistinctKeys};
ghost use Rattle.json_tree.specs.Tree.{json_of, pairs};
ghost use Rattle.std.specs.BTreeMap.{get_by_text};
ghost use Rattle.json_tree.specs.Places.{index_of};
ghost use Rattle.json_tree.specs.Indexes.{IsIndex};
ghost use Rattle.json_tree.specs.Marks.{mark_of, ends_mark};

use crate::places::{place_of, replace, set_in};
use crate::text::Text;
use crate::tree::Json;
use std::alloc::{AllocError, Global};
use std::collections::BTreeMap;

// Up to this many pairs are told apart by marks of the ends of their keys.
const FEW: usize = 16;

// The number of marks of ends.
const END_MARKS: usize = 64;

// Up to this many pairs are told apart by marks.
const MARKED: usize = 256;

// The number of marks.
const MARKS: usize = 2048;

/// Sets the pairs one after the other: each later value takes the first position of its key. It takes O(n log n) steps for n
/// pairs, and copies a key only if a key occurs twice.
pub fn settle(alloc: Global, list: Vec<(Text, Json)>) -> Result<Vec<(Text, Json)>, AllocError>
    ensures settled { IfOk result (λ v. pairs v.items ≡ settled [] (pairs list.items)) }
    ensures distinct { IfOk result (λ v. HasDistinctKeys (pairs v.items)) }

    // The values nest no deeper than before.
    ensures levels { IfOk result (λ v. (n : ℕ) → members_levels (members_of (pairs list.items)) ≤ n
        → members_levels (members_of (pairs v.items)) ≤ n) }
{
    if list.len() <= FEW {
        settle_few(alloc, list)
    } else {
        settle_many(alloc, list)
    }
}

fn settle_few(alloc: Global, list: Vec<(Text, Json)>) -> Result<Vec<(Text, Json)>, AllocError>
    ensures { IfOk result (λ v. pairs v.items ≡ settled [] (pairs list.items)) }
{
    if are_distinct_few(list.as_slice()) {
        return Ok(list);
    }
    let mut done = Vec::new(alloc);
    for (key, value) in list {
        set_in(&mut done, key, value)?;
    }
    Ok(done)
}

// The mark of a key by its length, its first and its last byte. Equal keys have equal marks.
#[inline(always)]
fn ends_mark(key: &[u8]) -> usize
    ensures value { result ≡ ends_mark key.now }
    ensures bound { result < 64 }
{
    match key {
        [] => 0,
        [first, rest @ ..] => {
            let last = key[rest.len()] as usize;
            (rest.len() % END_MARKS * 7 + (*first as usize * 13 + last * 17)) % END_MARKS
        }
    }
}

// Whether all keys are known to be distinct.
fn are_distinct_few(list: &[(Text, Json)]) -> bool
    ensures { IsTrue result → settled [] (pairs list.now) ≡ pairs list.now }
{
    let mut marks = [false; END_MARKS];
    for at in 0..list.len() {
        let key = list[at].0.as_str();
        let mark = ends_mark(key.as_bytes());
        if !is_new(marks[mark], &list[..at], key) {
            return false;
        }
        marks[mark] = true;
    }
    true
}

fn settle_many(alloc: Global, list: Vec<(Text, Json)>) -> Result<Vec<(Text, Json)>, AllocError>
    ensures { IfOk result (λ v. pairs v.items ≡ settled [] (pairs list.items)) }
{
    if list.len() <= MARKED && are_apart(list.as_slice()) {
        return Ok(list);
    }
    if are_distinct(alloc, list.as_slice())? {
        return Ok(list);
    }
    let mut places = BTreeMap::new(alloc);
    let mut done = Vec::new(alloc);
    for (key, value) in list {
        put(alloc, &mut places, &mut done, key, value)?;
    }
    Ok(done)
}

// The mark of a key. Equal keys have equal marks.
#[inline(always)]
fn mark_of(key: &[u8]) -> usize
    ensures value { result ≡ mark_of key.now }
    ensures bound { result < 2048 }
{
    let mut mark: usize = 0;
    for byte in key {
        mark = (mark * 31 + *byte as usize) % MARKS;
    }
    mark
}

// Whether the key is new: its mark didn't occur before, or a search finds no equal key.
#[inline(always)]
fn is_new(marked: bool, list: &[(Text, Json)], key: &str) -> bool
    requires { marked ≡ false → index_of key.now (pairs list.now) ≡ None }
    ensures { IsTrue result → index_of key.now (pairs list.now) ≡ None }
{
    if marked {
        place_of(list, key).is_none()
    } else {
        true
    }
}

// Whether all keys are known to be distinct.
fn are_apart(list: &[(Text, Json)]) -> bool
    ensures { IsTrue result → settled [] (pairs list.now) ≡ pairs list.now }
{
    let mut marks = [false; MARKS];
    for at in 0..list.len() {
        let key = list[at].0.as_str();
        let mark = mark_of(key.as_bytes());
        if !is_new(marks[mark], &list[..at], key) {
            return false;
        }
        marks[mark] = true;
    }
    true
}

// Sets the value of a key that is in the map, or appends the pair.
fn put(
    alloc: Global,
    places: &mut BTreeMap<String, usize>,
    done: &mut Vec<(Text, Json)>,
    key: Text,
    value: Json,
) -> Result<(), AllocError>
    requires { IsIndex places.old (pairs done.old.items) }
    ensures index { OnOk result (IsIndex places.new (pairs done.new.items)) }
    ensures pairs { OnOk result (pairs done.new.items ≡ set_member key (json_of value) (pairs done.old.items)) }
{
    match known_place(places, key.as_str()) {
        Some(at) => {
            replace(done, at, key, value);
            Ok(())
        }
        None => append(alloc, places, done, key, value),
    }
}

fn known_place(places: &BTreeMap<String, usize>, key: &str) -> Option<usize>
    ensures { result ≡ get_by_text places.now key.now }
{
    match places.get(key) {
        Some(place) => Some(*place),
        None => None,
    }
}

// Appends a pair whose key is new.
fn append(
    alloc: Global,
    places: &mut BTreeMap<String, usize>,
    done: &mut Vec<(Text, Json)>,
    key: Text,
    value: Json,
) -> Result<(), AllocError>
    requires index { IsIndex places.old (pairs done.old.items) }
    requires absent { index_of key (pairs done.old.items) ≡ None }
    ensures index { OnOk result (IsIndex places.new (pairs done.new.items)) }
    ensures pairs { OnOk result (pairs done.new.items ≡ set_member key (json_of value) (pairs done.old.items)) }
{
    let name = String::from_str(alloc, key.as_str())?;
    places.insert(name, done.len())?;
    done.push((key, value))?;
    Ok(())
}

// Whether all keys are known to be distinct.
fn are_distinct(alloc: Global, list: &[(Text, Json)]) -> Result<bool, AllocError>
    ensures { IfOk result (λ b. IsTrue b → settled [] (pairs list.now) ≡ pairs list.now) }
{
    let mut places = BTreeMap::new(alloc);
    let mut at: usize = 0;
    for member in list {
        let key = member.0.as_str();
        if places.get(key).is_some() {
            return Ok(false);
        }
        places.insert(key, at)?;
        at += 1;
    }
    Ok(true)
}
