//! Reads runs of members and of items: one loop reads them while their values are scalars, and leaves the stack alone.
ghost use Rattle.std.specs.Prelude.{◌≡◌, ◌<◌, ◌≤◌, ◌+◌, ◌⊎◌, length, drop, slice_index, IfOk, OnOk, List, ℕ, [], ◌∷◌, ◌↔◌, IsTrue};
ghost use Rattle.json_tree.specs.Tree.{pairs};
ghost use Rattle.json_machine.specs.text_spec.Json as spec;
ghost use Rattle.json_machine.specs.text_spec.Json.{items_of, items_levels, members_of, members_levels};
ghost use Rattle.json_machine.specs.Machine as machine;
ghost use Rattle.json_machine.specs.Machine.{verdict};
ghost use Rattle.json_read.specs.Found.{ColonFound, KeyFound, MembersRun, ItemsRun, IsOpening};

use crate::fault::ReadFault;
use crate::string::string_at;
use crate::token::skip;
use crate::value::scalar;
use json_tree::{Items, Json, Text};
use std::alloc::Global;

// An opening bracket or brace.
#[inline(always)]
fn is_opening(byte: u8) -> bool
    ensures { IsTrue result ↔ IsOpening byte }
{
    byte == b'[' || byte == b'{'
}

// After a key: white space, the colon and white space. Gives the offset at which the value begins.
#[inline(always)]
fn behind_key(bytes: &[u8], end: usize) -> Result<usize, ReadFault>
    requires { end ≤ length bytes.now }
    ensures value { (fs : List machine.Frame) (ms : List (List ℕ × spec.Json)) (k : List ℕ)
        → ColonFound bytes.now fs ms k result (verdict 127 fs (machine.colon ms k) end (drop end bytes.now)) }
    ensures bound { IfOk result (λ at. (end < at) × (at < length bytes.now)) }
{
    let colon = skip(bytes, end);
    if colon == bytes.len() {
        return Err(ReadFault::NotJson { at: colon });
    }
    if bytes[colon] != b':' {
        return Err(ReadFault::NotJson { at: colon });
    }
    let at = skip(bytes, colon + 1);
    if at == bytes.len() {
        return Err(ReadFault::NotJson { at });
    }
    Ok(at)
}

// The next key after white space, and the offset at which its value begins.
#[inline(always)]
fn next_key(alloc: Global, bytes: &[u8], start: usize) -> Result<(Text, usize), ReadFault>
    requires { start ≤ length bytes.now }
    ensures value { (fs : List machine.Frame) (ms : List (List ℕ × spec.Json))
        → KeyFound bytes.now fs ms result (verdict 127 fs (machine.next_key ms) start (drop start bytes.now)) }
    ensures bound { IfOk result (λ r. (start < r.1) × (r.1 < length bytes.now)) }
{
    let quote = skip(bytes, start);
    if quote == bytes.len() {
        return Err(ReadFault::NotJson { at: quote });
    }
    if bytes[quote] != b'"' {
        return Err(ReadFault::NotJson { at: quote });
    }
    match string_at(alloc, bytes, quote + 1) {
        Ok((key, end)) => match behind_key(bytes, end) {
            Ok(at) => Ok((key, at)),
            Err(fault) => Err(fault),
        },
        Err(fault) => Err(fault),
    }
}

/// Appends the members from the next key on while their values are scalars. It gives None and the offset of the closing brace, or
/// the key of a container and the offset at which that container begins.
#[inline(always)]
pub(crate) fn run_members(
    alloc: Global,
    members: &mut Vec<(Text, Json)>,
    bytes: &[u8],
    start: usize,
) -> Result<(Option<Text>, usize), ReadFault>
    requires place { start ≤ length bytes.now }
    ensures value { (fs : List machine.Frame) → MembersRun bytes.now fs (pairs members.new.items) result
        (verdict 127 fs (machine.next_key (pairs members.old.items)) start (drop start bytes.now)) }
    ensures bound { IfOk result (λ r. (start < r.1) × (r.1 < length bytes.now)) }
    ensures levels { members_levels (members_of (pairs members.new.items)) ≡ members_levels (members_of (pairs members.old.items)) }
{
    let mut at = start;
    'members: loop {
        let (key, place) = next_key(alloc, bytes, at)?;
        let byte = bytes[place];
        if is_opening(byte) {
            return Ok((Some(key), place));
        }
        let (json, end) = scalar(alloc, bytes, place, byte)?;
        members.push((key, json))?;
        let next = skip(bytes, end);
        if next == bytes.len() {
            return Err(ReadFault::NotJson { at: next });
        }
        match bytes[next] {
            b',' => at = next + 1,
            b'}' => return Ok((None, next)),
            _ => return Err(ReadFault::NotJson { at: next }),
        }
    }
}

/// Appends the items from the next one on while they are scalars. It gives whether the array ends, with the offset of its closing
/// bracket, or otherwise the offset at which a container begins.
#[inline(always)]
pub(crate) fn run_items(
    alloc: Global,
    items: &mut Items,
    bytes: &[u8],
    start: usize,
) -> Result<(bool, usize), ReadFault>
    requires place { start ≤ length bytes.now }
    ensures value { (fs : List machine.Frame) → ItemsRun bytes.now fs items.new result
        (verdict 127 (machine.in_array items.old ∷ fs) machine.value start (drop start bytes.now)) }
    ensures bound { IfOk result (λ r. (start ≤ r.1) × (r.1 < length bytes.now)) }
    ensures levels { items_levels (items_of items.new) ≡ items_levels (items_of items.old) }
{
    let mut at = start;
    'items: loop {
        let place = skip(bytes, at);
        if place == bytes.len() {
            return Err(ReadFault::NotJson { at: place });
        }
        let byte = bytes[place];
        if is_opening(byte) {
            return Ok((false, place));
        }
        let (json, end) = scalar(alloc, bytes, place, byte)?;
        items.push(json)?;
        let next = skip(bytes, end);
        if next == bytes.len() {
            return Err(ReadFault::NotJson { at: next });
        }
        match bytes[next] {
            b',' => at = next + 1,
            b']' => return Ok((true, next)),
            _ => return Err(ReadFault::NotJson { at: next }),
        }
    }
}
