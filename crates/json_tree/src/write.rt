//! Writes the compact text of a value: no white space, members in their order, the shortest escapes.
ghost use Rattle.std.specs.Prelude.{◌≡◌, ◌++◌, ◌<◌, ◌≤◌, ◌||◌, OnOk, IfOk, IsTrue, ℕ, length, flat_map, slice_range, slice_index, false, codes, if◌then◌else◌};
ghost use Rattle.std.specs.Char.{digit_char};
ghost use Rattle.std.specs.Io.{StartsWith};
ghost use Rattle.json_tree.specs.Tree.{json_of, jsons, pairs};
ghost use Rattle.json_tree.specs.Plain.{is_plain};
ghost use Rattle.text_spec.specs.Json.{items_of, members_of};
ghost use Rattle.text_spec.specs.Compact.{compact, compact_items, compact_members, escaped, quoted};

use crate::text::{Bytes, Text};
use crate::tree::Json;
use std::alloc::{AllocError, Global};

/// The compact text of a value.
pub fn write_compact(alloc: Global, json: &Json) -> Result<Bytes, AllocError>
    ensures { IfOk result (λ b. b ≡ compact (json_of json.now)) }
{
    let mut out = Vec::new(alloc);
    put(&mut out, json)?;
    Ok(Bytes::from_vec(out))
}

/// Appends the compact text of a value. If memory runs out, `out` keeps its old bytes as a prefix.
pub fn append_compact(out: &mut Vec<u8>, json: &Json) -> Result<(), AllocError>
    ensures text { OnOk result (out.new.items ≡ out.old.items ++ compact (json_of json.now)) }
    ensures appends { StartsWith out.new.items out.old.items }
{
    put(out, json)
}

/// Appends a text in quotation marks, with escapes. If memory runs out, `out` keeps its old bytes as a prefix.
pub fn append_quoted(out: &mut Vec<u8>, text: &str) -> Result<(), AllocError>
    ensures text { OnOk result (out.new.items ≡ out.old.items ++ quoted text.now) }
    ensures appends { StartsWith out.new.items out.old.items }
{
    put_quoted(out, text)
}

#[cycle(put)]
fn put(out: &mut Vec<u8>, json: &Json) -> Result<(), AllocError>
    ensures text { OnOk result (out.new.items ≡ out.old.items ++ compact (json_of json.now)) }
    ensures appends { StartsWith out.new.items out.old.items }
{
    match json {
        Json::Null => out.extend_from_slice(b"null"),
        Json::Bool(b) => put_bool(out, *b),
        Json::Num(number) => out.extend_from_slice(number.spelling().as_str().as_bytes()),
        Json::Text(text) => put_quoted(out, text.as_str()),
        Json::List(items) => {
            out.push(b'[')?;
            put_items(out, items.list.as_slice())
        }
        Json::Map(members) => {
            out.push(b'{')?;
            put_members(out, members.list.as_slice())
        }
    }
}

#[cycle(put)]
fn put_items(out: &mut Vec<u8>, list: &[Json]) -> Result<(), AllocError>
    ensures text { OnOk result (out.new.items
        ≡ out.old.items ++ compact_items false (items_of (jsons list.now))) }
    ensures appends { StartsWith out.new.items out.old.items }
{
    let mut later = false;
    for item in list {
        if later {
            out.push(b',')?;
        }
        put(out, item)?;
        later = true;
    }
    out.push(b']')?;
    Ok(())
}

#[cycle(put)]
fn put_members(out: &mut Vec<u8>, list: &[(Text, Json)]) -> Result<(), AllocError>
    ensures text { OnOk result (out.new.items
        ≡ out.old.items ++ compact_members false (members_of (pairs list.now))) }
    ensures appends { StartsWith out.new.items out.old.items }
{
    let mut later = false;
    for member in list {
        if later {
            out.push(b',')?;
        }
        put_quoted(out, member.0.as_str())?;
        out.push(b':')?;
        put(out, &member.1)?;
        later = true;
    }
    out.push(b'}')?;
    Ok(())
}

pub(crate) fn put_bool(out: &mut Vec<u8>, value: bool) -> Result<(), AllocError>
    ensures text { OnOk result (out.new.items ≡ out.old.items ++ (if value then codes "true" else codes "false")) }
    ensures appends { StartsWith out.new.items out.old.items }
{
    if value {
        out.extend_from_slice(b"true")
    } else {
        out.extend_from_slice(b"false")
    }
}

/// Appends the text in quotation marks. Each run of unescaped bytes is copied at once.
pub(crate) fn put_quoted(out: &mut Vec<u8>, text: &str) -> Result<(), AllocError>
    ensures text { OnOk result (out.new.items ≡ out.old.items ++ quoted text.now) }
    ensures appends { StartsWith out.new.items out.old.items }
{
    let bytes = text.as_bytes();
    out.push(b'"')?;
    let mut at: usize = 0;
    'runs: loop {
        let end = plain_end(bytes, at);
        out.extend_from_slice(&bytes[at..end])?;
        if end == bytes.len() {
            break;
        }
        put_escaped(out, bytes[end])?;
        at = end + 1;
    }
    out.push(b'"')?;
    Ok(())
}

// Where the run of unescaped bytes that begins at `start` ends.
fn plain_end(bytes: &[u8], start: usize) -> usize
    requires { start ≤ length bytes.now }
    ensures from { start ≤ result }
    ensures within { result ≤ length bytes.now }
    ensures plain { flat_map escaped (slice_range bytes.now start result) ≡ slice_range bytes.now start result }
{
    let mut at = chunks_end(bytes, start);
    while at < bytes.len() && is_plain(bytes[at]) {
        at += 1;
    }
    at
}

// The offset after the eight-byte chunks from `start` on that need no escapes.
#[inline(always)]
fn chunks_end(bytes: &[u8], start: usize) -> usize
    requires { start ≤ length bytes.now }
    ensures from { start ≤ result }
    ensures within { result ≤ length bytes.now }
    ensures plain { flat_map escaped (slice_range bytes.now start result) ≡ slice_range bytes.now start result }
{
    let mut at = start;
    'chunks: while bytes.len() - at >= 8 && are_plain(&bytes[at..at + 8]) {
        at += 8;
    }
    at
}

// The loop has no early exit, so that the bytes are tested in parallel.
#[inline(always)]
fn are_plain(chunk: &[u8]) -> bool
    ensures { IsTrue result → (k : ℕ) → k < length chunk.now → IsTrue (is_plain (slice_index chunk.now k)) }
{
    let mut all = true;
    for byte in chunk {
        all &= is_plain(*byte);
    }
    all
}

#[inline(always)]
fn is_plain(byte: u8) -> bool
    ensures { result ≡ is_plain byte }
{
    byte >= 32 && byte != b'"' && byte != b'\\'
}

#[tactic(auto, unfolding(text_spec::specs::Compact::escaped))]
fn put_escaped(out: &mut Vec<u8>, byte: u8) -> Result<(), AllocError>
    ensures text { OnOk result (out.new.items ≡ out.old.items ++ escaped byte) }
    ensures appends { StartsWith out.new.items out.old.items }
{
    match byte {
        b'"' | b'\\' => out.extend_from_slice(&[b'\\', byte]),
        8 => out.extend_from_slice(b"\\b"),
        9 => out.extend_from_slice(b"\\t"),
        10 => out.extend_from_slice(b"\\n"),
        12 => out.extend_from_slice(b"\\f"),
        13 => out.extend_from_slice(b"\\r"),
        0..=31 => {
            out.extend_from_slice(b"\\u00")?;
            out.push(digit(byte / 16))?;
            out.push(digit(byte % 16))?;
            Ok(())
        }
        _ => {
            out.push(byte)?;
            Ok(())
        }
    }
}

// The hexadecimal digit of a value, in lower case.
fn digit(value: u8) -> u8
    requires { value < 16 }
    ensures { result ≡ digit_char value }
{
    if value < 10 {
        b'0' + value
    } else {
        b'a' + (value - 10)
    }
}
