//! Texts from outside: what is taken, and the places at which others go wrong.
use crate::wrong::{Wrong, holds};
use json_read::json_tree::{Json, Members, Text, write_compact};
use json_read::stamp_time::Moment;
use json_read::{
    FieldFault, ReadFault, bool_field, find, list_field, map_field, peek, read, stamp_field,
    text_field,
};
use std::alloc::{AllocError, Global};

fn is_compact(alloc: Global, value: &Json, compact: &str) -> Result<bool, AllocError> {
    let written = write_compact(alloc, value)?;
    Ok(written.as_slice() == compact.as_bytes())
}

// Whether the text is taken, and the compact text of its value is `compact`.
fn reads_as(alloc: Global, text: &str, compact: &str) -> Result<bool, ReadFault> {
    let value = read(alloc, text.as_bytes())?;
    Ok(is_compact(alloc, &value, compact)?)
}

/// The place at which the bytes are no text.
pub(crate) fn stop_of(alloc: Global, bytes: &[u8]) -> Option<usize> {
    match read(alloc, bytes) {
        Err(ReadFault::NotJson { at }) => Some(at),
        _ => None,
    }
}

static TAKEN: [(&str, &str); 12] = [
    ("null", "null"),
    (" true\t\r\n ", "true"),
    ("\"\"", "\"\""),
    ("[]", "[]"),
    ("{}", "{}"),
    (
        "[1,\n 2 , [ ] ,{\"a\" : -0.5e+3}]",
        "[1,2,[],{\"a\":-0.5e+3}]",
    ),
    ("{\"a\":1,\"a\":2}", "{\"a\":2}"),
    (
        "{\"a\":1,\"b\":{\"c\":1,\"c\":[2]},\"a\":3}",
        "{\"a\":3,\"b\":{\"c\":[2]}}",
    ),
    (
        "\"\\u0041\\/\\\"\\u00e9\\ud834\\udd1e\\u0000\"",
        "\"A/\\\"\u{e9}\u{1d11e}\\u0000\"",
    ),
    ("\"\\b\\f\\n\\r\\t\\\\\"", "\"\\b\\f\\n\\r\\t\\\\\""),
    ("1E400", "1E400"),
    ("-0", "-0"),
];

fn are_taken(alloc: Global) -> Result<(), Wrong> {
    for (at, (text, compact)) in TAKEN.iter().enumerate() {
        holds(reads_as(alloc, text, compact)?, at)?;
    }
    Ok(())
}

#[test]
fn texts_are_taken_as_their_values(rt: HostRuntime) -> Result<(), Wrong> {
    are_taken(rt.alloc())
}

static STOPS: [(&str, usize); 31] = [
    ("", 0),
    (" ", 1),
    ("[1,]", 3),
    ("[1", 2),
    ("[,1]", 1),
    ("{\"a\":1,}", 7),
    ("{\"a\" 1}", 5),
    ("{a:1}", 1),
    ("{\"a\":1", 6),
    ("[1] x", 4),
    ("tru", 3),
    ("trux", 3),
    ("nul ", 3),
    ("01", 1),
    ("1.", 2),
    ("-", 1),
    ("-a", 1),
    ("1e+", 3),
    ("+1", 0),
    (".5", 0),
    ("'a'", 0),
    ("\"a", 2),
    ("\"\\x\"", 2),
    ("\"\\u12g4\"", 5),
    ("\"\\ud834\"", 7),
    ("\"\\ud834\\n\"", 8),
    ("\"\\udd1e\"", 4),
    ("\"\\udd1e\\ud834\"", 4),
    ("\"a\nb\"", 2),
    ("\u{feff}1", 0),
    ("\u{c}1", 0),
];

fn stop_there(alloc: Global) -> Result<(), Wrong> {
    for (row, (text, at)) in STOPS.iter().enumerate() {
        holds(stop_of(alloc, text.as_bytes()) == Some(*at), row)?;
    }
    Ok(())
}

#[test]
fn the_place_is_the_first_byte_that_no_text_has_there(rt: HostRuntime) -> Result<(), Wrong> {
    stop_there(rt.alloc())
}

static NO_UTF8: [(&[u8], usize); 7] = [
    (b"\xff", 0),
    (b"\"\xc0\x80\"", 1),
    (b"\"\xe0\x80\x80\"", 2),
    (b"\"\xed\xa0\x80\"", 2),
    (b"\"\xf4\x90\x80\x80\"", 2),
    (b"\"\xc3", 2),
    (b"\"\xc3\"", 2),
];

fn bytes_stop_there(alloc: Global) -> Result<(), Wrong> {
    for (row, (bytes, at)) in NO_UTF8.iter().enumerate() {
        holds(stop_of(alloc, bytes) == Some(*at), row)?;
    }
    Ok(())
}

#[test]
fn bytes_that_are_no_utf8_stop_it(rt: HostRuntime) -> Result<(), Wrong> {
    bytes_stop_there(rt.alloc())
}

fn is_taken(alloc: Global, bytes: &[u8]) -> bool {
    read(alloc, bytes).is_ok()
}

// The place at which the bytes go too deep.
fn too_deep_at(alloc: Global, bytes: &[u8]) -> Option<usize> {
    match read(alloc, bytes) {
        Err(ReadFault::TooDeep { at }) => Some(at),
        _ => None,
    }
}

// A list of so many levels.
fn nested(alloc: Global, levels: usize) -> Result<Vec<u8>, AllocError> {
    let mut text = vec![in alloc; b'['; levels]?;
    text.resize(levels.saturating_mul(2), b']')?;
    Ok(text)
}

#[test]
fn level_127_is_the_last(rt: HostRuntime) -> Result<(), Wrong> {
    let text = nested(rt.alloc(), 127)?;
    holds(is_taken(rt.alloc(), text.as_slice()), 127)?;
    holds(too_deep_at(rt.alloc(), &[b'['; 128]) == Some(127), 128)
}

// Whether the text is taken as a number with that spelling.
fn is_number(alloc: Global, text: &[u8]) -> bool {
    match read(alloc, text) {
        Ok(Json::Num(number)) => number.spelling().as_str().as_bytes() == text,
        _ => false,
    }
}

#[test]
fn long_numbers_keep_their_spelling(rt: HostRuntime) -> Result<(), Wrong> {
    let text = vec![in rt.alloc(); b'7'; 1000]?;
    holds(is_number(rt.alloc(), text.as_slice()), 0)
}

const FIELDS: &[u8] = b"{\"t\":\"a\",\"b\":true,\"m\":{},\"l\":[1],\"s\":\"1970-01-01T00:00:01Z\"}";

fn members(alloc: Global) -> Option<Members> {
    match read(alloc, FIELDS) {
        Ok(Json::Map(members)) => Some(members),
        _ => None,
    }
}

fn has(members: &Members, name: &str) -> bool {
    find(members, name).is_some()
}

fn has_text(members: &Members, name: &str, wanted: &str) -> bool {
    match text_field(members, name) {
        Ok(text) => text.as_str() == wanted,
        Err(_) => false,
    }
}

fn has_map(members: &Members, name: &str) -> bool {
    map_field(members, name).is_ok()
}

fn has_list(members: &Members, name: &str) -> bool {
    list_field(members, name).is_ok()
}

fn is_bool(members: &Members, name: &str, answer: Result<bool, FieldFault>) -> bool {
    bool_field(members, name) == answer
}

fn nanoseconds(members: &Members, name: &str) -> Result<i128, FieldFault> {
    match stamp_field(members, name) {
        Ok(moment) => Ok(moment.as_nanosecond()),
        Err(fault) => Err(fault),
    }
}

fn are_found(members: &Members) -> bool {
    has(members, "t")
        && !has(members, "x")
        && has_text(members, "t", "a")
        && has_map(members, "m")
        && has_list(members, "l")
}

fn are_told(members: &Members) -> bool {
    is_bool(members, "b", Ok(true))
        && is_bool(members, "x", Err(FieldFault::Missing))
        && is_bool(members, "t", Err(FieldFault::Wrong))
        && nanoseconds(members, "s") == Ok(1_000_000_000)
        && nanoseconds(members, "t") == Err(FieldFault::BadStamp)
}

#[test]
fn fields_are_found_by_name_and_kind(rt: HostRuntime) -> Result<(), Wrong> {
    let members = members(rt.alloc()).ok_or(Wrong::NotRead)?;
    holds(are_found(&members), 0)?;
    holds(are_told(&members), 1)
}

const PAYLOAD: &[u8] =
    b"{\"values\":[{\"certname\":\"b\"},\"]\"],\"certname\":1,\"producer_timestamp\":\"1970-01-01T00:00:01Z\",\"certn\\u0061me\":\"a\"}";

static UNKNOWN: [&str; 6] = [
    "{\"certname\":\"\",\"producer_timestamp\":\"1970-01-01T00:00:01Z\"}",
    "{\"certname\":\"a\",\"producer_timestamp\":\"1970-01-01\"}",
    "{\"certname\":\"a\",\"certname\":null,\"producer_timestamp\":\"1970-01-01T00:00:01Z\"}",
    "{\"certname\":\"a\",\"producer_timestamp\":\"1970-01-01T00:00:01Z\"",
    "[\"certname\"]",
    "1",
];

fn is_told(head: &Option<(Text, Moment)>, name: &str, nanosecond: i128) -> bool {
    match head {
        Some((text, moment)) => text.as_str() == name && moment.as_nanosecond() == nanosecond,
        None => false,
    }
}

fn is_known(
    alloc: Global,
    payload: &[u8],
    name: &str,
    nanosecond: i128,
) -> Result<bool, AllocError> {
    let head = peek(alloc, payload)?;
    Ok(is_told(&head, name, nanosecond))
}

fn is_unknown(alloc: Global, payload: &[u8]) -> Result<bool, AllocError> {
    Ok(peek(alloc, payload)?.is_none())
}

fn are_unknown(alloc: Global) -> Result<(), Wrong> {
    for (at, payload) in UNKNOWN.iter().enumerate() {
        holds(is_unknown(alloc, payload.as_bytes())?, at)?;
    }
    Ok(())
}

#[test]
fn a_payload_is_known_by_its_certname_and_stamp(rt: HostRuntime) -> Result<(), Wrong> {
    are_unknown(rt.alloc())?;
    holds(is_known(rt.alloc(), PAYLOAD, "a", 1_000_000_000)?, 6)
}
